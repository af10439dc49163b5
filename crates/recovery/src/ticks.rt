//! What a tick asks.

ghost use Rattle.std.specs.Prelude.{◌≡◌, ◌≤◌, ◌<◌, ◌^◌, ◌-◌, ◌&&◌, [], length, map, true, false, not, filter, IfOk, OnOk, OnErr, Some};
ghost use Rattle.std.specs.Prelude.{IfSome};
ghost use Rattle.object_id.specs.declared.limits.TheConstants.{NODES_MAX};
ghost use Rattle.object_list.specs.Gathered.{has_node, is_same_node};
ghost use Rattle.object_id.specs.Policy.{IsPolicy};
ghost use Rattle.recovery.specs.Shown.{live_policy};
ghost use Rattle.recovery.specs.State.{Message, is_listed, all_unanswered, MayTick};
ghost use Rattle.recovery.specs.Level.{level_over};
ghost use Rattle.recovery.specs.Tick.{lists_asked, level_messages, next_search, tick_sends, state_after_tick};
ghost use Rattle.recovery.specs.Kept.{recovery_state, messages_in, level_end};
ghost use Rattle.recovery.specs.Step.{MayStep, MayEndLevel};
ghost use Rattle.peer_proto.specs.declared.ask.PeerAsk.TheVariants as asks;

use crate::in_flight::{Asked, InFlight};
use crate::level::level_end;
use crate::recovery::Recovery;
use crate::rows::Rows;
use crate::search::Search;
use crate::sends::RecoverSends;
use object_id::{Epoch, NoMemory, NodeId, Policy, TARGETS_MAX};
use object_list::Lists;
use peer_proto::SendList;
use std::alloc::Global;

/// Whether a node is one of the members. Looks at each member.
pub(crate) fn is_member(members: &[NodeId], node: NodeId) -> bool
    ensures { result ≡ has_node node members.now }
{
    members.contains(&node)
}

/// The members among some nodes but for oneself. Takes them, and looks at each member for each of them.
fn other_members(
    alloc: Global,
    me: NodeId,
    members: &[NodeId],
    nodes: &[NodeId],
) -> Result<Vec<NodeId>, NoMemory>
    ensures others { IfOk result (λ others. others.items
        ≡ filter (λ node. has_node node members.now && not (is_same_node me node)) nodes.now) }
    ensures few { IfOk result (λ others. length others.items ≤ length nodes.now) }
{
    let mut others = Vec::from_slice(alloc, nodes)?;
    others.retain(|node| is_member(members, *node) && *node != me);
    Ok(others)
}

impl Recovery {
    /// Asks each other member that hasn't named its objects for them, or once all have, the targets of the next level of the search for
    /// the smallest pending object; where a level has none to ask, it is over at once. The messages are numbered upwards from `first`.
    /// Costs the targets of one level, with a look at the members for each, and takes the messages. Without memory nothing changes.
    #[tactic(auto, using(crate::proofs::TickLemmas::tick_none))]
    pub fn tick<R: Rows>(&mut self, first: u32, rows: &mut R) -> Result<RecoverSends, NoMemory>
        requires may { MayTick first (recovery_state self.old (R.shown rows.old)) }
        requires step { MayStep (recovery_state self.old (R.shown rows.old)) }
        ensures sends { IfOk result (λ sends. sends.list ≡ tick_sends first (recovery_state self.old (R.shown rows.old))) }
        ensures ok { OnOk result (recovery_state self.new (R.shown rows.new)
            ≡ state_after_tick first (recovery_state self.old (R.shown rows.old))) }
        ensures err { OnErr result (recovery_state self.new (R.shown rows.new) ≡ recovery_state self.old (R.shown rows.old)) }
        ensures rest { R.rest rows.new ≡ R.rest rows.old }
    {
        if self.lists.waiting().is_empty() {
            self.tick_search(first, rows)
        } else {
            self.tick_unlisted(first, rows)
        }
    }

    /// Asks each other member that hasn't named its objects for them.
    #[tactic(auto, using(crate::proofs::TickLemmas::none_older))]
    fn tick_lists(&mut self, first: u32) -> Result<RecoverSends, NoMemory>
        requires none { all_unanswered self.old ≡ [] }
        requires room { first ≤ 2 ^ 32 - NODES_MAX }
        requires few { length self.old.lists.waiting ≤ NODES_MAX }
        ensures sends { IfOk result (λ sends. sends.list
            ≡ map (λ (message : Message). (message.to, message.request)) (lists_asked first self.old)) }
        ensures ok { OnOk result (self.new ≡ record self.old { unanswered = lists_asked first self.old }) }
        ensures err { OnErr result (self.new ≡ self.old) }
    {
        let flight = InFlight::to_all(
            self.alloc,
            Asked::Lists,
            self.epoch,
            first,
            self.lists.waiting(),
        )?;
        let list = flight.sends(self.alloc, self.me)?;
        self.flight = flight;
        Ok(RecoverSends { list })
    }

    /// The tick while a member hasn't named its objects.
    fn tick_unlisted<R: Rows>(
        &mut self,
        first: u32,
        _rows: &mut R,
    ) -> Result<RecoverSends, NoMemory>
        requires lacks { is_listed self.old ≡ false }
        requires none { all_unanswered self.old ≡ [] }
        requires room { first ≤ 2 ^ 32 - NODES_MAX }
        requires few { length self.old.lists.waiting ≤ NODES_MAX }
        ensures sends { IfOk result (λ sends. sends.list ≡ tick_sends first (recovery_state self.old (R.shown _rows.old))) }
        ensures ok { OnOk result (recovery_state self.new (R.shown _rows.new)
            ≡ state_after_tick first (recovery_state self.old (R.shown _rows.old))) }
        ensures err { OnErr result (recovery_state self.new (R.shown _rows.new) ≡ recovery_state self.old (R.shown _rows.old)) }
        ensures rest { R.rest _rows.new ≡ R.rest _rows.old }
    {
        let sends = self.tick_lists(first)?;
        Ok(sends)
    }

    /// The search whose level a tick asks.
    fn next_search<R: Rows>(&self, rows: &R) -> Option<Search>
        ensures { result ≡ next_search (recovery_state self.now (R.shown rows.now)) }
    {
        match self.current_search(rows) {
            Some(search) => Some(Search::at(self.alloc, search.oid(), search.level())),
            None => match rows.first_pending() {
                Some(oid) => Some(Search::at(
                    self.alloc,
                    oid,
                    Epoch(self.epoch.0.saturating_sub(1)),
                )),
                None => None,
            },
        }
    }

    /// Asks the targets of the next level, or ends it where there is none to ask.
    #[tactic(auto, using(crate::proofs::TickLemmas::search_rules, crate::proofs::MayLemmas::next_ends))]
    fn tick_search<R: Rows>(&mut self, first: u32, rows: &mut R) -> Result<RecoverSends, NoMemory>
        requires listed { is_listed self.old ≡ true }
        requires may { MayTick first (recovery_state self.old (R.shown rows.old)) }
        requires step { MayStep (recovery_state self.old (R.shown rows.old)) }
        ensures sends { IfOk result (λ sends. sends.list ≡ tick_sends first (recovery_state self.old (R.shown rows.old))) }
        ensures ok { OnOk result (recovery_state self.new (R.shown rows.new)
            ≡ state_after_tick first (recovery_state self.old (R.shown rows.old))) }
        ensures err { OnErr result (recovery_state self.new (R.shown rows.new) ≡ recovery_state self.old (R.shown rows.old)) }
        ensures rest { R.rest rows.new ≡ R.rest rows.old }
    {
        match self.next_search(rows) {
            Some(search) => self.tick_level(first, search, rows),
            None => Ok(RecoverSends {
                list: SendList::new(self.alloc),
            }),
        }
    }

    /// A message to each member among the targets of a search's level, but for the node itself.
    fn flight_to<R: Rows>(
        &self,
        first: u32,
        search: &Search,
        policy: Policy,
        targets: &[NodeId],
        _rows: &R,
    ) -> Result<InFlight, NoMemory>
        requires room { first ≤ 2 ^ 32 - NODES_MAX }
        requires few { length targets.now ≤ TARGETS_MAX }
        requires valid { IsPolicy policy }
        requires policy { live_policy (R.shown _rows.now) search.now.oid ≡ Some policy }
        requires targets { targets.now ≡ (R.shown _rows.now).targets search.now.level search.now.oid policy }
        ensures messages { IfOk result (λ flight. messages_in self.now.me flight
            ≡ level_messages first (recovery_state self.now (R.shown _rows.now)) search.now) }
        ensures current { IfOk result (λ flight. flight.is_older ≡ false) }
    {
        let others = other_members(self.alloc, self.me, self.members.as_slice(), targets)?;
        let asked = Asked::Rows {
            oid: search.oid(),
            level: search.level(),
            wanted: policy.wanted(search.oid().kind()),
        };
        let flight = InFlight::to_all(self.alloc, asked, self.epoch, first, others.as_slice())?;
        Ok(flight)
    }

    /// The messages to a search's level; none where the object's id isn't known, or is dead.
    #[tactic(auto, using(crate::proofs::FoundLemmas::live_known, crate::proofs::FoundLemmas::valid_policy))]
    fn level_flight<R: Rows>(
        &self,
        first: u32,
        search: &Search,
        rows: &R,
    ) -> Result<InFlight, NoMemory>
        requires room { first ≤ 2 ^ 32 - NODES_MAX }
        requires from { 1 ≤ search.now.level }
        requires to { search.now.level ≤ (R.shown rows.now).epoch }
        requires policy { IfSome ((R.shown rows.now).policy_of search.now.oid) IsPolicy }
        ensures messages { IfOk result (λ flight. messages_in self.now.me flight
            ≡ level_messages first (recovery_state self.now (R.shown rows.now)) search.now) }
        ensures current { IfOk result (λ flight. flight.is_older ≡ false) }
    {
        let mut targets = [NodeId(0); TARGETS_MAX];
        let Some((count, policy)) = rows.targets(search.level(), search.oid(), &mut targets) else {
            return Ok(InFlight::none(self.alloc));
        };
        self.flight_to(first, search, policy, &targets[..count], rows)
    }

    /// These messages are sent, and the search goes on.
    fn ask_level(&mut self, flight: InFlight, search: Search) -> Result<RecoverSends, NoMemory>
        requires { flight.is_older ≡ false }
        ensures sends { IfOk result (λ sends. sends.list
            ≡ map (λ (message : Message). (message.to, message.request)) (messages_in self.old.me flight)) }
        ensures ok { OnOk result (self.new ≡ record self.old {
          search = Some search;
          unanswered = messages_in self.old.me flight;
          older = [];
        }) }
        ensures err { OnErr result (self.new ≡ self.old) }
    {
        let list = flight.sends(self.alloc, self.me)?;
        self.flight = flight;
        self.search = Some(search);
        Ok(RecoverSends { list })
    }

    /// A search's level ends without a message.
    #[tactic(auto, using(crate::proofs::EndLemmas::over_by_end))]
    fn end_now<R: Rows>(&mut self, search: &Search, rows: &mut R) -> Result<(), NoMemory>
        requires { MayEndLevel self.old.epoch (R.shown rows.old) search.now }
        ensures ok { OnOk result (recovery_state self.new (R.shown rows.new)
            ≡ level_over search.now (recovery_state self.old (R.shown rows.old))) }
        ensures err { OnErr result (recovery_state self.new (R.shown rows.new) ≡ recovery_state self.old (R.shown rows.old)) }
        ensures rest { R.rest rows.new ≡ R.rest rows.old }
    {
        let end = level_end(self.alloc, self.me, self.epoch, search, rows)?;
        self.end_level(search.oid(), end, rows)
    }

    #[tactic(auto, using(crate::proofs::TickLemmas::level_rules))]
    fn tick_level<R: Rows>(
        &mut self,
        first: u32,
        search: Search,
        rows: &mut R,
    ) -> Result<RecoverSends, NoMemory>
        requires listed { is_listed self.old ≡ true }
        requires next { next_search (recovery_state self.old (R.shown rows.old)) ≡ Some search }
        requires room { first ≤ 2 ^ 32 - NODES_MAX }
        requires none { self.old.unanswered ≡ [] }
        requires older { self.old.older ≡ [] }
        requires may { MayEndLevel self.old.epoch (R.shown rows.old) search }
        ensures sends { IfOk result (λ sends. sends.list ≡ tick_sends first (recovery_state self.old (R.shown rows.old))) }
        ensures ok { OnOk result (recovery_state self.new (R.shown rows.new)
            ≡ state_after_tick first (recovery_state self.old (R.shown rows.old))) }
        ensures err { OnErr result (recovery_state self.new (R.shown rows.new) ≡ recovery_state self.old (R.shown rows.old)) }
        ensures rest { R.rest rows.new ≡ R.rest rows.old }
    {
        let flight = self.level_flight(first, &search, rows)?;
        if flight.is_empty() {
            self.end_now(&search, rows)?;
            Ok(RecoverSends {
                list: SendList::new(self.alloc),
            })
        } else {
            self.ask_level(flight, search)
        }
    }
}
