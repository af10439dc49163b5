//! What the end of a message leaves.

ghost use Rattle.std.specs.Prelude.{◌≡◌, ◌≤◌, ◌<◌, ◌-◌, true, false, IfOk, IsOk, OnOk, OnErr, IsTrue, Some, None, IfSome};
ghost use Rattle.std.specs.List.{list_any};
ghost use Rattle.std.specs.Option.{option_copied, option_map};
ghost use Rattle.recovery.specs.Shown.{NodeView};
ghost use Rattle.recovery.specs.State.{search_on, message_of, recovery_awaits};
ghost use Rattle.recovery.specs.Fits.{fits_recovery};
ghost use Rattle.recovery.specs.Level.{is_of_search};
ghost use Rattle.recovery.specs.Steps.{recovery_on_reply, recovery_on_loss, message_end, messages_without, without_unanswered};
ghost use Rattle.recovery.specs.Steps.{search_after_answer, after_list, after_read, after_ask, with_list_of};
ghost use Rattle.recovery.specs.Kept.{recovery_state, ask_of, level_end, level_over_after, sent_to, sent_by, is_searched, IsSmallEnd};
ghost use Rattle.recovery.specs.Step.{MayStep, MayEndLevel, SaysOfRow, IsFittingSay};

use crate::in_flight::Asked;
use crate::level::level_end;
use crate::level_end::LevelEnd;
use crate::listing::{ids_when_listed, show_pending};
use crate::recovery::Recovery;
use crate::rows::Rows;
use object_id::{NoMemory, NodeId, Oid};
use object_list::Lists;
use object_store::OidList;
use peer_proto::{PeerRsp, PeerSay};

impl Recovery {
    /// A reply to a message came. Costs the logarithm of the messages, and takes what it tells. A list takes and costs the ids that were
    /// named so far and its own, and the last list also the node's; with the last answer of a level it looks at each answer for each
    /// target, and where there are enough rows takes the object's bytes by them. The end of a message that an older recovery sent takes
    /// no memory. Without memory nothing changes.
    #[tactic(auto, unfolding(crate::specs::Steps::recovery_on_reply))]
    pub fn on_reply<R: Rows>(&mut self, rsp: &PeerRsp, rows: &mut R) -> Result<(), NoMemory>
        requires fits { IsTrue (fits_recovery rsp.now (recovery_state self.old (R.shown rows.old))) }
        requires step { MayStep (recovery_state self.old (R.shown rows.old)) }
        ensures ok { OnOk result (recovery_state self.new (R.shown rows.new)
            ≡ recovery_on_reply rsp.now (recovery_state self.old (R.shown rows.old))) }
        ensures memory { message_of rsp.now.number self.old.unanswered ≡ None → IsOk result }
        ensures err { OnErr result (recovery_state self.new (R.shown rows.new) ≡ recovery_state self.old (R.shown rows.old)) }
        ensures rest { R.rest rows.new ≡ R.rest rows.old }
    {
        self.message_end(rsp.number, Some(&rsp.say), rows)
    }

    /// A message, or the reply to it, was lost. Costs and takes what [`Recovery::on_reply`] does at the end of a level. Without memory
    /// nothing changes.
    #[tactic(auto, unfolding(crate::specs::Steps::recovery_on_loss))]
    pub fn on_lost<R: Rows>(&mut self, number: u32, rows: &mut R) -> Result<(), NoMemory>
        requires waits { IsTrue (recovery_awaits number self.old) }
        requires step { MayStep (recovery_state self.old (R.shown rows.old)) }
        ensures ok { OnOk result (recovery_state self.new (R.shown rows.new)
            ≡ recovery_on_loss number (recovery_state self.old (R.shown rows.old))) }
        ensures memory { message_of number self.old.unanswered ≡ None → IsOk result }
        ensures err { OnErr result (recovery_state self.new (R.shown rows.new) ≡ recovery_state self.old (R.shown rows.old)) }
        ensures rest { R.rest rows.new ≡ R.rest rows.old }
    {
        self.message_end(number, None, rows)
    }

    /// The message of a number, if it is of this recovery: the node that it goes to, and what it asks for.
    #[tactic(auto, using(crate::proofs::FlightLemmas::current_message))]
    fn current(&self, number: u32) -> Option<(NodeId, Asked)>
        ensures { option_map sent_by result ≡ option_map sent_to (message_of number self.now.unanswered) }
    {
        match self.flight.current_node(number) {
            Some(node) => Some((node, self.flight.asked())),
            None => None,
        }
    }

    /// The message of a number is answered.
    #[tactic(auto, using(crate::proofs::FlightLemmas::without_current, crate::proofs::FlightLemmas::without_older))]
    fn forget(&mut self, number: u32)
        ensures { (shown : NodeView) → recovery_state self.new shown ≡ without_unanswered number (recovery_state self.old shown) }
    {
        self.flight.remove(number);
    }

    /// Whether the search for an object waits for a message beside the one of a number.
    #[tactic(auto, using(crate::proofs::FlightLemmas::others_of_current))]
    fn waits_for_others(&self, oid: Oid, number: u32) -> bool
        ensures { result ≡ list_any (is_of_search oid) (messages_without number self.now.unanswered) }
    {
        if self.flight.is_current_read(oid) {
            self.flight.has_others(number)
        } else {
            false
        }
    }

    /// A message has ended, with what its node said or by a loss.
    #[tactic(auto, using(crate::proofs::ReplyLemmas::end_by_sent))]
    fn message_end<R: Rows>(
        &mut self,
        number: u32,
        said: Option<&PeerSay>,
        rows: &mut R,
    ) -> Result<(), NoMemory>
        requires step { MayStep (recovery_state self.old (R.shown rows.old)) }
        requires fits { IfSome (option_copied said) (λ say. IfSome (message_of number self.old.unanswered)
            (λ message. SaysOfRow (R.shown rows.old) message.request.ask say)) }
        ensures ok { OnOk result (recovery_state self.new (R.shown rows.new)
            ≡ message_end number (option_copied said.entry) (recovery_state self.old (R.shown rows.old))) }
        ensures memory { message_of number self.old.unanswered ≡ None → IsOk result }
        ensures err { OnErr result (recovery_state self.new (R.shown rows.new) ≡ recovery_state self.old (R.shown rows.old)) }
        ensures rest { R.rest rows.new ≡ R.rest rows.old }
    {
        match self.current(number) {
            Some((from, asked)) => self.asked_end(number, from, &asked, said, rows),
            None => {
                self.forget(number);
                Ok(())
            }
        }
    }

    /// A message that asks for this has ended.
    fn asked_end<R: Rows>(
        &mut self,
        number: u32,
        from: NodeId,
        asked: &Asked,
        said: Option<&PeerSay>,
        rows: &mut R,
    ) -> Result<(), NoMemory>
        requires step { MayStep (recovery_state self.old (R.shown rows.old)) }
        requires fits { IfSome (option_copied said) (SaysOfRow (R.shown rows.old) (ask_of asked.now)) }
        ensures ok { OnOk result (recovery_state self.new (R.shown rows.new)
            ≡ after_ask (ask_of asked.now) from (option_copied said.entry)
            (without_unanswered number (recovery_state self.old (R.shown rows.old)))) }
        ensures err { OnErr result (recovery_state self.new (R.shown rows.new) ≡ recovery_state self.old (R.shown rows.old)) }
        ensures rest { R.rest rows.new ≡ R.rest rows.old }
    {
        match asked {
            Asked::Lists => self.list_end(number, from, said, rows),
            Asked::Rows { oid, .. } => self.read_end(number, from, *oid, said, rows),
        }
    }

    /// A List has ended.
    fn list_end<R: Rows>(
        &mut self,
        number: u32,
        from: NodeId,
        said: Option<&PeerSay>,
        rows: &mut R,
    ) -> Result<(), NoMemory>
        requires from { 1 ≤ self.old.epoch }
        requires to { self.old.epoch ≤ (R.shown rows.old).epoch }
        ensures ok { OnOk result (recovery_state self.new (R.shown rows.new)
            ≡ after_list from (option_copied said.entry) (without_unanswered number (recovery_state self.old (R.shown rows.old)))) }
        ensures err { OnErr result (recovery_state self.new (R.shown rows.new) ≡ recovery_state self.old (R.shown rows.old)) }
        ensures rest { R.rest rows.new ≡ R.rest rows.old }
    {
        match said {
            Some(PeerSay::Objects(oids)) => self.add_list(number, from, oids, rows),
            None => self.forget_only(number, rows),
            Some(PeerSay::Success) => self.forget_only(number, rows),
            Some(PeerSay::Piece(_)) => self.forget_only(number, rows),
            Some(PeerSay::Row(_)) => self.forget_only(number, rows),
            Some(PeerSay::NoRow) => self.forget_only(number, rows),
            Some(PeerSay::Refused(_)) => self.forget_only(number, rows),
        }
    }

    /// The message of a number is answered, and nothing comes of that.
    fn forget_only<R: Rows>(&mut self, number: u32, _rows: &mut R) -> Result<(), NoMemory>
        ensures ok { OnOk result (recovery_state self.new (R.shown _rows.new)
            ≡ without_unanswered number (recovery_state self.old (R.shown _rows.old))) }
        ensures err { OnErr result (recovery_state self.new (R.shown _rows.new) ≡ recovery_state self.old (R.shown _rows.old)) }
        ensures rest { R.rest _rows.new ≡ R.rest _rows.old }
    {
        self.forget(number);
        Ok(())
    }

    /// A member named its objects.
    fn add_list<R: Rows>(
        &mut self,
        number: u32,
        from: NodeId,
        oids: &OidList,
        rows: &mut R,
    ) -> Result<(), NoMemory>
        requires from { 1 ≤ self.old.epoch }
        requires to { self.old.epoch ≤ (R.shown rows.old).epoch }
        ensures ok { OnOk result (recovery_state self.new (R.shown rows.new)
            ≡ with_list_of from oids.now (without_unanswered number (recovery_state self.old (R.shown rows.old)))) }
        ensures err { OnErr result (recovery_state self.new (R.shown rows.new) ≡ recovery_state self.old (R.shown rows.old)) }
        ensures rest { R.rest rows.new ≡ R.rest rows.old }
    {
        let lists = self.lists.with_answer(from, oids)?;
        let pending = ids_when_listed(self.me, self.epoch, &lists, rows)?;
        show_pending(pending, rows);
        self.lists = lists;
        self.forget(number);
        Ok(())
    }

    /// Whether the search for an object goes on.
    fn searches<R: Rows>(&self, oid: Oid, rows: &R) -> bool
        ensures { result ≡ is_searched oid (search_on (recovery_state self.now (R.shown rows.now))) }
    {
        match self.current_search(rows) {
            Some(search) => search.oid() == oid,
            None => false,
        }
    }

    /// A RecoverRead of an object has ended.
    fn read_end<R: Rows>(
        &mut self,
        number: u32,
        from: NodeId,
        oid: Oid,
        said: Option<&PeerSay>,
        rows: &mut R,
    ) -> Result<(), NoMemory>
        requires step { MayStep (recovery_state self.old (R.shown rows.old)) }
        requires fits { IfSome (option_copied said) (IsFittingSay (R.shown rows.old) oid) }
        ensures ok { OnOk result (recovery_state self.new (R.shown rows.new)
            ≡ after_read oid from (option_copied said.entry) (search_on (recovery_state self.old (R.shown rows.old)))
            (without_unanswered number (recovery_state self.old (R.shown rows.old)))) }
        ensures err { OnErr result (recovery_state self.new (R.shown rows.new) ≡ recovery_state self.old (R.shown rows.old)) }
        ensures rest { R.rest rows.new ≡ R.rest rows.old }
    {
        if self.searches(oid, rows) {
            self.searched_end(number, from, oid, said, rows)
        } else {
            self.forget(number);
            Ok(())
        }
    }

    /// A RecoverRead of the object that is searched has ended.
    #[tactic(auto, using(crate::proofs::ReplyLemmas::still_kept, crate::proofs::ReplyLemmas::read_last))]
    fn searched_end<R: Rows>(
        &mut self,
        number: u32,
        from: NodeId,
        oid: Oid,
        said: Option<&PeerSay>,
        rows: &mut R,
    ) -> Result<(), NoMemory>
        requires step { MayStep (recovery_state self.old (R.shown rows.old)) }
        requires fits { IfSome (option_copied said) (IsFittingSay (R.shown rows.old) oid) }
        requires searched { is_searched oid (search_on (recovery_state self.old (R.shown rows.old))) ≡ true }
        ensures ok { OnOk result (recovery_state self.new (R.shown rows.new)
            ≡ after_read oid from (option_copied said.entry) (search_on (recovery_state self.old (R.shown rows.old)))
            (without_unanswered number (recovery_state self.old (R.shown rows.old)))) }
        ensures err { OnErr result (recovery_state self.new (R.shown rows.new) ≡ recovery_state self.old (R.shown rows.old)) }
        ensures rest { R.rest rows.new ≡ R.rest rows.old }
    {
        if self.waits_for_others(oid, number) {
            self.note(from, said)?;
            self.forget(number);
            Ok(())
        } else {
            self.last_read_end(number, from, oid, said, rows)
        }
    }

    /// The last RecoverRead of the level of the search has ended.
    fn last_read_end<R: Rows>(
        &mut self,
        number: u32,
        from: NodeId,
        oid: Oid,
        said: Option<&PeerSay>,
        rows: &mut R,
    ) -> Result<(), NoMemory>
        requires step { MayStep (recovery_state self.old (R.shown rows.old)) }
        requires fits { IfSome (option_copied said) (IsFittingSay (R.shown rows.old) oid) }
        requires searched { is_searched oid self.old.search ≡ true }
        ensures ok { OnOk result (recovery_state self.new (R.shown rows.new)
            ≡ level_over_after from (option_copied said.entry) self.old.search
            (without_unanswered number (recovery_state self.old (R.shown rows.old)))) }
        ensures err { OnErr result (recovery_state self.new (R.shown rows.new) ≡ recovery_state self.old (R.shown rows.old)) }
        ensures rest { R.rest rows.new ≡ R.rest rows.old }
    {
        let end = self.end_after(from, said, rows)?;
        self.end_level(oid, end, rows)?;
        self.forget(number);
        Ok(())
    }

    /// The search knows one answer more.
    fn note(&mut self, from: NodeId, said: Option<&PeerSay>) -> Result<(), NoMemory>
        ensures ok { OnOk result (self.new ≡ record self.old {
          search = option_map (search_after_answer from (option_copied said.entry)) self.old.search;
        }) }
        ensures err { OnErr result (self.new ≡ self.old) }
    {
        if let Some(search) = &mut self.search {
            search.note(self.alloc, from, said)?;
        }
        Ok(())
    }

    /// What the level comes to with the last answer. The search stays as it is.
    fn end_after<R: Rows>(
        &mut self,
        from: NodeId,
        said: Option<&PeerSay>,
        rows: &R,
    ) -> Result<LevelEnd, NoMemory>
        requires { IfSome self.old.search (λ search.
            MayEndLevel self.old.epoch (R.shown rows.now) (search_after_answer from (option_copied said) search)) }
        ensures same { self.new ≡ self.old }
        ensures end { IfSome self.old.search (λ search. IfOk result (λ end.
            end ≡ level_end self.old.me self.old.epoch (R.shown rows.now) (search_after_answer from (option_copied said.entry) search))) }
        ensures small { IfOk result IsSmallEnd }
    {
        let Some(search) = &mut self.search else {
            return Ok(LevelEnd::Nothing);
        };
        let count = search.answers().len();
        let again = search.again();
        search.note(self.alloc, from, said)?;
        let end = level_end(self.alloc, self.me, self.epoch, search, rows);
        search.restore(count, again);
        end
    }
}
