ghost use Rattle.std.specs.Prelude.{◌≡◌, ◌<◌, ◌-◌, true, false, OnOk, OnErr, Some};
ghost use Rattle.std.specs.Option.{option_copied};
ghost use Rattle.recovery.specs.State.{initial_recovery, search_on, is_finished, can_tick, is_missing, recovery_awaits, MayBegin};
ghost use Rattle.recovery.specs.Steps.{recovery_from_epoch};
ghost use Rattle.recovery.specs.Kept.{recovery_state};

use crate::in_flight::InFlight;
use crate::listing::{ids_when_listed, show_pending};
use crate::rows::Rows;
use crate::search::Search;
use object_id::{Epoch, NoMemory, NodeId, Oid};
use object_list::Lists;
use std::alloc::Global;
use std::marker::Model;

/// The recovery of a node: in each epoch that it enters it makes what rows it is to keep there and hasn't. Contracts see a record.
pub struct Recovery {
    pub(crate) alloc: Global,
    pub(crate) me: NodeId,
    pub(crate) epoch: Epoch,
    pub(crate) members: Vec<NodeId>,
    pub(crate) lists: Lists,
    /// The objects of which no level had enough rows, the last one last.
    pub(crate) missing: Vec<Oid>,
    pub(crate) search: Option<Search>,
    pub(crate) flight: InFlight,
}

/// Written out, so that letting one go is one call wherever it is done, and no cases there.
impl Drop for Recovery {
    fn drop(self) {
        let Recovery {
            alloc: _,
            me: _,
            epoch: _,
            members,
            lists,
            missing,
            search,
            flight,
        } = self;
        drop(members);
        drop(lists);
        drop(missing);
        drop(search);
        drop(flight);
    }
}

impl Model for Recovery {
    ghost use Rattle.std.specs.Prelude.{reverse};
    ghost use Rattle.recovery.specs.State.{Recovery as TheRecovery};
    ghost use Rattle.recovery.specs.Kept.{current_in, older_in};

    ghost Value = { TheRecovery };

    ghost view = { λ recovery. record {
      me = recovery.me;
      epoch = recovery.epoch.0;
      members = recovery.members.items;
      lists = recovery.lists;
      missing = reverse recovery.missing.items;
      search = recovery.search;
      unanswered = current_in recovery.me recovery.flight;
      older = older_in recovery.me recovery.flight;
    } };
}

impl Recovery {
    /// Before the first recovery: epoch 1 needs none. Takes no memory, and costs nothing.
    pub fn new(alloc: Global, me: NodeId) -> Recovery
        ensures { result ≡ initial_recovery me }
    {
        Recovery {
            alloc,
            me,
            epoch: Epoch(1),
            members: Vec::new(alloc),
            lists: Lists::of_nobody(alloc),
            missing: Vec::new(alloc),
            search: None,
            flight: InFlight::none(alloc),
        }
    }

    /// Whether the message of a number was sent from here and is unanswered. Takes no memory. Costs the logarithm of the messages.
    #[tactic(auto, using(crate::proofs::FlightLemmas::awaits_kept))]
    pub fn waits_for(&self, number: u32) -> bool
        ensures { result ≡ recovery_awaits number self.now }
    {
        self.flight.node(number).is_some()
    }

    /// The epoch that is recovered; 1 before the first recovery. Costs nothing.
    pub fn epoch(&self) -> Epoch
        ensures { result.0 ≡ self.now.epoch }
    {
        self.epoch
    }

    /// Whether no level had enough rows of an object. Takes no memory. Looks at each missing object.
    #[tactic(auto, using(crate::proofs::FlightLemmas::any_reversed))]
    pub fn missing(&self, oid: Oid) -> bool
        ensures { result ≡ is_missing oid self.now }
    {
        self.missing.as_slice().contains(&oid)
    }

    /// Whether no recovery was begun, or all that is to be recovered is known and nothing of it is pending. Takes no memory, and
    /// costs what `first_pending` of the node does.
    pub fn finished<R: Rows>(&self, rows: &R) -> bool
        ensures { result ≡ is_finished (recovery_state self.now (R.shown rows.now)) }
    {
        if self.epoch.0 == 1 {
            true
        } else if self.lists.waiting().is_empty() {
            rows.first_pending().is_none()
        } else {
            false
        }
    }

    /// Whether the recovery isn't finished and has no unanswered message. Takes no memory, and costs what [`Recovery::finished`] does.
    #[tactic(auto, using(crate::proofs::FlightLemmas::length_kept))]
    pub fn can_tick<R: Rows>(&self, rows: &R) -> bool
        ensures { result ≡ can_tick (recovery_state self.now (R.shown rows.now)) }
    {
        if self.finished(rows) {
            false
        } else {
            self.flight.is_empty()
        }
    }

    /// The recovery of an epoch begins, and an older one ends. Takes and costs the members; where there is no other one also the ids of
    /// the node's own objects. Without memory nothing changes.
    pub fn begin<R: Rows>(
        &mut self,
        epoch: Epoch,
        members: &[NodeId],
        rows: &mut R,
    ) -> Result<(), NoMemory>
        requires { MayBegin epoch.0 members.now (recovery_state self.old (R.shown rows.old)) }
        ensures ok { OnOk result (recovery_state self.new (R.shown rows.new)
            ≡ recovery_from_epoch epoch.0 members.now (recovery_state self.old (R.shown rows.old))) }
        ensures err { OnErr result (recovery_state self.new (R.shown rows.new) ≡ recovery_state self.old (R.shown rows.old)) }
        ensures rest { R.rest rows.new ≡ R.rest rows.old }
    {
        let lists = Lists::new(self.alloc, self.me, members)?;
        let members = Vec::from_slice(self.alloc, members)?;
        let pending = ids_when_listed(self.me, epoch, &lists, rows)?;
        rows.start_list();
        show_pending(pending, rows);
        self.epoch = epoch;
        self.members = members;
        self.lists = lists;
        self.missing = Vec::new(self.alloc);
        self.search = None;
        self.flight.grow_old();
        Ok(())
    }

    /// The search that goes on, if its object is still pending.
    pub(crate) fn current_search<R: Rows>(&self, rows: &R) -> Option<&Search>
        ensures { option_copied result ≡ search_on (recovery_state self.now (R.shown rows.now)) }
    {
        match &self.search {
            Some(search) => {
                if rows.pending(search.oid()) {
                    Some(search)
                } else {
                    None
                }
            }
            None => None,
        }
    }
}
