ghost use Rattle.std.specs.Prelude.{◌≡◌, ◌↔◌, ℕ, ◌∷◌, ◌++◌, ◌&&◌, not, ◌≢◌, List, [], map, IfOk, IfSome, IsTrue, OnOk, OnErr, slice_get};
ghost use Rattle.std.specs.Option.{option_copied, option_map};
ghost use Rattle.object_id.specs.Spec.{IsSpec};
ghost use Rattle.object_id.specs.declared.oid.Vid.{Vid as TheVid};
ghost use Rattle.epoch_log.specs.Appending.{IsReservable};
ghost use Rattle.vdi_directory.specs.declared.header.Header.{Header as TheHeader};
ghost use Rattle.vdi_directory.specs.Effects.{header_of, live_of};
ghost use Rattle.vdi_directory.specs.Decisions.{log_effects, decision_after, disk_found, outcome as the_outcome};
ghost use Rattle.vdi_directory.specs.declared.effect.Effect.TheVariants as effects;
ghost use Rattle.vdi_directory.specs.States.{state_of};
ghost use Rattle.vdi_directory.specs.Known.{IsHeaderOf};
ghost use Rattle.vdi_directory.specs.References.{parent_of as the_parent, has_vid, IdsDiffer};
ghost use Rattle.vdi_directory.specs.Chains.{chain_of};
ghost use Rattle.vdi_directory.specs.Dead.{is_gone, IsDead, is_dead};
ghost use Rattle.vdi_directory.specs.DirectoryState.{AreLocks};

use crate::decision::Decision;
use crate::directory_state::DirectoryState;
use crate::header::Header;
use crate::live_ids::has_id;
use crate::references::{count_of, parent_of};
use crate::reservations::reservation_on;
use disk_lock::Locks;
use object_id::{Entry, NoMemory, VdiSpec, Vid};
use std::alloc::Global;
use std::marker::Model;

/// The disks, snapshots and clones that the entries read so far have made.
pub struct Directory {
    pub(crate) alloc: Global,
    entries: Vec<Entry>,
    pub(crate) state: DirectoryState,
}

/// Written out, so that letting one go is one call wherever it is done, and no cases there.
impl Drop for Directory {
    fn drop(self) {
        let Directory {
            alloc: _,
            entries,
            state,
        } = self;
        drop(entries);
        drop(state);
    }
}

impl Model for Directory {
    ghost use Rattle.std.specs.Prelude.{List};
    ghost use Rattle.object_id.specs.declared.entry.Entry.{Entry};
    ghost use Rattle.vdi_directory.specs.Decisions.{log_effects};
    ghost use Rattle.vdi_directory.specs.DirectoryState.{IsDirectoryState};

    ghost Value = { List Entry };

    ghost view = { λ directory. directory.entries.items };

    ghost invariant = { λ directory. IsDirectoryState (log_effects directory.entries.items) directory.state };
}

impl Directory {
    /// No entry was read. Takes no memory.
    pub fn new(alloc: Global) -> Directory
        ensures { result ≡ [] }
    {
        Directory {
            alloc,
            entries: Vec::new(alloc),
            state: DirectoryState::new(alloc),
        }
    }

    /// The entries that were read, in order. Costs nothing.
    pub fn entries(&self) -> &[Entry]
        ensures { result.now ≡ self.now }
    {
        self.entries.as_slice()
    }

    /// Reads the next entry of the log: decides on it, and changes directory and locks by what was decided. Each entry is kept, also one
    /// that is refused, so each takes memory. Without it both are as before, and the entry isn't read.
    /// Costs the logarithm of the names, of the live snapshots of the name, of the known ids and of the used ranges; a look at each
    /// reservation that stands; the move of the live ids or used ranges behind the one that changes. An entry that frees ids costs
    /// the logarithm for each that it makes dead besides, and a Leave a look at each lock.
    pub fn read_entry(&mut self, entry: &Entry, locks: &mut Locks) -> Result<Decision, NoMemory>
        requires reservable { IsReservable entry.now }
        requires locks { AreLocks (log_effects self.old) locks.old }
        ensures decision { IfOk result (λ decision. decision ≡ decision_after self.old entry.now) }
        ensures ok { OnOk result (self.new ≡ self.old ++ entry.now ∷ []) }
        ensures locks { OnOk result (AreLocks (log_effects self.new) locks.new) }

        ensures err { OnErr result (self.new ≡ self.old) }
        ensures locks_err { OnErr result (locks.new ≡ locks.old) }
    {
        self.entries.reserve(1)?;
        let copy = entry.copy(self.alloc)?;
        let outcome = self.outcome(entry, locks)?;
        self.state.make(self.alloc, outcome.effect, locks)?;
        self.entries.push_reserved(copy);
        Ok(outcome.decision)
    }

    /// The ids that the next entry makes dead, each once: what `dead` says of them after the read, and not before. Nothing is read, so
    /// a node can ask this first, and then let the rows of these ids alone go. Takes memory for these ids and for the names in the
    /// entry, and none for an entry that changes nothing; costs the logarithm of the known ids for each, and for each reservation that
    /// a leave frees.
    pub fn dead_by(&self, entry: &Entry, locks: &Locks) -> Result<Vec<Vid>, NoMemory>
        requires { AreLocks (log_effects self.now) locks.now }
        ensures dead { IfOk result (λ dead. (vid : ℕ) → has_vid vid dead.items
            ≡ (is_dead (log_effects (self.now ++ entry.now ∷ [])) vid && not (is_dead (log_effects self.now) vid))) }
        ensures once { IfOk result (λ dead. IdsDiffer dead.items) }
        ensures memory { OnErr result ((the_outcome (log_effects self.now) entry.now).effect ≢ effects.Nothing) }
    {
        let outcome = self.outcome(entry, locks)?;
        self.state.dead_by(self.alloc, &outcome.effect)
    }

    /// The live published working disk of a name, or its live snapshot with the tag; `None` exactly where there is none. No two
    /// live snapshots of a name have one tag. Costs the logarithm of the names, and with a tag that of the name's live snapshots.
    pub fn find(&self, name: &[u8], tag: Option<&[u8]>) -> Option<Vid>
        ensures { result ≡ disk_found self.now name.now (option_copied tag.entry) }
    {
        match tag {
            None => self.state.names.working(name),
            Some(tag) => self.state.names.tagged(name, tag),
        }
    }

    /// What a disk is made with; `None` exactly where no granted reservation has the id. Costs the logarithm of the known ids.
    pub fn spec(&self, vid: Vid) -> Option<VdiSpec>
        ensures value { result ≡ option_map (λ (header : TheHeader). header.spec) (header_of (log_effects self.now) vid.0) }
        ensures valid { IfSome result IsSpec }
    {
        match self.header(vid) {
            Some(header) => Some(header.spec),
            None => None,
        }
    }

    /// Whether an id is dead: deleted, or a reservation that was freed, and all its descendants with it. An id that was
    /// never granted isn't. Costs the logarithm of the known ids.
    pub fn dead(&self, vid: Vid) -> bool
        ensures { IsTrue result ↔ IsDead (log_effects self.now) vid.0 }
    {
        self.state.headers.contains_key(&vid.0) && count_of(&self.state.references, vid) == 0
    }

    /// A disk's header as it is now; `None` exactly where no granted reservation has the id. Costs the logarithm of the known ids.
    pub fn header(&self, vid: Vid) -> Option<&Header>
        ensures value { option_copied result ≡ header_of (log_effects self.now) vid.0 }
        ensures valid { IfSome (option_copied result) (IsHeaderOf (log_effects self.now) vid.0) }
    {
        self.state.headers.get(&vid.0)
    }

    /// What an id was made from: the disk that became a snapshot before it, or the base of a clone. `None` where it was made from
    /// nothing, or isn't known. Costs the logarithm of the known ids.
    pub fn parent(&self, vid: Vid) -> Option<Vid>
        ensures { result ≡ the_parent (log_effects self.now) vid.0 }
    {
        parent_of(&self.state.headers, vid)
    }

    /// The ids above one: its parent, its parent's parent and so on. Takes memory for them alone, and costs the logarithm of the known
    /// ids for each.
    pub fn chain(&self, vid: Vid) -> Result<Vec<Vid>, NoMemory>
        ensures chain { IfOk result (λ chain. map (λ (id : TheVid). id.0) chain.items ≡ chain_of (log_effects self.now) vid.0) }
        ensures memory { OnErr result (chain_of (log_effects self.now) vid.0 ≢ []) }
    {
        let mut chain = Vec::new(self.alloc);
        let mut next = self.parent(vid);
        while let Some(parent) = next {
            chain.push(parent)?;
            next = self.parent(parent);
        }
        Ok(chain)
    }

    /// Whether an id is gone: deleted, or a reservation that was freed. Its objects may have to stay for its descendants: see `dead`.
    /// Costs the logarithm of the known ids, and a look at each reservation that stands.
    pub fn is_gone(&self, vid: Vid) -> bool
        ensures { result ≡ is_gone (state_of (log_effects self.now) vid.0) }
    {
        if !self.state.headers.contains_key(&vid.0) {
            return false;
        }
        if has_id(self.state.live.as_slice(), vid) {
            return false;
        }
        match reservation_on(&self.state.reservations, vid) {
            Some(_reservation) => false,
            None => true,
        }
    }

    /// Number `k`, from 0, of the live ids in ascending order; `None` exactly past the last. Costs nothing.
    pub fn live_at(&self, k: usize) -> Option<Vid>
        ensures { result ≡ option_map (λ (vid : ℕ). record { 0 = vid }) (slice_get (live_of (log_effects self.now)) k) }
    {
        match self.state.live.get(k) {
            Some(vid) => Some(Vid(*vid)),
            None => None,
        }
    }
}
