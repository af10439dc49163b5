ghost use Rattle.std.specs.Prelude.{◌≡◌, ◌↔◌, ℕ, ◌+◌, ◌≤◌, ◌<◌, List, [], ◌∷◌, ◌++◌, length, take, drop, slice_get, IfOk, OnOk, OnErr};
ghost use Rattle.std.specs.Prelude.{IsTrue};
ghost use Rattle.std.specs.Option.{option_copied};
ghost use Rattle.epoch_log.specs.Members.{AreMembers, HaveWeights};
ghost use Rattle.epoch_log.specs.Epochs.{epoch_of, epoch_at, settled_at, members_in};
ghost use Rattle.epoch_log.specs.Appending.{MayOpen, MayAppend, IsLog};

use crate::appending::may_open;
use crate::epoch_record::Mark;
use crate::tally::Tally;
use object_id::{Entry, Epoch, Items, Member, MemberList, NODES_MAX, NoMemory};
use std::alloc::Global;
use std::marker::Model;

/// Entries of a log, in order.
pub type EntryList = Items<Entry>;

/// The membership log.
pub struct Log {
    alloc: Global,
    entries: Vec<Entry>,
    /// What holds after each entry.
    marks: Vec<Mark>,
    tally: Tally,
}

/// Written out, so that letting one go is one call wherever it is done, and no cases there.
impl Drop for Log {
    fn drop(self) {
        let Log {
            alloc: _,
            entries,
            marks,
            tally,
        } = self;
        drop(entries);
        drop(marks);
        drop(tally);
    }
}

impl Model for Log {
    ghost use Rattle.std.specs.Prelude.{List};
    ghost use Rattle.object_id.specs.declared.entry.Entry.{Entry};
    ghost use Rattle.epoch_log.specs.Appending.{IsLog};
    ghost use Rattle.epoch_log.specs.Tally.{IsTally, AreMarks};

    ghost Value = { List Entry };

    ghost view = { λ log. log.entries.items };

    ghost invariant = { λ log. IsLog log.entries.items × IsTally log.entries.items log.tally × AreMarks log.entries.items log.marks.items };
}

/// Copies the members to the first places, and answers how many they are.
fn fill(members: &[Member], out: &mut [Member; NODES_MAX as usize]) -> usize
    requires { length members.now ≤ NODES_MAX }
    ensures count { result ≡ length members.now }
    ensures most { result ≤ NODES_MAX }
    ensures filled { take result out.new ≡ members.now }
    ensures rest { drop result out.new ≡ drop result out.old }
{
    out[..members.len()].copy_from_slice(members);
    members.len()
}

impl Log {
    /// Whether these members may open a log: what `new` asks of them. Costs the members.
    pub fn may_open(members: &[Member]) -> bool
        ensures { IsTrue result ↔ MayOpen members.now }
    {
        may_open(members)
    }

    /// A log of its first entry, `Format` of the opening members. Costs the members.
    pub fn new(alloc: Global, members: &[Member]) -> Result<Log, NoMemory>
        requires { MayOpen members.now }
        ensures { IfOk result (λ log. log ≡ Entry.Format members.now ∷ []) }
    {
        let format = Entry::Format {
            members: MemberList::from_vec(Vec::from_slice(alloc, members)?),
        };
        let mut entries = Vec::new(alloc);
        entries.push(format)?;
        let mut marks = Vec::new(alloc);
        marks.push(Mark {
            epoch: Epoch(1),
            settled: Epoch(1),
        })?;
        Ok(Log {
            alloc,
            entries,
            marks,
            tally: Tally::new(alloc, members)?,
        })
    }

    /// Whether an entry may stand next: what `append` asks of it. Costs a look at the newest members.
    pub fn may_append(&self, entry: &Entry) -> bool
        ensures { IsTrue result ↔ MayAppend self.now entry.now }
    {
        self.tally.may_count(self.entries.as_slice(), entry)
    }

    /// Adds an entry at the end. Without memory the log stays, and the entry is dropped. Costs what [`Tally::count`] costs.
    pub fn append(&mut self, entry: Entry) -> Result<(), NoMemory>
        requires { MayAppend self.old entry }
        ensures ok { OnOk result (self.new ≡ self.old ++ entry ∷ []) }
        ensures err { OnErr result (self.new ≡ self.old) }
    {
        self.entries.reserve(1)?;
        self.marks.reserve(1)?;
        self.tally
            .count(self.alloc, self.entries.as_slice(), &entry)?;
        self.entries.push_reserved(entry);
        self.marks
            .push_reserved(self.tally.mark(self.entries.as_slice()));
        Ok(())
    }

    /// The entries, in order. Costs nothing.
    pub fn entries(&self) -> &[Entry]
        ensures value { result.now ≡ self.now }
        ensures log { IsLog result.now }
    {
        self.entries.as_slice()
    }

    /// The entry at a place, from 0; `None` past the end. Costs nothing.
    pub fn entry(&self, place: usize) -> Option<&Entry>
        ensures { option_copied result ≡ slice_get self.now place }
    {
        self.entries.as_slice().get(place)
    }

    /// How many entries there are. Costs nothing.
    pub fn len(&self) -> usize
        ensures count { result ≡ length self.now }
        // A log has its first entry.
        ensures some { 1 ≤ result }
        ensures log { IsLog self.now }
    {
        self.entries.len()
    }

    /// The newest epoch of the entries before a place. Costs nothing.
    pub fn epoch_at(&self, place: usize) -> Epoch
        requires { (1 ≤ place) × (place ≤ length self.now) }
        ensures { result.0 ≡ epoch_at self.now place }
    {
        self.marks[place - 1].epoch
    }

    /// The settled epoch of the entries before a place. Costs nothing.
    pub fn settled_at(&self, place: usize) -> Epoch
        requires { (1 ≤ place) × (place ≤ length self.now) }
        ensures { result.0 ≡ settled_at self.now place }
    {
        self.marks[place - 1].settled
    }

    /// Fills the first places of `out` with the members of an epoch that has begun, in ascending number, and answers
    /// how many they are. Costs these members.
    pub fn members(&self, epoch: Epoch, out: &mut [Member; NODES_MAX as usize]) -> usize
        requires { (1 ≤ epoch.0) × (epoch.0 ≤ epoch_of self.now) }
        ensures count { result ≡ length (members_in self.now epoch.0) }
        ensures most { result ≤ NODES_MAX }
        ensures filled { take result out.new ≡ members_in self.now epoch.0 }
        ensures rest { drop result out.new ≡ drop result out.old }
        ensures members { AreMembers (members_in self.now epoch.0) }
        ensures weights { HaveWeights (members_in self.now epoch.0) }
    {
        fill(self.tally.members(self.entries.as_slice(), epoch), out)
    }
}
