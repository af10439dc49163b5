//! The membership log as it stands whole, with what is looked up in it.

ghost use Rattle.std.specs.Prelude.{◌≡◌, ◌∷◌, ◌++◌, [], length, slice_get, IfOk};
ghost use Rattle.std.specs.List.{find};
ghost use Rattle.std.specs.Option.{option_copied};
ghost use Rattle.epoch_log.specs.Members.{is_member_node, is_member};
ghost use Rattle.epoch_log.specs.Epochs.{epoch_of, members_in, settled_of};
ghost use Rattle.epoch_log.specs.Appending.{IsLog};
ghost use Rattle.vdi_directory.specs.Decisions.{log_effects, decision_after};
ghost use Rattle.vdi_directory.specs.DirectoryState.{AreLocks};
ghost use Rattle.sheep_world.specs.MembershipChanges.{weight_among, weight_after, last_weight};

use disk_lock::Locks;
use epoch_log::{Log, Tally};
use object_id::{Entry, Epoch, Member, MemberList, NoMemory};
use std::alloc::Global;
use std::marker::Model;
use vdi_directory::{Decision, Directory};

/// The entries of the log, and beside them what is looked up in them.
pub(crate) struct ClusterLog {
    pub(crate) alloc: Global,
    /// The entries, read.
    directory: Directory,
    /// Who holds which disk.
    locks: Locks,
    /// The entries, counted.
    tally: Tally,
}

/// Written out, so that letting one go is one call wherever it is done, and no cases there.
impl Drop for ClusterLog {
    fn drop(self) {
        let ClusterLog {
            alloc: _,
            directory,
            locks,
            tally,
        } = self;
        drop(directory);
        drop(locks);
        drop(tally);
    }
}

impl Model for ClusterLog {
    ghost use Rattle.std.specs.Prelude.{List};
    ghost use Rattle.object_id.specs.declared.entry.Entry.{Entry};
    ghost use Rattle.epoch_log.specs.Appending.{IsLog};
    ghost use Rattle.epoch_log.specs.Tally.{IsTally};
    ghost use Rattle.vdi_directory.specs.Decisions.{log_effects};
    ghost use Rattle.vdi_directory.specs.DirectoryState.{AreLocks};

    ghost Value = { List Entry };

    ghost view = { λ log. log.directory };

    ghost invariant = { λ log. IsLog log.directory × IsTally log.directory log.tally × AreLocks (log_effects log.directory) log.locks };
}

/// The member that a node is, if it is one.
fn member_of(node: u32, members: &[Member]) -> Option<&Member>
    ensures { option_copied result ≡ find (is_member_node node) members.now }
{
    members.iter().find(|member| member.node.0 == node)
}

/// A node's weight among the members with which a log opens, or the one that it had.
fn weight_among(node: u32, weight: u16, opening: &[Member]) -> u16
    ensures { result ≡ weight_among node opening.now weight }
{
    match member_of(node, opening) {
        Some(member) => member.vnodes,
        None => weight,
    }
}

/// A node's weight after one entry more.
fn weight_after(node: u32, weight: u16, entry: &Entry) -> u16
    ensures { result ≡ weight_after node weight entry.now }
{
    match entry {
        Entry::Format { members } => weight_among(node, weight, members.as_slice()),
        Entry::Join {
            node: other,
            vnodes,
            ..
        } if other.0 == node => *vnodes,
        Entry::Reweight {
            node: other,
            vnodes,
        } if other.0 == node => *vnodes,
        _ => weight,
    }
}

impl ClusterLog {
    /// A log of its first entry, `Format` of the opening members. Members that may not open a log are answered with `NoMemory`: those
    /// of a script may, by the law [`crate::the_log_holds`]. Costs the members.
    pub fn new(alloc: Global, members: MemberList) -> Result<ClusterLog, NoMemory>
        ensures { IfOk result (λ log. log ≡ Entry.Format members ∷ []) }
    {
        if !Log::may_open(members.as_slice()) {
            return Err(NoMemory);
        }
        let tally = Tally::new(alloc, members.as_slice())?;
        let format = Entry::Format { members };
        let mut directory = Directory::new(alloc);
        let mut locks = Locks::new(alloc);
        match directory.read_entry(&format, &mut locks) {
            Ok(_) => Ok(ClusterLog {
                alloc,
                directory,
                locks,
                tally,
            }),
            Err(error) => Err(error),
        }
    }

    /// The log with one entry more, and the decision on it. Without memory no log is left. An entry that may not stand there is
    /// answered with `NoMemory` too: by [`crate::the_log_holds`] no event puts one, as long as there is room for an epoch. Costs what
    /// [`Directory::read_entry`] and [`Tally::count`] cost.
    pub fn with_entry(self, entry: &Entry) -> Result<(ClusterLog, Decision), NoMemory>
        ensures log { IfOk result (λ grown. grown.0 ≡ self ++ entry.now ∷ []) }
        ensures decision { IfOk result (λ grown. grown.1 ≡ decision_after self entry.now) }
    {
        let ClusterLog {
            alloc,
            mut directory,
            mut locks,
            mut tally,
        } = self;
        if !tally.may_count(directory.entries(), entry) {
            return Err(NoMemory);
        }
        tally.count(alloc, directory.entries(), entry)?;
        let decision = directory.read_entry(entry, &mut locks)?;
        let log = ClusterLog {
            alloc,
            directory,
            locks,
            tally,
        };
        Ok((log, decision))
    }

    /// The entries, in order. Costs nothing.
    pub fn entries(&self) -> &[Entry]
        ensures value { result.now ≡ self.now }
        ensures log { IsLog result.now }
    {
        self.directory.entries()
    }

    /// How many entries there are. Costs nothing.
    pub fn len(&self) -> usize
        ensures { result ≡ length self.now }
    {
        self.entries().len()
    }

    /// The entry at a place, from 0; `None` past the end. Costs nothing.
    pub fn entry_at(&self, place: usize) -> Option<&Entry>
        ensures { option_copied result ≡ slice_get self.now place }
    {
        self.entries().get(place)
    }

    /// The newest epoch. Costs nothing.
    pub fn newest_epoch(&self) -> Epoch
        ensures { result.0 ≡ epoch_of self.now }
    {
        self.tally.epoch(self.directory.entries())
    }

    /// The settled epoch. Costs nothing.
    pub fn settled_epoch(&self) -> Epoch
        ensures { result.0 ≡ settled_of self.now }
    {
        self.tally.settled(self.directory.entries())
    }

    /// The members of the newest epoch, in ascending number. Costs nothing.
    pub fn newest_members(&self) -> &[Member]
        ensures { result.now ≡ members_in self.now (epoch_of self.now) }
    {
        let entries = self.directory.entries();
        self.tally.members(entries, self.tally.epoch(entries))
    }

    /// Whether a node is one of them. Costs a look at each.
    pub fn is_newest_member(&self, node: u32) -> bool
        ensures { result ≡ is_member node (members_in self.now (epoch_of self.now)) }
    {
        self.newest_members()
            .iter()
            .any(|member| member.node.0 == node)
    }

    /// The last weight of a node, which it keeps when it leaves; 0 if it never had one. Costs a look at each entry.
    pub fn last_weight(&self, node: u32) -> u16
        ensures { result ≡ last_weight self.now node }
    {
        let mut weight = 0;
        for entry in self.entries() {
            weight = weight_after(node, weight, entry);
        }
        weight
    }

    /// The entries, as the directory of the disks that they made. Costs nothing.
    pub fn directory(&self) -> &Directory
        ensures { result.now ≡ self.now }
    {
        &self.directory
    }

    /// Who holds which disk. Costs nothing.
    pub fn locks(&self) -> &Locks
        ensures { AreLocks (log_effects self.now) result.now }
    {
        &self.locks
    }
}
