//! Reading the log: the next entry of it, and the whole of it where a node comes back.

ghost use Rattle.std.specs.Prelude.{◌≡◌, ℕ, ◌==◌, ◌∷◌, ◌++◌, ◌&&◌, ◌||◌, [], true, not, filter, IfOk, IsTrue, OnOk, OnErr};
ghost use Rattle.std.specs.List.{All, list_any};
ghost use Rattle.std.specs.Option.{option_map};
ghost use Rattle.object_id.specs.Oid.{vid_of};
ghost use Rattle.object_store.specs.Rows.{closed_all, purged};
ghost use Rattle.object_store.specs.Store.{each, OpenUpTo};
ghost use Rattle.epoch_log.specs.Appending.{IsReservable, IsLog};
ghost use Rattle.epoch_log.specs.Tally.{IsTally};
ghost use Rattle.vdi_directory.specs.Decisions.{log_effects};
ghost use Rattle.vdi_directory.specs.Dead.{is_dead};
ghost use Rattle.vdi_directory.specs.DirectoryState.{AreLocks};
ghost use Rattle.vdi_directory.specs.References.{has_vid};
ghost use Rattle.peer_service.specs.State.{effects_of};
ghost use Rattle.peer_service.specs.LogReading.{decision_on, rows_but, without_objects, read_entry};
ghost use Rattle.peer_service.specs.Back.{come_back};

use crate::peer_state::PeerState;
use disk_lock::Locks;
use epoch_log::Tally;
use object_id::{Cause, Entry, Epoch, NoMemory, Oid, Vid};
use object_store::{ObjStore, OidList};
use std::alloc::Global;
use vdi_directory::{Decision, Directory};

/// Whether a disk is one of these.
fn has_vid(vid: Vid, vids: &[Vid]) -> bool
    ensures { result ≡ has_vid vid.0 vids.now }
{
    vids.iter().any(|other| *other == vid)
}

/// Drops the rows of the objects of these disks.
fn drop_rows<O: ObjStore>(store: &mut O, vids: &[Vid])
    ensures { O.rows store.new ≡ each (rows_but (λ oid. has_vid (vid_of oid) vids.now)) (O.rows store.old) }
{
    for vid in vids {
        store.drop_vid(*vid);
    }
}

/// What is left of the rows of a node that was lost: each open one ends with its last epoch, and those that ended below the settled epoch
/// go, and so do those of these disks.
fn close_rows<O: ObjStore>(store: &mut O, last: Epoch, settled: Epoch, vids: &[Vid])
    requires { OpenUpTo last.0 (O.rows store.old) }
    ensures { O.rows store.new ≡ each (rows_but (λ oid. has_vid (vid_of oid) vids.now)) (each (λ _. purged settled.0)
        (each (λ _. closed_all last.0) (O.rows store.old))) }
{
    store.close_all(last);
    store.purge_below(settled);
    drop_rows(store, vids);
}

/// Of what is pending the objects of these disks go, with a look at each.
fn keep_others(pending: &mut Option<OidList>, vids: &[Vid])
    ensures { pending.new ≡ option_map (filter (λ oid. not (has_vid (vid_of oid) vids.now))) pending.old }
{
    if let Some(oids) = pending {
        oids.retain(|oid| !has_vid(oid.vid(), vids));
    }
}

/// The objects of these disks are pending no more. Where there is no disk, this costs nothing.
fn drop_pending(pending: &mut Option<OidList>, vids: &[Vid])
    ensures { pending.new ≡ option_map (filter (λ oid. not (has_vid (vid_of oid) vids.now))) pending.old }
{
    if vids.is_empty() {
        return;
    }
    keep_others(pending, vids);
}

/// Whether an id is dead. Costs the logarithm of the known ids.
pub(crate) fn is_dead(directory: &Directory, vid: Vid) -> bool
    ensures { result ≡ is_dead (log_effects directory.now) vid.0 }
{
    directory.dead(vid)
}

fn is_last(vid: Vid, vids: &[Vid]) -> bool
    ensures { IsTrue result → has_vid vid.0 vids.now ≡ true }
{
    match vids.last() {
        Some(last) => *last == vid,
        None => false,
    }
}

/// Adds the disk of an object, if it is dead and wasn't added last.
fn add_dead(dead: &mut Vec<Vid>, directory: &Directory, oid: Oid) -> Result<(), NoMemory>
    ensures { OnOk result ((vid : ℕ) → has_vid vid dead.new.items
        ≡ (has_vid vid dead.old.items || (vid_of oid == vid && is_dead (log_effects directory.now) vid))) }
{
    let vid = oid.vid();
    if is_dead(directory, vid) && !is_last(vid, dead.as_slice()) {
        dead.push(vid)?;
    }
    Ok(())
}

/// The dead disks of which there are objects. Since objects ascend, each is there twice at most.
fn dead_disks(alloc: Global, directory: &Directory, oids: &[Oid]) -> Result<Vec<Vid>, NoMemory>
    ensures { IfOk result (λ dead. (vid : ℕ) → has_vid vid dead.items
        ≡ (list_any (λ oid. vid_of oid == vid) oids.now && is_dead (log_effects directory.now) vid)) }
{
    let mut dead = Vec::new(alloc);
    for oid in oids {
        add_dead(&mut dead, directory, *oid)?;
    }
    Ok(dead)
}

/// A refusal is read like any other decision.
fn pass_over(_cause: Cause) {}

/// The directory reads the next entry, whatever it decides.
fn read_next(directory: &mut Directory, locks: &mut Locks, entry: &Entry) -> Result<(), NoMemory>
    requires reservable { IsReservable entry.now }
    requires locks { AreLocks (log_effects directory.old) locks.old }
    ensures directory { OnOk result (directory.new ≡ directory.old ++ entry.now ∷ []) }
    ensures locks { OnOk result (AreLocks (log_effects directory.new) locks.new) }
{
    match directory.read_entry(entry, locks)? {
        Decision::Refused(cause) => pass_over(cause),
        Decision::Granted { .. } => {}
        Decision::None => {}
    }
    Ok(())
}

/// A directory that has read these entries, with their locks.
fn directory_of(alloc: Global, entries: &[Entry]) -> Result<(Directory, Locks), NoMemory>
    requires { All IsReservable entries.now }
    ensures directory { IfOk result (λ read. read.0 ≡ entries.now) }
    ensures locks { IfOk result (λ read. AreLocks (log_effects entries.now) read.1) }
{
    let mut directory = Directory::new(alloc);
    let mut locks = Locks::new(alloc);
    for entry in entries {
        read_next(&mut directory, &mut locks, entry)?;
    }
    Ok((directory, locks))
}

impl<O: ObjStore> PeerState<O> {
    /// The rows of the objects of these disks go, and they are pending no more. Where there is no disk, this costs nothing.
    #[tactic(auto, unfolding(crate::specs::LogReading::without_objects))]
    fn drop_disks(&mut self, vids: &[Vid])
        ensures { self.new ≡ without_objects (λ oid. has_vid (vid_of oid) vids.now) self.old }
    {
        drop_rows(&mut self.store, vids);
        drop_pending(&mut self.pending, vids);
    }

    /// Reads the next entry of the log, and decides on it as [`Directory::read_entry`] does. The rows of the ids that it makes dead go,
    /// and their objects are pending no more. Without memory nothing changes, and the entry isn't read. Costs what the directory's call
    /// costs; an entry that makes ids dead costs besides a look-up of each of their objects, and for each pending object a look at
    /// each of these ids.
    pub fn read_entry(&mut self, entry: &Entry, locks: &mut Locks) -> Result<Decision, NoMemory>
        requires reservable { IsReservable entry.now }
        requires locks { AreLocks (effects_of self.old) locks.old }
        ensures decision { IfOk result (λ decision. decision ≡ decision_on entry.now self.old) }
        ensures ok { OnOk result (self.new ≡ read_entry entry.now self.old) }
        ensures locks { OnOk result (AreLocks (effects_of self.new) locks.new) }

        ensures err { OnErr result (self.new ≡ self.old) }
        ensures locks_err { OnErr result (locks.new ≡ locks.old) }
    {
        let dead = self.directory.dead_by(entry, locks)?;
        let decision = self.directory.read_entry(entry, locks)?;
        self.drop_disks(dead.as_slice());
        Ok(decision)
    }

    /// The node was lost and comes back with its rows: each open one ends with the epoch in which it was lost. It has read this log
    /// instead, and is in its last epoch. The rows that ended below the log's settled epoch go, and so do those of dead ids. Nothing is
    /// pending until the recovery begins. The tally is that of the log, and the locks become those of it. Without memory nothing
    /// changes. Costs the reading of each entry, a look at each row, a look-up of each object's disk, and one of each object of a
    /// dead id.
    pub fn come_back(
        &mut self,
        entries: &[Entry],
        tally: &Tally,
        locks: &mut Locks,
    ) -> Result<(), NoMemory>
        requires log { IsLog entries.now }
        requires tally { IsTally entries.now tally.now }
        ensures ok { OnOk result (self.new ≡ come_back entries.now self.old) }
        ensures locks { OnOk result (AreLocks (effects_of self.new) locks.new) }

        ensures err { OnErr result (self.new ≡ self.old) }
        ensures locks_err { OnErr result (locks.new ≡ locks.old) }
    {
        let (directory, held) = directory_of(self.alloc, entries)?;
        let objects = self.store.list()?;
        let dead = dead_disks(self.alloc, &directory, objects.as_slice())?;
        let newest = tally.epoch(entries);
        let level = tally.settled(entries);
        close_rows(&mut self.store, self.epoch, level, dead.as_slice());
        self.epoch = newest;
        self.settled = level;
        self.pending = Some(OidList::new(self.alloc));
        self.directory = directory;
        *locks = held;
        Ok(())
    }
}
