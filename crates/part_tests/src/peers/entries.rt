//! What a peer reads of the log, entry by entry, and the whole log of one that comes back.

ghost use Rattle.std.specs.Prelude.{IfOk, IsTrue, OnOk};
ghost use Rattle.epoch_log.specs.Appending.{IsReservable};
ghost use Rattle.epoch_log.specs.Tally.{IsTally};
ghost use Rattle.vdi_directory.specs.DirectoryState.{AreLocks};
ghost use Rattle.peer_service.specs.State.{effects_of};

use super::trial::{A, PlainPeer, member};
use disk_lock::Locks;
use epoch_log::{Log, Tally};
use object_id::{Bytes, Entry, NoMemory, NodeId, Origin, Policy, VdiSpec, Vid, is_name};
use std::alloc::Global;
use vdi_directory::Decision;

/// What the log says next: of node 1, or of disk `a`, by node 0.
#[derive(Clone, Copy)]
pub(super) enum Next {
    Leave,
    Join,
    Reserve(Policy),
    Publish,
    Delete,
}

/// Disk `a`, from its begin to its end.
pub(super) const LIFE: [Next; 3] = [
    Next::Reserve(Policy::Copies(1)),
    Next::Publish,
    Next::Delete,
];

fn reservation(alloc: Global, policy: Policy) -> Result<Entry, NoMemory> {
    Ok(Entry::Reserve {
        by: NodeId(0),
        session: 1,
        name: Bytes::from_slice(alloc, b"a")?,
        origin: Origin::Fresh {
            spec: VdiSpec {
                size: 12_288,
                policy,
                shift: 12,
            },
        },
    })
}

fn deletion(alloc: Global) -> Result<Entry, NoMemory> {
    Ok(Entry::Delete {
        by: NodeId(0),
        session: 1,
        name: Bytes::from_slice(alloc, b"a")?,
        tag: None,
    })
}

fn entry_of(alloc: Global, next: Next) -> Result<Entry, NoMemory> {
    match next {
        Next::Leave => Ok(Entry::Leave { node: NodeId(1) }),
        Next::Join => Ok(Entry::Join {
            node: NodeId(1),
            zone: 1,
            vnodes: 8,
        }),
        Next::Reserve(policy) => reservation(alloc, policy),
        Next::Publish => Ok(Entry::Publish {
            by: NodeId(0),
            vid: Vid(A),
        }),
        Next::Delete => deletion(alloc),
    }
}

/// Whether a reservation has a name, and an origin that a disk may be made from.
fn is_reservable(entry: &Entry) -> bool
    ensures { IsTrue result → IsReservable entry.now }
{
    match entry {
        Entry::Reserve { name, origin, .. } => is_name(name.as_slice()) && origin.is_valid(),
        _ => true,
    }
}

/// The locks of a peer that has read no entry.
fn first_locks(alloc: Global, peer: &PlainPeer) -> Result<Locks, NoMemory>
    ensures { IfOk result (λ locks. AreLocks (effects_of peer.now) locks) }
{
    if peer.directory().entries().is_empty() {
        Ok(Locks::new(alloc))
    } else {
        Err(NoMemory)
    }
}

fn read_next(
    alloc: Global,
    peer: &mut PlainPeer,
    locks: &mut Locks,
    next: Next,
) -> Result<Decision, NoMemory>
    requires { AreLocks (effects_of peer.old) locks.old }
    ensures { OnOk result (AreLocks (effects_of peer.new) locks.new) }
{
    let entry = entry_of(alloc, next)?;
    if is_reservable(&entry) {
        peer.read_entry(&entry, locks)
    } else {
        Err(NoMemory)
    }
}

/// A peer that has read no entry reads these. What the last of them decides.
fn read_all(alloc: Global, peer: &mut PlainPeer, entries: &[Next]) -> Result<Decision, NoMemory> {
    let mut locks = first_locks(alloc, peer)?;
    let mut decision = Decision::None;
    for next in entries {
        decision = read_next(alloc, peer, &mut locks, *next)?;
    }
    Ok(decision)
}

/// Whether a peer that has read no entry reads these.
pub(super) fn reads(alloc: Global, peer: &mut PlainPeer, entries: &[Next]) -> bool {
    read_all(alloc, peer, entries).is_ok()
}

/// Whether the first entry that a peer reads makes disk `a`.
pub(super) fn grants_disk(alloc: Global, peer: &mut PlainPeer, policy: Policy) -> bool {
    match read_all(alloc, peer, &[Next::Reserve(policy)]) {
        Ok(Decision::Granted { vid }) => vid == Vid(A),
        _ => false,
    }
}

/// A log that begins with two members, and its tally.
fn opened(alloc: Global) -> Result<(Log, Tally), NoMemory>
    ensures { IfOk result (λ opened. IsTally opened.0 opened.1) }
{
    let members = [member(0), member(1)];
    if !Log::may_open(&members) {
        return Err(NoMemory);
    }
    let log = Log::new(alloc, &members)?;
    let tally = Tally::new(alloc, &members)?;
    Ok((log, tally))
}

fn append(alloc: Global, log: &mut Log, tally: &mut Tally, next: Next) -> Result<(), NoMemory>
    requires { IsTally log.old tally.old }
    ensures { OnOk result (IsTally log.new tally.new) }
{
    let entry = entry_of(alloc, next)?;
    if !log.may_append(&entry) {
        return Err(NoMemory);
    }
    tally.count(alloc, log.entries(), &entry)?;
    log.append(entry)?;
    Ok(())
}

/// A log that begins with two members and goes on with these entries, and its tally.
fn logged(alloc: Global, later: &[Next]) -> Result<(Log, Tally), NoMemory>
    ensures { IfOk result (λ logged. IsTally logged.0 logged.1) }
{
    let (mut log, mut tally) = opened(alloc)?;
    for next in later {
        append(alloc, &mut log, &mut tally, *next)?;
    }
    Ok((log, tally))
}

/// The peer comes back, given the log that goes on with these entries.
pub(super) fn come_back(
    alloc: Global,
    peer: &mut PlainPeer,
    later: &[Next],
) -> Result<(), NoMemory> {
    let (log, tally) = logged(alloc, later)?;
    let mut locks = Locks::new(alloc);
    peer.come_back(log.entries(), &tally, &mut locks)
}
