//! Lines of requests and of lists as they are spelled, with ample memory. The lines were written by hand from the rules.

ghost use Rattle.std.specs.Prelude.{OnOk};
ghost use Rattle.vdi_directory.specs.Decisions.{log_effects};
ghost use Rattle.vdi_directory.specs.DirectoryState.{AreLocks};

use disk_lock::Locks;
use dog_report::{
    push_answered, push_cluster, push_gone, push_peer, push_pending, push_stored, push_unsent,
    push_vdis,
};
use epoch_log::Log;
use object_id::{
    Bytes, Cause, Entry, Epoch, Member, NoMemory, NodeId, Oid, Origin, Policy, VdiSpec, Vid,
};
use object_store::{Key, OidList, PlainStore};
use peer_proto::{Checked, GuestRsp};
use peer_service::PeerState;
use std::alloc::Global;
use std::test::Fail;
use vdi_directory::{Directory, nobody_holds_at_first};

/// The lines of requests that were answered.
fn answered_lines(alloc: Global) -> Result<Vec<u8>, NoMemory> {
    let piece = Bytes::from_slice(alloc, &[7, 7, 7, 0, 0, 171])?;
    let mut text = Vec::new(alloc);
    push_answered(&mut text, 1, &GuestRsp::Done)?;
    push_answered(&mut text, 2, &GuestRsp::Granted { vid: Vid(7) })?;
    push_answered(&mut text, 4, &GuestRsp::Piece(piece))?;
    Ok(text)
}

#[test]
fn tells_what_requests_gave(rt: HostRuntime) -> Result<(), Fail> {
    let text = answered_lines(rt.alloc())?;
    let lines = b"1 ok\n2 ok\n4 ok 07*3 00*2 ab*1\n";
    assert_eq!(rt; text.as_slice(), lines.as_slice());
    Ok(())
}

/// The lines of requests that weren't.
fn unanswered_lines(alloc: Global) -> Result<Vec<u8>, NoMemory> {
    let mut text = Vec::new(alloc);
    push_gone(&mut text, 10)?;
    push_pending(&mut text, 11)?;
    push_unsent(&mut text, 4_294_967_295)?;
    Ok(text)
}

#[test]
fn tells_what_became_of_requests(rt: HostRuntime) -> Result<(), Fail> {
    let text = unanswered_lines(rt.alloc())?;
    let lines = b"10 gone\n11 pending\n4294967295 unsent\n";
    assert_eq!(rt; text.as_slice(), lines.as_slice());
    Ok(())
}

/// The lines of requests that were refused for these causes.
fn refused_lines(alloc: Global, causes: [Cause; 3]) -> Result<Vec<u8>, NoMemory> {
    let mut text = Vec::new(alloc);
    for cause in causes {
        push_answered(&mut text, 3, &GuestRsp::Refused(cause))?;
    }
    Ok(text)
}

#[test]
fn tells_refusals(rt: HostRuntime) -> Result<(), Fail> {
    let causes = [
        Cause::VdiLocked { session: 1 },
        Cause::FullVdi,
        Cause::Halt {
            members: 2,
            wanted: 3,
        },
    ];
    let text = refused_lines(rt.alloc(), causes)?;
    let lines =
        b"3 refused 07 VDI_LOCKED session 1\n3 refused 13 FULL_VDI\n3 refused 19 HALT members 2 wanted 3\n";
    assert_eq!(rt; text.as_slice(), lines.as_slice());
    Ok(())
}

#[test]
fn tells_refusals_by_a_node(rt: HostRuntime) -> Result<(), Fail> {
    let (node, own, peer) = (NodeId(2), Epoch(1), Epoch(3));
    let oid = Oid::inode(Vid(0x01_ec8c));
    let causes = [
        Cause::OldEpoch { node, own, peer },
        Cause::Recovery { node, epoch: peer },
        Cause::NoObj { node, oid },
    ];
    let text = refused_lines(rt.alloc(), causes)?;
    let lines =
        b"3 refused 81 OLD_EPOCH node 2 own 1 peer 3\n3 refused 83 RECOVERY node 2 epoch 3\n\
3 refused 02 NO_OBJ node 2 oid 8001ec8c00000000\n";
    assert_eq!(rt; text.as_slice(), lines.as_slice());
    Ok(())
}

/// A check of three objects, of which two differed.
fn a_check(alloc: Global) -> Result<Checked, NoMemory> {
    let mut differed = OidList::new(alloc);
    differed.push(Oid::object(Vid(0x01_ec8c), 0))?;
    differed.push(Oid::object(Vid(0x01_ec8c), 16))?;
    Ok(Checked {
        objects: 3,
        inherited: 12,
        differed,
    })
}

#[test]
fn tells_what_a_check_found(rt: HostRuntime) -> Result<(), Fail> {
    let found = GuestRsp::Checked(a_check(rt.alloc())?);
    let mut text = Vec::new(rt.alloc());
    push_answered(&mut text, 5, &found)?;
    let line = b"5 ok objects 3 inherited 12 differed 2 0001ec8c00000000 0001ec8c00000010\n";
    assert_eq!(rt; text.as_slice(), line.as_slice());
    Ok(())
}

fn member(number: u32) -> Member {
    Member {
        node: NodeId(number),
        zone: number,
        vnodes: 64,
    }
}

#[test]
fn lists_epochs_and_members(rt: HostRuntime) -> Result<(), Fail> {
    let mut text = Vec::new(rt.alloc());
    push_cluster(
        &mut text,
        Epoch(2),
        Epoch(1),
        &[member(0), member(1), member(12)],
    )?;
    assert_eq!(rt;
        text.as_slice(),
        b"cluster epoch 2 settled 1 members 0 1 12\n".as_slice()
    );
    Ok(())
}

/// Reads an entry, if it may stand in the log.
fn read(
    log: &Log,
    directory: &mut Directory,
    locks: &mut Locks,
    entry: &Entry,
) -> Result<(), NoMemory>
    requires { AreLocks (log_effects directory.old) locks.old }
    ensures { OnOk result (AreLocks (log_effects directory.new) locks.new) }
{
    if !log.may_append(entry) {
        return Ok(());
    }
    match directory.read_entry(entry, locks) {
        Ok(_) => Ok(()),
        Err(error) => Err(error),
    }
}

/// Session 1 of node 0 reserves an id for a name.
fn reserve(alloc: Global, name: &[u8], origin: Origin) -> Result<Entry, NoMemory> {
    Ok(Entry::Reserve {
        by: NodeId(0),
        session: 1,
        name: Bytes::from_slice(alloc, name)?,
        origin,
    })
}

fn opened_log(alloc: Global) -> Result<Log, NoMemory> {
    let opening = [member(0)];
    if !Log::may_open(&opening) {
        return Err(NoMemory);
    }
    Log::new(alloc, &opening)
}

const OLD: Vid = Vid(0x01_ec8c);

/// Session 1 makes a disk `a` of three copies, and opens it.
fn open_a_disk(
    alloc: Global,
    log: &Log,
    directory: &mut Directory,
    locks: &mut Locks,
) -> Result<(), NoMemory>
    requires { AreLocks (log_effects directory.old) locks.old }
    ensures { OnOk result (AreLocks (log_effects directory.new) locks.new) }
{
    make_disk(alloc, log, directory, locks, b"a", OLD, COPIED)?;
    let lock = Entry::Lock {
        by: NodeId(0),
        session: 1,
        name: Bytes::from_slice(alloc, b"a")?,
        tag: None,
    };
    read(log, directory, locks, &lock)
}

const COPIED: VdiSpec = VdiSpec {
    size: 0x10_0000,
    policy: Policy::Copies(3),
    shift: 22,
};

const CODED: VdiSpec = VdiSpec {
    size: 0x80_0000,
    policy: Policy::Coded { d: 4, p: 2 },
    shift: 20,
};

/// Session 1 makes a disk.
fn make_disk(
    alloc: Global,
    log: &Log,
    directory: &mut Directory,
    locks: &mut Locks,
    name: &[u8],
    vid: Vid,
    spec: VdiSpec,
) -> Result<(), NoMemory>
    requires { AreLocks (log_effects directory.old) locks.old }
    ensures { OnOk result (AreLocks (log_effects directory.new) locks.new) }
{
    let fresh = reserve(alloc, name, Origin::Fresh { spec })?;
    read(log, directory, locks, &fresh)?;
    let by = NodeId(0);
    read(log, directory, locks, &Entry::Publish { by, vid })
}

/// The disk `a` becomes a snapshot.
fn make_snapshot(
    alloc: Global,
    log: &Log,
    directory: &mut Directory,
    locks: &mut Locks,
) -> Result<(), NoMemory>
    requires { AreLocks (log_effects directory.old) locks.old }
    ensures { OnOk result (AreLocks (log_effects directory.new) locks.new) }
{
    let tag = Bytes::from_slice(alloc, b"t1")?;
    let next = reserve(alloc, b"a", Origin::SnapshotOf { tag })?;
    read(log, directory, locks, &next)?;
    let snapshot = Entry::Snapshot {
        by: NodeId(0),
        old: OLD,
        vid: Vid(0x01_ec8d),
    };
    read(log, directory, locks, &snapshot)
}

/// A disk of three copies is opened and becomes a snapshot, and a coded disk is made.
fn three_disks_lines(alloc: Global) -> Result<Vec<u8>, NoMemory> {
    nobody_holds_at_first();
    let log = opened_log(alloc)?;
    let mut directory = Directory::new(alloc);
    let mut locks = Locks::new(alloc);
    open_a_disk(alloc, &log, &mut directory, &mut locks)?;
    make_snapshot(alloc, &log, &mut directory, &mut locks)?;
    let vid = Vid(0x01_f1a5);
    make_disk(alloc, &log, &mut directory, &mut locks, b"b", vid, CODED)?;
    let mut text = Vec::new(alloc);
    push_vdis(&mut text, &directory, &locks)?;
    Ok(text)
}

#[test]
fn lists_disks(rt: HostRuntime) -> Result<(), Fail> {
    let text = three_disks_lines(rt.alloc())?;
    let lines =
        b"vdi 01ec8c a t1 1048576 3 22 000000 snapshot\nvdi 01ec8d a - 1048576 3 22 01ec8c session 1\n\
vdi 01f1a5 b - 8388608 4:2 20 000000 free\n";
    assert_eq!(rt; text.as_slice(), lines.as_slice());
    Ok(())
}

/// A peer of epoch 1 that has no row.
fn fresh(alloc: Global) -> PeerState<PlainStore> {
    let store = PlainStore::new(alloc);
    PeerState::new(alloc, store, Epoch(1))
}

/// A peer of epoch 1 with three rows.
fn peer_with_rows(alloc: Global) -> Result<PeerState<PlainStore>, NoMemory> {
    let mut peer = fresh(alloc);
    for number in [3, 0, 1] {
        let oid = Oid::object(Vid(0x01_ec8c), u32::from(number));
        peer.put_row(Key { oid, index: number }, 512, b"a\0")?;
    }
    Ok(peer)
}

#[test]
fn lists_a_node(rt: HostRuntime) -> Result<(), Fail> {
    let peer = peer_with_rows(rt.alloc())?;
    let mut text = Vec::new(rt.alloc());
    push_peer(&mut text, 64, &peer)?;
    let line = b" vnodes 64 epoch 1 rows 3 pending 0";
    assert_eq!(rt; text.as_slice(), line.as_slice());
    Ok(())
}

#[test]
fn lists_the_rows_of_a_node(rt: HostRuntime) -> Result<(), Fail> {
    let peer = peer_with_rows(rt.alloc())?;
    let mut text = Vec::new(rt.alloc());
    push_stored(rt.alloc(), &mut text, NodeId(3), peer.store())?;
    let lines =
        b"row 3 0001ec8c00000000 0 1 - af63dc4c8601ec8c\nrow 3 0001ec8c00000001 1 1 - af63dc4c8601ec8c\n\
row 3 0001ec8c00000003 3 1 - af63dc4c8601ec8c\n";
    assert_eq!(rt; text.as_slice(), lines.as_slice());
    Ok(())
}
