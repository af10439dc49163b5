//! Worked requests, act by act in words, on disk 5 of three objects of 4,096 bytes, next to its parent 4. And the calls that don't
//! serve these, with ample memory: a body that never finds any would meet the contracts too.

ghost use Rattle.std.specs.Prelude.{◌≤◌, OnOk};
ghost use Rattle.object_id.specs.declared.limits.TheConstants.{VID_MAX};
ghost use Rattle.peer_proto.specs.Work.{IsWork};
ghost use Rattle.guest_driver.specs.OnDisk.{IsDriverOn};

use crate::act_words::write_driver_act;
use guest_driver::{
    Disk, Driver, DriverAct, InodeQueue, WaitingWork, begin_disk, disk_refusal, is_ask,
};
use inode::Inode;
use object_id::{Bytes, Cause, NoMemory, Oid, Policy, VdiSpec, Vid};
use peer_proto::{DiskAsk, GuestRsp, ObjWork, WorkDone};
use std::alloc::Global;
use std::fmt::Write;
use std::test::Fail;
use step_text::write_reply;

/// What a disk has open, in words: its name, whether it is a snapshot, and its table.
fn disk_words(alloc: Global, disk: &Disk) -> Result<String, NoMemory> {
    let kind = if disk.snapshot() { "snapshot" } else { "disk" };
    let mut told = String::new(alloc);
    told.push_str(kind)?;
    for byte in disk.inode().name() {
        write!(told, " {byte:02x}")?;
    }
    for entry in disk.inode().entries() {
        write!(told, " {entry}")?;
    }
    Ok(told)
}

#[test]
fn keeps_an_open_disk(rt: HostRuntime) -> Result<(), Fail> {
    let alloc = rt.alloc();
    let spec = VdiSpec {
        size: 3 << 12,
        policy: Policy::Coded { d: 4, p: 2 },
        shift: 12,
    };
    let mut inode = Inode::new(alloc, b"b", Vid(9), 2, Some(Vid(7)), spec)?;
    inode.set_entry(1, Vid(9));
    let told = disk_words(alloc, &Disk::new(inode, true).copy(alloc)?)?;
    assert_eq!(rt; told.as_str(), "snapshot 62 0 9 0");
    Ok(())
}

fn small_disk(alloc: Global, first: u32, second: u32, snapshot: bool) -> Result<Disk, NoMemory>
    requires first { first ≤ VID_MAX }
    requires second { second ≤ VID_MAX }
{
    let spec = VdiSpec {
        size: 12_288,
        policy: Policy::Copies(3),
        shift: 12,
    };
    let mut inode = Inode::new(alloc, b"a", Vid(5), 1, Some(Vid(4)), spec)?;
    inode.set_entry(0, Vid(first));
    inode.set_entry(1, Vid(second));
    Ok(Disk::new(inode, snapshot))
}

/// So many bytes of each of some values, one behind the other.
fn runs(alloc: Global, long: usize, values: &[u8]) -> Result<Bytes, NoMemory> {
    let mut bytes = Vec::new(alloc);
    for value in values {
        for _ in 0..long {
            bytes.push(*value)?;
        }
    }
    Ok(Bytes::from_vec(bytes))
}

/// Tells a driver that its work is done: a read gives these bytes, and any other work none. `None` if it doesn't wait for so many.
fn done(
    alloc: Global,
    driver: &mut Driver,
    disk: &mut Disk,
    act: &DriverAct,
    read: &[u8],
) -> Result<Option<DriverAct>, NoMemory>
    requires { IsDriverOn disk.old.inode driver.old }
    ensures { OnOk result (IsDriverOn disk.new.inode driver.new) }
{
    let given = match act {
        DriverAct::Work(ObjWork::Read { .. }) => read,
        _ => &[],
    };
    let done = WorkDone {
        req: 1,
        bytes: Bytes::from_slice(alloc, given)?,
    };
    if driver.bytes_wanted(disk) != Some(done.bytes.len()) {
        return Ok(None);
    }
    Ok(Some(driver.on_done(alloc, disk, &done)?))
}

/// A request of a disk, to its reply, in words: each act, with the table that the session has then.
fn told(alloc: Global, disk: &mut Disk, ask: DiskAsk, read: &[u8]) -> Result<String, NoMemory> {
    let mut told = String::new(alloc);
    if !is_ask(&ask) {
        return Ok(told);
    }
    let (mut driver, mut act) = begin_disk(alloc, disk, ask)?;
    for _ in 0..6 {
        write_driver_act(&mut told, &act)?;
        match done(alloc, &mut driver, disk, &act, read)? {
            Some(next) => act = next,
            None => break,
        }
        told.push_str(disk_words(alloc, disk)?.as_str())?;
        told.push(';')?;
    }
    Ok(told)
}

// Two blocks over the border of two holes: each object is created, then entered.
#[test]
fn writes_over_two_holes(rt: HostRuntime) -> Result<(), Fail> {
    let alloc = rt.alloc();
    let mut disk = small_disk(alloc, 0, 0, false)?;
    let ask = DiskAsk::Write {
        offset: 3_584,
        bytes: runs(alloc, 512, &[1, 2])?,
    };
    let told = told(alloc, &mut disk, ask, &[])?;
    assert_eq!(rt;
        told.as_str(),
        "create 21474836480 3 4096 3584 01*512.;disk 61 0 0 0;\
         write 9223372058329612288 3 4664 05000000;disk 61 5 0 0;\
         create 21474836481 3 4096 0 02*512.;disk 61 5 0 0;\
         write 9223372058329612288 3 4668 05000000;disk 61 5 5 0;reply done;"
    );
    Ok(())
}

// The zeros of a hole are told at once, and the parent's object is read in its place.
#[test]
fn reads_a_hole_and_its_parent(rt: HostRuntime) -> Result<(), Fail> {
    let alloc = rt.alloc();
    let mut disk = small_disk(alloc, 0, 4, true)?;
    let ask = DiskAsk::Read {
        offset: 3_584,
        length: 1_024,
    };
    let sevens = runs(alloc, 512, &[7])?;
    let told = told(alloc, &mut disk, ask, sevens.as_slice())?;
    assert_eq!(rt;
        told.as_str(),
        "read 17179869185 3 0 512;snapshot 61 0 4 0;reply piece 00*512.07*512.;"
    );
    Ok(())
}

/// A write on the parent's object, which copies it whole: what is told, and the disk then.
fn written_over_its_parent(alloc: Global) -> Result<(String, Disk), NoMemory> {
    let mut disk = small_disk(alloc, 0, 4, false)?;
    let old = runs(alloc, 512, &[1, 2, 3, 4, 5, 6, 7, 8])?;
    let write = DiskAsk::Write {
        offset: 4_608,
        bytes: runs(alloc, 512, &[9])?,
    };
    let told = told(alloc, &mut disk, write, old.as_slice())?;
    Ok((told, disk))
}

#[test]
fn copies_its_parents_object(rt: HostRuntime) -> Result<(), Fail> {
    let (told, _disk) = written_over_its_parent(rt.alloc())?;
    assert_eq!(rt;
        told.as_str(),
        "read 17179869185 3 0 4096;disk 61 0 4 0;\
         create 21474836481 3 4096 0 01*512.09*512.03*512.04*512.05*512.06*512.07*512.08*512.;\
         disk 61 0 4 0;write 9223372058329612288 3 4668 05000000;disk 61 0 5 0;reply done;"
    );
    Ok(())
}

// The next write is in place.
#[test]
fn writes_on_its_own_object(rt: HostRuntime) -> Result<(), Fail> {
    let (_told, mut disk) = written_over_its_parent(rt.alloc())?;
    let write = DiskAsk::Write {
        offset: 4_608,
        bytes: runs(rt.alloc(), 512, &[6])?,
    };
    let told = told(rt.alloc(), &mut disk, write, &[])?;
    assert_eq!(rt;
        told.as_str(),
        "write 21474836481 3 512 06*512.;disk 61 0 5 0;reply done;"
    );
    Ok(())
}

/// Writes a refusal, if there is one.
fn write_refusal(told: &mut String, cause: Option<Cause>) -> Result<(), NoMemory> {
    match cause {
        Some(cause) => write_reply(told, &GuestRsp::Refused(cause))?,
        None => told.push_str("none")?,
    }
    told.push(';')?;
    Ok(())
}

/// The refusals of a request with no disk open, with a disk, a snapshot, and a snapshot that was deleted.
fn refusals(
    alloc: Global,
    ask: &DiskAsk,
    disk: &Disk,
    snapshot: &Disk,
) -> Result<String, NoMemory> {
    let mut told = String::new(alloc);
    write_refusal(&mut told, disk_refusal(None, false, ask))?;
    write_refusal(&mut told, disk_refusal(Some(disk), true, ask))?;
    write_refusal(&mut told, disk_refusal(Some(snapshot), false, ask))?;
    write_refusal(&mut told, disk_refusal(Some(snapshot), true, ask))?;
    Ok(told)
}

/// The refusals of a request, by a disk of holes and by a snapshot of it.
fn told_refusals(alloc: Global, ask: &DiskAsk) -> Result<String, NoMemory> {
    let disk = small_disk(alloc, 0, 0, false)?;
    let snapshot = small_disk(alloc, 0, 0, true)?;
    refusals(alloc, ask, &disk, &snapshot)
}

// A closed disk, and a read of a deleted snapshot.
#[test]
fn refuses_on_the_spot(rt: HostRuntime) -> Result<(), Fail> {
    let read = DiskAsk::Read {
        offset: 11_776,
        length: 512,
    };
    let told = told_refusals(rt.alloc(), &read)?;
    assert_eq!(rt;
        told.as_str(),
        "refused VDI_NOT_LOCKED;none;none;refused NO_VDI;"
    );
    Ok(())
}

/// What is told of a read that ends past the disk.
const PAST_THE_END: &str =
    "refused VDI_NOT_LOCKED;refused INVALID_PARMS;refused INVALID_PARMS;refused NO_VDI;";

#[test]
fn refuses_reads_past_the_end(rt: HostRuntime) -> Result<(), Fail> {
    let read = DiskAsk::Read {
        offset: 11_776,
        length: 1_024,
    };
    assert_eq!(rt; told_refusals(rt.alloc(), &read)?.as_str(), PAST_THE_END);
    let last = DiskAsk::Read {
        offset: 18_446_744_073_709_551_104,
        length: 512,
    };
    assert_eq!(rt; told_refusals(rt.alloc(), &last)?.as_str(), PAST_THE_END);
    Ok(())
}

// A write on a snapshot.
#[test]
fn refuses_writes_on_the_spot(rt: HostRuntime) -> Result<(), Fail> {
    let write = DiskAsk::Write {
        offset: 11_776,
        bytes: runs(rt.alloc(), 512, &[1, 1])?,
    };
    let told = told_refusals(rt.alloc(), &write)?;
    assert_eq!(rt;
        told.as_str(),
        "refused VDI_NOT_LOCKED;refused INVALID_PARMS;refused READONLY;refused READONLY;"
    );
    Ok(())
}

// A request that is refused has its reply at once.
#[test]
fn replies_with_a_refusal(rt: HostRuntime) -> Result<(), Fail> {
    let alloc = rt.alloc();
    let mut snapshot = small_disk(alloc, 0, 0, true)?;
    let write = DiskAsk::Write {
        offset: 0,
        bytes: runs(alloc, 512, &[1])?,
    };
    let told = told(alloc, &mut snapshot, write, &[])?;
    assert_eq!(rt; told.as_str(), "reply refused READONLY;");
    Ok(())
}

// A request is of whole blocks, and of one at least.
#[test]
fn asks_for_whole_blocks(rt: HostRuntime) -> Result<(), Fail> {
    for (offset, length, is) in [
        (0, 512, true),
        (512, 1_024, true),
        (0, 0, false),
        (1, 512, false),
        (512, 511, false),
    ] {
        assert!(rt; is_ask(&DiskAsk::Read { offset, length }) == is);
    }
    Ok(())
}

/// A read of an object of disk 5.
fn read_of(oid: Oid) -> ObjWork
    ensures { IsWork result }
{
    ObjWork::Read {
        oid,
        policy: Policy::Copies(2),
        offset: 0,
        length: 512,
    }
}

/// The request whose work begins next.
fn started(queue: &mut InodeQueue) -> Option<u32> {
    match queue.start() {
        Some(WaitingWork { req, .. }) => Some(req),
        None => None,
    }
}

fn on_the_inode() -> ObjWork
    ensures { IsWork result }
{
    read_of(Oid::inode(Vid(5)))
}

fn on_a_block() -> ObjWork
    ensures { IsWork result }
{
    read_of(Oid::object(Vid(5), 0))
}

#[test]
fn a_new_queue_has_no_work(rt: HostRuntime) -> Result<(), Fail> {
    let mut queue = InodeQueue::new(rt.alloc());
    assert_eq!(rt; started(&mut queue), None);
    assert!(rt; queue.may_open(&on_the_inode()));
    Ok(())
}

/// A queue in which request 1 has a work open on the inode, and 2 and 3 wait for it.
fn queue_of_three(alloc: Global) -> Result<InodeQueue, NoMemory> {
    let mut queue = InodeQueue::new(alloc);
    let inode = on_the_inode();
    if queue.may_open(&inode) {
        queue.open(1, &inode);
    }
    queue.wait(2, on_the_inode())?;
    queue.wait(3, on_the_inode())?;
    Ok(queue)
}

// A work on a data object waits for none.
#[test]
fn works_on_blocks_wait_for_none(rt: HostRuntime) -> Result<(), Fail> {
    let mut queue = queue_of_three(rt.alloc())?;
    assert!(rt; queue.may_open(&on_a_block()));
    assert!(rt; !queue.may_open(&on_the_inode()));
    queue.end(&on_a_block());
    assert_eq!(rt; started(&mut queue), None);
    Ok(())
}

// A work on the inode waits for the one that is open, in the order of coming.
#[test]
fn works_on_the_inode_go_in_line(rt: HostRuntime) -> Result<(), Fail> {
    let mut queue = queue_of_three(rt.alloc())?;
    queue.end(&on_the_inode());
    assert_eq!(rt; started(&mut queue), Some(2));
    assert_eq!(rt; started(&mut queue), None);
    queue.end(&on_the_inode());
    assert_eq!(rt; started(&mut queue), Some(3));
    Ok(())
}
