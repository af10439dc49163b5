//! Worked commands: what each does, one act after the other, on the disks `a`, whose id is 0x01ec8c, and `b`, 0x01f1a5. They have
//! three objects of 4,096 bytes, so 4,676 bytes of their inodes are ever written.

use crate::act_words::{write_end, write_op_act};
use crate::trial::{
    A, Log, OpenDisk, SPEC, clone_b, course, create_a, decided, open_a, opened_a, snapshot_of_a,
    take_snapshot,
};
use inode::Inode;
use object_id::{Bytes, Cause, NoMemory, NodeId, Vid};
use peer_proto::VdiAsk;
use std::alloc::Global;
use std::test::Fail;
use vdi_ops::{OpAct, begin_vdi, command_refusal};

#[test]
fn creates_a_disk(rt: HostRuntime) -> Result<(), Fail> {
    let alloc = rt.alloc();
    let told = create_a(alloc, &mut Log::new(alloc))?.told()?;
    assert_eq!(rt;
        told.as_str(),
        "append reserve 3 1 61 fresh 12288 2 12;\
         create 9223913597871063040 2 4198968 0 6100*536.3000*16.020c010000008cec0100*4113.;\
         append publish 3 126092;reply done;stays"
    );
    Ok(())
}

// The header is the directory's, the table goes back as it was read, and the session takes the disk's own entries alone.
#[test]
fn opens_a_disk(rt: HostRuntime) -> Result<(), Fail> {
    let alloc = rt.alloc();
    let mut log = Log::new(alloc);
    create_a(alloc, &mut log)?;
    let told = open_a(alloc, None, &mut log)?.told()?;
    assert_eq!(rt;
        told.as_str(),
        "append lock 3 1 61 .;read 9223913597871063040 2 0 4676;\
         write 9223913597871063040 2 0 \
         6100*536.3000*16.020c010000008cec0100*4101.8cec0100050000008cec0100;\
         reply done;opens disk 126092: 126092 0 126092"
    );
    Ok(())
}

/// What is told of the snapshot of disk `a`; nothing if the disk couldn't be opened.
fn told_snapshot(alloc: Global) -> Result<String, NoMemory> {
    match opened_a(alloc)? {
        Some(OpenDisk { mut log, inode }) => match take_snapshot(alloc, &inode, &mut log)? {
            Some(course) => course.told(),
            None => Ok(String::new(alloc)),
        },
        None => Ok(String::new(alloc)),
    }
}

// The snapshot's tag is written to the open inode, and the next id takes its place with its table.
#[test]
fn takes_a_snapshot(rt: HostRuntime) -> Result<(), Fail> {
    let told = told_snapshot(rt.alloc())?;
    assert_eq!(rt;
        told.as_str(),
        "append reserve 3 1 61 snapshot 74;write 9223913597871063040 2 256 74;\
         create 9223913602166030336 2 4198968 0 \
         6100*536.3000*16.020c010000008dec01008cec0100*4097.8cec0100*5.8cec0100;\
         append snapshot 3 126092 126093;reply done;opens disk 126093: 126092 0 126092"
    );
    Ok(())
}

/// What is told of the clone of a snapshot of disk `a`.
fn told_clone(alloc: Global) -> Result<String, NoMemory> {
    match snapshot_of_a(alloc)? {
        Some(mut log) => clone_b(alloc, [A, 0x01_f1a5, 7], &mut log)?.told(),
        None => Ok(String::new(alloc)),
    }
}

// Of the base's table a clone takes the entries of its own parent chain alone: its own id isn't among them.
#[test]
fn makes_a_clone(rt: HostRuntime) -> Result<(), Fail> {
    let told = told_clone(rt.alloc())?;
    assert_eq!(rt;
        told.as_str(),
        "append reserve 3 1 62 clone 61 74;read 9223913597871063040 2 0 4676;\
         create 9223919202803384320 2 4198968 0 \
         6200*536.3000*16.020c01000000a5f101008cec0100*4097.8cec0100*9.;\
         append clone 3 127397;reply done;stays"
    );
    Ok(())
}

/// What is told of the opening of snapshot `t` of disk `a`.
fn told_open_snapshot(alloc: Global) -> Result<String, NoMemory> {
    match snapshot_of_a(alloc)? {
        Some(mut log) => open_a(alloc, Some(Bytes::from_slice(alloc, b"t")?), &mut log)?.told(),
        None => Ok(String::new(alloc)),
    }
}

// A snapshot is only read.
#[test]
fn opens_a_snapshot(rt: HostRuntime) -> Result<(), Fail> {
    let told = told_open_snapshot(rt.alloc())?;
    assert_eq!(rt;
        told.as_str(),
        "append lock 3 1 61 74;read 9223913597871063040 2 0 4676;reply done;\
         opens snapshot 126092: 126092 0 126092"
    );
    Ok(())
}

#[test]
fn refuses_a_tag_that_no_snapshot_has(rt: HostRuntime) -> Result<(), Fail> {
    let alloc = rt.alloc();
    let mut log = Log::new(alloc);
    create_a(alloc, &mut log)?;
    let tag = Bytes::from_slice(alloc, b"t")?;
    let told = open_a(alloc, Some(tag), &mut log)?.told()?;
    assert_eq!(rt;
        told.as_str(),
        "append lock 3 1 61 74;reply refused NO_TAG;stays"
    );
    Ok(())
}

/// What is told of the closing of disk `a`.
fn told_close(alloc: Global) -> Result<String, NoMemory> {
    match opened_a(alloc)? {
        Some(OpenDisk { mut log, inode }) => {
            course(alloc, VdiAsk::Close, &[], Some(&inode), &mut log)?.told()
        }
        None => Ok(String::new(alloc)),
    }
}

#[test]
fn closes_a_disk(rt: HostRuntime) -> Result<(), Fail> {
    let told = told_close(rt.alloc())?;
    assert_eq!(rt; told.as_str(), "append unlock 3 1 126092;reply done;closes");
    Ok(())
}

#[test]
fn deletes_a_disk(rt: HostRuntime) -> Result<(), Fail> {
    let alloc = rt.alloc();
    let mut log = Log::new(alloc);
    create_a(alloc, &mut log)?;
    let ask = VdiAsk::Delete {
        name: Bytes::from_slice(alloc, b"a")?,
        tag: None,
    };
    let told = course(alloc, ask, &[], None, &mut log)?.told()?;
    assert_eq!(rt; told.as_str(), "append delete 3 1 61 .;reply done;stays");
    Ok(())
}

/// The end of a create whose work is refused with `HALT 1 2`.
fn told_refusal(alloc: Global) -> Result<String, NoMemory> {
    let mut told = String::new(alloc);
    let ask = VdiAsk::Create {
        name: Bytes::from_slice(alloc, b"a")?,
        spec: SPEC,
    };
    let (mut op, act) = begin_vdi(alloc, NodeId(3), 1, ask, None)?;
    write_op_act(&mut told, &act)?;
    if let OpAct::Append(entry) = &act {
        decided(alloc, &mut op, entry, None, &mut Log::new(alloc))?;
    }
    if op.bytes_wanted().is_some() {
        let end = op.on_refused(Cause::Halt {
            members: 1,
            wanted: 2,
        });
        write_end(&mut told, &end)?;
    }
    Ok(told)
}

// The id that was granted is given back, and the refusal is the reply.
#[test]
fn ends_with_the_refusal_of_its_work(rt: HostRuntime) -> Result<(), Fail> {
    let told = told_refusal(rt.alloc())?;
    assert_eq!(rt;
        told.as_str(),
        "append reserve 3 1 61 fresh 12288 2 12;append unlock 3 1 126092;reply refused HALT 1 2;"
    );
    Ok(())
}

/// The refusals of a command with no disk open, with a disk, and with a snapshot.
fn refusals(ask: &VdiAsk, disk: &Inode) -> [Option<Cause>; 3] {
    [
        command_refusal(ask, None, false),
        command_refusal(ask, Some(disk), false),
        command_refusal(ask, Some(disk), true),
    ]
}

/// The refusals of a command, with the inode of disk `a`.
fn refusals_with_a(alloc: Global, ask: VdiAsk) -> Result<[Option<Cause>; 3], NoMemory> {
    let disk = Inode::new(alloc, b"a", Vid(A), 1, None, SPEC)?;
    Ok(refusals(&ask, &disk))
}

#[test]
fn refuses_to_open_a_second_disk(rt: HostRuntime) -> Result<(), Fail> {
    let attach = VdiAsk::Attach {
        name: Bytes::from_slice(rt.alloc(), b"a")?,
        tag: None,
    };
    assert_eq!(rt;
        refusals_with_a(rt.alloc(), attach)?,
        [None, Some(Cause::InvalidParms), Some(Cause::InvalidParms)]
    );
    Ok(())
}

#[test]
fn refuses_a_snapshot_of_a_snapshot(rt: HostRuntime) -> Result<(), Fail> {
    let snapshot = VdiAsk::Snapshot {
        tag: Bytes::from_slice(rt.alloc(), b"t")?,
    };
    assert_eq!(rt;
        refusals_with_a(rt.alloc(), snapshot)?,
        [Some(Cause::VdiNotLocked), None, Some(Cause::Readonly)]
    );
    Ok(())
}

#[test]
fn refuses_commands_on_the_spot(rt: HostRuntime) -> Result<(), Fail> {
    assert_eq!(rt;
        refusals_with_a(rt.alloc(), VdiAsk::Close)?,
        [Some(Cause::VdiNotLocked), None, None]
    );
    assert_eq!(rt;
        refusals_with_a(rt.alloc(), VdiAsk::Check)?,
        [Some(Cause::VdiNotLocked), None, Some(Cause::Readonly)]
    );
    Ok(())
}
