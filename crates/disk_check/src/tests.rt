//! Each call with ample memory: a body that never finds any would meet the contracts too. And worked checks.

ghost use Rattle.std.specs.Prelude.{IfOk};
ghost use Rattle.object_id.specs.Policy.{IsPolicy};
ghost use Rattle.object_id.specs.Oid.{IsVid};

use super::*;
use inode::Inode;
use object_id::{Bytes, NoMemory, Oid, Policy, VdiSpec, Vid};
use object_store::OidList;
use peer_proto::{Checked, ObjWork, WorkDone};
use std::alloc::Global;
use std::test::Fail;

#[test]
fn copies_acts(rt: HostRuntime) -> Result<(), Fail> {
    let alloc = rt.alloc();
    let work = CheckAct::Work(ObjWork::ReadAll {
        oid: Oid::object(Vid(1), 0),
        policy: Policy::Copies(2),
        length: 4_096,
    });
    assert!(rt;
        matches!(
            &work.copy(alloc)?,
            CheckAct::Work(ObjWork::ReadAll { length: 4_096, .. })
        )
    );
    let reply = CheckAct::Reply(Checked {
        objects: 3,
        inherited: 2,
        differed: OidList::new(alloc),
    });
    assert!(rt;
        matches!(
            &reply.copy(alloc)?,
            CheckAct::Reply(Checked {
                objects: 3,
                inherited: 2,
                ..
            })
        )
    );
    Ok(())
}

/// The inode of disk 1, with one object of 4,096 bytes that is its own.
fn one_object(alloc: Global, policy: Policy) -> Result<Inode, NoMemory>
    requires { IsPolicy policy }
    ensures { IfOk result (λ inode. IsVid inode.vid) }
{
    let spec = VdiSpec {
        size: 4_096,
        policy,
        shift: 12,
    };
    let mut inode = Inode::new(alloc, b"a", Vid(1), 1, None, spec)?;
    if !inode.entries().is_empty() {
        inode.set_entry(0, Vid(1));
    }
    Ok(inode)
}

/// Tells a check that its work is done. Where memory is wanted once, the call is made again: the check is as it was.
fn told(alloc: Global, check: &mut CheckOp, bytes: &[u8]) -> Result<Option<CheckAct>, NoMemory> {
    let done = WorkDone {
        req: 1,
        bytes: Bytes::from_slice(alloc, bytes)?,
    };
    if check.bytes_wanted() != Some(done.bytes.len()) {
        return Ok(None);
    }
    match check.on_done(alloc, &done) {
        Ok(act) => Ok(Some(act)),
        Err(NoMemory) => Ok(Some(check.on_done(alloc, &done)?)),
    }
}

/// Whether a check writes this value over object 0, where these bytes come.
fn writes(alloc: Global, check: &CheckOp, bytes: &[u8], value: &[u8]) -> Result<bool, NoMemory> {
    let done = WorkDone {
        req: 1,
        bytes: Bytes::from_slice(alloc, bytes)?,
    };
    if check.bytes_wanted() != Some(done.bytes.len()) {
        return Ok(false);
    }
    match check.value_written(alloc, &done)? {
        Some((index, written)) => Ok(index == 0 && written.as_slice() == value),
        None => Ok(false),
    }
}

/// So many bytes of each of some values, one behind the other.
fn runs(alloc: Global, long: usize, values: &[u8]) -> Result<Vec<u8>, NoMemory> {
    let mut bytes = Vec::new(alloc);
    for value in values {
        for _ in 0..long {
            bytes.push(*value)?;
        }
    }
    Ok(bytes)
}

// Two copies, one full of 1 and one full of 2: the first is written back, and the object is told as differing.
#[test]
fn writes_the_first_copy_back(rt: HostRuntime) -> Result<(), Fail> {
    let alloc = rt.alloc();
    let inode = one_object(alloc, Policy::Copies(2))?;
    let (mut check, act) = begin_check(alloc, &inode)?;
    assert!(rt;
        matches!(&act, CheckAct::Work(ObjWork::ReadAll { oid, policy: Policy::Copies(2), length: 4_096 })
            if oid.as_u64() == 0x0000_0001_0000_0000)
    );
    let pieces = runs(alloc, 4_096, &[1, 2])?;
    let ones = runs(alloc, 4_096, &[1])?;
    assert!(rt; writes(alloc, &check, pieces.as_slice(), ones.as_slice())?);
    let act = told(alloc, &mut check, pieces.as_slice())?;
    assert!(rt;
        matches!(&act, Some(CheckAct::Work(ObjWork::Write { oid, policy: Policy::Copies(2), offset: 0, bytes }))
            if oid.as_u64() == 0x0000_0001_0000_0000 && bytes.as_slice() == ones.as_slice())
    );
    let act = told(alloc, &mut check, &[])?;
    assert!(rt;
        matches!(&act, Some(CheckAct::Reply(Checked { objects: 1, inherited: 0, differed }))
            if differed.as_slice() == [Oid::object(Vid(1), 0)].as_slice())
    );
    assert!(rt; check.bytes_wanted() == None);
    Ok(())
}

// Blocks of 256 bytes 1 and 256 bytes 2 have the parity strip 3 * 1 + 2 * 2 = 7 over the field.
#[test]
fn compares_strips(rt: HostRuntime) -> Result<(), Fail> {
    let alloc = rt.alloc();
    let inode = one_object(alloc, Policy::Coded { d: 2, p: 1 })?;
    let value = runs(
        alloc,
        256,
        &[1, 2, 1, 2, 1, 2, 1, 2, 1, 2, 1, 2, 1, 2, 1, 2],
    )?;
    for (parity, count) in [(7, 0), (8, 1)] {
        let (mut check, _) = begin_check(alloc, &inode)?;
        let pieces = runs(alloc, 2_048, &[1, 2, parity])?;
        let act = told(alloc, &mut check, pieces.as_slice())?;
        assert!(rt;
            matches!(&act, Some(CheckAct::Work(ObjWork::Write { offset: 0, bytes, .. }))
                if bytes.as_slice() == value.as_slice())
        );
        let act = told(alloc, &mut check, &[])?;
        assert!(rt;
            matches!(&act, Some(CheckAct::Reply(Checked { objects: 1, inherited: 0, differed }))
                if differed.len() == count)
        );
    }
    Ok(())
}
