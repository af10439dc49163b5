//! The last of what there may be, with ample memory: a body that never finds any for it would meet the contracts too.

use gateway_queue::Queue;
use inode::Inode;
use object_id::{Bytes, NoMemory, OBJECTS_MAX, Policy, VdiSpec, Vid};
use std::alloc::Global;
use std::test::Fail;

/// The bytes of the inode of the longest table, in which the last entry is 7.
fn longest_inode(alloc: Global) -> Result<Bytes, NoMemory> {
    let spec = VdiSpec {
        size: 4_294_967_296,
        policy: Policy::Copies(1),
        shift: 12,
    };
    let mut inode = Inode::new(alloc, b"a", Vid(9), 1, None, spec)?;
    inode.set_entry(OBJECTS_MAX - 1, Vid(7));
    inode.to_bytes(alloc)
}

// The last entry of the longest table stands in the last four bytes of the inode.
#[test]
fn an_inode_has_1_048_576_entries(rt: HostRuntime) -> Result<(), Fail> {
    let bytes = longest_inode(rt.alloc())?;
    assert_eq!(rt; bytes.len(), 4_198_968);
    let read = Inode::from_bytes(rt.alloc(), bytes.as_slice())?;
    assert_eq!(rt;
        (read.entries().len(), read.entries().last()),
        (1_048_576, Some(&7))
    );
    Ok(())
}

/// A queue of 65 requests. Each has an index of its own, but the last, which has all of theirs.
fn long_queue(alloc: Global) -> Result<Queue, NoMemory> {
    let mut queue = Queue::new(alloc);
    for req in 0..65 {
        let first = if req < 64 { req } else { 0 };
        if !queue.is_queued(req) {
            queue.push(req, first, req)?;
        }
    }
    Ok(queue)
}

#[test]
fn a_65th_request_waits(rt: HostRuntime) -> Result<(), Fail> {
    let queue = long_queue(rt.alloc())?;
    assert_eq!(rt; queue.as_slice().len(), 65);
    assert!(rt; queue.is_queued(63) && queue.may_run(63));
    assert!(rt; queue.is_queued(64) && !queue.may_run(64));
    Ok(())
}
