//! What a call on threads answers.

use crate::replays::words_of;
use object_id::Bytes;
use sheep::{FreeGate, Kept, Status, sheep_live};
use sheep_base::{MemSource, SureSink};
use std::alloc::Global;
use std::sync::Wait;
use std::test::Fail;
use std::thread::Threads;

const LOCKED: &str =
    "cluster 4\nsession 1 node 0\nsession 2 node 1\n1 vdi create a 1M\n1 vdi open a\nsettle\n2 vdi open a\nsettle\n\
fail 0\nsettle\n2 vdi open a\ncluster info\n";

const LOCKED_REPORT: &str =
    "1 ok\n2 ok\n3 refused 07 VDI_LOCKED session 1\n4 ok\ncluster epoch 2 settled 2 members 1 2 3\n";

/// The status of a script on threads, if it prints this text. The source fails in the calls that are listed.
fn status_of<R: Threads + Wait + Sync>(
    rt: &R,
    alloc: Global,
    line: &str,
    fails: Vec<u64>,
    text: &str,
) -> Result<Option<Status>, Fail> {
    let words = words_of(alloc, line)?;
    let bytes = Bytes::from_slice(alloc, LOCKED.as_bytes())?;
    let mut source = MemSource::new(bytes, fails, 100);
    let mut sink = SureSink::new(alloc, 1_000)?;
    let mut kept = Kept::new(alloc);
    let words = words.as_slice();
    let gate = &FreeGate;
    let status = sheep_live(rt, alloc, words, &mut source, &mut sink, gate, &mut kept);
    Ok(if sink.given() == text.as_bytes() {
        Some(status)
    } else {
        None
    })
}

#[test]
fn a_lost_holder_is_followed(rt: HostRuntime) -> Result<(), Fail> {
    let none = Vec::new(rt.alloc());
    let status = status_of(&rt, rt.alloc(), "live", none, LOCKED_REPORT)?;
    assert_eq!(rt; status, Some(Status::Done));
    Ok(())
}

#[test]
fn a_source_that_fails_is_told(rt: HostRuntime) -> Result<(), Fail> {
    let mut fails = Vec::new(rt.alloc());
    fails.push(0)?;
    let status = status_of(&rt, rt.alloc(), "live", fails, "")?;
    assert_eq!(rt; status, Some(Status::ReadFault));
    Ok(())
}

#[test]
fn other_words_are_refused(rt: HostRuntime) -> Result<(), Fail> {
    let none = Vec::new(rt.alloc());
    let status = status_of(&rt, rt.alloc(), "run", none, "bad words\n")?;
    assert_eq!(rt; status, Some(Status::BadWords));
    Ok(())
}
