//! Which stamps were brought to a step: that of the step that sent the message which it takes, and that of the step at which the entry that
//! it reads came into the log.

use crate::merges::script_of;
use live_cells::Step;
use live_run::{FreeGate, Kept, run_live};
use object_id::{Entry, NodeId};
use sheep_node::{Event, Input};
use std::test::Fail;

const CHANGES: &str =
    "cluster 5\nsession 1 node 0\nsession 2 node 1\n1 vdi create -c 3 a 1M\n1 vdi open a\n1 vdi write 0 512 fill 1\n\
settle\nfail 0\njoin 5\nsettle\n2 vdi open a\n2 vdi read 0 512\n2 vdi close\n";

/// Whether a step sent the request of this name.
fn sent_request(step: &Step, from: NodeId, number: u32) -> bool {
    for (_, request) in step.outputs.sends.as_slice() {
        if request.from == from && request.number == number {
            return true;
        }
    }
    false
}

/// Whether a step sent what another one takes.
fn sent_what(step: &Step, taker: &Step) -> bool {
    match &taker.input {
        Some(Input::Request(request)) => sent_request(step, request.from, request.number),
        Some(Input::Reply(_)) => step.event == taker.event && step.outputs.say.is_some(),
        Some(Input::LogEntry(entry)) => put_what(step, entry),
        _ => false,
    }
}

/// Whether an entry came into the log at a step.
fn put_what(step: &Step, entry: &Entry) -> bool {
    if let Some(put) = &step.outputs.put {
        return put.same(entry);
    }
    match (step.event, entry) {
        (Event::Leave { node }, Entry::Leave { node: left }) => node == *left,
        (Event::Join { node }, Entry::Join { node: joined, .. }) => node == *joined,
        _ => false,
    }
}

fn is_taking(step: &Step) -> bool {
    match &step.input {
        Some(Input::LogEntry(Entry::Format { .. })) => false,
        Some(Input::Request(_)) | Some(Input::Reply(_)) | Some(Input::LogEntry(_)) => true,
        _ => false,
    }
}

/// Whether the stamp of a step at which what another one takes was sent is among those brought to that.
fn has_sender(steps: &[Step], taker: &Step) -> bool {
    for step in steps {
        if sent_what(step, taker) && taker.used.as_slice().contains(&step.stamp) {
            return true;
        }
    }
    false
}

fn has_sender_in(kept: &Kept, taker: &Step) -> bool {
    for cell in kept.cells() {
        if has_sender(cell.steps(), taker) {
            return true;
        }
    }
    has_sender(kept.others(), taker)
}

#[test]
fn each_step_is_brought_what_it_takes(rt: HostRuntime) -> Result<(), Fail> {
    let alloc = rt.alloc();
    let script = script_of(alloc, CHANGES)?;
    let mut kept = Kept::new(alloc);
    let _run = run_live(&rt, alloc, &script, &FreeGate, &mut kept)?;
    let mut taking = 0u32;
    for cell in kept.cells() {
        for step in cell.steps() {
            if is_taking(step) {
                taking = taking.saturating_add(1);
                assert!(rt; has_sender_in(&kept, step));
            }
        }
    }
    assert!(rt; taking > 20);
    Ok(())
}
