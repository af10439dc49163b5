//! What no clause says: that a trace is printed with ample memory, and what the rules mean on small inputs.
use cluster_script::parse;
use object_id::{Bytes, INPUT_BYTES_MAX, NodeId};
use sheep_node::Event;
use sheep_world::ApplyFault;
use std::alloc::Global;
use std::test::Fail;
use trace_text::{
    BadEvent, Lines, TraceFault, event_in, input_parts, print_events, print_trace, replay,
};

const EVENTS: [Event; 5] = [
    Event::Guest { session: 1 },
    Event::Deliver {
        node: NodeId(3),
        number: 17,
    },
    Event::LoseReply {
        node: NodeId(0),
        number: u32::MAX,
    },
    Event::RetryTick { node: NodeId(63) },
    Event::Phase,
];

const TRACE: &[u8] = b"guest 1\ndeliver 3.17\nlosereply 0.4294967295\nretry 63\nphase\n";

#[test]
fn prints_a_line_for_each_event(rt: HostRuntime) -> Result<(), Fail> {
    let text = print_events(rt.alloc(), &EVENTS)?;
    assert_eq!(rt; text.as_slice(), TRACE);
    Ok(())
}

#[test]
fn reads_what_was_printed(rt: HostRuntime) {
    let mut lines = Lines::new(TRACE);
    for event in &EVENTS {
        let read = match lines.next() {
            Some(line) => event_in(line),
            None => None,
        };
        assert_eq!(rt; read, Some(*event));
    }
    assert_eq!(rt; lines.next(), None);
}

// By hand, from the rule that a line is read only as it would be printed. The last of these has nothing.
const NO_EVENTS: &[u8] =
    b"guest 01|guest +1|guest  1|guest 1 | guest 1|guest 4294967296|deliver 3|deliver 3.17.0|log 3.17|phase 1|phase\r|";

#[test]
fn reads_no_other_line(rt: HostRuntime) {
    let mut lines = 0_u32;
    for line in NO_EVENTS.split(|byte| *byte == b'|') {
        assert_eq!(rt; event_in(line), None);
        lines = lines.wrapping_add(1);
    }
    assert_eq!(rt; lines, 12);
}

// An input, its script and its trace. `@` is between rows.
const INPUTS: &[u8] =
    b"cluster 1\n trace\ntrace\nguest 1\n\nphase\n|cluster 1\n trace|guest 1\n\nphase\n@\
cluster 1\ntrace|cluster 1|@\
trace\ntrace\n||trace\n@\
cluster 1\n|cluster 1\n|@\
||";

/// Whether the input of a row is cut so.
fn is_cut(row: &[u8]) -> bool {
    let mut fields = row.split(|byte| *byte == b'|');
    let (Some(input), Some(script), Some(trace)) = (fields.next(), fields.next(), fields.next())
    else {
        return false;
    };
    let parts = input_parts(input);
    parts.0 == script && parts.1 == trace
}

#[test]
fn cuts_an_input_at_its_line_trace(rt: HostRuntime) {
    let mut rows = 0_u32;
    for row in INPUTS.split(|byte| *byte == b'@') {
        assert!(rt; is_cut(row), "row {rows}");
        rows = rows.wrapping_add(1);
    }
    assert_eq!(rt; rows, 5);
}

const ONE_DISK: &[u8] = b"cluster 1\nsession 1 node 0\n1 vdi create -c 1 a 512\n";

// The only order in which the disk can be made.
const ONE_DISK_TRACE: &[u8] =
    b"guest 1\nput 0\nlog 0\ndeliver 0.0\ndeliver 0.0\nput 0\nlog 0\nphase\n";

/// The trace of the run that a trace spells.
fn trace_again(alloc: Global, script: &[u8], trace: &[u8]) -> Result<Bytes, TraceFault> {
    if script.len() > INPUT_BYTES_MAX || trace.len() > INPUT_BYTES_MAX {
        return Err(TraceFault::NoMemory);
    }
    let Ok(script) = parse(alloc, script) else {
        return Err(TraceFault::NoMemory);
    };
    let run = replay(alloc, &script, trace)?;
    Ok(print_trace(alloc, &run)?)
}

#[test]
fn replays_a_whole_run(rt: HostRuntime) -> Result<(), Fail> {
    match trace_again(rt.alloc(), ONE_DISK, ONE_DISK_TRACE) {
        Ok(text) => assert_eq!(rt; text.as_slice(), ONE_DISK_TRACE),
        Err(fault) => assert!(rt; false, "{fault:?}"),
    }
    Ok(())
}

// A trace, and the place of its first bad line. `@` is between rows.
const BAD_TRACES: &[u8] =
    b"guest 1\nguest 1\nput 0\nlog 0\ndeliver 0.0\ndeliver 0.0\nput 0\nlog 0\nphase\n|2@\
guest 1\nput 0\nlog 0\ndeliver 0.0\ndeliver 0.0\nput 0\nlog 0\n|8@\
guest 01\nput 0\nlog 0\ndeliver 0.0\ndeliver 0.0\nput 0\nlog 0\nphase\n|1@\
guest 1\nput 0\nlog 0\ndeliver 0.0\ndeliver 0.0\nput 0\nlog 0\nphase\nphase\n|9@\
guest 1\nput 0\nlog 0\ndeliver 0.1\n|4@\
|1";

/// The place of the first bad line of a trace, if there is one.
fn bad_place(alloc: Global, trace: &[u8]) -> Option<u32> {
    match trace_again(alloc, ONE_DISK, trace) {
        Err(TraceFault::Bad(BadEvent { place })) => Some(place),
        _ => None,
    }
}

/// Whether the first bad line of a row's trace is the row's.
fn is_bad(alloc: Global, row: &[u8]) -> bool {
    let mut fields = row.split(|byte| *byte == b'|');
    let (Some(trace), Some([digit])) = (fields.next(), fields.next()) else {
        return false;
    };
    bad_place(alloc, trace) == Some(u32::from(digit.wrapping_sub(b'0')))
}

#[test]
fn names_the_first_bad_line(rt: HostRuntime) {
    let mut rows = 0_u32;
    for row in BAD_TRACES.split(|byte| *byte == b'@') {
        assert!(rt; is_bad(rt.alloc(), row), "row {rows}");
        rows = rows.wrapping_add(1);
    }
    assert_eq!(rt; rows, 6);
}

// Without a phase the empty trace is a whole run.
#[test]
fn replays_no_event(rt: HostRuntime) -> Result<(), Fail> {
    match trace_again(rt.alloc(), b"", b"") {
        Ok(text) => assert_eq!(rt; text.as_slice(), b"".as_slice()),
        Err(fault) => assert!(rt; false, "{fault:?}"),
    }
    Ok(())
}

/// Whether a fault is displayed as this text.
fn is_said(alloc: Global, fault: ApplyFault, text: &str) -> Result<bool, Fail> {
    Ok(format!(in alloc; "{fault}")?.as_str() == text)
}

#[test]
fn says_why_an_event_is_not_made(rt: HostRuntime) -> Result<(), Fail> {
    assert!(rt;
        is_said(
            rt.alloc(),
            ApplyFault::NotEnabled,
            "the event may not happen"
        )?
    );
    assert!(rt; is_said(rt.alloc(), ApplyFault::NoMemory, "no memory")?);
    Ok(())
}
