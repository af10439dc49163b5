//! Runs on threads, replayed.

use crate::scripts::SCRIPTS;
use object_id::Bytes;
use sheep::{FreeGate, Kept, Status, sheep, sheep_live};
use sheep_base::{SureSink, SureSource};
use std::alloc::Global;
use std::sync::Wait;
use std::test::Fail;
use std::thread::Threads;
use trace_text::input_parts;

/// How often each script runs on threads.
const RUNS: u32 = 10;

/// More bytes than any of the texts has.
const ROOM: usize = 1_000_000;

pub(crate) fn words_of(alloc: Global, line: &str) -> Result<Vec<String>, Fail> {
    let mut words = Vec::new(alloc);
    for word in line.split_ascii_whitespace() {
        words.push(String::from_str(alloc, word)?)?;
    }
    Ok(words)
}

/// What a script prints on threads, with the trace of its run; none if that isn't done.
fn live_text<R: Threads + Wait + Sync>(
    rt: &R,
    alloc: Global,
    script: &str,
) -> Result<Option<Bytes>, Fail> {
    let words = words_of(alloc, "live --trace")?;
    let mut source = SureSource::new(Bytes::from_slice(alloc, script.as_bytes())?);
    let mut sink = SureSink::new(alloc, ROOM)?;
    let mut kept = Kept::new(alloc);
    let words = words.as_slice();
    let gate = &FreeGate;
    match sheep_live(rt, alloc, words, &mut source, &mut sink, gate, &mut kept) {
        Status::Done => Ok(Some(Bytes::from_slice(alloc, sink.given())?)),
        _ => Ok(None),
    }
}

/// A script with a trace behind it.
fn with_trace(alloc: Global, script: &str, trace: &[u8]) -> Result<Bytes, Fail> {
    let mut input = Vec::from_slice(alloc, script.as_bytes())?;
    input.extend_from_slice(b"trace\n")?;
    input.extend_from_slice(trace)?;
    Ok(Bytes::from_vec(input))
}

/// Whether a script prints this report, which is had without its last LF, where it is replayed by this trace.
fn is_replayed(alloc: Global, script: &str, report: &[u8], trace: &[u8]) -> Result<bool, Fail> {
    let words = words_of(alloc, "replay")?;
    let mut source = SureSource::new(with_trace(alloc, script, trace)?);
    let mut sink = SureSink::new(alloc, ROOM)?;
    let mut lines = Vec::from_slice(alloc, report)?;
    lines.push(b'\n')?;
    let status = sheep(alloc, words.as_slice(), &mut source, &mut sink);
    Ok(status == Status::Done && sink.given() == lines.as_slice())
}

/// Whether a script prints on threads what the trace of that run prints where it is replayed.
fn lives_as_it_replays<R: Threads + Wait + Sync>(
    rt: &R,
    alloc: Global,
    script: &str,
) -> Result<bool, Fail> {
    let Some(text) = live_text(rt, alloc, script)? else {
        return Ok(false);
    };
    let (report, trace) = input_parts(text.as_slice());
    is_replayed(alloc, script, report, trace)
}

/// How many runs of four scripts, from a place on, print what their traces print.
fn replayed_runs<R: Threads + Wait + Sync>(
    rt: &R,
    alloc: Global,
    place: usize,
) -> Result<u32, Fail> {
    let mut count = 0u32;
    for script in SCRIPTS.split('@').skip(place).take(4) {
        for _ in 0..RUNS {
            if lives_as_it_replays(rt, alloc, script)? {
                count = count.saturating_add(1);
            }
        }
    }
    Ok(count)
}

#[test]
fn four_scripts_print_what_they_replay(rt: HostRuntime) -> Result<(), Fail> {
    assert_eq!(rt; replayed_runs(&rt, rt.alloc(), 0)?, 4 * RUNS);
    Ok(())
}

#[test]
fn so_do_four_more(rt: HostRuntime) -> Result<(), Fail> {
    assert_eq!(rt; replayed_runs(&rt, rt.alloc(), 4)?, 4 * RUNS);
    Ok(())
}

#[test]
fn and_four_more(rt: HostRuntime) -> Result<(), Fail> {
    assert_eq!(rt; replayed_runs(&rt, rt.alloc(), 8)?, 4 * RUNS);
    Ok(())
}

#[test]
fn and_four_behind_those(rt: HostRuntime) -> Result<(), Fail> {
    assert_eq!(rt; replayed_runs(&rt, rt.alloc(), 12)?, 4 * RUNS);
    Ok(())
}

#[test]
fn and_the_last_four(rt: HostRuntime) -> Result<(), Fail> {
    assert_eq!(rt; replayed_runs(&rt, rt.alloc(), 16)?, 4 * RUNS);
    Ok(())
}
