//! What a call on threads is to write, and with which status it ends.

ghost use Rattle.std.specs.Prelude.{◌≡◌, ◌+◌, ◌≤◌, length, true, false, IfOk, IsErrOf};
ghost use Rattle.object_id.specs.declared.limits.TheConstants.{INPUT_BYTES_MAX};
ghost use Rattle.cluster_script.specs.Script.{script_in};
ghost use Rattle.sheep_base.specs.Fault.{Rose};
ghost use Rattle.sheep_words.specs.Mode.{mode_asked_for};
ghost use Rattle.sheep.specs.Reading.{TakesAtMost};
ghost use Rattle.sheep.specs.Answer.{printed_text};
ghost use Rattle.sheep.specs.Live.{TellsMerged, AnswersScript, AnswersOnThreads, AnswersLiveCall, takes_live};

use crate::answer::{Answer, Stop, done, line_answer, report_and_trace, script_refused};
use crate::status::Status;
use cluster_script::{Script, ScriptFault, parse};
use dog_report::report;
use live_run::{Gate, Kept, run_live};
use object_id::{Bytes, INPUT_BYTES_MAX, NoMemory};
use sheep_base::{ReadStop, Source, read_all};
use sheep_words::{Mode, mode_of};
use sheep_world::Run;
use std::alloc::Global;
use std::sync::Wait;
use std::thread::Threads;

/// The report of a run, and its trace behind it where that is asked for.
fn printed_text(alloc: Global, script: &Script, run: &Run, trace: bool) -> Result<Bytes, NoMemory>
    ensures { IfOk result (λ text. text ≡ printed_text trace script.now run.now.events) }
{
    let text = report(alloc, script, run)?;
    if trace {
        report_and_trace(alloc, text.as_slice(), run.events())
    } else {
        Ok(text)
    }
}

/// What `live` prints for a script.
#[tactic(auto, using(crate::proofs::LiveParts::tells_printed))]
fn live_text<G: Gate + Sync, R: Threads + Wait + Sync>(
    rt: &R,
    alloc: Global,
    script: &Script,
    trace: bool,
    gate: &G,
    kept: &mut Kept,
) -> Result<Bytes, NoMemory>
    ensures { IfOk result (TellsMerged trace script.now kept.new) }
{
    let run = run_live(rt, alloc, script, gate, kept)?;
    printed_text(alloc, script, &run, trace)
}

/// The answer of `live` to an input.
#[tactic(auto, using(crate::proofs::LiveParts::answers_done, crate::proofs::LiveParts::answers_bad))]
fn answer_script<G: Gate + Sync, R: Threads + Wait + Sync>(
    rt: &R,
    alloc: Global,
    input: &[u8],
    trace: bool,
    gate: &G,
    kept: &mut Kept,
) -> Result<Answer, NoMemory>
    requires { length input.now ≤ INPUT_BYTES_MAX }
    ensures { IfOk result (AnswersScript trace kept.new (script_in input.now)) }
{
    match parse(alloc, input) {
        Ok(script) => Ok(done(live_text(rt, alloc, &script, trace, gate, kept)?)),
        Err(ScriptFault::BadLine { line, cause }) => script_refused(alloc, line, cause),
        Err(ScriptFault::NoMemory) => Err(NoMemory),
    }
}

/// The answer of `live` to what a source has.
#[tactic(auto, using(crate::proofs::LiveParts::answers_short, crate::proofs::LiveParts::answers_long))]
fn answer_on_threads<S: Source, G: Gate + Sync, R: Threads + Wait + Sync>(
    rt: &R,
    alloc: Global,
    trace: bool,
    source: &mut S,
    gate: &G,
    kept: &mut Kept,
) -> Result<Answer, Stop>
    ensures answered { IfOk result (λ answer. AnswersOnThreads trace kept.new (S.left source.old) (S.left source.new) answer) }
    ensures failed { IsErrOf result Stop.ReadFault → Rose (S.faults source.old) (S.faults source.new) }

    ensures takes { TakesAtMost (INPUT_BYTES_MAX + 1) (S.left source.old) (S.left source.new) }
    ensures count { S.faults source.old ≤ S.faults source.new }
    ensures memory { IsErrOf result Stop.NoMemory → S.faults source.new ≡ S.faults source.old }
{
    let input = match read_all(alloc, source, INPUT_BYTES_MAX) {
        Ok(input) => input,
        Err(ReadStop::TooLong) => return Ok(line_answer(alloc, Status::TooLong, b"too long\n")?),
        Err(ReadStop::Failed) => return Err(Stop::ReadFault),
        Err(ReadStop::NoMemory) => return Err(Stop::NoMemory),
    };
    Ok(answer_script(rt, alloc, input.as_slice(), trace, gate, kept)?)
}

/// What a call on threads with these words is to write, once it has read what it reads.
pub fn answer_live_call<S: Source, G: Gate + Sync, R: Threads + Wait + Sync>(
    rt: &R,
    alloc: Global,
    words: &[String],
    source: &mut S,
    gate: &G,
    kept: &mut Kept,
) -> Result<Answer, Stop>
    ensures answered { IfOk result (λ answer.
        AnswersLiveCall (mode_asked_for words.now) kept.new (S.left source.old) (S.left source.new) answer) }
    ensures reading { IsErrOf result Stop.ReadFault → takes_live (mode_asked_for words.now) ≡ true }
    ensures failed { IsErrOf result Stop.ReadFault → Rose (S.faults source.old) (S.faults source.new) }

    ensures untouched { takes_live (mode_asked_for words.now) ≡ false → source.new ≡ source.old }
    ensures takes { TakesAtMost (INPUT_BYTES_MAX + 1) (S.left source.old) (S.left source.new) }
    ensures count { S.faults source.old ≤ S.faults source.new }
    ensures memory { IsErrOf result Stop.NoMemory → S.faults source.new ≡ S.faults source.old }
{
    match mode_of(alloc, words)? {
        Some(Mode::Live { trace }) => answer_on_threads(rt, alloc, trace, source, gate, kept),
        Some(Mode::Run { .. }) | Some(Mode::Replay) | Some(Mode::Gen { .. }) | None => {
            Ok(line_answer(alloc, Status::BadWords, b"bad words\n")?)
        }
    }
}
