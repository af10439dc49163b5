//! What a call is to write, and with which status it ends.

ghost use Rattle.std.specs.Prelude.{◌≡◌, ◌+◌, ◌≤◌, ◌++◌, length, codes, true, false, IfOk, IsErrOf};
ghost use Rattle.cluster_script.specs.Script.{script_in};
ghost use Rattle.schedule.specs.Schedule.{schedule_of};
ghost use Rattle.schedule.specs.GeneratedScript.{generated_statements};
ghost use Rattle.trace_text.specs.Lines.{lines_in};
ghost use Rattle.trace_text.specs.Replay.{bad_place};
ghost use Rattle.trace_text.specs.Spelling.{trace_text_of};
ghost use Rattle.sheep_base.specs.Fault.{Rose};
ghost use Rattle.sheep_words.specs.Mode.{mode_asked_for};
ghost use Rattle.sheep.specs.Reading.{TakesAtMost};
ghost use Rattle.sheep.specs.Answer.{printed_text, bad_script_answer, run_answer, replayed_answer, replay_answer, generated_answer};
ghost use Rattle.sheep.specs.Answer.{input_answer, AnswersInput, AnswersCall};
ghost use Rattle.sheep.specs.Outcome.{reads_input};

use crate::lines::{bad_event, bad_line};
use crate::making::{replayed_run, seeded_run};
use crate::status::Status;
use crate::told_run::FinishedRun;
use cluster_script::{LineCause, Script, ScriptFault, parse};
use dog_report::generated_line;
use object_id::{Bytes, INPUT_BYTES_MAX, NoMemory};
use schedule::generated_text;
use sheep_base::{ReadStop, Source, read_all};
use sheep_node::Event;
use sheep_words::{Mode, mode_of};
use std::alloc::Global;
use trace_text::{BadEvent, TraceFault, input_parts, print_events};

/// What a call is to write, and the status that it then ends with.
#[derive(Drop)]
pub struct Answer {
    pub status: Status,
    pub text: Bytes,
}

/// What is done with an input.
#[derive(Clone, Copy, Debug, PartialEq, Eq)]
pub(crate) enum Work {
    /// A script is run in the order that the seed gives, and the order is printed too if a trace is wanted.
    Run { seed: u64, trace: bool },
    /// A script is run in the order that the trace behind it gives.
    Replay,
}

/// Why there is no answer.
#[derive(Clone, Copy, Debug, PartialEq, Eq)]
pub enum Stop {
    ReadFault,
    NoMemory,
}

impl From<NoMemory> for Stop {
    ghost use Rattle.sheep.specs.declared.answer.Stop.TheVariants as stops;

    ghost from_gives = { λ _ e. e ≡ stops.NoMemory };

    fn from(_error: NoMemory) -> Stop {
        Stop::NoMemory
    }
}

/// An answer of one short line.
pub(crate) fn line_answer(alloc: Global, status: Status, line: &[u8]) -> Result<Answer, NoMemory>
    ensures { IfOk result (λ answer. answer ≡ record { status = status; text = line.now }) }
{
    Ok(Answer {
        status,
        text: Bytes::from_slice(alloc, line)?,
    })
}

/// The answer that names a bad line of a script.
pub(crate) fn script_refused(alloc: Global, line: u32, cause: LineCause) -> Result<Answer, NoMemory>
    ensures { IfOk result (λ answer. answer ≡ bad_script_answer (line, cause)) }
{
    Ok(Answer {
        status: Status::BadScript,
        text: bad_line(alloc, line, cause)?,
    })
}

/// The answer that the work was done, with its text.
pub(crate) fn done(text: Bytes) -> Answer
    ensures { result ≡ record { status = Status.Done; text = text } }
{
    Answer {
        status: Status::Done,
        text,
    }
}

/// A report, and the trace behind it.
pub(crate) fn report_and_trace(
    alloc: Global,
    report: &[u8],
    events: &[Event],
) -> Result<Bytes, NoMemory>
    ensures { IfOk result (λ text. text ≡ report.now ++ codes "trace\n" ++ trace_text_of events.now) }
{
    let trace = print_events(alloc, events)?;
    let mut text = Vec::from_slice(alloc, report)?;
    text.extend_from_slice(b"trace\n")?;
    text.extend_from_slice(trace.as_slice())?;
    Ok(Bytes::from_vec(text))
}

/// What `run` prints for a script.
fn run_text(alloc: Global, script: &Script, seed: u64, trace: bool) -> Result<Bytes, NoMemory>
    ensures { IfOk result (λ text. text ≡ printed_text trace script.now (schedule_of script.now seed)) }
{
    let FinishedRun { report, events } = seeded_run(alloc, script, seed)?;
    if trace {
        report_and_trace(alloc, report.text.as_slice(), events.as_slice())
    } else {
        Ok(report.text)
    }
}

/// The answer of `run` to an input.
fn answer_run(alloc: Global, input: &[u8], seed: u64, trace: bool) -> Result<Answer, NoMemory>
    requires { length input.now ≤ INPUT_BYTES_MAX }
    ensures { IfOk result (λ answer. answer ≡ run_answer seed trace (script_in input.now)) }
{
    match parse(alloc, input) {
        Ok(script) => Ok(done(run_text(alloc, &script, seed, trace)?)),
        Err(ScriptFault::BadLine { line, cause }) => script_refused(alloc, line, cause),
        Err(ScriptFault::NoMemory) => Err(NoMemory),
    }
}

/// The answer of a replay of a script.
fn replay_of(alloc: Global, script: &Script, trace: &[u8]) -> Result<Answer, NoMemory>
    requires { length trace.now ≤ INPUT_BYTES_MAX }
    ensures { IfOk result (λ answer. answer ≡ replayed_answer script.now (lines_in trace.now) (bad_place script.now (lines_in trace.now))) }
{
    match replayed_run(alloc, script, trace) {
        Ok(FinishedRun { report, events: _ }) => Ok(done(report.text)),
        Err(TraceFault::Bad(BadEvent { place })) => Ok(Answer {
            status: Status::BadTrace,
            text: bad_event(alloc, place)?,
        }),
        Err(TraceFault::NoMemory) => Err(NoMemory),
    }
}

/// The answer of `replay` to an input.
fn answer_replay(alloc: Global, input: &[u8]) -> Result<Answer, NoMemory>
    requires { length input.now ≤ INPUT_BYTES_MAX }
    ensures { IfOk result (λ answer. answer ≡ replay_answer input.now) }
{
    let (script, trace) = input_parts(input);
    match parse(alloc, script) {
        Ok(script) => replay_of(alloc, &script, trace),
        Err(ScriptFault::BadLine { line, cause }) => script_refused(alloc, line, cause),
        Err(ScriptFault::NoMemory) => Err(NoMemory),
    }
}

/// The script that a number generates.
fn generated_script(alloc: Global, number: u64) -> Result<Script, NoMemory>
    ensures { IfOk result (λ script. script ≡ generated_statements number) }
{
    let text = generated_text(alloc, number)?;
    // It has 221 short lines; a text that is too long to be read would be told as want of memory.
    if text.len() > INPUT_BYTES_MAX {
        return Err(NoMemory);
    }
    match parse(alloc, text.as_slice()) {
        Ok(script) => Ok(script),
        // What is generated is a script, so the fault is want of memory.
        Err(_) => Err(NoMemory),
    }
}

/// The answer of `gen`.
fn answer_generated(alloc: Global, number: u64) -> Result<Answer, NoMemory>
    ensures { IfOk result (λ answer. answer ≡ generated_answer number) }
{
    let script = generated_script(alloc, number)?;
    let FinishedRun { report, events: _ } = seeded_run(alloc, &script, number)?;
    Ok(done(generated_line(alloc, number, &report)?))
}

/// The answer to an input that was read to its end, by what is done with it.
fn answer_input(alloc: Global, work: Work, input: &[u8]) -> Result<Answer, NoMemory>
    requires { length input.now ≤ INPUT_BYTES_MAX }
    ensures { IfOk result (λ answer. answer ≡ input_answer work input.now) }
{
    match work {
        Work::Run { seed, trace } => answer_run(alloc, input, seed, trace),
        Work::Replay => answer_replay(alloc, input),
    }
}

/// The answer to what a source has, by what is done with it.
fn answer_read<S: Source>(alloc: Global, work: Work, source: &mut S) -> Result<Answer, Stop>
    ensures answered { IfOk result (λ answer. AnswersInput work (S.left source.old) (S.left source.new) answer) }
    ensures failed { IsErrOf result Stop.ReadFault → Rose (S.faults source.old) (S.faults source.new) }

    ensures takes { TakesAtMost (INPUT_BYTES_MAX + 1) (S.left source.old) (S.left source.new) }
    ensures count { S.faults source.old ≤ S.faults source.new }
    ensures memory { IsErrOf result Stop.NoMemory → S.faults source.new ≡ S.faults source.old }
{
    let input = match read_all(alloc, source, INPUT_BYTES_MAX) {
        Ok(input) => input,
        Err(ReadStop::TooLong) => return Ok(line_answer(alloc, Status::TooLong, b"too long\n")?),
        Err(ReadStop::Failed) => return Err(Stop::ReadFault),
        Err(ReadStop::NoMemory) => return Err(Stop::NoMemory),
    };
    Ok(answer_input(alloc, work, input.as_slice())?)
}

/// What a call with these words is to write, once it has read what it reads.
pub fn answer_call<S: Source>(
    alloc: Global,
    words: &[String],
    source: &mut S,
) -> Result<Answer, Stop>
    ensures answered { IfOk result (λ answer. AnswersCall (mode_asked_for words.now) (S.left source.old) (S.left source.new) answer) }
    ensures reading { IsErrOf result Stop.ReadFault → reads_input (mode_asked_for words.now) ≡ true }
    ensures failed { IsErrOf result Stop.ReadFault → Rose (S.faults source.old) (S.faults source.new) }

    ensures untouched { reads_input (mode_asked_for words.now) ≡ false → source.new ≡ source.old }
    ensures takes { TakesAtMost (INPUT_BYTES_MAX + 1) (S.left source.old) (S.left source.new) }
    ensures count { S.faults source.old ≤ S.faults source.new }
    ensures memory { IsErrOf result Stop.NoMemory → S.faults source.new ≡ S.faults source.old }
{
    match mode_of(alloc, words)? {
        Some(Mode::Run { seed, trace }) => answer_read(alloc, Work::Run { seed, trace }, source),
        Some(Mode::Replay) => answer_read(alloc, Work::Replay, source),
        Some(Mode::Gen { number }) => Ok(answer_generated(alloc, number)?),
        Some(Mode::Live { trace: _ }) | None => {
            Ok(line_answer(alloc, Status::BadWords, b"bad words\n")?)
        }
    }
}
