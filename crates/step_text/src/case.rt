//! A case: the world that a script opens with, and the events and a client's asks that are made of it.

ghost use Rattle.std.specs.Prelude.{◌≡◌, Ok, None, false, OnOk, IfOk, IsErrOf};
ghost use Rattle.cluster_script.specs.Script.{script_in};
ghost use Rattle.trace_text.specs.EventReading.{event_in};
ghost use Rattle.trace_text.specs.Lines.{lines_in};
ghost use Rattle.trace_text.specs.InputParts.{script_part, trace_part};
ghost use Rattle.step_text.specs.Traces.{IsTaken, IsLineTaken, AreTaken};
ghost use Rattle.step_text.specs.Cases.{IsNoScript, HasNoEvent, HasEnd, IsCase};

use crate::case_fault::CaseFault;
use crate::client_lines::make_client_line;
use crate::history_words::write_history;
use crate::world_words::{write_replies, write_world};
use cluster_script::{Script, ScriptFault, parse};
use disk_history::HistList;
use object_id::{INPUT_BYTES_MAX, NoMemory};
use sheep_node::Event;
use sheep_world::{ApplyFault, World};
use std::alloc::Global;
use trace_text::{Lines, event_in, input_parts};

/// Tells what each event of a case gives, and the world that it ends with. An event that may not happen is told as such, and the world
/// stays; and so is an ask that isn't taken. Nothing is told of a text that is no script, or of a trace with a line that is neither an
/// event nor a client's.
pub fn end_of(alloc: Global, case: &str) -> Result<String, CaseFault>
    ensures told { OnOk result (IsCase case.now) }
    ensures script { IsErrOf result CaseFault.Script → IsNoScript (script_part case.now) }
    ensures event { IsErrOf result CaseFault.Event → HasNoEvent (lines_in (trace_part case.now)) }
{
    let (text, trace) = input_parts(case.as_bytes());
    let script = script_of(alloc, text)?;
    told(alloc, &script, trace)
}

/// The script that a text is.
fn script_of(alloc: Global, text: &[u8]) -> Result<Script, CaseFault>
    ensures read { IfOk result (λ script. script_in text.now ≡ Ok script) }
    ensures script { IsErrOf result CaseFault.Script → IsNoScript text.now }
    ensures event { IsErrOf result CaseFault.Event → ⊥ }
{
    if INPUT_BYTES_MAX < text.len() {
        return Err(CaseFault::Script);
    }
    match parse(alloc, text) {
        Ok(script) => Ok(script),
        Err(ScriptFault::BadLine { line: _, cause: _ }) => Err(CaseFault::Script),
        Err(ScriptFault::NoMemory) => Err(CaseFault::NoMemory),
    }
}

/// Opens the world of a script, and tells what the events of a trace give.
fn told(alloc: Global, script: &Script, trace: &[u8]) -> Result<String, CaseFault>
    ensures taken { OnOk result (HasEnd script.now (lines_in trace.now)) }
    ensures script { IsErrOf result CaseFault.Script → ⊥ }
    ensures event { IsErrOf result CaseFault.Event → HasNoEvent (lines_in trace.now) }
{
    let mut world = World::new(alloc, script)?;
    told_of(alloc, script, &mut world, trace)
}

/// Tells what the events of a trace give, and the world that they end with.
fn told_of(
    alloc: Global,
    script: &Script,
    world: &mut World,
    trace: &[u8],
) -> Result<String, CaseFault>
    requires { world.old.spent ≡ false }
    ensures taken { OnOk result (AreTaken script.now (lines_in trace.now) world.old world.new) }
    ensures script { IsErrOf result CaseFault.Script → ⊥ }
    ensures event { IsErrOf result CaseFault.Event → HasNoEvent (lines_in trace.now) }
{
    let mut out = String::new(alloc);
    make_lines(alloc, &mut out, script, world, trace)?;
    write_world(alloc, &mut out, script, world)?;
    Ok(out)
}

/// Makes what the lines of a trace spell.
fn make_lines(
    alloc: Global,
    out: &mut String,
    script: &Script,
    world: &mut World,
    trace: &[u8],
) -> Result<(), CaseFault>
    requires { world.old.spent ≡ false }
    ensures taken { OnOk result (AreTaken script.now (lines_in trace.now) world.old world.new) }
    ensures live { OnOk result (world.new.spent ≡ false) }
    ensures script { IsErrOf result CaseFault.Script → ⊥ }
    ensures event { IsErrOf result CaseFault.Event → HasNoEvent (lines_in trace.now) }
{
    let mut lines = Lines::new(trace);
    while let Some(line) = lines.next() {
        make_line(alloc, out, script, world, line)?;
    }
    Ok(())
}

/// Makes the event that a line spells, or what it has a client do.
fn make_line(
    alloc: Global,
    out: &mut String,
    script: &Script,
    world: &mut World,
    line: &[u8],
) -> Result<(), CaseFault>
    requires { world.old.spent ≡ false }
    ensures taken { OnOk result (IsLineTaken script.now line.now world.old world.new) }
    ensures live { OnOk result (world.new.spent ≡ false) }
    ensures script { IsErrOf result CaseFault.Script → ⊥ }
    ensures event { IsErrOf result CaseFault.Event → event_in line.now ≡ None }
{
    match event_in(line) {
        Some(event) => make_event(out, script, world, event),
        None => make_client_line(alloc, out, script, world, line),
    }
}

/// Makes an event, if it may happen.
fn make_event(
    out: &mut String,
    script: &Script,
    world: &mut World,
    event: Event,
) -> Result<(), CaseFault>
    requires { world.old.spent ≡ false }
    ensures taken { OnOk result (IsTaken script.now event world.old world.new) }
    ensures live { OnOk result (world.new.spent ≡ false) }
    ensures memory { (IsErrOf result CaseFault.Script → ⊥) × (IsErrOf result CaseFault.Event → ⊥) }
{
    match world.apply(script, event) {
        Ok(grown) => Ok(write_given(out, world, &grown)?),
        Err(ApplyFault::NotEnabled) => Ok(out.push_str("may not happen\n")?),
        Err(ApplyFault::NoMemory) => Err(CaseFault::NoMemory),
    }
}

/// Writes what an event gave: the replies of its step, and what it adds to the history.
fn write_given(out: &mut String, world: &World, grown: &HistList) -> Result<(), NoMemory>
    requires { world.now.spent ≡ false }
{
    write_replies(out, world.outputs())?;
    for event in grown.as_slice() {
        write_history(out, event)?;
    }
    Ok(())
}
