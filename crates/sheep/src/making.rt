//! The runs that the modes make of a script.

ghost use Rattle.std.specs.Prelude.{◌≡◌, ◌≤◌, ℕ, length, Some, None, Err, IfOk};
ghost use Rattle.object_id.specs.declared.limits.TheConstants.{INPUT_BYTES_MAX};
ghost use Rattle.schedule.specs.Schedule.{schedule_of};
ghost use Rattle.trace_text.specs.declared.fault.TraceFault.TheVariants as faults;
ghost use Rattle.trace_text.specs.Lines.{lines_in};
ghost use Rattle.trace_text.specs.Replay.{events_in, bad_place};
ghost use Rattle.sheep.specs.ToldRun.{TellsRun};

use crate::told_run::{FinishedRun, ToldRun};
use cluster_script::Script;
use object_id::NoMemory;
use schedule::Schedule;
use std::alloc::Global;
use trace_text::{TraceFault, TraceReplay};

/// The run that a seed gives, made and told.
pub fn seeded_run(alloc: Global, script: &Script, seed: u64) -> Result<FinishedRun, NoMemory>
    ensures { IfOk result (TellsRun script.now (schedule_of script.now seed)) }
{
    let mut told = ToldRun::new(alloc, script)?;
    let mut schedule = Schedule::new(seed);
    while !told.world.ended(script) {
        let event = schedule.next_event(script, &told.world)?;
        told.go_on(alloc, script, event)?;
    }
    told.finish(script)
}

/// The run that a trace spells, made and told; or the place of its first bad line.
pub fn replayed_run(alloc: Global, script: &Script, trace: &[u8]) -> Result<FinishedRun, TraceFault>
    requires { length trace.now ≤ INPUT_BYTES_MAX }
    ensures told { IfOk result (TellsRun script.now (events_in (lines_in trace.now))) }
    ensures good { IfOk result (λ _. bad_place script.now (lines_in trace.now) ≡ None) }
    ensures bad { (place : ℕ) → result ≡ Err (faults.Bad (record { place = place }))
        → bad_place script.now (lines_in trace.now) ≡ Some place }
{
    let mut told = ToldRun::new(alloc, script)?;
    let mut replay = TraceReplay::new(trace);
    while let Some(event) = replay.next_event(script, &told.world)? {
        told.go_on(alloc, script, event)?;
    }
    Ok(told.finish(script)?)
}
