//! The report of a run that is kept: its events are made again.

ghost use Rattle.std.specs.Prelude.{◌≡◌, false, IfOk, OnOk};
ghost use Rattle.dog_report.specs.Report.{Report, report_after, report_of, report_text};
ghost use Rattle.dog_report.specs.ToldPart.{counts_of};
ghost use Rattle.dog_report.specs.Reporter.{IsReporterOf};

use crate::reporter::{FinishedReport, Reporter};
use cluster_script::Script;
use object_id::{Bytes, NoMemory};
use sheep_node::Event;
use sheep_world::{ApplyFault, Run, World};
use std::alloc::Global;

/// Makes an event, with the report of it; one that may not happen only ends a phase of the report.
fn go_on(
    alloc: Global,
    script: &Script,
    world: &mut World,
    reporter: &mut Reporter,
    event: Event,
) -> Result<(), NoMemory>
    requires { world.old.spent ≡ false }
    ensures live { OnOk result (world.new.spent ≡ false) }
    ensures told { OnOk result ((report : Report) → report.world ≡ world.old.world → IsReporterOf script.now reporter.old report
        → ((report_after script.now report event).world ≡ world.new.world)
        × IsReporterOf script.now reporter.new (report_after script.now report event)) }
{
    reporter.tell_before(alloc, script, world, event)?;
    match world.apply(script, event) {
        Ok(_grown) => reporter.add_made(alloc, world),
        Err(ApplyFault::NotEnabled) => Ok(()),
        Err(ApplyFault::NoMemory) => Err(NoMemory),
    }
}

/// The report of these events, made on a new world, with its counts.
pub fn finished_report(
    alloc: Global,
    script: &Script,
    events: &[Event],
) -> Result<FinishedReport, NoMemory>
    ensures text { IfOk result (λ finished. finished.text ≡ report_text (report_of script.now events.now)) }
    ensures counts { IfOk result (λ finished. finished.counts ≡ counts_of (report_of script.now events.now)) }
{
    let mut world = World::new(alloc, script)?;
    let mut reporter = Reporter::new(alloc);
    for event in events {
        go_on(alloc, script, &mut world, &mut reporter, *event)?;
    }
    reporter.finish(script, &world)
}

/// The report of a run, whose events are made again on a new world. Costs what the events cost, and look-ups for each request and each
/// that has no line at the end of a phase.
pub fn report(alloc: Global, script: &Script, run: &Run) -> Result<Bytes, NoMemory>
    ensures { IfOk result (λ text. text ≡ report_text (report_of script.now run.now.events)) }
{
    Ok(finished_report(alloc, script, run.events())?.text)
}
