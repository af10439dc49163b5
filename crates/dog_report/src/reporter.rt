//! The report of a run, told beside the run.

ghost use Rattle.std.specs.Prelude.{◌≡◌, ◌-◌, ◌≤◌, false, suc, ◌++◌, List, length, fold, map, IfOk, OnOk, Some};
ghost use Rattle.std.specs.List.{range_with_len};
ghost use Rattle.cluster_script.specs.declared.statement.Statement.{Statement as Line};
ghost use Rattle.cluster_script.specs.Statements.{requests_of};
ghost use Rattle.sheep_world.specs.Step.{EventOutcome};
ghost use Rattle.dog_report.specs.Fates.{Listed};
ghost use Rattle.dog_report.specs.Report.{Report, empty_report, barrier_list, is_phase, phase_told, report_before_event, report_with_made};
ghost use Rattle.dog_report.specs.Report.{finished_report, report_text};
ghost use Rattle.dog_report.specs.ToldPart.{counts_of};
ghost use Rattle.dog_report.specs.Settling.{is_phase_begun, settling_of, settling_after};

use crate::counts::Counts;
use crate::held_lines::HeldLines;
use crate::settling::{Lines, settle_all, settle_begun, tell_all, tell_later};
use crate::told_part::ToldPart;
use cluster_script::Script;
use object_id::{Bytes, Items, NoMemory};
use sheep_node::Event;
use sheep_world::World;
use std::alloc::Global;
use std::marker::Model;

/// The text of a report, and how many requests it tells of in each way.
#[derive(Debug, Drop)]
pub struct FinishedReport {
    pub text: Bytes,
    pub counts: Counts,
}

/// A report in the making, beside the world whose events it tells of. A reply is told as a line at once, which waits for the end of its
/// phase, so no reply is copied. Contracts see the record `Reporter` of `specs/Reporter.antt`. Out of memory nothing more is said of it.
#[derive(Debug, Drop)]
pub struct Reporter {
    lines: Lines,
    unsettled: Items<u32>,
    next: u32,
}

impl Model for Reporter {
    ghost use Rattle.std.specs.Coded.{codes, coded_ℕ};
    ghost use Rattle.std.specs.FinMap as tree;
    ghost use Rattle.std.specs.Ordering.{nat_cmp};
    ghost use Rattle.dog_report.specs.declared.held_line.HeldLine.{HeldLine};
    ghost use Rattle.dog_report.specs.Reporter.{Reporter as TheReporter};

    ghost Value = { TheReporter };

    ghost coded = { Prim.hlevel (codes, tree.code {X = HeldLine} {R = nat_cmp} coded_ℕ (Prim.hlevel codes)) };

    ghost view = { λ reporter. record { lines = reporter.lines; unsettled = reporter.unsettled; next = reporter.next } };
}

/// Whether an event ends a phase.
fn is_phase(event: Event) -> bool
    ensures { result ≡ is_phase event }
{
    matches!(event, Event::Phase)
}

/// Tells the lines that are due when a phase ends, of these requests and of those from the next one on whose phases have begun, and keeps
/// the others of them: gives the first request behind these.
fn tell_due(
    script: &Script,
    world: &World,
    lines: &mut Lines,
    kept: &mut Items<u32>,
    unsettled: &[u32],
    next: u32,
) -> Result<u32, NoMemory>
    requires { world.now.spent ≡ false }
    ensures settled { IfOk result (λ later. settling_of lines.new kept.new
        ≡ fold (settling_after script.now world.now.world) (settling_of lines.old kept.old)
        (unsettled.now ++ range_with_len next (later - next))) }
    ensures behind { IfOk result (λ later. next ≤ later) }
    ensures within { IfOk result (λ later. next ≤ suc (length (requests_of script.now)) → later ≤ suc (length (requests_of script.now))) }
    ensures last { IfOk result (λ later. is_phase_begun script.now world.now.world.phase later ≡ false) }
{
    settle_all(script, world, lines, kept, unsettled)?;
    settle_begun(script, world, lines, kept, next)
}

/// Tells the list of the barrier that ends the present phase.
fn tell_barrier(
    alloc: Global,
    script: &Script,
    world: &World,
    told: &mut ToldPart,
) -> Result<(), NoMemory>
    requires { world.now.spent ≡ false }
    ensures { OnOk result (told.new
        ≡ record told.old { text = told.old.text ++ report_text (map Listed (barrier_list script.now world.now.world)) }) }
{
    match script.barrier(world.phase()) {
        Some(barrier) => told.tell_list(alloc, world, &barrier),
        None => Ok(()),
    }
}

impl Reporter {
    ghost use Rattle.dog_report.specs.Reporter.{IsReporterOf};

    /// Before the first event. Takes no memory.
    pub fn new(alloc: Global) -> Reporter
        ensures { (statements : List Line) → IsReporterOf statements result (empty_report statements) }
    {
        Reporter {
            lines: Lines {
                held: HeldLines::new(alloc),
                told: ToldPart::new(alloc),
            },
            unsettled: Items::new(alloc),
            next: 1,
        }
    }

    /// A phase ends: tells the lines that are due, and then the barrier's list. Costs look-ups for each request that has no line yet of
    /// the phases that have begun, and the list; takes memory for those that stay without one.
    fn end_phase(&mut self, alloc: Global, script: &Script, world: &World) -> Result<(), NoMemory>
        requires { world.now.spent ≡ false }
        ensures { OnOk result ((report : Report) → report.world ≡ world.now.world → IsReporterOf script.now self.old report
            → IsReporterOf script.now self.new (phase_told script.now report)) }
    {
        let mut kept = Items::new(alloc);
        let next = tell_due(
            script,
            world,
            &mut self.lines,
            &mut kept,
            self.unsettled.as_slice(),
            self.next,
        )?;
        self.unsettled = kept;
        self.next = next;
        tell_barrier(alloc, script, world, &mut self.lines.told)?;
        Ok(())
    }

    /// Tells what an event ends, from the world before it: where it is Phase, the phase's lines and list.
    pub fn tell_before(
        &mut self,
        alloc: Global,
        script: &Script,
        world: &World,
        event: Event,
    ) -> Result<(), NoMemory>
        requires { world.now.spent ≡ false }
        ensures { OnOk result ((report : Report) → report.world ≡ world.now.world → IsReporterOf script.now self.old report
            → IsReporterOf script.now self.new (report_before_event script.now event report)) }
    {
        if is_phase(event) {
            return self.end_phase(alloc, script, world);
        }
        Ok(())
    }

    /// Makes lines of the replies that the last event gave, from the world behind it. Costs what the replies have.
    pub fn add_made(&mut self, alloc: Global, world: &World) -> Result<(), NoMemory>
        requires { world.now.spent ≡ false }
        ensures { OnOk result ((statements : List Line) (report : Report) (made : EventOutcome) → made.world ≡ world.now.world
            → IsReporterOf statements self.old report → IsReporterOf statements self.new (report_with_made (Some made) report)) }
    {
        self.lines.held.hold_all(alloc, &world.outputs().replies)?;
        Ok(())
    }

    /// Tells what became of each request that has no line yet, from the world behind the last event.
    pub fn finish(self, script: &Script, world: &World) -> Result<FinishedReport, NoMemory>
        requires { world.now.spent ≡ false }
        ensures { IfOk result (λ finished. (report : Report) → report.world ≡ world.now.world → IsReporterOf script.now self report
            → (finished.text ≡ report_text (finished_report script.now report))
            × (finished.counts ≡ counts_of (finished_report script.now report))) }
    {
        let mut lines = self.lines;
        tell_all(script, world, &mut lines, self.unsettled.as_slice())?;
        tell_later(script, world, &mut lines, self.next)?;
        let (text, counts) = lines.told.into_parts();
        Ok(FinishedReport { text, counts })
    }
}
