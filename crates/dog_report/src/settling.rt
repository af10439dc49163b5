//! How the requests that have no line yet get theirs.

ghost use Rattle.std.specs.Prelude.{◌≡◌, ◌-◌, ◌≤◌, suc, false, length, fold, IfOk, OnOk};
ghost use Rattle.std.specs.List.{range_with_len};
ghost use Rattle.cluster_script.specs.Statements.{requests_of};
ghost use Rattle.dog_report.specs.Report.{is_lost_request, is_begun};
ghost use Rattle.dog_report.specs.ToldPart.{told_with};
ghost use Rattle.dog_report.specs.Settling.{is_phase_begun, told_if_gone, kept_unless_gone, settling_of, settling_after};
ghost use Rattle.dog_report.specs.Settling.{fate_without_reply, lines_with_last};

use crate::counts::next_number;
use crate::held_lines::HeldLines;
use crate::requests::{has_request, is_begun, is_lost_request, is_phase_begun};
use crate::told_part::ToldPart;
use cluster_script::Script;
use object_id::{Items, NoMemory};
use sheep_world::World;

/// The lines of a report in the making: those that wait for the end of a phase, and the part that is told.
#[derive(Debug, Drop)]
pub struct Lines {
    pub held: HeldLines,
    pub told: ToldPart,
}

/// Tells that a request without reply is gone, if its gateway's incarnation is lost; else the request is kept.
fn settle_unanswered(
    script: &Script,
    world: &World,
    told: &mut ToldPart,
    kept: &mut Items<u32>,
    number: u32,
) -> Result<(), NoMemory>
    requires { world.now.spent ≡ false }
    ensures told { OnOk result (told.new ≡ told_if_gone told.old number (is_lost_request script.now number world.now.world)) }
    ensures kept { OnOk result (kept.new ≡ kept_unless_gone kept.old number (is_lost_request script.now number world.now.world)) }
{
    if is_lost_request(script, world, number) {
        return told.tell_gone(number);
    }
    kept.push(number)
}

/// A phase ends: tells the line of a request if it is due, and else keeps the request. Costs look-ups.
fn settle(
    script: &Script,
    world: &World,
    lines: &mut Lines,
    kept: &mut Items<u32>,
    number: u32,
) -> Result<(), NoMemory>
    requires { world.now.spent ≡ false }
    ensures { OnOk result (settling_of lines.new kept.new
        ≡ settling_after script.now world.now.world (settling_of lines.old kept.old) number) }
{
    if !is_phase_begun(script, world.phase(), number) {
        return kept.push(number);
    }
    match lines.held.take(number) {
        Some(line) => lines.told.tell_held(line),
        None => settle_unanswered(script, world, &mut lines.told, kept, number),
    }
}

/// The same for each of these requests, in order.
pub fn settle_all(
    script: &Script,
    world: &World,
    lines: &mut Lines,
    kept: &mut Items<u32>,
    numbers: &[u32],
) -> Result<(), NoMemory>
    requires { world.now.spent ≡ false }
    ensures { OnOk result (settling_of lines.new kept.new
        ≡ fold (settling_after script.now world.now.world) (settling_of lines.old kept.old) numbers.now) }
{
    for number in numbers {
        settle(script, world, lines, kept, *number)?;
    }
    Ok(())
}

/// The same for the requests from this one on whose phases have begun: gives the first behind them.
pub fn settle_begun(
    script: &Script,
    world: &World,
    lines: &mut Lines,
    kept: &mut Items<u32>,
    first: u32,
) -> Result<u32, NoMemory>
    requires { world.now.spent ≡ false }
    ensures settled { IfOk result (λ next. settling_of lines.new kept.new
        ≡ fold (settling_after script.now world.now.world) (settling_of lines.old kept.old)
        (range_with_len first (next - first))) }
    ensures behind { IfOk result (λ next. first ≤ next) }
    ensures within { IfOk result (λ next. first ≤ suc (length (requests_of script.now)) → next ≤ suc (length (requests_of script.now))) }
    ensures last { IfOk result (λ next. is_phase_begun script.now world.now.world.phase next ≡ false) }
{
    let mut next = first;
    while is_phase_begun(script, world.phase(), next) {
        settle(script, world, lines, kept, next)?;
        next = next_number(next)?;
    }
    Ok(next)
}

/// Tells what became in the end of a request without reply.
fn tell_unanswered(
    script: &Script,
    world: &World,
    told: &mut ToldPart,
    number: u32,
) -> Result<(), NoMemory>
    requires { world.now.spent ≡ false }
    ensures { OnOk result (told.new ≡ told_with told.old number
        (fate_without_reply (is_lost_request script.now number world.now.world) (is_begun script.now number world.now.world))) }
{
    if is_lost_request(script, world, number) {
        return told.tell_gone(number);
    }
    if is_begun(script, world, number) {
        return told.tell_pending(number);
    }
    told.tell_unsent(number)
}

/// The run has ended: tells what became of a request. Costs look-ups.
fn tell_last(script: &Script, world: &World, lines: &mut Lines, number: u32) -> Result<(), NoMemory>
    requires { world.now.spent ≡ false }
    ensures { OnOk result (lines.new ≡ lines_with_last script.now world.now.world lines.old number) }
{
    match lines.held.take(number) {
        Some(line) => lines.told.tell_held(line),
        None => tell_unanswered(script, world, &mut lines.told, number),
    }
}

/// The same for each of these requests, in order.
pub fn tell_all(
    script: &Script,
    world: &World,
    lines: &mut Lines,
    numbers: &[u32],
) -> Result<(), NoMemory>
    requires { world.now.spent ≡ false }
    ensures { OnOk result (lines.new ≡ fold (lines_with_last script.now world.now.world) lines.old numbers.now) }
{
    for number in numbers {
        tell_last(script, world, lines, *number)?;
    }
    Ok(())
}

/// The same for the requests from this one on.
pub fn tell_later(
    script: &Script,
    world: &World,
    lines: &mut Lines,
    first: u32,
) -> Result<(), NoMemory>
    requires { world.now.spent ≡ false }
    ensures { OnOk result (1 ≤ first → lines.new
        ≡ fold (lines_with_last script.now world.now.world) lines.old
        (range_with_len first (suc (length (requests_of script.now)) - first))) }
{
    let mut next = first;
    while has_request(script, next) {
        tell_last(script, world, lines, next)?;
        next = next_number(next)?;
    }
    Ok(())
}
