//! A trace, replayed.

ghost use Rattle.std.specs.Prelude.{◌≡◌, ℕ, ◌+◌, ◌≤◌, [], Some, None, Err, true, false, length, IfOk, IfErr, IfSome, IfNone, OnErr, MatchOption};
ghost use Rattle.object_id.specs.declared.limits.TheConstants.{INPUT_BYTES_MAX};
ghost use Rattle.sheep_world.specs.Run.{is_whole, IsKept, IsWholeRun};
ghost use Rattle.trace_text.specs.declared.fault.TraceFault.TheVariants as faults;
ghost use Rattle.sheep_world.specs.Enabled.{is_enabled};
ghost use Rattle.trace_text.specs.EventReading.{event_in as event_of_line};
ghost use Rattle.trace_text.specs.Lines.{lines_in};
ghost use Rattle.trace_text.specs.Replay.{events_in, bad_place, IsBadIn, StopsIn, Takes};

use crate::event_reading::event_in;
use crate::fault::{BadEvent, TraceFault};
use crate::lines::Lines;
use cluster_script::Script;
use sheep_node::Event;
use sheep_world::{Run, World};
use std::alloc::Global;
use std::marker::Model;

/// The event that a line spells, where it may happen.
fn enabled_event(script: &Script, world: &World, line: &[u8]) -> Option<Event>
    requires { world.now.spent ≡ false }
    ensures spelled { IfSome result (λ event. event_of_line line.now ≡ Some event) }
    ensures enabled { IfSome result (λ event. is_enabled script.now world.now.world event ≡ true) }
    ensures none { IfNone result (IsBadIn script.now world.now.world line.now) }
{
    let event = event_in(line)?;
    if world.is_enabled(script, event) {
        Some(event)
    } else {
        None
    }
}

/// A trace as it is replayed. The world is the caller's, and so is what he does before and after each event. Contracts see the record
/// `TraceReplay` of `specs/Replay.antt`.
#[derive(Debug, Drop)]
pub struct TraceReplay<'a> {
    rest: Lines<'a>,
    taken: u32,
}

impl<'a> Model for TraceReplay<'a> {
    ghost use Rattle.std.specs.Prelude.{◌+◌, ◌-◌, ◌<◌, ◌^◌, length};
    ghost use Rattle.trace_text.specs.Replay.{TraceReplay as TheReplay};

    ghost Value = { TheReplay };

    ghost view = { λ replay. record { rest = replay.rest; taken = replay.taken } };

    ghost invariant = { λ replay. replay.taken + length replay.rest < 2 ^ 32 - 1 };
}

impl<'a> TraceReplay<'a> {
    /// No line is taken yet.
    pub fn new(text: &'a [u8]) -> TraceReplay<'a>
        requires { length text.now ≤ INPUT_BYTES_MAX }
        ensures { result ≡ record { rest = lines_in text.now; taken = 0 } }
    {
        TraceReplay {
            rest: Lines::new(text),
            taken: 0,
        }
    }

    /// Takes the next line, and gives its event, which may happen in this world; none where no line is left and every phase is ended. A
    /// line that isn't an event, or isn't one that may happen, is bad, and so is the end where a phase isn't ended. Only an event that is
    /// given is taken: at the end, and at what is bad, the replay stays. Takes no memory.
    pub fn next_event(&mut self, script: &Script, world: &World) -> Result<Option<Event>, BadEvent>
        requires { world.now.spent ≡ false }
        ensures next { IfOk result (λ next. MatchOption next
            ((self.old.rest ≡ []) × (is_whole script.now world.now.world ≡ true))
            (λ event. Takes script.now world.now.world self.old event self.new)) }
        ensures bad { IfErr result (λ bad. (bad.place ≡ self.old.taken + 1)
            × StopsIn script.now world.now.world self.old.rest) }
        ensures ended { IfOk result (λ next. IfNone next (self.new ≡ self.old)) }
        ensures unchanged { OnErr result (self.new ≡ self.old) }
    {
        let place = self.taken + 1;
        let Some((line, rest)) = self.rest.split_first() else {
            if world.ended(script) {
                return Ok(None);
            }
            return Err(BadEvent { place });
        };
        match enabled_event(script, world, line) {
            Some(event) => {
                self.rest = rest;
                self.taken = place;
                Ok(Some(event))
            }
            None => Err(BadEvent { place }),
        }
    }
}

/// The run that a trace spells, with its history; or the place, from 1, of its first line that isn't an event enabled after those
/// before it, one past the last line where a phase isn't ended then.
pub fn replay(alloc: Global, script: &Script, text: &[u8]) -> Result<Run, TraceFault>
    requires { length text.now ≤ INPUT_BYTES_MAX }
    ensures events { IfOk result (λ run. run.events ≡ events_in (lines_in text.now)) }
    ensures kept { IfOk result (λ run. IsKept script.now run) }
    ensures whole { IfOk result (λ run. IsWholeRun script.now run.events) }
    ensures good { IfOk result (λ _. bad_place script.now (lines_in text.now) ≡ None) }
    ensures bad { (place : ℕ) → result ≡ Err (faults.Bad (record { place = place }))
        → bad_place script.now (lines_in text.now) ≡ Some place }
{
    let mut world = World::new(alloc, script)?;
    let mut run = Run::new(alloc);
    let mut rest = TraceReplay::new(text);
    while let Some(event) = rest.next_event(script, &world)? {
        match run.go_on(script, &mut world, event) {
            Ok(()) => {}
            // What is taken may happen, so the fault is want of memory.
            Err(_) => return Err(TraceFault::NoMemory),
        }
    }
    Ok(run)
}
