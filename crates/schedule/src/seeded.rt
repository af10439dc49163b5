//! The schedule that a seed gives, made.

ghost use Rattle.std.specs.Prelude.{◌≡◌, ◌<◌, ◌≤◌, ◌^◌, true, false, Some, IfOk, IfErr, OnOk, OnErr};
ghost use Rattle.sheep_world.specs.Run.{IsKept, is_whole};
ghost use Rattle.sheep_world.specs.Step.{step};
ghost use Rattle.sheep_world.specs.Enabled.{enabled_count};
ghost use Rattle.schedule.specs.Schedule.{choice, draft_in, schedule_of};

use crate::choice::next_place;
use crate::generator::generator_of;
use cluster_script::Script;
use disk_history::HistList;
use object_id::NoMemory;
use rand_xoshiro::SplitMix64;
use sheep_node::Event;
use sheep_world::{Run, World, enabled};
use std::alloc::Global;
use std::marker::Model;

/// The next event, and how many but Phase are taken then. Phase stands where nothing else may happen, or as many were taken as the limit
/// allows; else the event at the place that the generator's next word gives, modulo the count of what may happen. Costs two passes over
/// what may happen.
fn next_choice(
    script: &Script,
    world: &World,
    rng: &mut SplitMix64,
    taken: u32,
) -> Result<(Event, u32), NoMemory>
    requires { world.now.spent ≡ false }
    ensures choice { IfOk result (λ next. choice script.now (record { world = world.now.world; rng = rng.old; taken = taken })
        ≡ record { event = next.0; rng = rng.new; taken = next.1 }) }
    ensures err { IfErr result (λ error. 2 ^ 64 ≤ enabled_count script.now world.now.world) }
    ensures unchanged { OnErr result (rng.new ≡ rng.old) }
{
    let count = world.enabled_count(script)?;
    match next_place(rng, count, taken, script.limit()) {
        Some(place) => match enabled(script, world, place) {
            Some(event) => Ok((event, taken + 1)),
            None => Ok((Event::Phase, taken + 1)),
        },
        None => Ok((Event::Phase, taken)),
    }
}

/// A schedule as it is made: the generator, and how many events but Phase were taken. The world is the caller's, and so is what he does
/// before and after each event. Contracts see the record `Schedule` of `specs/Schedule.antt`.
#[derive(Debug, Drop)]
pub struct Schedule {
    rng: SplitMix64,
    taken: u32,
}

impl Model for Schedule {
    ghost use Rattle.schedule.specs.Schedule.{Schedule as TheSchedule};

    ghost Value = { TheSchedule };

    ghost view = { λ schedule. record { rng = schedule.rng; taken = schedule.taken } };
}

impl Schedule {
    /// Before the first event.
    pub fn new(seed: u64) -> Schedule
        ensures { result ≡ record { rng = seed; taken = 0 } }
    {
        Schedule {
            rng: generator_of(seed),
            taken: 0,
        }
    }

    /// The next event of a world: it may happen, unless every phase is ended. Takes no memory: want of it is told only where more events
    /// may happen than a count has room for, and the schedule stays then.
    pub fn next_event(&mut self, script: &Script, world: &World) -> Result<Event, NoMemory>
        requires { world.now.spent ≡ false }
        ensures choice { IfOk result (λ event. choice script.now (draft_in world.now.world self.old)
            ≡ record { event = event; rng = self.new.rng; taken = self.new.taken }) }
        ensures err { IfErr result (λ error. 2 ^ 64 ≤ enabled_count script.now world.now.world) }
        ensures unchanged { OnErr result (self.new ≡ self.old) }
    {
        let (event, taken) = next_choice(script, world, &mut self.rng, self.taken)?;
        self.taken = taken;
        Ok(event)
    }
}

/// Makes the next event of a schedule in which so many events but Phase were taken; with what the event adds to the history. Out of
/// memory the world is spent, unless more events may happen than a count has room for; nothing more is said of the generator.
pub fn step_seeded(
    script: &Script,
    world: &mut World,
    rng: &mut SplitMix64,
    taken: u32,
) -> Result<(Event, HistList), NoMemory>
    requires live { world.old.spent ≡ false }
    requires unfinished { is_whole script.now world.old.world ≡ false }
    ensures event { IfOk result (λ made.
        made.0 ≡ (choice script.now (record { world = world.old.world; rng = rng.old; taken = taken })).event) }
    ensures rng { OnOk result (rng.new ≡ (choice script.now (record { world = world.old.world; rng = rng.old; taken = taken })).rng) }
    ensures made { IfOk result (λ made.
        step script.now made.0 world.old.world ≡ Some (record { world = world.new.world; grown = made.1 })) }
    ensures live { OnOk result (world.new.spent ≡ false) }
    ensures spent { OnErr result (enabled_count script.now world.old.world < 2 ^ 64 → world.new.spent ≡ true) }
{
    let (event, _taken) = next_choice(script, world, rng, taken)?;
    match world.apply(script, event) {
        Ok(grown) => Ok((event, grown)),
        // What is chosen may happen, so the fault is want of memory.
        Err(_) => Err(NoMemory),
    }
}

/// The run of a script that the seed gives, with its history.
pub fn run_seeded(alloc: Global, script: &Script, seed: u64) -> Result<Run, NoMemory>
    ensures events { IfOk result (λ run. run.events ≡ schedule_of script.now seed) }
    ensures kept { IfOk result (λ run. IsKept script.now run) }
{
    let mut world = World::new(alloc, script)?;
    let mut schedule = Schedule::new(seed);
    let mut run = Run::new(alloc);
    while !world.ended(script) {
        let event = schedule.next_event(script, &world)?;
        match run.go_on(script, &mut world, event) {
            Ok(()) => {}
            // What is chosen may happen, so the fault is want of memory.
            Err(_) => return Err(NoMemory),
        }
    }
    Ok(run)
}
