//! A cluster lives on threads: rounds of its workers, merged one after the other.

ghost use Rattle.std.specs.Prelude.{◌≡◌, All, IfOk};
ghost use Rattle.sheep_world.specs.Run.{IsKept, IsWholeRun};
ghost use Rattle.schedule.specs.Merged.{IsMergeOf};

use crate::coming_back::take_back;
use crate::gate::Gate;
use crate::keeping::kept_of;
use crate::kept::Kept;
use crate::rounds::round;
use cluster_script::Script;
use live_merge::{MergeFault, merge_round};
use live_workers::{Merged, Place, Shared, WorkFault};
use object_id::NoMemory;
use sheep_world::{Run, World};
use stamp_clock::{Clock, ClockName, Seat};
use std::alloc::Global;
use std::marker::Brand;
use std::sync::Wait;
use std::thread::Threads;

/// How many workers there are.
const WORKERS: u32 = 257;

/// Runs rounds until every phase is ended: whether what was made could be merged.
#[tactic(auto, using(crate::proofs::OpeningWorlds::opening_live, crate::proofs::OpeningWorlds::opening_ends))]
fn run_rounds<'a, N: ClockName + Send + Sync, G: Gate + Sync, R: Threads + Wait + Sync>(
    rt: &R,
    gate: &G,
    shared: &Shared<'a, N>,
    places: Vec<Place<N>>,
) -> Result<bool, NoMemory> {
    let script = shared.script;
    let mut places = places;
    let mut world = World::new(shared.alloc, script)?;
    let mut run = Run::new(shared.alloc);
    let mut merged = Merged::new(shared.alloc)?;
    for _ in rt.forever() {
        let phase = world.phase();
        if world.ended(script) {
            return Ok(true);
        }
        places = round(rt, gate, shared, phase, places)?;
        let steps = shared.new_steps(rt, &mut merged)?;
        match merge_round(script, &mut world, steps.as_slice(), &mut run) {
            Ok(()) => {}
            Err(MergeFault::Clash { .. }) => return Ok(false),
            Err(MergeFault::NoMemory) => return Err(NoMemory),
        }
        shared.begin_phases(rt, phase, world.phase())?;
        match take_back(rt, gate, shared, &world, places.as_mut_slice()) {
            Ok(_) | Err(WorkFault::NoStamp) => {}
            Err(WorkFault::NoMemory) => return Err(NoMemory),
        }
    }
    Ok(false)
}

/// Lives once, by the clock that N names: what is kept; none where what was made couldn't be merged.
fn live_once<N: ClockName + Send + Sync, G: Gate + Sync, R: Threads + Wait + Sync>(
    rt: &R,
    alloc: Global,
    script: &Script,
    gate: &G,
    clock: Clock,
    seats: Vec<Seat>,
) -> Result<Option<Kept>, NoMemory>
    requires clock { clock.id ≡ N.clock }
    requires seats { All (λ seat. seat.clock ≡ N.clock) seats.items }
{
    let (shared, places) = Shared::<N>::opening(rt, alloc, script, clock, seats)?;
    if run_rounds(rt, gate, &shared, places)? {
        Ok(Some(kept_of(shared)?))
    } else {
        Ok(None)
    }
}

/// Lets a script's cluster live on threads: its run, into which the steps that are then kept merge. What clashes is given up, and the
/// cluster starts again. It may wait for its workers.
pub fn run_live<G: Gate + Sync, R: Threads + Wait + Sync>(
    rt: &R,
    alloc: Global,
    script: &Script,
    gate: &G,
    kept: &mut Kept,
) -> Result<Run, NoMemory>
    ensures merge { IfOk result (λ run. IsMergeOf script.now kept.new run.events) }
    ensures whole { IfOk result (λ run. IsWholeRun script.now run.events) }
    ensures history { IfOk result (λ run. IsKept script.now run) }
{
    for _ in rt.forever() {
        let last = u64::from(script.limit()) + 1;
        let (clock, seats) = Clock::new(alloc, last, WORKERS)?;
        if let Some(lived) = live_once::<Brand, G, R>(rt, alloc, script, gate, clock, seats)? {
            *kept = lived;
            if let Some(run) = kept.whole_run(alloc, script)? {
                return Ok(run);
            }
        }
    }
    Err(NoMemory)
}
