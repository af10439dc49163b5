//! Steps that were made at once, one after the other on a world.

ghost use Rattle.std.specs.Prelude.{◌≡◌, ◌↔◌, ◌<◌, ◌^◌, ℕ, IsTrue, false, true, [], ◌∷◌, map, Err, IfOk, IfSome, OnOk};
ghost use Rattle.sheep_world.specs.Run.{initial_moment, IsKept, IsWholeRun};
ghost use Rattle.schedule.specs.Merged.{is_phase_due, Merges, IsClashAt};
ghost use Rattle.live_merge.specs.declared.fault.MergeFault.TheVariants as faults;
ghost use Rattle.live_merge.specs.Steps.{kept_step};
ghost use Rattle.live_merge.specs.Merging.{ends_phase, taken_in, EndsIn, HasMerged, HasMergedTo, HasClashed, IsStepMade};

use crate::fault::MergeFault;
use crate::same_input::same_input_option;
use crate::same_outputs::same_outputs;
use cluster_script::Script;
use live_cells::Step;
use object_id::NoMemory;
use sheep_node::Event;
use sheep_world::{ApplyFault, Run, World, enabled};
use std::alloc::Global;

/// Whether an event is Phase.
fn ends_phase(event: Event) -> bool
    ensures { result ≡ ends_phase event }
{
    matches!(event, Event::Phase)
}

/// How many of these events are others than Phase.
fn taken_in(events: &[Event]) -> u64
    ensures value { result ≡ taken_in events.now }
    ensures bound { result < 2 ^ 63 }
{
    let mut count = 0u64;
    for event in events {
        if !ends_phase(*event) {
            count += 1;
        }
    }
    count
}

/// Whether Phase is due: a phase isn't ended, and nothing else may happen or as many other events were made as the limit allows.
#[tactic(auto, using(crate::proofs::PhasesDue::due_ended, crate::proofs::PhasesDue::due_limit, crate::proofs::PhasesDue::due_none))]
fn is_phase_due(script: &Script, world: &World, taken: u64) -> bool
    requires { world.now.spent ≡ false }
    ensures { result ≡ is_phase_due script.now world.now.world taken }
{
    if world.ended(script) {
        return false;
    }
    if u64::from(script.limit()) <= taken {
        return true;
    }
    enabled(script, world, 0).is_none()
}

/// Takes Phase as long as it is due.
#[tactic(auto, using(crate::proofs::MergeLemmas::merged_nothing, crate::proofs::PhasesDue::phases_more, crate::proofs::PhasesDue::phases_fewer))]
fn take_phases(
    script: &Script,
    world: &mut World,
    run: &mut Run,
    taken: u64,
) -> Result<(), NoMemory>
    requires live { world.old.spent ≡ false }
    ensures live { OnOk result (world.new.spent ≡ false) }
    ensures merged { OnOk result (HasMergedTo script.now [] world.old.world taken run.old run.new world.new.world taken) }
    ensures due { OnOk result (is_phase_due script.now world.new.world taken ≡ false) }
{
    while is_phase_due(script, world, taken) {
        match run.go_on(script, world, Event::Phase) {
            Ok(()) => {}
            // A phase isn't ended, so the fault is want of memory.
            Err(_) => return Err(NoMemory),
        }
    }
    Ok(())
}

/// Whether the world's last event made what the step keeps.
fn is_as_kept(world: &World, step: &Step) -> bool
    requires { world.now.spent ≡ false }
    ensures { IsTrue result ↔ ((world.now.world.input ≡ step.now.input) × (world.now.world.outputs ≡ step.now.outputs)) }
{
    same_input_option(world.input(), step.input.as_ref())
        && same_outputs(world.outputs(), &step.outputs)
}

/// Makes a step's event, where it is enabled: whether it is, and makes what the step keeps.
#[tactic(auto, using(crate::proofs::MergeLemmas::step_made))]
fn merge_step(
    script: &Script,
    world: &mut World,
    step: &Step,
    run: &mut Run,
) -> Result<bool, NoMemory>
    requires live { world.old.spent ≡ false }
    ensures live { OnOk result (world.new.spent ≡ false) }
    ensures made { IfOk result (λ same. IsStepMade script.now (kept_step step.now) world.old.world run.old world.new.world run.new same) }
{
    match run.go_on(script, world, step.event) {
        Ok(()) => Ok(is_as_kept(world, step)),
        Err(ApplyFault::NotEnabled) => Ok(false),
        Err(ApplyFault::NoMemory) => Err(NoMemory),
    }
}

/// Makes the steps' events in the world to which the run led, and Phase before each and behind the last as long as it is due. A step whose
/// event isn't enabled in its turn, or makes something else than the step keeps, is a clash: world and run are then as behind the events
/// before it, and behind it too where it was enabled. Out of memory nothing more is said of either. Costs the steps, and a look at each
/// event of the run.
#[tactic(auto, using(crate::proofs::MergeLemmas::merged_nothing, crate::proofs::RoundLemmas::round_more))]
pub fn merge_round(
    script: &Script,
    world: &mut World,
    steps: &[Step],
    run: &mut Run,
) -> Result<(), MergeFault>
    requires live { world.old.spent ≡ false }
    requires end { EndsIn script.now run.old world.old.world }
    ensures merged { OnOk result (HasMerged script.now (map kept_step steps.now) world.old.world run.old run.new) }
    ensures live { OnOk result (world.new.spent ≡ false) }
    ensures end { OnOk result (EndsIn script.now run.new world.new.world) }

    ensures clash { (place : ℕ) → result ≡ Err (faults.Clash place)
        → HasClashed script.now (map kept_step steps.now) place world.old.world run.old run.new }
    ensures clash_live { (place : ℕ) → result ≡ Err (faults.Clash place) → world.new.spent ≡ false }
    ensures clash_end { (place : ℕ) → result ≡ Err (faults.Clash place) → EndsIn script.now run.new world.new.world }
{
    let mut taken = taken_in(run.events());
    for place in 0..steps.len() {
        take_phases(script, world, run, taken)?;
        let same = merge_step(script, world, &steps[place], run)?;
        if !same {
            return Err(MergeFault::Clash { place });
        }
        taken += 1;
    }
    Ok(take_phases(script, world, run, taken)?)
}

/// The run into which steps merge, from the opening world of their script, and the world in which it ends.
#[tactic(auto, using(crate::proofs::OpeningLemmas::opening_live, crate::proofs::OpeningLemmas::opening_ends, crate::proofs::OpeningLemmas::opening_merged))]
fn merge_from_opening(
    alloc: Global,
    script: &Script,
    steps: &[Step],
) -> Result<(World, Run), MergeFault>
    ensures merged { IfOk result (λ made. Merges script.now (map kept_step steps.now) made.1.events) }
    ensures live { IfOk result (λ made. made.0.spent ≡ false) }
    ensures end { IfOk result (λ made. EndsIn script.now made.1 made.0.world) }
    ensures clash { (place : ℕ) → result ≡ Err (faults.Clash place)
        → IsClashAt script.now (initial_moment script.now) 0 (map kept_step steps.now) place }
{
    let mut world = World::new(alloc, script)?;
    let mut run = Run::new(alloc);
    merge_round(script, &mut world, steps, &mut run)?;
    Ok((world, run))
}

/// The run into which steps merge, from the opening world of their script, with its history; or the place of the first step that clashes
/// with those before it.
#[tactic(auto, using(crate::proofs::OpeningLemmas::ends_kept))]
pub fn merge_all(alloc: Global, script: &Script, steps: &[Step]) -> Result<Run, MergeFault>
    ensures merged { IfOk result (λ run. Merges script.now (map kept_step steps.now) run.events) }
    ensures history { IfOk result (λ run. IsKept script.now run) }
    ensures clash { (place : ℕ) → result ≡ Err (faults.Clash place)
        → IsClashAt script.now (initial_moment script.now) 0 (map kept_step steps.now) place }
{
    match merge_from_opening(alloc, script, steps) {
        Ok((_world, run)) => Ok(run),
        Err(fault) => Err(fault),
    }
}

/// The run into which steps merge, if every phase is ended behind them; none if they clash, or a phase isn't ended. Costs what merging them
/// costs.
#[tactic(auto, using(crate::proofs::OpeningLemmas::ends_kept, crate::proofs::OpeningLemmas::ends_whole))]
pub fn whole_merge(alloc: Global, script: &Script, steps: &[Step]) -> Result<Option<Run>, NoMemory>
    ensures merged { IfOk result (λ found. IfSome found (λ run. Merges script.now (map kept_step steps.now) run.events)) }
    ensures whole { IfOk result (λ found. IfSome found (λ run. IsWholeRun script.now run.events)) }
    ensures history { IfOk result (λ found. IfSome found (λ run. IsKept script.now run)) }
{
    match merge_from_opening(alloc, script, steps) {
        Ok((world, run)) => {
            let is_whole = world.ended(script);
            if is_whole { Ok(Some(run)) } else { Ok(None) }
        }
        Err(MergeFault::Clash { place: _ }) => Ok(None),
        Err(MergeFault::NoMemory) => Err(NoMemory),
    }
}
