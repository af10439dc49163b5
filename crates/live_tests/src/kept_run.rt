//! The steps of a run, as its nodes would keep them.

ghost use Rattle.std.specs.Prelude.{◌≡◌, false};

use cluster_script::Script;
use live_cells::{StampList, Step};
use object_id::NoMemory;
use sheep_node::Event;
use sheep_world::{ApplyFault, World};
use std::alloc::Global;

/// The step that the world made at last.
fn last_step(alloc: Global, world: &World, event: Event, stamp: u64) -> Result<Step, NoMemory>
    requires { world.now.spent ≡ false }
{
    let input = match world.input() {
        Some(input) => Some(input.copy(alloc)?),
        None => None,
    };
    Ok(Step {
        stamp,
        event,
        input,
        outputs: world.outputs().copy(alloc)?,
        used: StampList::new(alloc),
    })
}

/// The steps of a run's events but for Phase, stamped from 1 on.
pub fn kept_steps(
    alloc: Global,
    script: &Script,
    events: &[Event],
) -> Result<Vec<Step>, ApplyFault> {
    let mut world = World::new(alloc, script)?;
    let mut steps = Vec::new(alloc);
    let mut stamp = 0u64;
    for event in events {
        drop(world.apply(script, *event)?);
        if *event != Event::Phase {
            stamp = stamp.saturating_add(1);
            if steps
                .push(last_step(alloc, &world, *event, stamp)?)
                .is_err()
            {
                return Err(ApplyFault::NoMemory);
            }
        }
    }
    Ok(steps)
}
