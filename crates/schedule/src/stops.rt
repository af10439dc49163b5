//! Given events, made as far as each may happen.

ghost use Rattle.std.specs.Prelude.{◌≡◌, ◌<◌, ◌^◌, ℕ, length, Some, Err, IfOk};
ghost use Rattle.sheep_world.specs.Run.{IsKept};
ghost use Rattle.sheep_world.specs.declared.fault.ApplyFault.TheVariants as worlds;
ghost use Rattle.schedule.specs.declared.fault.RunFault.TheVariants as faults;
ghost use Rattle.schedule.specs.Stops.{stopped_at};

use crate::fault::RunFault;
use cluster_script::Script;
use object_id::NoMemory;
use sheep_node::Event;
use sheep_world::{ApplyFault, Run, World};
use std::alloc::Global;

/// Why an event wasn't made, with its place, from 0.
fn fault_at(fault: ApplyFault, place: u32) -> RunFault
    ensures { (at : ℕ) → result ≡ faults.NotEnabled at → (at ≡ place) × (fault ≡ worlds.NotEnabled) }
{
    match fault {
        ApplyFault::NotEnabled => RunFault::NotEnabled { place },
        ApplyFault::NoMemory => RunFault::NoMemory,
    }
}

/// The run of these events, whole or not, with its history; or the place of the first, from 0, that isn't enabled after those before it.
pub fn run_to(alloc: Global, script: &Script, events: &[Event]) -> Result<Run, RunFault>
    requires { length events.now < 2 ^ 32 }
    ensures ok { IfOk result (λ run. (run.events ≡ events.now) × IsKept script.now run) }
    ensures stop { (place : ℕ) → result ≡ Err (faults.NotEnabled place) → stopped_at script.now events.now ≡ Some place }
{
    let mut world = World::new(alloc, script)?;
    let mut run = Run::new(alloc);
    let mut place = 0;
    for event in events {
        match run.go_on(script, &mut world, *event) {
            Ok(()) => place += 1,
            Err(fault) => return Err(fault_at(fault, place)),
        }
    }
    Ok(run)
}
