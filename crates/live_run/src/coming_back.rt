//! A lost node comes back, between two rounds.

ghost use Rattle.std.specs.Prelude.{◌≡◌, false};

use crate::gate::Gate;
use live_workers::{MEMBERS_WORKER, Place, Shared, WorkFault};
use sheep_node::Event;
use sheep_world::World;
use stamp_clock::ClockName;
use std::sync::Wait;

/// Takes the next control where a node is to come back, and the merged world enables that: whether it could be taken.
pub(crate) fn take_back<'a, N: ClockName, G: Gate, R: Wait>(
    rt: &R,
    gate: &G,
    shared: &Shared<'a, N>,
    world: &World,
    places: &mut [Place<N>],
) -> Result<bool, WorkFault>
    requires { world.now.spent ≡ false }
{
    let Some(node) = shared.next_back(rt) else {
        return Ok(false);
    };
    if !world.is_enabled(shared.script, Event::Back { node }) {
        return Ok(false);
    }
    for place in places {
        if place.worker == MEMBERS_WORKER {
            gate.pass(place.worker, place.turn);
            place.turn = place.turn.saturating_add(1);
            return shared.come_back(rt, place, node);
        }
    }
    Ok(false)
}
