//! A session asks its gateway.

ghost use Rattle.std.specs.Prelude.{◌≡◌, ◌+◌, ◌-◌, ◌^◌, ◌<◌, ◌≤◌, min, true, false, Ok, Some, Err, IfOk};
ghost use Rattle.object_id.specs.declared.limits.TheConstants.{NODES_MAX};
ghost use Rattle.live_workers.specs.PlaceSeats.{IsSeatAfter};
ghost use Rattle.live_workers.specs.declared.work_fault.WorkFault.TheVariants as faults;

use crate::place::Place;
use crate::shared::Shared;
use crate::work_fault::WorkFault;
use cluster_script::SessionOfScript;
use object_id::NodeId;
use sheep_node::{Event, Input};
use stamp_clock::ClockName;
use std::sync::Wait;

impl<'a, N: ClockName> Shared<'a, N> {
    /// A session's next request, if its gateway may step on it: whether it did, and only then the request counts as begun. Else its input
    /// waits at the session's place; where there may be no such gateway, the place is as it was.
    pub fn ask<R: Wait>(
        &self,
        rt: &R,
        place: &mut Place<N>,
        session: SessionOfScript,
        input: Input,
    ) -> Result<bool, WorkFault>
        ensures seat { IfOk result (λ made. IsSeatAfter made place.old.seat place.new.seat) }
        ensures no_stamp { result ≡ Err faults.NoStamp → place.new.seat.spent ≡ true }
        // One request more is begun where the gateway made a step on it, and else none.
        ensures begun { result ≡ Ok true → place.new.begun ≡ min (place.old.begun + 1) (2 ^ 32 - 1) }
        ensures waits { result ≡ Ok false → place.new.begun ≡ place.old.begun }
        ensures next { result ≡ Ok true → place.new.next ≡ place.old.next }
        ensures kept { session.node < NODES_MAX → result ≡ Ok false → place.new.next ≡ Some input }
        ensures place { (place.new.worker ≡ place.old.worker) × (place.new.turn ≡ place.old.turn) }
        ensures far { NODES_MAX ≤ session.node → (result ≡ Ok false) × (place.new.next ≡ place.old.next) }
    {
        let node = NodeId(session.node);
        let Some(slot) = self.slot(node) else {
            return Ok(false);
        };
        let event = Event::Guest {
            session: session.number,
        };
        let sent = {
            let mut slot = slot.lock(rt);
            if slot.incarnation != session.incarnation || !slot.may(&input)? {
                place.next = Some(input);
                return Ok(false);
            }
            let none = Vec::new(self.alloc);
            let clock = &self.clock;
            slot.step(self.alloc, event, input, none, None, clock, &mut place.seat)?
        };
        if !self.post_sent(rt, sent)? {
            return Ok(false);
        }
        place.begun = place.begun.saturating_add(1);
        Ok(true)
    }
}
