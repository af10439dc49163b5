//! The workers: worker 2n serves node n's letters, log and retries, worker 2n+1 its recovery, worker 128+s is session s, and worker 256
//! changes the members.

use crate::gate::Gate;
use crate::pause::Pause;
use crate::sessions::ask_next;
use live_workers::{FIRST_SESSION_WORKER, MEMBERS_WORKER, Place, Shared, WorkFault};
use object_id::NodeId;
use sheep_node::{Event, Input};
use stamp_clock::ClockName;
use std::sync::Wait;

/// How a worker's round ended.
#[derive(Clone, Copy)]
pub(crate) enum RoundEnd {
    /// It found nothing to do, or the clock had no stamp left.
    Idle,
    NoMemory,
}

/// One event of a worker, if there is one to make: whether there was.
fn work<'a, N: ClockName, R: Wait>(
    rt: &R,
    shared: &Shared<'a, N>,
    place: &mut Place<N>,
    phase: usize,
) -> Result<bool, WorkFault> {
    let worker = place.worker;
    if worker >= MEMBERS_WORKER {
        return shared.change_members(rt, place);
    }
    if worker >= FIRST_SESSION_WORKER {
        return match shared.script.session(worker - FIRST_SESSION_WORKER) {
            Some(session) => ask_next(rt, shared, place, session, phase),
            None => Ok(false),
        };
    }
    let node = NodeId(worker / 2);
    if worker % 2 == 0 {
        return shared.serve(rt, place, node);
    }
    let event = Event::RecoverTick { node };
    shared.tick(rt, place, node, event, Input::RecoverTick)
}

/// Makes events until there is nothing to do for any worker of the round.
pub(crate) fn work_on<'a, N: ClockName, G: Gate, R: Wait>(
    rt: &R,
    gate: &G,
    shared: &Shared<'a, N>,
    pause: &Pause,
    place: &mut Place<N>,
    phase: usize,
) -> RoundEnd {
    for _ in rt.forever() {
        let seen = pause.made(rt);
        gate.pass(place.worker, place.turn);
        place.turn = place.turn.saturating_add(1);
        match work(rt, shared, place, phase) {
            Ok(true) => pause.make(rt),
            Ok(false) => {
                if !pause.wait(rt, seen) {
                    return RoundEnd::Idle;
                }
            }
            Err(WorkFault::NoStamp) => {
                pause.leave(rt);
                return RoundEnd::Idle;
            }
            Err(WorkFault::NoMemory) => {
                pause.end(rt);
                return RoundEnd::NoMemory;
            }
        }
    }
    RoundEnd::Idle
}
