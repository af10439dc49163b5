//! A worker's place, which it has over all rounds.

ghost use Rattle.std.specs.Prelude.{◌≡◌, None};

use object_id::NODES_MAX;
use sheep_node::Input;
use stamp_clock::{ClockName, Seat};
use std::marker::PhantomData;

/// The number of the worker of the session 0, which there isn't.
pub const FIRST_SESSION_WORKER: u32 = 2 * NODES_MAX;

/// The number of the worker that changes the members.
pub const MEMBERS_WORKER: u32 = 256;

/// The worker's number, its turns so far, its seat at the clock that N names, and of a session how many requests it began and the input of
/// the next one, once that is made.
#[derive(Drop)]
pub struct Place<N: ClockName> {
    pub worker: u32,
    pub turn: u64,
    pub seat: Seat,
    pub begun: u32,
    pub next: Option<Input>,
    pub name: PhantomData<N>,
    ghost of: { seat.clock ≡ N.clock },
}

impl<N: ClockName> Place<N> {
    pub(crate) fn new(worker: u32, seat: Seat) -> Place<N>
        requires { seat.clock ≡ N.clock }
        ensures worker { (result.worker ≡ worker) × (result.turn ≡ 0) }
        ensures seat { result.seat ≡ seat }
        ensures asked { (result.begun ≡ 0) × (result.next ≡ None) }
    {
        Place {
            worker,
            turn: 0,
            seat,
            begun: 0,
            next: None,
            name: PhantomData,
        }
    }
}
