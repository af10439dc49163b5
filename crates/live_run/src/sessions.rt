//! A session's next request.

use cluster_script::SessionOfScript;
use live_workers::{Place, Shared, WorkFault};
use object_id::NoMemory;
use sheep_node::Input;
use sheep_world::input_of;
use stamp_clock::ClockName;
use std::sync::Wait;

/// The input of the session's next request, made once, if that is of this phase or an earlier one.
fn next_input<'a, N: ClockName>(
    shared: &Shared<'a, N>,
    place: &mut Place<N>,
    session: u32,
    phase: usize,
) -> Result<Option<Input>, NoMemory> {
    let Some(req) = shared.script.request_of_session(session, place.begun) else {
        return Ok(None);
    };
    match shared.script.request(req) {
        Some(request) if request.phase as usize <= phase => {}
        _ => return Ok(None),
    }
    match place.next.take() {
        Some(input) => Ok(Some(input)),
        None => input_of(shared.alloc, shared.script, req),
    }
}

/// Asks the session's next request, if its gateway may step on it: whether it did.
pub(crate) fn ask_next<'a, N: ClockName, R: Wait>(
    rt: &R,
    shared: &Shared<'a, N>,
    place: &mut Place<N>,
    session: SessionOfScript,
    phase: usize,
) -> Result<bool, WorkFault> {
    match next_input(shared, place, session.number, phase)? {
        Some(input) => shared.ask(rt, place, session, input),
        None => Ok(false),
    }
}
