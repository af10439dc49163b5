//! What a script and a world tell of a request without reply.

ghost use Rattle.std.specs.Prelude.{◌≡◌, false, is_some};
ghost use Rattle.cluster_script.specs.Index.{script_index, indexed_at};
ghost use Rattle.dog_report.specs.Report.{is_lost_request, is_begun};
ghost use Rattle.dog_report.specs.Settling.{is_phase_begun, is_session_lost, is_among_first};

use cluster_script::Script;
use sheep_world::World;

/// Whether the phase of a request has begun where this one is the present one; not where the script has no such request.
pub fn is_phase_begun(script: &Script, phase: usize, number: u32) -> bool
    ensures { result ≡ is_phase_begun script.now phase number }
{
    match script.request(number) {
        Some(request) => request.phase as usize <= phase,
        None => false,
    }
}

/// Whether the incarnation that a session belongs to is gone. Costs a look-up.
fn is_session_lost(script: &Script, world: &World, session: u32) -> bool
    requires { world.now.spent ≡ false }
    ensures { result ≡ is_session_lost script.now world.now.world session }
{
    match script.session(session) {
        Some(session) => world.has_gone(session),
        None => false,
    }
}

/// Whether the incarnation of a request's gateway is lost. Costs a look-up.
pub fn is_lost_request(script: &Script, world: &World, number: u32) -> bool
    requires { world.now.spent ≡ false }
    ensures { result ≡ is_lost_request script.now number world.now.world }
{
    match script.request(number) {
        Some(request) => is_session_lost(script, world, request.session),
        None => false,
    }
}

/// Whether a number is among the first numbers, so many, of a session's requests, which ascend. Looks at the last of them.
fn is_among_first(script: &Script, session: u32, begun: u32, number: u32) -> bool
    ensures { result ≡ is_among_first script.now session begun number }
{
    if begun == 0 {
        return false;
    }
    match script.request_of_session(session, begun - 1) {
        Some(last) => number <= last,
        None => true,
    }
}

/// Whether a request was started. Costs a look-up.
pub fn is_begun(script: &Script, world: &World, number: u32) -> bool
    requires { world.now.spent ≡ false }
    ensures { result ≡ is_begun script.now number world.now.world }
{
    match script.request(number) {
        Some(request) => {
            is_among_first(
                script,
                request.session,
                world.begun(request.session),
                number,
            )
        }
        None => false,
    }
}

/// Whether a script has a request of this number.
pub fn has_request(script: &Script, number: u32) -> bool
    ensures { result ≡ is_some (indexed_at (script_index script.now) number) }
{
    script.request(number).is_some()
}
