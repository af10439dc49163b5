//! When a session's next request may begin.
ghost use Rattle.std.specs.Prelude.{◌≡◌, ◌+◌, ◌^◌, ◌<◌, IfSome, unwrap_or, slice_get};
ghost use Rattle.std.specs.Option.{option_copied};
ghost use Rattle.std.specs.List.{list_all};
ghost use Rattle.std.specs.FinMap as tree;
ghost use Rattle.cluster_script.specs.NumberedRequests.{numbers_of_session};
ghost use Rattle.cluster_script.specs.Phases.{phase_of_request};
ghost use Rattle.sheep_world.specs.declared.progress.StartedRequest.{StartedRequest as Started};
ghost use Rattle.sheep_world.specs.World.{no_progress};
ghost use Rattle.sheep_world.specs.Conditions.{is_disk_request_at, fits_beside, may_begin_request};

use crate::guests::Guests;
use crate::progress::{SessionProgress, StartedRequest};
use crate::script_requests::is_disk_request;
use cluster_script::Script;
use object_id::REQUESTS_AT_ONCE;

/// The place of the phase that the request of a number is of, from 0; behind them all where the script has no such request.
fn phase_of_request(script: &Script, req: u32) -> usize
    ensures { result ≡ phase_of_request script.now req }
{
    match script.request(req) {
        Some(request) => request.phase as usize,
        None => script.phase_count(),
    }
}

/// Whether all of these requests are reads and writes.
fn are_disk_requests(script: &Script, unanswered: &[StartedRequest]) -> bool
    ensures { result ≡ list_all (λ (started : Started). is_disk_request_at script.now started.req) unanswered.now }
{
    unanswered
        .iter()
        .all(|started| is_disk_request(script, started.req))
}

/// Whether a request may begin beside those without reply. Looks at each of these once.
fn fits_beside(script: &Script, req: u32, unanswered: &[StartedRequest]) -> bool
    ensures { result ≡ fits_beside script.now req unanswered.now }
{
    if unanswered.is_empty() {
        return true;
    }
    unanswered.len() < REQUESTS_AT_ONCE as usize
        && is_disk_request(script, req)
        && are_disk_requests(script, unanswered)
}

/// Whether the session has room for a request beside those without reply.
fn has_room(script: &Script, progress: Option<&SessionProgress>, req: u32) -> bool
    ensures { result ≡ fits_beside script.now req (unwrap_or (option_copied progress.entry) no_progress).unanswered }
{
    match progress {
        Some(progress) => fits_beside(script, req, progress.unanswered.as_slice()),
        None => true,
    }
}

/// Whether a request may begin: it is of the present phase or an earlier one, and its session has room for it. A session without
/// progress has asked nothing.
pub(crate) fn may_begin_request(
    script: &Script,
    phase: usize,
    progress: Option<&SessionProgress>,
    req: u32,
) -> bool
    ensures { result ≡ may_begin_request script.now phase (unwrap_or (option_copied progress.entry) no_progress) req }
{
    phase_of_request(script, req) <= phase && has_room(script, progress, req)
}

/// The number of a session's next request. Where there is one, the session's count of begun requests may grow.
pub(crate) fn next_request(script: &Script, session: u32, guests: &Guests) -> Option<u32>
    ensures value { result
        ≡ slice_get (numbers_of_session script.now session) (unwrap_or (tree.get guests.now session) no_progress).begun }
    ensures room { IfSome result (λ req. (unwrap_or (tree.get guests.now session) no_progress).begun + 1 < 2 ^ 32) }
{
    let _statements = script.statements();
    script.request_of_session(session, guests.begun(session))
}
