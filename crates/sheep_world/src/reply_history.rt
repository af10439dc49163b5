//! What the replies of a step add to the history.

ghost use Rattle.std.specs.Prelude.{◌≡◌, ◌++◌, ◌==◌, flat_map, false, IfOk, OnOk};
ghost use Rattle.std.specs.List.{list_any};
ghost use Rattle.std.specs.Option.{option_map_or};
ghost use Rattle.cluster_script.specs.NumberedRequests.{request_at};
ghost use Rattle.sheep_world.specs.HistoryAdditions.{added_by};
ghost use Rattle.sheep_world.specs.RepliesInParts.{is_writing_check, disk_began, reply_events};

use crate::guests::Guests;
use crate::history_blocks::add_answer;
use crate::script_requests::{session_asking, statement_of};
use cluster_script::Script;
use disk_history::HistList;
use object_id::{Items, NoMemory};
use peer_proto::GuestRsp;
use sheep_node::ReplyList;
use std::alloc::Global;

/// Whether a request is one of these.
fn is_among(reqs: &[u32], req: u32) -> bool
    ensures { result ≡ list_any (λ other. other == req) reqs.now }
{
    reqs.iter().any(|other| *other == req)
}

/// Whether a check's write is of this request.
fn is_write_of(write: Option<u32>, req: u32) -> bool
    ensures { result ≡ option_map_or (λ number. number == req) write false }
{
    match write {
        Some(number) => number == req,
        None => false,
    }
}

/// Whether a request is a check that had come to a write, one of these, or comes to one now.
fn is_writing_check(written: &Items<u32>, write: Option<u32>, req: u32) -> bool
    ensures { result ≡ is_writing_check written.now write req }
{
    is_among(written.as_slice(), req) || is_write_of(write, req)
}

/// The disk on which a request without reply began.
pub(crate) fn disk_began(script: &Script, req: u32, guests: &Guests) -> Option<u32>
    ensures { result ≡ disk_began script.now req guests.now }
{
    let session = session_asking(script, req)?;
    guests.started_at(session, req)?.disk
}

/// Adds what a reply adds to a request without reply; a check's may have begun a write.
fn add_reply_to(
    alloc: Global,
    events: &mut HistList,
    script: &Script,
    guests: &Guests,
    writing: bool,
    req: u32,
    rsp: &GuestRsp,
) -> Result<(), NoMemory>
    ensures { OnOk result (events.new
        ≡ events.old ++ added_by writing req rsp.now (disk_began script.now req guests.now) (request_at script.now req)) }
{
    let disk = disk_began(script, req, guests);
    add_answer(
        alloc,
        events,
        writing,
        req,
        rsp,
        disk,
        statement_of(script, req),
    )
}

/// What the replies of a step add behind the events before, by the sessions as they were before it, the checks that had come to a write
/// then, and the request of the check that comes to one by the step.
pub(crate) fn with_replies(
    alloc: Global,
    earlier: HistList,
    script: &Script,
    guests: &Guests,
    written: &Items<u32>,
    write: Option<u32>,
    replies: &ReplyList,
) -> Result<HistList, NoMemory>
    ensures { IfOk result (λ events. events ≡ earlier ++ flat_map (reply_events script.now guests.now written.now write) replies.now) }
{
    let mut events = earlier;
    for (req, rsp) in replies.as_slice() {
        let writing = is_writing_check(written, write, *req);
        add_reply_to(alloc, &mut events, script, guests, writing, *req, rsp)?;
    }
    Ok(events)
}
