//! How a gateway does a work on one object: by attempts, each a message to every target of the object, or for a whole
//! read to one of them, until one attempt is done or the request is refused.
//!
//! The crate stands on `peer_proto`, `vnode_table` and `strip_lanes`. A [`Gateway`] is seen as a record of its works, by request, and the
//! touched requests. It keeps of which request each unanswered message is, so that no reply looks through all works. All that it does is
//! given by definitions: what a work asks of whom (`specs/Work.antt`), when an attempt is over and what it
//! gives (`specs/Attempt.antt`), what a gateway is (`specs/State.antt`), and each of its steps (`specs/Step.antt`).
//! The laws of `laws.rt` say what these mean: a create or write is done where every target of one attempt made it, no
//! attempt begins before the last has ended, and a request is refused only while nothing of it may have been made.
#![tactic(auto)]

mod act;
mod askers;
mod asking;
mod beginning;
mod gateway;
mod given;
mod laws;
mod message;
mod messages;
mod open_work;
mod outcome;
mod stage;
mod touched;
mod works;

pub use act::{Act, Sends};
pub use gateway::Gateway;
pub use laws::{
    a_done_work_gives_its_bytes, all_parts_are_read, an_open_attempt_is_waited_for,
    an_untouched_request_is_refused, enough_messages_give_the_bytes, every_target_is_asked,
    the_parts_asked_are_the_bytes, what_a_beginning_tells, what_an_answer_tells,
    what_may_be_made_touches, works_stand_by_their_requests,
};
pub use message::{Message, Status};
pub use peer_proto::WorkDone;
