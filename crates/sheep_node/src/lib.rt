//! A node of the cluster: one step at a time, each on one input, with what it sends, says, replies and puts into the log.
//!
//! The crate stands on the parts of a node: `peer_service`, `recovery`, `gateway`, `guest_driver`, `vdi_ops` and
//! `gateway_queue`. Here stand the inputs and outputs of a step and the events of the cluster as types, and as
//! definitions what a node is (`specs/State.antt`), its step (`specs/Step.antt`) and when it may step (`specs/May.antt`; the tests of
//! that are in `specs/MayTests.antt`).
//! The step is put together from a guest's request (`specs/Guests.antt`), the works of requests and how requests go on
//! (`specs/RequestWorks.antt`, `specs/Courses.antt`), what waited (`specs/Waiting.antt`), and reading the log and coming
//! back (`specs/LogReading.antt`).
//!
//! A step is what its input changes by itself, and then a chain of elementary changes, each with one effect and with what
//! is known where it happens (`specs/Changes.antt`). So what holds of a node and is kept by each of these holds from its
//! opening on (`proofs/StepChain.antt`: `kept_by_chain`): each request has one work at most (`specs/OneWork.antt`), the
//! entries that it puts are its own (`specs/OwnEntries.antt`), a session's queue is its reads and writes
//! (`specs/SessionQueues.antt`), no more than there may be at once, its line is open as its works are (`specs/OpenLines.antt`), and what
//! the node has at work is sound (`specs/SoundWorks.antt`, in a sense of valid as `specs/Validity.antt` has it), so all that it sends can
//! be spelled. A step is of so few changes that it sends 1,000 messages at most.
//! What holds of where each request is, by the disk and the queue of its session, goes by one walk over the changes
//! (`proofs/CourseWalk.antt`), and that by one of whatever holds of requests and sessions (`proofs/ChangeWalk.antt`).
//! The changes leave a node's peer and its recovery alone: that the recovery may make each step (`specs/RecoveryRange.antt`)
//! follows from what the input makes of them.
//!
//! The code is `Node` (`node.rt`): whether it may step (`may.rt`, with `entry_tests.rt` for a log without tally), to which write a check
//! comes by a reply (`check_write.rt`), and the step (`step.rt`).
//! Below that stand what a node keeps (`state.rt`, with `requests.rt`, `sessions.rt` and, for its recovery, `node_rows.rt`), the elementary
//! changes of a step (`step_state.rt`), a guest's request (`guests.rt`; what a client may ask in `asks.rt`), how a request's work begins
//! (`request_works.rt`), what a request that took a step comes to (`courses.rt`), what waited in a session (`waiting.rt`), and how a node
//! reads an entry of the log, and comes back (`log_reading.rt`). Each call is exactly the definition of its name, or out of memory; a node
//! whose step was out of memory is spent. A node always is sound (`specs/NodeInvariant.antt`), unless it is spent.
//!
//! The laws of `laws.rt` say what a step keeps, and what holds of every step: its sends are numbered upwards, so no two of a node are
//! numbered alike; what it has read comes from the log alone, and its epochs and their members are those of what it has
//! read; it puts `Recovered` once for each recovery; and a request of another epoch changes nothing.
#![tactic(auto)]

mod ask;
mod asks;
mod check_write;
mod course;
mod courses;
mod entry_tests;
mod event;
mod guests;
mod input;
mod laws;
mod limits;
mod log_reading;
mod may;
mod node;
mod node_rows;
mod outputs;
mod replies;
mod request_works;
mod requests;
mod session;
mod sessions;
mod state;
mod step;
mod step_state;
mod waiting;

pub use ask::Ask;
pub use check_write::CheckWrite;
pub use course::{Course, Request};
pub use event::Event;
pub use input::Input;
pub use laws::{
    a_begun_request_is_apart_from_earlier_ones, a_check_begins_on_the_open_disk,
    a_client_is_told_what_its_ask_came_to, a_clients_ask_begins_at_once,
    a_clients_work_may_be_done, a_command_is_alone, a_create_begins_with_its_reservation,
    a_decision_is_on_the_entry_wanted, a_disk_request_is_on_its_disk,
    a_node_is_where_its_entries_have_it, a_node_puts_its_own_entries, a_node_stays_one,
    a_queue_has_the_disk_requests, a_queue_is_short, a_recovery_may_step,
    a_refused_work_gives_its_id_back, a_request_has_one_work, a_step_is_a_chain_of_changes,
    a_touched_work_is_not_refused, a_work_is_what_its_request_waits_for, conditions_are_tests,
    numbers_of_attempts_were_given, only_the_log_is_read, other_epochs_are_refused,
    outputs_are_as_the_input, recovered_is_put_once, requests_come_from_inputs, sends_are_numbered,
    the_history_has_the_write_of_a_check, what_a_command_leaves_open,
    what_is_put_leaves_the_outbox,
};
pub use limits::SENDS_MAX;
pub use node::Node;
pub use outputs::Outputs;
pub use replies::ReplyList;
pub use session::Session;
