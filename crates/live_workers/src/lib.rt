//! What the threads of a live cluster share, and the events that its workers make.
//!
//! A cluster is opened by its script ([`Shared::opening`]): each node stands behind a lock with all that it did ([`Slot`], over
//! `live_cells`), the log behind another, letters between nodes go through channels, and each worker has a place with its seat at the clock
//! ([`Place`]). A call of a worker makes one event, if there is one to make: it takes the locks that it needs, brings what the event takes,
//! and lets the node step, which keeps the step with its stamp, input and outputs; then it sends what the step gave. At a step of which no
//! node has part worker 256 keeps it ([`Others`]). Locks are taken in one order: what worker 256 keeps, then a node, then the log.
//!
//! What stands behind a lock, or comes through a channel, is known by its type alone: a node's lock keeps that its cell is that node's, and
//! the other steps that each of them is one (`specs/OtherSteps.antt`). So these hold whatever the threads do. That an event is one of the
//! cluster's run isn't known here: the crates above merge the steps and find out.
//!
//! The crate stands on `live_cells` for nodes, log and letters, `stamp_clock` for the stamps, `cluster_script` for the script, and
//! `crossbeam_channel` for the letters' way. It starts no thread.
#![tactic(auto)]

mod asks;
mod brought;
mod coming_back;
mod controls;
mod letters;
mod log_work;
mod member_work;
mod members;
mod new_steps;
mod opening;
mod place;
mod shared;
mod slot;
mod steps;
mod work_fault;

pub use members::Others;
pub use new_steps::{Merged, add_copies};
pub use place::{FIRST_SESSION_WORKER, MEMBERS_WORKER, Place};
pub use shared::Shared;
pub use slot::Slot;
pub use work_fault::WorkFault;
