//! The queue of a session: which of its requests may run at once.
//!
//! Each read or write of a session works on the objects of its disk from a first to a last index. A request may run
//! where no request that was pushed before it, and isn't done, has an index in common with it. So the requests that run
//! never share an object, each request sees what the earlier ones wrote, and the oldest one never waits.
//!
//! A [`Queue`] is seen as the list of its requests that aren't done, in the order in which they were pushed. It is as
//! short as a session's requests without reply, so each question reads it from the front.
//! The crate stands on `object_id`.
#![tactic(auto)]

mod laws;
mod queue;
#[cfg(test)]
mod tests;

pub use laws::{
    earlier_has_the_lower_number, running_requests_are_apart, the_oldest_may_run,
    what_may_run_stays_so,
};
pub use queue::{Queue, Queued};
