//! The recovery of a node: in each epoch that it enters, it makes what rows it is to keep there and hasn't, by the rows
//! that the members keep of earlier epochs.
//!
//! The crate stands on `peer_proto`, `object_list`, `strip_lanes`, `object_store` and `object_id`, and for definitions on
//! `gf256`. What a recovery needs of its node is the trait [`Rows`]. A [`Recovery`] is seen as a record; its messages are of one tick,
//! and are kept by their numbers, so that no reply looks through all of them. All that it does is given by definitions: what
//! it sees of the node (`specs/Shown.antt`), what it is (`specs/State.antt`), which replies fit what it asked
//! (`specs/Fits.antt`), when a level of a search is over and what comes of it (`specs/Level.antt`), what a tick asks of
//! whom (`specs/Tick.antt`), how it begins and hears answers and losses (`specs/Steps.antt`), by what range of its numbers
//! all that it asks can be spelled (`specs/Range.antt`), and what it and its node are to be for a step (`specs/Step.antt`). The laws of
//! `laws.rt` say what these mean, and work one recovery out step by step (`specs/Example.antt`).
#![tactic(auto)]

mod fits;
mod in_flight;
mod laws;
mod level;
mod level_end;
mod level_over;
mod listing;
mod recovery;
mod replies;
mod rows;
mod search;
mod sends;
mod ticks;

pub use laws::{
    a_level_is_asked_of_members, a_recovery_worked_out, levels_are_left_after_all_answers,
    lists_come_before_searches, messages_are_unanswered_until_they_end,
    old_messages_only_become_answered, parts_are_of_the_same_bytes, taken_rows_are_of_the_level,
    what_a_step_needs_stays, what_is_asked_can_be_spelled, what_is_pending,
};
pub use recovery::Recovery;
pub use rows::Rows;
pub use sends::RecoverSends;
