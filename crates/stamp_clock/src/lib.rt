//! A clock whose numbers threads draw as stamps: what was sent has a smaller stamp than what was received after it.
//!
//! [`Clock::draw`] adds 1 to one atomic word and answers the number before. A [`Seat`] draws; a [`Note`] can't draw, and
//! carries what its seat has seen to whoever learns it. So a number that is drawn after a note was learned is above each
//! number that the note's seat drew before it made the note, in whichever threads this happens. No number is drawn twice,
//! and once the numbers are used up every draw says so.
//!
//! The word stands in a table of `atomic_table` under one rule (`specs/Stamps.antt`), which four kinds of step keep
//! (`specs/Steps.antt`). Contracts see a seat as its clock, the numbers that it drew, what it has seen, its room and
//! whether it is spent; a note as its clock and what it has seen. The crate stands on `object_id` for `NoMemory`: only
//! [`Clock::new`] takes memory.
#![tactic(auto)]

mod clock;
mod laws;
mod name;
mod note;
mod rule;
mod seat;
mod steps;
#[cfg(test)]
mod tests;

pub use clock::{Clock, ClockSpent};
pub use laws::{
    a_stamp_is_above_what_was_brought, no_stamp_twice, numbers_of_a_seat, stamps_grow,
    steps_keep_the_rule,
};
pub use name::ClockName;
pub use note::Note;
pub use seat::Seat;
