//! The lists of a recovery: who of the other members has answered, and the ids of all objects that they named.
//!
//! A node that enters an epoch asks each other member for the ids of its objects. It waits until each has answered, and
//! goes on with the ascending union of their lists. [`Lists`] is seen as what it still waits for and what it has
//! gathered (`specs/Gathered.antt`). An id is kept once however many lists name it, and an answer is counted by who
//! gave it, not by how many came: a second answer of a member, or one of a node that isn't waited for, only adds its
//! ids.
//!
//! An `add` goes once through the ids so far and once through the new list.
//! The crate stands on `object_id` and on `object_store`, whose ascending list of ids it takes.
#![tactic(auto)]

mod laws;
mod lists;
#[cfg(test)]
mod tests;
mod union;

pub use laws::{gathered_from_all_answers, union_is_the_ascending_list};
pub use lists::Lists;
