//! The target lists of every epoch that a node has entered.
//!
//! The crate stands on `object_id` and `hash_ring`. A [`Placement`] keeps each epoch's members with their ring, and
//! answers for each of these epochs where an object is kept: the list that placement gives for the epoch's members,
//! cut to the number that the policy wants for the object's kind. For strips, the place in the list is the strip's
//! index. Entering an epoch, also one without members, leaves the lists of all others as they are. An epoch is found by a tree
//! (`specs/Places.antt`), so a look-up passes no other epoch.
#![tactic(auto)]

mod epoch_ring;
mod laws;
mod placement;
#[cfg(test)]
mod tests;

pub use laws::{entering_leaves_others, lists_of_an_epoch};
pub use placement::Placement;
