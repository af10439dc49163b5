//! Consistent hashing: on which nodes an object is kept.
//!
//! The crate stands on `object_id`. Each member of an epoch has virtual nodes, as many as its weight, and the hash
//! of each is a point on a circle of 2^64. An object's targets are the members ordered by distance, the least
//! difference of one of their points and the object's hash modulo 2^64, then by number; of these the first of each
//! zone, cut to the wanted number. [`Ring::targets`] gives exactly that list, by a walk from the object's hash on
//! that ends with the last target. Contracts speak of the order of members, never of the walk.
#![tactic(auto)]

mod hash;
mod laws;
mod point;
mod ring;
#[cfg(test)]
mod tests;
mod walk;

pub use hash::object_hash;
pub use laws::{
    fewer_targets, first_of_each_zone, order_of_places, points_of_members, targets_stand_apart,
};
pub use point::{Point, are_weighted, nodes_have_one_zone};
pub use ring::Ring;
