//! The check of a disk: each of its own objects is read from all of its targets, and one value is written back to them.
//!
//! [`begin_check`] makes a [`CheckOp`] of the disk's inode; it hands out one work after the other, goes on by
//! [`CheckOp::on_done`] when that is done, and in the end tells what it found. Contracts see it as a record (`specs/Check.antt`):
//! the disk's id and spec, what was found so far, and what it waits for. It keeps the indexes of the own objects and nothing
//! else of the inode.
//!
//! The crate stands on `peer_proto`, `inode` and `strip_lanes`. Its definitions say which objects are the disk's own
//! (`specs/Table.antt`), what the pieces of an object tell (`specs/Value.antt`), each of the steps that the calls make
//! (`specs/Check.antt`), and the whole course of a check (`specs/Course.antt`). The laws of `laws.rt` say what these mean: each
//! own object is read and written once, by ascending index; the answer counts the own and the inherited ones, and names those
//! whose pieces differed; and pieces of one value don't differ.
#![tactic(auto)]

mod act;
mod compare;
mod found;
mod laws;
mod op;
mod stage;
mod table;
#[cfg(test)]
mod tests;

pub use act::CheckAct;
pub use laws::{
    a_check_begins_works, a_check_goes_by_its_own_objects, a_check_waits_for_works,
    copies_are_compared_with_the_first, objects_that_differ_ascend,
    own_objects_are_those_of_the_table, pieces_of_one_value_agree,
};
pub use op::{CheckOp, begin_check};
