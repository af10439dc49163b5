//! The inode of a disk: its name, how it was made, its parent, and the table that says which disk has each data object.
//!
//! An inode has 4,664 bytes of header, then four bytes an entry (`specs/Layout.antt`: the fields in the order of the
//! table). An entry is 0 for a hole, else the id of the disk whose object it is. [`Inode`] is seen as what it says
//! (`Content`). `to_bytes` gives its one spelling, with zeros wherever nothing is read; `from_bytes` answers Ok exactly
//! where the bytes begin with a spelling, whatever stands where nothing is read, and else the first refusal.
//!
//! The crate stands on `object_id`, which spells and reads numbers. Making an inode, copying it, and reading and writing its
//! bytes take memory; nothing else does.
#![tactic(auto)]

mod fault;
mod inode;
mod laws;
mod layout;
mod reading;
mod writing;

pub use fault::InodeFault;
pub use inode::Inode;
pub use laws::{
    an_inode_has_room_for_all_entries, an_inode_is_as_long_as_its_table, inodes_are_read_again,
};
pub use layout::{CHILDREN_BYTES, INODE_BYTES, INODE_HEADER_BYTES, TEXT_BYTES};
pub use object_id::VdiSpec;
pub use reading::entries_in;
