//! The commands on disks: create, open, close, snapshot, clone and delete, each by entries of the membership log and
//! works on inodes. Of the check of a disk stands here when it is refused on the spot; how it goes is told by `disk_check`.
//!
//! [`begin_vdi`] makes a [`VdiOp`] of what is asked; it hands out one act after the other: an entry to put, a work, and in the
//! end the reply. It goes on by [`VdiOp::on_decision`] when its entry was decided, and by [`VdiOp::on_done`] when its work is done;
//! [`VdiOp::on_refused`] is how it ends if its work was refused. Contracts see it as a record (`specs/Op.antt`): the node and the
//! session, and what it waits for.
//!
//! The crate stands on `peer_proto`, `inode` and `vdi_directory`. Its definitions say all that a command does: its first entry,
//! and when it is refused on the spot (`specs/Entries.antt`); what it takes from an inode that it reads (`specs/Tables.antt`); its
//! works on inodes (`specs/InodeWorks.antt`); what it waits for (`specs/Op.antt`); and each of its steps (`specs/Steps.antt`).
//! How the code keeps what it waits for is in `specs/Stage.antt`, and what always holds of it in `specs/Kept.antt`; the number by
//! which it is found who waits for an entry is in `specs/Subject.antt`.
//! The laws of `laws.rt` say what these mean: how each command goes from its first entry to its reply; of an inode
//! that is read the table alone is taken, and of that the disk's own entries and its parents'; what is written back has
//! the directory's header and the table as it was read; a command waits for what it did last;
//! and each work that it begins is one that a gateway takes.
#![tactic(auto)]

mod act;
mod decisions;
mod end;
mod first;
mod granted;
mod inode_works;
mod laws;
mod limits;
mod op;
mod refusal;
mod stage;
mod subject;
mod table;
mod works_done;

pub use act::OpAct;
pub use end::OpEnd;
pub use laws::{
    a_command_begins_works, a_command_waits_for_what_it_did, an_inode_has_room,
    checks_are_refused_so, commands_go_so, the_table_alone_is_taken, the_table_is_written_back,
    the_tag_is_written_in_its_field, what_becomes_of_the_open_disk,
};
pub use limits::CHECKED_BYTES_MAX;
pub use op::{VdiOp, begin_vdi};
pub use peer_proto::{GuestRsp, VdiAsk};
pub use refusal::command_refusal;
pub use subject::subject_number;
