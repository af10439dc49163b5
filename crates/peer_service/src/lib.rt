//! What a node answers to the requests of its peers, and what the log makes of its rows.
//!
//! A [`PeerState`] has what of a node its peers reach: its rows, in a store of any kind, its epoch, the settled epoch that it has read,
//! what it has still to recover, and the entries of the log that it has read, as a directory of disks. Contracts see it as the record
//! `Peer` of `specs/State.antt`, and each call makes exactly the step of its definition: the fence between epochs (`specs/Fence.antt`), the
//! answer to a request and what it leaves (`specs/Serve.antt`), what is still to be recovered (`specs/Pending.antt`), going to the next
//! epoch and settling one (`specs/Epochs.antt`), reading an entry of the log (`specs/LogReading.antt`), and coming back
//! (`specs/Back.antt`). A call that answers `NoMemory` or a refusal leaves the peer as it was; one that can answer neither takes no memory.
//!
//! The laws of `laws.rt` say what the definitions mean: a request of another epoch is refused and changes nothing, a write reaches one
//! open row alone, a row is dropped only once it is closed and too old, or with its disk.
//! The crate stands on `peer_proto` and `object_store`, on `vdi_directory`, `disk_lock` and `epoch_log` for what the log says, on
//! `vnode_table` for the targets of an epoch, and on `inode` and `strip_coding` for the length of rows.
#![tactic(auto)]

mod entering;
mod laws;
mod log_reading;
mod peer_state;
mod recovering;
mod serving;

pub use laws::{
    a_peer_worked_out, conditions_are_tests, entering_drops_no_row, lists_and_rows_are_always_told,
    open_rows_are_from_epochs_so_far, other_epochs_are_refused, places_worked_out,
    refusals_change_nothing, row_sizes_worked_out, rows_go_with_their_disk,
    settling_drops_closed_rows, what_a_create_leaves, what_a_read_tells, what_a_write_leaves,
    who_comes_back_has_closed_rows,
};
pub use peer_state::PeerState;
pub use recovering::object_size;
