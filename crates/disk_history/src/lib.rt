//! Histories of disks: what guests wrote and read, block by block, and which histories are legal.
//!
//! A history is a list of [`HistEvent`]s. It knows disks and blocks of 512 bytes, and no node, epoch, object or copy.
//! `specs/` says what each event does to the items of a block (`Ledger`), and when a history is legal (`Legal`): each
//! read gives the bytes of the block's last acknowledged write or of a later one that wasn't refused. `Told` says that
//! once more of the events alone, without the ledger, and `reads_are_last_or_later` is the law that it is so.
//!
//! [`check`] judges a history. It keeps a state, which shows the ledger exactly (`CheckerState`, `Shown`): for each request what
//! became of it, for each block the place of its newest write, and for each write the one before it on its block. So a
//! request's end changes one entry, though its items stand on many blocks and on copies of them, and a copy shares the
//! writes of its origin.
//! The crate stands on `object_id`, for byte strings and lists.
#![tactic(auto)]

mod checker;
mod checker_state;
mod disks;
mod event;
mod laws;
mod requests;
#[cfg(test)]
mod tests;
mod writes;

pub use checker::{HistoryFault, check};
pub use event::{HistEvent, HistList};
pub use laws::{
    events_change_what_they_name, histories_go_step_by_step, legal_histories_keep,
    reads_are_last_or_later,
};
