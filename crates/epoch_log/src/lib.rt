//! The membership log: the one list of entries that all nodes read, and the epochs that follow from it.
//!
//! A log begins with `Format`, which names the opening members: epoch 1. Each `Join`, `Leave` and `Reweight` begins the
//! next epoch. An epoch is settled where each of its members has put `Recovered` of it. A [`Log`] is seen as the list of
//! its entries, and every answer is a function of the entries before the place that is asked (`specs/Epochs.antt`).
//!
//! No question scans the log: beside the entries stands a [`Tally`], the members of each epoch with those still missing, and for each
//! place the epoch and the settled epoch there (`specs/Tally.antt` says what these are of the entries). Who keeps the entries elsewhere
//! takes the tally alone.
//! The crate stands on `object_id`, whose entry types it hands on.
#![tactic(auto)]

mod appending;
mod epoch_record;
mod laws;
mod log;
mod roster;
mod tally;

pub use laws::{
    a_settled_epoch_has_recovered, epochs_grow_by_one, later_entries_change_nothing, log_epochs,
    settled_only_grows,
};
pub use log::{EntryList, Log};
pub use object_id::{Cause, Entry, Origin, VdiSpec};
pub use tally::Tally;
