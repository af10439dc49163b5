//! The directory of disks: which names, ids, snapshots and clones there are, by the entries of the membership log.
//!
//! Each decision is a function of the entries before its place. `specs/Decisions.antt` has them as one table: what is
//! decided on an entry, and what it changes; `specs/Effects.antt` says, effect by effect, what is then true of an id or a
//! name. A [`Directory`] is seen as the list of the entries that it has read, and every answer is a function of that list.
//! Locks stand beside it, since the layers above ask for them alone: [`Directory::read_entry`] asks that they are those
//! of its entries, and keeps them so.
//!
//! No question scans the entries: names, tags and headers stand in trees, the live ids in order, the used ids as sorted ranges,
//! and the reservations that stand in a list, since a session has one command at a time (`specs/DirectoryState.antt`). Beside each
//! id stands how many bear it, by which the dead are told (`specs/References.antt`): an entry changes these counts along the
//! parent chains of what it frees, and no further than they change.
//! The crate stands on `object_id`, `disk_lock` and `epoch_log`.
#![tactic(auto)]

mod decision;
mod directory;
mod directory_state;
mod effect;
mod header;
mod headers;
mod judging;
mod laws;
mod live_ids;
mod live_snapshot;
mod losses;
mod named;
mod names;
mod references;
mod reservations;
mod reserving;
mod tags;
mod used_ids;
mod vid_range;

pub use decision::Decision;
pub use directory::Directory;
pub use header::Header;
pub use laws::{
    a_free_id_is_the_first, a_node_that_left_has_nothing, a_test_finds_the_dead,
    an_id_is_granted_once, chains_go_back_in_the_log, grants_are_known, live_ids_are_published,
    names_find_their_disks, nobody_holds_at_first, one_holds_a_disk,
    only_reservations_are_published, states_move_forward, the_dead_stay_dead,
    three_effects_take_a_disk, what_is_known_is_valid,
};
pub use vid_range::{FullVdi, VidRange, free_vid};
