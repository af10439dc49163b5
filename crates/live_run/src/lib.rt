//! A cluster that lives on threads: up to 257 workers make its events in rounds, and what they made is one run of its script.
//!
//! In a round all workers run at once (`live_workers`), until each finds nothing to do; between two rounds the round's steps are merged
//! into one run (`live_merge`), and the phases that are due are ended. Once every phase is ended [`run_live`] keeps the cells, makes the
//! run anew of what is kept ([`Kept`]), and answers it; where the steps clash, the cluster starts again. A [`Gate`] may hold a worker
//! before an event. That the run is one of the script rests on the merge, and not on what the threads did.
//!
//! The crate stands on `live_workers` for the events, `live_merge` and `sheep_world` for the run, and `stamp_clock` for the clock. What is
//! promised is that of [`run_live`]; that it returns isn't.
#![tactic(auto)]

mod coming_back;
mod gate;
mod keeping;
mod kept;
mod live;
mod pause;
mod rounds;
mod sessions;
mod workers;

pub use gate::{FreeGate, Gate};
pub use kept::Kept;
pub use live::run_live;
pub use live_merge::{MergeFault, merge_round};
