//! The steps that a live cluster kept, merged into one run of its script.
//!
//! Nodes on threads step at the same time, each behind its lock (`live_cells`), and keep every step with its stamp, input and outputs.
//! [`merge_round`] makes these steps again, one after the other, on one world: Phase where it is due, and else the next step's event. Where
//! that event isn't enabled, or its input or outputs are others than the step keeps, the steps clash, at the first such place. So what
//! is merged is a run of the script, and each step did what the run's node does. [`merge_all`] merges from the opening world, and
//! [`whole_merge`] to a run in which every phase is ended.
//!
//! The crate stands on `sheep_world` for the world and the run, `live_cells` for the steps, and `schedule` for what merging means
//! (`specs/Merged.antt` there). It starts no thread.
#![tactic(auto)]

mod fault;
mod merge;
mod same_guest;
mod same_input;
mod same_message;
mod same_outputs;

pub use fault::MergeFault;
pub use merge::{merge_all, merge_round, whole_merge};
