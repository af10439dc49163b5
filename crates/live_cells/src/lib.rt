//! The cells of a cluster that lives on threads: a node with all that it did, and the log with the carry of each entry. Each stands
//! behind a lock, and what a worker finds there is what the cell's type keeps.
//!
//! A [`NodeCell`] keeps its node and every step that the node made, each with its event, input and outputs. As long as it isn't spent,
//! replaying the steps' inputs from its opening node gives the node and each step's outputs (`specs/History.antt`): so whatever the
//! threads did, a locked node did it as a node of one thread does.
//!
//! A [`Carry`] brings the stamp of a step to whoever takes what the step gave: a letter, an entry of the log, the mark of a loss. A step
//! joins what was brought to it into its seat, and then draws its stamp, which so is above each that was brought; [`draw_above`] does the
//! same for an event at which no node steps. A [`LogCell`] keeps a carry for each entry of the log, and a [`Letter`] has one.
//!
//! What comes out of a lock or a channel is known by its type alone. So the types that keep carries have a parameter `N: ClockName`,
//! which names the clock that the carries are of.
//!
//! The crate stands on `sheep_node`, whose step it records, `stamp_clock` for the stamps, `epoch_log` for the log, and `object_id`. It
//! starts no thread and takes no lock: those who do stand above.
#![tactic(auto)]

mod act_fault;
mod carry;
mod draft;
mod laws;
mod letter;
mod log_cell;
mod node_cell;
mod step;

pub use act_fault::ActFault;
pub use carry::{Carry, draw_above};
pub use laws::{
    a_locked_node_replays_its_history, a_step_gives_what_its_node_would,
    what_a_node_puts_may_stand_in_the_log,
};
pub use letter::Letter;
pub use log_cell::LogCell;
pub use node_cell::NodeCell;
pub use step::{StampList, Step};
