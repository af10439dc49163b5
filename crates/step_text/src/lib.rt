//! Steps of nodes and events of worlds as text, for tests.
//!
//! Of a node: a line is a node that opens, `new NODE TRIES`, or the words of an input on which the last node steps, and what it gives is
//! a line too. [`Life`] keeps the node from one line to the next. Of a world: a case is a script, a line `trace`, and a line for each event
//! that is to be made, for each ask of a client, `ask NODE` with what is asked in the words of an input, and for each wait for its reply,
//! `drive TURNS`; and [`end_of`] tells what they give and the world that they end with.
//!
//! Messages stand as the bytes that `peer_proto` gives them, with repeats counted, and everything else as words: numbers, names in
//! hex, an entry with its kind and fields in order. The crate makes each step by `Node::step` of `sheep_node`, if `Node::may` lets it:
//! a line opens a node or makes such a step, or leaves the node (`specs/Lives.antt`). That the words say what they should is seen by
//! `node_steps` and `world_ends`, whose lists another program recorded. Events stand in the words of `trace_text`, and rows in those of
//! `dog_report`; the world is made by `World::new`, each event by `World::apply` of `sheep_world`, and what a client does by
//! `World::ask` and `World::drive`; and it is read through its public readers.
#![tactic(auto)]

mod case;
mod case_fault;
mod client_lines;
mod entry_words;
mod fault;
mod history_words;
mod input_words;
mod life;
mod output_words;
mod words;
mod work_words;
mod world_words;

pub use case::end_of;
pub use case_fault::CaseFault;
pub use entry_words::write_entry;
pub use fault::Fault;
pub use input_words::{input_of, write_input};
pub use life::Life;
pub use output_words::{outputs_line, write_reply};
pub use work_words::write_work;
