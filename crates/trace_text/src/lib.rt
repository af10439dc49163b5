//! The spelling of events, and how a trace is replayed: a line for each event.
//!
//! The crate stands on `sheep_world` and `cluster_script`. Definitions say how an event is spelled (`specs/Spelling.antt`),
//! which event a line spells (`specs/EventReading.antt`, and by its word `specs/EventWords.antt`), which lines a trace has
//! (`specs/Lines.antt`), into which parts an input is cut (`specs/InputParts.antt`), and which line is the first bad one in a
//! replay (`specs/Replay.antt`).
//!
//! The code prints events ([`print_events`], and of a run [`print_trace`]), reads a line as an event ([`event_in`]), goes through
//! the lines of a trace ([`Lines`]) and cuts an input into its script and its trace ([`input_parts`]). A trace is replayed line by
//! line in a world that the caller keeps ([`TraceReplay`]), or as a whole ([`replay`]). Each call gives exactly what is defined; only
//! printing and runs take memory.
//!
//! The laws of `laws.rt` say what these mean: reading undoes spelling, an event has one spelling, a script and its trace are read
//! again from one input, and a replay takes a trace exactly where it spells a whole run.
#![tactic(auto)]

mod event_reading;
mod fault;
mod input_cut;
mod laws;
mod lines;
mod spelling;
mod split;
mod trace_replay;

pub use event_reading::event_in;
pub use fault::{BadEvent, TraceFault};
pub use input_cut::input_parts;
pub use laws::{
    a_replay_takes_whole_runs, a_script_and_its_trace_are_read_again, a_text_is_of_one_event,
    a_trace_has_a_line_for_each_event, an_input_is_cut_at_the_first_line_trace, events_spelled_out,
    lines_read, reading_undoes_spelling,
};
pub use lines::Lines;
pub use spelling::{print_events, print_trace};
pub use trace_replay::{TraceReplay, replay};
