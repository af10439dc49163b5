//! The program's top call: words and an input in, a text out.
//!
//! [`sheep`] reads a cluster script from any source, runs it on the cluster, and writes its report to any sink: in the order that a seed
//! gives, or that a trace gives, and for a script that a number generates one line. Its contract says what is written for every input,
//! with each status, over the definitions of `schedule`, `trace_text` and `dog_report`.
//!
//! The replies that are printed are those that the events of the run gave, in its history (`specs/PrintedReplies.antt`, `laws.rt`); each
//! read, write and check that is printed as done is done there, on an open disk (`specs/PrintedReads.antt`); and they are one legal
//! history, as `overlap_law` shows of every run (`specs/Outcome.antt`).
//!
//! [`sheep_live`] does the same on threads (`live_run`): the report is that of the run into which the steps merge that the cluster kept.
//!
//! The words are those of `sheep_words`. A run is made and told event by event (`told_run.rt`), so that no run is made twice; `making.rt`
//! has the two orders. `answer.rt` has the answer to each input, with its status.
#![tactic(auto)]

mod answer;
mod laws;
mod lines;
mod live;
mod live_answer;
mod making;
mod status;
mod told_run;
mod top;

pub use laws::{
    a_report_prints_the_replies_of_its_run, a_request_gets_one_reply,
    the_history_has_what_replies_added, what_is_printed_as_done_is_on_an_open_disk,
};
pub use live::sheep_live;
pub use live_run::{FreeGate, Gate, Kept};
pub use sheep_words::{Mode, mode_of};
pub use status::Status;
pub use top::sheep;
