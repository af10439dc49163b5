//! The report of a run: a line for each request, and the lists of the barriers.
//!
//! The crate stands on `sheep_world` and what is below it. Here stand as definitions how a refusal is told
//! (`specs/Causes.antt`), how read bytes are (`specs/RunWords.antt`), what may have become of a request and its line
//! (`specs/Fates.antt`), the lists (`specs/Lists.antt`), and the report of a run by its lines (`specs/Report.antt`), over
//! the words of a line (`specs/Words.antt`); and how many requests it tells of in each way (`specs/Counts.antt`). The laws of
//! `laws.rt` say that each request has exactly one line and which rows are listed, and spell lines out, of requests and of
//! the lists of a small log (`specs/Example.antt`).
//!
//! The code of the lines and the lists is exactly by its definition, or out of memory. Each line is added to the end of a
//! text, in one pass and without a list of its words (`words.rt`): the line of a request (`fates.rt`, with `causes.rt` and `runs.rt`), and
//! those of the lists by their parts (`specs/ListParts.antt`), `cluster info` (`cluster_info.rt`), `node list` (`node_list.rt`),
//! `vdi list` (`vdi_list.rt`) and `dump` (`dump.rt`, with `row_order.rt`). [`list_text`] asks a world for these parts.
//!
//! A [`Reporter`] goes beside a world and its events (`reporter.rt`), and [`report`] makes the events of a run again with one beside them
//! (`kept_run.rt`). It keeps the lines of replies (`held_lines.rt`) until their phase ends, the requests without line of the phases that
//! have begun, and what is told so far (`told_part.rt`). How a request gets its line (`settling.rt`, with `requests.rt`) is defined by what
//! is kept (`specs/Settling.antt`, `specs/ToldPart.antt`), and `specs/Reporter.antt` says which report in the making a reporter has.
#![tactic(auto)]

mod causes;
mod cluster_info;
mod counts;
mod dump;
mod fates;
mod generated;
mod held_line;
mod held_lines;
mod kept_run;
mod laws;
mod list;
mod node_list;
mod places;
mod reporter;
mod requests;
mod row_order;
mod runs;
mod settling;
mod told_part;
mod vdi_list;
mod words;

pub use cluster_info::push_cluster;
pub use counts::Counts;
pub use dump::push_stored;
pub use fates::{push_answered, push_gone, push_pending, push_unsent};
pub use generated::generated_line;
pub use kept_run::{finished_report, report};
pub use laws::{
    dump_has_the_rows_of_nodes_that_are_up, each_request_has_one_line, lists_spelled_out,
    requests_lines_spelled_out, the_counts_add_up, what_became_of_a_request,
};
pub use list::list_text;
pub use node_list::push_peer;
pub use reporter::{FinishedReport, Reporter};
pub use vdi_list::push_vdis;
