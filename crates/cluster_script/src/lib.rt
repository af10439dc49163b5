//! Cluster scripts: texts that say, line by line, what a cluster is and what is asked of it.
//!
//! A text is a script or it isn't: [`parse`] answers the statements that its lines spell, or else the first bad line
//! and the cause of its first bad word. Both are exact, by a grammar over lines and words whose only state is the list
//! of the statements so far. Want of memory is the one answer that the text doesn't decide.
//!
//! The statements are the type [`Statement`]. Definitions say which words spell each of them, which may stand after
//! which, how a text is read, and with which cause it is refused, and laws tie these together: a line is read as a
//! statement exactly if its words spell that and it may stand there. While it reads, the parser keeps beside the
//! statements what the grammar asks of them, so that no line goes through those before it.
//!
//! What a cluster takes from a script is defined over its statements: its settings and opening members, its requests by
//! number and by session, its phases, and its sessions with the incarnations of their gateways. These are the index of a
//! script. A [`Script`] looks them up without memory, by what was noted once, and no look-up goes through the statements.
//! Of the workspace the crate stands on `object_id` alone.
#![tactic(auto)]

mod disk_request;
mod draft;
mod fault;
mod happening;
mod index;
mod laws;
mod line;
mod marks;
mod number;
mod phase_entry;
mod piece;
mod policy;
mod request;
mod request_entry;
mod script;
mod script_index;
mod session_table;
mod setting;
mod statement;
mod totals;
mod words;
mod zone_table;

pub use fault::{LineCause, ScriptFault};
pub use index::{PhaseOfScript, RequestOfScript, SessionOfScript};
pub use laws::{
    a_line_reads_as_it_is_spelled, a_text_reads_as_its_script, each_request_is_of_a_phase,
    each_session_is_declared, each_statement_stands, every_script_can_be_written,
    the_index_is_of_the_statements, what_is_asked,
};
pub use script::{Script, parse};
pub use statement::{Pattern, Statement};
