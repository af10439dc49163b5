//! Tests of the runs of worlds: of `trace_text`, how events are spelled and traces replayed; of `schedule`, generated scripts and the runs
//! that a seed or given events make; of `sheep_world`, the asks of a client; of `dog_report`, lines by themselves and the reports of whole
//! runs; and of the call of `overlap_law`.
//!
//! A crate with tests is proved twice, once as a library and once more with them. These tests use public calls alone, so they stand
//! here, above the crates that they test: the proofs of those are done once, and here only those of the test functions.
#![tactic(auto)]

#[cfg(test)]
mod asks;
#[cfg(test)]
mod lines;
#[cfg(test)]
mod reports;
#[cfg(test)]
mod seeds;
#[cfg(test)]
mod traces;
