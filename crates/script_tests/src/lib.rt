//! Tests of `cluster_script`: which statements the lines of a text spell, which line is the first bad one and with what cause, what a
//! script says of its requests, sessions and phases. The values were worked out by hand from the rules of the language.
//!
//! A crate with tests is proved twice, once as a library and once more with them. These tests use public calls alone, so they stand
//! here, above the crate that they test: its proofs are done once, and here only those of the test functions.
#![tactic(auto)]

#[cfg(test)]
mod script_index;
#[cfg(test)]
mod scripts;
