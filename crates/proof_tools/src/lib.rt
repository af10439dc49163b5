//! Lemmas that the proofs of several crates share, and that std doesn't have: on booleans, options,
//! lists, ascending numbers and finite maps.
//!
//! The crate has no code. It stands on std alone, and its lemmas speak only of std's words.
#![tactic(auto)]
