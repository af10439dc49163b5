//! Tests of the parts of a node and of their messages. Of `peer_proto`: requests and replies, and their bytes. Of `recovery`: what recoveries
//! come to that were worked out apart from this program. Of `peer_service`: what a peer answers, and what the log and coming back make of
//! its rows. Of `gateway`: how works begin, go on and end.
//!
//! A crate with tests is proved twice, once as a library and once more with them. These tests use public calls alone, so they stand
//! here, above the crates that they test: the proofs of those are done once, and here only those of the test functions.
#![tactic(auto)]

#[cfg(test)]
mod gateways;
#[cfg(test)]
mod message_tables;
#[cfg(test)]
mod messages;
#[cfg(test)]
mod peers;
#[cfg(test)]
mod recoveries;
