//! Tests of `live_cells`: what no clause says, that calls come through with ample memory, and which stamps they then give.
//!
//! A crate with tests is proved twice, once as a library and once more with them. These use public calls alone, so they stand in a crate
//! of their own.
#![tactic(auto)]

#[cfg(test)]
mod cells;
