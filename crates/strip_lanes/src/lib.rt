//! Strips of blocks over lanes: the calls of `strip_coding`, with the same clauses word for word, by sums of 32 bytes at a time.
//!
//! A strip that isn't at hand is a sum of multiples of those that are, and [`ByLanes`] makes such sums by vectors of `std::simd`
//! and two tables of products. [`encode_block`], [`decode_block`], [`part`] and [`bytes_of_parts`] are the calls of `strip_coding`
//! for any way of making sums, with this one. No clause sees it: a caller can take either crate.
//! The crate stands on `strip_coding`, which says what a way of making sums owes; on `gf256`, where strips and parts are
//! defined; and on `object_id` for policies. It takes no memory.
#![tactic(auto)]

mod calls;
mod high_products;
mod lanes;
mod low_products;
mod sums;
#[cfg(test)]
mod tests;

pub use calls::{bytes_of_parts, decode_block, encode_block, part};
pub use gf256::TooFewStrips;
pub use strip_coding::{index_among, part_size};
pub use sums::ByLanes;
