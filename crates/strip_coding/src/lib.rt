//! Strips of blocks: encoding a block of 512 bytes into strips, and decoding it from any d of them.
//!
//! A block of d data strips, 2, 4, 8 or 16, has a strip for each index from 0 to 30: the first d are
//! the block's own bytes in order, and each byte column of the strips is the values of one polynomial
//! of degree below d at the points that the indexes are. [`encode_block`] makes the strip of an index;
//! [`decode_block`] gives the one block that has given strips at d different indexes. The part of an object
//! under an index has the index's strip of each block, or all bytes of what is kept in whole copies: [`part`]
//! makes it, and [`bytes_of_parts`] makes the bytes of as many parts as a read needs.
//! A strip that isn't at hand is a sum of multiples of those that are. [`StripSums`] says what a way of making such sums owes;
//! [`ByteByByte`] is the plain one, by which these calls go. A call whose name ends in `_by` takes the way as a type.
//! The crate stands on `gf256`, where strips and parts are defined, and on `object_id` for policies. It takes no
//! memory.
#![tactic(auto)]

mod choice;
mod coding;
mod interpolate;
mod laws;
mod parts;
mod rows;
mod sums;

pub use coding::{decode_block, decode_block_by, encode_block, encode_block_by};
pub use gf256::TooFewStrips;
pub use laws::choice_laws;
pub use parts::{bytes_of_parts, bytes_of_parts_by, index_among, part, part_by, part_size};
pub use sums::{ByteByByte, StripSums};
