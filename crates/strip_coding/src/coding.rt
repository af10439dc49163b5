//! Encoding and decoding of one block.

ghost use Rattle.std.specs.Prelude.{◌≡◌, ◌↔◌, ◌*◌, ◌+◌, ◌<◌, ◌≤◌, ◌==◌, ℕ, List, length, map, slice_index, IsTrue, IsErr, OnOk, OnErr};
ghost use Rattle.std.specs.Prelude.{position};
ghost use Rattle.std.specs.List.{All};
ghost use Rattle.object_id.specs.Policy.{is_width};
ghost use Rattle.gf256.specs.Polynomial.{ArePoints};
ghost use Rattle.gf256.specs.Strip.{strip, strip_bytes, IsBlock, lagrange, block_through};
ghost use Rattle.strip_coding.specs.Choice.{strip_at, distinct_places, chosen_block, HasStrips};

use crate::choice::{MOST_DATA_STRIPS, choose};
use crate::interpolate::fill_row;
use crate::rows::parity_row;
use crate::sums::{ByteByByte, StripSums};
use gf256::TooFewStrips;
use object_id::{BLOCK_BYTES, TARGETS_MAX};

/// The places of the data strips in a block.
const IN_ORDER: [usize; MOST_DATA_STRIPS] = [0, 1, 2, 3, 4, 5, 6, 7, 8, 9, 10, 11, 12, 13, 14, 15];

/// Makes strip `index` of a block of `d` data strips.
pub fn strip<S: StripSums>(d: u8, block: &[u8], index: u8, out: &mut [u8])
    requires width { IsTrue (is_width d) }
    requires block { length block.now ≡ BLOCK_BYTES }
    requires index { index < TARGETS_MAX }
    requires room { length out.old ≡ strip_bytes d }
    ensures { out.new ≡ strip d block.now index }
{
    let d = d as usize;
    let index = index as usize;
    let width = out.len();
    if index < d {
        out.copy_from_slice(&block[index * width..index * width + width]);
    } else {
        S::combine(parity_row(d, index), &IN_ORDER[..d], block, out);
    }
}

/// Makes strip `i` of a block of `d` data strips, by any way of making sums.
pub fn encode_block_by<S: StripSums>(
    d: u8,
    block: &[u8; BLOCK_BYTES as usize],
    i: u8,
    out: &mut [u8],
)
    requires width { IsTrue (is_width d) }
    requires index { i < TARGETS_MAX }
    requires room { length out.old ≡ strip_bytes d }
    ensures { out.new ≡ strip d block.now i }
{
    strip::<S>(d, block, i, out);
}

/// Where an index stands among the points.
fn place_of(points: &[u8], index: u8) -> Option<usize>
    ensures { result ≡ position (λ point. point == index) points.now }
{
    points.iter().position(|point| *point == index)
}

/// Makes data strip `index` from the strips at some places, whose indexes are the points: copies it where
/// it is among them, and else sums their multiples.
fn restore<S: StripSums>(points: &[u8], places: &[usize], index: u8, strips: &[u8], out: &mut [u8])
    requires differ { ArePoints points.now }
    requires most { length points.now ≤ MOST_DATA_STRIPS }
    requires both { length points.now ≡ length places.now }
    requires within { All (λ place. (place + 1) * length out.old ≤ length strips.now) places.now }
    ensures { (k : ℕ) → k < length out.old → slice_index out.new k ≡
        lagrange points.now
        (map (λ place. slice_index strips.now (place * length out.old + k)) places.now) index }
{
    if let Some(m) = place_of(points, index) {
        let start = places[m] * out.len();
        out.copy_from_slice(&strips[start..start + out.len()]);
    } else {
        let mut coefficients = [0; MOST_DATA_STRIPS];
        let row = &mut coefficients[..points.len()];
        fill_row(points, index, row);
        S::combine(row, places, strips, out);
    }
}

/// Makes the block of `d` data strips that has the strips at some places, whose indexes are the points.
pub fn block<S: StripSums>(d: usize, points: &[u8], places: &[usize], strips: &[u8], out: &mut [u8])
    requires width { IsTrue (is_width d) }
    requires differ { ArePoints points.now }
    requires points { length points.now ≡ d }
    requires places { length places.now ≡ d }
    requires most { d ≤ MOST_DATA_STRIPS }
    requires within { All (λ place. (place + 1) * strip_bytes d ≤ length strips.now) places.now }
    requires room { length out.old ≡ BLOCK_BYTES }
    ensures { out.new ≡ block_through d points.now (map (strip_at d strips.now) places.now) }
{
    let width = BLOCK_BYTES as usize / d;
    for k in 0..d {
        let start = k * width;
        restore::<S>(
            points,
            places,
            k as u8,
            strips,
            &mut out[start..start + width],
        );
    }
}

/// Decodes the block that has the given strips, one strip for each index in their order, at the first `d`
/// distinct indexes, by any way of making sums. Refused, with `out` as it was, where there are fewer.
pub fn decode_block_by<S: StripSums>(
    d: u8,
    indexes: &[u8],
    strips: &[u8],
    out: &mut [u8; BLOCK_BYTES as usize],
) -> Result<(), TooFewStrips>
    requires width { IsTrue (is_width d) }
    requires indexes { All (λ index. index < TARGETS_MAX) indexes.now }
    requires strips { length strips.now ≡ length indexes.now * strip_bytes d }
    ensures few { IsErr result ↔ (length (distinct_places indexes.now) < d) }
    ensures block { OnOk result (out.new ≡ chosen_block d indexes.now strips.now) }
    ensures strips { OnOk result (HasStrips d indexes.now strips.now out.new) }
    // no other block has these strips
    ensures only { OnOk result ((block : List ℕ) → IsBlock block →
        HasStrips d indexes.now strips.now block → block ≡ out.new) }
    ensures unchanged { OnErr result (out.new ≡ out.old) }
{
    let count = d as usize;
    let choice = choose(count, indexes)?;
    block::<S>(
        count,
        &choice.points[..count],
        &choice.places[..count],
        strips,
        out,
    );
    Ok(())
}

/// Makes strip `i` of a block of `d` data strips.
pub fn encode_block(d: u8, block: &[u8; BLOCK_BYTES as usize], i: u8, out: &mut [u8])
    requires width { IsTrue (is_width d) }
    requires index { i < TARGETS_MAX }
    requires room { length out.old ≡ strip_bytes d }
    ensures { out.new ≡ strip d block.now i }
{
    encode_block_by::<ByteByByte>(d, block, i, out);
}

/// Decodes the block that has the given strips, one strip for each index in their order, at the first `d`
/// distinct indexes. Refused, with `out` as it was, where there are fewer.
pub fn decode_block(
    d: u8,
    indexes: &[u8],
    strips: &[u8],
    out: &mut [u8; BLOCK_BYTES as usize],
) -> Result<(), TooFewStrips>
    requires width { IsTrue (is_width d) }
    requires indexes { All (λ index. index < TARGETS_MAX) indexes.now }
    requires strips { length strips.now ≡ length indexes.now * strip_bytes d }
    ensures few { IsErr result ↔ (length (distinct_places indexes.now) < d) }
    ensures block { OnOk result (out.new ≡ chosen_block d indexes.now strips.now) }
    ensures strips { OnOk result (HasStrips d indexes.now strips.now out.new) }
    // no other block has these strips
    ensures only { OnOk result ((block : List ℕ) → IsBlock block →
        HasStrips d indexes.now strips.now block → block ≡ out.new) }
    ensures unchanged { OnErr result (out.new ≡ out.old) }
{
    decode_block_by::<ByteByByte>(d, indexes, strips, out)
}
