//! The calls of `strip_coding` that touch strips, by lanes.

ghost use Rattle.std.specs.Prelude.{◌≡◌, ◌↔◌, ◌*◌, ◌<◌, ℕ, List, length, IsTrue, IsErr, OnOk, OnErr};
ghost use Rattle.std.specs.List.{All};
ghost use Rattle.object_id.specs.Policy.{IsPolicy, is_width, need_of};
ghost use Rattle.gf256.specs.Polynomial.{ArePoints};
ghost use Rattle.gf256.specs.Strip.{strip, strip_bytes, IsBlock};
ghost use Rattle.gf256.specs.Part.{IsAligned, part_size, part, parts_in, bytes_of_parts};
ghost use Rattle.strip_coding.specs.Choice.{distinct_places, chosen_block, HasStrips};

use crate::sums::ByLanes;
use gf256::TooFewStrips;
use object_id::{BLOCK_BYTES, Kind, Policy, TARGETS_MAX};
use strip_coding::{bytes_of_parts_by, decode_block_by, encode_block_by, part_by};

/// Makes strip `i` of a block of `d` data strips.
pub fn encode_block(d: u8, block: &[u8; BLOCK_BYTES as usize], i: u8, out: &mut [u8])
    requires width { IsTrue (is_width d) }
    requires index { i < TARGETS_MAX }
    requires room { length out.old ≡ strip_bytes d }
    ensures { out.new ≡ strip d block.now i }
{
    encode_block_by::<ByLanes>(d, block, i, out);
}

/// Decodes the block that has the given strips, one strip for each index in their order, at the first `d`
/// distinct indexes. Refused, with `out` as it was, where there are fewer.
pub fn decode_block(
    d: u8,
    indexes: &[u8],
    strips: &[u8],
    out: &mut [u8; BLOCK_BYTES as usize],
) -> Result<(), TooFewStrips>
    requires width { IsTrue (is_width d) }
    requires indexes { All (λ index. index < TARGETS_MAX) indexes.now }
    requires strips { length strips.now ≡ length indexes.now * strip_bytes d }
    ensures few { IsErr result ↔ (length (distinct_places indexes.now) < d) }
    ensures block { OnOk result (out.new ≡ chosen_block d indexes.now strips.now) }
    ensures strips { OnOk result (HasStrips d indexes.now strips.now out.new) }
    // no other block has these strips
    ensures only { OnOk result ((block : List ℕ) → IsBlock block →
        HasStrips d indexes.now strips.now block → block ≡ out.new) }
    ensures unchanged { OnErr result (out.new ≡ out.old) }
{
    decode_block_by::<ByLanes>(d, indexes, strips, out)
}

/// Makes the part of some bytes under an index.
pub fn part(policy: Policy, kind: Kind, index: u8, bytes: &[u8], out: &mut [u8])
    requires policy { IsPolicy policy }
    requires index { index < TARGETS_MAX }
    requires whole { IsAligned policy kind (length bytes.now) }
    requires room { length out.old ≡ part_size policy kind (length bytes.now) }
    ensures { out.new ≡ part policy kind index bytes.now }
{
    part_by::<ByLanes>(policy, kind, index, bytes, out);
}

/// Makes the bytes whose parts are given, as many as a read needs: one part for each of the indexes, in their order, and all
/// of one length.
pub fn bytes_of_parts(policy: Policy, kind: Kind, indexes: &[u8], parts: &[u8], out: &mut [u8])
    requires policy { IsPolicy policy }
    requires indexes { ArePoints indexes.now }
    requires enough { length indexes.now ≡ need_of policy kind }
    requires whole { IsAligned policy kind (length out.old) }
    requires parts { length parts.now ≡ need_of policy kind * part_size policy kind (length out.old) }
    ensures { out.new ≡ bytes_of_parts policy kind indexes.now
        (parts_in (part_size policy kind (length out.old)) (need_of policy kind) parts.now) }
{
    bytes_of_parts_by::<ByLanes>(policy, kind, indexes, parts, out);
}
