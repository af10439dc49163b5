//! The part of an object's bytes under an index, and the bytes of parts. Whole copies and inodes are their own part; the
//! part of coded data has the index's strip of each block, in order.

ghost use Rattle.std.specs.Prelude.{◌≡◌, ◌+◌, ◌*◌, ◌/◌, ◌%◌, ◌^◌, ◌<◌, ◌≤◌, length, map, take, IsTrue};
ghost use Rattle.std.specs.Prelude.{◌==◌};
ghost use Rattle.std.specs.List.{All, position, range_with_len};
ghost use Rattle.object_id.specs.declared.node.NodeId.{NodeId as TheNode};
ghost use Rattle.object_id.specs.Policy.{IsPolicy, is_width, need_of};
ghost use Rattle.gf256.specs.Polynomial.{ArePoints};
ghost use Rattle.gf256.specs.Strip.{strip_bytes};
ghost use Rattle.gf256.specs.Part.{strips_of_blocks, blocks_through, IsAligned, part_size, part, parts_in, bytes_of_parts, index_at, index_among};

use crate::choice::MOST_DATA_STRIPS;
use crate::coding::{block, strip};
use crate::sums::{ByteByByte, StripSums};
use object_id::{BLOCK_BYTES, Kind, NodeId, Policy, TARGETS_MAX};

/// A block's length, as a length of slices.
const BLOCK: usize = BLOCK_BYTES as usize;

/// How long the part of so many bytes is, and where in the part an offset of the object is.
pub fn part_size(policy: Policy, kind: Kind, n: usize) -> usize
    requires { IsPolicy policy }
    ensures { result ≡ part_size policy kind n }
{
    match policy {
        Policy::Copies(_) => n,
        Policy::Coded { d, .. } => match kind {
            Kind::Block => n / d as usize,
            Kind::Inode => n,
        },
    }
}

/// The index under which a target keeps its part: of strips its place in the target list, of whole copies 0.
fn index_at(policy: Policy, kind: Kind, place: u8) -> u8
    ensures { result ≡ index_at policy kind place }
{
    match policy {
        Policy::Copies(_) => 0,
        Policy::Coded { .. } => match kind {
            Kind::Block => place,
            Kind::Inode => 0,
        },
    }
}

/// The place of a node among targets.
fn place_of(node: NodeId, targets: &[NodeId]) -> Option<usize>
    ensures { result ≡ position (λ (target : TheNode). target.0 == node.0) targets.now }
{
    targets.iter().position(|target| *target == node)
}

/// The index under which a node keeps its part of an object, if it is among the object's targets. Looks at each target.
pub fn index_among(node: NodeId, targets: &[NodeId], policy: Policy, kind: Kind) -> Option<u8>
    requires { length targets.now ≤ TARGETS_MAX }
    ensures { result ≡ index_among node targets.now policy kind }
{
    match place_of(node, targets) {
        Some(place) => Some(index_at(policy, kind, place as u8)),
        None => None,
    }
}

/// Makes the part of some bytes under an index, by any way of making sums.
#[tactic(auto, unfolding(gf256::specs::Part::part))]
pub fn part_by<S: StripSums>(policy: Policy, kind: Kind, index: u8, bytes: &[u8], out: &mut [u8])
    requires policy { IsPolicy policy }
    requires index { index < TARGETS_MAX }
    requires whole { IsAligned policy kind (length bytes.now) }
    requires room { length out.old ≡ part_size policy kind (length bytes.now) }
    ensures { out.new ≡ part policy kind index bytes.now }
{
    match policy {
        Policy::Copies(_) => out.copy_from_slice(bytes),
        Policy::Coded { d, .. } => match kind {
            Kind::Block => strips::<S>(d, index, bytes, out),
            Kind::Inode => out.copy_from_slice(bytes),
        },
    }
}

/// Makes the strip of an index of each block.
fn strips<S: StripSums>(d: u8, index: u8, bytes: &[u8], out: &mut [u8])
    requires width { IsTrue (is_width d) }
    requires index { index < TARGETS_MAX }
    requires whole { length bytes.now % BLOCK_BYTES ≡ 0 }
    requires room { length out.old ≡ length bytes.now / d }
    ensures { out.new ≡ strips_of_blocks d index (length bytes.now / BLOCK_BYTES) bytes.now }
{
    let width = BLOCK / d as usize;
    for k in 0..bytes.len() / BLOCK {
        strip::<S>(
            d,
            &bytes[k * BLOCK..k * BLOCK + BLOCK],
            index,
            &mut out[k * width..k * width + width],
        );
    }
}

/// Makes the bytes whose parts are given, as many as a read needs: one part for each of the indexes, in their order, and all
/// of one length. By any way of making sums.
pub fn bytes_of_parts_by<S: StripSums>(
    policy: Policy,
    kind: Kind,
    indexes: &[u8],
    parts: &[u8],
    out: &mut [u8],
)
    requires policy { IsPolicy policy }
    requires indexes { ArePoints indexes.now }
    requires enough { length indexes.now ≡ need_of policy kind }
    requires whole { IsAligned policy kind (length out.old) }
    requires parts { length parts.now ≡ need_of policy kind * part_size policy kind (length out.old) }
    ensures { out.new ≡ bytes_of_parts policy kind indexes.now
        (parts_in (part_size policy kind (length out.old)) (need_of policy kind) parts.now) }
{
    match policy {
        Policy::Copies(_) => out.copy_from_slice(parts),
        Policy::Coded { d, .. } => match kind {
            Kind::Block => blocks::<S>(d, indexes, parts, out),
            Kind::Inode => out.copy_from_slice(parts),
        },
    }
}

/// The places of strip `k` of each part among all strips, where each of `d` parts has so many.
fn places_of(d: usize, strips: usize, k: usize) -> [usize; MOST_DATA_STRIPS]
    requires most { d ≤ MOST_DATA_STRIPS }
    requires below { k < strips }
    requires room { d * strips < 2 ^ 64 }
    ensures { take d result ≡ map (λ part. part * strips + k) (range_with_len 0 d) }
{
    let mut places = [0; MOST_DATA_STRIPS];
    for part in 0..d {
        places[part] = part * strips + k;
    }
    places
}

/// Makes each block through its strips, one of each part.
fn blocks<S: StripSums>(d: u8, indexes: &[u8], parts: &[u8], out: &mut [u8])
    requires width { IsTrue (is_width d) }
    requires indexes { ArePoints indexes.now }
    requires enough { length indexes.now ≡ d }
    requires whole { length out.old % BLOCK_BYTES ≡ 0 }
    requires parts { length parts.now ≡ d * (length out.old / d) }
    ensures { out.new ≡ blocks_through d indexes.now (length out.old / BLOCK_BYTES) (parts_in (length out.old / d) d parts.now) }
{
    let count = d as usize;
    let blocks = out.len() / BLOCK;
    for k in 0..blocks {
        let places = places_of(count, blocks, k);
        block::<S>(
            count,
            indexes,
            &places[..count],
            parts,
            &mut out[k * BLOCK..k * BLOCK + BLOCK],
        );
    }
}

/// Makes the part of some bytes under an index.
pub fn part(policy: Policy, kind: Kind, index: u8, bytes: &[u8], out: &mut [u8])
    requires policy { IsPolicy policy }
    requires index { index < TARGETS_MAX }
    requires whole { IsAligned policy kind (length bytes.now) }
    requires room { length out.old ≡ part_size policy kind (length bytes.now) }
    ensures { out.new ≡ part policy kind index bytes.now }
{
    part_by::<ByteByByte>(policy, kind, index, bytes, out);
}

/// Makes the bytes whose parts are given, as many as a read needs: one part for each of the indexes, in their order, and all
/// of one length.
pub fn bytes_of_parts(policy: Policy, kind: Kind, indexes: &[u8], parts: &[u8], out: &mut [u8])
    requires policy { IsPolicy policy }
    requires indexes { ArePoints indexes.now }
    requires enough { length indexes.now ≡ need_of policy kind }
    requires whole { IsAligned policy kind (length out.old) }
    requires parts { length parts.now ≡ need_of policy kind * part_size policy kind (length out.old) }
    ensures { out.new ≡ bytes_of_parts policy kind indexes.now
        (parts_in (part_size policy kind (length out.old)) (need_of policy kind) parts.now) }
{
    bytes_of_parts_by::<ByteByByte>(policy, kind, indexes, parts, out);
}
