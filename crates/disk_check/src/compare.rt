//! What the pieces of an object tell.

ghost use Rattle.std.specs.Prelude.{◌≡◌, ◌^◌, ◌<◌, length, IfOk};
ghost use Rattle.object_id.specs.declared.oid.Kind.TheVariants.{Block};
ghost use Rattle.object_id.specs.Policy.{IsPolicy};
ghost use Rattle.object_id.specs.Spec.{IsSpec};
ghost use Rattle.gf256.specs.Part.{IsAligned, part_size};
ghost use Rattle.disk_check.specs.Value.{all_bytes, pieces_in, value_of, is_other_piece, differ};

use object_id::{Bytes, DATA_STRIPS_MAX, Kind, NoMemory, Policy, TARGETS_MAX, VdiSpec};
use std::alloc::Global;
use strip_lanes::{bytes_of_parts, part, part_size};

/// The indexes of the data strips.
const DATA_INDEXES: [u8; DATA_STRIPS_MAX as usize] = [
    0, 1, 2, 3, 4, 5, 6, 7, 8, 9, 10, 11, 12, 13, 14, 15,
];

/// How long the objects of a disk are.
fn object_bytes(spec: VdiSpec) -> usize
    requires { IsSpec spec }
    ensures { result ≡ 2 ^ spec.shift }
{
    1 << spec.shift
}

/// How many bytes all targets give of an object.
pub(crate) fn all_bytes(spec: VdiSpec) -> usize
    requires { IsSpec spec }
    ensures { result ≡ all_bytes spec }
{
    spec.policy.wanted(Kind::Block) as usize
        * part_size(spec.policy, Kind::Block, object_bytes(spec))
}

/// Makes the value of an object.
fn fill_value(spec: VdiSpec, bytes: &[u8], value: &mut [u8])
    requires spec { IsSpec spec }
    requires whole { length bytes.now ≡ all_bytes spec }
    requires room { length value.old ≡ 2 ^ spec.shift }
    ensures { value.new ≡ value_of spec.policy (pieces_in spec bytes.now) }
{
    let need = spec.policy.need(Kind::Block) as usize;
    let size = part_size(spec.policy, Kind::Block, value.len());
    bytes_of_parts(
        spec.policy,
        Kind::Block,
        &DATA_INDEXES[..need],
        &bytes[..need * size],
        value,
    );
}

/// The value of an object, by the pieces that its targets gave one behind the other. Takes its bytes.
pub(crate) fn value_of(alloc: Global, spec: VdiSpec, bytes: &[u8]) -> Result<Bytes, NoMemory>
    requires spec { IsSpec spec }
    requires whole { length bytes.now ≡ all_bytes spec }
    ensures { IfOk result (λ value. value ≡ value_of spec.policy (pieces_in spec bytes.now)) }
{
    let mut value = Vec::new(alloc);
    value.resize(object_bytes(spec), 0)?;
    fill_value(spec, bytes, value.as_mut_slice());
    Ok(Bytes::from_vec(value))
}

/// Whether the piece of a target isn't the value, or of coded data not the value's strip, which is made in `kept`.
fn is_other(policy: Policy, place: u8, value: &[u8], piece: &[u8], kept: &mut [u8]) -> bool
    requires policy { IsPolicy policy }
    requires place { place < TARGETS_MAX }
    requires whole { IsAligned policy Block (length value.now) }
    requires room { length kept.old ≡ part_size policy Block (length value.now) }
    ensures { result ≡ is_other_piece policy value.now (place, piece.now) }
{
    part(policy, Kind::Block, place, value, kept);
    piece != &*kept
}

/// Whether one of the pieces isn't the value's. Takes the bytes of a piece.
pub(crate) fn differ(
    alloc: Global,
    spec: VdiSpec,
    value: &[u8],
    bytes: &[u8],
) -> Result<bool, NoMemory>
    requires spec { IsSpec spec }
    requires whole { length bytes.now ≡ all_bytes spec }
    requires value { value.now ≡ value_of spec.policy (pieces_in spec bytes.now) }
    ensures { IfOk result (λ differs. differs ≡ differ spec.policy (pieces_in spec bytes.now)) }
{
    let size = part_size(spec.policy, Kind::Block, value.len());
    let mut kept = Vec::new(alloc);
    kept.resize(size, 0)?;
    for place in 0..spec.policy.wanted(Kind::Block) {
        let start = place as usize * size;
        if is_other(
            spec.policy,
            place,
            value,
            &bytes[start..start + size],
            kept.as_mut_slice(),
        ) {
            return Ok(true);
        }
    }
    Ok(false)
}
