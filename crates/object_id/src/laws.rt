//! Laws of the definitions, for the proofs of the layers above: each is the contract of a function that does nothing.
ghost use Rattle.std.specs.Prelude.{◌≡◌, ◌↔◌, ◌⊎◌, ℕ, ◌+◌, ◌-◌, ◌*◌, ◌^◌, ◌<◌, ◌≤◌, IsTrue, List, Option, length, slice_get};
ghost use Rattle.std.specs.Int.{w32, w64};
ghost use Rattle.std.specs.List.{AllByRecursion};
ghost use Rattle.object_id.specs.declared.policy.Policy.{Policy};
ghost use Rattle.object_id.specs.declared.oid.Kind.{Kind};
ghost use Rattle.object_id.specs.declared.entry.Member.{Member};
ghost use Rattle.object_id.specs.declared.entry.VdiSpec.{VdiSpec};
ghost use Rattle.object_id.specs.declared.entry.Origin.{Origin};
ghost use Rattle.object_id.specs.declared.entry.Entry.{Entry};
ghost use Rattle.object_id.specs.Policy.{IsPolicy, wanted_of, need_of};
ghost use Rattle.object_id.specs.Spec.{IsSpec, objects_of};
ghost use Rattle.object_id.specs.Same.{is_same_policy, is_same_spec, is_same_tag, is_same_origin, is_same_member, is_same_entry};
ghost use Rattle.object_id.specs.Piece.{laid_over};
ghost use Rattle.object_id.specs.Fields.{u8_bytes, u16_bytes, u32_bytes, u64_bytes, numbers_bytes, u8_at, u16_at, u32_at, u64_at};
ghost use Rattle.object_id.specs.Fields.{numbers_at, AreBytes, Stands};

use crate::limits::{
    BLOCK_BYTES, CHECKS_MAX, COPIES_MAX, DATA_STRIPS_MAX, EPOCH_MAX, INDEX_MAX, INPUT_BYTES_MAX,
    LENGTH_MAX, LIMIT_DEFAULT, LIMIT_MAX, LOSSES_MAX, NAME_BYTES_MAX, NODES_DEFAULT, NODES_MAX,
    OBJECT_BYTES_MAX, OBJECTS_MAX, PARITY_MAX, READ_BYTES_MAX, REQUESTS_AT_ONCE, REQUESTS_MAX,
    SESSIONS_MAX, SHIFT_DEFAULT, SHIFT_MAX, SHIFT_MIN, SIZE_MAX, TARGETS_MAX, TRIES_DEFAULT,
    TRIES_MAX, VID_MAX, VNODES_DEFAULT, VNODES_MAX, WRITE_BYTES_MAX, ZONES_MAX,
};

/// Each limit is this number, and those that come from others are what they make.
pub fn limits_in_numbers()
    ensures nodes { (NODES_MAX ≡ 64) × (NODES_DEFAULT ≡ 1) }
    ensures zones { (ZONES_MAX ≡ 64) × (ZONES_MAX ≡ NODES_MAX) }
    ensures sessions { SESSIONS_MAX ≡ 64 }
    ensures weights { (VNODES_MAX ≡ 256) × (VNODES_DEFAULT ≡ 64) }
    ensures epochs { (EPOCH_MAX ≡ 4294967295) × (EPOCH_MAX ≡ 2 ^ 32 - 1) }

    ensures blocks { BLOCK_BYTES ≡ 512 }
    ensures shifts { (SHIFT_MIN ≡ 12) × (SHIFT_MAX ≡ 24) × (SHIFT_DEFAULT ≡ 22) }
    ensures object_bytes { (OBJECT_BYTES_MAX ≡ 16777216) × (OBJECT_BYTES_MAX ≡ 2 ^ SHIFT_MAX) }
    ensures objects { (OBJECTS_MAX ≡ 1048576) × (OBJECTS_MAX ≡ 2 ^ 20) }
    ensures sizes { (SIZE_MAX ≡ 17592186044416) × (SIZE_MAX ≡ OBJECTS_MAX * OBJECT_BYTES_MAX) }
    ensures ids { (VID_MAX ≡ 16777215) × (VID_MAX ≡ 2 ^ 24 - 1) }
    ensures names { NAME_BYTES_MAX ≡ 255 }

    ensures copies { COPIES_MAX ≡ 31 }
    ensures strips { (DATA_STRIPS_MAX ≡ 16) × (PARITY_MAX ≡ 15) × (DATA_STRIPS_MAX + PARITY_MAX ≡ COPIES_MAX) }
    ensures targets { (TARGETS_MAX ≡ 31) × (TARGETS_MAX ≡ COPIES_MAX) }
    ensures indexes { (INDEX_MAX ≡ 30) × (INDEX_MAX + 1 ≡ TARGETS_MAX) }

    ensures input { INPUT_BYTES_MAX ≡ 16777216 }
    ensures requests { (REQUESTS_MAX ≡ 10000) × (REQUESTS_AT_ONCE ≡ 16) }
    ensures lengths { (LENGTH_MAX ≡ 1048576) × (LENGTH_MAX ≡ 2048 * BLOCK_BYTES) }
    ensures reads { READ_BYTES_MAX ≡ 268435456 }
    ensures writes { WRITE_BYTES_MAX ≡ 67108864 }
    ensures tries { (TRIES_MAX ≡ 1000) × (TRIES_DEFAULT ≡ 8) }
    ensures events { (LIMIT_MAX ≡ 1000000) × (LIMIT_DEFAULT ≡ LIMIT_MAX) }
    ensures losses { LOSSES_MAX ≡ 10000 }
    ensures checks { CHECKS_MAX ≡ 4 }
{}

/// A disk that may be made has objects of no more bytes than any has, at least one, and no more than any disk has; and
/// it has no more bytes than any disk has.
pub fn sizes_within_limits()
    ensures object_bytes { (spec : VdiSpec) → IsSpec spec → 2 ^ spec.shift ≤ OBJECT_BYTES_MAX }
    ensures some_object { (spec : VdiSpec) → IsSpec spec → 1 ≤ objects_of spec }
    ensures objects { (spec : VdiSpec) → IsSpec spec → objects_of spec ≤ OBJECTS_MAX }
    ensures size { (spec : VdiSpec) → IsSpec spec → spec.size ≤ SIZE_MAX }
{}

/// The tests of equality that definitions choose by hold exactly of the same values.
pub fn sameness_is_decided()
    ensures policies { (one other : Policy) → IsTrue (is_same_policy one other) ↔ (one ≡ other) }
    ensures specs { (one other : VdiSpec) → IsTrue (is_same_spec one other) ↔ (one ≡ other) }
    ensures tags { (one other : Option (List ℕ)) → IsTrue (is_same_tag one other) ↔ (one ≡ other) }
    ensures origins { (one other : Origin) → IsTrue (is_same_origin one other) ↔ (one ≡ other) }
    ensures members { (one other : Member) → IsTrue (is_same_member one other) ↔ (one ≡ other) }
    ensures entries { (one other : Entry) → IsTrue (is_same_entry one other) ↔ (one ≡ other) }
{}

/// A read needs at least one node, no more than keep the object, and these are at most [`TARGETS_MAX`].
pub fn target_counts()
    ensures needs_one { (policy : Policy) (kind : Kind) → IsPolicy policy → 1 ≤ need_of policy kind }
    ensures needs_some_of_wanted { (policy : Policy) (kind : Kind) → IsPolicy policy
        → need_of policy kind ≤ wanted_of policy kind }
    ensures at_most { (policy : Policy) (kind : Kind) → IsPolicy policy → wanted_of policy kind ≤ TARGETS_MAX }
{}

/// What bytes are once a piece, or two, was laid over them.
pub fn laid_over_laws()
    ensures same_length { (bytes : List ℕ) (offset : ℕ) (piece : List ℕ) → offset + length piece ≤ length bytes
        → length (laid_over bytes offset piece) ≡ length bytes }
    ensures inside { (bytes : List ℕ) (offset : ℕ) (piece : List ℕ) (k : ℕ) → offset + length piece ≤ length bytes
        → k < length piece → slice_get (laid_over bytes offset piece) (offset + k) ≡ slice_get piece k }
    ensures outside { (bytes : List ℕ) (offset : ℕ) (piece : List ℕ) (k : ℕ) → offset + length piece ≤ length bytes
        → (k < offset) ⊎ (offset + length piece ≤ k) → slice_get (laid_over bytes offset piece) k ≡ slice_get bytes k }
    // The later of two pieces at one place stays.
    ensures twice { (bytes : List ℕ) (offset : ℕ) (piece later : List ℕ) → offset + length piece ≤ length bytes
        → length later ≡ length piece
        → laid_over (laid_over bytes offset piece) offset later ≡ laid_over bytes offset later }
    // Pieces that don't meet may be laid over in either order.
    ensures disjoint { (bytes : List ℕ) (offset : ℕ) (piece : List ℕ) (behind : ℕ) (other : List ℕ)
        → offset + length piece ≤ behind → behind + length other ≤ length bytes
        → laid_over (laid_over bytes offset piece) behind other ≡ laid_over (laid_over bytes behind other) offset piece }
{}

/// A number that is read, spelled again, is what stands there.
pub fn read_numbers_stand()
    ensures one { (bytes : List ℕ) (at : ℕ) → at < length bytes → Stands bytes at (at + 1) (u8_bytes (u8_at at bytes)) }
    ensures two { (bytes : List ℕ) (at : ℕ) → AreBytes bytes → at + 2 ≤ length bytes
        → Stands bytes at (at + 2) (u16_bytes (u16_at at bytes)) }
    ensures four { (bytes : List ℕ) (at : ℕ) → AreBytes bytes → at + 4 ≤ length bytes
        → Stands bytes at (at + 4) (u32_bytes (u32_at at bytes)) }
    ensures eight { (bytes : List ℕ) (at : ℕ) → AreBytes bytes → at + 8 ≤ length bytes
        → Stands bytes at (at + 8) (u64_bytes (u64_at at bytes)) }
    // The same of several, one after the other.
    ensures fours { (bytes : List ℕ) → AreBytes bytes → (count at : ℕ) → at + 4 * count ≤ length bytes
        → Stands bytes at (at + 4 * count) (numbers_bytes w32 (numbers_at w32 count at bytes)) }
    ensures eights { (bytes : List ℕ) → AreBytes bytes → (count at : ℕ) → at + 8 * count ≤ length bytes
        → Stands bytes at (at + 8 * count) (numbers_bytes w64 (numbers_at w64 count at bytes)) }
{}

/// A number that is read fits its width.
pub fn read_numbers_fit()
    ensures two { (bytes : List ℕ) (at : ℕ) → AreBytes bytes → u16_at at bytes < 2 ^ 16 }
    ensures four { (bytes : List ℕ) (at : ℕ) → AreBytes bytes → u32_at at bytes < 2 ^ 32 }
    ensures eight { (bytes : List ℕ) (at : ℕ) → AreBytes bytes → u64_at at bytes < 2 ^ 64 }
{}

/// Where a number is spelled, it is read.
pub fn spelled_numbers_are_read()
    ensures one { (bytes : List ℕ) (at to number : ℕ) → Stands bytes at to (u8_bytes number) → u8_at at bytes ≡ number }
    ensures two { (bytes : List ℕ) (at to number : ℕ) → number < 2 ^ 16 → Stands bytes at to (u16_bytes number)
        → u16_at at bytes ≡ number }
    ensures four { (bytes : List ℕ) (at to number : ℕ) → number < 2 ^ 32 → Stands bytes at to (u32_bytes number)
        → u32_at at bytes ≡ number }
    ensures eight { (bytes : List ℕ) (at to number : ℕ) → number < 2 ^ 64 → Stands bytes at to (u64_bytes number)
        → u64_at at bytes ≡ number }
    // The same of several, one after the other.
    ensures fours { (bytes numbers : List ℕ) (at to : ℕ) → AllByRecursion (λ n. n < 2 ^ 32) numbers
        → Stands bytes at to (numbers_bytes w32 numbers) → numbers_at w32 (length numbers) at bytes ≡ numbers }
    ensures eights { (bytes numbers : List ℕ) (at to : ℕ) → AllByRecursion (λ n. n < 2 ^ 64) numbers
        → Stands bytes at to (numbers_bytes w64 numbers) → numbers_at w64 (length numbers) at bytes ≡ numbers }
{}
