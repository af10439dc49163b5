//! Laws of the definitions, for the proofs of the layers above: each is the contract of a function that does nothing.
ghost use Rattle.std.specs.Prelude.{◌≡◌, ◌↔◌, ℕ, ◌+◌, ◌^◌, ◌<◌, ◌≤◌, ◌==◌, false, List, [], ◌∷◌, ◌++◌, length, map};
ghost use Rattle.std.specs.Prelude.{flat_map, count_by, slice_index, All, Some, is_some};
ghost use Rattle.std.specs.List.{range_with_len};
ghost use Rattle.std.specs.List.Sorted.{IsStrictlyIncreasing};
ghost use Rattle.object_id.specs.declared.oid.Kind.TheVariants.{Block};
ghost use Rattle.object_id.specs.declared.policy.Policy.{Policy};
ghost use Rattle.object_id.specs.declared.policy.Policy.TheVariants.{Copies};
ghost use Rattle.object_id.specs.Policy.{IsPolicy, wanted_of};
ghost use Rattle.object_id.specs.Fields.{AreBytes};
ghost use Rattle.gf256.specs.Part.{IsAligned, part, index_at};
ghost use Rattle.inode.specs.Layout.{Content};
ghost use Rattle.peer_proto.specs.Work.{IsWork};
ghost use Rattle.object_id.specs.declared.entry.VdiSpec.{VdiSpec};
ghost use Rattle.object_id.specs.Spec.{IsSpec};
ghost use Rattle.disk_check.specs.declared.act.CheckAct.TheVariants.{Reply};
ghost use Rattle.disk_check.specs.Table.{own_indexes, inherited_count};
ghost use Rattle.disk_check.specs.Value.{all_bytes, pieces_in, value_of, differ};
ghost use Rattle.disk_check.specs.Check.{Check, begun_check, read_copies, write_value, begin_check, check_on_done, check_bytes_wanted};
ghost use Rattle.disk_check.specs.Course.{check_acts_from, object_acts, object_answers, differed_among, findings};

/// How a check goes: each own object, in the order of the table, is read from all targets and the value of what they gave is
/// written over it, once; then the check tells what it found.
pub fn a_check_goes_by_its_own_objects()
    ensures { (inode : Content) (given : ℕ → List ℕ)
        → check_acts_from (Some (begin_check inode)) (flat_map (object_answers given) (own_indexes inode))
        ≡ flat_map (object_acts inode given) (own_indexes inode) ++ Reply (findings inode given) ∷ [] }
{}

/// The own objects are those whose entry is the disk's id, by ascending index, and there are as many as such entries. Every
/// other entry is 0 or counts as inherited.
pub fn own_objects_are_those_of_the_table()
    ensures own { (inode : Content)
        → All (λ index. (index < length inode.table) × (slice_index inode.table index ≡ inode.vid)) (own_indexes inode) }
    ensures ascending { (inode : Content) → IsStrictlyIncreasing (own_indexes inode) }
    ensures count { (inode : Content) → length (own_indexes inode) ≡ count_by (λ entry. entry == inode.vid) inode.table }
    ensures all { (inode : Content) → 1 ≤ inode.vid
        → count_by (λ entry. entry == 0) inode.table + length (own_indexes inode) + inherited_count inode ≡ length inode.table }
{}

/// The objects that a check tells as differing are told by ascending id.
pub fn objects_that_differ_ascend()
    ensures { (inode : Content) (given : ℕ → List ℕ) → IsStrictlyIncreasing (differed_among inode given (own_indexes inode)) }
{}

/// Where all targets keep their parts of the same bytes, these are the object's value, and no piece differs.
pub fn pieces_of_one_value_agree()
    ensures value { (policy : Policy) (bytes : List ℕ) → IsPolicy policy → AreBytes bytes → IsAligned policy Block (length bytes)
        → value_of policy (map (λ place. part policy Block (index_at policy Block place) bytes) (range_with_len 0 (wanted_of policy Block)))
        ≡ bytes }
    ensures agree { (policy : Policy) (bytes : List ℕ) → IsPolicy policy → AreBytes bytes → IsAligned policy Block (length bytes)
        → differ policy (map (λ place. part policy Block (index_at policy Block place) bytes) (range_with_len 0 (wanted_of policy Block)))
        ≡ false }
{}

/// Of whole copies the first is the value, and they differ exactly where one isn't the first.
pub fn copies_are_compared_with_the_first()
    ensures value { (copies : ℕ) (first : List ℕ) (others : List (List ℕ)) → value_of (Copies copies) (first ∷ others) ≡ first }
    ensures differ { (copies : ℕ) (first : List ℕ) (others : List (List ℕ))
        → (differ (Copies copies) (first ∷ others) ≡ false) ↔ All (λ (piece : List ℕ). piece ≡ first) others }
{}

/// What a check begins is a work that a gateway takes: each own object is read whole, and where its targets gave as many bytes
/// as they keep, the value is as long as the object.
pub fn a_check_begins_works()
    ensures read { (inode : Content) (index : ℕ) → IsSpec inode.spec → IsWork (read_copies (begun_check inode) index) }
    ensures length { (spec : VdiSpec) (bytes : List ℕ) → IsSpec spec → length bytes ≡ all_bytes spec
        → length (value_of spec.policy (pieces_in spec bytes)) ≡ 2 ^ spec.shift }
    ensures write { (inode : Content) (index : ℕ) (value : List ℕ) → IsSpec inode.spec → length value ≡ 2 ^ inode.spec.shift
        → IsWork (write_value (begun_check inode) index value) }
{}

/// A check goes on exactly where it waits for a work.
pub fn a_check_waits_for_works()
    ensures { (bytes : List ℕ) (check : Check) → is_some (check_on_done bytes check) ≡ is_some (check_bytes_wanted check) }
{}
