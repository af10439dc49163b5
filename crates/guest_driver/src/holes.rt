//! Holes in a disk's table.

ghost use Rattle.std.specs.Prelude.{◌≡◌, ◌≢◌, ℕ, ◌<◌, ◌≤◌, length, slice_index};

/// The index of the first object from one index on and before another that isn't a hole, or else the other.
pub(crate) fn next_object(entries: &[u32], from: u32, end: u32) -> u32
    requires ordered { from ≤ end }
    requires inside { end ≤ length entries.now }
    ensures within { (from ≤ result) × (result ≤ end) }
    ensures holes { (k : ℕ) → from ≤ k → k < result → slice_index entries.now k ≡ 0 }
    ensures object { result < end → slice_index entries.now result ≢ 0 }
{
    for index in from..end {
        if entries[index as usize] != 0 {
            return index;
        }
    }
    end
}
