ghost use Rattle.std.specs.Prelude.{◌≡◌, ℕ, ◌<◌, ◌≤◌, length, slice_index_or};
ghost use Rattle.object_id.specs.Hash.{own_vid};
ghost use Rattle.vdi_directory.specs.declared.vid_range.VidRange.{VidRange};
ghost use Rattle.vdi_directory.specs.Vids.{free_id, as_vid, is_in, AreRanges};

use object_id::{VID_MAX, Vid, fnv1a};

/// The ids from `first` to `last`.
#[derive(Clone, Copy, Debug, PartialEq, Eq)]
pub struct VidRange {
    pub first: u32,
    pub last: u32,
}

/// Every id is used.
#[derive(Clone, Copy, Debug, PartialEq, Eq)]
pub struct FullVdi;

/// The id that a name's hash gives.
fn own_vid(name: &[u8]) -> u32
    ensures value { result ≡ own_vid name.now }
    ensures first { 1 ≤ result }
    ensures last { result ≤ VID_MAX }
{
    let low = (fnv1a(name) & 0xff_ffff) as u32;
    if low == 0 { 1 } else { low }
}

/// The place of the first range that ends at the id or behind it.
pub fn place_of(ranges: &[VidRange], vid: u32) -> usize
    requires { AreRanges ranges.now }
    ensures within { result ≤ length ranges.now }
    ensures before { (k : ℕ) (d : VidRange) → k < result → (slice_index_or ranges.now k d).last < vid }
    ensures behind { (k : ℕ) (d : VidRange) → result ≤ k → k < length ranges.now → vid ≤ (slice_index_or ranges.now k d).last }
{
    ranges.partition_point(|range| range.last < vid)
}

/// The id of a new disk of this name: the low 24 bits of the name's hash, or the next id that is not used, where the
/// first follows on the last and 0 is none. Takes no memory, and costs the logarithm of the ranges.
pub fn free_vid(name: &[u8], used: &[VidRange]) -> Result<Vid, FullVdi>
    requires { AreRanges used.now }
    ensures { result ≡ as_vid (free_id name.now (is_in used.now)) }
{
    let own = own_vid(name);
    let place = place_of(used, own);
    if place == used.len() || own < used[place].first {
        return Ok(Vid(own));
    }
    if used[place].last < VID_MAX {
        return Ok(Vid(used[place].last + 1));
    }
    // Every id from there to the last is used: the search goes on with the first one.
    if 1 < used[0].first {
        return Ok(Vid(1));
    }
    if used[0].last < VID_MAX {
        Ok(Vid(used[0].last + 1))
    } else {
        Err(FullVdi)
    }
}
