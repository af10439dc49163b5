ghost use Rattle.std.specs.Prelude.{◌≡◌, ◌<◌, ◌≤◌, ◌+◌, ◌++◌, false, take, drop, slice_index_or, vec_len, vec_capacity};
ghost use Rattle.vdi_directory.specs.declared.vid_range.VidRange.{VidRange};
ghost use Rattle.vdi_directory.specs.Vids.{is_in, ranges_with, with_vid, AreRanges};

use crate::vid_range::{VidRange, place_of};
use object_id::{VID_MAX, Vid};

/// Adds the id behind a range to it, and joins it with the next one where they touch then.
fn extend(used: &mut Vec<VidRange>, place: usize, vid: u32)
    requires within { place < vec_len used.old }
    requires vid { vid ≤ VID_MAX }
    ensures { (d : VidRange) → used.new.items ≡ take place used.old.items
        ++ ranges_with (slice_index_or used.old.items place d).first vid (drop (place + 1) used.old.items) }
{
    let first = used[place].first;
    if place + 1 < used.len() && used[place + 1].first == vid + 1 {
        let last = used.remove(place + 1).last;
        used[place] = VidRange { first, last };
    } else {
        used[place] = VidRange { first, last: vid };
    }
}

/// Adds an id that touches no range before it, for which there is room, and joins it with the next one where they touch.
fn insert(used: &mut Vec<VidRange>, place: usize, vid: u32)
    requires within { place ≤ vec_len used.old }
    requires vid { vid ≤ VID_MAX }
    requires room { vec_len used.old < vec_capacity used.old }
    ensures { used.new.items ≡ take place used.old.items ++ ranges_with vid vid (drop place used.old.items) }
{
    if place < used.len() && used[place].first == vid + 1 {
        let last = used[place].last;
        used[place] = VidRange { first: vid, last };
    } else {
        let range = VidRange {
            first: vid,
            last: vid,
        };
        // There is room, so this can't fail.
        let _ = used.insert(place, range);
    }
}

/// Adds an id, for which there is room, to the used ones.
pub fn add_used(used: &mut Vec<VidRange>, vid: Vid)
    requires ranges { AreRanges used.old.items }
    requires vid { (1 ≤ vid.0) × (vid.0 ≤ VID_MAX) }
    requires unused { is_in used.old.items vid.0 ≡ false }
    requires room { vec_len used.old < vec_capacity used.old }
    ensures { used.new.items ≡ with_vid vid.0 used.old.items }
{
    let place = place_of(used.as_slice(), vid.0);
    if 0 < place && used[place - 1].last + 1 == vid.0 {
        extend(used, place - 1, vid.0);
    } else {
        insert(used, place, vid.0);
    }
}
