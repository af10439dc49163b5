ghost use Rattle.std.specs.Prelude.{◌≡◌, ℕ, ◌==◌, slice_index_or, ◌<◌, ◌≤◌, not, filter, length, take, drop, ◌∷◌, ◌++◌, vec_len};
ghost use Rattle.std.specs.Prelude.{vec_capacity};
ghost use Rattle.std.specs.List.{list_any};
ghost use Rattle.std.specs.List.Sorted.{IsNonDecreasing, IsStrictlyIncreasing};
ghost use Rattle.vdi_directory.specs.Effects.{ids_with};

use object_id::Vid;

/// The place behind the ids that aren't above this one.
fn place_of(live: &[u32], vid: u32) -> usize
    requires { IsNonDecreasing live.now }
    ensures within { result ≤ length live.now }
    ensures place { ids_with vid live.now ≡ take result live.now ++ vid ∷ drop result live.now }
    ensures before { (k d : ℕ) → k < result → slice_index_or live.now k d ≤ vid }
    ensures behind { (k d : ℕ) → result ≤ k → k < length live.now → vid < slice_index_or live.now k d }
{
    live.partition_point(|other| *other <= vid)
}

/// Whether an id is there.
pub fn has_id(live: &[u32], vid: Vid) -> bool
    requires { IsNonDecreasing live.now }
    ensures { result ≡ list_any (λ other. other == vid.0) live.now }
{
    let place = place_of(live, vid.0);
    0 < place && live[place - 1] == vid.0
}

/// Adds an id, for which there is room, in its place.
pub fn add_id(live: &mut Vec<u32>, vid: Vid)
    requires sorted { IsNonDecreasing live.old.items }
    requires room { vec_len live.old < vec_capacity live.old }
    ensures { live.new.items ≡ ids_with vid.0 live.old.items }
{
    let place = place_of(live.as_slice(), vid.0);
    // There is room, so this can't fail.
    let _ = live.insert(place, vid.0);
}

/// Takes an id out, if it is there.
pub fn drop_id(live: &mut Vec<u32>, vid: Vid)
    requires { IsStrictlyIncreasing live.old.items }
    ensures { live.new.items ≡ filter (λ other. not (other == vid.0)) live.old.items }
{
    let place = place_of(live.as_slice(), vid.0);
    if has_id(live.as_slice(), vid) {
        live.remove(place - 1);
    }
}
