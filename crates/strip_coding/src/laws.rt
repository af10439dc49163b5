//! Laws of the definitions, for the proofs of the layers above: each is the contract of a function that does nothing.

ghost use Rattle.std.specs.Prelude.{◌≡◌, ◌≢◌, ◌<◌, slice_index, Contains, ℕ, List, length, map, flat_map};
ghost use Rattle.std.specs.List.{All, range_with_len};
ghost use Rattle.gf256.specs.Polynomial.{ArePoints};
ghost use Rattle.gf256.specs.Strip.{strip};
ghost use Rattle.strip_coding.specs.Choice.{distinct_places, HasStrips};

/// Which strips decoding takes: for each of the distinct indexes that which stands first.
pub fn choice_laws()
    ensures first { (indexes : List ℕ) → All (λ place. (k : ℕ) → k < place
        → slice_index indexes k ≢ slice_index indexes place) (distinct_places indexes) }
    ensures complete { (indexes : List ℕ)
        → All (Contains (map (slice_index indexes) (distinct_places indexes))) indexes }
    // of indexes that all differ, all
    ensures all_differ { (indexes : List ℕ) → ArePoints indexes
        → distinct_places indexes ≡ range_with_len 0 (length indexes) }
    // a block has its own strips, at any indexes
    ensures own_strips { (d : ℕ) (indexes block : List ℕ)
        → HasStrips d indexes (flat_map (strip d block) indexes) block }
{}
