//! The strips that a block is decoded from.

ghost use Rattle.std.specs.Prelude.{◌≡◌, ◌↔◌, ◌<◌, ◌≤◌, IfOk, IsErr, length, map, take, slice_index};
ghost use Rattle.strip_coding.specs.Choice.{distinct_places, chosen_places};

use gf256::TooFewStrips;
use object_id::DATA_STRIPS_MAX;

/// The most data strips that a block has, as a length of arrays.
pub const MOST_DATA_STRIPS: usize = DATA_STRIPS_MAX as usize;

/// The first distinct indexes, up to the number of data strips, and the places at which they stand.
#[derive(Clone, Copy)]
pub struct Choice {
    pub points: [u8; MOST_DATA_STRIPS],
    pub places: [usize; MOST_DATA_STRIPS],
}

/// Chooses the strips of the first `d` distinct indexes.
pub fn choose(d: usize, indexes: &[u8]) -> Result<Choice, TooFewStrips>
    requires some { 0 < d }
    requires most { d ≤ MOST_DATA_STRIPS }
    ensures few { IsErr result ↔ (length (distinct_places indexes.now) < d) }
    ensures places { IfOk result (λ choice. take d choice.places ≡ chosen_places d indexes.now) }
    ensures points { IfOk result
        (λ choice. take d choice.points ≡ map (slice_index indexes.now) (chosen_places d indexes.now)) }
{
    let mut points = [0; MOST_DATA_STRIPS];
    let mut places = [0; MOST_DATA_STRIPS];
    let mut count = 0;
    for (place, index) in indexes.iter().enumerate() {
        if !points[..count].contains(index) {
            points[count] = *index;
            places[count] = place;
            count += 1;
            if count == d {
                return Ok(Choice { points, places });
            }
        }
    }
    Err(TooFewStrips)
}
