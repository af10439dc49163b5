//! Sums of multiples of strips: what they are, and the plain way to make them.

ghost use Rattle.std.specs.Prelude.{◌≡◌, ℕ, ◌+◌, ◌*◌, ◌<◌, ◌≤◌, length, slice_index};
ghost use Rattle.std.specs.List.{All};
ghost use Rattle.gf256.specs.Field.{plus, times};
ghost use Rattle.strip_coding.specs.Sums.{sum_at};

use gf256::{add, mul};

/// How sums of multiples of strips are made.
pub trait StripSums {
    /// The sum of the strips that stand at some places, each by its coefficient.
    fn combine(coefficients: &[u8], places: &[usize], strips: &[u8], sum: &mut [u8])
        requires both { length coefficients.now ≡ length places.now }
        requires within { All (λ place. (place + 1) * length sum.old ≤ length strips.now) places.now }
        ensures { (k : ℕ) → k < length sum.old → slice_index sum.new k ≡
            sum_at coefficients.now places.now strips.now (length sum.old) k };
}

/// Sums that are made byte by byte.
pub struct ByteByByte;

impl StripSums for ByteByByte {
    fn combine(coefficients: &[u8], places: &[usize], strips: &[u8], sum: &mut [u8]) {
        sum.fill(0);
        for (m, coefficient) in coefficients.iter().enumerate() {
            let start = places[m] * sum.len();
            add_multiple(*coefficient, &strips[start..start + sum.len()], sum);
        }
    }
}

/// Adds a multiple of a piece to a sum.
fn add_multiple(coefficient: u8, piece: &[u8], sum: &mut [u8])
    requires { length piece.now ≡ length sum.old }
    ensures { (k : ℕ) → k < length sum.old →
        slice_index sum.new k ≡ plus (slice_index sum.old k) (times coefficient (slice_index piece.now k)) }
{
    for k in 0..sum.len() {
        sum[k] = add(sum[k], mul(coefficient, piece[k]));
    }
}
