//! Lagrange's coefficients at points that are known only when decoding.

ghost use Rattle.std.specs.Prelude.{◌≡◌, ◌≢◌, ◌≤◌, length};
ghost use Rattle.std.specs.List.{All};
ghost use Rattle.gf256.specs.Strip.{basis, coefficients};

use crate::choice::MOST_DATA_STRIPS;
use gf256::{add, logarithm, power};

/// What the value at `point` counts for at `x`, where values at all these points are given. The product of
/// its factors is found by the sum of their logarithms.
fn coefficient(points: &[u8], point: u8, x: u8) -> u8
    requires most { length points.now ≤ MOST_DATA_STRIPS }
    requires apart { All (λ other. other ≢ x) points.now }
    ensures { result ≡ basis points.now point x }
{
    let mut exponent = 0;
    for other in points {
        if *other != point {
            exponent += logarithm(add(x, *other)) + 255 - logarithm(add(point, *other));
        }
    }
    power(exponent)
}

/// Writes what the value at each point counts for at `x`, which is none of the points.
pub fn fill_row(points: &[u8], x: u8, row: &mut [u8])
    requires most { length points.now ≤ MOST_DATA_STRIPS }
    requires apart { All (λ other. other ≢ x) points.now }
    requires room { length row.old ≡ length points.now }
    ensures { row.new ≡ coefficients points.now points.now x }
{
    for (m, point) in points.iter().enumerate() {
        row[m] = coefficient(points, *point, x);
    }
}
