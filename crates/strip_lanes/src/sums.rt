//! Sums of multiples of strips, 32 bytes at a time.

ghost use Rattle.std.specs.Prelude.{◌≡◌, ℕ, ◌+◌, ◌*◌, ◌<◌, ◌≤◌, length, slice_index};
ghost use Rattle.std.specs.List.{All};
ghost use Rattle.strip_coding.specs.Sums.{sum_at};
ghost use Rattle.strip_lanes.specs.Lanes.{HasLanes, IsSummed};

use crate::lanes::{LANES, lanes_at, products};
use gf256::{add, mul};
use std::simd::prelude::*;
use strip_coding::StripSums;

/// Sums that are made by lanes: 32 bytes at a time, and byte by byte what is left of a strip.
pub struct ByLanes;

impl StripSums for ByLanes {
    fn combine(coefficients: &[u8], places: &[usize], strips: &[u8], sum: &mut [u8]) {
        let width = sum.len();
        let turns = width / LANES;
        for turn in 0..turns {
            let at = turn * LANES;
            let total = sum_of_lanes(coefficients, places, strips, width, at);
            total.copy_to_slice(&mut sum[at..]);
        }
        put_rest(coefficients, places, strips, sum, turns * LANES);
    }
}

/// The sum of multiples of the strips' 32 bytes from a place on. It is kept in a vector until it is whole.
#[inline(always)]
fn sum_of_lanes(
    coefficients: &[u8],
    places: &[usize],
    strips: &[u8],
    width: usize,
    at: usize,
) -> u8x32
    requires both { length coefficients.now ≡ length places.now }
    requires within { All (λ place. (place + 1) * width ≤ length strips.now) places.now }
    requires at { at + 32 ≤ width }
    ensures { HasLanes result (λ k. sum_at coefficients.now places.now strips.now width (at + k)) }
{
    let mut total = u8x32::splat(0);
    for (m, coefficient) in coefficients.iter().enumerate() {
        let bytes = lanes_at(strips, places[m] * width + at);
        total = total ^ products(*coefficient, bytes);
    }
    total
}

/// Writes the sum from a place on, byte by byte.
fn put_rest(coefficients: &[u8], places: &[usize], strips: &[u8], sum: &mut [u8], from: usize)
    requires both { length coefficients.now ≡ length places.now }
    requires within { All (λ place. (place + 1) * length sum.old ≤ length strips.now) places.now }
    ensures { IsSummed (sum_at coefficients.now places.now strips.now (length sum.old)) sum.old sum.new from (length sum.old) }
{
    let width = sum.len();
    for at in from..width {
        sum[at] = sum_of_bytes(coefficients, places, strips, width, at);
    }
}

/// The sum of multiples of the strips' bytes at a place.
fn sum_of_bytes(coefficients: &[u8], places: &[usize], strips: &[u8], width: usize, at: usize) -> u8
    requires both { length coefficients.now ≡ length places.now }
    requires within { All (λ place. (place + 1) * width ≤ length strips.now) places.now }
    requires at { at < width }
    ensures { result ≡ sum_at coefficients.now places.now strips.now width at }
{
    let mut total = 0;
    for (m, coefficient) in coefficients.iter().enumerate() {
        total = add(total, mul(*coefficient, strips[places[m] * width + at]));
    }
    total
}
