//! Products of 32 bytes at once. A byte is the sum of what its low half and its high half are alone, so its product with an
//! element is the sum of two products, and each of these stands in the element's row of a table, at the half's place.

ghost use Rattle.std.specs.Prelude.{◌≡◌, ◌+◌, ◌*◌, ◌/◌, ◌%◌, ◌≤◌, length, slice_index};
ghost use Rattle.gf256.specs.Field.{times};
ghost use Rattle.strip_lanes.specs.Lanes.{HasLanes};

use crate::high_products::HIGH_PRODUCTS;
use crate::low_products::LOW_PRODUCTS;
use std::simd::prelude::*;

/// How many bytes a vector has.
pub const LANES: usize = 32;

/// How many bytes a row of a table has.
const ROW: usize = 16;

/// The bytes from a place on.
#[inline(always)]
pub fn lanes_at(bytes: &[u8], at: usize) -> u8x32
    requires { at + 32 ≤ length bytes.now }
    ensures { HasLanes result (λ k. slice_index bytes.now (at + k)) }
{
    u8x32::from_slice(&bytes[at..])
}

/// An element's row of a table, twice.
#[inline(always)]
fn row(table: &[u8], element: u8) -> u8x32
    requires { length table.now ≡ 4096 }
    ensures { HasLanes result (λ k. slice_index table.now (element * 16 + k % 16)) }
{
    u8x16::from_slice(&table[element as usize * ROW..]).swizzle([
        0, 1, 2, 3, 4, 5, 6, 7, 8, 9, 10, 11, 12, 13, 14, 15, 0, 1, 2, 3, 4, 5, 6, 7, 8, 9, 10, 11,
        12, 13, 14, 15,
    ])
}

/// The products of an element with the low halves of some bytes.
#[inline(always)]
fn by_low_halves(element: u8, bytes: u8x32) -> u8x32
    requires { length bytes ≡ 32 }
    ensures { HasLanes result (λ k. times element (slice_index bytes k % 16)) }
{
    row(&LOW_PRODUCTS, element).swizzle_dyn_within::<16>(bytes & u8x32::splat(15))
}

/// The products of an element with the high halves of some bytes.
#[inline(always)]
fn by_high_halves(element: u8, bytes: u8x32) -> u8x32
    requires { length bytes ≡ 32 }
    ensures { HasLanes result (λ k. times element (slice_index bytes k / 16 * 16)) }
{
    row(&HIGH_PRODUCTS, element).swizzle_dyn_within::<16>(bytes >> u8x32::splat(4))
}

/// The products of an element with some bytes.
#[inline(always)]
pub fn products(element: u8, bytes: u8x32) -> u8x32
    requires { length bytes ≡ 32 }
    ensures { HasLanes result (λ k. times element (slice_index bytes k)) }
{
    by_low_halves(element, bytes) ^ by_high_halves(element, bytes)
}
