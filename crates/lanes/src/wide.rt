//! Steps of eight numbers of 32 bits.

ghost use Rattle.std.specs.Prelude.{◌≡◌, ◌<◌, ◌+◌, ◌*◌, ◌^◌, ℕ, pos, ◌+ℤ◌, unsigned_abs};
ghost use Rattle.std.specs.Int.{int_rem_euclid};
ghost use Rattle.lanes.specs.Lanes.{lane, held, pair_sum, halved};

use crate::widths::{hold, products};
use std::simd::prelude::*;

/// Returns sums of two neighbouring products: in lane k that of lanes 2k and 2k + 1, exact wherever it fits in 32 bits.
#[inline(always)]
pub fn pair_sums(a: i16x16, b: i16x16) -> i32x8
    ensures { (k : ℕ) → k < 8 → unsigned_abs (pair_sum a b k) < 2 ^ 31 → lane result k ≡ pair_sum a b k }
{
    let all = products(a, b);
    sum(evens(all), odds(all))
}

/// Returns every second lane, from the first on.
#[inline(always)]
fn evens(a: i32x16) -> i32x8
    ensures { (k : ℕ) → k < 8 → lane result k ≡ lane a (2 * k) }
{
    a.swizzle([0, 2, 4, 6, 8, 10, 12, 14])
}

/// Returns every second lane, from the second on.
#[inline(always)]
fn odds(a: i32x16) -> i32x8
    ensures { (k : ℕ) → k < 8 → lane result k ≡ lane a (2 * k + 1) }
{
    a.swizzle([1, 3, 5, 7, 9, 11, 13, 15])
}

/// Returns the sum of each two lanes, exact wherever it fits in 32 bits.
#[inline(always)]
pub fn sum(a: i32x8, b: i32x8) -> i32x8
    ensures { (k : ℕ) → k < 8 → unsigned_abs (lane a k +ℤ lane b k) < 2 ^ 31 → lane result k ≡ lane a k +ℤ lane b k }
{
    a + b
}

/// Returns each number divided by 2^by and rounded down; `by` is 0 to 31.
#[inline(always)]
pub fn shifted(a: i32x8, by: u32) -> i32x8
    requires { by < 32 }
    ensures { (k : ℕ) → k < 8 → lane result k ≡ halved (lane a k) by }
{
    a >> by as i32
}

/// Returns the lowest `by` bits of each number, which are what division by 2^by leaves over; `by` is 0 to 30.
#[inline(always)]
pub fn masked(a: i32x8, by: u32) -> i32x8
    requires { by < 31 }
    ensures { (k : ℕ) → k < 8 → lane result k ≡ int_rem_euclid (lane a k) (pos (2 ^ by)) }
{
    a & i32x8::splat((1 << by) - 1)
}

/// Returns each number, or the nearest number of 16 bits where it lies beyond them.
#[inline(always)]
pub fn held(a: i32x8) -> i16x8
    ensures { (k : ℕ) → k < 8 → lane result k ≡ held (lane a k) }
{
    hold(a)
}
