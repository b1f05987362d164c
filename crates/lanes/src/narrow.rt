//! Steps of eight or sixteen numbers of 16 bits.

ghost use Rattle.std.specs.Prelude.{◌≡◌, ◌<◌, ◌≤◌, ◌+◌, ◌-◌, ◌*◌, ◌^◌, ℕ, pos, negsuc, ◌+ℤ◌, ◌-ℤ◌, ◌*ℤ◌, unsigned_abs, int_lt, if◌then◌else◌};
ghost use Rattle.std.specs.Int.{int_min, int_max};
ghost use Rattle.lanes.specs.Lanes.{lane, held, halved};

use crate::widths::{differences, hold};
use std::simd::prelude::*;

/// Returns `yes` in each lane where `a` is greater than `b`, and `no` in the others.
#[inline(always)]
pub fn where_greater(a: i16x8, b: i16x8, yes: i16, no: i16) -> i16x8
    ensures { (k : ℕ) → k < 8 → lane result k ≡ (if int_lt (lane b k) (lane a k) then yes else no) }
{
    a.simd_gt(b).select(i16x8::splat(yes), i16x8::splat(no))
}

/// Puts the lanes of two vectors side by side: lane k of `first` becomes lane 2k, and that of `second` lane 2k + 1.
#[inline(always)]
pub fn paired(first: i16x8, second: i16x8) -> i16x16
    ensures even { (k : ℕ) → k < 8 → lane result (2 * k) ≡ lane first k }
    ensures odd { (k : ℕ) → k < 8 → lane result (2 * k + 1) ≡ lane second k }
{
    first.shuffle(
        second,
        [0, 8, 1, 9, 2, 10, 3, 11, 4, 12, 5, 13, 6, 14, 7, 15],
    )
}

/// Returns each number as it is where the mask is 0, and with all bits flipped, which makes -1 - a of a, where the mask is -1.
#[inline(always)]
pub fn flipped(a: i16x16, mask: i16x16) -> i16x16
    ensures kept { (k : ℕ) → k < 16 → lane mask k ≡ pos 0 → lane result k ≡ lane a k }
    ensures turned { (k : ℕ) → k < 16 → lane mask k ≡ negsuc 0 → lane result k ≡ negsuc 0 -ℤ lane a k }
{
    a ^ mask
}

/// Returns the sum of each two lanes, exact wherever it fits in 16 bits.
#[inline(always)]
pub fn sum(a: i16x16, b: i16x16) -> i16x16
    ensures { (k : ℕ) → k < 16 → unsigned_abs (lane a k +ℤ lane b k) < 2 ^ 15 → lane result k ≡ lane a k +ℤ lane b k }
{
    a + b
}

/// Returns the product of each two lanes, exact wherever it fits in 16 bits.
#[inline(always)]
pub fn product(a: i16x16, b: i16x16) -> i16x16
    ensures { (k : ℕ) → k < 16 → unsigned_abs (lane a k *ℤ lane b k) < 2 ^ 15 → lane result k ≡ lane a k *ℤ lane b k }
{
    a * b
}

/// Returns each number divided by 2^by and rounded down; `by` is 0 to 15.
#[inline(always)]
pub fn shifted(a: i16x16, by: u32) -> i16x16
    requires { by < 16 }
    ensures { (k : ℕ) → k < 16 → lane result k ≡ halved (lane a k) by }
{
    a >> by as i16
}

/// Returns the difference of each two lanes, or the nearest number of 16 bits where it lies beyond them.
#[inline(always)]
pub fn held_difference(a: i16x16, b: i16x16) -> i16x16
    ensures { (k : ℕ) → k < 16 → lane result k ≡ held (lane a k -ℤ lane b k) }
{
    hold(differences(a, b))
}

/// Returns each number, or the limit that it lies beyond; where `least` is above `most`, `least` in every lane.
#[inline(always)]
pub fn within(a: i16x16, least: i16, most: i16) -> i16x16
    ensures { (k : ℕ) → k < 16 → lane result k ≡ int_max least (int_min (lane a k) most) }
{
    a.simd_min(i16x16::splat(most))
        .simd_max(i16x16::splat(least))
}

/// Moves the lanes of `second` up by `by`, 1 to 7, and puts the last lanes of `first` before them: lane k is lane 8 - `by` + k of the two
/// side by side.
#[inline(always)]
pub fn moved(first: i16x8, second: i16x8, by: usize) -> i16x8
    requires { (1 ≤ by) × (by ≤ 7) }
    ensures first { (k : ℕ) → k < by → lane result k ≡ lane first (8 + k - by) }
    ensures second { (k : ℕ) → by ≤ k → k < 8 → lane result k ≡ lane second (k - by) }
{
    match by {
        1 => first.shuffle(second, [7, 8, 9, 10, 11, 12, 13, 14]),
        2 => first.shuffle(second, [6, 7, 8, 9, 10, 11, 12, 13]),
        3 => first.shuffle(second, [5, 6, 7, 8, 9, 10, 11, 12]),
        4 => first.shuffle(second, [4, 5, 6, 7, 8, 9, 10, 11]),
        5 => first.shuffle(second, [3, 4, 5, 6, 7, 8, 9, 10]),
        6 => first.shuffle(second, [2, 3, 4, 5, 6, 7, 8, 9]),
        _ => first.shuffle(second, [1, 2, 3, 4, 5, 6, 7, 8]),
    }
}

/// Returns the numbers of a row as a vector.
#[inline(always)]
pub fn vector_of(row: &[i16; 8]) -> i16x8
    ensures { result ≡ row.now }
{
    let row = copied(row);
    i16x8::from_array(row)
}

/// Returns the lanes of a vector as a row.
#[inline(always)]
pub fn row_of(vector: i16x8) -> [i16; 8]
    ensures { result ≡ vector }
{
    vector.to_array()
}

/// Returns a copy of a row.
#[inline(always)]
fn copied(row: &[i16; 8]) -> [i16; 8]
    ensures { result ≡ row.now }
{
    *row
}
