//! Steps of four numbers of 32 bits, and of 64 bits, which their products need.

ghost use Rattle.std.specs.Prelude.{◌≡◌, ◌<◌, ◌^◌, ℕ, pos, negsuc, ◌+ℤ◌, ◌-ℤ◌, ◌*ℤ◌, unsigned_abs, int_lt, if◌then◌else◌};
ghost use Rattle.std.specs.Int.{int_min, int_max};
ghost use Rattle.lanes.specs.Lanes.{lane, halved};

use std::simd::prelude::*;

/// Returns the numbers of a row.
///
/// It is one load. Of an array that is read as a whole clang makes four numbers, and with them four of all that follows.
#[inline(always)]
pub fn numbers(row: &[i32; 4]) -> i32x4
    ensures { result ≡ row.now }
{
    // What it says of the row's numbers is all that this is for.
    let _same = whole(row);
    i32x4::from_slice(row)
}

/// Returns a row.
#[inline(always)]
fn whole(row: &[i32; 4]) -> [i32; 4]
    ensures { result ≡ row.now }
{
    *row
}

/// Writes the numbers of a row, by one store.
#[inline(always)]
pub fn put(numbers: i32x4, row: &mut [i32; 4])
    ensures { row.new ≡ numbers }
{
    numbers.copy_to_slice(row);
}

/// Returns the product of each two lanes, which 64 bits hold.
#[inline(always)]
pub fn long_products(a: i32x4, b: i32x4) -> i64x4
    ensures { (k : ℕ) → k < 4 → lane result k ≡ lane a k *ℤ lane b k }
{
    a.cast::<i64>() * b.cast::<i64>()
}

/// Returns the sum of each two lanes of 64 bits, exact wherever it fits in 64 bits.
#[inline(always)]
pub fn long_sum(a: i64x4, b: i64x4) -> i64x4
    ensures { (k : ℕ) → k < 4 → unsigned_abs (lane a k +ℤ lane b k) < 2 ^ 63 → lane result k ≡ lane a k +ℤ lane b k }
{
    a + b
}

/// Returns numbers of 64 bits divided by 2^by and rounded down; `by` is 0 to 63, and 32 bits hold each quotient.
#[inline(always)]
pub fn quotients(a: i64x4, by: u32) -> i32x4
    requires by { by < 64 }
    requires fit { (k : ℕ) → k < 4 → unsigned_abs (halved (lane a k) by) < 2 ^ 31 }
    ensures { (k : ℕ) → k < 4 → lane result k ≡ halved (lane a k) by }
{
    shortened(long_shifted(a, by))
}

/// Returns each number of 64 bits divided by 2^by and rounded down; `by` is 0 to 63.
#[inline(always)]
fn long_shifted(a: i64x4, by: u32) -> i64x4
    requires { by < 64 }
    ensures { (k : ℕ) → k < 4 → lane result k ≡ halved (lane a k) by }
{
    a >> by as i64
}

/// Returns the same numbers in 32 bits, which hold them all.
#[inline(always)]
fn shortened(a: i64x4) -> i32x4
    requires { (k : ℕ) → k < 4 → unsigned_abs (lane a k) < 2 ^ 31 }
    ensures { (k : ℕ) → k < 4 → lane result k ≡ lane a k }
{
    a.cast::<i32>()
}

/// Returns `yes` in each lane where `a` is greater than `b`, and `no` in the others.
#[inline(always)]
pub fn where_greater(a: i32x4, b: i32x4, yes: i32, no: i32) -> i32x4
    ensures { (k : ℕ) → k < 4 → lane result k ≡ (if int_lt (lane b k) (lane a k) then yes else no) }
{
    a.simd_gt(b).select(i32x4::splat(yes), i32x4::splat(no))
}

/// Returns each number as it is where the mask is 0, and with all bits flipped, which makes -1 - a of a, where the mask is -1.
#[inline(always)]
pub fn flipped(a: i32x4, mask: i32x4) -> i32x4
    ensures kept { (k : ℕ) → k < 4 → lane mask k ≡ pos 0 → lane result k ≡ lane a k }
    ensures turned { (k : ℕ) → k < 4 → lane mask k ≡ negsuc 0 → lane result k ≡ negsuc 0 -ℤ lane a k }
{
    a ^ mask
}

/// Returns the sum of each two lanes, exact wherever it fits in 32 bits.
#[inline(always)]
pub fn sum(a: i32x4, b: i32x4) -> i32x4
    ensures { (k : ℕ) → k < 4 → unsigned_abs (lane a k +ℤ lane b k) < 2 ^ 31 → lane result k ≡ lane a k +ℤ lane b k }
{
    a + b
}

/// Returns the difference of each two lanes, exact wherever it fits in 32 bits.
#[inline(always)]
pub fn difference(a: i32x4, b: i32x4) -> i32x4
    ensures { (k : ℕ) → k < 4 → unsigned_abs (lane a k -ℤ lane b k) < 2 ^ 31 → lane result k ≡ lane a k -ℤ lane b k }
{
    a - b
}

/// Returns the product of each two lanes, exact wherever it fits in 32 bits.
#[inline(always)]
pub fn product(a: i32x4, b: i32x4) -> i32x4
    ensures { (k : ℕ) → k < 4 → unsigned_abs (lane a k *ℤ lane b k) < 2 ^ 31 → lane result k ≡ lane a k *ℤ lane b k }
{
    a * b
}

/// Returns each number divided by 2^by and rounded down; `by` is 0 to 31.
#[inline(always)]
pub fn shifted(a: i32x4, by: u32) -> i32x4
    requires { by < 32 }
    ensures { (k : ℕ) → k < 4 → lane result k ≡ halved (lane a k) by }
{
    a >> by as i32
}

/// Returns each number, or the limit that it lies beyond; where `least` is above `most`, `least` in every lane.
#[inline(always)]
pub fn within(a: i32x4, least: i32, most: i32) -> i32x4
    ensures { (k : ℕ) → k < 4 → lane result k ≡ int_max least (int_min (lane a k) most) }
{
    a.simd_min(i32x4::splat(most)).simd_max(i32x4::splat(least))
}
