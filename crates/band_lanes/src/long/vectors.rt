//! Steps of numbers of 32 bits that stand in pairs.

ghost use Rattle.std.specs.Prelude.{◌≡◌, ◌≤◌, ◌<◌, ◌+◌, ◌-◌, ◌*◌, ◌/◌, ◌^◌, ℕ, ◌+ℤ◌, ◌*ℤ◌, unsigned_abs, length};
ghost use Rattle.lanes.specs.Lanes.{lane, pair_sum};

use lanes::four::numbers;
use std::simd::prelude::*;

/// Returns the sums of two neighbouring products: in lane k that of lanes 2k and 2k + 1, exact wherever it fits in 64 bits.
///
/// Every second lane stands where a multiplication to 64 bits reads it.
#[inline(always)]
pub(crate) fn pair_products(a: i32x4, b: i32x4) -> i64x2
    ensures { (k : ℕ) → k < 2 → unsigned_abs (pair_sum a b k) < 2 ^ 63 → lane result k ≡ pair_sum a b k }
{
    sum(even_products(a, b), odd_products(a, b))
}

/// Returns the products of every second two lanes, from the first on.
#[inline(always)]
fn even_products(a: i32x4, b: i32x4) -> i64x2
    ensures { (k : ℕ) → k < 2 → lane result k ≡ lane a (2 * k) *ℤ lane b (2 * k) }
{
    products(evens(a), evens(b))
}

/// Returns the products of every second two lanes, from the second on.
#[inline(always)]
fn odd_products(a: i32x4, b: i32x4) -> i64x2
    ensures { (k : ℕ) → k < 2 → lane result k ≡ lane a (2 * k + 1) *ℤ lane b (2 * k + 1) }
{
    products(odds(a), odds(b))
}

/// Returns every second lane, from the first on.
#[inline(always)]
fn evens(a: i32x4) -> i32x2
    ensures { (k : ℕ) → k < 2 → lane result k ≡ lane a (2 * k) }
{
    a.swizzle([0, 2])
}

/// Returns every second lane, from the second on.
#[inline(always)]
fn odds(a: i32x4) -> i32x2
    ensures { (k : ℕ) → k < 2 → lane result k ≡ lane a (2 * k + 1) }
{
    a.swizzle([1, 3])
}

/// Returns the product of each two lanes, which 64 bits hold.
#[inline(always)]
fn products(a: i32x2, b: i32x2) -> i64x2
    ensures { (k : ℕ) → k < 2 → lane result k ≡ lane a k *ℤ lane b k }
{
    a.cast::<i64>() * b.cast::<i64>()
}

/// Returns the sum of each two lanes of 64 bits, exact wherever it fits in 64 bits.
#[inline(always)]
pub(crate) fn sum(a: i64x2, b: i64x2) -> i64x2
    ensures { (k : ℕ) → k < 2 → unsigned_abs (lane a k +ℤ lane b k) < 2 ^ 63 → lane result k ≡ lane a k +ℤ lane b k }
{
    a + b
}

/// Puts the lanes of two vectors one after the other.
#[inline(always)]
pub(crate) fn joined(a: i64x2, b: i64x2) -> i64x4
    ensures first { (k : ℕ) → k < 2 → lane result k ≡ lane a k }
    ensures second { (k : ℕ) → k < 2 → lane result (2 + k) ≡ lane b k }
{
    a.shuffle(b, [0, 1, 2, 3])
}

/// Puts the lanes of two vectors one after the other, as a row.
#[inline(always)]
pub(crate) fn joined_row(a: i32x4, b: i32x4) -> [i32; 8]
    ensures first { (k : ℕ) → k < 4 → lane result k ≡ lane a k }
    ensures second { (k : ℕ) → k < 4 → lane result (4 + k) ≡ lane b k }
{
    a.shuffle(b, [0, 1, 2, 3, 4, 5, 6, 7]).to_array()
}

/// Returns each number of a row twice, side by side.
#[inline(always)]
pub(crate) fn spread(row: &[i32; 8]) -> [i32; 16]
    ensures { (k : ℕ) → k < 16 → lane result k ≡ lane row.now (k / 2) }
{
    eight_numbers(row)
        .swizzle([0, 0, 1, 1, 2, 2, 3, 3, 4, 4, 5, 5, 6, 6, 7, 7])
        .to_array()
}

/// Puts the numbers of two rows side by side: number k of `even` becomes number 2k, and that of `odd` number 2k + 1.
#[inline(always)]
pub fn woven(even: &[i32; 8], odd: &[i32; 8]) -> [i32; 16]
    ensures even { (k : ℕ) → k < 8 → lane result (2 * k) ≡ lane even.now k }
    ensures odd { (k : ℕ) → k < 8 → lane result (2 * k + 1) ≡ lane odd.now k }
{
    let even = eight_numbers(even);
    let odd = eight_numbers(odd);
    even.shuffle(odd, [0, 8, 1, 9, 2, 10, 3, 11, 4, 12, 5, 13, 6, 14, 7, 15])
        .to_array()
}

/// Moves the numbers of `second` up by `by`, 1 to 7, and puts the last numbers of `first` before them.
#[inline(always)]
pub fn moved(first: &[i32; 8], second: &[i32; 8], by: usize) -> [i32; 8]
    requires { (1 ≤ by) × (by ≤ 7) }
    ensures first { (k : ℕ) → k < by → lane result k ≡ lane first.now (8 + k - by) }
    ensures second { (k : ℕ) → by ≤ k → k < 8 → lane result k ≡ lane second.now (k - by) }
{
    moved_lanes(eight_numbers(first), eight_numbers(second), by).to_array()
}

/// `moved` of vectors.
#[inline(always)]
fn moved_lanes(first: i32x8, second: i32x8, by: usize) -> i32x8
    requires { (1 ≤ by) × (by ≤ 7) }
    ensures first { (k : ℕ) → k < by → lane result k ≡ lane first (8 + k - by) }
    ensures second { (k : ℕ) → by ≤ k → k < 8 → lane result k ≡ lane second (k - by) }
{
    match by {
        1 => first.shuffle(second, [7, 8, 9, 10, 11, 12, 13, 14]),
        2 => first.shuffle(second, [6, 7, 8, 9, 10, 11, 12, 13]),
        3 => first.shuffle(second, [5, 6, 7, 8, 9, 10, 11, 12]),
        4 => first.shuffle(second, [4, 5, 6, 7, 8, 9, 10, 11]),
        5 => first.shuffle(second, [3, 4, 5, 6, 7, 8, 9, 10]),
        6 => first.shuffle(second, [2, 3, 4, 5, 6, 7, 8, 9]),
        _ => first.shuffle(second, [1, 2, 3, 4, 5, 6, 7, 8]),
    }
}

/// Returns the numbers of a row, by loads of vectors, as `lanes::four::numbers` does.
#[inline(always)]
fn eight_numbers(row: &[i32; 8]) -> i32x8
    ensures { result ≡ row.now }
{
    // What it says of the row's numbers is all that this is for.
    let _same = copied(row);
    i32x8::from_slice(row)
}

/// Returns a copy of a row.
#[inline(always)]
fn copied(row: &[i32; 8]) -> [i32; 8]
    ensures { result ≡ row.now }
{
    *row
}

/// Returns the four numbers of a row from number 4j on.
#[inline(always)]
pub(crate) fn part_of(row: &[i32; 16], j: usize) -> i32x4
    requires { j < 4 }
    ensures { (k : ℕ) → k < 4 → lane result k ≡ lane row.now (4 * j + k) }
{
    let (fours, _) = row.as_chunks::<4>();
    numbers(&fours[j])
}

/// Writes four numbers into a row, from number 4j on.
#[inline(always)]
pub(crate) fn put_part(numbers: i32x4, j: usize, row: &mut [i32; 16])
    requires { j < 4 }
    ensures long { length row.new ≡ 16 }
    ensures before { (k : ℕ) → k < 4 * j → lane row.new k ≡ lane row.old k }
    ensures written { (k : ℕ) → k < 4 → lane row.new (4 * j + k) ≡ lane numbers k }
{
    numbers.copy_to_slice(&mut row[4 * j..]);
}
