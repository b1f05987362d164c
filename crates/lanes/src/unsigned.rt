//! Steps of numbers without a sign: of 16 bits, and of 32 and 64, which their sums and products need.

ghost use Rattle.std.specs.Prelude.{◌≡◌, ◌<◌, ◌+◌, ◌*◌, ◌^◌, ℕ};
ghost use Rattle.lanes.specs.Lanes.{number};

use std::simd::prelude::*;

/// Returns every second lane in 32 bits, from the first on.
#[inline(always)]
pub fn evens(a: u16x8) -> u32x4
    ensures { (k : ℕ) → k < 4 → number result k ≡ number a (2 * k) }
{
    a.swizzle([0, 2, 4, 6]).cast::<u32>()
}

/// Returns every second lane in 32 bits, from the second on.
#[inline(always)]
pub fn odds(a: u16x8) -> u32x4
    ensures { (k : ℕ) → k < 4 → number result k ≡ number a (2 * k + 1) }
{
    a.swizzle([1, 3, 5, 7]).cast::<u32>()
}

/// Returns every second lane in 64 bits, from the first on.
#[inline(always)]
pub fn long_evens(a: u32x4) -> u64x2
    ensures { (k : ℕ) → k < 2 → number result k ≡ number a (2 * k) }
{
    a.swizzle([0, 2]).cast::<u64>()
}

/// Returns every second lane in 64 bits, from the second on.
#[inline(always)]
pub fn long_odds(a: u32x4) -> u64x2
    ensures { (k : ℕ) → k < 2 → number result k ≡ number a (2 * k + 1) }
{
    a.swizzle([1, 3]).cast::<u64>()
}

/// Returns two to each number, which is at most 31.
#[inline(always)]
pub fn powers(exponents: u32x4) -> u32x4
    requires { (k : ℕ) → k < 4 → number exponents k < 32 }
    ensures { (k : ℕ) → k < 4 → number result k ≡ 2 ^ number exponents k }
{
    u32x4::splat(1) << exponents
}

/// Returns the sum of each two lanes, exact wherever it fits in 32 bits.
#[inline(always)]
pub fn sum(a: u32x4, b: u32x4) -> u32x4
    ensures { (k : ℕ) → k < 4 → number a k + number b k < 2 ^ 32 → number result k ≡ number a k + number b k }
{
    a + b
}

/// Returns the product of each two lanes, exact wherever it fits in 32 bits.
#[inline(always)]
pub fn product(a: u32x4, b: u32x4) -> u32x4
    ensures { (k : ℕ) → k < 4 → number a k * number b k < 2 ^ 32 → number result k ≡ number a k * number b k }
{
    a * b
}

/// Returns the sum of each two lanes of 64 bits, exact wherever it fits in 64 bits.
#[inline(always)]
pub fn long_sum(a: u64x2, b: u64x2) -> u64x2
    ensures { (k : ℕ) → k < 2 → number a k + number b k < 2 ^ 64 → number result k ≡ number a k + number b k }
{
    a + b
}

/// Returns the product of each two lanes of 64 bits, exact wherever it fits in 64 bits.
#[inline(always)]
pub fn long_product(a: u64x2, b: u64x2) -> u64x2
    ensures { (k : ℕ) → k < 2 → number a k * number b k < 2 ^ 64 → number result k ≡ number a k * number b k }
{
    a * b
}
