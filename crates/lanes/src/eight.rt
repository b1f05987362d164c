//! Steps of eight numbers without a sign, of 32 bits and of 16.

ghost use Rattle.std.specs.Prelude.{◌≡◌, ◌<◌, ◌≤◌, ◌+◌, ◌-◌, ◌*◌, ◌/◌, ◌%◌, ◌^◌, ℕ, min, max, IsTrue};
ghost use Rattle.lanes.specs.Lanes.{number, bits_as_float};

use std::simd::prelude::*;

/// Returns the sum of each two lanes, exact wherever it fits in 32 bits.
#[inline(always)]
pub fn sum(a: u32x8, b: u32x8) -> u32x8
    ensures { (k : ℕ) → k < 8 → number a k + number b k < 2 ^ 32 → number result k ≡ number a k + number b k }
{
    a + b
}

/// Returns each number, or the limit that it lies beyond; where `least` is above `most`, `least` in every lane.
#[inline(always)]
pub fn within(a: u32x8, least: u32, most: u32) -> u32x8
    ensures { (k : ℕ) → k < 8 → number result k ≡ max least (min (number a k) most) }
{
    a.simd_min(u32x8::splat(most)).simd_max(u32x8::splat(least))
}

/// Returns two to each number, which is at most 31.
#[inline(always)]
pub fn powers(exponents: u32x8) -> u32x8
    requires { (k : ℕ) → k < 8 → number exponents k < 32 }
    ensures { (k : ℕ) → k < 8 → number result k ≡ 2 ^ number exponents k }
{
    u32x8::splat(1) << exponents
}

/// Returns a number less each lane, which is at most that number.
#[inline(always)]
pub fn less(whole: u32, a: u32x8) -> u32x8
    ensures { (k : ℕ) → k < 8 → number a k ≤ whole → number result k ≡ whole - number a k }
{
    u32x8::splat(whole) - a
}

/// Returns each number divided by 2^by and rounded down; `by` is 0 to 31.
#[inline(always)]
pub fn shifted(a: u32x8, by: u32) -> u32x8
    requires { by < 32 }
    ensures { (k : ℕ) → k < 8 → number result k ≡ number a k / 2 ^ by }
{
    a >> u32x8::splat(by)
}

/// Returns the same numbers in 16 bits, which hold them all.
#[inline(always)]
pub fn short(a: u32x8) -> u16x8
    requires { (k : ℕ) → k < 8 → number a k < 2 ^ 16 }
    ensures { (k : ℕ) → k < 8 → number result k ≡ number a k }
{
    a.simd_min(u32x8::splat(65535)).cast::<u16>()
}

/// Returns the same numbers in 32 bits.
#[inline(always)]
pub fn long(a: u16x8) -> u32x8
    ensures { (k : ℕ) → k < 8 → number result k ≡ number a k }
{
    a.cast::<u32>()
}

/// Returns each number, or `most` where it lies beyond that.
#[inline(always)]
pub fn capped(a: u16x8, most: u16) -> u16x8
    ensures { (k : ℕ) → k < 8 → number result k ≡ min (number a k) most }
{
    a.simd_min(u16x8::splat(most))
}

/// Returns the sum of each two lanes of 16 bits, exact wherever it fits in 16 bits.
#[inline(always)]
pub fn short_sum(a: u16x8, b: u16x8) -> u16x8
    ensures { (k : ℕ) → k < 8 → number a k + number b k < 2 ^ 16 → number result k ≡ number a k + number b k }
{
    a + b
}

/// Returns the product of each two lanes of 16 bits, divided by 2^16 and rounded down.
#[inline(always)]
pub fn high_products(a: u16x8, b: u16x8) -> u16x8
    ensures { (k : ℕ) → k < 8 → number result k ≡ number a k * number b k / 2 ^ 16 }
{
    ((a.cast::<u32>() * b.cast::<u32>()) >> u32x8::splat(16)).cast::<u16>()
}

/// Returns what each number leaves over when it is divided by a power of two.
#[inline(always)]
pub fn rests(a: u16x8, powers: u16x8) -> u16x8
    ensures { (k n : ℕ) → k < 8 → number powers k ≡ 2 ^ n → number result k ≡ number a k % 2 ^ n }
{
    a & (powers - u16x8::splat(1))
}

/// Returns whether each number is at most that of another vector.
#[inline(always)]
pub fn are_within(a: u16x8, most: u16x8) -> bool
    ensures { IsTrue result → (k : ℕ) → k < 8 → number a k ≤ number most k }
{
    a.simd_le(most).all()
}

/// Returns whether all lanes have this number.
#[inline(always)]
pub fn are_all(a: u32x8, value: u32) -> bool
    ensures { IsTrue result → (k : ℕ) → k < 8 → number a k ≡ value }
{
    (a - u32x8::splat(value)).reduce_or() == 0
}

/// Returns how often each number can be halved before it is less than `by`: the logarithm of their quotient, rounded down.
///
/// Numbers below 2^24 are floats, whose bits begin with the exponent: so a difference of bits begins with the difference of the exponents, less one where the
/// lower bits borrow.
#[inline(always)]
pub fn logarithms(a: u32x8, by: u32) -> u32x8
    requires some { 1 ≤ by }
    requires low { (k : ℕ) → k < 8 → by ≤ number a k }
    requires high { (k : ℕ) → k < 8 → number a k < 2 ^ 24 }
    ensures fits { (k : ℕ) → k < 8 → by * 2 ^ number result k ≤ number a k }
    ensures passes { (k : ℕ) → k < 8 → number a k < 2 * (by * 2 ^ number result k) }
{
    (float_bits(a) - u32x8::splat((by as f32).to_bits())) >> u32x8::splat(23)
}

/// Returns the bits of each number as a float.
#[inline(always)]
fn float_bits(a: u32x8) -> u32x8
    requires { (k : ℕ) → k < 8 → number a k < 2 ^ 24 }
    ensures { (k : ℕ) → k < 8 → number result k ≡ bits_as_float (number a k) }
{
    a.cast::<i32>().cast::<f32>().to_bits()
}
