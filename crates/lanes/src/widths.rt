//! From 16 bits to 32 and back.

ghost use Rattle.std.specs.Prelude.{◌≡◌, ◌<◌, ℕ, FitsSigned, ◌-ℤ◌, ◌*ℤ◌};
ghost use Rattle.std.specs.Int.{w16};
ghost use Rattle.lanes.specs.Lanes.{lane, held};

use std::simd::prelude::*;

/// Returns the product of each two lanes.
#[inline(always)]
pub(crate) fn products(a: i16x16, b: i16x16) -> i32x16
    ensures { (k : ℕ) → k < 16 → lane result k ≡ lane a k *ℤ lane b k }
{
    a.cast::<i32>() * b.cast::<i32>()
}

/// Returns the difference of each two lanes.
#[inline(always)]
pub(crate) fn differences(a: i16x16, b: i16x16) -> i32x16
    ensures { (k : ℕ) → k < 16 → lane result k ≡ lane a k -ℤ lane b k }
{
    a.cast::<i32>() - b.cast::<i32>()
}

/// Returns each number, or the nearest number of 16 bits where it lies beyond them.
#[inline(always)]
pub(crate) fn hold<const N: usize>(a: Simd<i32, N>) -> Simd<i16, N>
    ensures { (k : ℕ) → k < N → lane result k ≡ held (lane a.entry k) }
{
    narrowed(limited(a))
}

/// Returns each number, or the nearest number of 16 bits where it lies beyond them, still in 32 bits.
#[inline(always)]
fn limited<const N: usize>(a: Simd<i32, N>) -> Simd<i32, N>
    ensures { (k : ℕ) → k < N → lane result k ≡ held (lane a.entry k) }
{
    a.simd_min(Simd::splat(32767)).simd_max(Simd::splat(-32768))
}

/// Returns the same numbers in 16 bits, which hold them all.
#[inline(always)]
fn narrowed<const N: usize>(a: Simd<i32, N>) -> Simd<i16, N>
    requires { (k : ℕ) → k < N → FitsSigned w16 (lane a k) }
    ensures { (k : ℕ) → k < N → lane result k ≡ lane a.entry k }
{
    a.cast::<i16>()
}
