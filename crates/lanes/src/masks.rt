//! Steps of eight numbers without a sign, in each lane as a mask says: it is 65,535 or 0.

ghost use Rattle.std.specs.Prelude.{◌≡◌, ◌<◌, ◌≤◌, ◌+◌, ◌-◌, ◌*◌, ◌/◌, ◌%◌, ◌^◌, ℕ, nat_lt, if◌then◌else◌};
ghost use Rattle.lanes.specs.Lanes.{number};

use std::simd::prelude::*;

/// Returns 65,535 in each lane where `a` is less than `b`, and 0 in the others.
#[inline(always)]
pub fn where_less(a: u32x8, b: u32x8) -> u16x8
    requires a { (k : ℕ) → k < 8 → number a k < 2 ^ 31 }
    requires b { (k : ℕ) → k < 8 → number b k < 2 ^ 31 }
    ensures { (k : ℕ) → k < 8 → number result k ≡ (if nat_lt (number a k) (number b k) then 65535 else 0) }
{
    let less = b.cast::<i32>().simd_gt(a.cast::<i32>());
    less.cast::<i16>()
        .select(u16x8::splat(65535), u16x8::splat(0))
}

/// Returns twice each number of at most 15 bits where the mask is 65,535, and the number itself where it is 0.
#[inline(always)]
pub fn doubled_where(a: u16x8, mask: u16x8) -> u16x8
    ensures doubled { (k : ℕ) → k < 8 → number mask k ≡ 65535 → number a k < 2 ^ 15 → number result k ≡ 2 * number a k }
    ensures kept { (k : ℕ) → k < 8 → number mask k ≡ 0 → number result k ≡ number a k }
{
    a + (a & mask)
}

/// Returns each number less that of `b` where the mask is 65,535, and the number itself where it is 0.
#[inline(always)]
pub fn lessened_where(a: u16x8, b: u16x8, mask: u16x8) -> u16x8
    ensures lessened { (k : ℕ) → k < 8 → number mask k ≡ 65535 → number b k ≤ number a k → number result k ≡ number a k - number b k }
    ensures kept { (k : ℕ) → k < 8 → number mask k ≡ 0 → number result k ≡ number a k }
{
    a - (b & mask)
}

/// Returns each number of at least 1 less 1 where the mask is 65,535, and the number itself where it is 0.
#[inline(always)]
pub fn less_one_where(a: u16x8, mask: u16x8) -> u16x8
    ensures lessened { (k : ℕ) → k < 8 → number mask k ≡ 65535 → 1 ≤ number a k → number result k ≡ number a k - 1 }
    ensures kept { (k : ℕ) → k < 8 → number mask k ≡ 0 → number result k ≡ number a k }
{
    a + mask
}

/// Returns each number divided by 2^by and rounded down; `by` is 0 to 15.
#[inline(always)]
pub fn shifted(a: u16x8, by: u32) -> u16x8
    requires { by < 16 }
    ensures { (k : ℕ) → k < 8 → number result k ≡ number a k / 2 ^ by }
{
    a >> by as u16
}

/// Returns each number's bits below a power of two, and that power itself.
#[inline(always)]
pub fn rest_and_power(a: u16x8, power: u16x8) -> u16x8
    ensures { (k by : ℕ) → k < 8 → by < 16 → number power k ≡ 2 ^ by → number result k ≡ 2 ^ by + number a k % 2 ^ by }
{
    (a & (power - u16x8::splat(1))) + power
}
