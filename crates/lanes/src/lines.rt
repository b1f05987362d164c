//! Eight successive numbers of a line, and the sums before them.

ghost use Rattle.std.specs.Prelude.{◌≡◌, ◌<◌, ◌≤◌, ◌+◌, ◌^◌, ℕ, length, take};
ghost use Rattle.std.specs.List.{sum};
ghost use Rattle.lanes.specs.Lanes.{number};

use std::simd::prelude::*;

/// Returns the eight numbers of a line from place `at` on.
#[inline(always)]
pub fn numbers_at(line: &[u16], at: usize) -> u16x8
    requires { at + 8 ≤ length line.now }
    ensures long { length result ≡ 8 }
    ensures same { (k : ℕ) → k < 8 → number result k ≡ number line.now (at + k) }
{
    u16x8::from_slice(&line[at..])
}

/// Returns the eight numbers of a line of 32 bits from place `at` on.
#[inline(always)]
pub fn long_numbers_at(line: &[u32], at: usize) -> u32x8
    requires { at + 8 ≤ length line.now }
    ensures { (k : ℕ) → k < 8 → number result k ≡ number line.now (at + k) }
{
    u32x8::from_slice(&line[at..])
}

/// Returns the sums of a number and the lanes before each, in lane k that of the first k.
#[inline(always)]
pub fn sums_before(first: u32, a: u16x8) -> u32x8
    requires { first < 2 ^ 31 }
    ensures { (k : ℕ) → k < 8 → number result k ≡ first + sum (take k a) }
{
    let none = u32x8::splat(0);
    let a = a.cast::<u32>();
    let two = a + none.shuffle(a, [7, 8, 9, 10, 11, 12, 13, 14]);
    let four = two + none.shuffle(two, [6, 7, 8, 9, 10, 11, 12, 13]);
    let all = four + none.shuffle(four, [4, 5, 6, 7, 8, 9, 10, 11]);
    all - a + u32x8::splat(first)
}

/// Returns the last of eight numbers.
#[inline(always)]
pub fn last(a: u32x8) -> u32
    ensures { result ≡ number a 7 }
{
    a.to_array()[7]
}
