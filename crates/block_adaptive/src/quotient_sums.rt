//! The sums of a block's quotients, by which an option is chosen.

ghost use Rattle.std.specs.Prelude.{◌≡◌, ◌≤◌, ◌<◌, ◌+◌, ◌%◌, ℕ, [], ◌∷◌, IsTrue, length};
ghost use Rattle.lanes.specs.Lanes.{number};
ghost use Rattle.block_adaptive.specs.LaneSums.{total};
ghost use Rattle.block_adaptive.specs.Options.{quotient_sum};

use lanes::{eight, lines, masks, unsigned};
use std::simd::prelude::*;

/// Returns the sums of a block's quotients under k and the next two, in one pass.
///
/// Where all quotients are small, eight lanes of 16 bits hold their sums.
#[inline(always)]
pub(crate) fn quotient_sums(k: u32, block: &[u16]) -> [u32; 3]
    requires k { k ≤ 13 }
    requires few { length block.now ≤ 64 }
    requires eights { length block.now % 8 ≡ 0 }
    ensures { result ≡ quotient_sum k block.now ∷ quotient_sum (k + 1) block.now ∷ quotient_sum (k + 2) block.now ∷ [] }
{
    let mut first = u16x8::splat(0);
    let mut second = u16x8::splat(0);
    let mut third = u16x8::splat(0);
    let mut at = 0;
    while at < block.len() {
        let values = lines::numbers_at(block, at);
        let quotients = masks::shifted(values, k);
        if !are_small(quotients) {
            return long_quotient_sums(k, block);
        }
        first = eight::short_sum(first, quotients);
        second = eight::short_sum(second, masks::shifted(values, k + 1));
        third = eight::short_sum(third, masks::shifted(values, k + 2));
        at += 8;
    }
    [
        sum_of_lanes(first),
        sum_of_lanes(second),
        sum_of_lanes(third),
    ]
}

/// Returns whether sums of eight such numbers fit 16 bits.
#[inline(always)]
fn are_small(numbers: u16x8) -> bool
    ensures { IsTrue result → (j : ℕ) → j < 8 → number numbers j ≤ 8191 }
{
    eight::are_within(numbers, u16x8::splat(8191))
}

/// Returns the sum of all lanes.
#[inline(always)]
fn sum_of_lanes(lanes: u16x8) -> u32
    ensures { result ≡ total (number lanes) 0 8 }
{
    let pairs = unsigned::sum(unsigned::evens(lanes), unsigned::odds(lanes));
    let [first, second, third, fourth] = pairs.to_array();
    first + second + (third + fourth)
}

/// `quotient_sums`, of any quotients.
#[cold]
#[inline(never)]
fn long_quotient_sums(k: u32, block: &[u16]) -> [u32; 3]
    requires k { k ≤ 13 }
    requires few { length block.now ≤ 64 }
    ensures { result ≡ quotient_sum k block.now ∷ quotient_sum (k + 1) block.now ∷ quotient_sum (k + 2) block.now ∷ [] }
{
    let mut first = 0u32;
    let mut second = 0u32;
    let mut third = 0u32;
    for value in block {
        first += u32::from(*value >> k);
        second += u32::from(*value >> (k + 1));
        third += u32::from(*value >> (k + 2));
    }
    [first, second, third]
}
