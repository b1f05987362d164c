//! The predicted central differences of eight bands.

ghost use Rattle.std.specs.Prelude.{◌≡◌, ◌+◌, ◌*◌, ◌^◌, ◌<◌, ◌≤◌, ℕ, pos, ◌+ℤ◌, unsigned_abs, min};
ghost use Rattle.std.specs.Int.{int_rem_euclid};
ghost use Rattle.lanes.specs.Lanes.{lane, pair_sum, halved};
ghost use Rattle.sample_prediction.specs.Arithmetic.{floor_div};
ghost use Rattle.sample_prediction.specs.Prediction.{inner_product};
ghost use Rattle.band_lanes.specs.Rows.{weights_of, components_of, AreBelow};

use crate::pairs::{MOST_PAIRS, Pairs, row_of};
use lanes::wide;
use std::simd::prelude::*;

/// Returns the predicted central differences of eight bands at place `i`, from the first `Q` pairs of weights and components.
///
/// Each is the sum of the products over 2^Ω, rounded down. Four products fit into 32 bits, so that no more are added before
/// their sum is split.
#[inline(always)]
pub(crate) fn predicted<const Q: usize>(
    weights: &[[i16; 16]; MOST_PAIRS],
    pairs: &[Pairs; MOST_PAIRS],
    i: usize,
    omega: u32,
) -> i32x8
    requires few { Q ≤ 9 }
    requires place { i < 64 }
    requires omega_in { (4 ≤ omega) × (omega ≤ 13) }
    requires small { AreBelow (2 ^ 14) Q pairs.now i }
    ensures { (b : ℕ) → b < 8 → lane result b ≡ floor_div (inner_product (weights_of Q b weights.now) (components_of Q b pairs.now i)) (2 ^ omega) }
{
    let mut high = i32x8::splat(0);
    let mut low = i32x8::splat(0);
    for k in 0..(Q + 1) / 2 {
        let sum = group_sum::<Q>(weights, pairs, i, k);
        high = with_whole(high, sum, omega);
        low = with_rest(low, sum, omega);
    }
    with_whole(high, low, omega)
}

/// `predicted` if components have 16 bits: two products fit into 32 bits, so that the sum of each pair is split.
#[inline(always)]
pub(crate) fn predicted_singly<const Q: usize>(
    weights: &[[i16; 16]; MOST_PAIRS],
    pairs: &[Pairs; MOST_PAIRS],
    i: usize,
    omega: u32,
) -> i32x8
    requires few { Q ≤ 9 }
    requires place { i < 64 }
    requires omega_in { (4 ≤ omega) × (omega ≤ 13) }
    requires small { AreBelow (2 ^ 15) Q pairs.now i }
    ensures { (b : ℕ) → b < 8 → lane result b ≡ floor_div (inner_product (weights_of Q b weights.now) (components_of Q b pairs.now i)) (2 ^ omega) }
{
    let mut high = i32x8::splat(0);
    let mut low = i32x8::splat(0);
    for k in 0..Q {
        let pair = full_products(&weights[k], &pairs[k].places[i]);
        high = with_whole(high, pair, omega);
        low = with_rest(low, pair, omega);
    }
    with_whole(high, low, omega)
}

/// Returns the sums of the products of pairs 2k and 2k + 1, or of the first of them alone if it is the last of all.
#[inline(always)]
fn group_sum<const Q: usize>(
    weights: &[[i16; 16]; MOST_PAIRS],
    pairs: &[Pairs; MOST_PAIRS],
    i: usize,
    k: usize,
) -> i32x8
    requires few { Q ≤ 9 }
    requires place { i < 64 }
    requires group { 2 * k < Q }
    requires small { AreBelow (2 ^ 14) Q pairs.now i }
    ensures { (b : ℕ) → b < 8 → inner_product (weights_of (min (2 * k + 2) Q) b weights.now) (components_of (min (2 * k + 2) Q) b pairs.now i)
        ≡ inner_product (weights_of (2 * k) b weights.now) (components_of (2 * k) b pairs.now i) +ℤ lane result b }
{
    let first = products(&weights[2 * k], &pairs[2 * k].places[i]);
    if 2 * k + 1 < Q {
        let second = products(&weights[2 * k + 1], &pairs[2 * k + 1].places[i]);
        wide::sum(first, second)
    } else {
        first
    }
}

/// Returns the sums of the two products of each band.
#[inline(always)]
fn products(weights: &[i16; 16], components: &[i16; 16]) -> i32x8
    requires { (k : ℕ) → k < 16 → unsigned_abs (lane components.now k) < 2 ^ 14 }
    ensures value { (b : ℕ) → b < 8 → lane result b ≡ pair_sum weights.now components.now b }
    ensures bound { (b : ℕ) → b < 8 → unsigned_abs (lane result b) < 2 ^ 30 }
{
    let weights = row_of(weights);
    let components = row_of(components);
    wide::pair_sums(i16x16::from_array(weights), i16x16::from_array(components))
}

/// `products` of components of 16 bits.
#[inline(always)]
fn full_products(weights: &[i16; 16], components: &[i16; 16]) -> i32x8
    requires { (k : ℕ) → k < 16 → unsigned_abs (lane components.now k) < 2 ^ 15 }
    ensures { (b : ℕ) → b < 8 → lane result b ≡ pair_sum weights.now components.now b }
{
    let factors = row_of(weights);
    let numbers = row_of(components);
    wide::pair_sums(i16x16::from_array(factors), i16x16::from_array(numbers))
}

/// Adds to each number the whole multiples of 2^Ω in another.
#[inline(always)]
fn with_whole(high: i32x8, numbers: i32x8, omega: u32) -> i32x8
    requires { omega ≤ 13 }
    ensures { (b : ℕ) → b < 8 → unsigned_abs (lane high b +ℤ halved (lane numbers b) omega) < 2 ^ 31
        → lane result b ≡ lane high b +ℤ halved (lane numbers b) omega }
{
    wide::sum(high, wide::shifted(numbers, omega))
}

/// Adds to each number what is left of another beside the whole multiples of 2^Ω.
#[inline(always)]
fn with_rest(low: i32x8, numbers: i32x8, omega: u32) -> i32x8
    requires { omega ≤ 13 }
    ensures { (b : ℕ) → b < 8 → unsigned_abs (lane low b +ℤ int_rem_euclid (lane numbers b) (pos (2 ^ omega))) < 2 ^ 31
        → lane result b ≡ lane low b +ℤ int_rem_euclid (lane numbers b) (pos (2 ^ omega)) }
{
    wide::sum(low, wide::masked(numbers, omega))
}
