//! The predicted central differences of eight bands, in lanes of 32 bits.

ghost use Rattle.std.specs.Prelude.{◌≡◌, ◌+◌, ◌*◌, ◌^◌, ◌<◌, ◌≤◌, ℕ, ◌+ℤ◌, unsigned_abs};
ghost use Rattle.lanes.specs.Lanes.{lane, pair_sum};
ghost use Rattle.sample_prediction.specs.Arithmetic.{floor_div};
ghost use Rattle.sample_prediction.specs.Bounds.{AllWithin};
ghost use Rattle.sample_prediction.specs.Prediction.{inner_product};
ghost use Rattle.band_lanes.specs.Rows.{weights_of, pairs_of, AreRowsWithin};

use crate::long::vectors::{joined, joined_row, pair_products, part_of, sum};
use crate::pairs::MOST_PAIRS;
use lanes::four::quotients;
use std::simd::prelude::*;

/// Returns the predicted central differences of eight bands at a place, from the first `Q` pairs of weights and components.
///
/// Each is the sum of the products over 2^Ω, rounded down, and has a size of at most 18·2^20 (CCSDS 123.0-B-1, "Prediction Calculation").
#[inline(always)]
pub fn predict_place<const Q: usize>(
    weights: &[[i32; 16]; MOST_PAIRS],
    components: &[[i32; 16]; MOST_PAIRS],
    omega: u32,
) -> [i32; 8]
    requires few { Q ≤ 9 }
    requires omega_in { omega ≤ 19 }
    requires weights_in { (b : ℕ) → b < 8 → AllWithin (2 ^ (omega + 2)) (weights_of Q b weights.now) }
    requires components_in { AreRowsWithin (2 ^ 18) Q components.now }
    ensures value { (b : ℕ) → b < 8 → lane result b ≡ floor_div (inner_product (weights_of Q b weights.now) (pairs_of Q b components.now)) (2 ^ omega) }
    ensures bound { (b : ℕ) → b < 8 → unsigned_abs (lane result b) ≤ 18 * 2 ^ 20 }
{
    let first = predicted_part::<Q>(weights, components, 0, omega);
    let second = predicted_part::<Q>(weights, components, 1, omega);
    joined_row(first, second)
}

/// Returns the predicted central differences of four bands from band 4h on.
#[inline(always)]
fn predicted_part<const Q: usize>(
    weights: &[[i32; 16]; MOST_PAIRS],
    components: &[[i32; 16]; MOST_PAIRS],
    h: usize,
    omega: u32,
) -> i32x4
    requires few { Q ≤ 9 }
    requires half { h < 2 }
    requires omega_in { omega ≤ 19 }
    requires weights_in { (b : ℕ) → b < 8 → AllWithin (2 ^ (omega + 2)) (weights_of Q b weights.now) }
    requires components_in { AreRowsWithin (2 ^ 18) Q components.now }
    ensures value { (k : ℕ) → k < 4 → lane result k
        ≡ floor_div (inner_product (weights_of Q (4 * h + k) weights.now) (pairs_of Q (4 * h + k) components.now)) (2 ^ omega) }
    ensures bound { (k : ℕ) → k < 4 → unsigned_abs (lane result k) ≤ 18 * 2 ^ 20 }
{
    let first = sums_of::<Q>(weights, components, 2 * h, omega);
    let second = sums_of::<Q>(weights, components, 2 * h + 1, omega);
    quotients(joined(first, second), omega)
}

/// Returns the sums of the products of bands 2j and 2j + 1.
#[inline(always)]
fn sums_of<const Q: usize>(
    weights: &[[i32; 16]; MOST_PAIRS],
    components: &[[i32; 16]; MOST_PAIRS],
    j: usize,
    omega: u32,
) -> i64x2
    requires few { Q ≤ 9 }
    requires bands { j < 4 }
    requires omega_in { omega ≤ 19 }
    requires weights_in { (b : ℕ) → b < 8 → AllWithin (2 ^ (omega + 2)) (weights_of Q b weights.now) }
    requires components_in { AreRowsWithin (2 ^ 18) Q components.now }
    ensures { (k : ℕ) → k < 2 → lane result k ≡ inner_product (weights_of Q (2 * j + k) weights.now) (pairs_of Q (2 * j + k) components.now) }
{
    let mut sums = i64x2::splat(0);
    for c in 0..Q {
        sums = with_products(sums, &weights[c], &components[c], j);
    }
    sums
}

/// Adds the products of a row of pairs, of bands 2j and 2j + 1.
#[inline(always)]
fn with_products(sums: i64x2, weights: &[i32; 16], components: &[i32; 16], j: usize) -> i64x2
    requires { j < 4 }
    ensures { (k : ℕ) → k < 2 → unsigned_abs (pair_sum weights.now components.now (2 * j + k)) < 2 ^ 63
        → unsigned_abs (lane sums k +ℤ pair_sum weights.now components.now (2 * j + k)) < 2 ^ 63
        → lane result k ≡ lane sums k +ℤ pair_sum weights.now components.now (2 * j + k) }
{
    let products = pair_products(part_of(weights, j), part_of(components, j));
    sum(sums, products)
}
