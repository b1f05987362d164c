//! The predicted central differences of four bands.

ghost use Rattle.std.specs.Prelude.{◌≡◌, ◌+◌, ◌*◌, ◌^◌, ◌<◌, ◌≤◌, ℕ, ◌+ℤ◌, ◌*ℤ◌, unsigned_abs};
ghost use Rattle.lanes.specs.Lanes.{lane};
ghost use Rattle.sample_prediction.specs.Arithmetic.{floor_div};
ghost use Rattle.sample_prediction.specs.Bounds.{AllWithin};
ghost use Rattle.sample_prediction.specs.Prediction.{inner_product};
ghost use Rattle.band_lanes.specs.Fours.{column_of, row_components};

use crate::four::rows::Rows;
use lanes::four;
use sample_prediction::predictor::MOST_COMPONENTS;
use std::simd::prelude::*;

/// Returns the predicted central differences of four bands at place `i`, from the first 2·`Q` weights and components.
///
/// Each is the sum of the products over 2^Ω, rounded down.
#[inline(always)]
pub(crate) fn predicted<const Q: usize>(
    weights: &[[i32; 4]; MOST_COMPONENTS],
    rows: &[Rows; MOST_COMPONENTS],
    i: usize,
    omega: u32,
) -> i32x4
    requires few { Q ≤ 9 }
    requires place { i < 64 }
    requires omega_in { omega ≤ 19 }
    requires weights_in { (b : ℕ) → b < 4 → AllWithin (2 ^ (omega + 2)) (column_of (2 * Q) b weights.now) }
    requires components_in { (b : ℕ) → b < 4 → AllWithin (2 ^ 18) (row_components (2 * Q) b rows.now i) }
    ensures value { (b : ℕ) → b < 4 → lane result b ≡ floor_div (inner_product (column_of (2 * Q) b weights.now) (row_components (2 * Q) b rows.now i)) (2 ^ omega) }
    ensures bound { (b : ℕ) → b < 4 → unsigned_abs (lane result b) ≤ 18 * 2 ^ 20 }
{
    let mut sums = i64x4::splat(0);
    for c in 0..2 * Q {
        sums = with_products(sums, &weights[c], &rows[c].places[i]);
    }
    four::quotients(sums, omega)
}

/// Adds the products of a weight and a component of each band.
#[inline(always)]
fn with_products(sums: i64x4, weights: &[i32; 4], components: &[i32; 4]) -> i64x4
    ensures { (k : ℕ) → k < 4 → unsigned_abs (lane sums k +ℤ lane weights.now k *ℤ lane components.now k) < 2 ^ 63
        → lane result k ≡ lane sums k +ℤ lane weights.now k *ℤ lane components.now k }
{
    let products = four::long_products(four::numbers(weights), four::numbers(components));
    four::long_sum(sums, products)
}
