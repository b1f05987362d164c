//! From the weights of four bands at one place to those at the next.

ghost use Rattle.std.specs.Prelude.{◌≡◌, ◌+◌, ◌*◌, ◌^◌, ◌<◌, ◌≤◌, ℕ, true, false, pos, negsuc, ◌≤ℤ◌, int_le, unsigned_abs};
ghost use Rattle.lanes.specs.Lanes.{lane};
ghost use Rattle.sample_prediction.specs.Arithmetic.{floor_div};
ghost use Rattle.sample_prediction.specs.Bounds.{AllWithin};
ghost use Rattle.sample_prediction.specs.Prediction.{inner_product};
ghost use Rattle.sample_prediction.specs.Weights.{updated_weights};
ghost use Rattle.band_lanes.specs.Fours.{column_of, row_components};

use crate::four::predicted::predicted;
use crate::four::rows::Rows;
use crate::four::step::LongStep;
use crate::four::update::update_row;
use lanes::four::numbers;
use sample_prediction::predictor::MOST_COMPONENTS;
use std::simd::prelude::*;

/// Returns the predicted central differences of four bands at place `i`, and updates the weights.
///
/// The first 2·`Q` weights and components are used: a row has one of each band. `own` are the central differences there. Each component has a size of at most 2^(D+2), and each weight is in
/// its range; so each difference has a size of at most 18·2^20. `RAISED` says whether ρ is negative (CCSDS 123.0-B-1, "Prediction Calculation", "Weight Update").
#[inline(always)]
pub fn follow_four<const Q: usize, const RAISED: bool>(
    weights: &mut [[i32; 4]; MOST_COMPONENTS],
    rows: &[Rows; MOST_COMPONENTS],
    own: &[i32; 4],
    i: usize,
    step: LongStep,
) -> [i32; 4]
    requires few { Q ≤ 9 }
    requires place { i < 64 }
    requires weights_in { (b : ℕ) → b < 4 → AllWithin (2 ^ (step.omega + 2)) (column_of (2 * Q) b weights.old) }
    requires components_in { (b : ℕ) → b < 4 → AllWithin (2 ^ (step.bits + 2)) (row_components (2 * Q) b rows.now i) }
    requires raised { RAISED ≡ true → step.exponent ≤ℤ negsuc 0 }
    requires lowered { RAISED ≡ false → pos 0 ≤ℤ step.exponent }
    ensures predicted { (b : ℕ) → b < 4 → lane result b
        ≡ floor_div (inner_product (column_of (2 * Q) b weights.old) (row_components (2 * Q) b rows.now i)) (2 ^ step.omega) }
    ensures bound { (b : ℕ) → b < 4 → unsigned_abs (lane result b) ≤ 18 * 2 ^ 20 }
    ensures weights { (b : ℕ) → b < 4 → column_of (2 * Q) b weights.new ≡ updated_weights step.omega step.exponent (int_le (lane own.now b) (lane result b))
        (column_of (2 * Q) b weights.old) (row_components (2 * Q) b rows.now i) }
{
    let part = predicted::<Q>(weights, rows, i, step.omega);
    update_all::<Q, RAISED>(weights, rows, numbers(own), part, i, step);
    part.to_array()
}

/// Updates the first 2·`Q` weights after place `i`.
#[inline(always)]
fn update_all<const Q: usize, const RAISED: bool>(
    weights: &mut [[i32; 4]; MOST_COMPONENTS],
    rows: &[Rows; MOST_COMPONENTS],
    own: i32x4,
    predicted: i32x4,
    i: usize,
    step: LongStep,
)
    requires few { Q ≤ 9 }
    requires place { i < 64 }
    requires weights_in { (b : ℕ) → b < 4 → AllWithin (2 ^ (step.omega + 2)) (column_of (2 * Q) b weights.old) }
    requires components_in { (b : ℕ) → b < 4 → AllWithin (2 ^ (step.bits + 2)) (row_components (2 * Q) b rows.now i) }
    requires raised { RAISED ≡ true → step.exponent ≤ℤ negsuc 0 }
    requires lowered { RAISED ≡ false → pos 0 ≤ℤ step.exponent }
    ensures { (b : ℕ) → b < 4 → column_of (2 * Q) b weights.new ≡ updated_weights step.omega step.exponent (int_le (lane own b) (lane predicted b))
        (column_of (2 * Q) b weights.old) (row_components (2 * Q) b rows.now i) }
{
    for c in 0..2 * Q {
        update_row::<RAISED>(weights, c, &rows[c].places[i], own, predicted, step);
    }
}
