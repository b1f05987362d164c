//! The update of the weights of four bands.

ghost use Rattle.std.specs.Prelude.{◌≡◌, ◌+◌, ◌^◌, ◌<◌, ◌≤◌, ℕ, true, false, pos, negsuc, ◌≤ℤ◌, unsigned_abs, int_le, slice_index_or, slice_set, []};
ghost use Rattle.sample_prediction.specs.Weights.{updated_weight};
ghost use Rattle.lanes.specs.Lanes.{lane, place};
ghost use Rattle.band_lanes.specs.Fours.{opposite_step_of};

use crate::four::step::LongStep;
use lanes::four;
use sample_prediction::predictor::MOST_COMPONENTS;
use std::simd::prelude::*;

/// Updates the weights of component `c` after a place.
///
/// `own` are the central differences there, and `predicted` the predicted ones: an error is negative exactly if the first is
/// at most the second. `RAISED` says whether ρ is negative (CCSDS 123.0-B-1, "Weight Update").
#[inline(always)]
pub(crate) fn update_row<const RAISED: bool>(
    weights: &mut [[i32; 4]; MOST_COMPONENTS],
    c: usize,
    components: &[i32; 4],
    own: i32x4,
    predicted: i32x4,
    step: LongStep,
)
    requires row { c < 18 }
    requires weights_in { (b : ℕ) → b < 4 → unsigned_abs (place weights.old c b) ≤ 2 ^ 21 }
    requires small { (b : ℕ) → b < 4 → unsigned_abs (lane components.now b) ≤ 2 ^ (step.bits + 2) }
    requires raised { RAISED ≡ true → step.exponent ≤ℤ negsuc 0 }
    requires lowered { RAISED ≡ false → pos 0 ≤ℤ step.exponent }
    ensures updated { (b : ℕ) → b < 4 → place weights.new c b ≡ updated_weight step.omega step.exponent (int_le (lane own b) (lane predicted b))
        (place weights.old c b) (lane components.now b) }
    ensures others { weights.new ≡ slice_set weights.old c (slice_index_or weights.new c []) }
{
    let row = updated::<RAISED>(&weights[c], components, own, predicted, step);
    put_row(row, c, weights);
}

/// Replaces row `c`.
#[inline(always)]
fn put_row(row: i32x4, c: usize, weights: &mut [[i32; 4]; MOST_COMPONENTS])
    requires { c < 18 }
    ensures { weights.new ≡ slice_set weights.old c row }
{
    four::put(row, &mut weights[c]);
}

/// Returns four weights after a place.
#[inline(always)]
pub(crate) fn updated<const RAISED: bool>(
    weights: &[i32; 4],
    components: &[i32; 4],
    own: i32x4,
    predicted: i32x4,
    step: LongStep,
) -> i32x4
    requires weights_in { (b : ℕ) → b < 4 → unsigned_abs (lane weights.now b) ≤ 2 ^ 21 }
    requires small { (b : ℕ) → b < 4 → unsigned_abs (lane components.now b) ≤ 2 ^ (step.bits + 2) }
    requires raised { RAISED ≡ true → step.exponent ≤ℤ negsuc 0 }
    requires lowered { RAISED ≡ false → pos 0 ≤ℤ step.exponent }
    ensures { (b : ℕ) → b < 4 → lane result b ≡ updated_weight step.omega step.exponent (int_le (lane own b) (lane predicted b))
        (lane weights.now b) (lane components.now b) }
{
    let weights = four::numbers(weights);
    let components = four::numbers(components);
    let less = opposite::<RAISED>(components, own, predicted, step);
    let moved = four::difference(weights, less);
    four::within(moved, -1 - step.limit, step.limit)
}

/// Returns the opposites of the steps of four bands.
#[inline(always)]
fn opposite<const RAISED: bool>(
    components: i32x4,
    own: i32x4,
    predicted: i32x4,
    step: LongStep,
) -> i32x4
    requires small { (b : ℕ) → b < 4 → unsigned_abs (lane components b) ≤ 2 ^ (step.bits + 2) }
    requires raised { RAISED ≡ true → step.exponent ≤ℤ negsuc 0 }
    requires lowered { RAISED ≡ false → pos 0 ≤ℤ step.exponent }
    ensures value { (b : ℕ) → b < 4 → lane result b ≡ opposite_step_of step.exponent (lane own b) (lane predicted b) (lane components b) }
    ensures bound { (b : ℕ) → b < 4 → unsigned_abs (lane result b) ≤ 2 ^ 27 }
{
    if RAISED {
        raised(components, own, predicted, step)
    } else {
        lowered(components, own, predicted, step)
    }
}

/// `opposite` if ρ is negative: the components times a power of two.
#[inline(always)]
fn raised(components: i32x4, own: i32x4, predicted: i32x4, step: LongStep) -> i32x4
    requires small { (b : ℕ) → b < 4 → unsigned_abs (lane components b) ≤ 2 ^ (step.bits + 2) }
    requires raised { step.exponent ≤ℤ negsuc 0 }
    ensures value { (b : ℕ) → b < 4 → lane result b ≡ opposite_step_of step.exponent (lane own b) (lane predicted b) (lane components b) }
    ensures bound { (b : ℕ) → b < 4 → unsigned_abs (lane result b) ≤ 2 ^ 27 }
{
    let factors = four::where_greater(own, predicted, -step.factor, step.factor);
    four::product(components, factors)
}

/// `opposite` if ρ isn't negative. Where the error isn't negative, the flipped component is its opposite less 1, and the
/// rounding is greater by 1.
#[inline(always)]
fn lowered(components: i32x4, own: i32x4, predicted: i32x4, step: LongStep) -> i32x4
    requires small { (b : ℕ) → b < 4 → unsigned_abs (lane components b) ≤ 2 ^ (step.bits + 2) }
    requires lowered { pos 0 ≤ℤ step.exponent }
    ensures value { (b : ℕ) → b < 4 → lane result b ≡ opposite_step_of step.exponent (lane own b) (lane predicted b) (lane components b) }
    ensures bound { (b : ℕ) → b < 4 → unsigned_abs (lane result b) ≤ 2 ^ 27 }
{
    let mask = four::where_greater(own, predicted, -1, 0);
    let rounding = four::where_greater(own, predicted, step.half, step.half - 1);
    let flipped = four::flipped(components, mask);
    four::shifted(four::sum(flipped, rounding), step.by)
}
