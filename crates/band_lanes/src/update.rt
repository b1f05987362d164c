//! The update of the weights of eight bands.

ghost use Rattle.std.specs.Prelude.{◌≡◌, ◌+◌, ◌/◌, ◌^◌, ◌<◌, ◌≤◌, ℕ, true, false, pos, negsuc, ◌≤ℤ◌, ◌+ℤ◌, unsigned_abs, ℤ};
ghost use Rattle.sample_prediction.specs.Arithmetic.{clip};
ghost use Rattle.sample_prediction.specs.Weights.{weight_min, weight_max};
ghost use Rattle.lanes.specs.Lanes.{lane, held, halved};
ghost use Rattle.band_lanes.specs.Updates.{opposite_step, updated_lane};

use crate::pairs::row_of;
use crate::step::DeepStep;
use lanes::narrow;
use std::simd::prelude::*;

/// Returns the weights of a pair of components after a place.
///
/// `own` are the central differences there, and `predicted` the predicted ones: an error is negative exactly if the first is
/// at most the second. `RAISED` says whether ρ is negative, `LIMITED` whether weights have fewer than 16 bits, and `DEEP` whether
/// samples may have 13 bits (CCSDS 123.0-B-1, "Weight Update").
#[inline(always)]
pub(crate) fn updated<const RAISED: bool, const LIMITED: bool, const DEEP: bool>(
    weights: &[i16; 16],
    components: &[i16; 16],
    own: i16x8,
    predicted: i16x8,
    step: DeepStep,
) -> [i16; 16]
    requires small { (k : ℕ) → k < 16 → unsigned_abs (lane components.now k) < 2 ^ (step.bits + 2) }
    requires raised { RAISED ≡ true → step.exponent ≤ℤ negsuc 0 }
    requires lowered { RAISED ≡ false → pos 0 ≤ℤ step.exponent }
    requires whole { LIMITED ≡ false → step.omega ≡ 13 }
    requires shallow { DEEP ≡ false → step.bits ≤ 12 }
    ensures { (k : ℕ) → k < 16 → lane result k ≡ updated_lane step.omega step.exponent own predicted weights.now components.now k }
{
    let weights = i16x16::from_array(row_of(weights));
    let components = i16x16::from_array(row_of(components));
    let less = opposite::<RAISED, DEEP>(components, own, predicted, step);
    limited::<LIMITED>(narrow::held_difference(weights, less), step).to_array()
}

/// Returns the opposites of the steps of eight bands.
#[inline(always)]
fn opposite<const RAISED: bool, const DEEP: bool>(
    components: i16x16,
    own: i16x8,
    predicted: i16x8,
    step: DeepStep,
) -> i16x16
    requires small { (k : ℕ) → k < 16 → unsigned_abs (lane components k) < 2 ^ (step.bits + 2) }
    requires raised { RAISED ≡ true → step.exponent ≤ℤ negsuc 0 }
    requires lowered { RAISED ≡ false → pos 0 ≤ℤ step.exponent }
    requires shallow { DEEP ≡ false → step.bits ≤ 12 }
    ensures { (k : ℕ) → k < 16 → lane result k ≡ opposite_step step.exponent own predicted components k }
{
    if RAISED {
        raised(components, own, predicted, step)
    } else {
        unraised::<DEEP>(components, own, predicted, step)
    }
}

/// `opposite` if ρ is negative: the components times a power of two.
#[inline(always)]
fn raised(components: i16x16, own: i16x8, predicted: i16x8, step: DeepStep) -> i16x16
    requires small { (k : ℕ) → k < 16 → unsigned_abs (lane components k) < 2 ^ (step.bits + 2) }
    requires raised { step.exponent ≤ℤ negsuc 0 }
    ensures { (k : ℕ) → k < 16 → lane result k ≡ opposite_step step.exponent own predicted components k }
{
    let factors = narrow::where_greater(own, predicted, -step.factor, step.factor);
    narrow::product(components, spread(factors))
}

/// `opposite` if ρ isn't negative.
#[inline(always)]
fn unraised<const DEEP: bool>(
    components: i16x16,
    own: i16x8,
    predicted: i16x8,
    step: DeepStep,
) -> i16x16
    requires small { (k : ℕ) → k < 16 → unsigned_abs (lane components k) < 2 ^ (step.bits + 2) }
    requires lowered { pos 0 ≤ℤ step.exponent }
    requires shallow { DEEP ≡ false → step.bits ≤ 12 }
    ensures { (k : ℕ) → k < 16 → lane result k ≡ opposite_step step.exponent own predicted components k }
{
    if DEEP {
        deep_lowered(components, own, predicted, step)
    } else {
        lowered(components, own, predicted, step)
    }
}

/// `unraised` for samples of at most 12 bits. Where the error isn't negative, the flipped component is its opposite less 1, and the
/// rounding is greater by 1.
#[inline(always)]
fn lowered(components: i16x16, own: i16x8, predicted: i16x8, step: DeepStep) -> i16x16
    requires small { (k : ℕ) → k < 16 → unsigned_abs (lane components k) < 2 ^ (step.bits + 2) }
    requires lowered { pos 0 ≤ℤ step.exponent }
    requires shallow { step.bits ≤ 12 }
    ensures { (k : ℕ) → k < 16 → lane result k ≡ opposite_step step.exponent own predicted components k }
{
    let mask = narrow::where_greater(own, predicted, -1, 0);
    let rounding = narrow::where_greater(own, predicted, step.half, step.half - 1);
    let flipped = narrow::flipped(components, spread(mask));
    narrow::shifted(narrow::sum(flipped, spread(rounding)), step.by)
}

/// `lowered` if a component can fill 16 bits, so that nothing may be added before it is shifted: it is rounded down first, and then
/// half of it is rounded to the nearest.
#[inline(always)]
fn deep_lowered(components: i16x16, own: i16x8, predicted: i16x8, step: DeepStep) -> i16x16
    requires small { (k : ℕ) → k < 16 → unsigned_abs (lane components k) < 2 ^ (step.bits + 2) }
    requires lowered { pos 0 ≤ℤ step.exponent }
    ensures { (k : ℕ) → k < 16 → lane result k ≡ opposite_step step.exponent own predicted components k }
{
    let turn = narrow::where_greater(own, predicted, -1, 0);
    let less = narrow::where_greater(own, predicted, 0, 1);
    let flipped = narrow::flipped(components, spread(turn));
    half_of(narrow::shifted(narrow::held_difference(flipped, spread(less)), step.by - 1))
}

/// Returns half of each number, rounded to the nearest, and halves up.
#[inline(always)]
fn half_of(numbers: i16x16) -> i16x16
    ensures { (k : ℕ) → k < 16 → lane numbers k ≤ℤ pos 32766 → lane result k ≡ halved (lane numbers k +ℤ pos 1) 1 }
{
    narrow::shifted(narrow::sum(numbers, i16x16::splat(1)), 1)
}

/// Returns the weights, each held in its range.
#[inline(always)]
fn limited<const LIMITED: bool>(weights: i16x16, step: DeepStep) -> i16x16
    requires whole { LIMITED ≡ false → step.omega ≡ 13 }
    ensures { (k : ℕ) (w : ℤ) → k < 16 → lane weights k ≡ held w → lane result k ≡ clip w (weight_min step.omega) (weight_max step.omega) }
{
    if LIMITED {
        narrow::within(weights, -1 - step.limit, step.limit)
    } else {
        weights
    }
}

/// Returns each number twice, side by side.
#[inline(always)]
fn spread(numbers: i16x8) -> i16x16
    ensures { (k : ℕ) → k < 16 → lane result k ≡ lane numbers (k / 2) }
{
    narrow::paired(numbers, numbers)
}
