//! The update of the weights of eight bands, in lanes of 32 bits.

ghost use Rattle.std.specs.Prelude.{◌≡◌, ◌+◌, ◌*◌, ◌^◌, ◌<◌, ◌≤◌, ℕ, true, false, pos, negsuc, ◌≤ℤ◌, int_le, unsigned_abs};
ghost use Rattle.lanes.specs.Lanes.{lane};
ghost use Rattle.sample_prediction.specs.Bounds.{AllWithin};
ghost use Rattle.sample_prediction.specs.Weights.{updated_weight, updated_weights};
ghost use Rattle.band_lanes.specs.Rows.{weights_of, pairs_of, AreRowsWithin};

use crate::four::step::LongStep;
use crate::four::update::updated;
use crate::long::vectors::{part_of, put_part, spread};
use crate::pairs::MOST_PAIRS;
use std::simd::prelude::*;

/// Updates the first `Q` pairs of weights after a place.
///
/// `own` are the central differences there, and `predicted` the predicted ones: an error is negative exactly if the first is at most the second.
/// Each component has a size of at most 2^(D+2), and each weight is in its range. `RAISED` says whether ρ is negative
/// (CCSDS 123.0-B-1, "Weight Update").
#[inline(always)]
pub fn update_all<const Q: usize, const RAISED: bool>(
    weights: &mut [[i32; 16]; MOST_PAIRS],
    components: &[[i32; 16]; MOST_PAIRS],
    own: &[i32; 8],
    predicted: &[i32; 8],
    step: LongStep,
)
    requires few { Q ≤ 9 }
    requires weights_in { (b : ℕ) → b < 8 → AllWithin (2 ^ (step.omega + 2)) (weights_of Q b weights.old) }
    requires components_in { AreRowsWithin (2 ^ (step.bits + 2)) Q components.now }
    requires raised { RAISED ≡ true → step.exponent ≤ℤ negsuc 0 }
    requires lowered { RAISED ≡ false → pos 0 ≤ℤ step.exponent }
    ensures { (b : ℕ) → b < 8 → weights_of Q b weights.new ≡ updated_weights step.omega step.exponent (int_le (lane own.now b) (lane predicted.now b))
        (weights_of Q b weights.old) (pairs_of Q b components.now) }
{
    let own = spread(own);
    let predicted = spread(predicted);
    for c in 0..Q {
        let row = updated_row::<RAISED>(&weights[c], &components[c], &own, &predicted, step);
        weights[c] = row;
    }
}

/// Returns a row of pairs of weights after a place, from the central differences there and the predicted ones, of each band twice.
#[inline(always)]
fn updated_row<const RAISED: bool>(
    weights: &[i32; 16],
    components: &[i32; 16],
    own: &[i32; 16],
    predicted: &[i32; 16],
    step: LongStep,
) -> [i32; 16]
    requires weights_in { (k : ℕ) → k < 16 → unsigned_abs (lane weights.now k) ≤ 2 ^ 21 }
    requires small { (k : ℕ) → k < 16 → unsigned_abs (lane components.now k) ≤ 2 ^ (step.bits + 2) }
    requires raised { RAISED ≡ true → step.exponent ≤ℤ negsuc 0 }
    requires lowered { RAISED ≡ false → pos 0 ≤ℤ step.exponent }
    ensures { (k : ℕ) → k < 16 → lane result k ≡ updated_weight step.omega step.exponent (int_le (lane own.now k) (lane predicted.now k))
        (lane weights.now k) (lane components.now k) }
{
    let mut row = *weights;
    for j in 0..4usize {
        let part = updated_part::<RAISED>(weights, components, own, predicted, j, step);
        put_part(part, j, &mut row);
    }
    row
}

/// Returns four weights of a row after a place, from number 4j on.
#[inline(always)]
fn updated_part<const RAISED: bool>(
    weights: &[i32; 16],
    components: &[i32; 16],
    own: &[i32; 16],
    predicted: &[i32; 16],
    j: usize,
    step: LongStep,
) -> i32x4
    requires part { j < 4 }
    requires weights_in { (k : ℕ) → k < 16 → unsigned_abs (lane weights.now k) ≤ 2 ^ 21 }
    requires small { (k : ℕ) → k < 16 → unsigned_abs (lane components.now k) ≤ 2 ^ (step.bits + 2) }
    requires raised { RAISED ≡ true → step.exponent ≤ℤ negsuc 0 }
    requires lowered { RAISED ≡ false → pos 0 ≤ℤ step.exponent }
    ensures { (k : ℕ) → k < 4 → lane result k ≡ updated_weight step.omega step.exponent (int_le (lane own.now (4 * j + k)) (lane predicted.now (4 * j + k)))
        (lane weights.now (4 * j + k)) (lane components.now (4 * j + k)) }
{
    let (weights, _) = weights.as_chunks::<4>();
    let (components, _) = components.as_chunks::<4>();
    updated::<RAISED>(
        &weights[j],
        &components[j],
        part_of(own, j),
        part_of(predicted, j),
        step,
    )
}
