//! From the weights of eight bands at one place to those at the next.

ghost use Rattle.std.specs.Prelude.{◌≡◌, ◌+◌, ◌^◌, ◌<◌, ◌≤◌, ℕ, true, false, pos, negsuc, ◌≤ℤ◌, int_le};
ghost use Rattle.lanes.specs.Lanes.{lane};
ghost use Rattle.sample_prediction.specs.Arithmetic.{floor_div};
ghost use Rattle.sample_prediction.specs.Prediction.{inner_product};
ghost use Rattle.sample_prediction.specs.Weights.{updated_weights};
ghost use Rattle.band_lanes.specs.Rows.{weights_of, components_of, held_difference, AreBelow};

use crate::pairs::{MOST_PAIRS, Pairs, band_row};
use crate::predicted::{predicted, predicted_singly};
use crate::step::{DeepStep, Step};
use crate::update::updated;
use lanes::wide;
use std::simd::prelude::*;

/// Returns the predicted central differences of eight bands at place `i`, each held in 16 bits, and updates the weights.
///
/// The first `Q` pairs of weights and components are used. `own` are the central differences there. Each component is below 2^(D+2)
/// in size. `RAISED` says whether ρ is negative, `LIMITED` whether weights have fewer than 16 bits, and `DEEP` whether samples may have
/// 13 bits (CCSDS 123.0-B-1, "Prediction Calculation", "Weight Update").
#[inline(always)]
pub fn follow_place<const Q: usize, const RAISED: bool, const LIMITED: bool, const DEEP: bool>(
    weights: &mut [[i16; 16]; MOST_PAIRS],
    pairs: &[Pairs; MOST_PAIRS],
    own: &[i16; 8],
    i: usize,
    step: DeepStep,
) -> [i16; 8]
    requires few { Q ≤ 9 }
    requires place { i < 64 }
    requires below { AreBelow (2 ^ (step.bits + 2)) Q pairs.now i }
    requires raised { RAISED ≡ true → step.exponent ≤ℤ negsuc 0 }
    requires lowered { RAISED ≡ false → pos 0 ≤ℤ step.exponent }
    requires whole { LIMITED ≡ false → step.omega ≡ 13 }
    requires shallow { DEEP ≡ false → step.bits ≤ 12 }
    ensures predicted { (b : ℕ) → b < 8 → lane result b ≡ held_difference Q b step.omega weights.old pairs.now i }
    ensures weights { (b : ℕ) → b < 8 → weights_of Q b weights.new ≡ updated_weights step.omega step.exponent (int_le (lane own.now b) (lane result b))
        (weights_of Q b weights.old) (components_of Q b pairs.now i) }
{
    let part = predict_by::<Q, DEEP>(weights, pairs, i, step);
    update_by::<Q, RAISED, LIMITED, DEEP>(weights, pairs, own, &part, i, step);
    part
}

/// Returns the predicted central differences of eight bands at place `i`, each held in 16 bits.
///
/// The first `Q` pairs of weights and components are used. Each component is below 2^(D+2) in size
/// (CCSDS 123.0-B-1, "Prediction Calculation").
#[inline(always)]
pub fn predict_place<const Q: usize>(
    weights: &[[i16; 16]; MOST_PAIRS],
    pairs: &[Pairs; MOST_PAIRS],
    i: usize,
    step: Step,
) -> [i16; 8]
    requires few { Q ≤ 9 }
    requires place { i < 64 }
    requires below { AreBelow (2 ^ (step.bits + 2)) Q pairs.now i }
    ensures { (b : ℕ) → b < 8 → lane result b ≡ held_difference Q b step.omega weights.now pairs.now i }
{
    predict_by::<Q, false>(weights, pairs, i, step.deep())
}

/// `predict_place`; `DEEP` says whether samples may have 13 bits.
#[inline(always)]
fn predict_by<const Q: usize, const DEEP: bool>(
    weights: &[[i16; 16]; MOST_PAIRS],
    pairs: &[Pairs; MOST_PAIRS],
    i: usize,
    step: DeepStep,
) -> [i16; 8]
    requires few { Q ≤ 9 }
    requires place { i < 64 }
    requires below { AreBelow (2 ^ (step.bits + 2)) Q pairs.now i }
    requires shallow { DEEP ≡ false → step.bits ≤ 12 }
    ensures { (b : ℕ) → b < 8 → lane result b ≡ held_difference Q b step.omega weights.now pairs.now i }
{
    wide::held(predicted_by::<Q, DEEP>(weights, pairs, i, step)).to_array()
}

/// Returns the predicted central differences of eight bands at place `i`.
#[inline(always)]
fn predicted_by<const Q: usize, const DEEP: bool>(
    weights: &[[i16; 16]; MOST_PAIRS],
    pairs: &[Pairs; MOST_PAIRS],
    i: usize,
    step: DeepStep,
) -> i32x8
    requires few { Q ≤ 9 }
    requires place { i < 64 }
    requires below { AreBelow (2 ^ (step.bits + 2)) Q pairs.now i }
    requires shallow { DEEP ≡ false → step.bits ≤ 12 }
    ensures { (b : ℕ) → b < 8 → lane result b ≡ floor_div (inner_product (weights_of Q b weights.now) (components_of Q b pairs.now i)) (2 ^ step.omega) }
{
    if DEEP {
        predicted_singly::<Q>(weights, pairs, i, step.omega)
    } else {
        predicted::<Q>(weights, pairs, i, step.omega)
    }
}

/// Updates the first `Q` pairs of weights after place `i`.
///
/// `own` are the central differences there, and `predicted` the predicted ones. Each component is below 2^(D+2) in size. `RAISED` says
/// whether ρ is negative, and `LIMITED` whether weights have fewer than 16 bits (CCSDS 123.0-B-1, "Weight Update").
#[inline(always)]
pub fn update_all<const Q: usize, const RAISED: bool, const LIMITED: bool>(
    weights: &mut [[i16; 16]; MOST_PAIRS],
    pairs: &[Pairs; MOST_PAIRS],
    own: &[i16; 8],
    predicted: &[i16; 8],
    i: usize,
    step: Step,
)
    requires few { Q ≤ 9 }
    requires place { i < 64 }
    requires below { AreBelow (2 ^ (step.bits + 2)) Q pairs.now i }
    requires raised { RAISED ≡ true → step.exponent ≤ℤ negsuc 0 }
    requires lowered { RAISED ≡ false → pos 0 ≤ℤ step.exponent }
    requires whole { LIMITED ≡ false → step.omega ≡ 13 }
    ensures { (b : ℕ) → b < 8 → weights_of Q b weights.new ≡ updated_weights step.omega step.exponent (int_le (lane own.now b) (lane predicted.now b))
        (weights_of Q b weights.old) (components_of Q b pairs.now i) }
{
    update_by::<Q, RAISED, LIMITED, false>(weights, pairs, own, predicted, i, step.deep());
}

/// `update_all`; `DEEP` says whether samples may have 13 bits.
#[inline(always)]
fn update_by<const Q: usize, const RAISED: bool, const LIMITED: bool, const DEEP: bool>(
    weights: &mut [[i16; 16]; MOST_PAIRS],
    pairs: &[Pairs; MOST_PAIRS],
    own: &[i16; 8],
    predicted: &[i16; 8],
    i: usize,
    step: DeepStep,
)
    requires few { Q ≤ 9 }
    requires place { i < 64 }
    requires below { AreBelow (2 ^ (step.bits + 2)) Q pairs.now i }
    requires raised { RAISED ≡ true → step.exponent ≤ℤ negsuc 0 }
    requires lowered { RAISED ≡ false → pos 0 ≤ℤ step.exponent }
    requires whole { LIMITED ≡ false → step.omega ≡ 13 }
    requires shallow { DEEP ≡ false → step.bits ≤ 12 }
    ensures { (b : ℕ) → b < 8 → weights_of Q b weights.new ≡ updated_weights step.omega step.exponent (int_le (lane own.now b) (lane predicted.now b))
        (weights_of Q b weights.old) (components_of Q b pairs.now i) }
{
    let own = band_row(own);
    let predicted = band_row(predicted);
    for c in 0..Q {
        let row = updated::<RAISED, LIMITED, DEEP>(
            &weights[c],
            &pairs[c].places[i],
            i16x8::from_array(own),
            i16x8::from_array(predicted),
            step,
        );
        weights[c] = row;
    }
}
