//! From the weights at one place to those at the next.
//!
//! An error is negative exactly where the central difference is at most the predicted one. So where nothing
//! wraps in the register, the weights don't wait for the prediction and its clip. The part of a place's work
//! that has to wait for the place before is thus short; predictions and residuals are computed afterwards.

ghost use Rattle.std.specs.Prelude.{◌≡◌, ◌+◌, ◌-◌, ◌*◌, ◌^◌, ◌<◌, ◌≤◌, false, ℕ, pos, negsuc, ◌≤ℤ◌, ◌+ℤ◌, ◌-ℤ◌, ◌*ℤ◌, int_lt, int_le, unsigned_abs, ℤ};
ghost use Rattle.std.specs.Prelude.{List, length, take, ◌++◌, replicate};
ghost use Rattle.cube_core.specs.Image.{IsPlace};
ghost use Rattle.cube_core.specs.Kind.{smin};
ghost use Rattle.sample_prediction.specs.LocalSum.{local_sum};
ghost use Rattle.sample_prediction.specs.Differences.{central_difference, difference_vector};
ghost use Rattle.sample_prediction.specs.Prediction.{scaled_there, next_weights};
ghost use Rattle.sample_prediction.specs.Weights.{step_exponent, updated_weights};
ghost use Rattle.sample_prediction.specs.Bounds.{AllWithin};
ghost use Rattle.predict_core.specs.Rooms.{quad_or_zeros, components_at};
ghost use Rattle.sample_prediction.specs.Chain.{scaled_by_difference};
ghost use Rattle.predict_core.specs.RunChains.{CanFollow, AreStepsThere, IsFollowed};

use crate::differences::room::Quad;
use crate::run::{PIECE, Run};
use crate::settings::Settings;
use sample_prediction::prediction::predicted_difference;
use sample_prediction::predictor::MOST_COMPONENTS;
use sample_prediction::weights::{step_shift, update_by};

/// The parameters of the weight update that stay the same at places with one exponent.
#[derive(Clone, Copy)]
pub(crate) struct Steps {
    pub omega: u32,
    pub bits: u32,
    pub exponent: i32,
    pub ghost omega_in: { omega ≤ 19 },
    pub ghost bits_in: { (2 ≤ bits) × (bits ≤ 16) },
    pub ghost least: { (pos bits -ℤ pos 25) ≤ℤ exponent },
    pub ghost most: { exponent ≤ℤ pos 21 },
}

/// Updates the first `N` weights after a place where the predicted difference is `predicted`.
///
/// `own` is the central difference there (CCSDS 123.0-B-1, "Weight Update").
#[inline(always)]
fn follow<const N: usize>(
    steps: Steps,
    own: i32,
    predicted: i32,
    weights: &mut [i32; MOST_COMPONENTS],
    differences: &[i32; MOST_COMPONENTS],
)
    requires few { N ≤ 18 }
    requires own_in { unsigned_abs own ≤ 2 ^ 18 }
    requires predicted_in { unsigned_abs predicted ≤ 18 * 2 ^ 20 }
    requires weights_in { AllWithin (2 ^ (steps.omega + 2)) weights.old }
    requires differences_in { AllWithin (4 * 2 ^ steps.bits) differences.now }
    ensures weights { take N weights.new ≡ updated_weights steps.omega steps.exponent (int_le own predicted) (take N weights.old) (take N differences.now) }
    ensures bound { AllWithin (2 ^ (steps.omega + 2)) weights.new }
{
    update_by::<N>(
        weights,
        differences,
        steps.omega,
        step_shift(steps.bits, steps.exponent),
        sign_mask_of_error(own, predicted),
    );
}

/// Returns all ones where an error is negative, that is, where the central difference is at most the predicted
/// one; else 0.
#[inline(always)]
pub(crate) fn sign_mask_of_error(own: i32, predicted: i32) -> i32
    requires own_in { unsigned_abs own ≤ 2 ^ 18 }
    requires predicted_in { unsigned_abs predicted ≤ 18 * 2 ^ 20 }
    ensures value { int_lt result (pos 0) ≡ int_le own predicted }
    ensures low { negsuc 0 ≤ℤ result }
    ensures high { result ≤ℤ pos 0 }
{
    (own - 1 - predicted) >> 31
}

/// Returns the components of place `i` from the first `Q` quads, followed by zeros.
#[inline(always)]
pub(crate) fn differences_at<const Q: usize>(quads: &[Quad; Q], i: usize) -> [i32; MOST_COMPONENTS]
    requires few { Q ≤ 5 }
    requires place { i < PIECE }
    ensures { result ≡ take 18 (components_at Q quads.now i ++ replicate 18 (pos 0)) }
{
    let first = quad_at::<Q>(quads, 0, i);
    let second = quad_at::<Q>(quads, 1, i);
    let third = quad_at::<Q>(quads, 2, i);
    let fourth = quad_at::<Q>(quads, 3, i);
    let fifth = quad_at::<Q>(quads, 4, i);
    [
        first[0], first[1], first[2], first[3], second[0], second[1], second[2], second[3],
        third[0], third[1], third[2], third[3], fourth[0], fourth[1], fourth[2], fourth[3],
        fifth[0], fifth[1],
    ]
}

/// Returns the components of place `i` in quad `k`, which are zeros after the first `Q` quads.
#[inline(always)]
fn quad_at<const Q: usize>(quads: &[Quad; Q], k: usize, i: usize) -> [i32; 4]
    requires place { i < PIECE }
    ensures value { result ≡ quad_or_zeros Q quads.now k i }
    ensures long { length result ≡ 4 }
{
    if k < Q {
        four_of(&quads[k].places[i])
    } else {
        [0; 4]
    }
}

/// Returns four components as an array of known length.
#[inline(always)]
fn four_of(components: &[i32; 4]) -> [i32; 4]
    ensures value { result ≡ components.now }
    ensures long { length result ≡ 4 }
{
    *components
}

/// Returns the predicted central difference of place `i` of a run, and updates the weights.
///
/// `sum` is the local sum of the offsets there. The scaled prediction follows from the difference and the local sum alone. The
/// place is not the first of its band.
#[inline(always)]
fn follow_at<const N: usize, const WRAPS: bool>(
    settings: &Settings,
    run: &Run,
    i: usize,
    steps: Steps,
    sum: i32,
    own: i32,
    weights: &mut [i32; MOST_COMPONENTS],
    differences: &[i32; MOST_COMPONENTS],
) -> i32
    requires few { N ≤ 18 }
    requires enough { settings.now.count ≤ N }
    requires register { WRAPS ≡ false → 46 ≤ settings.now.predictor.register }
    requires place { IsPlace run.now.image.shape settings.now.band run.now.y (run.now.x + i) }
    requires columns { run.now.image.shape.columns ≡ settings.now.columns }
    requires kind { run.now.image.kind ≡ settings.now.range.kind }
    requires later { 0 < run.now.y + (run.now.x + i) }
    requires omega { steps.omega ≡ settings.now.predictor.omega }
    requires bits { steps.bits ≡ settings.now.range.bits }
    requires exponent { steps.exponent ≡ step_exponent settings.now.predictor run.now.image.shape.columns run.now.image.kind.bits (run.now.y * run.now.image.shape.columns + (run.now.x + i)) }
    requires sum_is { pos 4 *ℤ smin run.now.image.kind +ℤ sum ≡ local_sum settings.now.predictor run.now.image settings.now.band run.now.y (run.now.x + i) }
    requires sum_in { (pos 0 ≤ℤ sum) × (sum ≤ℤ pos 262140) }
    requires own_is { own ≡ central_difference settings.now.predictor run.now.image settings.now.band run.now.y (run.now.x + i) }
    requires weights_in { AllWithin (2 ^ (steps.omega + 2)) weights.old }
    requires differences_are { differences.now ≡ difference_vector settings.now.predictor run.now.image settings.now.band run.now.y (run.now.x + i) ++ replicate
        (18 - settings.now.count) (pos 0) }
    ensures scaled { scaled_there settings.now.predictor run.now.image settings.now.band run.now.y (run.now.x + i) (take settings.now.count weights.old)
        ≡ scaled_by_difference run.now.image.kind result (local_sum settings.now.predictor run.now.image settings.now.band run.now.y (run.now.x + i)) }
    ensures small { unsigned_abs result ≤ 18 * 2 ^ 20 }
    ensures weights { take settings.now.count weights.new ≡ next_weights settings.now.predictor run.now.image settings.now.band (run.now.y * run.now.image.shape.columns + (run.now.x + i))
        (take settings.now.count weights.old) }
    ensures bound { AllWithin (2 ^ (steps.omega + 2)) weights.new }
{
    run.prove_is_row();
    let predicted = predicted_difference::<N, WRAPS>(
        &settings.predictor,
        &settings.range,
        4 * settings.range.smin + sum,
        weights,
        differences,
    );
    follow::<N>(steps, own, predicted, weights, differences);
    predicted
}

/// A run whose samples are known, with the local sums of offsets, the central differences and the components of its
/// places.
#[derive(Clone, Copy)]
pub(crate) struct KnownRun<'a, const Q: usize> {
    pub settings: &'a Settings,
    pub sums: &'a [i32; PIECE],
    pub own: &'a [i32; PIECE],
    pub quads: &'a [Quad; Q],
}

/// Writes the predicted central difference of place `i` of a run, and updates the weights.
#[inline(always)]
fn follow_place<const Q: usize, const N: usize, const WRAPS: bool>(
    run: &Run,
    i: usize,
    steps: Steps,
    known: KnownRun<Q>,
    parts: &mut [i32; PIECE],
    weights: &mut [i32; MOST_COMPONENTS],
)
    requires known { CanFollow Q N WRAPS known.settings.now run.now.image run.now.y run.now.x (i + 1) known.sums.now known.own.now known.quads.now }
    requires later { 0 < run.now.y + (run.now.x + i) }
    requires steps { AreStepsThere known.settings.now run.now.image steps.omega steps.bits steps.exponent run.now.y (run.now.x + i) }
    requires weights_in { AllWithin (2 ^ (known.settings.now.predictor.omega + 2)) weights.old }
    ensures followed { (first : ℕ) (begun : List ℤ)
        → IsFollowed known.entry.settings.now run.now.image run.now.y run.now.x first begun i weights.old parts.old
        → IsFollowed known.entry.settings.now run.now.image run.now.y run.now.x first begun (i + 1) weights.new parts.new }
    ensures bound { AllWithin (2 ^ (known.entry.settings.now.predictor.omega + 2)) weights.new }
{
    run.prove_is_row();
    let differences = differences_at::<Q>(known.quads, i);
    parts[i] = follow_at::<N, WRAPS>(
        known.settings,
        run,
        i,
        steps,
        known.sums[i],
        known.own[i],
        weights,
        &differences,
    );
}

/// A band's working state in a run: its weights, the predicted central differences of the run's places, and then
/// their mapped residuals.
#[derive(Drop)]
pub(crate) struct RunState {
    pub weights: [i32; MOST_COMPONENTS],
    pub parts: [i32; PIECE],
    pub residuals: [u16; PIECE],
}

impl RunState {
    /// Returns the state before a run.
    pub(crate) fn new(weights: [i32; MOST_COMPONENTS]) -> RunState
        ensures { result.weights ≡ weights }
    {
        RunState {
            weights,
            parts: [0; PIECE],
            residuals: [0; PIECE],
        }
    }
}

/// Writes the predicted central differences of the places `first..last` of a run, and updates the weights.
///
/// The weights are kept in a copy of their own, so that the compiler can keep them in registers.
#[inline(always)]
pub(crate) fn follow_places<const Q: usize, const N: usize, const WRAPS: bool>(
    run: &Run,
    first: usize,
    last: usize,
    steps: Steps,
    known: KnownRun<Q>,
    state: &mut RunState,
)
    requires known { CanFollow Q N WRAPS known.settings.now run.now.image run.now.y run.now.x last known.sums.now known.own.now known.quads.now }
    requires order { first ≤ last }
    requires later { 0 < run.now.y + (run.now.x + first) }
    requires steps { (i : ℕ) → first ≤ i → i < last
        → AreStepsThere known.settings.now run.now.image steps.omega steps.bits steps.exponent run.now.y (run.now.x + i) }
    requires weights_in { AllWithin (2 ^ (known.settings.now.predictor.omega + 2)) state.old.weights }
    ensures followed { (start : ℕ) (begun : List ℤ)
        → IsFollowed known.entry.settings.now run.now.image run.now.y run.now.x start begun first state.old.weights state.old.parts
        → IsFollowed known.entry.settings.now run.now.image run.now.y run.now.x start begun last state.new.weights state.new.parts }
    ensures bound { AllWithin (2 ^ (known.entry.settings.now.predictor.omega + 2)) state.new.weights }
{
    let mut working = state.weights;
    for i in first..last {
        follow_place::<Q, N, WRAPS>(run, i, steps, known, &mut state.parts, &mut working);
    }
    state.weights = working;
}
