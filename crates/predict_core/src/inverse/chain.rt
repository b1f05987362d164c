//! The chain of a run whose samples aren't known yet: each sample from its mapped residual, and the weights
//! after it.
//!
//! Parities give the sign of an error before its sample is known.

ghost use Rattle.std.specs.Prelude.{◌≡◌, ◌+◌, ◌-◌, ◌*◌, ◌^◌, ◌<◌, ◌≤◌, false, ℕ, pos, ◌+ℤ◌, ◌-ℤ◌, ◌*ℤ◌, negsuc, ◌≤ℤ◌, int_lt, int_le, unsigned_abs};
ghost use Rattle.std.specs.Prelude.{take, length, slice_index};
ghost use Rattle.cube_core.specs.Kind.{IsSample, smin};
ghost use Rattle.cube_core.specs.Image.{IsPlace, put};
ghost use Rattle.header_bits.specs.declared.params.Params.{Params as Parameters};
ghost use Rattle.sample_prediction.specs.Arithmetic.{floor_div};
ghost use Rattle.sample_prediction.specs.Bounds.{AllWithin};
ghost use Rattle.sample_prediction.specs.Chain.{AreWeightsAt, scaled_by_difference};
ghost use Rattle.sample_prediction.specs.Prediction.{scaled_there, next_weights, weight_vector};
ghost use Rattle.sample_prediction.specs.Residual.{mapped, run_residuals};
ghost use Rattle.predict_core.specs.RunPlaces.{AreAlikeBeside};
ghost use Rattle.predict_core.specs.Steps.{AreSteps};
ghost use Rattle.sample_prediction.specs.Weights.{step_exponent};

use crate::prediction::{local_at, shift_at};
use crate::settings::Settings;
use cube_core::cube::Cube;
use sample_prediction::exponent::places_alike;
use sample_prediction::prediction::predicted_difference;
use sample_prediction::predictor::MOST_COMPONENTS;
use sample_prediction::residual::{prediction_of, unmap_by_center};
use sample_prediction::rows::Rows;
use sample_prediction::sample_limits::SampleLimits;
use sample_prediction::weights::{StepShift, update_by};

/// A run whose samples aren't known yet: its first place, which isn't the first of its band, the weights there, and its mapped
/// residuals.
#[derive(Clone, Copy)]
pub(crate) struct ResidualRun<'a> {
    pub settings: &'a Settings,
    pub y: u32,
    pub x: u32,
    pub weights: [i32; MOST_COMPONENTS],
    pub deltas: &'a [u16],
}

/// Writes the samples of a run, one after another, and returns the cube and the weights after it.
///
/// The cube is passed by value, so that its sizes and its pointer stay in registers while samples are written.
#[inline(always)]
pub(crate) fn invert_places<const N: usize, const WRAPS: bool>(
    mut cube: Cube,
    run: ResidualRun,
) -> (Cube, [i32; MOST_COMPONENTS])
    requires few_weights { N ≤ 18 }
    requires enough { run.settings.now.count ≤ N }
    requires register { WRAPS ≡ false → 46 ≤ run.settings.now.predictor.register }
    requires later { 0 < run.y + run.x }
    requires place { IsPlace cube.shape run.settings.now.band run.y run.x }
    requires columns { cube.shape.columns ≡ run.settings.now.columns }
    requires kind { cube.kind ≡ run.settings.now.range.kind }
    requires inside { run.x + length run.deltas.now ≤ cube.shape.columns }
    requires residuals_in { (i : ℕ) → i < length run.deltas.now → slice_index run.deltas.now i < 2 ^ cube.kind.bits }
    requires weights_in { AllWithin (2 ^ (run.settings.now.predictor.omega + 2)) run.weights }
    ensures beside { AreAlikeBeside cube result.0 run.entry.settings.now.band run.entry.y run.entry.x (length run.entry.deltas.now) }
    ensures residuals { (p : Parameters) → AreWeightsAt p run.entry.settings.now.predictor cube run.entry.settings.now.band
        (run.entry.y * cube.shape.columns + run.entry.x) (take run.entry.settings.now.count run.entry.weights)
        → run_residuals p result.0 run.entry.settings.now.band (run.entry.y * cube.shape.columns + run.entry.x)
        (length run.entry.deltas.now) ≡ run.entry.deltas.now }
    ensures weights { (p : Parameters) → AreWeightsAt p run.entry.settings.now.predictor cube run.entry.settings.now.band
        (run.entry.y * cube.shape.columns + run.entry.x) (take run.entry.settings.now.count run.entry.weights)
        → take run.entry.settings.now.count result.1 ≡ weight_vector p result.0 run.entry.settings.now.band
        (run.entry.y * cube.shape.columns + run.entry.x + length run.entry.deltas.now) }
    ensures within { AllWithin (2 ^ (run.entry.settings.now.predictor.omega + 2)) result.1 }
{
    cube.prove_is_cube();
    let ResidualRun {
        y,
        x,
        mut weights,
        deltas,
        ..
    } = run;
    // A copy stays in registers.
    let settings = *run.settings;
    let mut stretch = Stretch {
        shift: StepShift::none(),
        end: 0,
    };
    for i in 0..deltas.len() {
        let column = x + i as u32;
        stretch = stretch_at(&settings, y, x, i, deltas.len(), stretch);
        let rows = Rows::of(&cube, y);
        let sample = sample_there::<N, WRAPS>(
            &settings,
            &rows,
            y,
            column,
            stretch.shift,
            &mut weights,
            deltas[i],
        );
        cube.set(settings.band, y, column, sample);
    }
    (cube, weights)
}

/// The shift of the steps at places of a run, up to its place `end`.
#[derive(Clone, Copy)]
struct Stretch {
    shift: StepShift,
    end: usize,
}

/// Returns the shift of the steps at place `i` of a run of `count` places, and up to where it stays the same:
/// the one before, while it holds.
#[inline(always)]
fn stretch_at(
    settings: &Settings,
    y: u32,
    x: u32,
    i: usize,
    count: usize,
    before: Stretch,
) -> Stretch
    requires row { y < 65536 }
    requires here { i < count }
    requires inside { x + count ≤ settings.now.columns }
    requires before { (k : ℕ) → i ≤ k → k < before.end
        → AreSteps before.shift settings.now.range.bits (step_exponent settings.now.predictor settings.now.columns settings.now.range.bits
        (y * settings.now.columns + (x + k))) }
    ensures some { i < result.end }
    ensures steps { (k : ℕ) → i ≤ k → k < result.end
        → AreSteps result.shift settings.now.range.bits (step_exponent settings.now.predictor settings.now.columns settings.now.range.bits
        (y * settings.now.columns + (x + k))) }
{
    if i < before.end {
        before
    } else {
        next_stretch(settings, y, x, i, count)
    }
}

/// Returns the shift of the steps at place `i` of a run of `count` places, and up to where it stays the same.
#[cold]
fn next_stretch(settings: &Settings, y: u32, x: u32, i: usize, count: usize) -> Stretch
    requires row { y < 65536 }
    requires here { i < count }
    requires inside { x + count ≤ settings.now.columns }
    ensures some { i < result.end }
    ensures steps { (k : ℕ) → i ≤ k → k < result.end
        → AreSteps result.shift settings.now.range.bits (step_exponent settings.now.predictor settings.now.columns settings.now.range.bits
        (y * settings.now.columns + (x + k))) }
{
    let column = x + i as u32;
    let t = y as u64 * settings.columns as u64 + column as u64;
    let alike = places_alike(&settings.predictor, settings.columns, t, count - i);
    Stretch {
        shift: shift_at(settings, y, column),
        end: i + alike,
    }
}

/// Returns the sample of a mapped residual at a place that is not the first of its band, and updates the weights.
///
/// `shift` is that of the steps there.
#[inline(always)]
fn sample_there<const N: usize, const WRAPS: bool>(
    settings: &Settings,
    rows: &Rows,
    y: u32,
    x: u32,
    shift: StepShift,
    weights: &mut [i32; MOST_COMPONENTS],
    delta: u16,
) -> i32
    requires few { N ≤ 18 }
    requires enough { settings.now.count ≤ N }
    requires register { WRAPS ≡ false → 46 ≤ settings.now.predictor.register }
    requires row { rows.now.y ≡ y }
    requires place { IsPlace rows.now.image.shape settings.now.band y x }
    requires columns { rows.now.image.shape.columns ≡ settings.now.columns }
    requires kind { rows.now.image.kind ≡ settings.now.range.kind }
    requires later { 0 < y + x }
    requires weights_in { AllWithin (2 ^ (settings.now.predictor.omega + 2)) weights.old }
    requires residual { delta < 2 ^ rows.now.image.kind.bits }
    requires steps { AreSteps shift rows.now.image.kind.bits (step_exponent settings.now.predictor rows.now.image.shape.columns
        rows.now.image.kind.bits (y * rows.now.image.shape.columns + x)) }
    ensures range { IsSample rows.now.image.kind result }
    ensures inverse { mapped rows.now.image.kind (scaled_there settings.now.predictor (put rows.now.image settings.now.band y x result)
        settings.now.band y x (take settings.now.count weights.old)) result ≡ delta }
    ensures weights { take settings.now.count weights.new ≡ next_weights settings.now.predictor (put rows.now.image settings.now.band y x result)
        settings.now.band (y * rows.now.image.shape.columns + x) (take settings.now.count weights.old) }
    ensures bound { AllWithin (2 ^ (settings.now.predictor.omega + 2)) weights.new }
{
    rows.prove_is_row();
    let predictor = &settings.predictor;
    let range = &settings.range;
    let local = local_at::<N>(settings, rows, y, x);
    let whole = 4 * range.smin + local.sum as i32;
    let part = predicted_difference::<N, WRAPS>(
        predictor,
        range,
        whole,
        weights,
        &local.differences,
    );
    let found = sample_by_part(range, part, local.sum, delta);
    update_by::<N>(weights, &local.differences, predictor.omega, shift, found.1);
    found.0
}

/// Returns the sample of a mapped residual, from the predicted central difference and the local sum of the
/// offsets; and all ones where its error is negative, else 0.
///
/// Both are computed from its offset, whose least value is 0, so that the ends of the range cost nothing.
#[inline(always)]
fn sample_by_part(range: &SampleLimits, part: i32, sum: u32, delta: u16) -> (i32, i32)
    requires part_in { unsigned_abs part ≤ 18 * 2 ^ 20 }
    requires sum_in { sum ≤ 262140 }
    requires residual { delta < 2 ^ range.now.kind.bits }
    ensures range { IsSample range.now.kind result.0 }
    ensures inverse { mapped range.now.kind (scaled_by_difference range.now.kind part (pos 4 *ℤ smin range.now.kind +ℤ pos sum)) result.0 ≡ delta }
    ensures sign { int_lt result.1 (pos 0) ≡ int_le (pos 4 *ℤ result.0 -ℤ (pos 4 *ℤ smin range.now.kind +ℤ pos sum)) part }
    ensures least { negsuc 0 ≤ℤ result.1 }
    ensures most { result.1 ≤ℤ pos 0 }
{
    let greatest = range.smax - range.smin;
    let center = center_of(part, sum);
    let (offset, sign_mask) = unmap_by_center(0, greatest, center, delta);
    (range.smin + offset, sign_mask)
}

/// Returns the scaled prediction of an offset before it is clipped.
#[inline(always)]
fn center_of(part: i32, sum: u32) -> i32
    requires part_in { unsigned_abs part ≤ 18 * 2 ^ 20 }
    requires sum_in { sum ≤ 262140 }
    ensures value { result ≡ floor_div (part +ℤ pos sum) 2 +ℤ pos 1 }
    ensures bound { unsigned_abs result ≤ 2 ^ 26 }
{
    prediction_of(part + (sum as i32 + 2))
}
