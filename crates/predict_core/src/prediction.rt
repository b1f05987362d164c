//! The prediction of one sample and the weight update after it: one step of a band's predictor.

ghost use Rattle.std.specs.Prelude.{◌≡◌, ◌+◌, ◌-◌, ◌*◌, ◌^◌, ◌<◌, ◌≤◌, pos, negsuc, ◌+ℤ◌, ◌-ℤ◌, ◌*ℤ◌, ◌≤ℤ◌, int_lt, take, ◌++◌, replicate, ℤ, List, length};
ghost use Rattle.cube_core.specs.Image.{IsPlace};
ghost use Rattle.cube_core.specs.Kind.{smin};
ghost use Rattle.sample_prediction.specs.Predictor.{component_count};
ghost use Rattle.sample_prediction.specs.LocalSum.{local_sum};
ghost use Rattle.sample_prediction.specs.Differences.{difference_vector as vector};
ghost use Rattle.sample_prediction.specs.Weights.{step_exponent, updated_weights};
ghost use Rattle.sample_prediction.specs.Prediction.{scaled_there, first_scaled as first_prediction};
ghost use Rattle.sample_prediction.specs.Mapping.{IsScaled};
ghost use Rattle.sample_prediction.specs.Bounds.{AllWithin};
ghost use Rattle.predict_core.specs.Steps.{AreSteps};

use crate::settings::Settings;
use sample_prediction::differences::{fill_differences, sum_at};
use sample_prediction::exponent::exponent_at;
use sample_prediction::prediction::scaled_by;
use sample_prediction::predictor::MOST_COMPONENTS;
use sample_prediction::rows::Rows;
use sample_prediction::weights::{StepShift, step_shift, update};

/// What a place is predicted from: its local sum, of offsets, and its local differences, followed by zeros.
#[derive(Clone, Copy)]
pub(crate) struct Local {
    pub sum: u32,
    pub differences: [i32; MOST_COMPONENTS],
}

/// The prediction at a place, and the differences that it comes from.
#[derive(Clone, Copy)]
pub(crate) struct Prediction {
    pub scaled: i32,
    pub differences: [i32; MOST_COMPONENTS],
}

/// Returns the scaled prediction at the first place of a band; the rows are the first one alone.
pub(crate) fn first_scaled(settings: &Settings, rows: &Rows) -> i32
    requires first { rows.now.y ≡ 0 }
    requires place { IsPlace rows.now.image.shape settings.now.band 0 0 }
    requires kind { rows.now.image.kind ≡ settings.now.range.kind }
    ensures value { result ≡ first_prediction settings.now.predictor rows.now.image settings.now.band }
    ensures scaled { IsScaled rows.now.image.kind result }
{
    let previous = settings.predictor.previous;
    let band = settings.band;
    if previous == 0 || band == 0 {
        2 * settings.range.smid
    } else {
        2 * rows.sample(band - 1, 0)
    }
}

/// Returns the prediction at a place that is not the first of its band.
#[inline(always)]
pub(crate) fn predict(
    settings: &Settings,
    rows: &Rows,
    y: u32,
    x: u32,
    weights: &[i32; MOST_COMPONENTS],
) -> Prediction
    requires row { rows.now.y ≡ y }
    requires place { IsPlace rows.now.image.shape settings.now.band y x }
    requires columns { rows.now.image.shape.columns ≡ settings.now.columns }
    requires kind { rows.now.image.kind ≡ settings.now.range.kind }
    requires later { 0 < y + x }
    requires weights_in { AllWithin (2 ^ (settings.now.predictor.omega + 2)) weights.now }
    ensures differences { result.differences ≡ vector settings.now.predictor rows.now.image settings.now.band y x ++ replicate
        (18 - component_count settings.now.predictor settings.now.band) (pos 0) }
    ensures bound { AllWithin (4 * 2 ^ settings.now.range.bits) result.differences }
    ensures value { result.scaled ≡ scaled_there settings.now.predictor rows.now.image settings.now.band y x
        (take (component_count settings.now.predictor settings.now.band) weights.now) }
    ensures scaled { IsScaled rows.now.image.kind result.scaled }
{
    rows.prove_is_row();
    let predictor = &settings.predictor;
    let range = &settings.range;
    let local = local_at::<MOST_COMPONENTS>(settings, rows, y, x);
    let whole = 4 * range.smin + local.sum as i32;
    let scaled = scaled_by(
        predictor,
        range,
        settings.count,
        whole,
        weights,
        &local.differences,
    );
    Prediction {
        scaled,
        differences: local.differences,
    }
}

/// Returns the local sum and the local differences, at most `N`, at a place that is not the first of its band.
#[inline(always)]
pub(crate) fn local_at<const N: usize>(settings: &Settings, rows: &Rows, y: u32, x: u32) -> Local
    requires enough { settings.now.count ≤ N }
    requires row { rows.now.y ≡ y }
    requires place { IsPlace rows.now.image.shape settings.now.band y x }
    requires columns { rows.now.image.shape.columns ≡ settings.now.columns }
    requires kind { rows.now.image.kind ≡ settings.now.range.kind }
    requires later { 0 < y + x }
    ensures sum { local_sum settings.now.predictor rows.now.image settings.now.band y x ≡ pos 4 *ℤ smin rows.now.image.kind +ℤ pos result.sum }
    ensures sum_in { result.sum ≤ 262140 }
    ensures differences { result.differences ≡ vector settings.now.predictor rows.now.image settings.now.band y x ++ replicate
        (18 - component_count settings.now.predictor settings.now.band) (pos 0) }
    ensures bound { AllWithin (4 * 2 ^ settings.now.range.bits) result.differences }
{
    rows.prove_is_row();
    let predictor = &settings.predictor;
    let sum = sum_at(predictor, rows, settings.band, y, x);
    let mut differences = [0i32; MOST_COMPONENTS];
    fill_differences::<N>(
        predictor,
        rows,
        settings.band,
        y,
        x,
        sum,
        settings.near,
        &mut differences,
    );
    Local { sum, differences }
}

/// Updates the weights after a sample at place `t`.
#[inline(always)]
pub(crate) fn learn(
    settings: &Settings,
    t: u64,
    weights: &mut [i32; MOST_COMPONENTS],
    prediction: &Prediction,
    sample: i32,
)
    requires t_in { t < 2 ^ 32 }
    requires weights_in { AllWithin (2 ^ (settings.now.predictor.omega + 2)) weights.old }
    requires differences_in { AllWithin (4 * 2 ^ settings.now.range.bits) prediction.now.differences }
    requires scaled_in { IsScaled settings.now.range.kind prediction.now.scaled }
    requires sample_in { (negsuc 32767 ≤ℤ sample) × (sample ≤ℤ pos 65535) }
    ensures value { (us : List ℤ) → length us ≡ settings.now.count → prediction.now.differences ≡ us ++ replicate (18 - settings.now.count) (pos 0)
        → take settings.now.count weights.new ≡ updated_weights settings.now.predictor.omega (step_exponent settings.now.predictor settings.now.columns
        settings.now.range.bits t) (int_lt (pos 2 *ℤ sample -ℤ prediction.now.scaled) (pos 0)) (take settings.now.count weights.old) us }
    ensures bound { AllWithin (2 ^ (settings.now.predictor.omega + 2)) weights.new }
{
    let exponent = exponent_at(
        &settings.predictor,
        settings.columns,
        settings.range.bits,
        t,
    );
    let negative = 2 * sample < prediction.scaled;
    update(
        settings.count,
        weights,
        &prediction.differences,
        settings.predictor.omega,
        settings.range.bits,
        exponent,
        negative,
    );
}

/// Returns the shift of the steps after row `y`, column `x`, a place that is not the first of its band.
#[inline(always)]
pub(crate) fn shift_at(settings: &Settings, y: u32, x: u32) -> StepShift
    requires row { y < 65536 }
    requires column { x < settings.now.columns }
    ensures { AreSteps result settings.now.range.bits (step_exponent settings.now.predictor settings.now.columns settings.now.range.bits
        (y * settings.now.columns + x)) }
{
    let bits = settings.range.bits;
    let t = u64::from(y) * u64::from(settings.columns) + u64::from(x);
    step_shift(
        bits,
        exponent_at(&settings.predictor, settings.columns, bits, t),
    )
}
