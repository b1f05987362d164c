//! Which rows can be inverted as a wavefront.

ghost use Rattle.std.specs.Prelude.{◌≡◌, ◌*◌, ◌^◌, ◌<◌, ◌≤◌, ℕ, pos, ◌+ℤ◌, ◌≤ℤ◌, IfSome};
ghost use Rattle.cube_core.specs.Kind.{smin, smax};
ghost use Rattle.cube_core.specs.Image.{Image};
ghost use Rattle.sample_prediction.specs.Predictor.{component_count};
ghost use Rattle.sample_prediction.specs.Weights.{step_exponent};
ghost use Rattle.predict_core.specs.BandLanes.{IsNarrow};
ghost use Rattle.wave_inversion.specs.WaveForms.{form_in, long_form, narrow_form};
ghost use Rattle.wave_inversion.specs.WaveTiles.{IsFormOf};

use crate::form::Form;
use crate::long::form::LongForm;
use crate::width::Width;
use band_lanes::four::step::LongStep;
use band_lanes::pairs::MOST_PAIRS;
use band_lanes::step::Step;
use predict_core::band::Band;
use predict_core::exact_lanes::{is_narrow, never_wraps, pairs_of};
use predict_core::settings::Settings;
use sample_prediction::exponent::{exponent_at, places_alike};
use sample_prediction::sample_limits::SampleLimits;

/// The least number of columns that are worth the work of going as a wavefront.
const LEAST_COLUMNS: u32 = 32;

/// The least bands that are worth the work of going as a wavefront in lanes of 32 bits.
const LEAST_LONG: usize = 7;

/// The most previous bands that are among the bands of a wavefront and the eight below them at each step.
const NEAR_PREVIOUS: u32 = 7;

/// Returns the form in which row `y` of a band, and of the others of `many` bands with the same parameters, can be inverted as a wavefront:
/// in lanes of 16 bits where these are exact, and else in lanes of 32 if the bands are enough for these.
pub(crate) fn width_of(band: &Band, y: u32, many: usize) -> Option<Width>
    requires { y < band.now.shape.rows }
    ensures form { IfSome result (λ f. (c : Image) → c.shape ≡ band.now.shape → c.kind ≡ band.now.kind → IsFormOf (form_in f) band.now.predictor c y) }
    ensures columns { IfSome result (λ f. 16 ≤ band.now.shape.columns) }
{
    if let Some(form) = form_of(band, y) {
        return Some(Width::Narrow(form));
    }
    if many < LEAST_LONG {
        return None;
    }
    if let Some(form) = long_form_of(band, y) {
        return Some(Width::Long(form));
    }
    None
}

/// Returns the form in lanes of 16 bits where these are exact, and one exponent holds from end to end of the row.
fn form_of(band: &Band, y: u32) -> Option<Form>
    requires { y < band.now.shape.rows }
    ensures form { IfSome result (λ f. (c : Image) → c.shape ≡ band.now.shape → c.kind ≡ band.now.kind → IsFormOf (narrow_form f) band.now.predictor c y) }
    ensures columns { IfSome result (λ f. 16 ≤ band.now.shape.columns) }
{
    let settings = &band.settings;
    let predictor = &settings.predictor;
    let columns = settings.columns;
    let start = y as u64 * columns as u64;
    if columns < LEAST_COLUMNS || !is_narrow(settings) {
        return None;
    }
    if places_alike(predictor, columns, start, columns as usize) < columns as usize {
        return None;
    }
    Some(narrow_form_at(settings, start))
}

/// Returns the form in lanes of 32 bits where no register wraps, and one exponent holds from end to end of the row.
fn long_form_of(band: &Band, y: u32) -> Option<LongForm>
    requires { y < band.now.shape.rows }
    ensures form { IfSome result (λ f. (c : Image) → c.shape ≡ band.now.shape → c.kind ≡ band.now.kind → IsFormOf (long_form f) band.now.predictor c y) }
    ensures columns { IfSome result (λ f. 16 ≤ band.now.shape.columns) }
{
    let settings = &band.settings;
    let predictor = &settings.predictor;
    let columns = settings.columns;
    let start = y as u64 * columns as u64;
    if columns < LEAST_COLUMNS || !never_wraps(settings) {
        return None;
    }
    let alike = places_alike(predictor, columns, start, columns as usize);
    if alike < columns as usize {
        return None;
    }
    Some(long_form_at(settings, start))
}

/// Returns the form in lanes of 16 bits for the exponent at place `t`.
fn narrow_form_at(settings: &Settings, t: u64) -> Form
    requires narrow { IsNarrow settings.now.predictor settings.now.range.bits }
    requires t_in { t < 2 ^ 32 }
    ensures reduced { result.reduced ≡ settings.now.predictor.reduced }
    ensures column { result.column ≡ settings.now.predictor.column }
    ensures previous { result.previous ≡ settings.now.predictor.previous }
    ensures pairs { (z : ℕ) → component_count settings.now.predictor z ≤ 2 * result.pairs }
    ensures greatest { smin settings.now.range.kind +ℤ result.greatest ≡ smax settings.now.range.kind }
    ensures omega { result.step.omega ≡ settings.now.predictor.omega }
    ensures bits { result.step.bits ≡ settings.now.range.bits }
    ensures exponent { result.step.exponent ≡ step_exponent settings.now.predictor settings.now.columns settings.now.range.bits t }
{
    let predictor = &settings.predictor;
    let bits = settings.range.bits;
    let exponent = exponent_at(predictor, settings.columns, bits, t);
    Form {
        reduced: predictor.reduced,
        column: predictor.column,
        previous: predictor.previous as usize,
        pairs: pairs_for(settings),
        greatest: greatest_of(&settings.range),
        step: Step::new(predictor.omega, bits, exponent),
    }
}

/// Returns the form in lanes of 32 bits for the exponent at place `t`.
fn long_form_at(settings: &Settings, t: u64) -> LongForm
    requires t_in { t < 2 ^ 32 }
    ensures reduced { result.reduced ≡ settings.now.predictor.reduced }
    ensures column { result.column ≡ settings.now.predictor.column }
    ensures previous { result.previous ≡ settings.now.predictor.previous }
    ensures pairs { (z : ℕ) → component_count settings.now.predictor z ≤ 2 * result.pairs }
    ensures greatest { smin settings.now.range.kind +ℤ result.greatest ≡ smax settings.now.range.kind }
    ensures omega { result.step.omega ≡ settings.now.predictor.omega }
    ensures bits { result.step.bits ≡ settings.now.range.bits }
    ensures exponent { result.step.exponent ≡ step_exponent settings.now.predictor settings.now.columns settings.now.range.bits t }
{
    let predictor = &settings.predictor;
    let bits = settings.range.bits;
    let exponent = exponent_at(predictor, settings.columns, bits, t);
    LongForm {
        reduced: predictor.reduced,
        column: predictor.column,
        previous: predictor.previous as usize,
        pairs: pairs_for(settings),
        greatest: long_greatest_of(&settings.range),
        step: LongStep::new(predictor.omega, bits, exponent),
    }
}

/// Returns how many pairs a wavefront takes for the components of any band: all, if it asks for bands further below than most do.
fn pairs_for(settings: &Settings) -> usize
    ensures few { result ≤ 9 }
    ensures enough { (z : ℕ) → component_count settings.now.predictor z ≤ 2 * result }
    ensures deep { 7 < settings.now.predictor.previous → 5 < result }
{
    if settings.predictor.previous > NEAR_PREVIOUS {
        MOST_PAIRS
    } else {
        pairs_of(settings)
    }
}

/// Returns the greatest offset of samples of at most 12 bits.
fn greatest_of(range: &SampleLimits) -> i16
    requires { range.now.kind.bits ≤ 12 }
    ensures value { smin range.now.kind +ℤ result ≡ smax range.now.kind }
    ensures bounds { (pos 1 ≤ℤ result) × (result ≤ℤ pos 4095) }
    ensures power { result +ℤ pos 1 ≡ pos (2 ^ range.now.bits) }
{
    (range.smax - range.smin) as i16
}

/// Returns the greatest offset of samples.
fn long_greatest_of(range: &SampleLimits) -> i32
    ensures value { smin range.now.kind +ℤ result ≡ smax range.now.kind }
    ensures bounds { (pos 1 ≤ℤ result) × (result ≤ℤ pos 65535) }
    ensures power { result +ℤ pos 1 ≡ pos (2 ^ range.now.bits) }
{
    range.smax - range.smin
}
