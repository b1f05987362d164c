//! Which lanes are exact for the parameters of a predictor.

ghost use Rattle.std.specs.Prelude.{◌≡◌, ◌+◌, ◌*◌, ◌≤◌, ℕ, true};
ghost use Rattle.sample_prediction.specs.Predictor.{component_count};
ghost use Rattle.predict_core.specs.BandLanes.{IsNarrow, FitsNarrow};
ghost use Rattle.predict_core.specs.Largest.{NeverWraps};

use crate::band::first_spectral;
use crate::settings::Settings;

/// Returns whether lanes of 16 bits are exact for some parameters, and leave room for sums of four products and for a step's rounding.
pub fn is_narrow(settings: &Settings) -> bool
    ensures { result ≡ true → IsNarrow settings.now.predictor settings.now.range.bits }
{
    settings.range.bits <= 12 && fits_narrow(settings)
}

/// Returns whether lanes of 16 bits are exact for some parameters.
pub fn fits_narrow(settings: &Settings) -> bool
    ensures { result ≡ true → FitsNarrow settings.now.predictor settings.now.range.bits }
{
    let predictor = &settings.predictor;
    let (omega, bits) = (predictor.omega as i32, settings.range.bits as i32);
    never_wraps(settings)
        && omega <= 13
        && bits <= 13
        && omega <= predictor.vmin + 14
        && predictor.vmax + bits <= omega + 13
}

/// Returns whether the register has room for the greatest sum that a band with the most components can make.
pub fn never_wraps(settings: &Settings) -> bool
    ensures { result ≡ true → (z : ℕ) → NeverWraps settings.now.predictor settings.now.range.bits (component_count settings.now.predictor z) }
{
    let predictor = &settings.predictor;
    let count = most_components(settings) as u64;
    (count + 1) << (predictor.omega + settings.range.bits + 4) <= 1 << (predictor.register - 1)
}

/// Returns how many components a band has that uses all previous bands.
fn most_components(settings: &Settings) -> usize
    ensures few { result ≤ 18 }
    ensures most { (z : ℕ) → component_count settings.now.predictor z ≤ result }
{
    first_spectral(settings.predictor.reduced) + settings.predictor.previous as usize
}

/// Returns how many pairs hold the components of any band.
pub fn pairs_of(settings: &Settings) -> usize
    ensures few { result ≤ 9 }
    ensures enough { (z : ℕ) → component_count settings.now.predictor z ≤ 2 * result }
{
    (most_components(settings) + 1) / 2
}
