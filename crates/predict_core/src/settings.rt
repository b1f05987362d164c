//! The constants of a band's predictor, computed once for all its samples.

ghost use Rattle.std.specs.Prelude.{◌≡◌, ◌≤◌, false};
ghost use Rattle.cube_core.specs.Shape.{InRange};
ghost use Rattle.sample_prediction.specs.Predictor.{previous_bands, component_count};
ghost use Rattle.sample_prediction.specs.Bounds.{IsPredictor};

use sample_prediction::predictor::Predictor;
use sample_prediction::sample_limits::SampleLimits;

/// The parameters of a band's predictor, and the constants that follow from them.
#[derive(Clone, Copy)]
pub struct Settings {
    pub predictor: Predictor,
    pub range: SampleLimits,
    pub columns: u32,
    pub band: u32,
    /// The number of previous bands that are used.
    pub near: usize,
    /// The number of weights in use.
    pub count: usize,
    pub ghost lawful: { IsPredictor predictor },
    pub ghost columns_in: { InRange 1 65536 columns },
    pub ghost near_is: { near ≡ previous_bands predictor band },
    pub ghost count_is: { count ≡ component_count predictor band },
    pub ghost few: { count ≤ 18 },
    pub ghost wide: { predictor.column ≡ false → 2 ≤ columns },
}
