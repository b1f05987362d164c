//! The predictors of all bands of an image.

ghost use Rattle.std.specs.Prelude.{◌≡◌, ℕ, Some, slice_get, vec_len, IfOk, IfErr};
ghost use Rattle.cube_core.specs.declared.fault.Fault.TheVariants.{WantOfMemory};
ghost use Rattle.cube_core.specs.Image.{Image};
ghost use Rattle.header_bits.specs.Lawful.{IsLawful};
ghost use Rattle.predict_core.specs.Following.{PredictorState};
ghost use Rattle.predict_core.specs.Walked.{AreAlong};

use crate::band::Band;
use cube_core::fault::Fault;
use header_bits::params::Params;
use std::alloc::Global;

/// Returns the predictors of all bands of an image, each at its first place. Returns `WantOfMemory` if their list can't be
/// allocated.
pub fn all_bands(alloc: Global, params: &Params) -> Result<Vec<Band>, Fault>
    requires { IsLawful params.now }
    ensures len { IfOk result (λ bands. vec_len bands ≡ params.now.shape.bands) }
    ensures along { IfOk result (λ bands. (c : Image) → AreAlong params.now c 0 bands.items) }
    ensures first { IfOk result (λ bands. (z : ℕ) (b : PredictorState) → slice_get bands.items z ≡ Some b → b.t ≡ 0) }
    ensures refused { IfErr result (λ e. e ≡ WantOfMemory) }
{
    let mut bands = Vec::new(alloc);
    for z in 0..params.shape.bands() {
        bands.push(Band::new(alloc, params, z)?)?;
    }
    Ok(bands)
}
