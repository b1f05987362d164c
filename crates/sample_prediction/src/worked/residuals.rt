//! Residuals of whole cubes.
#![tactic(auto, unfolding(crate::specs::Unfold::everything))]

ghost use Rattle.std.specs.Prelude.{◌≡◌, ◌∷◌, [], pos, negsuc, neg_ℤ};
ghost use Rattle.cube_core.specs.Examples.{sizes, signed, unsigned};
ghost use Rattle.sample_prediction.specs.Residual.{residuals};
ghost use Rattle.sample_prediction.specs.Examples.{cube_a, cube, common, one_below, coarse_steps, fine, full, interleaved, scaled_of_cube_a, register_cube};

/// The residual of a lone sample follows from its distance from the middle.
pub fn one_sample()
    ensures { residuals common (cube 1 1 1 (200 ∷ [])) ≡ 144 ∷ [] }
{}

/// With no band below, a sample equal to the one above it has residual 0.
pub fn two_equal_samples()
    ensures { residuals common (cube 1 2 1 (200 ∷ 200 ∷ [])) ≡ 144 ∷ 0 ∷ [] }
{}

/// An odd scaled prediction counts a larger sample first.
pub fn second_sample_larger()
    ensures { residuals common (cube 1 2 1 (200 ∷ 210 ∷ [])) ≡ 144 ∷ 19 ∷ [] }
{}

/// The first sample of a band is predicted from the band below.
pub fn second_band_predicted_from_first()
    ensures { residuals one_below (cube 1 1 2 (200 ∷ 201 ∷ [])) ≡ 144 ∷ 2 ∷ [] }
{}

/// The middle sample has residual 0.
pub fn middle_sample()
    ensures { residuals common (cube 1 1 1 (128 ∷ [])) ≡ 0 ∷ [] }
{}

/// The least sample of 16 signed bits.
pub fn signed_sixteen_bits()
    ensures { residuals common (record { shape = sizes 1 1 1; kind = signed 16; samples = neg_ℤ (pos 32768) ∷ [] }) ≡ 65535 ∷ [] }
{}

/// Samples of 4 bits.
pub fn four_bits()
    ensures { residuals common (record { shape = sizes 1 1 1; kind = unsigned 4; samples = pos 9 ∷ [] }) ≡ 2 ∷ [] }
{}

/// A step at an exponent of 0, rounded down: the weight goes from 14 to 10.
pub fn step_rounded_down()
    ensures { residuals (coarse_steps (negsuc 3)) (cube 1 3 2 (100 ∷ 102 ∷ 110 ∷ 100 ∷ 100 ∷ 105 ∷ [])) ≡ 55 ∷ 3 ∷ 15 ∷ 0 ∷ 3 ∷ 0 ∷ [] }
{}

/// Cube A in BSQ order.
pub fn cube_a_bsq()
    ensures { residuals full cube_a ≡ 55 ∷ 3 ∷ 5 ∷ 0 ∷ 4 ∷ 2 ∷ 20 ∷ 1 ∷ 2 ∷ 2 ∷ 1 ∷ 2 ∷ [] }
{}

/// Cube A interleaved by line.
pub fn cube_a_bil()
    ensures { residuals (interleaved 1) cube_a ≡ 55 ∷ 3 ∷ 5 ∷ 20 ∷ 1 ∷ 2 ∷ 0 ∷ 4 ∷ 2 ∷ 2 ∷ 1 ∷ 2 ∷ [] }
{}

/// Cube A interleaved by pixel.
pub fn cube_a_bip()
    ensures { residuals (interleaved 2) cube_a ≡ 55 ∷ 20 ∷ 3 ∷ 1 ∷ 5 ∷ 2 ∷ 0 ∷ 2 ∷ 4 ∷ 1 ∷ 2 ∷ 2 ∷ [] }
{}

/// The scaled predicted values of the first band of cube A.
pub fn cube_a_scaled_below()
    ensures { scaled_of_cube_a 0 6 ≡ pos 256 ∷ pos 201 ∷ pos 205 ∷ pos 203 ∷ pos 204 ∷ pos 209 ∷ [] }
{}

/// The scaled predicted values of the second band of cube A.
pub fn cube_a_scaled_above()
    ensures { scaled_of_cube_a 1 6 ≡ pos 200 ∷ pos 224 ∷ pos 228 ∷ pos 222 ∷ pos 228 ∷ pos 226 ∷ [] }
{}

/// A register of 32 bits wraps at the last sample.
pub fn register_wraps()
    ensures { residuals (fine 32) register_cube ≡ 2039 ∷ 8 ∷ 7 ∷ 2047 ∷ [] }
{}

/// One of 64 bits does not.
pub fn register_of_64_bits_does_not()
    ensures { residuals (fine 64) register_cube ≡ 2039 ∷ 8 ∷ 7 ∷ 0 ∷ [] }
{}
