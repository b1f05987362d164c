//! The mapping of samples to residuals.
#![tactic(auto, unfolding(crate::specs::Unfold::everything))]

ghost use Rattle.std.specs.Prelude.{◌≡◌, pos};
ghost use Rattle.cube_core.specs.Examples.{unsigned};
ghost use Rattle.sample_prediction.specs.Residual.{mapped};

/// An even scaled prediction gives larger samples even numbers.
pub fn even_scaled_larger_sample()
    ensures { mapped (unsigned 8) (pos 256) (pos 129) ≡ 2 }
{}

/// And smaller ones odd numbers.
pub fn even_scaled_smaller_sample()
    ensures { mapped (unsigned 8) (pos 256) (pos 127) ≡ 1 }
{}

/// An odd scaled prediction gives larger samples odd numbers.
pub fn odd_scaled_larger_sample()
    ensures { mapped (unsigned 8) (pos 257) (pos 129) ≡ 1 }
{}

/// And smaller ones even numbers.
pub fn odd_scaled_smaller_sample()
    ensures { mapped (unsigned 8) (pos 257) (pos 127) ≡ 2 }
{}

/// Beyond the nearer end of the range each size has one number.
pub fn beyond_the_nearer_end()
    ensures { mapped (unsigned 8) (pos 400) (pos 0) ≡ 255 }
{}

/// The greatest scaled prediction predicts the greatest sample.
pub fn greatest_scaled_greatest_sample()
    ensures { mapped (unsigned 8) (pos 511) (pos 255) ≡ 0 }
{}

/// And gives the least one the greatest number.
pub fn greatest_scaled_least_sample()
    ensures { mapped (unsigned 8) (pos 511) (pos 0) ≡ 255 }
{}
