//! Predicted central differences, and the signs of errors that follow from them.
#![tactic(auto, unfolding(crate::specs::Unfold::everything))]

ghost use Rattle.std.specs.Prelude.{◌≡◌, pos, negsuc};
ghost use Rattle.cube_core.specs.Image.{sample_at};
ghost use Rattle.sample_prediction.specs.Predictor.{predictor_of};
ghost use Rattle.sample_prediction.specs.Differences.{central_difference};
ghost use Rattle.sample_prediction.specs.Prediction.{scaled_prediction};
ghost use Rattle.sample_prediction.specs.ErrorSign.{predicted_difference};
ghost use Rattle.sample_prediction.specs.Examples.{cube_a, full};

/// The fraction of the weights is dropped downwards, on both sides of 0.
pub fn predicted_differences_are_rounded_down()
    ensures whole { predicted_difference full cube_a 1 0 1 ≡ pos 7 }
    ensures positive { predicted_difference full cube_a 1 0 2 ≡ pos 10 }
    ensures negative { predicted_difference full cube_a 1 1 2 ≡ negsuc 3 }
{}

/// Where the central difference is the predicted one, the scaled prediction is one above twice the
/// sample, and so the error is negative.
pub fn equal_differences_give_a_negative_error()
    ensures central { central_difference (predictor_of full) cube_a 0 1 0 ≡ pos 0 }
    ensures predicted { predicted_difference full cube_a 0 1 0 ≡ pos 0 }
    ensures scaled { scaled_prediction full cube_a 0 3 ≡ pos 203 }
    ensures sample { sample_at cube_a 0 1 0 ≡ pos 101 }
{}
