//! What holds of the definitions alone.

ghost use Rattle.file_encoding.specs.Coding.{TimeOfPlace};
ghost use Rattle.file_encoding.specs.Own.{OwnIsPart};

/// As many numbers of a band come before a place in encoding order as the band has places before it.
#[tactic(auto, using(crate::proofs::Endings::time_of_place))]
pub fn time_of_place()
    ensures { TimeOfPlace }
{}

/// A predictor's part of an image's residuals is those of its own bands, in encoding order.
#[tactic(auto, using(crate::proofs::Owning::own_is_part))]
pub fn own_is_part()
    ensures { OwnIsPart }
{}
