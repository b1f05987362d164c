//! Laws over the definitions alone.

ghost use Rattle.sample_prediction.specs.ErrorSign.{DifferenceBound, ErrorSign, UnwrappedPrediction};
ghost use Rattle.predict_core.specs.Largest.{RegisterBound, CountedBound};
ghost use Rattle.sample_prediction.specs.Mapping.{OneSample};
ghost use Rattle.predict_core.specs.Precedence.{PlacesPrecede};

/// For each scaled prediction the mapping is a bijection from the samples to 0 to 2^D - 1.
pub fn one_sample()
    ensures { OneSample }
{}

/// Every sample that the local sum, the difference vector, the weights or the prediction of a place reads comes before that place.
///
/// It holds in every encoding order: band sequential, and interleaved with each depth.
pub fn places_precede()
    ensures { PlacesPrecede }
{}

/// The number that goes into the register has an absolute value below 2^45.
pub fn register_bound()
    ensures { RegisterBound }
{}

/// The number that goes into the register has an absolute value below (C + 1)·2^(Ω+D+4), for C components.
pub fn counted_bound()
    ensures { CountedBound }
{}

/// A predicted central difference has an absolute value of at most 18·2^20.
pub fn difference_bound()
    ensures { DifferenceBound }
{}

/// In a register of 46 bits or more a prediction follows from the predicted difference and the local sum alone.
///
/// Nothing wraps there, and the fraction of the weights may be dropped before the two are added.
pub fn unwrapped_prediction()
    ensures { UnwrappedPrediction }
{}

/// In a register of 46 bits or more an error is negative exactly where the central difference is at most the
/// predicted one.
///
/// So the weights can be updated without the prediction, and its clip makes no difference to them
/// (CCSDS 123.0-B-1, "Weight Update").
pub fn error_sign()
    ensures { ErrorSign }
{}
