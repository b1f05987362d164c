//! Laws of the coder's definitions.

ghost use Rattle.sample_adaptive.specs.Laws.{OneForm, OneWord, OneBody, WordIsRead, TruncatedIsNoForm, BadCodeIsNoWord, BodyIsRead, AccumulatorBound};
ghost use Rattle.sample_adaptive.specs.Laws.{ParameterIsGreatest};

/// No form of a code word is a prefix of another.
pub fn one_form()
    ensures { OneForm }
{}

/// No code word is a prefix of another.
pub fn one_word()
    ensures { OneWord }
{}

/// No body is a prefix of the body of another list of as many residuals.
pub fn one_body()
    ensures { OneBody }
{}

/// A residual is read exactly where the bits begin with its code word.
pub fn word_is_read()
    ensures { WordIsRead }
{}

/// Bits that are refused as `Truncated` begin with no form of a code word.
pub fn truncated_is_no_form()
    ensures { TruncatedIsNoForm }
{}

/// Bits that are refused as `BadCode` begin with a form of a code word that no residual has.
pub fn bad_code_is_no_word()
    ensures { BadCodeIsNoWord }
{}

/// The residuals of a body are read exactly where the bits begin with the body.
pub fn body_is_read()
    ensures { BodyIsRead }
{}

/// The accumulator is at most 2^16 times the counter.
pub fn accumulator_bound()
    ensures { AccumulatorBound }
{}

/// The code parameter is the greatest that the standard's condition allows.
pub fn parameter_is_greatest()
    ensures { ParameterIsGreatest }
{}
