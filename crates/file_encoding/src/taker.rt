//! What residuals are passed to, run by run, by a walk over an image: the file encoder, or a predictor's lane.

ghost use Rattle.std.specs.Prelude.{ℕ, Bool, List};
ghost use Rattle.file_encoding.specs.Codings.{Takes};
ghost use Rattle.file_encoding.specs.Ends.{MayCodeAll};
ghost use Rattle.file_encoding.specs.Takings.{AreTakings};
ghost use Rattle.file_encoding.specs.CodingLaws.{codings_are};

use crate::file_encoder::FileEncoder;

/// Takes residuals until it stops.
pub trait Taker {
    /// Whether it may be given the residuals of a list, in order.
    ghost may: { Self → List ℕ → Type 0 };

    /// How a list changes it: it took all of the list, or it stopped within the list.
    ghost takes: { Self → Self → Bool → List ℕ → Type 0 };

    /// Takes some residuals, in order. Returns false if it has stopped.
    // A slice at a time, not a residual: few calls, and long slices for the block-adaptive coder.
    fn take(&mut self, residuals: &[u16]) -> bool
        requires { may self.old residuals.now }
        ensures { takes self.old self.new result residuals.now };

    /// Lists may be taken one after another.
    ghost laws: { AreTakings may takes };
}

/// It stops where memory runs out.
impl Taker for FileEncoder {
    ghost may = { λ e list. MayCodeAll e list };

    ghost takes = { λ old new all list. Takes old new all list };

    ghost laws = { codings_are };

    fn take(&mut self, residuals: &[u16]) -> bool {
        self.put_all(residuals).is_ok()
    }
}
