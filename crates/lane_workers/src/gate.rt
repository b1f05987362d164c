//! Gates, which may stop a worker before a number that it is about to send.

ghost use Rattle.std.specs.Prelude.{ℕ, Bool, false, IsTrue, IsFalse};

/// Decides whether a worker may go on.
pub trait Gate {
    /// The pairs of a predictor and a count of sent numbers at which it may be stopped.
    ghost may_stop: { Self → ℕ → ℕ → Bool };

    /// Called before each try to send a number: the `nth` of a predictor, counted from 0, whose earlier tries
    /// failed `turn` times. It may be called more than once for one try, and `turn` stays at `u64::MAX`. False stops the
    /// predictor there, and is returned only at a pair of the set.
    fn pass(&self, predictor: u32, nth: u64, turn: u64) -> bool
        ensures { IsFalse result → IsTrue (may_stop self.now predictor nth) };
}

/// The gate that never stops a predictor.
#[derive(Clone, Copy, Debug)]
pub struct OpenGate;

impl Gate for OpenGate {
    ghost may_stop = { λ _ _ _. false };

    fn pass(&self, _predictor: u32, _nth: u64, _turn: u64) -> bool {
        true
    }
}
