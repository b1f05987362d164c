//! The chain of a run, cut where the exponent of the steps changes.

ghost use Rattle.std.specs.Prelude.{◌+◌, ◌^◌, ◌<◌, ◌≤◌};
ghost use Rattle.sample_prediction.specs.Bounds.{AllWithin};
ghost use Rattle.predict_core.specs.RunChains.{CanFollow, IsFollowed};

use crate::forward::chain::{KnownRun, RunState, Steps, follow_places};
use crate::run::Run;
use sample_prediction::exponent::{exponent_at, places_alike};

/// Writes the predicted central differences of the places of a run that aren't the first of their band, and updates the weights.
///
/// The differences are in `Q` quads, and `N` weights are used (CCSDS 123.0-B-1, "Weight Update").
#[inline(always)]
pub(crate) fn follow_run<const Q: usize, const N: usize, const WRAPS: bool>(
    run: &Run,
    known: KnownRun<Q>,
    state: &mut RunState,
)
    requires known { CanFollow Q N WRAPS known.settings.now run.now.image run.now.y run.now.x run.now.count known.sums.now known.own.now known.quads.now }
    requires order { run.now.first ≤ run.now.count }
    requires later { 0 < run.now.y + (run.now.x + run.now.first) }
    requires weights_in { AllWithin (2 ^ (known.settings.now.predictor.omega + 2)) state.old.weights }
    ensures followed { IsFollowed known.entry.settings.now run.now.image run.now.y run.now.x run.now.first state.old.weights run.now.count
        state.new.weights state.new.parts }
    ensures bound { AllWithin (2 ^ (known.entry.settings.now.predictor.omega + 2)) state.new.weights }
{
    run.prove_is_row();
    let predictor = &known.settings.predictor;
    let columns = known.settings.columns;
    let bits = known.settings.range.bits;
    let start = run.y() as u64 * columns as u64 + run.x() as u64;
    let count = run.count();
    let mut at = run.first();
    while at < count {
        let t = start + at as u64;
        let next = at + places_alike(predictor, columns, t, count - at);
        let steps = Steps {
            omega: predictor.omega,
            bits,
            exponent: exponent_at(predictor, columns, bits, t),
        };
        follow_places::<Q, N, WRAPS>(run, at, next, steps, known, state);
        at = next;
    }
}
