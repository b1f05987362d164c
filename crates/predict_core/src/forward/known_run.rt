//! Predicting a run whose samples are known.

ghost use Rattle.std.specs.Prelude.{◌≡◌, ◌+◌, ◌*◌, ◌^◌, ◌<◌, ◌≤◌, false, ℕ, ℤ, pos, unsigned_abs, List, take, length, slice_index, slice_index_or};
ghost use Rattle.header_bits.specs.declared.params.Params.{Params as Parameters};
ghost use Rattle.sample_prediction.specs.Chain.{AreWeightsAt};
ghost use Rattle.sample_prediction.specs.Residual.{run_residuals};
ghost use Rattle.predict_core.specs.Rooms.{IsRoom, quads_of};
ghost use Rattle.predict_core.specs.ImageRuns.{IsRunOf};
ghost use Rattle.predict_core.specs.RunChains.{IsFollowed, CanPredict, HasPredicted};

use crate::band::first_residual;
use crate::differences::room::{Quad, fill_run};
use crate::forward::chain::{KnownRun, RunState};
use crate::forward::pieces::follow_run;
use crate::mapping::map_run;
use crate::run::{PIECE, Run};
use crate::settings::Settings;
use sample_prediction::predictor::MOST_COMPONENTS;

/// Computes the mapped residuals of a run, and updates the weights.
pub(crate) fn predict_run(run: &Run, settings: &Settings, state: &mut RunState)
    requires run { CanPredict settings.now run.now state.old.weights }
    ensures { HasPredicted settings.now run.now.image run.now.y run.now.x run.now.count state.old.weights state.new.weights state.new.residuals }
{
    let wraps = settings.predictor.register < 46;
    if wraps {
        predict_in::<true>(run, settings, state);
    } else {
        predict_in::<false>(run, settings, state);
    }
}

/// `predict_run` for a register that may wrap (`WRAPS`) or has 46 bits or more and never does.
///
/// The number of weights is found once, so that the compiler knows it in the loops over places.
fn predict_in<const WRAPS: bool>(run: &Run, settings: &Settings, state: &mut RunState)
    requires register { WRAPS ≡ false → 46 ≤ settings.now.predictor.register }
    requires run { CanPredict settings.now run.now state.old.weights }
    ensures { HasPredicted settings.now run.now.image run.now.y run.now.x run.now.count state.old.weights state.new.weights state.new.residuals }
{
    let weights = settings.count;
    if weights == 0 {
        predict_by::<0, 0, WRAPS>(run, settings, state);
    } else if weights <= 4 {
        predict_by::<1, 4, WRAPS>(run, settings, state);
    } else if weights <= 8 {
        predict_by::<2, 8, WRAPS>(run, settings, state);
    } else if weights <= 12 {
        predict_by::<3, 12, WRAPS>(run, settings, state);
    } else if weights <= 16 {
        predict_by::<4, 16, WRAPS>(run, settings, state);
    } else {
        predict_by::<5, MOST_COMPONENTS, WRAPS>(run, settings, state);
    }
}

/// `predict_in` with `N` weights, whose differences take `Q` quads.
///
/// What depends on the samples alone is computed first, for all places at once; then the predicted differences,
/// one after another; and then all residuals at once.
fn predict_by<const Q: usize, const N: usize, const WRAPS: bool>(
    run: &Run,
    settings: &Settings,
    state: &mut RunState,
)
    requires few { N ≤ 18 }
    requires enough { settings.now.count ≤ N }
    requires quads { Q ≡ quads_of settings.now.count }
    requires register { WRAPS ≡ false → 46 ≤ settings.now.predictor.register }
    requires run { CanPredict settings.now run.now state.old.weights }
    ensures { HasPredicted settings.now run.now.image run.now.y run.now.x run.now.count state.old.weights state.new.weights state.new.residuals }
{
    let none = Quad {
        places: [[0; 4]; PIECE],
    };
    let mut sums = [0; PIECE];
    let mut own = [0; PIECE];
    let mut quads = [none; Q];
    fill_run::<Q>(settings, run, &mut sums, &mut own, &mut quads);
    let known = KnownRun {
        settings,
        sums: &sums,
        own: &own,
        quads: &quads,
    };
    follow_run::<Q, N, WRAPS>(run, known, state);
    write_residuals::<Q>(run, known, state);
}

/// Writes the mapped residuals of a run, all at once, when the differences of the places that aren't the first of their band are
/// predicted.
#[inline(always)]
fn write_residuals<const Q: usize>(run: &Run, known: KnownRun<Q>, state: &mut RunState)
    requires room { IsRoom known.settings.now.predictor run.now.image known.settings.now.band run.now.y run.now.x run.now.count known.settings.now.count
        known.sums.now known.own.now known.quads.now }
    requires run { IsRunOf known.settings.now.band run.now }
    requires kind { run.now.image.kind ≡ known.settings.now.range.kind }
    requires parts_in { (i : ℕ) → run.now.first ≤ i → i < run.now.count → unsigned_abs (slice_index_or state.old.parts i (pos 0)) ≤ 18 * 2 ^ 20 }
    ensures bound { (i : ℕ) → i < run.now.count → slice_index_or state.new.residuals i 0 < 2 ^ run.now.image.kind.bits }
    ensures residuals { (p : Parameters) (begun ws : List ℤ) → AreWeightsAt p known.entry.settings.now.predictor run.now.image known.entry.settings.now.band
        (run.now.y * run.now.image.shape.columns + run.now.x) (take known.entry.settings.now.count begun)
        → IsFollowed known.entry.settings.now run.now.image run.now.y run.now.x run.now.first begun run.now.count ws state.old.parts
        → take run.now.count state.new.residuals ≡ run_residuals p run.now.image known.entry.settings.now.band
        (run.now.y * run.now.image.shape.columns + run.now.x) run.now.count }
    ensures weights { state.new.weights ≡ state.old.weights }
{
    map_run(
        known.settings,
        run,
        &state.parts,
        known.sums,
        &mut state.residuals,
    );
    if run.first() == 1 {
        state.residuals[0] = first_residual(known.settings, run.rows(), run.y(), run.x());
    }
}
