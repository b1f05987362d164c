//! The chains of eight bands over a piece, cut where the exponent of the steps changes.

ghost use Rattle.std.specs.Prelude.{◌≡◌, ◌+◌, ◌*◌, ◌-◌, ◌^◌, ◌<◌, ◌≤◌, ℕ, ℤ, List, true, false};
ghost use Rattle.cube_core.specs.Image.{Image};
ghost use Rattle.band_lanes.specs.Rows.{numbers_of, weights_of, AreBelow};
ghost use Rattle.sample_prediction.specs.Bounds.{AllWithin};
ghost use Rattle.predict_core.specs.declared.settings.Settings.{Settings as Constants};
ghost use Rattle.group_prediction.specs.GroupLanes.{IsLane};
ghost use Rattle.predict_core.specs.BandLanes.{FitsNarrow};
ghost use Rattle.predict_core.specs.ImageRuns.{IsRunOf};
ghost use Rattle.predict_core.specs.RunChains.{AreStepsThere, IsFollowed};

use crate::chain::follow_places;
use band_lanes::pairs::{MOST_PAIRS, Pairs};
use band_lanes::step::DeepStep;
use predict_core::run::{PIECE, Run};
use predict_core::settings::Settings;
use sample_prediction::exponent::{exponent_at, places_alike};

/// Writes the predicted central differences of the places of a piece that aren't the first of their band, each held in 16 bits, and
/// updates the weights.
///
/// `settings` are those of one of the bands, which have the same parameters (CCSDS 123.0-B-1, "Weight Update").
pub(crate) fn follow_piece<const Q: usize, const DEEP: bool>(
    settings: &Settings,
    run: &Run,
    pairs: &[Pairs; MOST_PAIRS],
    own: &[[i16; 8]; PIECE],
    weights: &mut [[i16; 16]; MOST_PAIRS],
    parts: &mut [[i16; 8]; PIECE],
)
    requires few { Q ≤ 9 }
    requires run { IsRunOf settings.now.band run.now }
    requires columns { run.now.image.shape.columns ≡ settings.now.columns }
    requires narrow { FitsNarrow settings.now.predictor settings.now.range.bits }
    requires shallow { DEEP ≡ false → settings.now.range.bits ≤ 12 }
    requires below { (i : ℕ) → run.now.first ≤ i → i < run.now.count → AreBelow (2 ^ (settings.now.range.bits + 2)) Q pairs.now i }
    requires weights_in { (b : ℕ) → b < 8 → AllWithin (2 ^ (settings.now.predictor.omega + 2)) (weights_of Q b weights.old) }
    ensures weights_in { (b : ℕ) → b < 8 → AllWithin (2 ^ (settings.now.predictor.omega + 2)) (weights_of Q b weights.new) }
    ensures followed { (b : ℕ) (s : Constants) (c : Image) → b < 8 → IsLane Q b s c run.now.y run.now.x run.now.count own.now pairs.now → s.predictor ≡ settings.now.predictor
        → s.range.kind ≡ settings.now.range.kind → s.columns ≡ settings.now.columns
        → IsFollowed s c run.now.y run.now.x run.now.first (weights_of Q b weights.old) run.now.first (weights_of Q b weights.old) (numbers_of b parts.old)
        → IsFollowed s c run.now.y run.now.x run.now.first (weights_of Q b weights.old) run.now.count (weights_of Q b weights.new) (numbers_of b parts.new) }
{
    let predictor = &settings.predictor;
    let columns = settings.columns;
    let bits = settings.range.bits;
    run.prove_is_row();
    let count = run.count();
    let start = run.y() as u64 * columns as u64 + run.x() as u64;
    let mut at = run.first();
    while at < count {
        let t = start + at as u64;
        let next = at + places_alike(predictor, columns, t, count - at);
        let step = DeepStep::new(
            predictor.omega,
            bits,
            exponent_at(predictor, columns, bits, t),
        );
        follow_by::<Q, DEEP>(weights, pairs, own, parts, step, at, next);
        at = next;
    }
}

/// `follow_places` by the form that a step asks for.
#[inline(always)]
fn follow_by<const Q: usize, const DEEP: bool>(
    weights: &mut [[i16; 16]; MOST_PAIRS],
    pairs: &[Pairs; MOST_PAIRS],
    own: &[[i16; 8]; PIECE],
    parts: &mut [[i16; 8]; PIECE],
    step: DeepStep,
    first: usize,
    last: usize,
)
    requires few { Q ≤ 9 }
    requires order { first ≤ last }
    requires last { last ≤ PIECE }
    requires shallow { DEEP ≡ false → step.bits ≤ 12 }
    requires below { (i : ℕ) → first ≤ i → i < last → AreBelow (2 ^ (step.bits + 2)) Q pairs.now i }
    requires weights_in { (b : ℕ) → b < 8 → AllWithin (2 ^ (step.omega + 2)) (weights_of Q b weights.old) }
    ensures weights_in { (b : ℕ) → b < 8 → AllWithin (2 ^ (step.omega + 2)) (weights_of Q b weights.new) }
    ensures followed { (b : ℕ) (s : Constants) (c : Image) (y x start : ℕ) (begun : List ℤ) → b < 8 → IsLane Q b s c y x last own.now pairs.now
        → 0 < y + (x + first) → ((i : ℕ) → first ≤ i → i < last → AreStepsThere s c step.omega step.bits step.exponent y (x + i))
        → IsFollowed s c y x start begun first (weights_of Q b weights.old) (numbers_of b parts.old)
        → IsFollowed s c y x start begun last (weights_of Q b weights.new) (numbers_of b parts.new) }
{
    if step.exponent < 0 {
        if step.omega < 13 {
            follow_places::<Q, true, true, DEEP>(weights, pairs, own, parts, step, first, last);
        } else {
            follow_places::<Q, true, false, DEEP>(weights, pairs, own, parts, step, first, last);
        }
    } else if step.omega < 13 {
        follow_places::<Q, false, true, DEEP>(weights, pairs, own, parts, step, first, last);
    } else {
        follow_places::<Q, false, false, DEEP>(weights, pairs, own, parts, step, first, last);
    }
}
