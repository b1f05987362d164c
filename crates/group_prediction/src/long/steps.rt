//! The chains of four bands over a piece, cut where the exponent of the steps changes.

ghost use Rattle.std.specs.Prelude.{◌≡◌, ◌+◌, ◌*◌, ◌-◌, ◌^◌, ◌<◌, ◌≤◌, ℕ, ℤ, List, unsigned_abs};
ghost use Rattle.cube_core.specs.Image.{Image};
ghost use Rattle.lanes.specs.Lanes.{place};
ghost use Rattle.band_lanes.specs.Rows.{numbers_of};
ghost use Rattle.band_lanes.specs.Fours.{column_of, row_components};
ghost use Rattle.sample_prediction.specs.Bounds.{AllWithin};
ghost use Rattle.predict_core.specs.declared.settings.Settings.{Settings as Constants};
ghost use Rattle.group_prediction.specs.GroupLanes.{IsLongLane};
ghost use Rattle.predict_core.specs.ImageRuns.{IsRunOf};
ghost use Rattle.predict_core.specs.RunChains.{AreStepsThere, IsFollowed};

use crate::long::chain::follow_places;
use band_lanes::four::rows::Rows;
use band_lanes::four::step::LongStep;
use predict_core::run::{PIECE, Run};
use predict_core::settings::Settings;
use sample_prediction::exponent::{exponent_at, places_alike};
use sample_prediction::predictor::MOST_COMPONENTS;

/// Writes the predicted central differences of the places of a piece that aren't the first of their band, and updates the weights.
///
/// `settings` are those of one of the bands, which have the same parameters (CCSDS 123.0-B-1, "Weight Update").
pub(crate) fn follow_piece<const Q: usize>(
    settings: &Settings,
    run: &Run,
    rows: &[Rows; MOST_COMPONENTS],
    own: &[[i32; 4]; PIECE],
    weights: &mut [[i32; 4]; MOST_COMPONENTS],
    parts: &mut [[i32; 4]; PIECE],
)
    requires few { Q ≤ 9 }
    requires run { IsRunOf settings.now.band run.now }
    requires columns { run.now.image.shape.columns ≡ settings.now.columns }
    requires small { (i b : ℕ) → run.now.first ≤ i → i < run.now.count → b < 4 → AllWithin (2 ^ (settings.now.range.bits + 2)) (row_components (2 * Q) b rows.now i) }
    requires weights_in { (b : ℕ) → b < 4 → AllWithin (2 ^ (settings.now.predictor.omega + 2)) (column_of (2 * Q) b weights.old) }
    ensures weights_in { (b : ℕ) → b < 4 → AllWithin (2 ^ (settings.now.predictor.omega + 2)) (column_of (2 * Q) b weights.new) }
    ensures small { (i b : ℕ) → run.now.first ≤ i → i < run.now.count → b < 4 → unsigned_abs (place parts.new i b) ≤ 18 * 2 ^ 20 }
    ensures followed { (b : ℕ) (s : Constants) (c : Image) → b < 4 → IsLongLane Q b s c run.now.y run.now.x run.now.count own.now rows.now → s.predictor ≡ settings.now.predictor
        → s.range.kind ≡ settings.now.range.kind → s.columns ≡ settings.now.columns
        → IsFollowed s c run.now.y run.now.x run.now.first (column_of (2 * Q) b weights.old) run.now.first (column_of (2 * Q) b weights.old) (numbers_of b parts.old)
        → IsFollowed s c run.now.y run.now.x run.now.first (column_of (2 * Q) b weights.old) run.now.count (column_of (2 * Q) b weights.new) (numbers_of b parts.new) }
{
    let predictor = &settings.predictor;
    let columns = settings.columns;
    let bits = settings.range.bits;
    run.prove_is_row();
    let count = run.count();
    let start = run.y() as u64 * columns as u64 + run.x() as u64;
    let mut at = run.first();
    while at < count {
        let t = start + at as u64;
        let next = at + places_alike(predictor, columns, t, count - at);
        let step = LongStep::new(
            predictor.omega,
            bits,
            exponent_at(predictor, columns, bits, t),
        );
        follow_by::<Q>(weights, rows, own, parts, step, at, next);
        at = next;
    }
}

/// `follow_places` by the form that a step asks for.
#[inline(always)]
fn follow_by<const Q: usize>(
    weights: &mut [[i32; 4]; MOST_COMPONENTS],
    rows: &[Rows; MOST_COMPONENTS],
    own: &[[i32; 4]; PIECE],
    parts: &mut [[i32; 4]; PIECE],
    step: LongStep,
    first: usize,
    last: usize,
)
    requires few { Q ≤ 9 }
    requires order { first ≤ last }
    requires last { last ≤ PIECE }
    requires small { (i b : ℕ) → first ≤ i → i < last → b < 4 → AllWithin (2 ^ (step.bits + 2)) (row_components (2 * Q) b rows.now i) }
    requires weights_in { (b : ℕ) → b < 4 → AllWithin (2 ^ (step.omega + 2)) (column_of (2 * Q) b weights.old) }
    ensures weights_in { (b : ℕ) → b < 4 → AllWithin (2 ^ (step.omega + 2)) (column_of (2 * Q) b weights.new) }
    ensures small { (start : ℕ) → ((i b : ℕ) → start ≤ i → i < first → b < 4 → unsigned_abs (place parts.old i b) ≤ 18 * 2 ^ 20)
        → (i b : ℕ) → start ≤ i → i < last → b < 4 → unsigned_abs (place parts.new i b) ≤ 18 * 2 ^ 20 }
    ensures followed { (b : ℕ) (s : Constants) (c : Image) (y x start : ℕ) (begun : List ℤ) → b < 4 → IsLongLane Q b s c y x last own.now rows.now
        → 0 < y + (x + first) → ((i : ℕ) → first ≤ i → i < last → AreStepsThere s c step.omega step.bits step.exponent y (x + i))
        → IsFollowed s c y x start begun first (column_of (2 * Q) b weights.old) (numbers_of b parts.old)
        → IsFollowed s c y x start begun last (column_of (2 * Q) b weights.new) (numbers_of b parts.new) }
{
    if step.exponent < 0 {
        follow_places::<Q, true>(weights, rows, own, parts, step, first, last);
    } else {
        follow_places::<Q, false>(weights, rows, own, parts, step, first, last);
    }
}
