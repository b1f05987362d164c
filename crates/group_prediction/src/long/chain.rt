//! The chains of four bands in step, place after place.

ghost use Rattle.std.specs.Prelude.{◌≡◌, ◌+◌, ◌*◌, ◌^◌, ◌<◌, ◌≤◌, ℕ, ℤ, List, true, false, pos, negsuc, ◌≤ℤ◌, unsigned_abs};
ghost use Rattle.cube_core.specs.Image.{Image};
ghost use Rattle.lanes.specs.Lanes.{place};
ghost use Rattle.band_lanes.specs.Rows.{numbers_of};
ghost use Rattle.band_lanes.specs.Fours.{column_of, row_components};
ghost use Rattle.sample_prediction.specs.Bounds.{AllWithin};
ghost use Rattle.predict_core.specs.declared.settings.Settings.{Settings as Constants};
ghost use Rattle.group_prediction.specs.GroupLanes.{IsLongLane};
ghost use Rattle.predict_core.specs.RunChains.{AreStepsThere, IsFollowed};

use band_lanes::four::follow::follow_four;
use band_lanes::four::rows::Rows;
use band_lanes::four::step::LongStep;
use predict_core::run::PIECE;
use sample_prediction::predictor::MOST_COMPONENTS;

/// Writes the predicted central differences of the places `first..last` of a piece, and updates the weights.
///
/// The weights are kept in a copy of their own, so that the compiler can keep them in registers.
#[inline(never)]
pub(crate) fn follow_places<const Q: usize, const RAISED: bool>(
    weights: &mut [[i32; 4]; MOST_COMPONENTS],
    rows: &[Rows; MOST_COMPONENTS],
    own: &[[i32; 4]; PIECE],
    parts: &mut [[i32; 4]; PIECE],
    step: LongStep,
    first: usize,
    last: usize,
)
    requires few { Q ≤ 9 }
    requires order { first ≤ last }
    requires last { last ≤ PIECE }
    requires small { (i b : ℕ) → first ≤ i → i < last → b < 4 → AllWithin (2 ^ (step.bits + 2)) (row_components (2 * Q) b rows.now i) }
    requires raised { RAISED ≡ true → step.exponent ≤ℤ negsuc 0 }
    requires lowered { RAISED ≡ false → pos 0 ≤ℤ step.exponent }
    requires weights_in { (b : ℕ) → b < 4 → AllWithin (2 ^ (step.omega + 2)) (column_of (2 * Q) b weights.old) }
    ensures weights_in { (b : ℕ) → b < 4 → AllWithin (2 ^ (step.omega + 2)) (column_of (2 * Q) b weights.new) }
    ensures small { (start : ℕ) → ((i b : ℕ) → start ≤ i → i < first → b < 4 → unsigned_abs (place parts.old i b) ≤ 18 * 2 ^ 20)
        → (i b : ℕ) → start ≤ i → i < last → b < 4 → unsigned_abs (place parts.new i b) ≤ 18 * 2 ^ 20 }
    ensures followed { (b : ℕ) (s : Constants) (c : Image) (y x start : ℕ) (begun : List ℤ) → b < 4 → IsLongLane Q b s c y x last own.now rows.now
        → 0 < y + (x + first) → ((i : ℕ) → first ≤ i → i < last → AreStepsThere s c step.omega step.bits step.exponent y (x + i))
        → IsFollowed s c y x start begun first (column_of (2 * Q) b weights.old) (numbers_of b parts.old)
        → IsFollowed s c y x start begun last (column_of (2 * Q) b weights.new) (numbers_of b parts.new) }
{
    let mut working = *weights;
    for i in first..last {
        let row = follow_four::<Q, RAISED>(&mut working, rows, &own[i], i, step);
        parts[i] = row;
    }
    *weights = working;
}
