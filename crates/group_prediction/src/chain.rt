//! The chains of eight bands in step, place after place.

ghost use Rattle.std.specs.Prelude.{◌≡◌, ◌+◌, ◌^◌, ◌<◌, ◌≤◌, ℕ, ℤ, List, true, false, pos, negsuc, ◌≤ℤ◌};
ghost use Rattle.cube_core.specs.Image.{Image};
ghost use Rattle.band_lanes.specs.Rows.{numbers_of, weights_of, AreBelow};
ghost use Rattle.sample_prediction.specs.Bounds.{AllWithin};
ghost use Rattle.predict_core.specs.declared.settings.Settings.{Settings as Constants};
ghost use Rattle.group_prediction.specs.GroupLanes.{IsLane};
ghost use Rattle.predict_core.specs.RunChains.{AreStepsThere, IsFollowed};

use band_lanes::follow::follow_place;
use band_lanes::pairs::{MOST_PAIRS, Pairs};
use band_lanes::step::DeepStep;
use predict_core::run::PIECE;

/// Writes the predicted central differences of the places `first..last` of a piece, each held in 16 bits, and updates the weights.
///
/// The weights are kept in a copy of their own, so that the compiler can keep them in registers.
#[inline(never)]
pub(crate) fn follow_places<
    const Q: usize,
    const RAISED: bool,
    const LIMITED: bool,
    const DEEP: bool,
>(
    weights: &mut [[i16; 16]; MOST_PAIRS],
    pairs: &[Pairs; MOST_PAIRS],
    own: &[[i16; 8]; PIECE],
    parts: &mut [[i16; 8]; PIECE],
    step: DeepStep,
    first: usize,
    last: usize,
)
    requires few { Q ≤ 9 }
    requires order { first ≤ last }
    requires last { last ≤ PIECE }
    requires below { (i : ℕ) → first ≤ i → i < last → AreBelow (2 ^ (step.bits + 2)) Q pairs.now i }
    requires raised { RAISED ≡ true → step.exponent ≤ℤ negsuc 0 }
    requires lowered { RAISED ≡ false → pos 0 ≤ℤ step.exponent }
    requires whole { LIMITED ≡ false → step.omega ≡ 13 }
    requires shallow { DEEP ≡ false → step.bits ≤ 12 }
    requires weights_in { (b : ℕ) → b < 8 → AllWithin (2 ^ (step.omega + 2)) (weights_of Q b weights.old) }
    ensures weights_in { (b : ℕ) → b < 8 → AllWithin (2 ^ (step.omega + 2)) (weights_of Q b weights.new) }
    ensures followed { (b : ℕ) (s : Constants) (c : Image) (y x start : ℕ) (begun : List ℤ) → b < 8 → IsLane Q b s c y x last own.now pairs.now
        → 0 < y + (x + first) → ((i : ℕ) → first ≤ i → i < last → AreStepsThere s c step.omega step.bits step.exponent y (x + i))
        → IsFollowed s c y x start begun first (weights_of Q b weights.old) (numbers_of b parts.old)
        → IsFollowed s c y x start begun last (weights_of Q b weights.new) (numbers_of b parts.new) }
{
    let mut working = *weights;
    for i in first..last {
        let row = follow_place::<Q, RAISED, LIMITED, DEEP>(&mut working, pairs, &own[i], i, step);
        parts[i] = row;
    }
    *weights = working;
}
