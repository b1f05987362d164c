//! The steps of a wavefront over a piece of a row.

ghost use Rattle.std.specs.Prelude.{◌≡◌, ◌+◌, ◌^◌, ◌<◌, ◌≤◌, ℕ, true, false, pos, negsuc, ◌≤ℤ◌, take};
ghost use Rattle.cube_core.specs.Image.{Image};
ghost use Rattle.header_bits.specs.declared.params.Params.{Params as Parameters};
ghost use Rattle.band_lanes.specs.Rows.{weights_of};
ghost use Rattle.sample_prediction.specs.Bounds.{AllWithin};
ghost use Rattle.predict_core.specs.declared.settings.Settings.{Settings as Constants};
ghost use Rattle.wave_inversion.specs.Wave.{AreOffsetRows, AreRowsBelow, AreLowerBelow, lower_of};
ghost use Rattle.wave_inversion.specs.WaveForms.{narrow_form};
ghost use Rattle.wave_inversion.specs.WaveLanes.{AreLanes, AreInStep};

use crate::form::Form;
use crate::lower::LowerRows;
use crate::step::invert_place;
use band_lanes::pairs::{MOST_PAIRS, Pairs};

/// Some successive steps of a wavefront.
#[derive(Clone, Copy)]
pub(crate) struct Stretch {
    pub from: usize,
    /// The step after the last.
    pub to: usize,
    pub ghost inside: { (8 ≤ from) × (from ≤ to) × (to ≤ 63) },
}

/// Inverts the prediction of eight bands at some steps, as `invert_place` does at each.
///
/// The first `n` lanes are those that have begun. The weights are kept in a copy of their own, so that the compiler can keep them in
/// registers.
#[inline(never)]
pub(crate) fn invert_places<const Q: usize, const RAISED: bool, const LIMITED: bool>(
    form: Form,
    stretch: Stretch,
    above: &[[i16; 8]; 64],
    lower: &LowerRows,
    numbers: &mut [[i16; 8]; 64],
    own: &mut [[i16; 8]; 64],
    pairs: &mut [Pairs; MOST_PAIRS],
    weights: &mut [[i16; 16]; MOST_PAIRS],
)
    requires few { Q ≤ 9 }
    requires deep { 7 < form.previous → 5 < Q }
    requires above_in { AreOffsetRows form.greatest above.now }
    requires numbers_in { AreOffsetRows form.greatest numbers.old }
    requires lower_in { AreLowerBelow form.previous (2 ^ (form.step.bits + 2)) (lower_of lower.now) }
    requires own_in { AreRowsBelow (2 ^ (form.step.bits + 2)) own.old }
    requires raised { RAISED ≡ true → form.step.exponent ≤ℤ negsuc 0 }
    requires lowered { RAISED ≡ false → pos 0 ≤ℤ form.step.exponent }
    requires whole { LIMITED ≡ false → form.step.omega ≡ 13 }
    requires weights_in { (b : ℕ) → b < 8 → AllWithin (2 ^ (form.step.omega + 2)) (weights_of Q b weights.old) }
    ensures numbers_in { AreOffsetRows form.greatest numbers.new }
    ensures own_in { AreRowsBelow (2 ^ (form.step.bits + 2)) own.new }
    ensures weights_in { (b : ℕ) → b < 8 → AllWithin (2 ^ (form.step.omega + 2)) (weights_of Q b weights.new) }
    ensures inverted { (p : Parameters) (s : ℕ → Constants) (d : Image) (first y origin last n : ℕ) → AreLanes Q (narrow_form form) p s d first y origin last above.now (lower_of lower.now)
        → stretch.to ≤ last → (n ≤ 8) × (n + 7 ≤ origin + stretch.from)
        → AreInStep Q p s d first y origin last n stretch.from numbers.old own.old weights.old
        → AreInStep Q p s d first y origin last n stretch.to numbers.new own.new weights.new }
{
    let mut working = *weights;
    for k in stretch.from..stretch.to {
        invert_place::<Q, RAISED, LIMITED>(
            form,
            k,
            above,
            lower,
            numbers,
            own,
            pairs,
            &mut working,
        );
    }
    put_pairs::<Q>(&working, weights);
}

/// Writes the first `Q` rows of pairs.
// The compiler then leaves out the others of the copy too.
#[inline(always)]
fn put_pairs<const Q: usize>(pairs: &[[i16; 16]; MOST_PAIRS], own: &mut [[i16; 16]; MOST_PAIRS])
    requires { Q ≤ 9 }
    ensures { take Q own.new ≡ take Q pairs.now }
{
    for k in 0..Q {
        own[k] = pairs[k];
    }
}
