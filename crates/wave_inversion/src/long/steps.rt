//! The steps of a wavefront in lanes of 32 bits over a piece of a row.

ghost use Rattle.std.specs.Prelude.{◌≡◌, ◌+◌, ◌^◌, ◌<◌, ◌≤◌, ℕ, true, false, pos, negsuc, ◌≤ℤ◌};
ghost use Rattle.cube_core.specs.Image.{Image};
ghost use Rattle.header_bits.specs.declared.params.Params.{Params as Parameters};
ghost use Rattle.band_lanes.specs.Rows.{weights_of};
ghost use Rattle.sample_prediction.specs.Bounds.{AllWithin};
ghost use Rattle.predict_core.specs.declared.settings.Settings.{Settings as Constants};
ghost use Rattle.wave_inversion.specs.Wave.{AreOffsetRows, AreRowsBelow, AreLowerBelow, long_lower_of};
ghost use Rattle.wave_inversion.specs.WaveForms.{long_form};
ghost use Rattle.wave_inversion.specs.WaveLanes.{AreLanes, AreInStep};

use crate::long::form::LongForm;
use crate::long::lower::LongLowerRows;
use crate::long::step::invert_place;
use crate::long::weights::keep_rows;
use crate::steps::Stretch;
use band_lanes::pairs::MOST_PAIRS;

/// Inverts the prediction of eight bands at some steps, as `invert_place` does at each.
///
/// The first `n` lanes are those that have begun. The weights are kept in a copy of their own, so that the compiler can keep them in
/// registers, and only those of the first `Q` pairs are copied back, so that it copies no others at all.
#[inline(never)]
pub(crate) fn invert_places<const Q: usize, const REDUCED: bool, const RAISED: bool>(
    form: LongForm,
    stretch: Stretch,
    above: &[[i32; 8]; 64],
    lower: &LongLowerRows,
    numbers: &mut [[i32; 8]; 64],
    own: &mut [[i32; 8]; 64],
    components: &mut [[i32; 16]; MOST_PAIRS],
    weights: &mut [[i32; 16]; MOST_PAIRS],
)
    requires few { Q ≤ 9 }
    requires deep { 7 < form.previous → 5 < Q }
    requires above_in { AreOffsetRows form.greatest above.now }
    requires numbers_in { AreOffsetRows form.greatest numbers.old }
    requires lower_in { AreLowerBelow form.previous (2 ^ (form.step.bits + 2)) (long_lower_of lower.now) }
    requires own_in { AreRowsBelow (2 ^ (form.step.bits + 2)) own.old }
    requires mode { form.reduced ≡ REDUCED }
    requires raised { RAISED ≡ true → form.step.exponent ≤ℤ negsuc 0 }
    requires lowered { RAISED ≡ false → pos 0 ≤ℤ form.step.exponent }
    requires weights_in { (b : ℕ) → b < 8 → AllWithin (2 ^ (form.step.omega + 2)) (weights_of Q b weights.old) }
    ensures numbers_in { AreOffsetRows form.greatest numbers.new }
    ensures own_in { AreRowsBelow (2 ^ (form.step.bits + 2)) own.new }
    ensures weights_in { (b : ℕ) → b < 8 → AllWithin (2 ^ (form.step.omega + 2)) (weights_of Q b weights.new) }
    ensures inverted { (p : Parameters) (s : ℕ → Constants) (d : Image) (first y origin last n : ℕ) → AreLanes Q (long_form form) p s d first y origin last above.now (long_lower_of lower.now)
        → stretch.to ≤ last → (n ≤ 8) × (n + 7 ≤ origin + stretch.from)
        → AreInStep Q p s d first y origin last n stretch.from numbers.old own.old weights.old
        → AreInStep Q p s d first y origin last n stretch.to numbers.new own.new weights.new }
{
    let mut working = *weights;
    for k in stretch.from..stretch.to {
        invert_place::<Q, REDUCED, RAISED>(
            form,
            k,
            above,
            lower,
            numbers,
            own,
            components,
            &mut working,
        );
    }
    keep_rows::<Q>(&working, weights);
}
