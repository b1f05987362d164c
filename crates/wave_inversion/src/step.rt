//! One step of a wavefront: the sample of each of eight bands at its own column.

ghost use Rattle.std.specs.Prelude.{◌≡◌, ◌+◌, ◌^◌, ◌<◌, ◌≤◌, true, false, length, pos, negsuc, ◌≤ℤ◌};
ghost use Rattle.wave_inversion.specs.Wave.{AreOffsetRows, AreRowsBelow, AreLowerBelow, lower_of};
ghost use Rattle.wave_inversion.specs.WaveForms.{narrow_form};
ghost use Rattle.wave_inversion.specs.WaveSteps.{IsStepped};

use crate::components::put_components;
use crate::form::Form;
use crate::lower::LowerRows;
use crate::place::{around_at, differences, local_sums};
use crate::unmapping::unmapped;
use band_lanes::follow::{predict_place, update_all};
use band_lanes::pairs::{MOST_PAIRS, Pairs};

/// Inverts the prediction of eight bands at step `k`, by the first `Q` pairs of weights and components.
///
/// Row i of `numbers` has the offset of each band that was found at step i, or from `k` on its mapped residual there; `above` has the
/// offsets of the row above at the same columns. The central differences of the bands are `own`, and those of the bands below them
/// `lower`. `RAISED` says whether ρ is negative, and `LIMITED` whether weights have fewer than 16 bits.
#[inline(always)]
pub(crate) fn invert_place<const Q: usize, const RAISED: bool, const LIMITED: bool>(
    form: Form,
    k: usize,
    above: &[[i16; 8]; 64],
    lower: &LowerRows,
    numbers: &mut [[i16; 8]; 64],
    own: &mut [[i16; 8]; 64],
    pairs: &mut [Pairs; MOST_PAIRS],
    weights: &mut [[i16; 16]; MOST_PAIRS],
)
    requires few { Q ≤ 9 }
    requires deep { 7 < form.previous → 5 < Q }
    requires step { (8 ≤ k) × (k < 63) }
    requires above_in { AreOffsetRows form.greatest above.now }
    requires numbers_in { AreOffsetRows form.greatest numbers.old }
    requires lower_in { AreLowerBelow form.previous (2 ^ (form.step.bits + 2)) (lower_of lower.now) }
    requires own_in { AreRowsBelow (2 ^ (form.step.bits + 2)) own.old }
    requires raised { RAISED ≡ true → form.step.exponent ≤ℤ negsuc 0 }
    requires lowered { RAISED ≡ false → pos 0 ≤ℤ form.step.exponent }
    requires whole { LIMITED ≡ false → form.step.omega ≡ 13 }
    ensures stepped { IsStepped Q (narrow_form form) k above.now (lower_of lower.now) numbers.old own.old weights.old numbers.new own.new weights.new }
    ensures numbers_in { AreOffsetRows form.greatest numbers.new }
    ensures own_in { AreRowsBelow (2 ^ (form.step.bits + 2)) own.new }
    ensures long { length weights.new ≡ 9 }
{
    let around = around_at(form.greatest, k, above, numbers);
    let sums = local_sums(form.column, &around);
    let directions = [
        differences(&around.north, &sums),
        differences(&around.west, &sums),
        differences(&around.north_west, &sums),
    ];
    put_components::<Q>(
        form.reduced,
        form.previous,
        &directions,
        lower,
        own,
        k,
        pairs,
    );
    let parts = predict_place::<Q>(weights, pairs, 0, form.step);
    let offsets = unmapped(form.greatest, &parts, &sums, &numbers[k]);
    let central = differences(&offsets, &sums);
    update_all::<Q, RAISED, LIMITED>(weights, pairs, &central, &parts, 0, form.step);
    numbers[k] = offsets;
    own[k] = central;
}
