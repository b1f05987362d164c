//! One step of a wavefront in lanes of 32 bits: the sample of each of eight bands at its own column.

ghost use Rattle.std.specs.Prelude.{◌≡◌, ◌+◌, ◌^◌, ◌<◌, ◌≤◌, ℕ, true, false, length, pos, negsuc, ◌≤ℤ◌};
ghost use Rattle.band_lanes.specs.Rows.{weights_of};
ghost use Rattle.sample_prediction.specs.Bounds.{AllWithin};
ghost use Rattle.wave_inversion.specs.Wave.{AreOffsetRows, AreRowsBelow, AreLowerBelow, long_lower_of};
ghost use Rattle.wave_inversion.specs.WaveForms.{long_form};
ghost use Rattle.wave_inversion.specs.WaveSteps.{IsStepped};

use crate::long::components::put_components;
use crate::long::form::LongForm;
use crate::long::lower::LongLowerRows;
use crate::long::place::{around_at, differences, local_sums};
use crate::long::unmapping::unmapped;
use band_lanes::long::predict::predict_place;
use band_lanes::long::update::update_all;
use band_lanes::pairs::MOST_PAIRS;

/// Inverts the prediction of eight bands at step `k`, by the first `Q` pairs of weights and components.
///
/// Row i of `numbers` has the offset of each band that was found at step i, or from `k` on its mapped residual there; `above` has the
/// offsets of the row above at the same columns. The central differences of the bands are `own`, and those of the bands below them
/// `lower`. Each weight is in its range. `REDUCED` says whether the mode is reduced, and `RAISED` whether ρ is negative.
#[inline(always)]
pub(crate) fn invert_place<const Q: usize, const REDUCED: bool, const RAISED: bool>(
    form: LongForm,
    k: usize,
    above: &[[i32; 8]; 64],
    lower: &LongLowerRows,
    numbers: &mut [[i32; 8]; 64],
    own: &mut [[i32; 8]; 64],
    components: &mut [[i32; 16]; MOST_PAIRS],
    weights: &mut [[i32; 16]; MOST_PAIRS],
)
    requires few { Q ≤ 9 }
    requires deep { 7 < form.previous → 5 < Q }
    requires step { (8 ≤ k) × (k < 63) }
    requires above_in { AreOffsetRows form.greatest above.now }
    requires numbers_in { AreOffsetRows form.greatest numbers.old }
    requires lower_in { AreLowerBelow form.previous (2 ^ (form.step.bits + 2)) (long_lower_of lower.now) }
    requires own_in { AreRowsBelow (2 ^ (form.step.bits + 2)) own.old }
    requires mode { form.reduced ≡ REDUCED }
    requires raised { RAISED ≡ true → form.step.exponent ≤ℤ negsuc 0 }
    requires lowered { RAISED ≡ false → pos 0 ≤ℤ form.step.exponent }
    requires weights_in { (b : ℕ) → b < 8 → AllWithin (2 ^ (form.step.omega + 2)) (weights_of Q b weights.old) }
    ensures stepped { IsStepped Q (long_form form) k above.now (long_lower_of lower.now) numbers.old own.old weights.old numbers.new own.new weights.new }
    ensures numbers_in { AreOffsetRows form.greatest numbers.new }
    ensures own_in { AreRowsBelow (2 ^ (form.step.bits + 2)) own.new }
    ensures long { length weights.new ≡ 9 }
{
    let around = around_at(form.greatest, k, above, numbers);
    let sums = local_sums(form.column, &around);
    let directions = [
        differences(&around.north, &sums),
        differences(&around.west, &sums),
        differences(&around.north_west, &sums),
    ];
    put_components::<Q>(
        REDUCED,
        form.previous,
        &directions,
        lower,
        own,
        k,
        components,
    );
    let parts = predict_place::<Q>(weights, components, form.step.omega);
    let offsets = unmapped(form.greatest, &parts, &sums, &numbers[k]);
    let central = differences(&offsets, &sums);
    update_all::<Q, RAISED>(weights, components, &central, &parts, form.step);
    numbers[k] = offsets;
    own[k] = central;
}
