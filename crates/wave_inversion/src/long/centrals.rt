//! The central differences that a wavefront in lanes of 32 bits needs of what is known before it.

ghost use Rattle.std.specs.Prelude.{◌≡◌, ◌+◌, ◌^◌, ◌<◌, ◌≤◌, ℕ, pos, ◌-ℤ◌, ◌*ℤ◌, unsigned_abs};
ghost use Rattle.lanes.specs.Lanes.{lane, place};
ghost use Rattle.wave_inversion.specs.Wave.{AreOffsetRows, AreRowsBelow, sum_at};

use crate::long::form::LongForm;
use crate::long::place::{around_at, differences, local_sums};
use crate::long::rows::clear_rows;

/// Writes the central differences of the rows from the second to number `last - 1`. Their offsets are `numbers`, and those of the row above at
/// the same columns `above`. The other rows are zeros (CCSDS 123.0-B-1, "Local Differences").
pub(crate) fn fill_centrals(
    form: LongForm,
    last: usize,
    numbers: &[[i32; 8]; 64],
    above: &[[i32; 8]; 64],
    out: &mut [[i32; 8]; 64],
)
    requires last { last ≤ 63 }
    requires numbers_in { AreOffsetRows form.greatest numbers.now }
    requires above_in { AreOffsetRows form.greatest above.now }
    ensures values { (i b : ℕ) → 1 ≤ i → i < last → b < 8
        → place out.new i b ≡ pos 4 *ℤ place numbers.now i b -ℤ sum_at form.column numbers.now above.now i b }
    ensures below { AreRowsBelow (2 ^ (form.step.bits + 2)) out.new }
{
    clear_rows(out);
    for i in 1..last {
        let row = central_at(form, i, numbers, above);
        out[i] = row;
    }
}

/// Returns the central differences of row `i`.
#[inline(always)]
fn central_at(
    form: LongForm,
    i: usize,
    numbers: &[[i32; 8]; 64],
    above: &[[i32; 8]; 64],
) -> [i32; 8]
    requires row { (1 ≤ i) × (i < 63) }
    requires numbers_in { AreOffsetRows form.greatest numbers.now }
    requires above_in { AreOffsetRows form.greatest above.now }
    ensures value { (b : ℕ) → b < 8 → lane result b ≡ pos 4 *ℤ place numbers.now i b -ℤ sum_at form.column numbers.now above.now i b }
    ensures below { (b : ℕ) → b < 8 → unsigned_abs (lane result b) < 2 ^ (form.step.bits + 2) }
{
    let around = around_at(form.greatest, i, above, numbers);
    let sums = local_sums(form.column, &around);
    differences(&numbers[i], &sums)
}
