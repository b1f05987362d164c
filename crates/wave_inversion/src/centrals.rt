//! The central differences that a wavefront needs of what is known before it.

ghost use Rattle.std.specs.Prelude.{◌≡◌, ◌≢◌, ◌+◌, ◌^◌, ◌<◌, ◌≤◌, ℕ, pos, ◌-ℤ◌, ◌*ℤ◌, ◌≤ℤ◌, unsigned_abs};
ghost use Rattle.lanes.specs.Lanes.{lane, place};
ghost use Rattle.wave_inversion.specs.Wave.{AreLineOffsets, AreOffsetLines, AreOffsetRows, AreRowsBelow, line_of, sum_along, sum_at};

use crate::form::Form;
use crate::place::{around_at, difference_of, differences, local_sums, sum_of};
use predict_core::differences::lines::clear_line;

/// Writes the central differences of the rows from the second to number `last - 1`. Their offsets are `numbers`, and those of the row above at
/// the same columns `above`. The other rows are zeros (CCSDS 123.0-B-1, "Local Differences").
pub(crate) fn fill_centrals(
    form: Form,
    last: usize,
    numbers: &[[i16; 8]; 64],
    above: &[[i16; 8]; 64],
    out: &mut [[i16; 8]; 64],
)
    requires last { last ≤ 63 }
    requires numbers_in { AreOffsetRows form.greatest numbers.now }
    requires above_in { AreOffsetRows form.greatest above.now }
    ensures values { (i b : ℕ) → 1 ≤ i → i < last → b < 8
        → place out.new i b ≡ pos 4 *ℤ place numbers.now i b -ℤ sum_at form.column numbers.now above.now i b }
    ensures below { AreRowsBelow (2 ^ (form.step.bits + 2)) out.new }
{
    clear_rows(out);
    for i in 1..last {
        let row = central_at(form, i, numbers, above);
        out[i] = row;
    }
}

/// Returns the central differences of row `i`.
#[inline(always)]
fn central_at(form: Form, i: usize, numbers: &[[i16; 8]; 64], above: &[[i16; 8]; 64]) -> [i16; 8]
    requires row { (1 ≤ i) × (i < 63) }
    requires numbers_in { AreOffsetRows form.greatest numbers.now }
    requires above_in { AreOffsetRows form.greatest above.now }
    ensures value { (b : ℕ) → b < 8 → lane result b ≡ pos 4 *ℤ place numbers.now i b -ℤ sum_at form.column numbers.now above.now i b }
    ensures below { (b : ℕ) → b < 8 → unsigned_abs (lane result b) < 2 ^ (form.step.bits + 2) }
{
    let around = around_at(form.greatest, i, above, numbers);
    let sums = local_sums(form.column, &around);
    differences(&numbers[i], &sums)
}

/// Writes rows of zeros.
fn clear_rows(rows: &mut [[i16; 8]; 64])
    ensures { (i b : ℕ) → i < 64 → b < 8 → place rows.new i b ≡ pos 0 }
{
    *rows = [[0; 8]; 64];
}

/// Writes the central differences of lines of offsets, from line `least` on, and zeros in the lines before. `numbers` are their offsets, and
/// `above` those of the row above at the same columns. The first and the last place of a line are zeros (CCSDS 123.0-B-1,
/// "Local Differences").
pub(crate) fn fill_central_lines(
    form: Form,
    least: usize,
    numbers: &[[i16; 64]; 8],
    above: &[[i16; 64]; 8],
    out: &mut [[i16; 64]; 8],
)
    requires numbers_in { AreOffsetLines least form.greatest numbers.now }
    requires above_in { AreOffsetLines least form.greatest above.now }
    ensures values { (b i : ℕ) → b < 8 → least ≤ b → 1 ≤ i → i < 63
        → place out.new b i ≡ pos 4 *ℤ place numbers.now b i -ℤ sum_along form.column (line_of numbers.now b) (line_of above.now b) i }
    ensures none { (b i : ℕ) → b < 8 → i < 64 → b < least → place out.new b i ≡ pos 0 }
    ensures below { (b i : ℕ) → b < 8 → i < 64 → unsigned_abs (place out.new b i) < 2 ^ (form.step.bits + 2) }
{
    for b in 0..8usize {
        put_central_line(form, least, b, numbers, above, out);
    }
}

/// Writes line `b`: central differences, if b is at least `least`, and else zeros.
fn put_central_line(
    form: Form,
    least: usize,
    b: usize,
    numbers: &[[i16; 64]; 8],
    above: &[[i16; 64]; 8],
    out: &mut [[i16; 64]; 8],
)
    requires line { b < 8 }
    requires numbers_in { AreOffsetLines least form.greatest numbers.now }
    requires above_in { AreOffsetLines least form.greatest above.now }
    ensures values { (i : ℕ) → least ≤ b → 1 ≤ i → i < 63
        → place out.new b i ≡ pos 4 *ℤ place numbers.now b i -ℤ sum_along form.column (line_of numbers.now b) (line_of above.now b) i }
    ensures none { (i : ℕ) → i < 64 → b < least → place out.new b i ≡ pos 0 }
    ensures below { (i : ℕ) → i < 64 → unsigned_abs (place out.new b i) < 2 ^ (form.step.bits + 2) }
    ensures others { (c i : ℕ) → c ≢ b → place out.new c i ≡ place out.old c i }
{
    if b < least {
        clear_line(&mut out[b]);
    } else {
        fill_central_line(form, &numbers[b], &above[b], &mut out[b]);
    }
}

/// Writes the central differences of a line of offsets, and zeros at its ends.
fn fill_central_line(form: Form, numbers: &[i16; 64], above: &[i16; 64], out: &mut [i16; 64])
    requires numbers_in { AreLineOffsets form.greatest numbers.now }
    requires above_in { AreLineOffsets form.greatest above.now }
    ensures values { (i : ℕ) → 1 ≤ i → i < 63 → lane out.new i ≡ pos 4 *ℤ lane numbers.now i -ℤ sum_along form.column numbers.now above.now i }
    ensures below { (i : ℕ) → i < 64 → unsigned_abs (lane out.new i) < 2 ^ (form.step.bits + 2) }
{
    out[0] = 0;
    out[63] = 0;
    for i in 1..63usize {
        let sum = sum_at_place(form, i, numbers, above);
        out[i] = difference_of(numbers[i], sum);
    }
}

/// Returns the local sum of offsets at place `i` of a line (CCSDS 123.0-B-1, "Local Sums").
#[inline(always)]
fn sum_at_place(form: Form, i: usize, numbers: &[i16; 64], above: &[i16; 64]) -> i16
    requires place { (1 ≤ i) × (i < 63) }
    requires numbers_in { AreLineOffsets form.greatest numbers.now }
    requires above_in { AreLineOffsets form.greatest above.now }
    ensures value { result ≡ sum_along form.column numbers.now above.now i }
    ensures range { (pos 0 ≤ℤ result) × (result ≤ℤ pos 16380) }
{
    if form.column {
        let twice = sum_of(above[i], above[i]);
        sum_of(twice, twice)
    } else {
        let west = sum_of(numbers[i - 1], above[i - 1]);
        let north = sum_of(above[i], above[i + 1]);
        sum_of(west, north)
    }
}
