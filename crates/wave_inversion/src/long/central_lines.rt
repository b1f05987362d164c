//! The central differences of the bands below a wavefront in lanes of 32 bits, from lines of offsets.

ghost use Rattle.std.specs.Prelude.{◌≡◌, ◌≢◌, ◌+◌, ◌^◌, ◌<◌, ◌≤◌, ℕ, pos, ◌≤ℤ◌, unsigned_abs};
ghost use Rattle.lanes.specs.Lanes.{lane, place};
ghost use Rattle.wave_inversion.specs.Wave.{AreRowsBelow, line_of, sum_by};
ghost use Rattle.wave_inversion.specs.WaveRows.{AreLinesWithin, central_along, without_sign};

use crate::long::form::LongForm;
use crate::long::place::difference_of;
use crate::long::rows::{clear_rows, put_number};

/// Writes the central differences of lines of offsets from line `least` on, that at place i of line b into lane b of row i. `numbers` are the
/// offsets, and `above` those of the row above at the same columns, both without a sign. The other lanes, the first row and the last are
/// zeros (CCSDS 123.0-B-1, "Local Differences").
pub(crate) fn fill_from_lines(
    form: LongForm,
    least: usize,
    numbers: &[[i16; 64]; 8],
    above: &[[i16; 64]; 8],
    rows: &mut [[i32; 8]; 64],
)
    requires numbers_in { AreLinesWithin least form.greatest numbers.now }
    requires above_in { AreLinesWithin least form.greatest above.now }
    ensures values { (b i : ℕ) → b < 8 → least ≤ b → 1 ≤ i → i < 63 → place rows.new i b ≡ central_along form.column (line_of numbers.now b) (line_of above.now b) i }
    ensures none { (b i : ℕ) → b < 8 → i < 64 → b < least → place rows.new i b ≡ pos 0 }
    ensures below { AreRowsBelow (2 ^ (form.step.bits + 2)) rows.new }
{
    clear_rows(rows);
    for b in least..8 {
        fill_lane(form, b, &numbers[b], &above[b], rows);
    }
}

/// Writes the central differences of a line of offsets into lane `b`, and zeros into its first row and its last.
fn fill_lane(
    form: LongForm,
    b: usize,
    numbers: &[i16; 64],
    above: &[i16; 64],
    rows: &mut [[i32; 8]; 64],
)
    requires lane { b < 8 }
    requires numbers_in { (i : ℕ) → i < 64 → without_sign (lane numbers.now i) ≤ℤ form.greatest }
    requires above_in { (i : ℕ) → i < 64 → without_sign (lane above.now i) ≤ℤ form.greatest }
    ensures values { (i : ℕ) → 1 ≤ i → i < 63 → place rows.new i b ≡ central_along form.column numbers.now above.now i }
    ensures below { (i : ℕ) → i < 64 → unsigned_abs (place rows.new i b) < 2 ^ (form.step.bits + 2) }
    ensures others { (i k : ℕ) → k ≢ b → place rows.new i k ≡ place rows.old i k }
{
    let mut line = [0i32; 64];
    fill_central_line(form, numbers, above, &mut line);
    put_line(&line, b, rows);
}

/// Writes a line into lane `b`.
fn put_line(line: &[i32; 64], b: usize, rows: &mut [[i32; 8]; 64])
    requires lane { b < 8 }
    ensures written { (i : ℕ) → i < 64 → place rows.new i b ≡ lane line.now i }
    ensures others { (i k : ℕ) → k ≢ b → place rows.new i k ≡ place rows.old i k }
{
    for i in 0..64usize {
        put_number(line[i], i, b, rows);
    }
}

/// Writes the central differences of a line of offsets, and zeros at its ends.
fn fill_central_line(form: LongForm, numbers: &[i16; 64], above: &[i16; 64], out: &mut [i32; 64])
    requires numbers_in { (i : ℕ) → i < 64 → without_sign (lane numbers.now i) ≤ℤ form.greatest }
    requires above_in { (i : ℕ) → i < 64 → without_sign (lane above.now i) ≤ℤ form.greatest }
    ensures values { (i : ℕ) → 1 ≤ i → i < 63 → lane out.new i ≡ central_along form.column numbers.now above.now i }
    ensures below { (i : ℕ) → i < 64 → unsigned_abs (lane out.new i) < 2 ^ (form.step.bits + 2) }
{
    out[0] = 0;
    out[63] = 0;
    for i in 1..63usize {
        out[i] = central_at(form.column, i, numbers, above);
    }
}

/// Returns the central difference at place `i` of a line (CCSDS 123.0-B-1, "Local Differences").
#[inline(always)]
fn central_at(column: bool, i: usize, numbers: &[i16; 64], above: &[i16; 64]) -> i32
    requires place { (1 ≤ i) × (i < 63) }
    ensures { result ≡ central_along column numbers.now above.now i }
{
    let west = offset_at(numbers, i - 1);
    let north_west = offset_at(above, i - 1);
    let north = offset_at(above, i);
    let north_east = offset_at(above, i + 1);
    let sum = sum_around(column, west, north_west, north, north_east);
    difference_of(offset_at(numbers, i), sum)
}

/// Returns the offset at place `i` of a line, which has no sign.
#[inline(always)]
fn offset_at(line: &[i16; 64], i: usize) -> i32
    requires { i < 64 }
    ensures value { result ≡ without_sign (lane line.now i) }
    ensures range { (pos 0 ≤ℤ result) × (result ≤ℤ pos 65535) }
{
    line[i].cast_unsigned() as i32
}

/// Returns the local sum of the offsets around a place (CCSDS 123.0-B-1, "Local Sums").
#[inline(always)]
fn sum_around(column: bool, west: i32, north_west: i32, north: i32, north_east: i32) -> i32
    requires west_in { (pos 0 ≤ℤ west) × (west ≤ℤ pos 65535) }
    requires north_west_in { (pos 0 ≤ℤ north_west) × (north_west ≤ℤ pos 65535) }
    requires north_in { (pos 0 ≤ℤ north) × (north ≤ℤ pos 65535) }
    requires north_east_in { (pos 0 ≤ℤ north_east) × (north_east ≤ℤ pos 65535) }
    ensures value { result ≡ sum_by column west north_west north north_east }
    ensures range { (pos 0 ≤ℤ result) × (result ≤ℤ pos 262140) }
{
    if column {
        4 * north
    } else {
        west + north_west + north + north_east
    }
}
