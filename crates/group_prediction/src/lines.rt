//! Local sums and differences of a piece, in lines of 16 bits.
//!
//! Each loop writes one line from neighbours at fixed distances, so that the compiler vectorizes it. Nothing is tested: a number that 16
//! bits don't hold is wrapped.

ghost use Rattle.std.specs.Prelude.{◌≡◌, ◌+◌, ◌*◌, ◌^◌, ◌<◌, ℕ, false, pos, ◌-ℤ◌, ◌≤ℤ◌, unsigned_abs, length, slice_index, slice_index_or};
ghost use Rattle.sample_prediction.specs.Lines.{line_sum};

use predict_core::differences::lines::{LINE, Lines};
use predict_core::run::PIECE;

/// Writes the local sum of offsets of each place, where 16 bits hold it.
pub(crate) fn fill_sums(column: bool, lines: &Lines, sums: &mut [i16; PIECE])
    ensures { (i : ℕ) → i < PIECE → line_sum column lines.now.current lines.now.above i < 2 ^ 15
        → slice_index_or sums.new i (pos 0) ≡ pos (line_sum column lines.now.current lines.now.above i) }
{
    if column {
        fill_column_sums(&lines.above, sums);
    } else {
        fill_neighbour_sums(&lines.current, &lines.above, sums);
    }
}

/// Writes four times the northern neighbour of each place.
fn fill_column_sums(above: &[u16; LINE], sums: &mut [i16; PIECE])
    ensures { (i : ℕ) → i < PIECE → 4 * slice_index above.now (i + 1) < 2 ^ 15 → slice_index_or sums.new i (pos 0) ≡ pos (4 * slice_index above.now (i + 1)) }
{
    for i in 0..PIECE {
        sums[i] = above[i + 1].wrapping_mul(4).cast_signed();
    }
}

/// Writes the sum of four neighbours of each place.
fn fill_neighbour_sums(current: &[u16; LINE], above: &[u16; LINE], sums: &mut [i16; PIECE])
    ensures { (i : ℕ) → i < PIECE → line_sum false current.now above.now i < 2 ^ 15 → slice_index_or sums.new i (pos 0) ≡ pos (line_sum false current.now above.now i) }
{
    for i in 0..PIECE {
        sums[i] = sum_of_four(current[i], above[i], above[i + 1], above[i + 2]);
    }
}

/// Returns the sum of four offsets, wrapped.
#[inline(always)]
fn sum_of_four(west: u16, north_west: u16, north: u16, north_east: u16) -> i16
    ensures { west + north_west + north + north_east < 2 ^ 15 → result ≡ pos (west + north_west + north + north_east) }
{
    west.wrapping_add(north_west)
        .wrapping_add(north)
        .wrapping_add(north_east)
        .cast_signed()
}

/// Writes four times an offset of each place, less its local sum, where 16 bits hold that.
pub(crate) fn fill_differences(offsets: &[u16], sums: &[i16; PIECE], out: &mut [i16; PIECE])
    requires { length offsets.now ≡ PIECE }
    ensures { (i : ℕ) → i < PIECE → pos 0 ≤ℤ slice_index_or sums.now i (pos 0)
        → unsigned_abs (pos (4 * slice_index offsets.now i) -ℤ slice_index_or sums.now i (pos 0)) < 2 ^ 15
        → slice_index_or out.new i (pos 0) ≡ pos (4 * slice_index offsets.now i) -ℤ slice_index_or sums.now i (pos 0) }
{
    for i in 0..PIECE {
        out[i] = difference_of(offsets[i], sums[i]);
    }
}

/// Returns four times an offset, less a local sum, wrapped.
#[inline(always)]
fn difference_of(offset: u16, sum: i16) -> i16
    ensures { pos 0 ≤ℤ sum → unsigned_abs (pos (4 * offset) -ℤ sum) < 2 ^ 15 → result ≡ pos (4 * offset) -ℤ sum }
{
    offset
        .wrapping_mul(4)
        .wrapping_sub(sum.cast_unsigned())
        .cast_signed()
}
