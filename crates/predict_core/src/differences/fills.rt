//! The sums and differences of a run, computed from its lines for all places at once.
//!
//! Each loop goes over all 64 places of arrays of fixed length, so that it has no test and no tail, and the
//! compiler vectorizes it. What is written after the last place of a shorter run isn't read.

ghost use Rattle.std.specs.Prelude.{◌≡◌, ◌<◌, ◌≤◌, ℕ, pos, [], ◌∷◌, ◌++◌, slice_index_or, unsigned_abs, replicate};
ghost use Rattle.sample_prediction.specs.Lines.{line_sum, line_difference, line_directions};

use crate::differences::lines::{Lines, sum_of_lines};
use crate::run::PIECE;
use sample_prediction::neighbourhood::difference_of;

/// Writes the local sum of offsets and the central difference of each place.
pub fn fill_own(column: bool, lines: &Lines, sums: &mut [i32; PIECE], own: &mut [i32; PIECE])
    ensures sums { (i : ℕ) → i < 64 → slice_index_or sums.new i (pos 0) ≡ pos (line_sum column lines.now.current lines.now.above i) }
    ensures own { (i : ℕ) → i < 64 → slice_index_or own.new i (pos 0) ≡ line_difference column lines.now.current lines.now.above i }
{
    for i in 0..PIECE {
        let sum = sum_of_lines(column, &lines.current, &lines.above, i);
        sums[i] = sum as i32;
        own[i] = difference_of(lines.current[i + 1], sum);
    }
}

/// Writes the central differences of four bands at each place, the first band's first.
pub(crate) fn fill_four(
    column: bool,
    first: &Lines,
    second: &Lines,
    third: &Lines,
    fourth: &Lines,
    out: &mut [[i32; 4]; PIECE],
)
    ensures { (i : ℕ) → i < PIECE → slice_index_or out.new i [] ≡ line_difference column first.now.current first.now.above i ∷ line_difference column
        second.now.current second.now.above i ∷ line_difference column third.now.current third.now.above i ∷ line_difference column fourth.now.current
        fourth.now.above i ∷ [] }
{
    for i in 0..PIECE {
        out[i] = [
            central_at(column, first, i),
            central_at(column, second, i),
            central_at(column, third, i),
            central_at(column, fourth, i),
        ];
    }
}

/// Writes the central differences of two bands at each place, followed by zeros.
pub(crate) fn fill_two(column: bool, first: &Lines, second: &Lines, out: &mut [[i32; 4]; PIECE])
    ensures { (i : ℕ) → i < PIECE → slice_index_or out.new i [] ≡ line_difference column first.now.current first.now.above i ∷ line_difference column
        second.now.current second.now.above i ∷ pos 0 ∷ pos 0 ∷ [] }
{
    for i in 0..PIECE {
        out[i] = [
            central_at(column, first, i),
            central_at(column, second, i),
            0,
            0,
        ];
    }
}

/// Writes the local sum of offsets, the central and the directional differences of each place, and the central
/// difference of another band: a quad holds north, west, north-west, and that band's.
pub(crate) fn fill_directions(
    column: bool,
    lines: &Lines,
    below: &Lines,
    sums: &mut [i32; PIECE],
    own: &mut [i32; PIECE],
    out: &mut [[i32; 4]; PIECE],
)
    ensures sums { (i : ℕ) → i < PIECE → slice_index_or sums.new i (pos 0) ≡ pos (line_sum column lines.now.current lines.now.above i) }
    ensures own { (i : ℕ) → i < PIECE → slice_index_or own.new i (pos 0) ≡ line_difference column lines.now.current lines.now.above i }
    ensures quads { (i : ℕ) → i < PIECE → slice_index_or out.new i [] ≡ line_directions column lines.now.current lines.now.above i ++ line_difference column
        below.now.current below.now.above i ∷ [] }
{
    for i in 0..PIECE {
        let sum = sum_of_lines(column, &lines.current, &lines.above, i);
        sums[i] = sum as i32;
        own[i] = difference_of(lines.current[i + 1], sum);
        let north = difference_of(lines.above[i + 1], sum);
        let west = difference_of(lines.current[i], sum);
        let north_west = difference_of(lines.above[i], sum);
        out[i] = [north, west, north_west, central_at(column, below, i)];
    }
}

/// The central difference of place `i`.
#[inline(always)]
fn central_at(column: bool, lines: &Lines, i: usize) -> i32
    requires { i < PIECE }
    ensures value { result ≡ line_difference column lines.now.current lines.now.above i }
    ensures bound { unsigned_abs result ≤ 262144 }
{
    let sum = sum_of_lines(column, &lines.current, &lines.above, i);
    difference_of(lines.current[i + 1], sum)
}
