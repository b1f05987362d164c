//! The offsets of a run of places and of their neighbours, in lines of fixed length.
//!
//! A run is at most 64 places of one row. Its lines have one place more on each side, so that every place has
//! its neighbours at the same distances, and a loop over all 64 needs no test.

ghost use Rattle.std.specs.Prelude.{◌≡◌, ◌+◌, ◌-◌, ◌*◌, ◌<◌, ◌≤◌, ℕ, false, ◌||◌, ◌==◌, pos, length, replicate, slice_index, slice_index_or};
ghost use Rattle.sample_prediction.specs.Lines.{bordered, bordered_above, line_sum, AreLines, AreBandLines};
ghost use Rattle.predict_core.specs.ImageRuns.{IsRunOf};

use crate::run::{PIECE, Run};
use sample_prediction::predictor::Predictor;

/// The length of a line: a piece, with one place more on each side.
pub const LINE: usize = PIECE + 2;

/// The offsets of a run in its own row, `current`, and in the row `above` it, each with one place more on each side.
#[derive(Clone, Copy)]
pub struct Lines {
    pub current: [u16; LINE],
    pub above: [u16; LINE],
}

impl Lines {
    /// Lines of zeros, whose differences are 0.
    pub fn empty() -> Lines
        ensures current { result.current ≡ replicate 66 0 }
        ensures above { result.above ≡ replicate 66 0 }
    {
        Lines {
            current: [0; LINE],
            above: [0; LINE],
        }
    }
}

/// Writes the lines of a run of band `z`.
pub fn fill_run_lines(predictor: &Predictor, run: &Run, z: u32, lines: &mut Lines)
    requires run { IsRunOf z run.now }
    requires wide { predictor.now.column ≡ false → 2 ≤ run.now.image.shape.columns }
    ensures { AreBandLines predictor.now run.now.image z run.now.y run.now.x run.now.count lines.new.current lines.new.above }
{
    fill_lines(predictor.column, run, run.row(z), run.row_above(z), lines);
}

/// Writes the neighbours of `count` places from column `x` on that are in the row above them.
fn fill_line_above(column: bool, above: &[u16], x: usize, count: usize, upper: &mut [u16; LINE])
    requires few { count ≤ PIECE }
    requires inside { x + count ≤ length above.now }
    requires some { 1 ≤ length above.now }
    requires wide { column ≡ false → 2 ≤ length above.now }
    ensures { (k : ℕ) → k < count + 2 → slice_index upper.new k ≡ slice_index (bordered_above column above.now) (x + k) }
{
    if column {
        fill_line(above, x, count, above[0], above[0], upper);
    } else {
        fill_line(above, x, count, above[1], above[above.len() - 1], upper);
    }
}

/// Writes the neighbours of a run: those in its row, and those in the row above.
///
/// If a place has no such neighbour, a substitute makes the sum of all four the local sum. In the first row, where the
/// local sum is that of the western neighbour alone, the western neighbours are written above their places
/// (CCSDS 123.0-B-1, "Local Sums").
fn fill_lines(column: bool, run: &Run, row: &[u16], above: &[u16], lines: &mut Lines)
    requires some { 1 ≤ run.now.count }
    requires few { run.now.count ≤ PIECE }
    requires inside { run.now.x + run.now.count ≤ length row.now }
    requires same { length above.now ≡ length row.now }
    requires wide { column ≡ false → 2 ≤ length row.now }
    ensures { AreLines column run.now.y row.now above.now run.now.x run.now.count lines.new.current lines.new.above }
{
    let x = run.x() as usize;
    let count = run.count();
    let north = above[0];
    fill_line(row, x, count, north, north, &mut lines.current);
    if run.y() == 0 {
        lines.above[1..count + 1].copy_from_slice(&lines.current[..count]);
    } else {
        fill_line_above(column, above, x, count, &mut lines.above);
    }
}

/// Writes `count` offsets of a row from column `x` on, and one more on each side.
///
/// `before` and `after` are the substitutes where the row ends.
fn fill_line(row: &[u16], x: usize, count: usize, before: u16, after: u16, line: &mut [u16; LINE])
    requires few { count ≤ PIECE }
    requires inside { x + count ≤ length row.now }
    ensures { (k : ℕ) → k < count + 2 → slice_index line.new k ≡ slice_index (bordered before row.now after) (x + k) }
{
    if 1 <= x && x + PIECE + 1 <= row.len() {
        copy_line(row, x, line);
    } else {
        copy_places(row, x, count, line);
        line[0] = offset_at(row, x, before, after);
        line[count + 1] = offset_at(row, x + count + 1, before, after);
    }
}

/// Writes a whole line of a row where the row continues at both sides of it, as it mostly does.
///
/// A copy of this fixed length is a few vector moves instead of a call.
#[inline(always)]
fn copy_line(row: &[u16], x: usize, line: &mut [u16; LINE])
    requires begun { 1 ≤ x }
    requires inside { x + PIECE + 1 ≤ length row.now }
    ensures { (k : ℕ) → k < LINE → slice_index line.new k ≡ slice_index row.now (x + k - 1) }
{
    line[..PIECE].copy_from_slice(&row[x - 1..x + PIECE - 1]);
    line[PIECE] = row[x + PIECE - 1];
    line[PIECE + 1] = row[x + PIECE];
}

/// Writes `count` offsets of a row from column `x` on, after the first element of a line.
fn copy_places(row: &[u16], x: usize, count: usize, line: &mut [u16; LINE])
    requires few { count ≤ PIECE }
    requires inside { x + count ≤ length row.now }
    ensures { (k : ℕ) → k < count → slice_index line.new (k + 1) ≡ slice_index row.now (x + k) }
{
    if count == PIECE {
        // A copy of this fixed length is a few vector moves instead of a call.
        line[1..PIECE + 1].copy_from_slice(&row[x..x + PIECE]);
    } else {
        line[1..count + 1].copy_from_slice(&row[x..x + count]);
    }
}

/// Returns the offset before column `k` of a row that has one more at each end.
fn offset_at(row: &[u16], k: usize, before: u16, after: u16) -> u16
    requires { k ≤ length row.now + 1 }
    ensures { result ≡ slice_index (bordered before row.now after) k }
{
    if k == 0 {
        before
    } else if k <= row.len() {
        row[k - 1]
    } else {
        after
    }
}

/// Returns whether a local sum takes one neighbour alone: the northern one under column-oriented sums, or the
/// western one in the first row.
pub fn is_column(column: bool, y: u32) -> bool
    ensures { result ≡ (column || y == 0) }
{
    column | (y == 0)
}

/// Returns four times an average of the neighbours of place `i`.
#[inline(always)]
pub(crate) fn sum_of_lines(
    column: bool,
    current: &[u16; LINE],
    upper: &[u16; LINE],
    i: usize,
) -> u32
    requires { i < PIECE }
    ensures value { result ≡ line_sum column current.now upper.now i }
    ensures bound { result ≤ 262140 }
{
    if column {
        4 * upper[i + 1] as u32
    } else {
        current[i] as u32 + upper[i] as u32 + upper[i + 1] as u32 + upper[i + 2] as u32
    }
}

/// Writes zeros into a line.
pub fn clear_line(line: &mut [i16; PIECE])
    ensures { (i : ℕ) → i < 64 → slice_index_or line.new i (pos 0) ≡ pos 0 }
{
    *line = [0; PIECE];
}
