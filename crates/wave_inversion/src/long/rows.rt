//! The rows of a wavefront in lanes of 32 bits, from the samples of a cube.

ghost use Rattle.std.specs.Prelude.{◌≡◌, ◌≢◌, ◌^◌, ◌<◌, ◌≤◌, ℕ, pos, ◌-ℤ◌};
ghost use Rattle.lanes.specs.Lanes.{lane, place};
ghost use Rattle.wave_inversion.specs.Wave.{AreOffsetRows};
ghost use Rattle.wave_inversion.specs.WaveRows.{AreRowsOf, without_sign};

use crate::rows::fill_lines;
use cube_core::cube::Cube;
use lanes::turn::turn;

/// Writes 64 rows of eight lanes: in row i, lane b has the offset at column `origin + i - 7 - b` of row `y` of band `first + b`, and after
/// the last column that of the last one once more. It has 0 where there is no such column.
///
/// Lines and rows of 16 bits, without a sign, are turned before they are widened: they take half as many vectors.
pub(crate) fn fill_rows(
    cube: &Cube,
    first: usize,
    y: u32,
    origin: usize,
    lines: &mut [[i16; 64]; 8],
    turned: &mut [[i16; 8]; 64],
    rows: &mut [[i32; 8]; 64],
)
    requires bands { first < cube.now.shape.bands }
    requires row { y < cube.now.shape.rows }
    requires some { 0 < cube.now.shape.columns }
    requires origin { origin ≤ 65544 }
    ensures numbers { AreRowsOf cube.now first 0 0 y origin rows.new }
    ensures within { AreOffsetRows (pos (2 ^ cube.now.kind.bits) -ℤ pos 1) rows.new }
{
    fill_lines(cube, first, 0, 0, y, origin, lines);
    turn(lines, turned);
    widen_rows(turned, rows);
}

/// Writes the numbers of rows of 16 bits, which have no sign, into rows of 32 bits.
fn widen_rows(narrow: &[[i16; 8]; 64], rows: &mut [[i32; 8]; 64])
    ensures { (i b : ℕ) → i < 64 → b < 8 → place rows.new i b ≡ without_sign (place narrow.now i b) }
{
    for i in 0..64usize {
        let row = widened(&narrow[i]);
        rows[i] = row;
    }
}

/// Returns the numbers of a row of 16 bits, which have no sign, in 32 bits.
#[inline(always)]
fn widened(narrow: &[i16; 8]) -> [i32; 8]
    ensures { (b : ℕ) → b < 8 → lane result b ≡ without_sign (lane narrow.now b) }
{
    let mut row = [0i32; 8];
    for b in 0..8usize {
        row[b] = narrow[b].cast_unsigned() as i32;
    }
    row
}

/// Writes number `b` of row `i`.
#[inline(always)]
pub(crate) fn put_number(number: i32, i: usize, b: usize, rows: &mut [[i32; 8]; 64])
    requires row { i < 64 }
    requires lane { b < 8 }
    ensures here { place rows.new i b ≡ number }
    ensures rows { (k c : ℕ) → k ≢ i → place rows.new k c ≡ place rows.old k c }
    ensures lanes { (k c : ℕ) → c ≢ b → place rows.new k c ≡ place rows.old k c }
{
    set_number(number, b, &mut rows[i]);
}

/// Writes number `b` of a row.
#[inline(always)]
fn set_number(number: i32, b: usize, row: &mut [i32; 8])
    requires { b < 8 }
    ensures here { lane row.new b ≡ number }
    ensures others { (c : ℕ) → c ≢ b → lane row.new c ≡ lane row.old c }
{
    row[b] = number;
}

/// Writes rows of zeros.
pub(crate) fn clear_rows(rows: &mut [[i32; 8]; 64])
    ensures { (i b : ℕ) → i < 64 → b < 8 → place rows.new i b ≡ pos 0 }
{
    *rows = [[0; 8]; 64];
}
