//! Turning of four lines of numbers of 32 bits: to rows that have a number of each line, and back.

ghost use Rattle.std.specs.Prelude.{◌≡◌, ◌≢◌, ◌<◌, ◌≤◌, ◌+◌, ◌*◌, ℕ};
ghost use Rattle.lanes.specs.Lanes.{lane, place};
ghost use Rattle.lanes.specs.TurningFour.{four_rows, lower_halves, upper_halves, woven_four};

use crate::four::put;
use std::simd::prelude::*;

/// Four rows of four numbers.
#[derive(Clone, Copy)]
struct FourRows {
    a: i32x4,
    b: i32x4,
    c: i32x4,
    d: i32x4,
}

/// Turns four lines of 64 numbers: place i of the first becomes place 0 of row i, and so on.
#[inline(never)]
pub fn turn_four(
    first: &[i32; 64],
    second: &[i32; 64],
    third: &[i32; 64],
    fourth: &[i32; 64],
    rows: &mut [[i32; 4]; 64],
)
    ensures first { (i : ℕ) → i < 64 → place rows.new i 0 ≡ lane first.now i }
    ensures second { (i : ℕ) → i < 64 → place rows.new i 1 ≡ lane second.now i }
    ensures third { (i : ℕ) → i < 64 → place rows.new i 2 ≡ lane third.now i }
    ensures fourth { (i : ℕ) → i < 64 → place rows.new i 3 ≡ lane fourth.now i }
{
    for k in 0..16usize {
        let lines = FourRows {
            a: part_of(first, k),
            b: part_of(second, k),
            c: part_of(third, k),
            d: part_of(fourth, k),
        };
        put_four(turned_four(lines), 4 * k, rows);
    }
}

/// Turns 64 rows of four numbers: place b of row i becomes place i of line b.
///
/// The compiler makes vectors of this loop.
#[inline(never)]
pub fn turn_four_back(rows: &[[i32; 4]; 64], lines: &mut [[i32; 64]; 4])
    ensures { (i b : ℕ) → i < 64 → b < 4 → place lines.new b i ≡ place rows.now i b }
{
    for i in 0..64usize {
        put_lane(&rows[i], 0, i, lines);
        put_lane(&rows[i], 1, i, lines);
        put_lane(&rows[i], 2, i, lines);
        put_lane(&rows[i], 3, i, lines);
    }
}

/// Writes number `b` of a row to place `i` of line `b`.
#[inline(always)]
fn put_lane(row: &[i32; 4], b: usize, i: usize, lines: &mut [[i32; 64]; 4])
    requires lane { b < 4 }
    requires place { i < 64 }
    ensures here { place lines.new b i ≡ lane row.now b }
    ensures places { (k j : ℕ) → j ≢ i → place lines.new k j ≡ place lines.old k j }
    ensures lines { (k j : ℕ) → k ≢ b → place lines.new k j ≡ place lines.old k j }
{
    set_place(row[b], i, &mut lines[b]);
}

/// Writes place `i` of a line.
#[inline(always)]
fn set_place(number: i32, i: usize, line: &mut [i32; 64])
    requires { i < 64 }
    ensures here { lane line.new i ≡ number }
    ensures others { (k : ℕ) → k ≢ i → lane line.new k ≡ lane line.old k }
{
    line[i] = number;
}

/// Returns the four numbers of a line from place 4k on.
#[inline(always)]
fn part_of(line: &[i32; 64], k: usize) -> i32x4
    requires { k < 16 }
    ensures { (j : ℕ) → j < 4 → lane result j ≡ lane line.now (4 * k + j) }
{
    let (fours, _) = line.as_chunks::<4>();
    four_numbers(fours[k])
}

/// Returns the numbers of a row.
#[inline(always)]
fn four_numbers(row: [i32; 4]) -> i32x4
    ensures { result ≡ row }
{
    i32x4::from_array(row)
}

/// Writes four rows, from row `at` on.
#[inline(always)]
fn put_four(square: FourRows, at: usize, rows: &mut [[i32; 4]; 64])
    requires { at + 4 ≤ 64 }
    ensures before { (i b : ℕ) → i < at → place rows.new i b ≡ place rows.old i b }
    ensures written { (j b : ℕ) → j < 4 → place rows.new (at + j) b ≡ place (four_rows square) j b }
{
    put(square.a, &mut rows[at]);
    put(square.b, &mut rows[at + 1]);
    put(square.c, &mut rows[at + 2]);
    put(square.d, &mut rows[at + 3]);
}

/// Turns rows and columns of a square into one another.
///
/// The numbers of a row and a column have two bits each. Weaving rotates all four by one, so twice exchanges the two.
#[inline(always)]
fn turned_four(square: FourRows) -> FourRows
    ensures { (i b : ℕ) → i < 4 → b < 4 → place (four_rows result) i b ≡ place (four_rows square) b i }
{
    woven_once(woven_once(square))
}

/// Weaves the first two rows with the last two.
#[inline(always)]
fn woven_once(square: FourRows) -> FourRows
    ensures { four_rows result ≡ woven_four (four_rows square) }
{
    FourRows {
        a: lower_of(square.a, square.c),
        b: upper_of(square.a, square.c),
        c: lower_of(square.b, square.d),
        d: upper_of(square.b, square.d),
    }
}

/// Puts the first two lanes of two vectors side by side.
#[inline(always)]
fn lower_of(a: i32x4, b: i32x4) -> i32x4
    ensures { result ≡ lower_halves a b }
{
    a.shuffle(b, [0, 4, 1, 5])
}

/// Puts the last two lanes of two vectors side by side.
#[inline(always)]
fn upper_of(a: i32x4, b: i32x4) -> i32x4
    ensures { result ≡ upper_halves a b }
{
    a.shuffle(b, [2, 6, 3, 7])
}
