//! Turning: from lines, one after another, to rows that have a number of each line, and back.

ghost use Rattle.std.specs.Prelude.{◌≡◌, ◌<◌, ◌≤◌, ◌+◌, ◌*◌, ℕ};
ghost use Rattle.lanes.specs.Lanes.{lane, place};
ghost use Rattle.lanes.specs.Turning.{rows_of, first_halves, last_halves, woven};

use std::simd::prelude::*;

/// Eight rows of eight numbers.
#[derive(Clone, Copy)]
struct Square {
    a: i16x8,
    b: i16x8,
    c: i16x8,
    d: i16x8,
    e: i16x8,
    f: i16x8,
    g: i16x8,
    h: i16x8,
}

/// Turns eight lines of 64 numbers: place i of line b becomes place b of row i.
#[inline(never)]
pub fn turn(lines: &[[i16; 64]; 8], rows: &mut [[i16; 8]; 64])
    ensures { (i b : ℕ) → i < 64 → b < 8 → place rows.new i b ≡ place lines.now b i }
{
    for k in 0..8usize {
        put_rows(turned(of_lines(lines, k)), 8 * k, rows);
    }
}

/// Turns 64 rows of eight numbers: place b of row i becomes place i of line b.
#[inline(never)]
pub fn turn_back(rows: &[[i16; 8]; 64], lines: &mut [[i16; 64]; 8])
    ensures { (i b : ℕ) → i < 64 → b < 8 → place lines.new b i ≡ place rows.now i b }
{
    for k in 0..8usize {
        put_lines(turned(of_rows(rows, 8 * k)), 8 * k, lines);
    }
}

/// Returns the eight numbers of each line from place 8k on.
#[inline(always)]
fn of_lines(lines: &[[i16; 64]; 8], k: usize) -> Square
    requires { k < 8 }
    ensures { (b j : ℕ) → b < 8 → j < 8 → place (rows_of result) b j ≡ place lines.now b (8 * k + j) }
{
    Square {
        a: part(&lines[0], k),
        b: part(&lines[1], k),
        c: part(&lines[2], k),
        d: part(&lines[3], k),
        e: part(&lines[4], k),
        f: part(&lines[5], k),
        g: part(&lines[6], k),
        h: part(&lines[7], k),
    }
}

/// Returns the eight numbers of a line from place 8k on.
#[inline(always)]
fn part(line: &[i16; 64], k: usize) -> i16x8
    requires { k < 8 }
    ensures { (j : ℕ) → j < 8 → lane result j ≡ lane line.now (8 * k + j) }
{
    let (eights, _) = line.as_chunks::<8>();
    numbers(eights[k])
}

/// Returns eight rows, from row `at` on.
#[inline(always)]
fn of_rows(rows: &[[i16; 8]; 64], at: usize) -> Square
    requires { at + 8 ≤ 64 }
    ensures { (j b : ℕ) → j < 8 → place (rows_of result) j b ≡ place rows.now (at + j) b }
{
    Square {
        a: numbers(rows[at]),
        b: numbers(rows[at + 1]),
        c: numbers(rows[at + 2]),
        d: numbers(rows[at + 3]),
        e: numbers(rows[at + 4]),
        f: numbers(rows[at + 5]),
        g: numbers(rows[at + 6]),
        h: numbers(rows[at + 7]),
    }
}

/// Returns the numbers of a row.
#[inline(always)]
fn numbers(row: [i16; 8]) -> i16x8
    ensures { result ≡ row }
{
    i16x8::from_array(row)
}

/// Writes eight rows, from row `at` on.
#[inline(always)]
fn put_rows(square: Square, at: usize, rows: &mut [[i16; 8]; 64])
    requires { at + 8 ≤ 64 }
    ensures before { (i b : ℕ) → i < at → place rows.new i b ≡ place rows.old i b }
    ensures written { (j b : ℕ) → j < 8 → place rows.new (at + j) b ≡ place (rows_of square) j b }
{
    put_row(square.a, &mut rows[at]);
    put_row(square.b, &mut rows[at + 1]);
    put_row(square.c, &mut rows[at + 2]);
    put_row(square.d, &mut rows[at + 3]);
    put_row(square.e, &mut rows[at + 4]);
    put_row(square.f, &mut rows[at + 5]);
    put_row(square.g, &mut rows[at + 6]);
    put_row(square.h, &mut rows[at + 7]);
}

/// Writes eight numbers into a row.
///
/// By `copy_to_slice`, which stays one store. Of eight arrays that are stored side by side clang makes many small pieces.
#[inline(always)]
fn put_row(numbers: i16x8, row: &mut [i16; 8])
    ensures { row.new ≡ numbers }
{
    numbers.copy_to_slice(row);
}

/// Writes eight numbers into each line, from place `at` on.
#[inline(always)]
fn put_lines(square: Square, at: usize, lines: &mut [[i16; 64]; 8])
    requires { at + 8 ≤ 64 }
    ensures before { (b i : ℕ) → b < 8 → i < at → place lines.new b i ≡ place lines.old b i }
    ensures written { (b j : ℕ) → b < 8 → j < 8 → place lines.new b (at + j) ≡ place (rows_of square) b j }
{
    put_part(square.a, at, &mut lines[0]);
    put_part(square.b, at, &mut lines[1]);
    put_part(square.c, at, &mut lines[2]);
    put_part(square.d, at, &mut lines[3]);
    put_part(square.e, at, &mut lines[4]);
    put_part(square.f, at, &mut lines[5]);
    put_part(square.g, at, &mut lines[6]);
    put_part(square.h, at, &mut lines[7]);
}

/// Writes eight numbers into a line, from place `at` on.
#[inline(always)]
fn put_part(numbers: i16x8, at: usize, line: &mut [i16; 64])
    requires { at + 8 ≤ 64 }
    ensures before { (i : ℕ) → i < at → lane line.new i ≡ lane line.old i }
    ensures written { (j : ℕ) → j < 8 → lane line.new (at + j) ≡ lane numbers j }
{
    numbers.copy_to_slice(&mut line[at..]);
}

/// Turns rows and columns of a square into one another.
///
/// The numbers of a row and a column have three bits each. Weaving rotates all six by one, so three times exchanges the two.
#[inline(always)]
fn turned(square: Square) -> Square
    ensures { (i b : ℕ) → i < 8 → b < 8 → place (rows_of result) i b ≡ place (rows_of square) b i }
{
    woven(woven(woven(square)))
}

/// Weaves the first four rows with the last four.
#[inline(always)]
fn woven(square: Square) -> Square
    ensures { rows_of result ≡ woven (rows_of square) }
{
    Square {
        a: first_halves(square.a, square.e),
        b: last_halves(square.a, square.e),
        c: first_halves(square.b, square.f),
        d: last_halves(square.b, square.f),
        e: first_halves(square.c, square.g),
        f: last_halves(square.c, square.g),
        g: first_halves(square.d, square.h),
        h: last_halves(square.d, square.h),
    }
}

/// Puts the first four lanes of two vectors side by side.
#[inline(always)]
fn first_halves(a: i16x8, b: i16x8) -> i16x8
    ensures { result ≡ first_halves a b }
{
    a.shuffle(b, [0, 8, 1, 9, 2, 10, 3, 11])
}

/// Puts the last four lanes of two vectors side by side.
#[inline(always)]
fn last_halves(a: i16x8, b: i16x8) -> i16x8
    ensures { result ≡ last_halves a b }
{
    a.shuffle(b, [4, 12, 5, 13, 6, 14, 7, 15])
}
