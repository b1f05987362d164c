//! Eight bands of a tile: from columns, as they are read, to a line of each.

ghost use Rattle.std.specs.Prelude.{◌≡◌, ◌≢◌, ◌+◌, ◌*◌, ◌^◌, ◌<◌, ◌≤◌, ℕ, List, length, slice_index};
ghost use Rattle.cube_core.specs.Image.{Image};
ghost use Rattle.cube_core.specs.Order.{IsPlaceOf};
ghost use Rattle.lanes.specs.Lanes.{number};
ghost use Rattle.lanes.specs.Squares.{at, rows_of};
ghost use Rattle.predict_core.specs.Precedence.{AreAlike};
ghost use Rattle.file_decoding.specs.Tiles.{HasStored, number_in};

use crate::tile::{COLUMNS, Tile};
use cube_core::cube::Cube;
use cube_core::order::Place;
use lanes::square::Square;
use std::simd::prelude::*;

/// How many bands are stored together, if a tile has so many.
pub(crate) const EIGHT: usize = 8;

impl Tile {
    /// Writes the numbers of eight bands of the tile, from band `first` on: a line for each, column after column.
    pub(crate) fn turn_eight(
        &self,
        numbers: &[u16],
        first: usize,
        lines: &mut [[u16; COLUMNS]; EIGHT],
    )
        requires few { (self.now.columns ≤ 64) × (self.now.bands ≤ 2 ^ 16) }
        requires bands { first + 8 ≤ self.now.bands }
        requires whole { length numbers.now ≡ self.now.columns * self.now.bands }
        ensures { (i b : ℕ) → i < self.now.columns → b < 8 → number_in lines.new b i ≡ slice_index numbers.now (i * self.now.bands + (first + b)) }
    {
        let mut i = 0;
        while i + EIGHT <= self.columns {
            let square = self.square_of(numbers, i, first);
            put_square(square.turned(), i, lines);
            i += EIGHT;
        }
        for k in i..self.columns {
            let at = k * self.bands + first;
            put_column(&numbers[at..at + EIGHT], k, lines);
        }
    }

    /// Returns the numbers of eight bands of the tile, from band `first` on, at eight columns, from `column` on: a row of each column.
    #[inline(always)]
    fn square_of(&self, numbers: &[u16], column: usize, first: usize) -> Square
        requires few { (self.now.columns ≤ 64) × (self.now.bands ≤ 2 ^ 16) }
        requires columns { column + 8 ≤ self.now.columns }
        requires bands { first + 8 ≤ self.now.bands }
        requires whole { length numbers.now ≡ self.now.columns * self.now.bands }
        ensures { (i b : ℕ) → i < 8 → b < 8 → at (rows_of result) i b ≡ slice_index numbers.now ((column + i) * self.now.bands + (first + b)) }
    {
        Square {
            a: self.row_of(numbers, column, first),
            b: self.row_of(numbers, column + 1, first),
            c: self.row_of(numbers, column + 2, first),
            d: self.row_of(numbers, column + 3, first),
            e: self.row_of(numbers, column + 4, first),
            f: self.row_of(numbers, column + 5, first),
            g: self.row_of(numbers, column + 6, first),
            h: self.row_of(numbers, column + 7, first),
        }
    }

    /// Returns the numbers of eight bands of the tile, from band `first` on, at a column.
    #[inline(always)]
    fn row_of(&self, numbers: &[u16], column: usize, first: usize) -> u16x8
        requires few { (self.now.columns ≤ 64) × (self.now.bands ≤ 2 ^ 16) }
        requires column { column < self.now.columns }
        requires bands { first + 8 ≤ self.now.bands }
        requires whole { length numbers.now ≡ self.now.columns * self.now.bands }
        ensures { (b : ℕ) → b < 8 → number result b ≡ slice_index numbers.now (column * self.now.bands + (first + b)) }
    {
        let at = column * self.bands + first;
        u16x8::from_slice(&numbers[at..at + EIGHT])
    }

    /// Stores lines of eight bands of the tile, from band `first` on.
    pub(crate) fn store_eight(&self, cube: &mut Cube, first: usize, lines: &[[u16; COLUMNS]; EIGHT])
        requires few { (self.now.columns ≤ 64) × (self.now.bands ≤ 2 ^ 16) }
        requires columns { self.now.place.x + self.now.columns ≤ cube.old.shape.columns }
        requires place { IsPlaceOf cube.old.shape self.now.place }
        requires inside { self.now.place.z + self.now.bands ≤ cube.old.shape.bands }
        requires bands { first + 8 ≤ self.now.bands }
        requires numbers_in { (b i : ℕ) → b < 8 → i < self.now.columns → number_in lines.now b i < 2 ^ cube.old.kind.bits }
        ensures stored { (c : Image) (numbers : List ℕ) → HasStored c cube.old self.now numbers first
            → ((i b : ℕ) → i < self.now.columns → b < 8 → number_in lines.now b i ≡ slice_index numbers (i * self.now.bands + (first + b)))
            → HasStored c cube.new self.now numbers (first + 8) }
        ensures alike { AreAlike cube.old cube.new }
    {
        cube.prove_is_cube();
        let Place { z, y, x } = self.place;
        for b in 0..EIGHT {
            cube.set_run(z + (first + b) as u32, y, x, &lines[b][..self.columns]);
        }
    }
}

/// Writes eight rows of eight numbers into lines, from place `i` on.
#[inline(always)]
fn put_square(square: Square, i: usize, lines: &mut [[u16; COLUMNS]; EIGHT])
    requires { i + 8 ≤ 64 }
    ensures here { (b k : ℕ) → b < 8 → k < 8 → number_in lines.new b (i + k) ≡ at (rows_of square) b k }
    ensures before { (b k : ℕ) → b < 8 → k < i → number_in lines.new b k ≡ number_in lines.old b k }
{
    put_row(square.a, i, &mut lines[0]);
    put_row(square.b, i, &mut lines[1]);
    put_row(square.c, i, &mut lines[2]);
    put_row(square.d, i, &mut lines[3]);
    put_row(square.e, i, &mut lines[4]);
    put_row(square.f, i, &mut lines[5]);
    put_row(square.g, i, &mut lines[6]);
    put_row(square.h, i, &mut lines[7]);
}

/// Writes eight numbers into a line, from place `i` on.
#[inline(always)]
fn put_row(row: u16x8, i: usize, line: &mut [u16; COLUMNS])
    requires { i + 8 ≤ 64 }
    ensures here { (k : ℕ) → k < 8 → slice_index line.new (i + k) ≡ number row k }
    ensures before { (k : ℕ) → k < i → slice_index line.new k ≡ slice_index line.old k }
{
    row.copy_to_slice(&mut line[i..i + EIGHT]);
}

/// Writes the numbers of a column of eight bands at place `i` of their lines.
// All eight are loaded at once, and stored at known distances: a store each.
#[inline(always)]
fn put_column(column: &[u16], i: usize, lines: &mut [[u16; COLUMNS]; EIGHT])
    requires place { i < 64 }
    requires eight { length column.now ≡ 8 }
    ensures here { (b : ℕ) → b < 8 → number_in lines.new b i ≡ slice_index column.now b }
    ensures others { (b k : ℕ) → k ≢ i → number_in lines.new b k ≡ number_in lines.old b k }
{
    let numbers = u16x8::from_slice(column).to_array();
    for b in 0..EIGHT {
        put_number(numbers[b], b, i, lines);
    }
}

/// Writes a number at place `i` of line `b`.
#[inline(always)]
fn put_number(number: u16, b: usize, i: usize, lines: &mut [[u16; COLUMNS]; EIGHT])
    requires line { b < 8 }
    requires place { i < 64 }
    ensures here { number_in lines.new b i ≡ number }
    ensures lines { (c k : ℕ) → c ≢ b → number_in lines.new c k ≡ number_in lines.old c k }
    ensures places { (c k : ℕ) → k ≢ i → number_in lines.new c k ≡ number_in lines.old c k }
{
    set_number(number, i, &mut lines[b]);
}

/// Writes a number at place `i` of a line.
#[inline(always)]
fn set_number(number: u16, i: usize, line: &mut [u16; COLUMNS])
    requires { i < 64 }
    ensures here { slice_index line.new i ≡ number }
    ensures others { (k : ℕ) → k ≢ i → slice_index line.new k ≡ slice_index line.old k }
{
    line[i] = number;
}
