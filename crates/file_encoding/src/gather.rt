//! What bands hold of the places of their pieces, gathered place after place.

ghost use Rattle.std.specs.Prelude.{◌≡◌, ◌+◌, ◌*◌, ◌<◌, ◌≤◌, ℕ, length, slice_index_or};
ghost use Rattle.std.specs.List.{flat_map};
ghost use Rattle.cube_core.specs.Order.{from};
ghost use Rattle.lanes.specs.Lanes.{number};
ghost use Rattle.lanes.specs.Squares.{at, rows_of};
ghost use Rattle.file_encoding.specs.Pieces.{held_at};

use crate::pieces::GROUP;
use lanes::square::Square;
use predict_core::band::Band;
use std::simd::prelude::*;

/// Writes the residuals that some bands hold of `count` places of their pieces, from place `first` on, place after
/// place.
pub(crate) fn gather_places(first: usize, count: usize, bands: &[Band], residuals: &mut [u16])
    requires places { first + count ≤ 64 }
    requires few { length bands.now ≤ 2048 }
    requires room { length residuals.old ≡ count * length bands.now }
    ensures { residuals.new ≡ flat_map (λ i. held_at bands.now i) (from first count) }
{
    let many = bands.len();
    let mut k = 0;
    if many >= GROUP {
        while k + GROUP <= count {
            gather_squares(
                first + k,
                bands,
                &mut residuals[k * many..(k + GROUP) * many],
            );
            k += GROUP;
        }
    }
    for i in k..count {
        gather(first + i, bands, &mut residuals[i * many..(i + 1) * many]);
    }
}

/// `gather_places` for eight places of eight bands or more. The last eight bands may be some of those before them once more.
fn gather_squares(first: usize, bands: &[Band], residuals: &mut [u16])
    requires places { first + 8 ≤ 64 }
    requires many { (8 ≤ length bands.now) × (length bands.now ≤ 2048) }
    requires room { length residuals.old ≡ 8 * length bands.now }
    ensures { residuals.new ≡ flat_map (λ i. held_at bands.now i) (from first 8) }
{
    let last = bands.len() - GROUP;
    for k in 0..bands.len().div_ceil(GROUP) {
        gather_square(first, last.min(k * GROUP), bands, residuals);
    }
}

/// Writes the residuals that bands `b` to `b + 7` hold of eight places.
#[inline(always)]
fn gather_square(first: usize, b: usize, bands: &[Band], residuals: &mut [u16])
    requires places { first + 8 ≤ 64 }
    requires bands { (b + 8 ≤ length bands.now) × (length bands.now ≤ 2048) }
    requires room { length residuals.old ≡ 8 * length bands.now }
    ensures here { (i k : ℕ) → i < 8 → k < 8
        → slice_index_or residuals.new (i * length bands.now + (b + k)) 0 ≡ slice_index_or (held_at bands.now (first + i)) (b + k) 0 }
    ensures before { (i k : ℕ) → i < 8 → k < b
        → slice_index_or residuals.new (i * length bands.now + k) 0 ≡ slice_index_or residuals.old (i * length bands.now + k) 0 }
{
    let square = Square {
        a: places_of(&bands[b], first),
        b: places_of(&bands[b + 1], first),
        c: places_of(&bands[b + 2], first),
        d: places_of(&bands[b + 3], first),
        e: places_of(&bands[b + 4], first),
        f: places_of(&bands[b + 5], first),
        g: places_of(&bands[b + 6], first),
        h: places_of(&bands[b + 7], first),
    };
    put_square(square.turned(), b, bands.len(), residuals);
}

/// Returns the residuals that a band holds of eight places.
#[inline(always)]
fn places_of(band: &Band, first: usize) -> u16x8
    requires { first + 8 ≤ 64 }
    ensures { (i : ℕ) → i < 8 → number result i ≡ slice_index_or band.now.piece (first + i) 0 }
{
    u16x8::from_slice(&band.piece_residuals(64)[first..])
}

/// Writes the rows of a square from number `b` on in each of eight columns of `many` numbers.
#[inline(always)]
fn put_square(square: Square, b: usize, many: usize, residuals: &mut [u16])
    requires inside { (b + 8 ≤ many) × (many ≤ 2048) }
    requires room { length residuals.old ≡ 8 * many }
    ensures here { (i k : ℕ) → i < 8 → k < 8 → slice_index_or residuals.new (i * many + (b + k)) 0 ≡ at (rows_of square) i k }
    ensures before { (i k : ℕ) → i < 8 → k < b → slice_index_or residuals.new (i * many + k) 0 ≡ slice_index_or residuals.old (i * many + k) 0 }
{
    put_row(square.a, b, residuals);
    put_row(square.b, many + b, residuals);
    put_row(square.c, 2 * many + b, residuals);
    put_row(square.d, 3 * many + b, residuals);
    put_row(square.e, 4 * many + b, residuals);
    put_row(square.f, 5 * many + b, residuals);
    put_row(square.g, 6 * many + b, residuals);
    put_row(square.h, 7 * many + b, residuals);
}

/// Writes eight numbers into a list, from index `at` on.
#[inline(always)]
fn put_row(row: u16x8, at: usize, residuals: &mut [u16])
    requires { at + 8 ≤ length residuals.old }
    ensures here { (k : ℕ) → k < 8 → slice_index_or residuals.new (at + k) 0 ≡ number row k }
    ensures before { (i : ℕ) → i < at → slice_index_or residuals.new i 0 ≡ slice_index_or residuals.old i 0 }
    ensures after { (i : ℕ) → at + 8 ≤ i → slice_index_or residuals.new i 0 ≡ slice_index_or residuals.old i 0 }
{
    row.copy_to_slice(&mut residuals[at..at + 8]);
}

/// Writes the residuals that some bands hold of place `i` of their pieces, band after band.
#[inline(always)]
#[tactic(auto, using(std::proofs::lemmas::List::map_more))]
pub(crate) fn gather(i: usize, bands: &[Band], residuals: &mut [u16])
    requires place { i < 64 }
    requires room { length residuals.old ≡ length bands.now }
    ensures { residuals.new ≡ held_at bands.now i }
{
    for k in 0..bands.len() {
        residuals[k] = bands[k].piece_residual(i);
    }
}
