//! Components and weights in pairs: each row has two of each band side by side.

ghost use Rattle.std.specs.Prelude.{◌≡◌, ◌≢◌, ◌+◌, ◌*◌, ◌<◌, ℕ, length, slice_index_or, []};
ghost use Rattle.lanes.specs.Lanes.{lane, place};
ghost use Rattle.band_lanes.specs.Rows.{row_at, no_pairs};

use lanes::narrow::paired;
use lanes::turn::turn;
use std::simd::prelude::*;

/// The most pairs of components that a band has.
pub const MOST_PAIRS: usize = 9;

/// Two components of eight bands at each place of a piece. In a row, those of band b are at 2b and 2b + 1.
#[derive(Clone, Copy)]
pub struct Pairs {
    pub places: [[i16; 16]; 64],
}

/// Returns a row of pairs.
#[inline(always)]
pub(crate) fn row_of(row: &[i16; 16]) -> [i16; 16]
    ensures { result ≡ row.now }
{
    *row
}

/// Returns a row of one number of each band.
#[inline(always)]
pub(crate) fn band_row(row: &[i16; 8]) -> [i16; 8]
    ensures { result ≡ row.now }
{
    *row
}

/// Lines of eight bands, turned into rows of one number of each band: those of two components.
#[derive(Clone, Copy)]
pub struct Turned {
    pub even: [[i16; 8]; 64],
    pub odd: [[i16; 8]; 64],
}

/// Writes two components of eight bands, whose lines are `first` and `second`, as pairs. `turned` is room for the work.
#[inline(never)]
pub fn pair_up(
    first: &[[i16; 64]; 8],
    second: &[[i16; 64]; 8],
    turned: &mut Turned,
    out: &mut Pairs,
)
    ensures even { (i b : ℕ) → i < 64 → b < 8 → lane (row_at out.new i) (2 * b) ≡ place first.now b i }
    ensures odd { (i b : ℕ) → i < 64 → b < 8 → lane (row_at out.new i) (2 * b + 1) ≡ place second.now b i }
{
    turn(first, &mut turned.even);
    turn(second, &mut turned.odd);
    weave(&turned.even, &turned.odd, &mut out.places);
}

/// Writes rows of pairs, of one row of each of two components.
fn weave(even: &[[i16; 8]; 64], odd: &[[i16; 8]; 64], out: &mut [[i16; 16]; 64])
    ensures even { (i b : ℕ) → i < 64 → b < 8 → lane (slice_index_or out.new i []) (2 * b) ≡ place even.now i b }
    ensures odd { (i b : ℕ) → i < 64 → b < 8 → lane (slice_index_or out.new i []) (2 * b + 1) ≡ place odd.now i b }
{
    for i in 0..64usize {
        let row = woven(&even[i], &odd[i]);
        out[i] = row;
    }
}

/// Returns a row of pairs.
#[inline(always)]
fn woven(even: &[i16; 8], odd: &[i16; 8]) -> [i16; 16]
    ensures even { (b : ℕ) → b < 8 → lane result (2 * b) ≡ lane even.now b }
    ensures odd { (b : ℕ) → b < 8 → lane result (2 * b + 1) ≡ lane odd.now b }
{
    let even = band_row(even);
    let odd = band_row(odd);
    paired(i16x8::from_array(even), i16x8::from_array(odd)).to_array()
}

/// Writes pair `c` of place `i`: of each band, two components.
#[inline(always)]
pub fn put_pair(
    pairs: &mut [Pairs; MOST_PAIRS],
    c: usize,
    i: usize,
    even: &[i16; 8],
    odd: &[i16; 8],
)
    requires pair { c < 9 }
    requires place { i < 64 }
    ensures long { length pairs.new ≡ 9 }
    ensures even { (b : ℕ) → b < 8 → lane (row_at (slice_index_or pairs.new c no_pairs) i) (2 * b) ≡ lane even.now b }
    ensures odd { (b : ℕ) → b < 8 → lane (row_at (slice_index_or pairs.new c no_pairs) i) (2 * b + 1) ≡ lane odd.now b }
    ensures others { (k : ℕ) → k ≢ c → slice_index_or pairs.new k no_pairs ≡ slice_index_or pairs.old k no_pairs }
{
    let row = woven(even, odd);
    put_row(&mut pairs[c], i, row);
}

/// Writes the row of place `i`.
#[inline(always)]
fn put_row(pairs: &mut Pairs, i: usize, row: [i16; 16])
    requires { i < 64 }
    ensures { row_at pairs.new i ≡ row }
{
    pairs.places[i] = row;
}
