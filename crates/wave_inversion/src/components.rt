//! The components of one place of eight bands, in pairs.

ghost use Rattle.std.specs.Prelude.{◌≡◌, ◌≢◌, ◌+◌, ◌-◌, ◌*◌, ◌<◌, ◌≤◌, ℕ, Bool, length, slice_index_or, if◌then◌else◌};
ghost use Rattle.lanes.specs.Lanes.{lane, place};
ghost use Rattle.band_lanes.specs.Rows.{row_at, no_pairs, AreBelow};
ghost use Rattle.wave_inversion.specs.Wave.{component_in, diagonal_in, lagged_in, lower_of};

use crate::lower::LowerRows;
use band_lanes::pairs::{MOST_PAIRS, Pairs, put_pair};
use lanes::narrow::{moved, row_of};
use predict_core::band::first_spectral;
use std::simd::prelude::*;

/// Writes the components of eight bands at step `k` into the first `Q` pairs, at place 0.
///
/// `directions` are the directional differences, which come first if the mode isn't reduced, and `previous` is the greatest number of previous
/// bands whose central differences follow. Those of the bands of the wavefront are `own`, where in row i each band is at the column that the
/// wavefront has come to at step i, and those of the bands below them are `lower` (CCSDS 123.0-B-1, "Local Differences").
#[inline(always)]
pub(crate) fn put_components<const Q: usize>(
    reduced: bool,
    previous: usize,
    directions: &[[i16; 8]; 3],
    lower: &LowerRows,
    own: &[[i16; 8]; 64],
    k: usize,
    pairs: &mut [Pairs; MOST_PAIRS],
)
    requires few { Q ≤ 9 }
    requires previous { (previous ≤ 15) × (7 < previous → 5 < Q) }
    requires step { (7 ≤ k) × (k < 64) }
    ensures long { length pairs.new ≡ 9 }
    ensures even { (c b : ℕ) → c < Q → b < 8 → lane (row_at (slice_index_or pairs.new c no_pairs) 0) (2 * b)
        ≡ component_in reduced previous directions.now (lower_of lower.now) own.now k (2 * c) b }
    ensures odd { (c b : ℕ) → c < Q → b < 8 → lane (row_at (slice_index_or pairs.new c no_pairs) 0) (2 * b + 1)
        ≡ component_in reduced previous directions.now (lower_of lower.now) own.now k (2 * c + 1) b }
{
    for c in 0..Q {
        let even = component::<Q>(reduced, previous, directions, lower, own, k, 2 * c);
        let odd = component::<Q>(reduced, previous, directions, lower, own, k, 2 * c + 1);
        put_pair(pairs, c, 0, &even, &odd);
    }
}

/// Returns a component of eight bands: 0 after the last.
#[inline(always)]
fn component<const Q: usize>(
    reduced: bool,
    previous: usize,
    directions: &[[i16; 8]; 3],
    lower: &LowerRows,
    own: &[[i16; 8]; 64],
    k: usize,
    index: usize,
) -> [i16; 8]
    requires previous { (previous ≤ 15) × (7 < previous → 5 < Q) }
    requires step { (7 ≤ k) × (k < 64) }
    requires index { index < 18 }
    ensures { (b : ℕ) → b < 8 → lane result b ≡ component_in reduced previous directions.now (lower_of lower.now) own.now k index b }
{
    let first = first_spectral(reduced);
    if index < first {
        directions[index]
    } else if index - first < previous {
        lagged::<Q>(lower, own, k, index - first + 1)
    } else {
        [0; 8]
    }
}

/// Returns the central differences of the band `lag` below each band, at the same column. There are more than seven previous bands only if
/// `Q` is more than five.
#[inline(always)]
fn lagged<const Q: usize>(lower: &LowerRows, own: &[[i16; 8]; 64], k: usize, lag: usize) -> [i16; 8]
    requires lag { (1 ≤ lag) × (lag ≤ 15) × (7 < lag → 5 < Q) }
    requires step { (7 ≤ k) × (k < 64) }
    ensures { (b : ℕ) → b < 8 → lane result b ≡ lagged_in (lower_of lower.now) own.now k lag b }
{
    if Q <= 5 || lag < 8 {
        diagonal(&lower.near, own, k, lag)
    } else if lag == 8 {
        lower.beside[k]
    } else {
        diagonal(&lower.far, &lower.beside, k, lag - 8)
    }
}

/// Returns the numbers that are along a diagonal at step `k`: those of `own` so many lanes and steps before, and of `lower` in the first lanes.
#[inline(always)]
fn diagonal(lower: &[[i16; 8]; 64], own: &[[i16; 8]; 64], k: usize, lag: usize) -> [i16; 8]
    requires lag { (1 ≤ lag) × (lag ≤ 7) }
    requires step { (7 ≤ k) × (k < 64) }
    ensures { (b : ℕ) → b < 8 → lane result b ≡ diagonal_in lower.now own.now k lag b }
{
    let lower = numbers(&lower[k - lag]);
    let own = numbers(&own[k - lag]);
    row_of(moved(lower, own, lag))
}

/// Returns the numbers of a row.
///
/// It is one load. Of an array whose last numbers aren't needed clang makes a load of each of the others.
#[inline(always)]
fn numbers(row: &[i16; 8]) -> i16x8
    ensures { result ≡ row.now }
{
    // What it says of the row's numbers is all that this is for.
    let _same = whole(row);
    i16x8::from_slice(row)
}

/// Returns a row.
#[inline(always)]
fn whole(row: &[i16; 8]) -> [i16; 8]
    ensures { result ≡ row.now }
{
    *row
}
