//! The components of eight bands, from their lines to pairs in rows.

ghost use Rattle.std.specs.Prelude.{◌≡◌, ◌≢◌, ◌+◌, ◌*◌, ◌<◌, ◌≤◌, ℕ, length, slice_index_or, pos, []};
ghost use Rattle.lanes.specs.Lanes.{lane, place};
ghost use Rattle.band_lanes.specs.Rows.{row_at, no_pairs};
ghost use Rattle.group_prediction.specs.GroupLines.{no_lines};

use crate::band_lines::{BandLines, copy_line};
use band_lanes::pairs::{MOST_PAIRS, Pairs, Turned, pair_up};
use lanes::turn::turn;
use predict_core::run::PIECE;

/// Room for two components of eight bands, in lines and turned into rows.
#[derive(Clone, Copy)]
pub(crate) struct Scratch {
    pub first: [[i16; PIECE]; 8],
    pub second: [[i16; PIECE]; 8],
    pub turned: Turned,
}

/// Writes the first `Q` pairs of components of eight bands.
pub(crate) fn fill_pairs<const Q: usize>(
    bands: &[BandLines; 8],
    scratch: &mut Scratch,
    pairs: &mut [Pairs; MOST_PAIRS],
)
    requires { Q ≤ 9 }
    ensures long { length pairs.new ≡ 9 }
    ensures even { (j i b : ℕ) → j < Q → i < PIECE → b < 8 → lane (row_at (slice_index_or pairs.new j no_pairs) i) (2 * b)
        ≡ place (slice_index_or bands.now b no_lines).components (2 * j) i }
    ensures odd { (j i b : ℕ) → j < Q → i < PIECE → b < 8 → lane (row_at (slice_index_or pairs.new j no_pairs) i) (2 * b + 1)
        ≡ place (slice_index_or bands.now b no_lines).components (2 * j + 1) i }
{
    for j in 0..Q {
        fill_pair(bands, j, scratch, pairs);
    }
}

/// Writes pair `j`.
fn fill_pair(
    bands: &[BandLines; 8],
    j: usize,
    scratch: &mut Scratch,
    pairs: &mut [Pairs; MOST_PAIRS],
)
    requires { j < 9 }
    ensures even { (i b : ℕ) → i < PIECE → b < 8 → lane (row_at (slice_index_or pairs.new j no_pairs) i) (2 * b)
        ≡ place (slice_index_or bands.now b no_lines).components (2 * j) i }
    ensures odd { (i b : ℕ) → i < PIECE → b < 8 → lane (row_at (slice_index_or pairs.new j no_pairs) i) (2 * b + 1)
        ≡ place (slice_index_or bands.now b no_lines).components (2 * j + 1) i }
    ensures others { (k : ℕ) → k ≢ j → slice_index_or pairs.new k no_pairs ≡ slice_index_or pairs.old k no_pairs }
{
    collect(bands, 2 * j, &mut scratch.first);
    collect(bands, 2 * j + 1, &mut scratch.second);
    pair_up(
        &scratch.first,
        &scratch.second,
        &mut scratch.turned,
        &mut pairs[j],
    );
}

/// Writes line `k` of the components of each band.
fn collect(bands: &[BandLines; 8], k: usize, lines: &mut [[i16; PIECE]; 8])
    requires { k < 18 }
    ensures { (b i : ℕ) → b < 8 → place lines.new b i ≡ place (slice_index_or bands.now b no_lines).components k i }
{
    for b in 0..8usize {
        put_line(&bands[b].components[k], b, lines);
    }
}

/// Writes the central differences of each band, and turns them into rows.
pub(crate) fn fill_own_rows(
    bands: &[BandLines; 8],
    lines: &mut [[i16; PIECE]; 8],
    rows: &mut [[i16; 8]; PIECE],
)
    ensures { (i b : ℕ) → i < PIECE → b < 8 → lane (slice_index_or rows.new i []) b ≡ slice_index_or (slice_index_or bands.now b no_lines).own i (pos 0) }
{
    collect_own(bands, lines);
    turn(lines, rows);
}

/// Writes the central differences of each band.
fn collect_own(bands: &[BandLines; 8], lines: &mut [[i16; PIECE]; 8])
    ensures { (b i : ℕ) → b < 8 → place lines.new b i ≡ slice_index_or (slice_index_or bands.now b no_lines).own i (pos 0) }
{
    for b in 0..8usize {
        put_line(&bands[b].own, b, lines);
    }
}

/// Writes line `b`.
#[inline(always)]
fn put_line(from: &[i16; PIECE], b: usize, lines: &mut [[i16; PIECE]; 8])
    requires { b < 8 }
    ensures here { (i : ℕ) → place lines.new b i ≡ slice_index_or from.now i (pos 0) }
    ensures others { (k i : ℕ) → k ≢ b → place lines.new k i ≡ place lines.old k i }
{
    copy_line(from, &mut lines[b]);
}
