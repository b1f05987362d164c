//! The components of four bands, from their lines to rows that have a number of each band.

ghost use Rattle.std.specs.Prelude.{◌≡◌, ◌≢◌, ◌+◌, ◌*◌, ◌<◌, ◌≤◌, ℕ, length, slice_index_or};
ghost use Rattle.lanes.specs.Lanes.{lane, place};
ghost use Rattle.band_lanes.specs.Fours.{no_rows};
ghost use Rattle.group_prediction.specs.GroupLines.{no_long_lines};

use crate::long::lines::LongLines;
use band_lanes::four::rows::Rows;
use lanes::turn_four::turn_four;
use predict_core::run::PIECE;
use sample_prediction::predictor::MOST_COMPONENTS;

/// Writes the first 2·`Q` components of four bands, from band `from` on.
pub(crate) fn fill_rows<const Q: usize>(
    bands: &[LongLines; 8],
    from: usize,
    rows: &mut [Rows; MOST_COMPONENTS],
)
    requires few { Q ≤ 9 }
    requires bands { from + 4 ≤ 8 }
    ensures long { length rows.new ≡ 18 }
    ensures rows { (k i b : ℕ) → k < 2 * Q → i < PIECE → b < 4 → place (slice_index_or rows.new k no_rows).places i b
        ≡ place (slice_index_or bands.now (from + b) no_long_lines).components k i }
{
    for k in 0..2 * Q {
        fill_component(bands, from, k, rows);
    }
}

/// Writes component `k`.
fn fill_component(bands: &[LongLines; 8], from: usize, k: usize, rows: &mut [Rows; MOST_COMPONENTS])
    requires component { k < 18 }
    requires bands { from + 4 ≤ 8 }
    ensures here { (i b : ℕ) → i < PIECE → b < 4 → place (slice_index_or rows.new k no_rows).places i b
        ≡ place (slice_index_or bands.now (from + b) no_long_lines).components k i }
    ensures others { (j : ℕ) → j ≢ k → slice_index_or rows.new j no_rows ≡ slice_index_or rows.old j no_rows }
{
    turn_four(
        &bands[from].components[k],
        &bands[from + 1].components[k],
        &bands[from + 2].components[k],
        &bands[from + 3].components[k],
        &mut rows[k].places,
    );
}

/// Writes the central differences of four bands, from band `from` on.
pub(crate) fn fill_own(bands: &[LongLines; 8], from: usize, own: &mut [[i32; 4]; PIECE])
    requires { from + 4 ≤ 8 }
    ensures { (i b : ℕ) → i < PIECE → b < 4 → place own.new i b ≡ lane (slice_index_or bands.now (from + b) no_long_lines).own i }
{
    turn_four(
        &bands[from].own,
        &bands[from + 1].own,
        &bands[from + 2].own,
        &bands[from + 3].own,
        own,
    );
}
