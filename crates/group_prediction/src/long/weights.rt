//! The weights of four bands, from each band into rows and back.

ghost use Rattle.std.specs.Prelude.{◌≡◌, ◌≢◌, ◌+◌, ◌-◌, ◌*◌, ◌<◌, ◌≤◌, ℕ, min, pos, length, take, slice_get, slice_index_or, Some};
ghost use Rattle.lanes.specs.Lanes.{place};
ghost use Rattle.band_lanes.specs.Fours.{column_of};
ghost use Rattle.predict_core.specs.Following.{PredictorState};
ghost use Rattle.group_prediction.specs.GroupLanes.{HasLongWeights};

use predict_core::band::Band;
use sample_prediction::predictor::MOST_COMPONENTS;

/// Writes the first 2·`Q` weights of four bands: after the last band it stands for the others.
pub(crate) fn fill_weights<const Q: usize>(bands: &[Band], rows: &mut [[i32; 4]; MOST_COMPONENTS])
    requires few { Q ≤ 9 }
    requires some { 1 ≤ length bands.now }
    ensures { (b : ℕ) (s : PredictorState) → b < 4 → slice_get bands.now (min b (length bands.now - 1)) ≡ Some s → HasLongWeights Q b s rows.new }
{
    for b in 0..4usize {
        let band = &bands[b.min(bands.len() - 1)];
        put_band::<Q>(band, b, rows);
    }
}

/// Writes the weights of band `b`.
fn put_band<const Q: usize>(band: &Band, b: usize, rows: &mut [[i32; 4]; MOST_COMPONENTS])
    requires few { Q ≤ 9 }
    requires lane { b < 4 }
    ensures held { HasLongWeights Q b band.now rows.new }
    ensures others { (k : ℕ) → k ≢ b → column_of (2 * Q) k rows.new ≡ column_of (2 * Q) k rows.old }
{
    put_weights::<Q>(&band.weights, b, rows);
}

/// Writes weights of band `b`.
fn put_weights<const Q: usize>(
    weights: &[i32; MOST_COMPONENTS],
    b: usize,
    rows: &mut [[i32; 4]; MOST_COMPONENTS],
)
    requires few { Q ≤ 9 }
    requires lane { b < 4 }
    ensures long { length weights.now ≡ 18 }
    ensures held { column_of (2 * Q) b rows.new ≡ take (2 * Q) weights.now }
    ensures others { (k : ℕ) → k ≢ b → column_of (2 * Q) k rows.new ≡ column_of (2 * Q) k rows.old }
{
    for j in 0..2 * Q {
        put_number(weights[j], j, b, rows);
    }
}

/// Writes number `b` of row `j`.
#[inline(always)]
fn put_number(number: i32, j: usize, b: usize, rows: &mut [[i32; 4]; MOST_COMPONENTS])
    requires row { j < 18 }
    requires lane { b < 4 }
    ensures here { place rows.new j b ≡ number }
    ensures rows { (n i : ℕ) → n ≢ j → place rows.new n i ≡ place rows.old n i }
    ensures lanes { (n i : ℕ) → i ≢ b → place rows.new n i ≡ place rows.old n i }
{
    set_number(number, b, &mut rows[j]);
}

/// Writes number `b` of a row.
#[inline(always)]
fn set_number(number: i32, b: usize, row: &mut [i32; 4])
    requires { b < 4 }
    ensures here { slice_index_or row.new b (pos 0) ≡ number }
    ensures others { (i : ℕ) → i ≢ b → slice_index_or row.new i (pos 0) ≡ slice_index_or row.old i (pos 0) }
{
    row[b] = number;
}

/// Replaces the first 2·`Q` weights by those of band `b`.
pub(crate) fn take_weights<const Q: usize>(
    rows: &[[i32; 4]; MOST_COMPONENTS],
    b: usize,
    weights: &mut [i32; MOST_COMPONENTS],
)
    requires few { Q ≤ 9 }
    requires lane { b < 4 }
    ensures first { take (2 * Q) weights.new ≡ column_of (2 * Q) b rows.now }
    ensures rest { (k : ℕ) → 2 * Q ≤ k → slice_index_or weights.new k (pos 0) ≡ slice_index_or weights.old k (pos 0) }
{
    for j in 0..2 * Q {
        take_number(rows, j, b, weights);
    }
}

/// Replaces weight `j` by that of band `b`.
#[inline(always)]
fn take_number(
    rows: &[[i32; 4]; MOST_COMPONENTS],
    j: usize,
    b: usize,
    weights: &mut [i32; MOST_COMPONENTS],
)
    requires weight { j < 18 }
    requires lane { b < 4 }
    ensures here { slice_index_or weights.new j (pos 0) ≡ place rows.now j b }
    ensures others { (k : ℕ) → k ≢ j → slice_index_or weights.new k (pos 0) ≡ slice_index_or weights.old k (pos 0) }
{
    weights[j] = rows[j][b];
}
