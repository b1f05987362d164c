//! The weights of eight bands of a wavefront in lanes of 32 bits, from each band into rows of pairs and back.

ghost use Rattle.std.specs.Prelude.{◌≡◌, ◌≢◌, ◌+◌, ◌-◌, ◌*◌, ◌<◌, ◌≤◌, ℕ, pos, min, length, take, slice_index_or};
ghost use Rattle.lanes.specs.Lanes.{place};
ghost use Rattle.band_lanes.specs.Rows.{weights_of};
ghost use Rattle.predict_core.specs.BandLanes.{HasWeights};
ghost use Rattle.wave_inversion.specs.Inversion.{band_at};

use band_lanes::pairs::MOST_PAIRS;
use predict_core::band::Band;
use sample_prediction::predictor::MOST_COMPONENTS;

/// Writes the first 2·`Q` weights of the bands from the `first` on, one in each lane: after the last band it stands for the others.
pub(crate) fn fill_weights<const Q: usize>(
    bands: &[Band],
    first: usize,
    rows: &mut [[i32; 16]; MOST_PAIRS],
)
    requires few { Q ≤ 9 }
    requires some { first < length bands.now }
    ensures { (b : ℕ) → b < 8 → HasWeights Q b (band_at bands.now (min (first + b) (length bands.now - 1))) rows.new }
{
    for b in 0..8usize {
        let z = (first + b).min(bands.len() - 1);
        put_band::<Q>(&bands[z], b, rows);
    }
}

/// Writes the weights of band `b`.
pub(crate) fn put_band<const Q: usize>(band: &Band, b: usize, rows: &mut [[i32; 16]; MOST_PAIRS])
    requires few { Q ≤ 9 }
    requires lane { b < 8 }
    ensures held { HasWeights Q b band.now rows.new }
    ensures others { (k : ℕ) → k ≢ b → weights_of Q k rows.new ≡ weights_of Q k rows.old }
{
    put_weights::<Q>(&band.weights, b, rows);
}

/// Writes weights of band `b`.
fn put_weights<const Q: usize>(
    weights: &[i32; MOST_COMPONENTS],
    b: usize,
    rows: &mut [[i32; 16]; MOST_PAIRS],
)
    requires few { Q ≤ 9 }
    requires lane { b < 8 }
    ensures long { length weights.now ≡ 18 }
    ensures held { weights_of Q b rows.new ≡ take (2 * Q) weights.now }
    ensures others { (k : ℕ) → k ≢ b → weights_of Q k rows.new ≡ weights_of Q k rows.old }
{
    for j in 0..Q {
        put_pair(weights, j, b, rows);
    }
}

/// Writes pair `j` of the weights of band `b`.
fn put_pair(
    weights: &[i32; MOST_COMPONENTS],
    j: usize,
    b: usize,
    rows: &mut [[i32; 16]; MOST_PAIRS],
)
    requires pair { j < 9 }
    requires lane { b < 8 }
    ensures even { place rows.new j (2 * b) ≡ slice_index_or weights.now (2 * j) (pos 0) }
    ensures odd { place rows.new j (2 * b + 1) ≡ slice_index_or weights.now (2 * j + 1) (pos 0) }
    ensures rows { (n k : ℕ) → n ≢ j → place rows.new n k ≡ place rows.old n k }
    ensures lanes { (n k : ℕ) → k ≢ 2 * b → k ≢ 2 * b + 1 → place rows.new n k ≡ place rows.old n k }
{
    put_number(weights[2 * j], j, 2 * b, rows);
    put_number(weights[2 * j + 1], j, 2 * b + 1, rows);
}

/// Writes number `k` of row `j`.
#[inline(always)]
fn put_number(number: i32, j: usize, k: usize, rows: &mut [[i32; 16]; MOST_PAIRS])
    requires row { j < 9 }
    requires lane { k < 16 }
    ensures here { place rows.new j k ≡ number }
    ensures rows { (n i : ℕ) → n ≢ j → place rows.new n i ≡ place rows.old n i }
    ensures lanes { (n i : ℕ) → i ≢ k → place rows.new n i ≡ place rows.old n i }
{
    set_number(number, k, &mut rows[j]);
}

/// Writes number `k` of a row.
#[inline(always)]
fn set_number(number: i32, k: usize, row: &mut [i32; 16])
    requires { k < 16 }
    ensures here { slice_index_or row.new k (pos 0) ≡ number }
    ensures others { (i : ℕ) → i ≢ k → slice_index_or row.new i (pos 0) ≡ slice_index_or row.old i (pos 0) }
{
    row[k] = number;
}

/// Keeps the first `Q` rows of pairs, which have all weights.
pub(crate) fn keep_rows<const Q: usize>(
    rows: &[[i32; 16]; MOST_PAIRS],
    kept: &mut [[i32; 16]; MOST_PAIRS],
)
    requires few { Q ≤ 9 }
    ensures { (b : ℕ) → weights_of Q b kept.new ≡ weights_of Q b rows.now }
{
    for j in 0..Q {
        kept[j] = rows[j];
    }
}

/// Replaces the first 2·`Q` weights by those of band `b`.
pub(crate) fn take_weights<const Q: usize>(
    rows: &[[i32; 16]; MOST_PAIRS],
    b: usize,
    weights: &mut [i32; MOST_COMPONENTS],
)
    requires few { Q ≤ 9 }
    requires lane { b < 8 }
    ensures first { take (2 * Q) weights.new ≡ weights_of Q b rows.now }
    ensures rest { (k : ℕ) → 2 * Q ≤ k → slice_index_or weights.new k (pos 0) ≡ slice_index_or weights.old k (pos 0) }
{
    for j in 0..Q {
        take_pair(rows, j, b, weights);
    }
}

/// Replaces pair `j` of the weights by that of band `b`.
fn take_pair(
    rows: &[[i32; 16]; MOST_PAIRS],
    j: usize,
    b: usize,
    weights: &mut [i32; MOST_COMPONENTS],
)
    requires pair { j < 9 }
    requires lane { b < 8 }
    ensures even { slice_index_or weights.new (2 * j) (pos 0) ≡ place rows.now j (2 * b) }
    ensures odd { slice_index_or weights.new (2 * j + 1) (pos 0) ≡ place rows.now j (2 * b + 1) }
    ensures others { (k : ℕ) → k ≢ 2 * j → k ≢ 2 * j + 1 → slice_index_or weights.new k (pos 0) ≡ slice_index_or weights.old k (pos 0) }
{
    weights[2 * j] = rows[j][2 * b];
    weights[2 * j + 1] = rows[j][2 * b + 1];
}
