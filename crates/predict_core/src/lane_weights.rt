//! The weights of eight bands, from each band into rows of pairs and back.

ghost use Rattle.std.specs.Prelude.{◌≡◌, ◌≢◌, ◌+◌, ◌-◌, ◌*◌, ◌<◌, ◌≤◌, ℕ, true, min, pos, negsuc, ◌≤ℤ◌, length, take, slice_get, slice_index_or, Some};
ghost use Rattle.lanes.specs.Lanes.{place};
ghost use Rattle.band_lanes.specs.Rows.{weights_of};
ghost use Rattle.predict_core.specs.Following.{PredictorState};
ghost use Rattle.predict_core.specs.BandLanes.{HasWeights};

use crate::band::Band;
use band_lanes::pairs::MOST_PAIRS;
use sample_prediction::predictor::MOST_COMPONENTS;

/// Writes the first 2·`Q` weights of eight bands, and returns whether 16 bits hold them: after the last band it stands for the
/// others.
pub fn fill_weights<const Q: usize>(bands: &[Band], rows: &mut [[i16; 16]; MOST_PAIRS]) -> bool
    requires few { Q ≤ 9 }
    requires some { 1 ≤ length bands.now }
    ensures { result ≡ true → (b : ℕ) (s : PredictorState) → b < 8 → slice_get bands.now (min b (length bands.now - 1)) ≡ Some s → HasWeights Q b s rows.new }
{
    for b in 0..8usize {
        let band = &bands[b.min(bands.len() - 1)];
        if !put_band::<Q>(band, b, rows) {
            return false;
        }
    }
    true
}

/// Writes the weights of band `b`.
pub fn put_band<const Q: usize>(band: &Band, b: usize, rows: &mut [[i16; 16]; MOST_PAIRS]) -> bool
    requires few { Q ≤ 9 }
    requires lane { b < 8 }
    ensures held { result ≡ true → HasWeights Q b band.now rows.new }
    ensures others { (k : ℕ) → k ≢ b → weights_of Q k rows.new ≡ weights_of Q k rows.old }
{
    put_weights::<Q>(&band.weights, b, rows)
}

/// Writes weights of band `b`, and returns whether 16 bits hold them.
fn put_weights<const Q: usize>(
    weights: &[i32; MOST_COMPONENTS],
    b: usize,
    rows: &mut [[i16; 16]; MOST_PAIRS],
) -> bool
    requires few { Q ≤ 9 }
    requires lane { b < 8 }
    ensures long { length weights.now ≡ 18 }
    ensures held { result ≡ true → weights_of Q b rows.new ≡ take (2 * Q) weights.now }
    ensures others { (k : ℕ) → k ≢ b → weights_of Q k rows.new ≡ weights_of Q k rows.old }
{
    for j in 0..Q {
        if !put_pair(weights, j, b, rows) {
            return false;
        }
    }
    true
}

/// Writes pair `j` of the weights of band `b`, and returns whether 16 bits hold it.
fn put_pair(
    weights: &[i32; MOST_COMPONENTS],
    j: usize,
    b: usize,
    rows: &mut [[i16; 16]; MOST_PAIRS],
) -> bool
    requires pair { j < 9 }
    requires lane { b < 8 }
    ensures even { result ≡ true → place rows.new j (2 * b) ≡ slice_index_or weights.now (2 * j) (pos 0) }
    ensures odd { result ≡ true → place rows.new j (2 * b + 1) ≡ slice_index_or weights.now (2 * j + 1) (pos 0) }
    ensures rows { (n k : ℕ) → n ≢ j → place rows.new n k ≡ place rows.old n k }
    ensures lanes { (n k : ℕ) → k ≢ 2 * b → k ≢ 2 * b + 1 → place rows.new n k ≡ place rows.old n k }
{
    let (first, second) = (weights[2 * j], weights[2 * j + 1]);
    if !is_short(first) || !is_short(second) {
        return false;
    }
    put_number(first as i16, j, 2 * b, rows);
    put_number(second as i16, j, 2 * b + 1, rows);
    true
}

/// Writes number `k` of row `j`.
#[inline(always)]
fn put_number(number: i16, j: usize, k: usize, rows: &mut [[i16; 16]; MOST_PAIRS])
    requires row { j < 9 }
    requires lane { k < 16 }
    ensures here { place rows.new j k ≡ number }
    ensures rows { (n i : ℕ) → n ≢ j → place rows.new n i ≡ place rows.old n i }
    ensures lanes { (n i : ℕ) → i ≢ k → place rows.new n i ≡ place rows.old n i }
{
    set_number(number, k, &mut rows[j]);
}

/// Writes number `k` of a row.
#[inline(always)]
fn set_number(number: i16, k: usize, row: &mut [i16; 16])
    requires { k < 16 }
    ensures here { slice_index_or row.new k (pos 0) ≡ number }
    ensures others { (i : ℕ) → i ≢ k → slice_index_or row.new i (pos 0) ≡ slice_index_or row.old i (pos 0) }
{
    row[k] = number;
}

/// Returns whether 16 bits hold a number.
#[inline(always)]
fn is_short(number: i32) -> bool
    ensures { result ≡ true → (negsuc 32767 ≤ℤ number) × (number ≤ℤ pos 32767) }
{
    -32768 <= number && number <= 32767
}

/// Replaces the first 2·`Q` weights by those of band `b`.
pub fn take_weights<const Q: usize>(
    rows: &[[i16; 16]; MOST_PAIRS],
    b: usize,
    weights: &mut [i32; MOST_COMPONENTS],
)
    requires few { Q ≤ 9 }
    requires lane { b < 8 }
    ensures first { take (2 * Q) weights.new ≡ weights_of Q b rows.now }
    ensures rest { (k : ℕ) → 2 * Q ≤ k → slice_index_or weights.new k (pos 0) ≡ slice_index_or weights.old k (pos 0) }
{
    for j in 0..Q {
        take_pair(rows, j, b, weights);
    }
}

/// Replaces pair `j` of the weights by that of band `b`.
fn take_pair(
    rows: &[[i16; 16]; MOST_PAIRS],
    j: usize,
    b: usize,
    weights: &mut [i32; MOST_COMPONENTS],
)
    requires pair { j < 9 }
    requires lane { b < 8 }
    ensures even { slice_index_or weights.new (2 * j) (pos 0) ≡ place rows.now j (2 * b) }
    ensures odd { slice_index_or weights.new (2 * j + 1) (pos 0) ≡ place rows.now j (2 * b + 1) }
    ensures others { (k : ℕ) → k ≢ 2 * j → k ≢ 2 * j + 1 → slice_index_or weights.new k (pos 0) ≡ slice_index_or weights.old k (pos 0) }
{
    weights[2 * j] = rows[j][2 * b] as i32;
    weights[2 * j + 1] = rows[j][2 * b + 1] as i32;
}
