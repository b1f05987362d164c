//! From the lanes of a wavefront back into the cube and the bands.

ghost use Rattle.std.specs.Prelude.{◌≡◌, ◌+◌, ◌-◌, ◌*◌, ◌^◌, ◌<◌, ◌≤◌, ℕ, pos, [], length, take, slice_index_or};
ghost use Rattle.cube_core.specs.Image.{Image, IsPlace};
ghost use Rattle.header_bits.specs.declared.params.Params.{Params as Parameters};
ghost use Rattle.sample_prediction.specs.Bounds.{AllWithin};
ghost use Rattle.sample_prediction.specs.Prediction.{weight_vector};
ghost use Rattle.predict_core.specs.Following.{MovesBy};
ghost use Rattle.wave_inversion.specs.Inversion.{IsInverting, AreKeptBeside, band_at};
ghost use Rattle.predict_core.specs.Offsets.{number_at};
ghost use Rattle.predict_core.specs.Precedence.{AreAlike};
ghost use Rattle.wave_inversion.specs.WaveLanes.{column_at, first_column, first_step};
ghost use Rattle.wave_inversion.specs.WaveTiles.{AreFound, StandAsWave, end_column, ended, lane_count, offset_in};

use crate::found::Found;
use cube_core::cube::Cube;
use predict_core::band::Band;
use sample_prediction::predictor::MOST_COMPONENTS;

/// Writes what was found of each band, eight at most, into the cube, and advances the bands.
pub(crate) fn finish_lanes<const Q: usize>(
    bands: &mut [Band],
    first: usize,
    cube: &mut Cube,
    y: u32,
    origin: usize,
    last: usize,
    found: &Found,
)
    requires pairs { Q ≤ 9 }
    requires inverting { (p : Parameters) × (d : Image) × IsInverting p cube.old d bands.old }
    requires some { first < length bands.old }
    requires row { y < cube.old.shape.rows }
    requires last { (8 ≤ last) × (last ≤ 63) }
    requires begun { (origin ≡ 0 → 15 ≤ last) × (0 < origin → 7 ≤ origin) }
    requires inside { (16 ≤ cube.old.shape.columns) × (origin + 2 ≤ cube.old.shape.columns) × (origin + last ≤ cube.old.shape.columns + 14) }
    requires stand { StandAsWave bands.old first cube.old.shape.columns y origin }
    requires enough { (b : ℕ) → b < 8 → first + b < length bands.old → length (band_at bands.old (first + b)).weights ≤ 2 * Q }
    requires found { AreFound Q bands.old cube.old first y origin last found.now }
    ensures inverted { (p : Parameters) (d : Image) → IsInverting p cube.old d bands.old → IsInverting p cube.new d bands.new }
    ensures alike { AreAlike cube.old cube.new }
    ensures many { length bands.new ≡ length bands.old }
    ensures moved { (b : ℕ) → b < 8 → first + b < length bands.old → (band_at bands.new (first + b)).t ≡ y * cube.old.shape.columns + end_column cube.old.shape.columns origin last b }
    ensures others { AreKeptBeside bands.old bands.new first (first + 8) }
{
    cube.prove_is_cube();
    let many = lane_count(bands, first);
    for b in 0..many {
        finish_lane::<Q>(bands, first, b, cube, y, origin, last, found);
    }
}

/// Writes the offsets that lane `b` found from its first step to step `last`, or to the end of the row, into row `y` of the cube, as samples of
/// band `first + b`, and advances the band.
fn finish_lane<const Q: usize>(
    bands: &mut [Band],
    first: usize,
    b: usize,
    cube: &mut Cube,
    y: u32,
    origin: usize,
    last: usize,
    found: &Found,
)
    requires pairs { Q ≤ 9 }
    requires inverting { (p : Parameters) × (d : Image) × IsInverting p cube.old d bands.old }
    requires band { first + b < length bands.old }
    requires lane { b < 8 }
    requires last { (first_step origin b ≤ last) × (last ≤ 63) }
    requires place { IsPlace cube.old.shape (first + b) y (first_column origin b) }
    requires inside { origin + 2 ≤ cube.old.shape.columns }
    requires next { (band_at bands.old (first + b)).t ≡ y * cube.old.shape.columns + first_column origin b }
    requires offsets_in { (i : ℕ) → i < 64 → offset_in found.now.offsets b i < 2 ^ cube.old.kind.bits }
    requires enough { length (band_at bands.old (first + b)).weights ≤ 2 * Q }
    requires weights_in { AllWithin (2 ^ ((band_at bands.old (first + b)).predictor.omega + 2)) (take (2 * Q) (slice_index_or found.now.weights b [])) }
    ensures inverted { (p : Parameters) (d : Image) → IsInverting p cube.old d bands.old
        → ((i : ℕ) → first_step origin b ≤ i → i < last → column_at origin i b < cube.old.shape.columns → offset_in found.now.offsets b i ≡ number_at d (first + b) y (column_at origin i b))
        → take (length (band_at bands.old (first + b)).weights) (slice_index_or found.now.weights b [])
        ≡ weight_vector p d (first + b) (y * cube.old.shape.columns + end_column cube.old.shape.columns origin last b)
        → IsInverting p cube.new d bands.new }
    ensures alike { AreAlike cube.old cube.new }
    ensures many { length bands.new ≡ length bands.old }
    ensures moved { MovesBy (end_column cube.old.shape.columns origin last b - first_column origin b) (band_at bands.old (first + b)) (band_at bands.new (first + b)) }
    ensures others { AreKeptBeside bands.old bands.new (first + b) (first + b + 1) }
{
    cube.prove_is_cube();
    let from = 8 + b.saturating_sub(origin);
    let x = origin.saturating_sub(b) + 1;
    let count = end_of(cube, origin, last, b) - x;
    let z = first + b;
    let run = &found.offsets[b][from..from + count];
    cube.set_run(z as u32, y, x as u32, run);
    let band = &mut bands[z];
    advance::<Q>(band, &found.weights[b], count);
}

/// Returns the column that lane `b` has come to before step `last`.
fn end_of(cube: &Cube, origin: usize, last: usize, b: usize) -> usize
    requires origin { origin ≤ 65536 }
    requires last { (7 + b ≤ origin + last) × (last ≤ 63) }
    ensures { result ≡ end_column cube.now.shape.columns origin last b }
{
    let columns = cube.shape().columns() as usize;
    columns.min(origin + last - (7 + b))
}

/// Returns how many of eight lanes have a band: those of the bands from the `first` on.
pub(crate) fn lane_count(bands: &[Band], first: usize) -> usize
    requires { first < length bands.now }
    ensures { result ≡ lane_count bands.now first }
{
    8.min(bands.len() - first)
}

/// Returns how many lanes come to the end of the row before step `last`.
pub(crate) fn ended_of(cube: &Cube, origin: usize, last: usize) -> usize
    requires origin { origin ≤ 65536 }
    requires last { last ≤ 63 }
    ensures { result ≡ ended cube.now.shape.columns origin last }
{
    let columns = cube.shape().columns() as usize;
    (origin + last).saturating_sub(columns + 7)
}

/// Advances a band by `count` places, after which it has the first 2·`Q` of some weights.
fn advance<const Q: usize>(band: &mut Band, weights: &[i32; MOST_COMPONENTS], count: usize)
    requires pairs { Q ≤ 9 }
    requires count { (count ≤ 56) × (band.old.t ≤ 2 ^ 33) }
    requires enough { length band.old.weights ≤ 2 * Q }
    requires weights_in { AllWithin (2 ^ (band.old.predictor.omega + 2)) (take (2 * Q) weights.now) }
    ensures moved { MovesBy count band.old band.new }
    ensures weights { band.new.weights ≡ take (length band.old.weights) weights.now }
{
    band.next += count as u64;
    copy_first::<Q>(weights, &mut band.weights);
}

/// Writes the first 2·`Q` weights.
fn copy_first<const Q: usize>(weights: &[i32; MOST_COMPONENTS], own: &mut [i32; MOST_COMPONENTS])
    requires { Q ≤ 9 }
    ensures first { take (2 * Q) own.new ≡ take (2 * Q) weights.now }
    ensures rest { (k : ℕ) → 2 * Q ≤ k → slice_index_or own.new k (pos 0) ≡ slice_index_or own.old k (pos 0) }
{
    for k in 0..2 * Q {
        own[k] = weights[k];
    }
}
