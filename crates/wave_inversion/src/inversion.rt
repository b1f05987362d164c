//! Inverting the prediction of a whole cube in place: it holds mapped residuals, and then samples.

ghost use Rattle.std.specs.Prelude.{◌≡◌, ◌+◌, ◌-◌, ◌*◌, ◌<◌, ◌≤◌, ℕ, true, false, min, length};
ghost use Rattle.cube_core.specs.Image.{Image, IsPlace};
ghost use Rattle.header_bits.specs.declared.params.Params.{Params as Parameters};
ghost use Rattle.predict_core.specs.Precedence.{AreAlike};
ghost use Rattle.wave_inversion.specs.Inversion.{IsAtStart, IsCoded, IsInverting, AreAhead, StandAt, AreKeptBeside, band_at};
ghost use Rattle.wave_inversion.specs.WaveForms.{form_in};
ghost use Rattle.wave_inversion.specs.WaveTiles.{IsFormOf, StandAsWave, StandInRow};

use crate::by_width::invert_by;
use crate::finish::lane_count;
use crate::forms::width_of;
use crate::rooms::WaveRooms;
use crate::width::Width;
use cube_core::cube::Cube;
use predict_core::band::Band;
use predict_core::mapping::copy_offsets;

/// The most bands that are inverted together.
const MOST: usize = 8;

/// The least bands that are worth the work of going as a wavefront.
const LEAST: usize = 4;

/// The most places of a run.
const RUN: usize = 64;

/// Replaces each mapped residual of a cube by the sample that has it.
///
/// The cube has the shape and kind of the parameters, and holds the residual of each place, at most 2^D - 1, as an offset from the
/// least sample. `bands` are the predictors of all its bands, at their first places (CCSDS 123.0-B-1, "Predictor").
pub fn invert(bands: &mut [Band], cube: &mut Cube)
    requires start { (p : Parameters) × IsAtStart p cube.old bands.old }
    ensures inverted { (p : Parameters) → IsAtStart p cube.old bands.old → IsCoded p cube.old cube.new }
{
    cube.prove_is_cube();
    let mut rooms = WaveRooms::new();
    let count = bands.len();
    let mut first = 0;
    while first < count {
        let last = count.min(first + MOST);
        invert_group(bands, first, last, cube, &mut rooms);
        first = last;
    }
    cube.prove_is_cube();
}

/// Inverts the bands `first..last`, row after row. Those below them are inverted.
fn invert_group(
    bands: &mut [Band],
    first: usize,
    last: usize,
    cube: &mut Cube,
    rooms: &mut WaveRooms,
)
    requires inverting { (p : Parameters) × (d : Image) × IsInverting p cube.old d bands.old }
    requires order { (first ≤ last) × (last ≡ min (length bands.old) (first + 8)) }
    requires start { StandAt bands.old first last 0 }
    requires ahead { AreAhead bands.old first (cube.old.shape.rows * cube.old.shape.columns) }
    ensures inverted { (p : Parameters) (d : Image) → IsInverting p cube.old d bands.old → IsInverting p cube.new d bands.new }
    ensures alike { AreAlike cube.old cube.new }
    ensures many { length bands.new ≡ length bands.old }
    ensures moved { StandAt bands.new first last (cube.old.shape.rows * cube.old.shape.columns) }
    ensures others { AreKeptBeside bands.old bands.new first last }
{
    for y in 0..cube.shape().rows() {
        invert_rows(bands, first, last, cube, y, rooms);
    }
}

/// Inverts row `y` of the bands `first..last`: as a wavefront where lanes are exact, and else one after another.
fn invert_rows(
    bands: &mut [Band],
    first: usize,
    last: usize,
    cube: &mut Cube,
    y: u32,
    rooms: &mut WaveRooms,
)
    requires inverting { (p : Parameters) × (d : Image) × IsInverting p cube.old d bands.old }
    requires order { (first ≤ last) × (last ≡ min (length bands.old) (first + 8)) }
    requires row { y < cube.old.shape.rows }
    requires start { StandAt bands.old first last (y * cube.old.shape.columns) }
    requires ahead { AreAhead bands.old first ((y + 1) * cube.old.shape.columns) }
    ensures inverted { (p : Parameters) (d : Image) → IsInverting p cube.old d bands.old → IsInverting p cube.new d bands.new }
    ensures alike { AreAlike cube.old cube.new }
    ensures many { length bands.new ≡ length bands.old }
    ensures moved { StandAt bands.new first last ((y + 1) * cube.old.shape.columns) }
    ensures others { AreKeptBeside bands.old bands.new first last }
{
    cube.prove_is_cube();
    if last - first >= LEAST && y > 0 {
        if let Some(form) = width_of(&bands[first], y, last - first) {
            invert_wave(bands, first, cube, y, form, rooms);
            return;
        }
    }
    for z in first..last {
        invert_rest(bands, z, cube, y, 0);
    }
}

/// Inverts row `y` of at most eight bands as a wavefront, but for its first column.
fn invert_wave(
    bands: &mut [Band],
    first: usize,
    cube: &mut Cube,
    y: u32,
    form: Width,
    rooms: &mut WaveRooms,
)
    requires inverting { (p : Parameters) × (d : Image) × IsInverting p cube.old d bands.old }
    requires some { first < length bands.old }
    requires row { (0 < y) × (y < cube.old.shape.rows) }
    requires columns { 16 ≤ cube.old.shape.columns }
    requires start { StandAt bands.old first (min (length bands.old) (first + 8)) (y * cube.old.shape.columns) }
    requires ahead { AreAhead bands.old first ((y + 1) * cube.old.shape.columns) }
    requires form { IsFormOf (form_in form) (band_at bands.old first).predictor cube.old y }
    ensures inverted { (p : Parameters) (d : Image) → IsInverting p cube.old d bands.old → IsInverting p cube.new d bands.new }
    ensures alike { AreAlike cube.old cube.new }
    ensures many { length bands.new ≡ length bands.old }
    ensures moved { StandAt bands.new first (min (length bands.old) (first + 8)) ((y + 1) * cube.old.shape.columns) }
    ensures others { AreKeptBeside bands.old bands.new first (first + 8) }
{
    start_wave(bands, first, cube, y);
    invert_tiles(bands, first, cube, y, form, rooms);
    end_wave(bands, first, cube, y);
}

/// Inverts the first place of row `y` of at most eight bands.
fn start_wave(bands: &mut [Band], first: usize, cube: &mut Cube, y: u32)
    requires inverting { (p : Parameters) × (d : Image) × IsInverting p cube.old d bands.old }
    requires some { first < length bands.old }
    requires row { y < cube.old.shape.rows }
    requires columns { 16 ≤ cube.old.shape.columns }
    requires start { StandAt bands.old first (min (length bands.old) (first + 8)) (y * cube.old.shape.columns) }
    requires ahead { AreAhead bands.old first ((y + 1) * cube.old.shape.columns) }
    ensures inverted { (p : Parameters) (d : Image) → IsInverting p cube.old d bands.old → IsInverting p cube.new d bands.new }
    ensures alike { AreAlike cube.old cube.new }
    ensures many { length bands.new ≡ length bands.old }
    ensures stand { StandAsWave bands.new first cube.old.shape.columns y 0 }
    ensures others { AreKeptBeside bands.old bands.new first (first + 8) }
{
    let many = lane_count(bands, first);
    for b in 0..many {
        invert_run(bands, first + b, cube, y, 0, 1);
    }
}

/// Inverts the rest of row `y` of at most eight bands, from where each has come to.
fn end_wave(bands: &mut [Band], first: usize, cube: &mut Cube, y: u32)
    requires inverting { (p : Parameters) × (d : Image) × IsInverting p cube.old d bands.old }
    requires some { first < length bands.old }
    requires row { y < cube.old.shape.rows }
    requires stand { StandInRow bands.old first cube.old.shape.columns y }
    requires ahead { AreAhead bands.old first ((y + 1) * cube.old.shape.columns) }
    ensures inverted { (p : Parameters) (d : Image) → IsInverting p cube.old d bands.old → IsInverting p cube.new d bands.new }
    ensures alike { AreAlike cube.old cube.new }
    ensures many { length bands.new ≡ length bands.old }
    ensures moved { StandAt bands.new first (min (length bands.old) (first + 8)) ((y + 1) * cube.old.shape.columns) }
    ensures others { AreKeptBeside bands.old bands.new first (first + 8) }
{
    cube.prove_is_cube();
    let many = lane_count(bands, first);
    for b in 0..many {
        let z = first + b;
        let x = column_in(&bands[z], cube, y);
        invert_rest(bands, z, cube, y, x);
    }
}

/// Returns the column that a band has come to in row `y`.
fn column_in(band: &Band, cube: &Cube, y: u32) -> u32
    requires { (y * cube.now.shape.columns ≤ band.now.t) × (band.now.t ≤ y * cube.now.shape.columns + cube.now.shape.columns) }
    ensures { y * cube.now.shape.columns + result ≡ band.now.t }
{
    (band.next() - y as u64 * cube.shape().columns() as u64) as u32
}

/// Inverts row `y` of at most eight bands from column 1 on, piece after piece, until they have come to its end. It ends before where 16 bits
/// don't hold their weights.
fn invert_tiles(
    bands: &mut [Band],
    first: usize,
    cube: &mut Cube,
    y: u32,
    form: Width,
    rooms: &mut WaveRooms,
)
    requires inverting { (p : Parameters) × (d : Image) × IsInverting p cube.old d bands.old }
    requires some { first < length bands.old }
    requires row { (0 < y) × (y < cube.old.shape.rows) }
    requires columns { 16 ≤ cube.old.shape.columns }
    requires stand { StandAsWave bands.old first cube.old.shape.columns y 0 }
    requires ahead { AreAhead bands.old first ((y + 1) * cube.old.shape.columns) }
    requires form { IsFormOf (form_in form) (band_at bands.old first).predictor cube.old y }
    ensures inverted { (p : Parameters) (d : Image) → IsInverting p cube.old d bands.old → IsInverting p cube.new d bands.new }
    ensures alike { AreAlike cube.old cube.new }
    ensures many { length bands.new ≡ length bands.old }
    ensures stand { StandInRow bands.new first cube.old.shape.columns y }
    ensures others { AreKeptBeside bands.old bands.new first (first + 8) }
{
    cube.prove_is_cube();
    let columns = cube.shape().columns() as usize;
    let mut origin = 0;
    // All bands end in one piece, the last: its 63 steps are enough for it.
    while origin + 49 < columns {
        let last = 63.min(columns + 6 - origin);
        if !invert_by(bands, first, cube, y, origin, last, form, rooms) {
            return;
        }
        origin += last - 8;
    }
    let _inverted = invert_by(
        bands,
        first,
        cube,
        y,
        origin,
        columns + 14 - origin,
        form,
        rooms,
    );
}

/// Inverts row `y` of band `z` from column `x` on.
fn invert_rest(bands: &mut [Band], z: usize, cube: &mut Cube, y: u32, x: u32)
    requires inverting { (p : Parameters) × (d : Image) × IsInverting p cube.old d bands.old }
    requires band { z < length bands.old }
    requires row { y < cube.old.shape.rows }
    requires inside { x ≤ cube.old.shape.columns }
    requires start { (band_at bands.old z).t ≡ y * cube.old.shape.columns + x }
    requires ahead { AreAhead bands.old z ((y + 1) * cube.old.shape.columns) }
    ensures inverted { (p : Parameters) (d : Image) → IsInverting p cube.old d bands.old → IsInverting p cube.new d bands.new }
    ensures alike { AreAlike cube.old cube.new }
    ensures many { length bands.new ≡ length bands.old }
    ensures moved { (band_at bands.new z).t ≡ (y + 1) * cube.old.shape.columns }
    ensures others { AreKeptBeside bands.old bands.new z (z + 1) }
{
    let columns = cube.shape().columns();
    let mut x = x;
    while x < columns {
        let count = RUN.min((columns - x) as usize);
        invert_run(bands, z, cube, y, x, count);
        x += count as u32;
    }
}

/// Inverts `count` places of band `z`, from row `y`, column `x` on.
fn invert_run(bands: &mut [Band], z: usize, cube: &mut Cube, y: u32, x: u32, count: usize)
    requires inverting { (p : Parameters) × (d : Image) × IsInverting p cube.old d bands.old }
    requires band { z < length bands.old }
    requires place { IsPlace cube.old.shape z y x }
    requires few { count ≤ 64 }
    requires inside { x + count ≤ cube.old.shape.columns }
    requires next { (band_at bands.old z).t ≡ y * cube.old.shape.columns + x }
    requires ahead { AreAhead bands.old z (y * cube.old.shape.columns + x + count) }
    ensures inverted { (p : Parameters) (d : Image) → IsInverting p cube.old d bands.old → IsInverting p cube.new d bands.new }
    ensures alike { AreAlike cube.old cube.new }
    ensures many { length bands.new ≡ length bands.old }
    ensures moved { (band_at bands.new z).t ≡ (band_at bands.old z).t + count }
    ensures others { AreKeptBeside bands.old bands.new z (z + 1) }
{
    cube.prove_is_cube();
    if count == 1 {
        invert_place(bands, z, cube, y, x);
        return;
    }
    let mut deltas = [0u16; RUN];
    copy_offsets(cube.row(z as u32, y), x as usize, count, &mut deltas);
    let band = &mut bands[z];
    band.inverse_run(cube, y, x, &deltas[..count]);
    cube.prove_is_cube();
}

/// Inverts the place of band `z` at row `y`, column `x`.
fn invert_place(bands: &mut [Band], z: usize, cube: &mut Cube, y: u32, x: u32)
    requires inverting { (p : Parameters) × (d : Image) × IsInverting p cube.old d bands.old }
    requires band { z < length bands.old }
    requires place { IsPlace cube.old.shape z y x }
    requires next { (band_at bands.old z).t ≡ y * cube.old.shape.columns + x }
    requires ahead { AreAhead bands.old z (y * cube.old.shape.columns + x + 1) }
    ensures inverted { (p : Parameters) (d : Image) → IsInverting p cube.old d bands.old → IsInverting p cube.new d bands.new }
    ensures alike { AreAlike cube.old cube.new }
    ensures many { length bands.new ≡ length bands.old }
    ensures moved { (band_at bands.new z).t ≡ (band_at bands.old z).t + 1 }
    ensures others { AreKeptBeside bands.old bands.new z (z + 1) }
{
    cube.prove_is_cube();
    let delta = cube.row(z as u32, y)[x as usize];
    let band = &mut bands[z];
    band.inverse_into(cube, y, x, delta);
    cube.prove_is_cube();
}
