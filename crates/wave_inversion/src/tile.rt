//! A piece of a row of at most eight bands, inverted as a wavefront.

ghost use Rattle.std.specs.Prelude.{◌≡◌, ◌+◌, ◌-◌, ◌*◌, ◌<◌, ◌≤◌, ℕ, true, false, length};
ghost use Rattle.cube_core.specs.Image.{Image};
ghost use Rattle.header_bits.specs.declared.params.Params.{Params as Parameters};
ghost use Rattle.wave_inversion.specs.Inversion.{IsInverting, AreAhead, AreKeptBeside, band_at};
ghost use Rattle.predict_core.specs.Precedence.{AreAlike};
ghost use Rattle.wave_inversion.specs.Wave.{lower_of};
ghost use Rattle.wave_inversion.specs.WaveForms.{narrow_form};
ghost use Rattle.wave_inversion.specs.WaveRows.{AreFilled};
ghost use Rattle.wave_inversion.specs.WaveTiles.{AreFound, IsFormOf, StandAsWave, end_column};

use crate::begin::{end_lanes, invert_steps};
use crate::centrals::fill_centrals;
use crate::collect::collect;
use crate::finish::{ended_of, finish_lanes};
use crate::form::Form;
use crate::lower::fill_lower;
use crate::room::WaveRoom;
use crate::rows::fill_rows;
use cube_core::cube::Cube;
use predict_core::band::Band;
use predict_core::lane_weights::fill_weights;
use predict_core::settings::Settings;

/// Inverts row `y` of at most eight bands from step 8 to step `last`, and returns whether 16 bits hold their weights. If not, nothing is inverted.
///
/// At step k band `first + b` is at column `origin + k - 7 - b`. Where `origin` is 0 no band has come further than column 1, so each
/// begins a step after the one below it. No band goes beyond the last column. The bands below them have come to the end of the
/// row. `Q` pairs hold the components of each band.
pub(crate) fn invert_tile<const Q: usize>(
    bands: &mut [Band],
    first: usize,
    cube: &mut Cube,
    y: u32,
    origin: usize,
    last: usize,
    form: Form,
    room: &mut WaveRoom,
) -> bool
    requires pairs { (form.pairs ≤ Q) × (Q ≤ 9) }
    requires inverting { (p : Parameters) × (d : Image) × IsInverting p cube.old d bands.old }
    requires some { first < length bands.old }
    requires row { (0 < y) × (y < cube.old.shape.rows) }
    requires last { (8 ≤ last) × (last ≤ 63) }
    requires begun { (origin ≡ 0 → 15 ≤ last) × (0 < origin → 7 ≤ origin) }
    requires inside { (16 ≤ cube.old.shape.columns) × (origin + 2 ≤ cube.old.shape.columns) × (origin + last ≤ cube.old.shape.columns + 14) }
    requires stand { StandAsWave bands.old first cube.old.shape.columns y origin }
    requires ahead { AreAhead bands.old first ((y + 1) * cube.old.shape.columns) }
    requires form { IsFormOf (narrow_form form) (band_at bands.old first).predictor cube.old y }
    ensures inverted { (p : Parameters) (d : Image) → IsInverting p cube.old d bands.old → IsInverting p cube.new d bands.new }
    ensures alike { AreAlike cube.old cube.new }
    ensures many { length bands.new ≡ length bands.old }
    ensures moved { result ≡ true → (b : ℕ) → b < 8 → first + b < length bands.old → (band_at bands.new (first + b)).t ≡ y * cube.old.shape.columns + end_column cube.old.shape.columns origin last b }
    ensures kept { result ≡ false → bands.new ≡ bands.old }
    ensures others { AreKeptBeside bands.old bands.new first (first + 8) }
{
    cube.prove_is_cube();
    if !invert_lanes::<Q>(bands, first, cube, y, origin, last, form, room) {
        return false;
    }
    finish_lanes::<Q>(bands, first, cube, y, origin, last, &room.found);
    true
}

/// Finds the offsets of at most eight bands, and their weights after them, and returns whether 16 bits hold their weights before.
fn invert_lanes<const Q: usize>(
    bands: &[Band],
    first: usize,
    cube: &Cube,
    y: u32,
    origin: usize,
    last: usize,
    form: Form,
    room: &mut WaveRoom,
) -> bool
    requires pairs { (form.pairs ≤ Q) × (Q ≤ 9) }
    requires inverting { (p : Parameters) × (d : Image) × IsInverting p cube.now d bands.now }
    requires some { first < length bands.now }
    requires row { (0 < y) × (y < cube.now.shape.rows) }
    requires last { (8 ≤ last) × (last ≤ 63) }
    requires begun { (origin ≡ 0 → 15 ≤ last) × (0 < origin → 7 ≤ origin) }
    requires inside { (16 ≤ cube.now.shape.columns) × (origin + 2 ≤ cube.now.shape.columns) × (origin + last ≤ cube.now.shape.columns + 14) }
    requires stand { StandAsWave bands.now first cube.now.shape.columns y origin }
    requires ahead { AreAhead bands.now first ((y + 1) * cube.now.shape.columns) }
    requires form { IsFormOf (narrow_form form) (band_at bands.now first).predictor cube.now y }
    ensures { result ≡ true → AreFound Q bands.now cube.now first y origin last room.new.found }
{
    cube.prove_is_cube();
    // The constants of one band are those of all, but for its number.
    let _constants = constants_of(&bands[first]);
    if !fill_room::<Q>(bands, first, cube, y, origin, form, room) {
        return false;
    }
    let lanes = ended_of(cube, origin, last);
    if !invert_steps::<Q>(bands, first, origin, last - lanes, form, room) {
        return false;
    }
    end_lanes::<Q>(form, last - lanes, last, room);
    collect::<Q>(lanes, room);
    true
}

/// Fills the rows with what is known before the first step, and returns whether 16 bits hold the weights of the bands.
fn fill_room<const Q: usize>(
    bands: &[Band],
    first: usize,
    cube: &Cube,
    y: u32,
    origin: usize,
    form: Form,
    room: &mut WaveRoom,
) -> bool
    requires pairs { Q ≤ 9 }
    requires inverting { (p : Parameters) × (d : Image) × IsInverting p cube.now d bands.now }
    requires some { first < length bands.now }
    requires row { (0 < y) × (y < cube.now.shape.rows) }
    requires inside { origin + 2 ≤ cube.now.shape.columns }
    requires form { IsFormOf (narrow_form form) (band_at bands.now first).predictor cube.now y }
    ensures { result ≡ true → AreFilled Q (narrow_form form) cube.now bands.now first y origin room.new.above room.new.numbers (lower_of room.new.lower) room.new.own room.new.weights }
{
    cube.prove_is_cube();
    let last = bands.len().min(first + 8);
    if !fill_weights::<Q>(&bands[first..last], &mut room.weights) {
        return false;
    }
    let lines = &mut room.lines;
    fill_rows(
        cube,
        first,
        y,
        origin,
        &mut lines.numbers,
        &mut room.numbers,
    );
    fill_rows(
        cube,
        first,
        y - 1,
        origin,
        &mut lines.numbers,
        &mut room.above,
    );
    fill_lower(cube, first, y, origin, form, lines, &mut room.lower);
    fill_centrals(form, 8, &room.numbers, &room.above, &mut room.own);
    true
}

/// Returns the constants of a band's predictor.
pub(crate) fn constants_of(band: &Band) -> Settings
    ensures predictor { result.predictor ≡ band.now.predictor }
    ensures kind { result.range.kind ≡ band.now.kind }
    ensures columns { result.columns ≡ band.now.shape.columns }
{
    band.settings
}
