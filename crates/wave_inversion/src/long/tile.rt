//! A piece of a row of at most eight bands, inverted as a wavefront in lanes of 32 bits.

ghost use Rattle.std.specs.Prelude.{◌≡◌, ◌+◌, ◌-◌, ◌*◌, ◌<◌, ◌≤◌, ℕ, length};
ghost use Rattle.cube_core.specs.Image.{Image};
ghost use Rattle.header_bits.specs.declared.params.Params.{Params as Parameters};
ghost use Rattle.wave_inversion.specs.Inversion.{IsInverting, AreAhead, AreKeptBeside, band_at};
ghost use Rattle.predict_core.specs.Precedence.{AreAlike};
ghost use Rattle.wave_inversion.specs.Wave.{long_lower_of};
ghost use Rattle.wave_inversion.specs.WaveForms.{long_form};
ghost use Rattle.wave_inversion.specs.WaveRows.{AreFilled};
ghost use Rattle.wave_inversion.specs.WaveTiles.{AreFound, IsFormOf, StandAsWave, end_column};

use crate::finish::{ended_of, finish_lanes};
use crate::long::begin::{end_lanes, invert_steps};
use crate::long::centrals::fill_centrals;
use crate::long::collect::collect;
use crate::long::form::LongForm;
use crate::long::lower::fill_lower;
use crate::long::room::LongWaveRoom;
use crate::long::rows::fill_rows;
use crate::long::weights::fill_weights;
use crate::tile::constants_of;
use cube_core::cube::Cube;
use predict_core::band::Band;

/// Inverts row `y` of at most eight bands from step 8 to step `last`.
///
/// At step k band `first + b` is at column `origin + k - 7 - b`. Where `origin` is 0 no band has come further than column 1, so each
/// begins a step after the one below it. No band goes beyond the last column. The bands below them have come to the end of the
/// row. `Q` pairs hold the components of each band.
pub(crate) fn invert_tile<const Q: usize>(
    bands: &mut [Band],
    first: usize,
    cube: &mut Cube,
    y: u32,
    origin: usize,
    last: usize,
    form: LongForm,
    room: &mut LongWaveRoom,
)
    requires pairs { (form.pairs ≤ Q) × (Q ≤ 9) }
    requires inverting { (p : Parameters) × (d : Image) × IsInverting p cube.old d bands.old }
    requires some { first < length bands.old }
    requires row { (0 < y) × (y < cube.old.shape.rows) }
    requires last { (8 ≤ last) × (last ≤ 63) }
    requires begun { (origin ≡ 0 → 15 ≤ last) × (0 < origin → 7 ≤ origin) }
    requires inside { (16 ≤ cube.old.shape.columns) × (origin + 2 ≤ cube.old.shape.columns) × (origin + last ≤ cube.old.shape.columns + 14) }
    requires stand { StandAsWave bands.old first cube.old.shape.columns y origin }
    requires ahead { AreAhead bands.old first ((y + 1) * cube.old.shape.columns) }
    requires form { IsFormOf (long_form form) (band_at bands.old first).predictor cube.old y }
    ensures inverted { (p : Parameters) (d : Image) → IsInverting p cube.old d bands.old → IsInverting p cube.new d bands.new }
    ensures alike { AreAlike cube.old cube.new }
    ensures many { length bands.new ≡ length bands.old }
    ensures moved { (b : ℕ) → b < 8 → first + b < length bands.old → (band_at bands.new (first + b)).t ≡ y * cube.old.shape.columns + end_column cube.old.shape.columns origin last b }
    ensures others { AreKeptBeside bands.old bands.new first (first + 8) }
{
    cube.prove_is_cube();
    invert_lanes::<Q>(bands, first, cube, y, origin, last, form, room);
    finish_lanes::<Q>(bands, first, cube, y, origin, last, &room.found);
}

/// Finds the offsets of at most eight bands, and their weights after them.
fn invert_lanes<const Q: usize>(
    bands: &[Band],
    first: usize,
    cube: &Cube,
    y: u32,
    origin: usize,
    last: usize,
    form: LongForm,
    room: &mut LongWaveRoom,
)
    requires pairs { (form.pairs ≤ Q) × (Q ≤ 9) }
    requires inverting { (p : Parameters) × (d : Image) × IsInverting p cube.now d bands.now }
    requires some { first < length bands.now }
    requires row { (0 < y) × (y < cube.now.shape.rows) }
    requires last { (8 ≤ last) × (last ≤ 63) }
    requires begun { (origin ≡ 0 → 15 ≤ last) × (0 < origin → 7 ≤ origin) }
    requires inside { (16 ≤ cube.now.shape.columns) × (origin + 2 ≤ cube.now.shape.columns) × (origin + last ≤ cube.now.shape.columns + 14) }
    requires stand { StandAsWave bands.now first cube.now.shape.columns y origin }
    requires ahead { AreAhead bands.now first ((y + 1) * cube.now.shape.columns) }
    requires form { IsFormOf (long_form form) (band_at bands.now first).predictor cube.now y }
    ensures { AreFound Q bands.now cube.now first y origin last room.new.found }
{
    cube.prove_is_cube();
    // The constants of one band are those of all, but for its number.
    let _constants = constants_of(&bands[first]);
    fill_room::<Q>(bands, first, cube, y, origin, form, room);
    let lanes = ended_of(cube, origin, last);
    invert_steps::<Q>(bands, first, origin, last - lanes, form, room);
    end_lanes::<Q>(form, last - lanes, last, room);
    collect::<Q>(lanes, room);
}

/// Fills the rows with what is known before the first step.
fn fill_room<const Q: usize>(
    bands: &[Band],
    first: usize,
    cube: &Cube,
    y: u32,
    origin: usize,
    form: LongForm,
    room: &mut LongWaveRoom,
)
    requires pairs { Q ≤ 9 }
    requires inverting { (p : Parameters) × (d : Image) × IsInverting p cube.now d bands.now }
    requires some { first < length bands.now }
    requires row { (0 < y) × (y < cube.now.shape.rows) }
    requires inside { origin + 2 ≤ cube.now.shape.columns }
    requires form { IsFormOf (long_form form) (band_at bands.now first).predictor cube.now y }
    ensures { AreFilled Q (long_form form) cube.now bands.now first y origin room.new.above room.new.numbers (long_lower_of room.new.lower) room.new.own room.new.weights }
{
    cube.prove_is_cube();
    fill_weights::<Q>(bands, first, &mut room.weights);
    let (lines, turned) = (&mut room.lines, &mut room.turned);
    let numbers = &mut lines.numbers;
    fill_rows(cube, first, y, origin, numbers, turned, &mut room.numbers);
    fill_rows(cube, first, y - 1, origin, numbers, turned, &mut room.above);
    fill_lower(cube, first, y, origin, form, lines, &mut room.lower);
    fill_centrals(form, 8, &room.numbers, &room.above, &mut room.own);
}
