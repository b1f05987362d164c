//! A piece of a row of at most eight bands, inverted in the lanes of its form.

ghost use Rattle.std.specs.Prelude.{◌≡◌, ◌+◌, ◌-◌, ◌*◌, ◌<◌, ◌≤◌, ℕ, true, false, length};
ghost use Rattle.cube_core.specs.Image.{Image};
ghost use Rattle.header_bits.specs.declared.params.Params.{Params as Parameters};
ghost use Rattle.predict_core.specs.Precedence.{AreAlike};
ghost use Rattle.wave_inversion.specs.Inversion.{IsInverting, AreAhead, AreKeptBeside, band_at};
ghost use Rattle.wave_inversion.specs.WaveForms.{form_in, long_form, narrow_form};
ghost use Rattle.wave_inversion.specs.WaveTiles.{IsFormOf, StandAsWave, end_column};

use crate::form::Form;
use crate::long::form::LongForm;
use crate::long::room::LongWaveRoom;
use crate::long::tile::invert_tile as invert_long_tile;
use crate::room::WaveRoom;
use crate::rooms::WaveRooms;
use crate::tile::invert_tile;
use crate::width::Width;
use cube_core::cube::Cube;
use predict_core::band::Band;

/// Inverts a piece of a row in the lanes that the form is for, and returns whether they hold the weights. If not, nothing is inverted.
pub(crate) fn invert_by(
    bands: &mut [Band],
    first: usize,
    cube: &mut Cube,
    y: u32,
    origin: usize,
    last: usize,
    form: Width,
    rooms: &mut WaveRooms,
) -> bool
    requires inverting { (p : Parameters) × (d : Image) × IsInverting p cube.old d bands.old }
    requires some { first < length bands.old }
    requires row { (0 < y) × (y < cube.old.shape.rows) }
    requires last { (8 ≤ last) × (last ≤ 63) }
    requires begun { (origin ≡ 0 → 15 ≤ last) × (0 < origin → 7 ≤ origin) }
    requires inside { (16 ≤ cube.old.shape.columns) × (origin + 2 ≤ cube.old.shape.columns) × (origin + last ≤ cube.old.shape.columns + 14) }
    requires stand { StandAsWave bands.old first cube.old.shape.columns y origin }
    requires ahead { AreAhead bands.old first ((y + 1) * cube.old.shape.columns) }
    requires form { IsFormOf (form_in form) (band_at bands.old first).predictor cube.old y }
    ensures inverted { (p : Parameters) (d : Image) → IsInverting p cube.old d bands.old → IsInverting p cube.new d bands.new }
    ensures alike { AreAlike cube.old cube.new }
    ensures many { length bands.new ≡ length bands.old }
    ensures moved { result ≡ true → (b : ℕ) → b < 8 → first + b < length bands.old → (band_at bands.new (first + b)).t ≡ y * cube.old.shape.columns + end_column cube.old.shape.columns origin last b }
    ensures kept { result ≡ false → bands.new ≡ bands.old }
    ensures others { AreKeptBeside bands.old bands.new first (first + 8) }
{
    match form {
        Width::Narrow(form) => {
            invert_narrow(bands, first, cube, y, origin, last, form, &mut rooms.narrow)
        }
        Width::Long(form) => {
            invert_long(bands, first, cube, y, origin, last, form, &mut rooms.long);
            true
        }
    }
}

/// `invert_tile` in lanes of 16 bits, with as many pairs as hold the components.
fn invert_narrow(
    bands: &mut [Band],
    first: usize,
    cube: &mut Cube,
    y: u32,
    origin: usize,
    last: usize,
    form: Form,
    room: &mut WaveRoom,
) -> bool
    requires inverting { (p : Parameters) × (d : Image) × IsInverting p cube.old d bands.old }
    requires some { first < length bands.old }
    requires row { (0 < y) × (y < cube.old.shape.rows) }
    requires last { (8 ≤ last) × (last ≤ 63) }
    requires begun { (origin ≡ 0 → 15 ≤ last) × (0 < origin → 7 ≤ origin) }
    requires inside { (16 ≤ cube.old.shape.columns) × (origin + 2 ≤ cube.old.shape.columns) × (origin + last ≤ cube.old.shape.columns + 14) }
    requires stand { StandAsWave bands.old first cube.old.shape.columns y origin }
    requires ahead { AreAhead bands.old first ((y + 1) * cube.old.shape.columns) }
    requires form { IsFormOf (narrow_form form) (band_at bands.old first).predictor cube.old y }
    ensures inverted { (p : Parameters) (d : Image) → IsInverting p cube.old d bands.old → IsInverting p cube.new d bands.new }
    ensures alike { AreAlike cube.old cube.new }
    ensures many { length bands.new ≡ length bands.old }
    ensures moved { result ≡ true → (b : ℕ) → b < 8 → first + b < length bands.old → (band_at bands.new (first + b)).t ≡ y * cube.old.shape.columns + end_column cube.old.shape.columns origin last b }
    ensures kept { result ≡ false → bands.new ≡ bands.old }
    ensures others { AreKeptBeside bands.old bands.new first (first + 8) }
{
    match form.pairs {
        0 | 1 => invert_tile::<1>(bands, first, cube, y, origin, last, form, room),
        2 => invert_tile::<2>(bands, first, cube, y, origin, last, form, room),
        3 => invert_tile::<3>(bands, first, cube, y, origin, last, form, room),
        4 => invert_tile::<4>(bands, first, cube, y, origin, last, form, room),
        5 => invert_tile::<5>(bands, first, cube, y, origin, last, form, room),
        _ => invert_tile::<9>(bands, first, cube, y, origin, last, form, room),
    }
}

/// `invert_tile` in lanes of 32 bits, with as many pairs as hold the components.
fn invert_long(
    bands: &mut [Band],
    first: usize,
    cube: &mut Cube,
    y: u32,
    origin: usize,
    last: usize,
    form: LongForm,
    room: &mut LongWaveRoom,
)
    requires inverting { (p : Parameters) × (d : Image) × IsInverting p cube.old d bands.old }
    requires some { first < length bands.old }
    requires row { (0 < y) × (y < cube.old.shape.rows) }
    requires last { (8 ≤ last) × (last ≤ 63) }
    requires begun { (origin ≡ 0 → 15 ≤ last) × (0 < origin → 7 ≤ origin) }
    requires inside { (16 ≤ cube.old.shape.columns) × (origin + 2 ≤ cube.old.shape.columns) × (origin + last ≤ cube.old.shape.columns + 14) }
    requires stand { StandAsWave bands.old first cube.old.shape.columns y origin }
    requires ahead { AreAhead bands.old first ((y + 1) * cube.old.shape.columns) }
    requires form { IsFormOf (long_form form) (band_at bands.old first).predictor cube.old y }
    ensures inverted { (p : Parameters) (d : Image) → IsInverting p cube.old d bands.old → IsInverting p cube.new d bands.new }
    ensures alike { AreAlike cube.old cube.new }
    ensures many { length bands.new ≡ length bands.old }
    ensures moved { (b : ℕ) → b < 8 → first + b < length bands.old → (band_at bands.new (first + b)).t ≡ y * cube.old.shape.columns + end_column cube.old.shape.columns origin last b }
    ensures others { AreKeptBeside bands.old bands.new first (first + 8) }
{
    match form.pairs {
        0 | 1 => invert_long_tile::<1>(bands, first, cube, y, origin, last, form, room),
        2 => invert_long_tile::<2>(bands, first, cube, y, origin, last, form, room),
        3 => invert_long_tile::<3>(bands, first, cube, y, origin, last, form, room),
        4 => invert_long_tile::<4>(bands, first, cube, y, origin, last, form, room),
        5 => invert_long_tile::<5>(bands, first, cube, y, origin, last, form, room),
        _ => invert_long_tile::<9>(bands, first, cube, y, origin, last, form, room),
    }
}
