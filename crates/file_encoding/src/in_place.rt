//! Residuals that take the place of an image's samples, so that band-sequential order needs no room for planes of them.

ghost use Rattle.std.specs.Prelude.{◌≡◌, ℕ, ◌+◌, ◌*◌, ◌^◌, ◌<◌, ◌≤◌, ◌∷◌, [], length};
ghost use Rattle.std.specs.List.{AllByRecursion};
ghost use Rattle.cube_core.specs.Image.{Image, IsCube};
ghost use Rattle.cube_core.specs.Order.{from, upto};
ghost use Rattle.cube_core.specs.declared.order.Order.TheVariants.{Bsq};
ghost use Rattle.header_bits.specs.Lawful.{IsLawful};
ghost use Rattle.file_encoding.specs.ByPlanes.{IsRow};
ghost use Rattle.file_encoding.specs.InPlace.{AreLinesSet, AreTurned};
ghost use Rattle.file_encoding.specs.Own.{row_of};
ghost use Rattle.file_encoding.specs.Pieces.{row_start};
ghost use Rattle.file_encoding.specs.Walks.{IsSeen, AreAt, bands_of};

use crate::copied::next_row;
use crate::pieces::GROUP;
use crate::side_by_side::keep_row;
use cube_core::cube::Cube;
use group_prediction::room::GroupRoom;
use header_bits::params::Params;
use predict_core::band::Band;
use predict_core::handed::HandedRows;
use predict_core::rows::Rows;

/// Replaces each sample of a cube by its mapped residual, as an offset from the least sample (CCSDS 123.0-B-1, "Mapped Prediction
/// Residual").
///
/// `bands` are the predictors of all its bands, each at its first place. `present` and `above` are rows of all bands, of any
/// samples, and `room` has room for a row of as many bands as are predicted at once.
pub(crate) fn turn_cube(
    cube: &mut Cube,
    params: &Params,
    bands: &mut [Band],
    present: &mut Vec<u16>,
    above: &mut Vec<u16>,
    room: &mut [u16],
)
    requires lawful { IsLawful params.now }
    requires order { params.now.order ≡ Bsq }
    requires cube { IsCube cube.old }
    requires image { IsSeen params.now cube.old }
    requires own { bands_of bands.old ≡ upto params.now.shape.bands }
    requires fresh { (c : Image) → AreAt params.now c 0 bands.old }
    requires present { IsRow params.now present.old.items }
    requires above { IsRow params.now above.old.items }
    requires room { 8 * params.now.shape.columns ≤ length room.old }
    ensures { AreTurned params.now cube.old cube.new params.now.shape.rows }
{
    let shape = params.shape;
    let mut group = GroupRoom::new();
    let mut handed = HandedRows::none();
    for y in 0..shape.rows() {
        next_row(cube, params, y, present, above);
        handed = handed.and(&present[..]);
        let rows = Rows::of_last(shape, params.kind, y, &present[..], &above[..], &handed);
        turn_row(&rows, params, bands, room, &mut group, cube);
    }
}

/// Replaces the samples of a row of all bands by their residuals, as many bands at a time as are predicted at once.
fn turn_row(
    rows: &Rows,
    params: &Params,
    bands: &mut [Band],
    room: &mut [u16],
    group: &mut GroupRoom,
    cube: &mut Cube,
)
    requires lawful { IsLawful params.now }
    requires image { IsSeen params.now rows.now.image }
    requires row { rows.now.y < rows.now.image.shape.rows }
    requires range { (z : ℕ) → z < params.now.shape.bands → AllByRecursion (λ v. v < 2 ^ params.now.kind.bits) (row_of params.now rows.now.image (z ∷ []) rows.now.y) }
    requires cube { IsSeen params.now cube.old }
    requires own { bands_of bands.old ≡ upto params.now.shape.bands }
    requires at { AreAt params.now rows.now.image (rows.now.y * rows.now.image.shape.columns) bands.old }
    requires room { 8 * params.now.shape.columns ≤ length room.old }
    ensures turned { AreLinesSet cube.old cube.new 0 rows.now.y params.now.shape.bands (λ z. row_of params.now rows.now.image (z ∷ []) rows.now.y) }
    ensures at { AreAt params.now rows.now.image ((rows.now.y + 1) * rows.now.image.shape.columns) bands.new }
    ensures same { bands_of bands.new ≡ bands_of bands.old }
{
    let mut first = 0;
    while first < bands.len() {
        let count = GROUP.min(bands.len() - first);
        turn_bands(
            rows,
            params,
            first as u32,
            &mut bands[first..first + count],
            room,
            group,
            cube,
        );
        first += count;
    }
}

/// Does the same for some bands, from band `first` on.
fn turn_bands(
    rows: &Rows,
    params: &Params,
    first: u32,
    bands: &mut [Band],
    room: &mut [u16],
    group: &mut GroupRoom,
    cube: &mut Cube,
)
    requires image { IsSeen params.now rows.now.image }
    requires row { rows.now.y < rows.now.image.shape.rows }
    requires range { (z : ℕ) → z < params.now.shape.bands → AllByRecursion (λ v. v < 2 ^ params.now.kind.bits) (row_of params.now rows.now.image (z ∷ []) rows.now.y) }
    requires cube { IsSeen params.now cube.old }
    requires own { bands_of bands.old ≡ from first (length bands.old) }
    requires inside { first + length bands.old ≤ params.now.shape.bands }
    requires at { AreAt params.now rows.now.image (rows.now.y * rows.now.image.shape.columns) bands.old }
    requires room { length bands.old * params.now.shape.columns ≤ length room.old }
    ensures turned { AreLinesSet cube.old cube.new first rows.now.y (length bands.old) (λ k. row_of params.now rows.now.image ((first + k) ∷ []) rows.now.y) }
    ensures at { AreAt params.now rows.now.image ((rows.now.y + 1) * rows.now.image.shape.columns) bands.new }
    ensures same { bands_of bands.new ≡ bands_of bands.old }
{
    let columns = rows.shape().columns() as usize;
    keep_row(rows, params, 0, columns, bands, room, group);
    set_lines(cube, first, rows.y(), bands.len() as u32, room);
}

/// Writes row `y` of some bands of a cube, from band `first` on: each of `lines`, band after band, as offsets from the least sample.
fn set_lines(cube: &mut Cube, first: u32, y: u32, count: u32, lines: &[u16])
    requires bands { first + count ≤ cube.old.shape.bands }
    requires place { y < cube.old.shape.rows }
    requires size { count * cube.old.shape.columns ≤ length lines.now }
    requires range { (k : ℕ) → k < count → AllByRecursion (λ v. v < 2 ^ cube.old.kind.bits) (row_start cube.old.shape.columns k cube.old.shape.columns lines.now) }
    ensures { AreLinesSet cube.old cube.new first y count (λ k. row_start cube.old.shape.columns k cube.old.shape.columns lines.now) }
{
    cube.prove_is_cube();
    let columns = cube.shape().columns() as usize;
    for k in 0..count {
        let start = k as usize * columns;
        cube.set_run(first + k, y, 0, &lines[start..start + columns]);
    }
}
