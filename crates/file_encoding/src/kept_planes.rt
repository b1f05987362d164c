//! Planes that are kept: the bands of a group are predicted side by side, row by row, and their residuals take their samples' place.

ghost use Rattle.std.specs.Prelude.{◌≡◌, ℕ, ◌+◌, ◌-◌, ◌*◌, ◌<◌, ◌≤◌, ◌∷◌, [], List, length, take, slice_index_or};
ghost use Rattle.std.specs.List.{flat_map};
ghost use Rattle.cube_core.specs.Image.{Image};
ghost use Rattle.cube_core.specs.Order.{from};
ghost use Rattle.header_bits.specs.Lawful.{IsLawful};
ghost use Rattle.file_encoding.specs.ByPlanes.{AreLinesInRange, ArePlanesInRange, AreSameBut, HasLinesOf, HasPlanesOf, IsRow, image_of_planes, least_kept, most_previous, plane_size};
ghost use Rattle.file_encoding.specs.Own.{rows_of};
ghost use Rattle.file_encoding.specs.Walks.{AreAt, bands_of};

use crate::side_by_side::keep_row;
use group_prediction::room::GroupRoom;
use header_bits::params::Params;
use predict_core::band::Band;
use predict_core::handed::HandedRows;
use predict_core::rows::Rows;
use std::mem::swap;

/// Replaces the samples of a group of bands, from band `first` on, by their residuals. Each band is at its first place.
///
/// `planes` holds the planes of these bands, and `previous` those of the previous bands from which the first of them is predicted
/// (CCSDS 123.0-B-1, "Number of Bands for Prediction"). In its place come those from which the band after the group is predicted. No
/// sample of another band is read, so `present` and `above` may hold any there: they are the row of all bands that is predicted and the
/// one above it, so that a row is free in all planes once it is present.
pub(crate) fn turn_planes(
    params: &Params,
    first: usize,
    bands: &mut [Band],
    planes: &mut [u16],
    previous: &mut [u16],
    present: &mut Vec<u16>,
    above: &mut Vec<u16>,
    group: &mut GroupRoom,
)
    requires lawful { IsLawful params.now }
    requires inside { first + length bands.old ≤ params.now.shape.bands }
    requires own { bands_of bands.old ≡ from first (length bands.old) }
    requires fresh { (c : Image) → AreAt params.now c 0 bands.old }
    requires planes { length bands.old * plane_size params.now.shape ≤ length planes.old }
    requires previous { most_previous params.now * plane_size params.now.shape ≤ length previous.old }
    requires range { ArePlanesInRange params.now planes.old (length bands.old) }
    requires previous_range { ArePlanesInRange params.now previous.old (first - least_kept params.now first) }
    requires present { IsRow params.now present.old.items }
    requires above { IsRow params.now above.old.items }
    ensures turned { (offsets : List ℕ) → HasPlanesOf params.now.shape offsets first planes.old (length bands.old)
        → HasPlanesOf params.now.shape offsets (least_kept params.now first) previous.old (first - least_kept params.now first)
        → take (length bands.old * plane_size params.now.shape) planes.new
        ≡ flat_map (λ z. rows_of params.now (image_of_planes params.now.shape params.now.kind offsets) (z ∷ [])) (bands_of bands.old) }
    ensures moved { (offsets : List ℕ) → HasPlanesOf params.now.shape offsets first planes.old (length bands.old)
        → HasPlanesOf params.now.shape offsets (least_kept params.now first) previous.old (first - least_kept params.now first)
        → HasPlanesOf params.now.shape offsets (least_kept params.now (first + length bands.old)) previous.new
        (first + length bands.old - least_kept params.now (first + length bands.old)) }
    ensures same { bands_of bands.new ≡ bands_of bands.old }
    ensures present { IsRow params.now present.new.items }
    ensures above { IsRow params.now above.new.items }
{
    let shape = params.shape;
    let columns = shape.columns() as usize;
    let plane = shape.rows() as usize * columns;
    let count = bands.len();
    let least = (first + count).saturating_sub(params.previous as usize);
    let many = first + count - least;
    let mut handed = HandedRows::none();
    for y in 0..shape.rows() {
        next_lines(params, first, y, planes, count, previous, present, above);
        handed = handed.and(&present[..]);
        let rows = Rows::of_last(shape, params.kind, y, &present[..], &above[..], &handed);
        keep_row(
            &rows,
            params,
            y as usize * columns,
            plane,
            bands,
            planes,
            group,
        );
        keep_lines(params, least, y, &present[..], many, previous);
    }
}

/// Goes on to row `y` of `count` planes, from band `first` on, and of the previous ones: the row that was present is now the one above.
/// The first row, which has none above it, is its own.
fn next_lines(
    params: &Params,
    first: usize,
    y: u32,
    planes: &[u16],
    count: usize,
    previous: &[u16],
    present: &mut Vec<u16>,
    above: &mut Vec<u16>,
)
    requires place { y < params.now.shape.rows }
    requires inside { first + count ≤ params.now.shape.bands }
    requires planes { count * plane_size params.now.shape ≤ length planes.now }
    requires previous { (first - least_kept params.now first) * plane_size params.now.shape ≤ length previous.now }
    requires range { AreLinesInRange params.now y planes.now count }
    requires previous_range { AreLinesInRange params.now y previous.now (first - least_kept params.now first) }
    requires present { IsRow params.now present.old.items }
    requires above { IsRow params.now above.old.items }
    ensures lines { HasLinesOf params.now.shape first y planes.now count present.new.items }
    ensures previous { HasLinesOf params.now.shape (least_kept params.now first) y previous.now (first - least_kept params.now first) present.new.items }
    ensures present { IsRow params.now present.new.items }
    ensures above { IsRow params.now above.new.items }
    ensures first { y ≡ 0 → above.new.items ≡ present.new.items }
    ensures later { 1 ≤ y → above.new.items ≡ present.old.items }
{
    swap(present, above);
    let least = first.saturating_sub(params.previous as usize);
    put_lines(params, least, y, previous, first - least, &mut present[..]);
    put_lines(params, first, y, planes, count, &mut present[..]);
    if y == 0 {
        above.copy_from_slice(&present[..]);
    }
}

/// Writes row `y` of some planes, those of the bands from `base` on, into a row of all bands.
fn put_lines(params: &Params, base: usize, y: u32, planes: &[u16], many: usize, row: &mut [u16])
    requires place { y < params.now.shape.rows }
    requires inside { base + many ≤ params.now.shape.bands }
    requires size { many * plane_size params.now.shape ≤ length planes.now }
    requires range { AreLinesInRange params.now y planes.now many }
    requires row { IsRow params.now row.old }
    ensures lines { HasLinesOf params.now.shape base y planes.now many row.new }
    ensures before { (z x : ℕ) → z < base → x < params.now.shape.columns
        → slice_index_or row.new (z * params.now.shape.columns + x) 0 ≡ slice_index_or row.old (z * params.now.shape.columns + x) 0 }
    ensures row { IsRow params.now row.new }
{
    let columns = params.shape.columns() as usize;
    let rows = params.shape.rows() as usize;
    for k in 0..many {
        let first = (base + k) * columns;
        let start = (k * rows + y as usize) * columns;
        let line = &planes[start..start + columns];
        row[first..first + columns].copy_from_slice(line);
    }
}

/// Writes row `y` of some planes, those of the bands from `base` on: their samples in a row of all bands.
fn keep_lines(params: &Params, base: usize, y: u32, row: &[u16], many: usize, planes: &mut [u16])
    requires place { y < params.now.shape.rows }
    requires inside { base + many ≤ params.now.shape.bands }
    requires size { many * plane_size params.now.shape ≤ length planes.old }
    requires row { IsRow params.now row.now }
    ensures lines { HasLinesOf params.now.shape base y planes.new many row.now }
    ensures others { AreSameBut params.now.shape y planes.old planes.new }
{
    let columns = params.shape.columns() as usize;
    let rows = params.shape.rows() as usize;
    for k in 0..many {
        let first = (base + k) * columns;
        let start = (k * rows + y as usize) * columns;
        let line = &row[first..first + columns];
        planes[start..start + columns].copy_from_slice(line);
    }
}
