//! Rows of all bands that are copied out of an image, one after another.

ghost use Rattle.std.specs.Prelude.{◌≡◌, ◌*◌, ◌<◌, ◌≤◌, []};
ghost use Rattle.cube_core.specs.Order.{upto};
ghost use Rattle.cube_core.specs.declared.order.Order.TheVariants.{Bi};
ghost use Rattle.header_bits.specs.Lawful.{IsLawful};
ghost use Rattle.file_encoding.specs.ByPlanes.{IsRow};
ghost use Rattle.file_encoding.specs.InPlace.{HasLinesAt};
ghost use Rattle.file_encoding.specs.Own.{own_residuals};
ghost use Rattle.file_encoding.specs.Walks.{IsSeen, AreAt, bands_of};

use crate::all_bands::{LineRooms, send_all_bands};
use crate::taker::Taker;
use cube_core::cube::Cube;
use header_bits::params::Params;
use predict_core::band::Band;
use predict_core::handed::HandedRows;
use predict_core::rows::Rows;
use std::mem::swap;

/// Sends the residuals of all bands in an interleaved order, row after row. Returns false if the taker has stopped.
///
/// `bands` are the predictors of all bands, each at its first place. `present` and `above` are rows of all bands, of any samples: each
/// row of the image is copied there before it is predicted. In a cube the rows of two bands stand a plane apart, which is often a
/// distance at which a processor's cache has room for few of them.
pub(crate) fn send_copied_lines<T: Taker>(
    cube: &Cube,
    params: &Params,
    depth: u32,
    bands: &mut [Band],
    present: &mut Vec<u16>,
    above: &mut Vec<u16>,
    taker: &mut T,
) -> bool
    requires lawful { IsLawful params.now }
    requires image { IsSeen params.now cube.now }
    requires depth { (1 ≤ depth) × (depth ≤ 65536) }
    requires own { bands_of bands.old ≡ upto params.now.shape.bands }
    requires at { AreAt params.now cube.now 0 bands.old }
    requires present { IsRow params.now present.old.items }
    requires above { IsRow params.now above.old.items }
    requires may { T.may taker.old (own_residuals params.now cube.now 0 [] (Bi depth)) }
    ensures { T.takes taker.old taker.new result (own_residuals params.now cube.now 0 [] (Bi depth)) }
{
    let shape = params.shape;
    let mut rooms = LineRooms::new();
    let mut handed = HandedRows::none();
    for y in 0..shape.rows() {
        next_row(cube, params, y, present, above);
        handed = handed.and(&present[..]);
        let rows = Rows::of_last(shape, params.kind, y, &present[..], &above[..], &handed);
        if !send_all_bands(&rows, params, depth, bands, &mut rooms, taker) {
            return false;
        }
    }
    true
}

/// Goes on to row `y` of a cube: the row that was present is now the one above. The first row, which has none above it, is its own.
pub(crate) fn next_row(
    cube: &Cube,
    params: &Params,
    y: u32,
    present: &mut Vec<u16>,
    above: &mut Vec<u16>,
)
    requires image { IsSeen params.now cube.now }
    requires place { y < params.now.shape.rows }
    requires present { IsRow params.now present.old.items }
    requires above { IsRow params.now above.old.items }
    ensures lines { HasLinesAt cube.now y params.now.shape.bands present.new.items }
    ensures present { IsRow params.now present.new.items }
    ensures above { IsRow params.now above.new.items }
    ensures first { y ≡ 0 → above.new.items ≡ present.new.items }
    ensures later { 1 ≤ y → above.new.items ≡ present.old.items }
{
    swap(present, above);
    copy_row(cube, params, y, &mut present[..]);
    if y == 0 {
        above.copy_from_slice(&present[..]);
    }
}

/// Writes row `y` of all bands of a cube, band after band.
fn copy_row(cube: &Cube, params: &Params, y: u32, row: &mut [u16])
    requires image { IsSeen params.now cube.now }
    requires place { y < params.now.shape.rows }
    requires row { IsRow params.now row.old }
    ensures lines { HasLinesAt cube.now y params.now.shape.bands row.new }
    ensures row { IsRow params.now row.new }
{
    cube.prove_is_cube();
    let columns = params.shape.columns() as usize;
    for z in 0..params.shape.bands() {
        let first = z as usize * columns;
        row[first..first + columns].copy_from_slice(cube.row(z, y));
    }
}
