//! Rows of bands that come one after another, as in the order by line.

ghost use Rattle.std.specs.Prelude.{◌≡◌, ◌+◌, ◌*◌, ◌-◌, ◌<◌, ◌≤◌, ◌∷◌, [], length, IsTrue};
ghost use Rattle.std.specs.List.{flat_map};
ghost use Rattle.cube_core.specs.Order.{upto};
ghost use Rattle.file_encoding.specs.Own.{row_of};
ghost use Rattle.file_encoding.specs.Walks.{IsSeen, AreAt, bands_of};

use crate::pieces::GROUP;
use crate::side_by_side::send_first_row;
use crate::taker::Taker;
use cube_core::cube::Cube;
use group_prediction::room::GroupRoom;
use header_bits::params::Params;
use predict_core::band::Band;
use predict_core::rows::Rows;

/// The greatest number of residuals that are kept: seven rows of 2048 columns.
pub(crate) const ROOM: usize = 14336;

/// Sends the residuals of some bands, row after row, and in each row band after band. Returns false if the taker has
/// stopped.
pub(crate) fn send_each_line<T: Taker>(
    cube: &Cube,
    params: &Params,
    bands: &mut [Band],
    taker: &mut T,
) -> bool
    requires image { IsSeen params.now cube.now }
    requires at { AreAt params.now cube.now 0 bands.old }
    requires may { T.may taker.old (flat_map (λ y. flat_map (λ z. row_of params.now cube.now (z ∷ []) y) (bands_of bands.old)) (upto cube.now.shape.rows)) }
    ensures { T.takes taker.old taker.new result
        (flat_map (λ y. flat_map (λ z. row_of params.now cube.now (z ∷ []) y) (bands_of bands.old)) (upto cube.now.shape.rows)) }
{
    let mut room = [0; ROOM];
    let mut group = GroupRoom::new();
    for y in 0..cube.shape().rows() {
        let rows = Rows::of(cube, y);
        if !send_each_row(&rows, params, bands, &mut room, &mut group, taker) {
            return false;
        }
    }
    true
}

/// Sends the residuals of some bands in a row, band after band. Returns false if the taker has stopped.
///
/// As many bands at a time go over their rows side by side as are predicted at once, or as there is room for the rows of.
#[tactic(auto, using(crate::proofs::Sending::bands_put))]
pub(crate) fn send_each_row<T: Taker>(
    rows: &Rows,
    params: &Params,
    bands: &mut [Band],
    room: &mut [u16; ROOM],
    group: &mut GroupRoom,
    taker: &mut T,
) -> bool
    requires image { IsSeen params.now rows.now.image }
    requires row { rows.now.y < rows.now.image.shape.rows }
    requires at { AreAt params.now rows.now.image (rows.now.y * rows.now.image.shape.columns) bands.old }
    requires may { T.may taker.old (flat_map (λ z. row_of params.now rows.now.image (z ∷ []) rows.now.y) (bands_of bands.old)) }
    ensures sent { T.takes taker.old taker.new result (flat_map (λ z. row_of params.now rows.now.image (z ∷ []) rows.now.y) (bands_of bands.old)) }
    ensures at { IsTrue result → AreAt params.now rows.now.image ((rows.now.y + 1) * rows.now.image.shape.columns) bands.new }
    ensures same { bands_of bands.new ≡ bands_of bands.old }
{
    let columns = rows.shape().columns() as usize;
    let most = GROUP.min(1 + ROOM / columns);
    let mut first = 0;
    while first < bands.len() {
        let count = most.min(bands.len() - first);
        if !send_next_rows(
            rows,
            params,
            &mut bands[first..first + count],
            room,
            group,
            taker,
        ) {
            return false;
        }
        first += count;
    }
    true
}

/// Does the same for one band or more, which go over their rows side by side: all rows but the first are kept until that
/// one was sent.
fn send_next_rows<T: Taker>(
    rows: &Rows,
    params: &Params,
    bands: &mut [Band],
    room: &mut [u16; ROOM],
    group: &mut GroupRoom,
    taker: &mut T,
) -> bool
    requires image { IsSeen params.now rows.now.image }
    requires row { rows.now.y < rows.now.image.shape.rows }
    requires some { 1 ≤ length bands.old }
    requires room { (length bands.old - 1) * rows.now.image.shape.columns ≤ 14336 }
    requires at { AreAt params.now rows.now.image (rows.now.y * rows.now.image.shape.columns) bands.old }
    requires may { T.may taker.old (flat_map (λ z. row_of params.now rows.now.image (z ∷ []) rows.now.y) (bands_of bands.old)) }
    ensures sent { T.takes taker.old taker.new result (flat_map (λ z. row_of params.now rows.now.image (z ∷ []) rows.now.y) (bands_of bands.old)) }
    ensures at { IsTrue result → AreAt params.now rows.now.image ((rows.now.y + 1) * rows.now.image.shape.columns) bands.new }
    ensures same { bands_of bands.new ≡ bands_of bands.old }
{
    let columns = rows.shape().columns() as usize;
    if !send_first_row(rows, params, 0, columns, bands, room, group, taker) {
        return false;
    }
    taker.take(&room[..(bands.len() - 1) * columns])
}
