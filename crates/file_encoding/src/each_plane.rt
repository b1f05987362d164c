//! Planes of bands that come one after another, as in the order by band.

ghost use Rattle.std.specs.Prelude.{◌≡◌, ◌+◌, ◌*◌, ◌-◌, ◌<◌, ◌≤◌, ◌∷◌, [], length};
ghost use Rattle.std.specs.List.{flat_map};
ghost use Rattle.file_encoding.specs.Own.{rows_of};
ghost use Rattle.file_encoding.specs.Walks.{IsSeen, AreAt, bands_of};

use crate::pieces::GROUP;
use crate::side_by_side::{keep_row, send_first_row};
use crate::taker::Taker;
use cube_core::cube::Cube;
use group_prediction::room::GroupRoom;
use header_bits::params::Params;
use predict_core::band::Band;
use predict_core::rows::Rows;

/// Sends the residuals of some bands, band after band. Returns false if the taker has stopped.
///
/// As many bands at a time go over their planes side by side as are predicted at once, or as there is room for the planes
/// of all but one of: `room` may have any length. Where it holds all of their planes, none is sent before all are there.
pub(crate) fn send_bands<T: Taker>(
    cube: &Cube,
    params: &Params,
    bands: &mut [Band],
    room: &mut [u16],
    taker: &mut T,
) -> bool
    requires image { IsSeen params.now cube.now }
    requires at { AreAt params.now cube.now 0 bands.old }
    requires may { T.may taker.old (flat_map (λ z. rows_of params.now cube.now (z ∷ [])) (bands_of bands.old)) }
    ensures sent { T.takes taker.old taker.new result (flat_map (λ z. rows_of params.now cube.now (z ∷ [])) (bands_of bands.old)) }
{
    let shape = cube.shape();
    let plane = shape.rows() as usize * shape.columns() as usize;
    let most = GROUP.min(1 + room.len() / plane);
    let mut group = GroupRoom::new();
    let mut first = 0;
    while first < bands.len() {
        let count = most.min(bands.len() - first);
        if !send_next_planes(
            cube,
            params,
            &mut bands[first..first + count],
            room,
            &mut group,
            taker,
        ) {
            return false;
        }
        first += count;
    }
    true
}

/// Does the same for one band or more, which go over their planes side by side.
fn send_next_planes<T: Taker>(
    cube: &Cube,
    params: &Params,
    bands: &mut [Band],
    room: &mut [u16],
    group: &mut GroupRoom,
    taker: &mut T,
) -> bool
    requires image { IsSeen params.now cube.now }
    requires some { 1 ≤ length bands.old }
    requires room { (length bands.old - 1) * (cube.now.shape.rows * cube.now.shape.columns) ≤ length room.old }
    requires at { AreAt params.now cube.now 0 bands.old }
    requires may { T.may taker.old (flat_map (λ z. rows_of params.now cube.now (z ∷ [])) (bands_of bands.old)) }
    ensures sent { T.takes taker.old taker.new result (flat_map (λ z. rows_of params.now cube.now (z ∷ [])) (bands_of bands.old)) }
    ensures same { bands_of bands.new ≡ bands_of bands.old }
{
    let shape = cube.shape();
    let plane = shape.rows() as usize * shape.columns() as usize;
    if bands.len() * plane <= room.len() {
        send_all_planes(cube, params, bands, room, group, taker)
    } else {
        send_first_plane(cube, params, bands, room, group, taker)
    }
}

/// Does the same where there is room for all of their planes: they are kept until all are there.
///
/// A taker that makes its caller wait, as the lane of a predictor does, then keeps no band from being predicted.
fn send_all_planes<T: Taker>(
    cube: &Cube,
    params: &Params,
    bands: &mut [Band],
    room: &mut [u16],
    group: &mut GroupRoom,
    taker: &mut T,
) -> bool
    requires image { IsSeen params.now cube.now }
    requires room { length bands.old * (cube.now.shape.rows * cube.now.shape.columns) ≤ length room.old }
    requires at { AreAt params.now cube.now 0 bands.old }
    requires may { T.may taker.old (flat_map (λ z. rows_of params.now cube.now (z ∷ [])) (bands_of bands.old)) }
    ensures sent { T.takes taker.old taker.new result (flat_map (λ z. rows_of params.now cube.now (z ∷ [])) (bands_of bands.old)) }
    ensures same { bands_of bands.new ≡ bands_of bands.old }
{
    let shape = cube.shape();
    let columns = shape.columns() as usize;
    let plane = shape.rows() as usize * columns;
    for y in 0..shape.rows() {
        let rows = Rows::of(cube, y);
        keep_row(
            &rows,
            params,
            y as usize * columns,
            plane,
            bands,
            room,
            group,
        );
    }
    taker.take(&room[..bands.len() * plane])
}

/// Does the same where there is room for all of their planes but one: all but the first are kept until that one was sent.
fn send_first_plane<T: Taker>(
    cube: &Cube,
    params: &Params,
    bands: &mut [Band],
    room: &mut [u16],
    group: &mut GroupRoom,
    taker: &mut T,
) -> bool
    requires image { IsSeen params.now cube.now }
    requires some { 1 ≤ length bands.old }
    requires room { (length bands.old - 1) * (cube.now.shape.rows * cube.now.shape.columns) ≤ length room.old }
    requires at { AreAt params.now cube.now 0 bands.old }
    requires may { T.may taker.old (flat_map (λ z. rows_of params.now cube.now (z ∷ [])) (bands_of bands.old)) }
    ensures sent { T.takes taker.old taker.new result (flat_map (λ z. rows_of params.now cube.now (z ∷ [])) (bands_of bands.old)) }
    ensures same { bands_of bands.new ≡ bands_of bands.old }
{
    let shape = cube.shape();
    let columns = shape.columns() as usize;
    let plane = shape.rows() as usize * columns;
    for y in 0..shape.rows() {
        let rows = Rows::of(cube, y);
        let start = y as usize * columns;
        if !send_first_row(&rows, params, start, plane, bands, room, group, taker) {
            return false;
        }
    }
    taker.take(&room[..(bands.len() - 1) * plane])
}
