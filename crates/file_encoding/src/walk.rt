//! The walk over the places of some bands, in encoding order: all bands of an image, or those of one predictor.

ghost use Rattle.std.specs.Prelude.{◌≡◌, ◌+◌, ◌*◌, ◌-◌, ◌<◌, ◌≤◌, length, slice_index_or, vec_len, IsTrue};
ghost use Rattle.cube_core.specs.Order.{from, upto, group};
ghost use Rattle.cube_core.specs.declared.order.Order.TheVariants.{Bi};
ghost use Rattle.header_bits.specs.Lawful.{IsLawful};
ghost use Rattle.file_encoding.specs.Own.{own, row_of, line_of, own_residuals};
ghost use Rattle.file_encoding.specs.Walks.{IsSeen, AreAt, AreFresh, bands_of};

use crate::each_plane::send_bands;
use crate::each_row::send_each_line;
use crate::pieces::{PieceRoom, predict_pieces, send_pieces};
use crate::taker::Taker;
use cube_core::cube::Cube;
use cube_core::order::Order;
use cube_core::shape::Shape;
use header_bits::params::Params;
use predict_core::band::Band;
use predict_core::rows::Rows;
use std::alloc::Global;

/// The greatest number of places in a piece of a row.
pub(crate) const PIECE: u32 = 64;

/// Sends the residuals of some bands in a row, column after column. Returns false if the taker has stopped.
pub(crate) fn send_row<T: Taker>(
    rows: &Rows,
    params: &Params,
    bands: &mut [Band],
    room: &mut PieceRoom,
    taker: &mut T,
) -> bool
    requires image { IsSeen params.now rows.now.image }
    requires row { rows.now.y < rows.now.image.shape.rows }
    requires at { AreAt params.now rows.now.image (rows.now.y * rows.now.image.shape.columns) bands.old }
    requires may { T.may taker.old (row_of params.now rows.now.image (bands_of bands.old) rows.now.y) }
    ensures sent { T.takes taker.old taker.new result (row_of params.now rows.now.image (bands_of bands.old) rows.now.y) }
    ensures at { IsTrue result → AreAt params.now rows.now.image ((rows.now.y + 1) * rows.now.image.shape.columns) bands.new }
    ensures same { bands_of bands.new ≡ bands_of bands.old }
{
    if bands.is_empty() {
        return true;
    }
    let columns = rows.shape().columns();
    let mut x = 0;
    while x < columns {
        let count = PIECE.min(columns - x);
        predict_pieces(rows, params, x, count, bands, &mut room.group);
        if !send_pieces(count as usize, bands, &mut room.residuals, taker) {
            return false;
        }
        x += count;
    }
    true
}

/// Returns the predictor to which a band is dealt. A band beyond the deal belongs to the first predictor.
fn owner(deal: &[u8], band: u32) -> u32
    ensures { result ≡ slice_index_or deal.now band 0 }
{
    match deal.get(band as usize) {
        Some(predictor) => u32::from(*predictor),
        None => 0,
    }
}

/// Returns how many of the bands `first` to `end - 1` are dealt to a predictor.
#[tactic(auto, using(crate::proofs::Groups::own_next))]
fn count_own(deal: &[u8], predictor: u32, first: u32, end: u32) -> usize
    requires { first ≤ end }
    ensures { result ≡ length (own predictor deal.now (from first (end - first))) }
{
    let mut count = 0;
    for z in first..end {
        let owner = owner(deal, z);
        if owner == predictor {
            count += 1;
        }
    }
    count
}

/// Sends the residuals of a predictor's bands in a row, group after group of bands. Returns false if the
/// taker has stopped.
#[tactic(auto, using(crate::proofs::Sending::bands_put))]
pub(crate) fn send_line<T: Taker>(
    rows: &Rows,
    params: &Params,
    predictor: u32,
    deal: &[u8],
    depth: u32,
    bands: &mut [Band],
    room: &mut PieceRoom,
    taker: &mut T,
) -> bool
    requires image { IsSeen params.now rows.now.image }
    requires depth { (1 ≤ depth) × (depth ≤ 65536) }
    requires row { rows.now.y < rows.now.image.shape.rows }
    requires own { bands_of bands.old ≡ own predictor deal.now (upto rows.now.image.shape.bands) }
    requires at { AreAt params.now rows.now.image (rows.now.y * rows.now.image.shape.columns) bands.old }
    requires may { T.may taker.old (line_of params.now rows.now.image predictor deal.now depth rows.now.y) }
    ensures sent { T.takes taker.old taker.new result (line_of params.now rows.now.image predictor deal.now depth rows.now.y) }
    ensures at { IsTrue result → AreAt params.now rows.now.image ((rows.now.y + 1) * rows.now.image.shape.columns) bands.new }
    ensures same { bands_of bands.new ≡ bands_of bands.old }
{
    let total = rows.shape().bands();
    let groups = (total + depth - 1) / depth;
    let mut first = 0;
    let mut slot = 0;
    for i in 0..groups {
        let _group = i;
        let end = total.min(first + depth);
        let count = count_own(deal, predictor, first, end);
        if !send_row(rows, params, &mut bands[slot..slot + count], room, taker) {
            return false;
        }
        first = end;
        slot += count;
    }
    true
}

/// Sends the residuals of a predictor's bands, row after row. Returns false if the taker has stopped.
fn send_lines<T: Taker>(
    cube: &Cube,
    params: &Params,
    predictor: u32,
    deal: &[u8],
    depth: u32,
    bands: &mut [Band],
    taker: &mut T,
) -> bool
    requires image { IsSeen params.now cube.now }
    requires depth { (1 ≤ depth) × (depth ≤ 65536) }
    requires own { bands_of bands.old ≡ own predictor deal.now (upto cube.now.shape.bands) }
    requires at { AreAt params.now cube.now 0 bands.old }
    requires may { T.may taker.old (own_residuals params.now cube.now predictor deal.now (Bi depth)) }
    ensures { T.takes taker.old taker.new result (own_residuals params.now cube.now predictor deal.now (Bi depth)) }
{
    if depth == 1 {
        return send_each_line(cube, params, bands, taker);
    }
    let mut room = PieceRoom::new();
    for y in 0..cube.shape().rows() {
        let rows = Rows::of(cube, y);
        if !send_line(
            &rows, params, predictor, deal, depth, bands, &mut room, taker,
        ) {
            return false;
        }
    }
    true
}

/// Returns room for the residuals that `send_own` keeps where band comes after band. It is empty in another order, and where it
/// can't be allocated.
///
/// There is room for at most seven bands, and for no more than half of the image's.
pub fn planes_room(alloc: Global, params: &Params) -> Vec<u16>
    ensures seven { vec_len result ≤ 7 * (params.now.shape.rows * params.now.shape.columns) }
    ensures half { 2 * vec_len result ≤ params.now.shape.bands * (params.now.shape.rows * params.now.shape.columns) }
{
    room_of_planes(alloc, params, most_planes(params.shape))
}

/// Returns how many planes of residuals are kept where band comes after band: seven, or half of the image's where it has fewer than fourteen.
pub(crate) fn most_planes(shape: Shape) -> u32
    ensures seven { result ≤ 7 }
    ensures half { 2 * result ≤ shape.bands }
{
    shape.bands().min(14) / 2
}

/// Returns such room for one of `predictors` threads that share the bands. It has room for eight planes where together they have at
/// least sixteen bands each, so that `send_own` predicts eight bands before it sends the first.
///
/// There is room for at most eight bands, and for no more than half of the image's in all threads together.
pub fn shared_planes_room(alloc: Global, params: &Params, predictors: u32) -> Vec<u16>
    requires some { 1 ≤ predictors }
    ensures eight { vec_len result ≤ 8 * (params.now.shape.rows * params.now.shape.columns) }
    ensures half { 2 * (predictors * vec_len result) ≤ params.now.shape.bands * (params.now.shape.rows * params.now.shape.columns) }
{
    let share = params.shape.bands() / predictors;
    room_of_planes(alloc, params, share.min(16) / 2)
}

/// Returns room for the planes of `kept` bands where band comes after band. It is empty in another order, and where it can't be
/// allocated.
fn room_of_planes(alloc: Global, params: &Params, kept: u32) -> Vec<u16>
    requires few { kept ≤ 8 }
    ensures { vec_len result ≤ kept * (params.now.shape.rows * params.now.shape.columns) }
{
    let mut room = Vec::new(alloc);
    if params.order == Order::Bsq {
        let shape = params.shape;
        let plane = shape.rows() as usize * shape.columns() as usize;
        let _had = room.resize(kept as usize * plane, 0);
    }
    room
}

/// Sends the residuals of a predictor's bands, in encoding order. By an empty deal all bands belong to the
/// first predictor. Returns false if the taker has stopped.
///
/// The parameters are lawful, the cube has their shape and kind, and the bands are the predictor's, in order, each at its first
/// place. Afterwards the state of the bands is unspecified. `room` may have any length: where band comes after band, as many
/// bands at a time go over the cube as it can hold planes of all but one of, which takes less time than one after another.
pub fn send_own<T: Taker>(
    cube: &Cube,
    params: &Params,
    predictor: u32,
    deal: &[u8],
    bands: &mut [Band],
    room: &mut [u16],
    taker: &mut T,
) -> bool
    requires image { IsSeen params.now cube.now }
    requires lawful { IsLawful params.now }
    requires bands { AreFresh params.now predictor deal.now cube.now bands.old }
    requires may { T.may taker.old (own_residuals params.now cube.now predictor deal.now params.now.order) }
    ensures { T.takes taker.old taker.new result (own_residuals params.now cube.now predictor deal.now params.now.order) }
{
    match params.order {
        Order::Bsq => send_bands(cube, params, bands, room, taker),
        Order::Bi(depth) => send_lines(cube, params, predictor, deal, depth, bands, taker),
    }
}
