//! Pieces of a row: some bands go over the same places, and what they then hold is sent column after column.

ghost use Rattle.std.specs.Prelude.{◌≡◌, ◌+◌, ◌*◌, ◌<◌, ◌≤◌, length};
ghost use Rattle.file_encoding.specs.Walks.{IsSeen, AreAt, bands_of};
ghost use Rattle.file_encoding.specs.Pieces.{ArePast, held_at, held_of};

use crate::gather::{gather, gather_places};
use crate::taker::Taker;
use group_prediction::predict::predict_group;
use group_prediction::room::GroupRoom;
use header_bits::params::Params;
use predict_core::band::Band;
use predict_core::rows::Rows;

/// The greatest number of residuals of several bands that are passed on at once.
pub(crate) const RUN: usize = 2048;

/// The greatest number of bands that are predicted at once.
pub(crate) const GROUP: usize = 8;

/// Room for what is computed of pieces of several bands: what predicting them needs, and their residuals, column after column.
///
/// It takes some 114 KB, so it is made once and used for one piece after another. What it holds between them has no meaning.
#[derive(Clone, Copy)]
pub(crate) struct PieceRoom {
    pub group: GroupRoom,
    pub residuals: [u16; RUN],
}

impl PieceRoom {
    /// Returns an empty room.
    pub(crate) fn new() -> PieceRoom {
        PieceRoom {
            group: GroupRoom::new(),
            residuals: [0; RUN],
        }
    }
}

/// Has each of some bands go over `count` places of a row, from column `x` on, and hold their residuals.
pub(crate) fn predict_pieces(
    rows: &Rows,
    params: &Params,
    x: u32,
    count: u32,
    bands: &mut [Band],
    group: &mut GroupRoom,
)
    requires image { IsSeen params.now rows.now.image }
    requires place { (rows.now.y < rows.now.image.shape.rows) × (x < rows.now.image.shape.columns) }
    requires piece { (count ≤ 64) × (x + count ≤ rows.now.image.shape.columns) }
    requires at { AreAt params.now rows.now.image (rows.now.y * rows.now.image.shape.columns + x) bands.old }
    ensures past { ArePast params.now rows.now.image (rows.now.y * rows.now.image.shape.columns + x) count bands.new }
    ensures same { bands_of bands.new ≡ bands_of bands.old }
{
    let count = count as usize;
    let mut first = 0;
    while first < bands.len() {
        let last = bands.len().min(first + GROUP);
        predict_group(&mut bands[first..last], rows, x, count, group);
        first = last;
    }
}

/// Sends the residuals that some bands hold of place `i` of their pieces. Returns false if the taker has
/// stopped.
fn send_column<T: Taker>(i: usize, bands: &[Band], room: &mut [u16; RUN], taker: &mut T) -> bool
    requires place { i < 64 }
    requires may { T.may taker.old (held_at bands.now i) }
    ensures sent { T.takes taker.old taker.new result (held_at bands.now i) }
{
    let mut first = 0;
    while first < bands.len() {
        let count = RUN.min(bands.len() - first);
        gather(i, &bands[first..first + count], &mut room[..count]);
        if !taker.take(&room[..count]) {
            return false;
        }
        first += count;
    }
    true
}

/// Sends the residuals that some bands hold of their pieces, column after column. Returns false if the taker
/// has stopped.
///
/// Those of a single band are sent as one slice, others as many columns at once as there is room for; of more bands than there is
/// room for, one column in parts.
pub(crate) fn send_pieces<T: Taker>(
    count: usize,
    bands: &[Band],
    room: &mut [u16; RUN],
    taker: &mut T,
) -> bool
    requires piece { count ≤ 64 }
    requires some { 0 < length bands.now }
    requires may { T.may taker.old (held_of bands.now count) }
    ensures sent { T.takes taker.old taker.new result (held_of bands.now count) }
{
    if bands.len() == 1 {
        return taker.take(bands[0].piece_residuals(count));
    }
    if bands.len() > RUN {
        return send_columns(count, bands, room, taker);
    }
    let together = RUN / bands.len();
    let mut i = 0;
    while i < count {
        let places = together.min(count - i);
        let residuals = &mut room[..places * bands.len()];
        gather_places(i, places, bands, residuals);
        if !taker.take(residuals) {
            return false;
        }
        i += places;
    }
    true
}

/// Does the same where the bands are more than there is room for.
fn send_columns<T: Taker>(
    count: usize,
    bands: &[Band],
    room: &mut [u16; RUN],
    taker: &mut T,
) -> bool
    requires piece { count ≤ 64 }
    requires may { T.may taker.old (held_of bands.now count) }
    ensures sent { T.takes taker.old taker.new result (held_of bands.now count) }
{
    for i in 0..count {
        if !send_column(i, bands, room, taker) {
            return false;
        }
    }
    true
}
