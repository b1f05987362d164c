//! A row of all bands, in an interleaved order.

ghost use Rattle.std.specs.Prelude.{◌≡◌, ◌+◌, ◌*◌, ◌<◌, ◌≤◌, [], IsTrue};
ghost use Rattle.cube_core.specs.Order.{upto};
ghost use Rattle.file_encoding.specs.Own.{line_of};
ghost use Rattle.file_encoding.specs.Walks.{AreAt, IsSeen, bands_of};

use crate::each_row::{ROOM, send_each_row};
use crate::pieces::PieceRoom;
use crate::taker::Taker;
use crate::walk::send_line;
use header_bits::params::Params;
use predict_core::band::Band;
use predict_core::rows::Rows;

/// Room for what is computed of a row. What it holds between rows has no meaning.
#[derive(Clone, Copy)]
pub(crate) struct LineRooms {
    piece: PieceRoom,
    lines: [u16; ROOM],
}

impl LineRooms {
    /// Returns empty rooms.
    pub(crate) fn new() -> LineRooms {
        LineRooms {
            piece: PieceRoom::new(),
            lines: [0; ROOM],
        }
    }
}

/// Sends the residuals of all bands in a row, group after group of interleaved bands. Returns false if the taker
/// has stopped.
pub(crate) fn send_all_bands<T: Taker>(
    rows: &Rows,
    params: &Params,
    depth: u32,
    bands: &mut [Band],
    rooms: &mut LineRooms,
    taker: &mut T,
) -> bool
    requires image { IsSeen params.now rows.now.image }
    requires depth { (1 ≤ depth) × (depth ≤ 65536) }
    requires row { rows.now.y < rows.now.image.shape.rows }
    requires own { bands_of bands.old ≡ upto rows.now.image.shape.bands }
    requires at { AreAt params.now rows.now.image (rows.now.y * rows.now.image.shape.columns) bands.old }
    requires may { T.may taker.old (line_of params.now rows.now.image 0 [] depth rows.now.y) }
    ensures sent { T.takes taker.old taker.new result (line_of params.now rows.now.image 0 [] depth rows.now.y) }
    ensures at { IsTrue result → AreAt params.now rows.now.image ((rows.now.y + 1) * rows.now.image.shape.columns) bands.new }
    ensures same { bands_of bands.new ≡ bands_of bands.old }
{
    if depth == 1 {
        send_each_row(
            rows,
            params,
            bands,
            &mut rooms.lines,
            &mut rooms.piece.group,
            taker,
        )
    } else {
        send_line(rows, params, 0, &[], depth, bands, &mut rooms.piece, taker)
    }
}
