//! Bands that go over a row side by side: the first one's residuals are sent and those of the others are kept, or those of all.

ghost use Rattle.std.specs.Prelude.{◌≡◌, ℕ, ◌+◌, ◌*◌, ◌-◌, ◌<◌, ◌≤◌, ◌∷◌, [], ◌++◌, length, take, slice_index_or, IsTrue};
ghost use Rattle.predict_core.specs.Following.{PredictorState};
ghost use Rattle.file_encoding.specs.Own.{row_of};
ghost use Rattle.file_encoding.specs.Pieces.{row_start};
ghost use Rattle.file_encoding.specs.Walks.{IsSeen, AreAt, bands_of};

use crate::pieces::predict_pieces;
use crate::taker::Taker;
use crate::walk::PIECE;
use group_prediction::room::GroupRoom;
use header_bits::params::Params;
use predict_core::band::Band;
use predict_core::rows::Rows;

/// Sends the residuals of the first of some bands in a row, and keeps those of the others. Returns false if the taker has
/// stopped.
///
/// Each of the others has a stretch of the room, of `stretch` numbers, band after band; its residuals are written there
/// from number `start` on.
pub(crate) fn send_first_row<T: Taker>(
    rows: &Rows,
    params: &Params,
    start: usize,
    stretch: usize,
    bands: &mut [Band],
    room: &mut [u16],
    group: &mut GroupRoom,
    taker: &mut T,
) -> bool
    requires image { IsSeen params.now rows.now.image }
    requires row { rows.now.y < rows.now.image.shape.rows }
    requires some { 1 ≤ length bands.old }
    requires inside { start + rows.now.image.shape.columns ≤ stretch }
    requires room { (length bands.old - 1) * stretch ≤ length room.old }
    requires at { AreAt params.now rows.now.image (rows.now.y * rows.now.image.shape.columns) bands.old }
    requires may { T.may taker.old (row_of params.now rows.now.image (slice_index_or (bands_of bands.old) 0 0 ∷ []) rows.now.y) }
    ensures sent { T.takes taker.old taker.new result (row_of params.now rows.now.image (slice_index_or (bands_of bands.old) 0 0 ∷ []) rows.now.y) }
    ensures kept { IsTrue result → (k : ℕ) → k + 1 < length bands.old → row_start stretch k (start + rows.now.image.shape.columns) room.new
        ≡ row_start stretch k start room.old ++ row_of params.now rows.now.image (slice_index_or (bands_of bands.old) (k + 1) 0 ∷ []) rows.now.y }
    ensures at { IsTrue result → AreAt params.now rows.now.image ((rows.now.y + 1) * rows.now.image.shape.columns) bands.new }
    ensures same { bands_of bands.new ≡ bands_of bands.old }
{
    let columns = rows.shape().columns();
    let mut x = 0;
    while x < columns {
        let count = PIECE.min(columns - x);
        predict_pieces(rows, params, x, count, bands, group);
        if !taker.take(bands[0].piece_residuals(count as usize)) {
            return false;
        }
        keep_pieces(start + x as usize, count as usize, stretch, 1, bands, room);
        x += count;
    }
    true
}

/// Keeps the residuals of some bands in a row.
///
/// Each has a stretch of the room, of `stretch` numbers, band after band; its residuals are written there from number `start` on.
pub(crate) fn keep_row(
    rows: &Rows,
    params: &Params,
    start: usize,
    stretch: usize,
    bands: &mut [Band],
    room: &mut [u16],
    group: &mut GroupRoom,
)
    requires image { IsSeen params.now rows.now.image }
    requires row { rows.now.y < rows.now.image.shape.rows }
    requires inside { start + rows.now.image.shape.columns ≤ stretch }
    requires room { length bands.old * stretch ≤ length room.old }
    requires at { AreAt params.now rows.now.image (rows.now.y * rows.now.image.shape.columns) bands.old }
    ensures kept { (k : ℕ) → k < length bands.old → row_start stretch k (start + rows.now.image.shape.columns) room.new
        ≡ row_start stretch k start room.old ++ row_of params.now rows.now.image (slice_index_or (bands_of bands.old) k 0 ∷ []) rows.now.y }
    ensures left { (k i : ℕ) → start + rows.now.image.shape.columns ≤ i → i < stretch
        → slice_index_or room.new (k * stretch + i) 0 ≡ slice_index_or room.old (k * stretch + i) 0 }
    ensures at { AreAt params.now rows.now.image ((rows.now.y + 1) * rows.now.image.shape.columns) bands.new }
    ensures same { bands_of bands.new ≡ bands_of bands.old }
{
    let columns = rows.shape().columns();
    let mut x = 0;
    while x < columns {
        let count = PIECE.min(columns - x);
        predict_pieces(rows, params, x, count, bands, group);
        keep_pieces(start + x as usize, count as usize, stretch, 0, bands, room);
        x += count;
    }
}

/// Keeps the residuals that all bands but the first `others` hold of `count` places, in the stretch of each from number `first` on.
fn keep_pieces(
    first: usize,
    count: usize,
    stretch: usize,
    others: usize,
    bands: &[Band],
    room: &mut [u16],
)
    requires piece { count ≤ 64 }
    requires inside { first + count ≤ stretch }
    requires some { others ≤ length bands.now }
    requires room { (length bands.now - others) * stretch ≤ length room.old }
    ensures kept { (k : ℕ) (b : PredictorState) → k + others < length bands.now
        → row_start stretch k (first + count) room.new ≡ row_start stretch k first room.old ++ take count (slice_index_or bands.now (k + others) b).piece }
    ensures left { (k i : ℕ) → first + count ≤ i → i < stretch → slice_index_or room.new (k * stretch + i) 0 ≡ slice_index_or room.old (k * stretch + i) 0 }
{
    for k in 0..bands.len() - others {
        let start = k * stretch + first;
        room[start..start + count].copy_from_slice(bands[k + others].piece_residuals(count));
    }
}
