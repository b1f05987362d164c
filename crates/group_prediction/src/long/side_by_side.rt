//! Bands that advance over the same piece side by side, each in a lane of 32 bits.

ghost use Rattle.std.specs.Prelude.{◌≡◌, ◌+◌, ◌-◌, ◌*◌, ◌^◌, ◌<◌, ◌≤◌, ℕ, min, unsigned_abs, length, slice_get, slice_set, slice_index_or, Some};
ghost use Rattle.std.specs.List.{AllZip};
ghost use Rattle.cube_core.specs.Image.{Image};
ghost use Rattle.band_lanes.specs.Rows.{numbers_of};
ghost use Rattle.band_lanes.specs.Fours.{column_of, row_components};
ghost use Rattle.lanes.specs.Lanes.{place};
ghost use Rattle.sample_prediction.specs.Bounds.{AllWithin};
ghost use Rattle.predict_core.specs.declared.settings.Settings.{Settings as Constants};
ghost use Rattle.predict_core.specs.Following.{PredictorState, HoldsPiece};
ghost use Rattle.predict_core.specs.ImageRuns.{IsRunOf};
ghost use Rattle.group_prediction.specs.GroupPieces.{IsRunNext};
ghost use Rattle.group_prediction.specs.GroupLanes.{IsLongLane};
ghost use Rattle.group_prediction.specs.GroupLines.{AreLongLines, no_long_lines};
ghost use Rattle.group_prediction.specs.LongRooms.{AreLongReady, IsLongPredicted};
ghost use Rattle.predict_core.specs.Following.{no_band};
ghost use Rattle.predict_core.specs.RunChains.{IsFollowed};

use crate::long::fill::fill_lanes;
use crate::long::finish::finish_band;
use crate::long::lines::LongLines;
use crate::long::room::{FourRoom, LongRoom};
use crate::long::rows::{fill_own, fill_rows};
use crate::long::steps::follow_piece;
use crate::long::weights::fill_weights;
use band_lanes::four::rows::Rows as LaneRows;
use lanes::turn_four::turn_four_back;
use predict_core::band::Band;
use predict_core::run::{PIECE, Run};
use sample_prediction::predictor::MOST_COMPONENTS;

/// `follow_piece` with the constants of a band's predictor.
fn follow_band<const Q: usize>(
    band: &Band,
    run: &Run,
    rows: &[LaneRows; MOST_COMPONENTS],
    own: &[[i32; 4]; PIECE],
    weights: &mut [[i32; 4]; MOST_COMPONENTS],
    parts: &mut [[i32; 4]; PIECE],
)
    requires few { Q ≤ 9 }
    requires run { IsRunOf band.now.band run.now }
    requires next { IsRunNext band.now run.now }
    requires small { (i b : ℕ) → run.now.first ≤ i → i < run.now.count → b < 4 → AllWithin (2 ^ (band.now.kind.bits + 2)) (row_components (2 * Q) b rows.now i) }
    requires weights_in { (b : ℕ) → b < 4 → AllWithin (2 ^ (band.now.predictor.omega + 2)) (column_of (2 * Q) b weights.old) }
    ensures weights_in { (b : ℕ) → b < 4 → AllWithin (2 ^ (band.now.predictor.omega + 2)) (column_of (2 * Q) b weights.new) }
    ensures small { (i b : ℕ) → run.now.first ≤ i → i < run.now.count → b < 4 → unsigned_abs (place parts.new i b) ≤ 18 * 2 ^ 20 }
    ensures followed { (b : ℕ) (s : Constants) (c : Image) → b < 4 → IsLongLane Q b s c run.now.y run.now.x run.now.count own.now rows.now → s.predictor ≡ band.now.predictor
        → s.range.kind ≡ band.now.kind → s.columns ≡ band.now.shape.columns
        → IsFollowed s c run.now.y run.now.x run.now.first (column_of (2 * Q) b weights.old) run.now.first (column_of (2 * Q) b weights.old) (numbers_of b parts.old)
        → IsFollowed s c run.now.y run.now.x run.now.first (column_of (2 * Q) b weights.old) run.now.count (column_of (2 * Q) b weights.new) (numbers_of b parts.new) }
{
    follow_piece::<Q>(&band.settings, run, rows, own, weights, parts);
}

/// Predicts the differences of a piece of one to four bands, whose lines are those from line `from` on.
fn predict_lanes<const Q: usize>(
    bands: &[Band],
    run: &Run,
    lines: &[LongLines; 8],
    from: usize,
    room: &mut FourRoom,
)
    requires pairs { Q ≤ 9 }
    requires few { (1 ≤ length bands.now) × (length bands.now ≤ 4) }
    requires ready { AreLongReady Q bands.now run.now }
    requires from { from + 4 ≤ 8 }
    requires lines { (b : ℕ) (s : PredictorState) → b < 4 → slice_get bands.now (min b (length bands.now - 1)) ≡ Some s
        → AreLongLines (2 * Q) s.predictor s.band run.now (slice_index_or lines.now (from + b) no_long_lines) }
    ensures { (k : ℕ) (b : PredictorState) → slice_get bands.now k ≡ Some b
        → IsLongPredicted Q k b run.now (slice_index_or lines.now (from + k) no_long_lines).sums room.new.weights room.new.parts }
{
    run.prove_is_row();
    fill_weights::<Q>(bands, &mut room.weights);
    fill_rows::<Q>(lines, from, &mut room.components);
    fill_own(lines, from, &mut room.own);
    let band = &bands[0];
    follow_band::<Q>(
        band,
        run,
        &room.components,
        &room.own,
        &mut room.weights,
        &mut room.turned,
    );
    turn_four_back(&room.turned, &mut room.parts);
}

/// Advances each of one to four bands by a piece whose differences are predicted.
fn finish_lanes<const Q: usize>(
    bands: &mut [Band],
    run: &Run,
    lines: &[LongLines; 8],
    from: usize,
    room: &FourRoom,
)
    requires pairs { Q ≤ 9 }
    requires few { (1 ≤ length bands.old) × (length bands.old ≤ 4) }
    requires ready { AreLongReady Q bands.old run.now }
    requires from { from + 4 ≤ 8 }
    requires predicted { (k : ℕ) (b : PredictorState) → slice_get bands.old k ≡ Some b
        → IsLongPredicted Q k b run.now (slice_index_or lines.now (from + k) no_long_lines).sums room.now.weights room.now.parts }
    ensures { AllZip (HoldsPiece run.now.image run.now.count) bands.old bands.new }
{
    for k in 0..bands.len() {
        finish_lane::<Q>(bands, k, run, &lines[from + k], room);
    }
}

/// Advances the band of lane `k`.
fn finish_lane<const Q: usize>(
    bands: &mut [Band],
    k: usize,
    run: &Run,
    lines: &LongLines,
    room: &FourRoom,
)
    requires pairs { Q ≤ 9 }
    requires lane { k < 4 }
    requires band { k < length bands.old }
    requires next { IsRunNext (slice_index_or bands.old k no_band) run.now }
    requires run { IsRunOf (slice_index_or bands.old k no_band).band run.now }
    requires enough { length (slice_index_or bands.old k no_band).weights ≤ 2 * Q }
    requires predicted { IsLongPredicted Q k (slice_index_or bands.old k no_band) run.now lines.now.sums room.now.weights room.now.parts }
    ensures held { HoldsPiece run.now.image run.now.count (slice_index_or bands.old k no_band) (slice_index_or bands.new k no_band) }
    ensures others { bands.new ≡ slice_set bands.old k (slice_index_or bands.new k no_band) }
{
    let band = &mut bands[k];
    finish_band::<Q>(band, run, &room.parts[k], &lines.sums, &room.weights, k);
}

/// Advances one to four bands by a piece side by side. Their lines are those from line `from` on.
fn predict_four<const Q: usize>(
    bands: &mut [Band],
    run: &Run,
    lines: &[LongLines; 8],
    from: usize,
    room: &mut FourRoom,
)
    requires pairs { Q ≤ 9 }
    requires few { (1 ≤ length bands.old) × (length bands.old ≤ 4) }
    requires ready { AreLongReady Q bands.old run.now }
    requires from { from + 4 ≤ 8 }
    requires lines { (b : ℕ) (s : PredictorState) → b < 4 → slice_get bands.old (min b (length bands.old - 1)) ≡ Some s
        → AreLongLines (2 * Q) s.predictor s.band run.now (slice_index_or lines.now (from + b) no_long_lines) }
    ensures { AllZip (HoldsPiece run.now.image run.now.count) bands.old bands.new }
{
    predict_lanes::<Q>(bands, run, lines, from, room);
    finish_lanes::<Q>(bands, run, lines, from, room);
}

/// Advances one to eight bands by a piece side by side. `Q` pairs hold the components of each band.
pub(crate) fn predict_side_by_side<const Q: usize>(
    bands: &mut [Band],
    run: &Run,
    room: &mut LongRoom,
)
    requires pairs { Q ≤ 9 }
    requires few { (1 ≤ length bands.old) × (length bands.old ≤ 8) }
    requires ready { AreLongReady Q bands.old run.now }
    ensures { AllZip (HoldsPiece run.now.image run.now.count) bands.old bands.new }
{
    fill_lanes(bands, run, 2 * Q, &mut room.lines);
    let few = bands.len().min(4);
    let (low, high) = bands.split_at_mut(few);
    predict_four::<Q>(low, run, &room.lines, 0, &mut room.four);
    predict_high::<Q>(high, run, &room.lines, &mut room.four);
}

/// `predict_four` for the bands after the fourth, if there are any.
fn predict_high<const Q: usize>(
    bands: &mut [Band],
    run: &Run,
    lines: &[LongLines; 8],
    room: &mut FourRoom,
)
    requires pairs { Q ≤ 9 }
    requires few { length bands.old ≤ 4 }
    requires ready { AreLongReady Q bands.old run.now }
    requires lines { (b : ℕ) (s : PredictorState) → b < 4 → slice_get bands.old (min b (length bands.old - 1)) ≡ Some s
        → AreLongLines (2 * Q) s.predictor s.band run.now (slice_index_or lines.now (4 + b) no_long_lines) }
    ensures { AllZip (HoldsPiece run.now.image run.now.count) bands.old bands.new }
{
    if bands.is_empty() {
        return;
    }
    predict_four::<Q>(bands, run, lines, 4, room);
}
