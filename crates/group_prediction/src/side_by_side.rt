//! Bands that advance over the same piece side by side, each in a lane of the vectors.

ghost use Rattle.std.specs.Prelude.{◌≡◌, ◌+◌, ◌-◌, ◌*◌, ◌^◌, ◌<◌, ◌≤◌, ℕ, true, false, length, slice_get, slice_set, slice_index_or, Some};
ghost use Rattle.std.specs.List.{AllZip};
ghost use Rattle.cube_core.specs.Image.{Image};
ghost use Rattle.band_lanes.specs.Rows.{numbers_of, weights_of, AreBelow};
ghost use Rattle.sample_prediction.specs.Bounds.{AllWithin};
ghost use Rattle.predict_core.specs.declared.settings.Settings.{Settings as Constants};
ghost use Rattle.predict_core.specs.Following.{PredictorState, HoldsPiece};
ghost use Rattle.predict_core.specs.ImageRuns.{IsRunOf};
ghost use Rattle.group_prediction.specs.GroupPieces.{IsRunNext};
ghost use Rattle.group_prediction.specs.GroupLanes.{IsLane};
ghost use Rattle.predict_core.specs.BandLanes.{FitsNarrow};
ghost use Rattle.group_prediction.specs.GroupRooms.{AreReady, IsPredicted};
ghost use Rattle.predict_core.specs.Following.{no_band};
ghost use Rattle.predict_core.specs.RunChains.{IsFollowed};

use crate::fill::fill_lanes;
use crate::finish::finish_band;
use crate::pairs::{fill_own_rows, fill_pairs};
use crate::room::GroupRoom;
use crate::steps::follow_piece;
use band_lanes::pairs::{MOST_PAIRS, Pairs};
use lanes::turn::turn_back;
use predict_core::band::Band;
use predict_core::lane_weights::fill_weights;
use predict_core::run::{PIECE, Run};

/// `follow_piece` with the constants of a band's predictor.
fn follow_band<const Q: usize, const DEEP: bool>(
    band: &Band,
    run: &Run,
    pairs: &[Pairs; MOST_PAIRS],
    own: &[[i16; 8]; PIECE],
    weights: &mut [[i16; 16]; MOST_PAIRS],
    parts: &mut [[i16; 8]; PIECE],
)
    requires few { Q ≤ 9 }
    requires run { IsRunOf band.now.band run.now }
    requires next { IsRunNext band.now run.now }
    requires narrow { FitsNarrow band.now.predictor band.now.kind.bits }
    requires shallow { DEEP ≡ false → band.now.kind.bits ≤ 12 }
    requires below { (i : ℕ) → run.now.first ≤ i → i < run.now.count → AreBelow (2 ^ (band.now.kind.bits + 2)) Q pairs.now i }
    requires weights_in { (b : ℕ) → b < 8 → AllWithin (2 ^ (band.now.predictor.omega + 2)) (weights_of Q b weights.old) }
    ensures weights_in { (b : ℕ) → b < 8 → AllWithin (2 ^ (band.now.predictor.omega + 2)) (weights_of Q b weights.new) }
    ensures followed { (b : ℕ) (s : Constants) (c : Image) → b < 8 → IsLane Q b s c run.now.y run.now.x run.now.count own.now pairs.now → s.predictor ≡ band.now.predictor
        → s.range.kind ≡ band.now.kind → s.columns ≡ band.now.shape.columns
        → IsFollowed s c run.now.y run.now.x run.now.first (weights_of Q b weights.old) run.now.first (weights_of Q b weights.old) (numbers_of b parts.old)
        → IsFollowed s c run.now.y run.now.x run.now.first (weights_of Q b weights.old) run.now.count (weights_of Q b weights.new) (numbers_of b parts.new) }
{
    follow_piece::<Q, DEEP>(&band.settings, run, pairs, own, weights, parts);
}

/// Predicts the differences of a piece of some bands, and returns whether 16 bits hold their weights. If not, nothing is predicted.
fn predict_lanes<const Q: usize, const DEEP: bool>(
    bands: &[Band],
    run: &Run,
    room: &mut GroupRoom,
) -> bool
    requires pairs { Q ≤ 9 }
    requires few { (1 ≤ length bands.now) × (length bands.now ≤ 8) }
    requires ready { AreReady Q bands.now run.now }
    requires shallow { DEEP ≡ false → run.now.image.kind.bits ≤ 12 }
    ensures { result ≡ true → (k : ℕ) (b : PredictorState) → slice_get bands.now k ≡ Some b
        → IsPredicted Q k b run.now room.new.bands room.new.weights room.new.parts }
{
    run.prove_is_row();
    if !fill_weights::<Q>(bands, &mut room.weights) {
        return false;
    }
    fill_lanes(bands, run, 2 * Q, &mut room.bands);
    fill_pairs::<Q>(&room.bands, &mut room.scratch, &mut room.pairs);
    fill_own_rows(&room.bands, &mut room.parts, &mut room.own);
    let band = &bands[0];
    follow_band::<Q, DEEP>(
        band,
        run,
        &room.pairs,
        &room.own,
        &mut room.weights,
        &mut room.rows,
    );
    turn_back(&room.rows, &mut room.parts);
    true
}

/// Advances each band by a piece whose differences are predicted.
fn finish_lanes<const Q: usize>(bands: &mut [Band], run: &Run, room: &GroupRoom)
    requires pairs { Q ≤ 9 }
    requires few { (1 ≤ length bands.old) × (length bands.old ≤ 8) }
    requires ready { AreReady Q bands.old run.now }
    requires predicted { (k : ℕ) (b : PredictorState) → slice_get bands.old k ≡ Some b
        → IsPredicted Q k b run.now room.now.bands room.now.weights room.now.parts }
    ensures { AllZip (HoldsPiece run.now.image run.now.count) bands.old bands.new }
{
    for k in 0..bands.len() {
        finish_lane::<Q>(bands, k, run, room);
    }
}

/// Advances the band of lane `k`.
fn finish_lane<const Q: usize>(bands: &mut [Band], k: usize, run: &Run, room: &GroupRoom)
    requires pairs { Q ≤ 9 }
    requires lane { k < 8 }
    requires band { k < length bands.old }
    requires next { IsRunNext (slice_index_or bands.old k no_band) run.now }
    requires run { IsRunOf (slice_index_or bands.old k no_band).band run.now }
    requires bits { run.now.image.kind.bits ≤ 13 }
    requires enough { length (slice_index_or bands.old k no_band).weights ≤ 2 * Q }
    requires predicted { IsPredicted Q k (slice_index_or bands.old k no_band) run.now room.now.bands room.now.weights room.now.parts }
    ensures held { HoldsPiece run.now.image run.now.count (slice_index_or bands.old k no_band) (slice_index_or bands.new k no_band) }
    ensures others { bands.new ≡ slice_set bands.old k (slice_index_or bands.new k no_band) }
{
    let band = &mut bands[k];
    finish_band::<Q>(
        band,
        run,
        &room.parts[k],
        &room.bands[k].sums,
        &room.weights,
        k,
    );
}

/// Advances some bands by a piece side by side, and returns whether 16 bits hold their weights. If not, no band is advanced.
///
/// `Q` pairs hold the components of each band.
pub(crate) fn predict_side_by_side<const Q: usize, const DEEP: bool>(
    bands: &mut [Band],
    run: &Run,
    room: &mut GroupRoom,
) -> bool
    requires pairs { Q ≤ 9 }
    requires few { (1 ≤ length bands.old) × (length bands.old ≤ 8) }
    requires ready { AreReady Q bands.old run.now }
    requires shallow { DEEP ≡ false → run.now.image.kind.bits ≤ 12 }
    ensures held { result ≡ true → AllZip (HoldsPiece run.now.image run.now.count) bands.old bands.new }
    ensures kept { result ≡ false → bands.new ≡ bands.old }
{
    if !predict_lanes::<Q, DEEP>(bands, run, room) {
        return false;
    }
    finish_lanes::<Q>(bands, run, room);
    true
}
