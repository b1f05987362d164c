//! What a band holds after a piece that it went in a lane of the vectors.

ghost use Rattle.std.specs.Prelude.{◌≡◌, ◌+◌, ◌*◌, ◌^◌, ◌<◌, ◌≤◌, ℕ, ℤ, List, take, length, slice_index_or};
ghost use Rattle.header_bits.specs.declared.params.Params.{Params as Parameters};
ghost use Rattle.band_lanes.specs.Rows.{weights_of};
ghost use Rattle.sample_prediction.specs.Bounds.{AllWithin};
ghost use Rattle.sample_prediction.specs.Chain.{AreWeightsAt};
ghost use Rattle.sample_prediction.specs.Residual.{run_residuals};
ghost use Rattle.predict_core.specs.declared.settings.Settings.{Settings as Constants};
ghost use Rattle.predict_core.specs.Following.{HoldsPiece};
ghost use Rattle.predict_core.specs.ImageRuns.{IsRunOf};
ghost use Rattle.group_prediction.specs.GroupLines.{HoldsSums};
ghost use Rattle.group_prediction.specs.GroupPieces.{IsRunNext};
ghost use Rattle.group_prediction.specs.GroupRooms.{AreConstants};
ghost use Rattle.predict_core.specs.RunChains.{IsFollowed, CanPredict, HasPredicted};

use crate::mapping::map_piece;
use band_lanes::pairs::MOST_PAIRS;
use predict_core::band::{Band, first_residual};
use predict_core::lane_weights::take_weights;
use predict_core::run::{PIECE, Run};
use predict_core::settings::Settings;
use sample_prediction::predictor::MOST_COMPONENTS;

/// Writes the mapped residuals of a run whose differences are predicted.
fn write_piece(
    settings: &Settings,
    run: &Run,
    parts: &[i16; PIECE],
    sums: &[i16; PIECE],
    piece: &mut [u16; PIECE],
)
    requires run { IsRunOf settings.now.band run.now }
    requires kind { run.now.image.kind ≡ settings.now.range.kind }
    requires bits { run.now.image.kind.bits ≤ 13 }
    requires sums { HoldsSums settings.now.predictor settings.now.band run.now sums.now }
    ensures bound { (i : ℕ) → i < run.now.count → slice_index_or piece.new i 0 < 2 ^ run.now.image.kind.bits }
    ensures residuals { (p : Parameters) (begun ws : List ℤ) → AreWeightsAt p settings.now.predictor run.now.image settings.now.band
        (run.now.y * run.now.image.shape.columns + run.now.x) (take settings.now.count begun)
        → IsFollowed settings.now run.now.image run.now.y run.now.x run.now.first begun run.now.count ws parts.now
        → take run.now.count piece.new ≡ run_residuals p run.now.image settings.now.band (run.now.y * run.now.image.shape.columns + run.now.x) run.now.count }
{
    map_piece(settings, run, parts, sums, piece);
    if run.first() == 1 {
        piece[0] = first_residual(settings, run.rows(), run.y(), run.x());
    }
}

/// Returns the mapped residuals of a piece, and takes its weights out of the first `Q` rows.
///
/// `parts` are the band's predicted central differences, and it has lane `b` of the rows.
fn finish_piece<const Q: usize>(
    settings: &Settings,
    run: &Run,
    parts: &[i16; PIECE],
    sums: &[i16; PIECE],
    weight_rows: &[[i16; 16]; MOST_PAIRS],
    b: usize,
    weights: &mut [i32; MOST_COMPONENTS],
) -> [u16; PIECE]
    requires pairs { Q ≤ 9 }
    requires lane { b < 8 }
    requires run { CanPredict settings.now run.now weights.old }
    requires bits { run.now.image.kind.bits ≤ 13 }
    requires enough { settings.now.count ≤ 2 * Q }
    requires sums { HoldsSums settings.now.predictor settings.now.band run.now sums.now }
    requires within { AllWithin (2 ^ (settings.now.predictor.omega + 2)) (weights_of Q b weight_rows.now) }
    ensures predicted { (begun : List ℤ) → take settings.now.count begun ≡ take settings.now.count weights.old
        → IsFollowed settings.now run.now.image run.now.y run.now.x run.now.first begun run.now.count (weights_of Q b weight_rows.now) parts.now
        → HasPredicted settings.now run.now.image run.now.y run.now.x run.now.count weights.old weights.new result }
    ensures within { AllWithin (2 ^ (settings.now.predictor.omega + 2)) weights.new }
{
    let mut piece = [0; PIECE];
    write_piece(settings, run, parts, sums, &mut piece);
    take_weights::<Q>(weight_rows, b, weights);
    piece
}

/// Advances a band by a piece that it went in lane `b`.
pub(crate) fn finish_band<const Q: usize>(
    band: &mut Band,
    run: &Run,
    parts: &[i16; PIECE],
    sums: &[i16; PIECE],
    weight_rows: &[[i16; 16]; MOST_PAIRS],
    b: usize,
)
    requires pairs { Q ≤ 9 }
    requires lane { b < 8 }
    requires next { IsRunNext band.old run.now }
    requires run { IsRunOf band.old.band run.now }
    requires bits { run.now.image.kind.bits ≤ 13 }
    requires enough { length band.old.weights ≤ 2 * Q }
    requires sums { HoldsSums band.old.predictor band.old.band run.now sums.now }
    requires within { AllWithin (2 ^ (band.old.predictor.omega + 2)) (weights_of Q b weight_rows.now) }
    ensures held { (begun : List ℤ) → take (length band.old.weights) begun ≡ band.old.weights
        → ((s : Constants) → AreConstants s band.old run.now.image → IsFollowed s run.now.image run.now.y run.now.x run.now.first begun run.now.count (weights_of Q b weight_rows.now) parts.now)
        → HoldsPiece run.now.image run.now.count band.old band.new }
{
    let settings = &band.settings;
    let mut weights = band.weights;
    let piece = finish_piece::<Q>(settings, run, parts, sums, weight_rows, b, &mut weights);
    band.next += run.count() as u64;
    band.weights = weights;
    band.piece = piece;
}
