//! What a band holds after a piece that it went in a lane of 32 bits.

ghost use Rattle.std.specs.Prelude.{◌≡◌, ◌+◌, ◌*◌, ◌^◌, ◌<◌, ◌≤◌, ℕ, ℤ, pos, unsigned_abs, List, take, length, slice_index_or};
ghost use Rattle.cube_core.specs.Image.{sample_at};
ghost use Rattle.header_bits.specs.declared.params.Params.{Params as Parameters};
ghost use Rattle.band_lanes.specs.Fours.{column_of};
ghost use Rattle.sample_prediction.specs.Bounds.{AllWithin};
ghost use Rattle.sample_prediction.specs.Chain.{AreWeightsAt, scaled_by_difference};
ghost use Rattle.sample_prediction.specs.LocalSum.{local_sum};
ghost use Rattle.sample_prediction.specs.Residual.{run_residuals, mapped};
ghost use Rattle.predict_core.specs.declared.settings.Settings.{Settings as Constants};
ghost use Rattle.predict_core.specs.Following.{HoldsPiece};
ghost use Rattle.predict_core.specs.ImageRuns.{IsRunOf};
ghost use Rattle.group_prediction.specs.GroupLines.{HoldsSums};
ghost use Rattle.group_prediction.specs.GroupPieces.{IsRunNext};
ghost use Rattle.group_prediction.specs.GroupRooms.{AreConstants};
ghost use Rattle.predict_core.specs.RunChains.{IsFollowed, CanPredict, HasPredicted};

use crate::long::weights::take_weights;
use predict_core::band::{Band, first_residual};
use predict_core::mapping::map_run;
use predict_core::run::{PIECE, Run};
use predict_core::settings::Settings;
use sample_prediction::predictor::MOST_COMPONENTS;

/// Writes the mapped residuals of a run; what is written for the first place of a band isn't its residual.
fn map_piece(
    settings: &Settings,
    run: &Run,
    parts: &[i32; PIECE],
    sums: &[i32; PIECE],
    piece: &mut [u16; PIECE],
)
    requires run { IsRunOf settings.now.band run.now }
    requires columns { run.now.image.shape.columns ≡ settings.now.columns }
    requires kind { run.now.image.kind ≡ settings.now.range.kind }
    requires small { (i : ℕ) → i < run.now.count → 0 < run.now.y + (run.now.x + i) → unsigned_abs (slice_index_or parts.now i (pos 0)) ≤ 18 * 2 ^ 20 }
    requires sums { HoldsSums settings.now.predictor settings.now.band run.now sums.now }
    ensures long { length piece.new ≡ PIECE }
    ensures bound { (i : ℕ) → i < run.now.count → slice_index_or piece.new i 0 < 2 ^ run.now.image.kind.bits }
    ensures values { (i : ℕ) → i < run.now.count → 0 < run.now.y + (run.now.x + i)
        → slice_index_or piece.new i 0
        ≡ mapped run.now.image.kind (scaled_by_difference run.now.image.kind (slice_index_or parts.now i (pos 0)) (local_sum settings.now.predictor run.now.image
        settings.now.band run.now.y (run.now.x + i))) (sample_at run.now.image settings.now.band run.now.y (run.now.x + i)) }
{
    run.prove_is_row();
    map_run(settings, run, parts, sums, piece);
}

/// Writes the mapped residuals of a run whose differences are predicted.
fn write_piece(
    settings: &Settings,
    run: &Run,
    parts: &[i32; PIECE],
    sums: &[i32; PIECE],
    piece: &mut [u16; PIECE],
)
    requires run { IsRunOf settings.now.band run.now }
    requires columns { run.now.image.shape.columns ≡ settings.now.columns }
    requires kind { run.now.image.kind ≡ settings.now.range.kind }
    requires small { (i : ℕ) → run.now.first ≤ i → i < run.now.count → unsigned_abs (slice_index_or parts.now i (pos 0)) ≤ 18 * 2 ^ 20 }
    requires sums { HoldsSums settings.now.predictor settings.now.band run.now sums.now }
    ensures bound { (i : ℕ) → i < run.now.count → slice_index_or piece.new i 0 < 2 ^ run.now.image.kind.bits }
    ensures residuals { (p : Parameters) (begun ws : List ℤ) → AreWeightsAt p settings.now.predictor run.now.image settings.now.band
        (run.now.y * run.now.image.shape.columns + run.now.x) (take settings.now.count begun)
        → IsFollowed settings.now run.now.image run.now.y run.now.x run.now.first begun run.now.count ws parts.now
        → take run.now.count piece.new ≡ run_residuals p run.now.image settings.now.band (run.now.y * run.now.image.shape.columns + run.now.x) run.now.count }
{
    map_piece(settings, run, parts, sums, piece);
    if run.first() == 1 {
        piece[0] = first_residual(settings, run.rows(), run.y(), run.x());
    }
}

/// Returns the mapped residuals of a piece, and takes its weights out of the first 2·`Q` rows.
///
/// `parts` are the band's predicted central differences, and it has lane `b` of the rows.
fn finish_piece<const Q: usize>(
    settings: &Settings,
    run: &Run,
    parts: &[i32; PIECE],
    sums: &[i32; PIECE],
    weight_rows: &[[i32; 4]; MOST_COMPONENTS],
    b: usize,
    weights: &mut [i32; MOST_COMPONENTS],
) -> [u16; PIECE]
    requires pairs { Q ≤ 9 }
    requires lane { b < 4 }
    requires run { CanPredict settings.now run.now weights.old }
    requires enough { settings.now.count ≤ 2 * Q }
    requires small { (i : ℕ) → run.now.first ≤ i → i < run.now.count → unsigned_abs (slice_index_or parts.now i (pos 0)) ≤ 18 * 2 ^ 20 }
    requires sums { HoldsSums settings.now.predictor settings.now.band run.now sums.now }
    requires within { AllWithin (2 ^ (settings.now.predictor.omega + 2)) (column_of (2 * Q) b weight_rows.now) }
    ensures predicted { (begun : List ℤ) → take settings.now.count begun ≡ take settings.now.count weights.old
        → IsFollowed settings.now run.now.image run.now.y run.now.x run.now.first begun run.now.count (column_of (2 * Q) b weight_rows.now) parts.now
        → HasPredicted settings.now run.now.image run.now.y run.now.x run.now.count weights.old weights.new result }
    ensures within { AllWithin (2 ^ (settings.now.predictor.omega + 2)) weights.new }
{
    let mut piece = [0; PIECE];
    write_piece(settings, run, parts, sums, &mut piece);
    take_weights::<Q>(weight_rows, b, weights);
    piece
}

/// Advances a band by a piece that it went in lane `b`.
pub(crate) fn finish_band<const Q: usize>(
    band: &mut Band,
    run: &Run,
    parts: &[i32; PIECE],
    sums: &[i32; PIECE],
    weight_rows: &[[i32; 4]; MOST_COMPONENTS],
    b: usize,
)
    requires pairs { Q ≤ 9 }
    requires lane { b < 4 }
    requires next { IsRunNext band.old run.now }
    requires run { IsRunOf band.old.band run.now }
    requires enough { length band.old.weights ≤ 2 * Q }
    requires small { (i : ℕ) → run.now.first ≤ i → i < run.now.count → unsigned_abs (slice_index_or parts.now i (pos 0)) ≤ 18 * 2 ^ 20 }
    requires sums { HoldsSums band.old.predictor band.old.band run.now sums.now }
    requires within { AllWithin (2 ^ (band.old.predictor.omega + 2)) (column_of (2 * Q) b weight_rows.now) }
    ensures held { (begun : List ℤ) → take (length band.old.weights) begun ≡ band.old.weights
        → ((s : Constants) → AreConstants s band.old run.now.image → IsFollowed s run.now.image run.now.y run.now.x run.now.first begun run.now.count (column_of (2 * Q) b weight_rows.now) parts.now)
        → HoldsPiece run.now.image run.now.count band.old band.new }
{
    let settings = &band.settings;
    let mut weights = band.weights;
    let piece = finish_piece::<Q>(settings, run, parts, sums, weight_rows, b, &mut weights);
    band.next += run.count() as u64;
    band.weights = weights;
    band.piece = piece;
}
