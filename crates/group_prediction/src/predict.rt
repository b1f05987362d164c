//! Advancing some bands by the same piece of a row, whose mapped residuals each of them holds.

ghost use Rattle.std.specs.Prelude.{◌≡◌, ◌+◌, ◌*◌, ◌≤◌, ℕ, true, false, length};
ghost use Rattle.std.specs.List.{AllZip};
ghost use Rattle.sample_prediction.specs.Predictor.{component_count};
ghost use Rattle.predict_core.specs.Following.{HoldsPiece};
ghost use Rattle.predict_core.specs.BandLanes.{FitsNarrow};
ghost use Rattle.predict_core.specs.ImageRuns.{IsFirstLater};
ghost use Rattle.group_prediction.specs.GroupPieces.{ArePiecesNext};
ghost use Rattle.group_prediction.specs.GroupRooms.{AreReady};
ghost use Rattle.predict_core.specs.Largest.{NeverWraps};
ghost use Rattle.group_prediction.specs.LongRooms.{AreLongReady};

use crate::long::room::LongRoom;
use crate::long::side_by_side::predict_side_by_side as predict_long;
use crate::room::GroupRoom;
use crate::side_by_side::predict_side_by_side;
use predict_core::band::Band;
use predict_core::exact_lanes::{fits_narrow, never_wraps, pairs_of};
use predict_core::run::Run;
use sample_prediction::rows::Rows;

/// The least numbers of bands and of places that are worth the work of going side by side.
const LEAST_BANDS: usize = 4;

const LEAST_PLACES: usize = 16;

/// Advances each of some bands by `count` places of a row; each holds their mapped residuals until its next piece.
///
/// The bands are 1 to 8, all with the same parameters, and `count` is at most 64. All places are in the row of `rows`, and the
/// first of them is the next one of each band, at column `x`. The image has the shape and kind of the parameters.
/// For each band this does what `predict_piece` does (CCSDS 123.0-B-1, "Predictor"). Where no register of the bands can wrap they go
/// side by side, in lanes of 16 bits if these are exact for the parameters and else of 32, and otherwise one after another.
pub fn predict_group(bands: &mut [Band], rows: &Rows, x: u32, count: usize, room: &mut GroupRoom)
    requires few { (1 ≤ length bands.old) × (length bands.old ≤ 8) }
    requires next { ArePiecesNext bands.old rows.now.image rows.now.y x count }
    ensures held { AllZip (HoldsPiece rows.now.image count) bands.old bands.new }
{
    let run = Run::new(rows, x, count);
    if bands.len() >= LEAST_BANDS && count >= LEAST_PLACES && predict_in_lanes(bands, &run, room) {
        return;
    }
    predict_each(bands, rows, x, count);
}

/// Advances the bands side by side, in the shortest lanes that are exact for them, and returns whether there are any. If not, no band
/// is advanced.
fn predict_in_lanes(bands: &mut [Band], run: &Run, room: &mut GroupRoom) -> bool
    requires few { (1 ≤ length bands.old) × (length bands.old ≤ 8) }
    requires some { 1 ≤ run.now.count }
    requires first { IsFirstLater run.now.y run.now.x run.now.first }
    requires next { ArePiecesNext bands.old run.now.image run.now.y run.now.x run.now.count }
    ensures held { result ≡ true → AllZip (HoldsPiece run.now.image run.now.count) bands.old bands.new }
    ensures kept { result ≡ false → bands.new ≡ bands.old }
{
    let (narrow, pairs) = lanes_of(&bands[0]);
    if narrow && predict_by(bands, run, pairs, room) {
        return true;
    }
    predict_in_long_lanes(bands, run, room)
}

/// Advances the bands side by side in lanes of 32 bits, and returns whether these are exact for them. If not, no band is advanced.
fn predict_in_long_lanes(bands: &mut [Band], run: &Run, room: &mut GroupRoom) -> bool
    requires few { (1 ≤ length bands.old) × (length bands.old ≤ 8) }
    requires some { 1 ≤ run.now.count }
    requires first { IsFirstLater run.now.y run.now.x run.now.first }
    requires next { ArePiecesNext bands.old run.now.image run.now.y run.now.x run.now.count }
    ensures held { result ≡ true → AllZip (HoldsPiece run.now.image run.now.count) bands.old bands.new }
    ensures kept { result ≡ false → bands.new ≡ bands.old }
{
    let (long, pairs) = long_lanes_of(&bands[0]);
    if !long {
        return false;
    }
    predict_by_long(bands, run, pairs, &mut room.long);
    true
}

/// Advances the bands one after another.
fn predict_each(bands: &mut [Band], rows: &Rows, x: u32, count: usize)
    requires next { ArePiecesNext bands.old rows.now.image rows.now.y x count }
    ensures held { AllZip (HoldsPiece rows.now.image count) bands.old bands.new }
{
    for k in 0..bands.len() {
        let band = &mut bands[k];
        band.predict_piece(rows, x, count);
    }
}

/// Returns whether lanes of 16 bits are exact for a band's parameters, and how many pairs hold the components.
fn lanes_of(band: &Band) -> (bool, usize)
    ensures narrow { result.0 ≡ true → FitsNarrow band.now.predictor band.now.kind.bits }
    ensures wide { band.now.predictor.column ≡ false → 2 ≤ band.now.shape.columns }
    ensures few { result.1 ≤ 9 }
    ensures enough { (z : ℕ) → component_count band.now.predictor z ≤ 2 * result.1 }
{
    (fits_narrow(&band.settings), pairs_of(&band.settings))
}

/// Returns whether lanes of 32 bits are exact for a band's parameters, and how many pairs hold the components.
fn long_lanes_of(band: &Band) -> (bool, usize)
    ensures register { result.0 ≡ true → (z : ℕ) → NeverWraps band.now.predictor band.now.kind.bits (component_count band.now.predictor z) }
    ensures wide { band.now.predictor.column ≡ false → 2 ≤ band.now.shape.columns }
    ensures few { result.1 ≤ 9 }
    ensures enough { (z : ℕ) → component_count band.now.predictor z ≤ 2 * result.1 }
{
    (never_wraps(&band.settings), pairs_of(&band.settings))
}

/// Advances the bands side by side, by the form for a number of pairs, and returns whether 16 bits hold their weights. If not, no
/// band is advanced.
#[tactic(auto, using(crate::proofs::GroupFilled::ready_more))]
fn predict_by(bands: &mut [Band], run: &Run, pairs: usize, room: &mut GroupRoom) -> bool
    requires pairs { pairs ≤ 9 }
    requires few { (1 ≤ length bands.old) × (length bands.old ≤ 8) }
    requires ready { AreReady pairs bands.old run.now }
    ensures held { result ≡ true → AllZip (HoldsPiece run.now.image run.now.count) bands.old bands.new }
    ensures kept { result ≡ false → bands.new ≡ bands.old }
{
    if is_deep(&bands[0]) {
        return predict_deep(bands, run, pairs, room);
    }
    match pairs {
        0 | 1 => predict_side_by_side::<1, false>(bands, run, room),
        2 => predict_side_by_side::<2, false>(bands, run, room),
        3 => predict_side_by_side::<3, false>(bands, run, room),
        4 => predict_side_by_side::<4, false>(bands, run, room),
        5 => predict_side_by_side::<5, false>(bands, run, room),
        6 => predict_side_by_side::<6, false>(bands, run, room),
        7 => predict_side_by_side::<7, false>(bands, run, room),
        8 => predict_side_by_side::<8, false>(bands, run, room),
        _ => predict_side_by_side::<9, false>(bands, run, room),
    }
}

/// Returns whether a band's samples have more than 12 bits.
fn is_deep(band: &Band) -> bool
    ensures { result ≡ false → band.now.kind.bits ≤ 12 }
{
    band.settings.range.bits > 12
}

/// `predict_by` for samples of 13 bits, in two forms alone: for the usual numbers of components, and for all.
#[tactic(auto, using(crate::proofs::GroupFilled::ready_more))]
fn predict_deep(bands: &mut [Band], run: &Run, pairs: usize, room: &mut GroupRoom) -> bool
    requires pairs { pairs ≤ 9 }
    requires few { (1 ≤ length bands.old) × (length bands.old ≤ 8) }
    requires ready { AreReady pairs bands.old run.now }
    ensures held { result ≡ true → AllZip (HoldsPiece run.now.image run.now.count) bands.old bands.new }
    ensures kept { result ≡ false → bands.new ≡ bands.old }
{
    if pairs <= 3 {
        predict_side_by_side::<3, true>(bands, run, room)
    } else {
        predict_side_by_side::<9, true>(bands, run, room)
    }
}

/// Advances the bands side by side in lanes of 32 bits, by the form for a number of pairs.
#[tactic(auto, using(crate::proofs::LongLanes::long_ready_more))]
fn predict_by_long(bands: &mut [Band], run: &Run, pairs: usize, room: &mut LongRoom)
    requires pairs { pairs ≤ 9 }
    requires few { (1 ≤ length bands.old) × (length bands.old ≤ 8) }
    requires ready { AreLongReady pairs bands.old run.now }
    ensures { AllZip (HoldsPiece run.now.image run.now.count) bands.old bands.new }
{
    match pairs {
        0 | 1 => predict_long::<1>(bands, run, room),
        2 => predict_long::<2>(bands, run, room),
        3 => predict_long::<3>(bands, run, room),
        4 => predict_long::<4>(bands, run, room),
        5 => predict_long::<5>(bands, run, room),
        6 => predict_long::<6>(bands, run, room),
        7 => predict_long::<7>(bands, run, room),
        8 => predict_long::<8>(bands, run, room),
        _ => predict_long::<9>(bands, run, room),
    }
}
