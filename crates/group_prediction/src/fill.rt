//! What the samples tell of a piece of eight bands, first in lines of each band, then in rows of all.

ghost use Rattle.std.specs.Prelude.{◌≡◌, ◌-◌, ◌<◌, ◌≤◌, ℕ, min, length, slice_get, slice_index_or, Some};
ghost use Rattle.predict_core.specs.Following.{PredictorState};
ghost use Rattle.predict_core.specs.ImageRuns.{IsFirstLater, IsRunOf};
ghost use Rattle.group_prediction.specs.GroupPieces.{IsRunNext};
ghost use Rattle.group_prediction.specs.GroupLines.{AreBandsLines, AreAlike, HoldCentrals, no_lines};

use crate::band_lines::{BandLines, fill_band};
use predict_core::band::Band;
use predict_core::run::Run;

/// Writes the lines of a run of a band, with `n` lines of components.
pub(crate) fn fill_lane(band: &Band, run: &Run, before: &[BandLines], n: usize, out: &mut BandLines)
    requires next { IsRunNext band.now run.now }
    requires run { IsRunOf band.now.band run.now }
    requires bits { run.now.image.kind.bits ≤ 13 }
    requires lines { n ≤ 18 }
    requires before { HoldCentrals band.now.predictor run.now before.now }
    ensures { AreBandsLines n band.now.predictor band.now.band run.now out.new }
{
    fill_band(&band.settings, run, before, n, out);
}

/// Writes the lines of a run of one to eight bands, with `n` lines of components. In the lanes after the last band are its
/// lines again.
pub(crate) fn fill_lanes(bands: &[Band], run: &Run, n: usize, out: &mut [BandLines; 8])
    requires some_bands { (1 ≤ length bands.now) × (length bands.now ≤ 8) }
    requires next { (i : ℕ) (b : PredictorState) → slice_get bands.now i ≡ Some b → IsRunNext b run.now }
    requires alike { AreAlike bands.now }
    requires bits { run.now.image.kind.bits ≤ 13 }
    requires some { 1 ≤ run.now.count }
    requires first { IsFirstLater run.now.y run.now.x run.now.first }
    requires lines { n ≤ 18 }
    ensures { (i : ℕ) (b : PredictorState) → i < 8 → slice_get bands.now (min i (length bands.now - 1)) ≡ Some b
        → AreBandsLines n b.predictor b.band run.now (slice_index_or out.new i no_lines) }
{
    for i in 0..bands.len() {
        let band = &bands[i];
        let (before, rest) = out.split_at_mut(i);
        fill_lane(band, run, before, n, &mut rest[0]);
    }
    repeat_last(bands.len(), out);
}

/// Copies the lines of the last of `many` bands into the lanes after it.
fn repeat_last(many: usize, out: &mut [BandLines; 8])
    requires { (1 ≤ many) × (many ≤ 8) }
    ensures { (i : ℕ) → i < 8 → slice_index_or out.new i no_lines ≡ slice_index_or out.old (min i (many - 1)) no_lines }
{
    for i in many..8usize {
        let last = out[many - 1];
        out[i] = last;
    }
}
