//! What the samples tell of a piece of eight bands, in lines of 32 bits.

ghost use Rattle.std.specs.Prelude.{◌≡◌, ◌+◌, ◌-◌, ◌*◌, ◌/◌, ◌<◌, ◌≤◌, ℕ, min, length, slice_get, slice_index_or, Some};
ghost use Rattle.predict_core.specs.Following.{PredictorState};
ghost use Rattle.predict_core.specs.ImageRuns.{IsFirstLater, IsRunOf};
ghost use Rattle.group_prediction.specs.GroupPieces.{IsRunNext};
ghost use Rattle.group_prediction.specs.GroupLines.{AreLongLines, AreAlike, HoldLongCentrals, HoldLongComponents, no_long_lines};

use crate::long::lines::{LongLines, fill_band};
use predict_core::band::Band;
use predict_core::run::Run;

/// Writes the lines of a run of a band, with `n` lines of components.
fn fill_lane(band: &Band, run: &Run, before: &[LongLines], n: usize, out: &mut LongLines)
    requires next { IsRunNext band.now run.now }
    requires run { IsRunOf band.now.band run.now }
    requires lines { n ≤ 18 }
    requires before { HoldLongCentrals band.now.predictor run.now before.now }
    requires lower { HoldLongComponents n band.now.predictor run.now before.now }
    ensures { AreLongLines n band.now.predictor band.now.band run.now out.new }
{
    fill_band(&band.settings, run, before, n, out);
}

/// Writes the lines of a run of one to eight bands, with `n` lines of components. In the lanes after the last band, up to
/// a multiple of four, are its lines again.
pub(crate) fn fill_lanes(bands: &[Band], run: &Run, n: usize, out: &mut [LongLines; 8])
    requires some_bands { (1 ≤ length bands.now) × (length bands.now ≤ 8) }
    requires next { (i : ℕ) (b : PredictorState) → slice_get bands.now i ≡ Some b → IsRunNext b run.now }
    requires alike { AreAlike bands.now }
    requires some { 1 ≤ run.now.count }
    requires first { IsFirstLater run.now.y run.now.x run.now.first }
    requires lines { n ≤ 18 }
    ensures { (i : ℕ) (b : PredictorState) → i < 4 * ((length bands.now + 3) / 4) → slice_get bands.now (min i (length bands.now - 1)) ≡ Some b
        → AreLongLines n b.predictor b.band run.now (slice_index_or out.new i no_long_lines) }
{
    for i in 0..bands.len() {
        let band = &bands[i];
        let (before, rest) = out.split_at_mut(i);
        fill_lane(band, run, before, n, &mut rest[0]);
    }
    repeat_last(bands.len(), 4 * ((bands.len() + 3) / 4), out);
}

/// Copies the lines of the last of `many` bands into the lanes after it, up to lane `end`.
fn repeat_last(many: usize, end: usize, out: &mut [LongLines; 8])
    requires { (1 ≤ many) × (many ≤ end) × (end ≤ 8) }
    ensures { (i : ℕ) → i < end → slice_index_or out.new i no_long_lines ≡ slice_index_or out.old (min i (many - 1)) no_long_lines }
{
    for i in many..end {
        let last = out[many - 1];
        out[i] = last;
    }
}
