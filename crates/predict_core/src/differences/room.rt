//! The local sums and differences of a run, which depend on the samples alone and are computed before its weights are known.
//!
//! The components of a place are in quads of four, each written by one loop over all places.

ghost use Rattle.std.specs.Prelude.{◌≡◌, ◌+◌, ◌-◌, ◌<◌, ◌≤◌, ◌||◌, ◌==◌, ℕ, ℤ, [], ◌∷◌, ◌++◌, slice_index_or, pos};
ghost use Rattle.sample_prediction.specs.Differences.{directional_differences};
ghost use Rattle.sample_prediction.specs.Lines.{line_sum, line_difference, AreBandLines};
ghost use Rattle.predict_core.specs.ImageRuns.{IsRunOf};
ghost use Rattle.predict_core.specs.Rooms.{IsRoom, components_at, quads_of, lower_differences};

use crate::differences::below::{fill_below, fill_spectral};
use crate::differences::fills::{fill_directions, fill_four, fill_own};
use crate::differences::lines::{Lines, fill_run_lines, is_column};
use crate::run::{PIECE, Run};
use crate::settings::Settings;

/// Four components at each place of a run.
#[derive(Clone, Copy)]
pub(crate) struct Quad {
    pub places: [[i32; 4]; PIECE],
}

/// Writes the local sums of offsets, the central differences and the components of a run.
///
/// Component k of a place is in quad k / 4, in lane k % 4; there are as many quads as are needed, or more. For
/// the first place of a band nothing useful is written (CCSDS 123.0-B-1, "Local Sums", "Local Differences").
pub(crate) fn fill_run<const Q: usize>(
    settings: &Settings,
    run: &Run,
    sums: &mut [i32; PIECE],
    own: &mut [i32; PIECE],
    quads: &mut [Quad; Q],
)
    requires run { IsRunOf settings.now.band run.now }
    requires columns { run.now.image.shape.columns ≡ settings.now.columns }
    requires enough { quads_of settings.now.count ≤ Q }
    ensures { IsRoom settings.now.predictor run.now.image settings.now.band run.now.y run.now.x run.now.count settings.now.count sums.new own.new quads.new }
{
    run.prove_is_row();
    let mut lines = Lines::empty();
    fill_run_lines(&settings.predictor, run, settings.band, &mut lines);
    if settings.predictor.reduced {
        let column = is_column(settings.predictor.column, run.y());
        fill_own(column, &lines, sums, own);
        fill_spectral::<Q>(settings, run, 0, 1, quads);
    } else {
        let first = &mut quads[0];
        fill_first(settings, run, &lines, sums, own, first);
        fill_spectral::<Q>(settings, run, 1, 2, quads);
    }
}

/// Writes the sums, the central differences and the first quad in full mode: the three directions, and the
/// band below.
fn fill_first(
    settings: &Settings,
    run: &Run,
    lines: &Lines,
    sums: &mut [i32; PIECE],
    own: &mut [i32; PIECE],
    quad: &mut Quad,
)
    requires run { IsRunOf settings.now.band run.now }
    requires columns { run.now.image.shape.columns ≡ settings.now.columns }
    requires lines { AreBandLines settings.now.predictor run.now.image settings.now.band run.now.y run.now.x run.now.count lines.now.current lines.now.above }
    ensures sums { (i : ℕ) → i < PIECE
        → slice_index_or sums.new i (pos 0) ≡ pos (line_sum (settings.now.predictor.column || run.now.y == 0) lines.now.current lines.now.above i) }
    ensures own { (i : ℕ) → i < PIECE → slice_index_or own.new i (pos 0) ≡ line_difference (settings.now.predictor.column || run.now.y == 0) lines.now.current
        lines.now.above i }
    ensures quad { (i : ℕ) → i < run.now.count → 0 < run.now.y + (run.now.x + i) → slice_index_or quad.new.places i [] ≡ directional_differences settings.now.predictor run.now.image
        settings.now.band run.now.y (run.now.x + i) ++ lower_differences settings.now.predictor run.now.image settings.now.band run.now.y (run.now.x + i) 1 1 }
{
    let mut below = Lines::empty();
    fill_below(settings, run, 1, &mut below);
    if run.y() == 0 {
        let none = Lines::empty();
        fill_own(true, lines, sums, own);
        fill_four(true, &none, &none, &none, &below, &mut quad.places);
        return;
    }
    fill_directions(
        settings.predictor.column,
        lines,
        &below,
        sums,
        own,
        &mut quad.places,
    );
    if run.x() == 0 {
        repeat_north(&mut quad.places);
    }
}

/// Replaces the other two directional differences of the first place by the northern one.
fn repeat_north(out: &mut [[i32; 4]; PIECE])
    ensures first { (north west north_west below : ℤ) → slice_index_or out.old 0 [] ≡ north ∷ west ∷ north_west ∷ below ∷ []
        → slice_index_or out.new 0 [] ≡ north ∷ north ∷ north ∷ below ∷ [] }
    ensures others { (k : ℕ) → 0 < k → slice_index_or out.new k [] ≡ slice_index_or out.old k [] }
{
    let first = out[0];
    out[0] = [first[0], first[0], first[0], first[3]];
}
