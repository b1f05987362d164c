//! What the samples tell of a piece of one band, in lines of 16 bits.

ghost use Rattle.std.specs.Prelude.{◌≡◌, ◌≢◌, ◌+◌, ◌-◌, ◌<◌, ◌≤◌, ◌||◌, ◌==◌, ℕ, false, pos, length, slice_index_or};
ghost use Rattle.lanes.specs.Lanes.{place};
ghost use Rattle.sample_prediction.specs.Lines.{line_sum, AreBandLines};
ghost use Rattle.predict_core.specs.ImageRuns.{IsRunOf};
ghost use Rattle.predict_core.specs.Rooms.{lower_difference};
ghost use Rattle.group_prediction.specs.GroupLines.{spectral_from, HoldsCentral, HoldCentrals, HoldsSums, HoldsComponents, AreBandsLines};

use crate::directions::fill_directions;
use crate::lines::{fill_differences, fill_sums};
use predict_core::band::first_spectral;
use predict_core::differences::lines::{Lines, clear_line, fill_run_lines, is_column};
use predict_core::run::{PIECE, Run};
use predict_core::settings::Settings;
use sample_prediction::predictor::{MOST_COMPONENTS, Predictor};

/// What the samples tell of the places of a piece of one band: the local sums of offsets, the central differences, and the
/// components of the difference vectors, a line for each component.
#[derive(Clone, Copy)]
pub(crate) struct BandLines {
    pub band: u32,
    pub sums: [i16; PIECE],
    pub own: [i16; PIECE],
    pub components: [[i16; PIECE]; MOST_COMPONENTS],
}

/// Writes the offsets, the local sums of offsets and the central differences of a run of band `z`
/// (CCSDS 123.0-B-1, "Local Sums", "Local Differences").
pub(crate) fn fill_central(
    predictor: &Predictor,
    run: &Run,
    z: u32,
    sums: &mut [i16; PIECE],
    own: &mut [i16; PIECE],
) -> Lines
    requires run { IsRunOf z run.now }
    requires bits { run.now.image.kind.bits ≤ 13 }
    requires wide { predictor.now.column ≡ false → 2 ≤ run.now.image.shape.columns }
    ensures lines { AreBandLines predictor.now run.now.image z run.now.y run.now.x run.now.count result.current result.above }
    ensures sums { (i : ℕ) → i < run.now.count → 0 < run.now.y + (run.now.x + i) → slice_index_or sums.new i (pos 0) ≡ pos (line_sum (predictor.now.column || run.now.y == 0)
        result.current result.above i) }
    ensures sums_are { HoldsSums predictor.now z run.now sums.new }
    ensures own_are { HoldsCentral predictor.now z run.now own.new }
{
    run.prove_is_row();
    let mut lines = Lines::empty();
    fill_run_lines(predictor, run, z, &mut lines);
    fill_sums(is_column(predictor.column, run.y()), &lines, sums);
    fill_differences(&lines.current[1..PIECE + 1], sums, own);
    lines
}

/// Writes the central differences of the band that is `below` bands below, or zeros if that band isn't used.
///
/// `before` are lines of other bands, whose central differences are copied where the last of them has that band.
fn fill_lower(
    settings: &Settings,
    run: &Run,
    below: usize,
    before: &[BandLines],
    out: &mut [i16; PIECE],
)
    requires run { IsRunOf settings.now.band run.now }
    requires columns { run.now.image.shape.columns ≡ settings.now.columns }
    requires bits { run.now.image.kind.bits ≤ 13 }
    requires below_in { 1 ≤ below }
    requires before { HoldCentrals settings.now.predictor run.now before.now }
    ensures { (i : ℕ) → i < run.now.count → 0 < run.now.y + (run.now.x + i) → slice_index_or out.new i (pos 0) ≡ lower_difference settings.now.predictor run.now.image settings.now.band run.now.y
        (run.now.x + i) below }
{
    if below > settings.near {
        clear_line(out);
        return;
    }
    let z = settings.band - below as u32;
    if below <= before.len() {
        let lines = &before[before.len() - below];
        if lines.band == z {
            copy_line(&lines.own, out);
            return;
        }
    }
    let mut sums = [0; PIECE];
    fill_central(&settings.predictor, run, z, &mut sums, out);
}

/// Writes the central differences of the previous bands into the lines of components that follow the directional ones, up to line `n`.
fn fill_spectral(
    settings: &Settings,
    run: &Run,
    before: &[BandLines],
    n: usize,
    components: &mut [[i16; PIECE]; MOST_COMPONENTS],
)
    requires run { IsRunOf settings.now.band run.now }
    requires columns { run.now.image.shape.columns ≡ settings.now.columns }
    requires bits { run.now.image.kind.bits ≤ 13 }
    requires lines { n ≤ 18 }
    requires before { HoldCentrals settings.now.predictor run.now before.now }
    ensures spectral { (i k : ℕ) → i < run.now.count → 0 < run.now.y + (run.now.x + i) → spectral_from settings.now.predictor ≤ k → k < n → place components.new k i
        ≡ lower_difference settings.now.predictor run.now.image settings.now.band run.now.y (run.now.x + i) (k - spectral_from settings.now.predictor + 1) }
    ensures others { (k i : ℕ) → k < spectral_from settings.now.predictor → place components.new k i ≡ place components.old k i }
{
    for k in first_spectral(settings.predictor.reduced)..n {
        fill_spectral_line(settings, run, before, k, components);
    }
}

/// Writes the central differences of the previous band whose component is number `k`.
fn fill_spectral_line(
    settings: &Settings,
    run: &Run,
    before: &[BandLines],
    k: usize,
    components: &mut [[i16; PIECE]; MOST_COMPONENTS],
)
    requires run { IsRunOf settings.now.band run.now }
    requires columns { run.now.image.shape.columns ≡ settings.now.columns }
    requires bits { run.now.image.kind.bits ≤ 13 }
    requires line { (spectral_from settings.now.predictor ≤ k) × (k < 18) }
    requires before { HoldCentrals settings.now.predictor run.now before.now }
    ensures spectral { (i : ℕ) → i < run.now.count → 0 < run.now.y + (run.now.x + i) → place components.new k i ≡ lower_difference settings.now.predictor run.now.image
        settings.now.band run.now.y (run.now.x + i) (k - spectral_from settings.now.predictor + 1) }
    ensures others { (j i : ℕ) → j ≢ k → place components.new j i ≡ place components.old j i }
{
    let below = k - first_spectral(settings.predictor.reduced) + 1;
    fill_lower(settings, run, below, before, &mut components[k]);
}

/// Writes what the samples tell of a run of a band, with `n` lines of components.
///
/// `before` are the lines of other bands there, whose central differences are used again. For the first place of a band
/// nothing useful is written (CCSDS 123.0-B-1, "Local Sums", "Local Differences").
pub(crate) fn fill_band(
    settings: &Settings,
    run: &Run,
    before: &[BandLines],
    n: usize,
    out: &mut BandLines,
)
    requires run { IsRunOf settings.now.band run.now }
    requires columns { run.now.image.shape.columns ≡ settings.now.columns }
    requires bits { run.now.image.kind.bits ≤ 13 }
    requires lines { n ≤ 18 }
    requires before { HoldCentrals settings.now.predictor run.now before.now }
    ensures { AreBandsLines n settings.now.predictor settings.now.band run.now out.new }
{
    out.band = settings.band;
    let lines = fill_central(
        &settings.predictor,
        run,
        settings.band,
        &mut out.sums,
        &mut out.own,
    );
    fill_components(settings, run, before, n, &lines, out);
}

/// Writes the components of a band whose local sums are written.
fn fill_components(
    settings: &Settings,
    run: &Run,
    before: &[BandLines],
    n: usize,
    lines: &Lines,
    out: &mut BandLines,
)
    requires run { IsRunOf settings.now.band run.now }
    requires columns { run.now.image.shape.columns ≡ settings.now.columns }
    requires bits { run.now.image.kind.bits ≤ 13 }
    requires n_in { n ≤ 18 }
    requires before { HoldCentrals settings.now.predictor run.now before.now }
    requires lines { AreBandLines settings.now.predictor run.now.image settings.now.band run.now.y run.now.x run.now.count lines.now.current lines.now.above }
    requires sums { (i : ℕ) → i < run.now.count → 0 < run.now.y + (run.now.x + i) → slice_index_or out.old.sums i (pos 0) ≡ pos (line_sum (settings.now.predictor.column || run.now.y == 0)
        lines.now.current lines.now.above i) }
    ensures components { HoldsComponents n settings.now.predictor settings.now.band run.now out.new.components }
    ensures band { out.new.band ≡ out.old.band }
    ensures sums { out.new.sums ≡ out.old.sums }
    ensures own { out.new.own ≡ out.old.own }
{
    if !settings.predictor.reduced {
        fill_directions(settings, run, lines, &out.sums, &mut out.components);
    }
    fill_spectral(settings, run, before, n, &mut out.components);
}

/// Writes the numbers of another line.
pub(crate) fn copy_line(from: &[i16; PIECE], line: &mut [i16; PIECE])
    ensures { line.new ≡ from.now }
{
    line.copy_from_slice(from);
}
