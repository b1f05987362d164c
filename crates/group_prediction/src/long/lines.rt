//! What the samples tell of a piece of one band, in lines of 32 bits, which hold it for samples of any depth.

ghost use Rattle.std.specs.Prelude.{◌≡◌, ◌≢◌, ◌+◌, ◌-◌, ◌*◌, ◌<◌, ◌≤◌, ◌||◌, ◌==◌, ℕ, false, pos, length, slice_index_or, if◌then◌else◌, []};
ghost use Rattle.lanes.specs.Lanes.{place};
ghost use Rattle.sample_prediction.specs.Lines.{line_sum, AreBandLines};
ghost use Rattle.predict_core.specs.ImageRuns.{IsRunOf};
ghost use Rattle.predict_core.specs.Rooms.{lower_difference};
ghost use Rattle.group_prediction.specs.GroupLines.{spectral_from, HoldsCentral, HoldLongCentrals, HoldLongComponents, HoldsSums, HoldsComponents, AreLongLines};

use crate::long::directions::{clear_line, fill_directions};
use predict_core::band::first_spectral;
use predict_core::differences::fills::fill_own;
use predict_core::differences::lines::{Lines, fill_run_lines, is_column};
use predict_core::run::{PIECE, Run};
use predict_core::settings::Settings;
use sample_prediction::predictor::{MOST_COMPONENTS, Predictor};

/// What the samples tell of the places of a piece of one band: the local sums of offsets, the central differences, and the
/// components of the difference vectors, a line for each component.
#[derive(Clone, Copy)]
pub(crate) struct LongLines {
    pub band: u32,
    pub sums: [i32; PIECE],
    pub own: [i32; PIECE],
    pub components: [[i32; PIECE]; MOST_COMPONENTS],
}

/// Writes the offsets, the local sums of offsets and the central differences of a run of band `z`
/// (CCSDS 123.0-B-1, "Local Sums", "Local Differences").
pub(crate) fn fill_central(
    predictor: &Predictor,
    run: &Run,
    z: u32,
    sums: &mut [i32; PIECE],
    own: &mut [i32; PIECE],
) -> Lines
    requires run { IsRunOf z run.now }
    requires wide { predictor.now.column ≡ false → 2 ≤ run.now.image.shape.columns }
    ensures lines { AreBandLines predictor.now run.now.image z run.now.y run.now.x run.now.count result.current result.above }
    ensures sums { (i : ℕ) → i < run.now.count → 0 < run.now.y + (run.now.x + i) → slice_index_or sums.new i (pos 0) ≡ pos (line_sum (predictor.now.column || run.now.y == 0)
        result.current result.above i) }
    ensures sums_are { HoldsSums predictor.now z run.now sums.new }
    ensures own_are { HoldsCentral predictor.now z run.now own.new }
{
    run.prove_is_row();
    let mut lines = Lines::empty();
    fill_run_lines(predictor, run, z, &mut lines);
    fill_own(is_column(predictor.column, run.y()), &lines, sums, own);
    lines
}

/// Writes the central differences of the band that is `below` bands below, or zeros if that band isn't used.
///
/// `before` are lines of other bands, with `n` components. If the last of them are those of the next lower band, these have the
/// differences already.
fn fill_lower(
    settings: &Settings,
    run: &Run,
    below: usize,
    before: &[LongLines],
    out: &mut [i32; PIECE],
)
    requires run { IsRunOf settings.now.band run.now }
    requires columns { run.now.image.shape.columns ≡ settings.now.columns }
    requires below_in { 1 ≤ below }
    requires before { HoldLongCentrals settings.now.predictor run.now before.now }
    requires components { HoldLongComponents (spectral_from settings.now.predictor + below) settings.now.predictor run.now before.now }
    ensures { (i : ℕ) → i < run.now.count → 0 < run.now.y + (run.now.x + i) → slice_index_or out.new i (pos 0) ≡ lower_difference settings.now.predictor run.now.image settings.now.band run.now.y
        (run.now.x + i) below }
{
    if below > settings.near {
        clear_line(out);
        return;
    }
    if !before.is_empty() {
        let lines = &before[before.len() - 1];
        if lines.band == settings.band - 1 {
            copy_lower(settings.predictor.reduced, below, lines, out);
            return;
        }
    }
    let z = settings.band - below as u32;
    let mut sums = [0; PIECE];
    fill_central(&settings.predictor, run, z, &mut sums, out);
}

/// Writes the central differences of the band that is `below` bands below the next one to these lines' band.
fn copy_lower(reduced: bool, below: usize, lines: &LongLines, out: &mut [i32; PIECE])
    requires { (1 ≤ below) × (below ≤ 15) }
    ensures own { below ≡ 1 → out.new ≡ lines.now.own }
    ensures lower { 2 ≤ below → out.new ≡ slice_index_or lines.now.components ((if reduced then 0 else 3) + below - 2) [] }
{
    if below == 1 {
        copy_line(&lines.own, out);
    } else {
        copy_line(&lines.components[first_spectral(reduced) + below - 2], out);
    }
}

/// Writes the central differences of the previous bands into the lines of components that follow the directional ones, up to line `n`.
fn fill_spectral(
    settings: &Settings,
    run: &Run,
    before: &[LongLines],
    n: usize,
    components: &mut [[i32; PIECE]; MOST_COMPONENTS],
)
    requires run { IsRunOf settings.now.band run.now }
    requires columns { run.now.image.shape.columns ≡ settings.now.columns }
    requires lines { n ≤ 18 }
    requires before { HoldLongCentrals settings.now.predictor run.now before.now }
    requires components { HoldLongComponents n settings.now.predictor run.now before.now }
    ensures spectral { (i k : ℕ) → i < run.now.count → 0 < run.now.y + (run.now.x + i) → spectral_from settings.now.predictor ≤ k → k < n → place components.new k i
        ≡ lower_difference settings.now.predictor run.now.image settings.now.band run.now.y (run.now.x + i) (k - spectral_from settings.now.predictor + 1) }
    ensures others { (k i : ℕ) → k < spectral_from settings.now.predictor → place components.new k i ≡ place components.old k i }
{
    for k in first_spectral(settings.predictor.reduced)..n {
        fill_spectral_line(settings, run, before, k, components);
    }
}

/// Writes the central differences of the previous band whose component is number `k`.
fn fill_spectral_line(
    settings: &Settings,
    run: &Run,
    before: &[LongLines],
    k: usize,
    components: &mut [[i32; PIECE]; MOST_COMPONENTS],
)
    requires run { IsRunOf settings.now.band run.now }
    requires columns { run.now.image.shape.columns ≡ settings.now.columns }
    requires line { (spectral_from settings.now.predictor ≤ k) × (k < 18) }
    requires before { HoldLongCentrals settings.now.predictor run.now before.now }
    requires components { HoldLongComponents (k + 1) settings.now.predictor run.now before.now }
    ensures spectral { (i : ℕ) → i < run.now.count → 0 < run.now.y + (run.now.x + i) → place components.new k i ≡ lower_difference settings.now.predictor run.now.image
        settings.now.band run.now.y (run.now.x + i) (k - spectral_from settings.now.predictor + 1) }
    ensures others { (j i : ℕ) → j ≢ k → place components.new j i ≡ place components.old j i }
{
    let below = k - first_spectral(settings.predictor.reduced) + 1;
    fill_lower(settings, run, below, before, &mut components[k]);
}

/// Writes what the samples tell of a run of a band, with `n` lines of components.
///
/// `before` are the lines of other bands there, whose central differences are used again. For the first place of a band
/// nothing useful is written (CCSDS 123.0-B-1, "Local Sums", "Local Differences").
pub(crate) fn fill_band(
    settings: &Settings,
    run: &Run,
    before: &[LongLines],
    n: usize,
    out: &mut LongLines,
)
    requires run { IsRunOf settings.now.band run.now }
    requires columns { run.now.image.shape.columns ≡ settings.now.columns }
    requires lines { n ≤ 18 }
    requires before { HoldLongCentrals settings.now.predictor run.now before.now }
    requires lower { HoldLongComponents n settings.now.predictor run.now before.now }
    ensures { AreLongLines n settings.now.predictor settings.now.band run.now out.new }
{
    out.band = settings.band;
    let lines = fill_central(
        &settings.predictor,
        run,
        settings.band,
        &mut out.sums,
        &mut out.own,
    );
    fill_components(settings, run, before, n, &lines, out);
}

/// Writes the components of a band whose local sums are written.
fn fill_components(
    settings: &Settings,
    run: &Run,
    before: &[LongLines],
    n: usize,
    lines: &Lines,
    out: &mut LongLines,
)
    requires run { IsRunOf settings.now.band run.now }
    requires columns { run.now.image.shape.columns ≡ settings.now.columns }
    requires n_in { n ≤ 18 }
    requires before { HoldLongCentrals settings.now.predictor run.now before.now }
    requires lower { HoldLongComponents n settings.now.predictor run.now before.now }
    requires lines { AreBandLines settings.now.predictor run.now.image settings.now.band run.now.y run.now.x run.now.count lines.now.current lines.now.above }
    requires sums { (i : ℕ) → i < run.now.count → 0 < run.now.y + (run.now.x + i) → slice_index_or out.old.sums i (pos 0) ≡ pos (line_sum (settings.now.predictor.column || run.now.y == 0)
        lines.now.current lines.now.above i) }
    ensures components { HoldsComponents n settings.now.predictor settings.now.band run.now out.new.components }
    ensures band { out.new.band ≡ out.old.band }
    ensures sums { out.new.sums ≡ out.old.sums }
    ensures own { out.new.own ≡ out.old.own }
{
    if !settings.predictor.reduced {
        fill_directions(settings, run, lines, &out.sums, &mut out.components);
    }
    fill_spectral(settings, run, before, n, &mut out.components);
}

/// Writes the numbers of another line.
pub(crate) fn copy_line(from: &[i32; PIECE], line: &mut [i32; PIECE])
    ensures { line.new ≡ from.now }
{
    line.copy_from_slice(from);
}
