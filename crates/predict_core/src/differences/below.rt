//! The central differences of the previous bands, in quads of four components.
//!
//! A quad is computed from the lines of four bands. After the last band that is used come empty lines, whose
//! differences are 0.

ghost use Rattle.std.specs.Prelude.{◌≡◌, ◌+◌, ◌-◌, ◌*◌, ◌<◌, ◌≤◌, ◌||◌, ◌==◌, ℕ, [], ◌++◌, replicate, slice_index_or};
ghost use Rattle.sample_prediction.specs.Lines.{line_difference};
ghost use Rattle.predict_core.specs.ImageRuns.{IsRunOf};
ghost use Rattle.predict_core.specs.Rooms.{components_at, quads_of, lower_difference, lower_differences};

use crate::differences::fills::{fill_four, fill_two};
use crate::differences::lines::{LINE, Lines, fill_run_lines, is_column};
use crate::differences::room::Quad;
use crate::run::Run;
use crate::settings::Settings;

/// Writes the quads after the first `first` ones: the central differences of the bands below, from the one that is `nearest`
/// bands below on.
pub(crate) fn fill_spectral<const Q: usize>(
    settings: &Settings,
    run: &Run,
    first: usize,
    nearest: usize,
    quads: &mut [Quad; Q],
)
    requires run { IsRunOf settings.now.band run.now }
    requires columns { run.now.image.shape.columns ≡ settings.now.columns }
    requires enough { quads_of settings.now.count ≤ Q }
    requires first_in { first ≤ quads_of settings.now.count }
    requires nearest_in { (1 ≤ nearest) × (nearest ≤ 2) }
    ensures { (i : ℕ) → i < run.now.count → 0 < run.now.y + (run.now.x + i) → components_at (quads_of settings.now.count) quads.new i ≡ components_at first quads.old i
        ++ lower_differences settings.now.predictor run.now.image settings.now.band run.now.y (run.now.x + i) nearest (4 * (quads_of settings.now.count - first)) }
{
    for q in first..(settings.count + 3) / 4 {
        let quad = &mut quads[q];
        fill_lower(settings, run, nearest + 4 * (q - first), quad);
    }
}

/// Writes the central differences of four bands, from the one that is `nearest` bands below on.
fn fill_lower(settings: &Settings, run: &Run, nearest: usize, quad: &mut Quad)
    requires run { IsRunOf settings.now.band run.now }
    requires columns { run.now.image.shape.columns ≡ settings.now.columns }
    requires nearest_in { (1 ≤ nearest) × (nearest ≤ 64) }
    ensures { (i : ℕ) → i < run.now.count → 0 < run.now.y + (run.now.x + i)
        → slice_index_or quad.new.places i [] ≡ lower_differences settings.now.predictor run.now.image settings.now.band run.now.y (run.now.x + i) nearest 4 }
{
    if settings.near <= nearest + 1 {
        fill_last_two(settings, run, nearest, quad);
    } else {
        fill_next_four(settings, run, nearest, quad);
    }
}

/// `fill_lower` if at least three of the bands are used.
fn fill_next_four(settings: &Settings, run: &Run, nearest: usize, quad: &mut Quad)
    requires run { IsRunOf settings.now.band run.now }
    requires columns { run.now.image.shape.columns ≡ settings.now.columns }
    requires nearest_in { (1 ≤ nearest) × (nearest ≤ 64) }
    ensures { (i : ℕ) → i < run.now.count → 0 < run.now.y + (run.now.x + i)
        → slice_index_or quad.new.places i [] ≡ lower_differences settings.now.predictor run.now.image settings.now.band run.now.y (run.now.x + i) nearest 4 }
{
    let mut first = Lines::empty();
    let mut second = Lines::empty();
    let mut third = Lines::empty();
    let mut fourth = Lines::empty();
    fill_below(settings, run, nearest, &mut first);
    fill_below(settings, run, nearest + 1, &mut second);
    fill_below(settings, run, nearest + 2, &mut third);
    fill_below(settings, run, nearest + 3, &mut fourth);
    let column = is_column(settings.predictor.column, run.y());
    fill_four(column, &first, &second, &third, &fourth, &mut quad.places);
}

/// `fill_lower` if at most two of the bands are used, with less work for each place.
fn fill_last_two(settings: &Settings, run: &Run, nearest: usize, quad: &mut Quad)
    requires run { IsRunOf settings.now.band run.now }
    requires columns { run.now.image.shape.columns ≡ settings.now.columns }
    requires nearest_in { (1 ≤ nearest) × (nearest ≤ 64) }
    requires last { settings.now.near ≤ nearest + 1 }
    ensures { (i : ℕ) → i < run.now.count → 0 < run.now.y + (run.now.x + i)
        → slice_index_or quad.new.places i [] ≡ lower_differences settings.now.predictor run.now.image settings.now.band run.now.y (run.now.x + i) nearest 4 }
{
    let mut first = Lines::empty();
    let mut second = Lines::empty();
    fill_below(settings, run, nearest, &mut first);
    fill_below(settings, run, nearest + 1, &mut second);
    let column = is_column(settings.predictor.column, run.y());
    fill_two(column, &first, &second, &mut quad.places);
}

/// Writes the lines of the band that is `below` bands below; if that band isn't used, empty lines stay
/// empty.
pub(crate) fn fill_below(settings: &Settings, run: &Run, below: usize, lines: &mut Lines)
    requires run { IsRunOf settings.now.band run.now }
    requires columns { run.now.image.shape.columns ≡ settings.now.columns }
    requires below_in { 1 ≤ below }
    requires current { lines.old.current ≡ replicate LINE 0 }
    requires above { lines.old.above ≡ replicate LINE 0 }
    ensures { (i : ℕ) → i < run.now.count → 0 < run.now.y + (run.now.x + i) → line_difference (settings.now.predictor.column || run.now.y == 0) lines.new.current lines.new.above i
        ≡ lower_difference settings.now.predictor run.now.image settings.now.band run.now.y (run.now.x + i) below }
{
    if below <= settings.near {
        let z = settings.band - below as u32;
        fill_run_lines(&settings.predictor, run, z, lines);
    }
}
