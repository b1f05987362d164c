//! The directional differences of a piece of one band, in lines of 16 bits.

ghost use Rattle.std.specs.Prelude.{◌≡◌, ◌≢◌, ◌+◌, ◌<◌, ◌≤◌, ◌||◌, ◌==◌, ℕ, pos, length, slice_index, slice_index_or};
ghost use Rattle.lanes.specs.Lanes.{place};
ghost use Rattle.sample_prediction.specs.Lines.{line_sum, AreBandLines};
ghost use Rattle.predict_core.specs.ImageRuns.{IsRunOf};
ghost use Rattle.group_prediction.specs.GroupLines.{IsToldDifference, HoldsDirections};

use crate::lines::fill_differences;
use predict_core::differences::lines::{Lines, clear_line};
use predict_core::run::{PIECE, Run};
use predict_core::settings::Settings;
use sample_prediction::predictor::MOST_COMPONENTS;

/// Writes the directional differences into the first three lines of components (CCSDS 123.0-B-1, "Local Differences").
pub(crate) fn fill_directions(
    settings: &Settings,
    run: &Run,
    lines: &Lines,
    sums: &[i16; PIECE],
    components: &mut [[i16; PIECE]; MOST_COMPONENTS],
)
    requires run { IsRunOf settings.now.band run.now }
    requires columns { run.now.image.shape.columns ≡ settings.now.columns }
    requires bits { run.now.image.kind.bits ≤ 13 }
    requires lines { AreBandLines settings.now.predictor run.now.image settings.now.band run.now.y run.now.x run.now.count lines.now.current lines.now.above }
    requires sums { (i : ℕ) → i < run.now.count → 0 < run.now.y + (run.now.x + i) → slice_index_or sums.now i (pos 0) ≡ pos (line_sum (settings.now.predictor.column || run.now.y == 0)
        lines.now.current lines.now.above i) }
    ensures { HoldsDirections settings.now.predictor settings.now.band run.now components.new }
{
    run.prove_is_row();
    if run.y() == 0 {
        clear(0, components);
        clear(1, components);
        clear(2, components);
        return;
    }
    fill_three(lines, sums, components);
    if run.x() == 0 {
        repeat_north(components);
    }
}

/// Writes the differences of the offsets to the north, west and north-west of each place, where 16 bits hold them.
fn fill_three(lines: &Lines, sums: &[i16; PIECE], components: &mut [[i16; PIECE]; MOST_COMPONENTS])
    ensures north { (i : ℕ) → i < PIECE → IsToldDifference (slice_index lines.now.above (i + 1)) (slice_index_or sums.now i (pos 0)) (place components.new 0 i) }
    ensures west { (i : ℕ) → i < PIECE → IsToldDifference (slice_index lines.now.current i) (slice_index_or sums.now i (pos 0)) (place components.new 1 i) }
    ensures north_west { (i : ℕ) → i < PIECE → IsToldDifference (slice_index lines.now.above i) (slice_index_or sums.now i (pos 0)) (place components.new 2 i) }
{
    fill_component(&lines.above[1..PIECE + 1], sums, 0, components);
    fill_component(&lines.current[..PIECE], sums, 1, components);
    fill_component(&lines.above[..PIECE], sums, 2, components);
}

/// Writes the differences of the offsets of each place into line `k` of components, where 16 bits hold them.
#[inline(always)]
fn fill_component(
    offsets: &[u16],
    sums: &[i16; PIECE],
    k: usize,
    components: &mut [[i16; PIECE]; MOST_COMPONENTS],
)
    requires long { length offsets.now ≡ PIECE }
    requires line { k < 18 }
    ensures told { (i : ℕ) → i < PIECE → IsToldDifference (slice_index offsets.now i) (slice_index_or sums.now i (pos 0)) (place components.new k i) }
    ensures others { (j i : ℕ) → j ≢ k → place components.new j i ≡ place components.old j i }
{
    fill_differences(offsets, sums, &mut components[k]);
}

/// Replaces the other two directional differences of the first place by the northern one.
fn repeat_north(components: &mut [[i16; PIECE]; MOST_COMPONENTS])
    ensures north { place components.new 0 0 ≡ place components.old 0 0 }
    ensures west { place components.new 1 0 ≡ place components.old 0 0 }
    ensures north_west { place components.new 2 0 ≡ place components.old 0 0 }
    ensures others { (k i : ℕ) → 0 < i → place components.new k i ≡ place components.old k i }
{
    let north = components[0][0];
    put_first(north, 1, components);
    put_first(north, 2, components);
}

/// Writes the first place of line `k` of components.
fn put_first(value: i16, k: usize, components: &mut [[i16; PIECE]; MOST_COMPONENTS])
    requires { k < 18 }
    ensures first { place components.new k 0 ≡ value }
    ensures later { (i : ℕ) → 0 < i → place components.new k i ≡ place components.old k i }
    ensures others { (j i : ℕ) → j ≢ k → place components.new j i ≡ place components.old j i }
{
    set_first(value, &mut components[k]);
}

/// Writes the first place of a line.
fn set_first(value: i16, line: &mut [i16; PIECE])
    ensures first { slice_index_or line.new 0 (pos 0) ≡ value }
    ensures later { (i : ℕ) → 0 < i → slice_index_or line.new i (pos 0) ≡ slice_index_or line.old i (pos 0) }
{
    line[0] = value;
}

/// Writes zeros into line `k` of components.
fn clear(k: usize, components: &mut [[i16; PIECE]; MOST_COMPONENTS])
    requires { k < 18 }
    ensures zeros { (i : ℕ) → i < PIECE → place components.new k i ≡ pos 0 }
    ensures others { (j i : ℕ) → j ≢ k → place components.new j i ≡ place components.old j i }
{
    clear_line(&mut components[k]);
}
