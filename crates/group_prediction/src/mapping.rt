//! The mapped residuals of a piece, computed in 16 bits.
//!
//! Samples of at most 13 bits leave room for it, so that a vector holds twice as many places as one of 32 bits. What
//! is computed is what `predict_core::mapping` computes for a run, and as there no step has a branch.

ghost use Rattle.std.specs.Prelude.{◌≡◌, ◌+◌, ◌^◌, ◌<◌, ◌≤◌, ℕ, pos, negsuc, ◌≤ℤ◌, ◌+ℤ◌, ◌-ℤ◌, ◌*ℤ◌, unsigned_abs, length, replicate, slice_index, slice_index_or};
ghost use Rattle.cube_core.specs.Kind.{smin};
ghost use Rattle.cube_core.specs.Image.{sample_at};
ghost use Rattle.sample_prediction.specs.Chain.{scaled_by_difference};
ghost use Rattle.sample_prediction.specs.LocalSum.{local_sum};
ghost use Rattle.sample_prediction.specs.Residual.{mapped, mapped_between};
ghost use Rattle.predict_core.specs.ImageRuns.{IsRunOf};
ghost use Rattle.predict_core.specs.Rooms.{offset_number};
ghost use Rattle.group_prediction.specs.GroupLines.{HoldsSums};

use predict_core::narrow_offsets::{half_of, nearer, scaled_offset};
use predict_core::run::{PIECE, Run};
use predict_core::settings::Settings;

/// Writes the mapped residuals of a run.
///
/// `parts` are the predicted central differences, and `sums` the local sums of offsets. What is written for the first
/// place of a band isn't its residual (CCSDS 123.0-B-1, "Mapped Prediction Residual").
pub(crate) fn map_piece(
    settings: &Settings,
    run: &Run,
    parts: &[i16; PIECE],
    sums: &[i16; PIECE],
    numbers: &mut [u16; PIECE],
)
    requires run { IsRunOf settings.now.band run.now }
    requires kind { run.now.image.kind ≡ settings.now.range.kind }
    requires bits { run.now.image.kind.bits ≤ 13 }
    requires sums { HoldsSums settings.now.predictor settings.now.band run.now sums.now }
    ensures bound { (i : ℕ) → i < run.now.count → slice_index_or numbers.new i 0 < 2 ^ run.now.image.kind.bits }
    ensures values { (i : ℕ) → i < run.now.count → 0 < run.now.y + (run.now.x + i)
        → slice_index_or numbers.new i 0
        ≡ mapped run.now.image.kind (scaled_by_difference run.now.image.kind (slice_index_or parts.now i (pos 0)) (local_sum settings.now.predictor run.now.image
        settings.now.band run.now.y (run.now.x + i))) (sample_at run.now.image settings.now.band run.now.y (run.now.x + i)) }
{
    run.prove_is_row();
    let row = run.row(settings.band);
    let mut offsets = [0u16; PIECE];
    copy_offsets(row, run.x() as usize, run.count(), &mut offsets);
    let greatest = settings.range.smax - settings.range.smin;
    map_places(greatest as i16, parts, sums, &offsets, numbers);
}

/// Writes `count` offsets of a row from column `x` on into an array of zeros.
fn copy_offsets(row: &[u16], x: usize, count: usize, offsets: &mut [u16; PIECE])
    requires few { count ≤ PIECE }
    requires inside { x + count ≤ length row.now }
    requires clear { offsets.old ≡ replicate PIECE 0 }
    ensures written { (k : ℕ) → k < count → slice_index offsets.new k ≡ slice_index row.now (x + k) }
    ensures rest { (k : ℕ) → count ≤ k → slice_index offsets.new k ≡ 0 }
{
    if count == PIECE {
        // A copy of this fixed length is a few vector moves instead of a call.
        offsets.copy_from_slice(&row[x..x + PIECE]);
    } else {
        offsets[..count].copy_from_slice(&row[x..x + count]);
    }
}

/// Writes the mapped residual of each place's offset.
fn map_places(
    greatest: i16,
    parts: &[i16; PIECE],
    sums: &[i16; PIECE],
    offsets: &[u16; PIECE],
    out: &mut [u16; PIECE],
)
    requires greatest_in { (pos 1 ≤ℤ greatest) × (greatest ≤ℤ pos 8191) }
    requires offsets_in { (i : ℕ) → i < PIECE → pos (slice_index offsets.now i) ≤ℤ greatest }
    ensures bound { (i : ℕ) → i < PIECE → pos (slice_index out.new i) ≤ℤ greatest }
    ensures values { (i : ℕ) → i < PIECE → slice_index out.new i
        ≡ offset_number greatest (slice_index_or parts.now i (pos 0)) (slice_index_or sums.now i (pos 0)) (slice_index offsets.now i) }
{
    for i in 0..PIECE {
        out[i] = number_of_offset(greatest, parts[i], sums[i], offsets[i]);
    }
}

/// Returns the mapped residual of an offset, from the predicted central difference and the local sum of offsets.
#[inline(always)]
fn number_of_offset(greatest: i16, part: i16, sum: i16, offset: u16) -> u16
    requires greatest_in { (pos 1 ≤ℤ greatest) × (greatest ≤ℤ pos 8191) }
    requires offset_in { pos offset ≤ℤ greatest }
    ensures bound { pos result ≤ℤ greatest }
    ensures value { result ≡ offset_number greatest part sum offset }
{
    number_at(greatest, scaled_offset(greatest, part, sum), offset as i16) as u16
}

/// Returns the mapped residual of an offset, from its scaled prediction.
#[inline(always)]
fn number_at(greatest: i16, twice: i16, offset: i16) -> i16
    requires greatest_in { (pos 1 ≤ℤ greatest) × (greatest ≤ℤ pos 8191) }
    requires twice_in { (pos 0 ≤ℤ twice) × (twice ≤ℤ (pos 2 *ℤ greatest +ℤ pos 1)) }
    requires offset_in { (pos 0 ≤ℤ offset) × (offset ≤ℤ greatest) }
    ensures value { result ≡ pos (mapped_between (pos 0) greatest twice offset) }
    ensures bounds { (pos 0 ≤ℤ result) × (result ≤ℤ greatest) }
{
    let value = half_of(twice);
    let beyond = apart(offset, value) + nearer(greatest, value);
    alternating_number(2 * offset - twice).min(beyond)
}

/// Returns the distance between two offsets.
#[inline(always)]
fn apart(offset: i16, value: i16) -> i16
    requires offset_in { unsigned_abs offset ≤ 8191 }
    requires value_in { unsigned_abs value ≤ 8191 }
    ensures value { result ≡ pos (unsigned_abs (offset -ℤ value)) }
    ensures bound { unsigned_abs result ≤ 16382 }
{
    (offset - value).abs()
}

/// Returns the mapped residual of a prediction residual whose two signs alternate, from twice the latter less the parity.
#[inline(always)]
fn alternating_number(twice: i16) -> i16
    requires { unsigned_abs twice ≤ 2 ^ 14 }
    ensures above { pos 0 ≤ℤ twice → result ≡ twice }
    ensures below { twice ≤ℤ negsuc 0 → result ≡ negsuc 0 -ℤ twice }
{
    if twice < 0 { -1 - twice } else { twice }
}
