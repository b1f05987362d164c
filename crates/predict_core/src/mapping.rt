//! The mapped residuals of a run, once its differences are predicted.
//!
//! Nothing here waits for another place, and no step has a branch, so that the compiler vectorizes the loop. It
//! computes with offsets from the least sample, in which the middle of the range cancels out. The number of an
//! error is the lesser of two: the one for errors whose signs alternate, and the one for errors beyond the
//! nearer end.

ghost use Rattle.std.specs.Prelude.{◌≡◌, ◌+◌, ◌*◌, ◌^◌, ◌<◌, ◌≤◌, ℕ, pos, negsuc, ◌≤ℤ◌, ◌+ℤ◌, ◌-ℤ◌, ◌*ℤ◌, unsigned_abs, length, replicate, slice_index};
ghost use Rattle.std.specs.Prelude.{slice_index_or};
ghost use Rattle.cube_core.specs.Kind.{smin, smid, smax};
ghost use Rattle.cube_core.specs.Image.{sample_at};
ghost use Rattle.sample_prediction.specs.Arithmetic.{floor_div, clip};
ghost use Rattle.sample_prediction.specs.LocalSum.{local_sum};
ghost use Rattle.sample_prediction.specs.Residual.{theta_between, mapped, mapped_between};
ghost use Rattle.predict_core.specs.ImageRuns.{IsRunOf};
ghost use Rattle.predict_core.specs.Rooms.{offset_number};

use crate::run::{PIECE, Run};
use crate::settings::Settings;
use sample_prediction::residual::prediction_of;

/// Writes the mapped residuals of a run.
///
/// `parts` are the predicted central differences, and `sums` the local sums of offsets. What is written for the first
/// place of a band isn't its residual (CCSDS 123.0-B-1, "Mapped Prediction Residual").
pub fn map_run(
    settings: &Settings,
    run: &Run,
    parts: &[i32; PIECE],
    sums: &[i32; PIECE],
    residuals: &mut [u16; PIECE],
)
    requires run { IsRunOf settings.now.band run.now }
    requires kind { run.now.image.kind ≡ settings.now.range.kind }
    requires parts_in { (i : ℕ) → i < run.now.count → 0 < run.now.y + (run.now.x + i) → unsigned_abs (slice_index_or parts.now i (pos 0)) ≤ 18 * 2 ^ 20 }
    requires sum_least { (i : ℕ) → i < run.now.count → 0 < run.now.y + (run.now.x + i) → pos 0 ≤ℤ slice_index_or sums.now i (pos 0) }
    requires sum_most { (i : ℕ) → i < run.now.count → 0 < run.now.y + (run.now.x + i) → slice_index_or sums.now i (pos 0) ≤ℤ pos 262140 }
    requires sum { (i : ℕ) → i < run.now.count → 0 < run.now.y + (run.now.x + i) → pos 4 *ℤ smin run.now.image.kind +ℤ slice_index_or sums.now i (pos 0)
        ≡ local_sum settings.now.predictor run.now.image settings.now.band run.now.y (run.now.x + i) }
    ensures long { length residuals.new ≡ 64 }
    ensures bound { (i : ℕ) → i < run.now.count → slice_index_or residuals.new i 0 < 2 ^ run.now.image.kind.bits }
    ensures values { (i : ℕ) → i < run.now.count → 0 < run.now.y + (run.now.x + i)
        → slice_index_or residuals.new i 0
        ≡ mapped run.now.image.kind (clip (floor_div (slice_index_or parts.now i (pos 0) +ℤ (local_sum settings.now.predictor run.now.image settings.now.band
        run.now.y (run.now.x + i) -ℤ pos 4 *ℤ smid run.now.image.kind)) 2 +ℤ pos 2 *ℤ smid run.now.image.kind +ℤ pos 1) (pos 2 *ℤ smin run.now.image.kind)
        (pos 2 *ℤ smax run.now.image.kind +ℤ pos 1)) (sample_at run.now.image settings.now.band run.now.y (run.now.x + i)) }
{
    run.prove_is_row();
    let row = run.row(settings.band);
    let mut offsets = [0u16; PIECE];
    copy_offsets(row, run.x() as usize, run.count(), &mut offsets);
    let greatest = settings.range.smax - settings.range.smin;
    map_places(greatest, parts, sums, &offsets, residuals);
}

/// Writes `count` offsets of a row from column `x` on into an array of zeros.
pub fn copy_offsets(row: &[u16], x: usize, count: usize, offsets: &mut [u16; PIECE])
    requires few { count ≤ 64 }
    requires inside { x + count ≤ length row.now }
    requires clear { offsets.old ≡ replicate 64 0 }
    ensures written { (k : ℕ) → k < count → slice_index offsets.new k ≡ slice_index row.now (x + k) }
    ensures rest { (k : ℕ) → count ≤ k → slice_index offsets.new k ≡ 0 }
{
    if count == PIECE {
        // A copy of this fixed length is a few vector moves instead of a call.
        offsets.copy_from_slice(&row[x..x + PIECE]);
    } else {
        offsets[..count].copy_from_slice(&row[x..x + count]);
    }
}

/// Writes the mapped residual of each place's offset.
fn map_places(
    greatest: i32,
    parts: &[i32; PIECE],
    sums: &[i32; PIECE],
    offsets: &[u16; PIECE],
    out: &mut [u16; PIECE],
)
    requires greatest_in { (pos 1 ≤ℤ greatest) × (greatest ≤ℤ pos 65535) }
    requires offsets_in { (i : ℕ) → i < PIECE → pos (slice_index offsets.now i) ≤ℤ greatest }
    ensures bound { (i : ℕ) → i < PIECE → pos (slice_index out.new i) ≤ℤ greatest }
    ensures values { (i : ℕ) → i < PIECE → unsigned_abs (slice_index_or parts.now i (pos 0)) ≤ 18 * 2 ^ 20 → pos 0 ≤ℤ slice_index_or sums.now i (pos 0)
        → slice_index_or sums.now i (pos 0) ≤ℤ pos 262140
        → slice_index out.new i ≡ offset_number greatest (slice_index_or parts.now i (pos 0)) (slice_index_or sums.now i (pos 0)) (slice_index offsets.now i) }
{
    for i in 0..PIECE {
        out[i] = number_of_offset(greatest, parts[i], sums[i], offsets[i]);
    }
}

/// Returns the mapped residual of an offset, from the predicted central difference and the local sum of offsets.
#[inline(always)]
fn number_of_offset(greatest: i32, part: i32, sum: i32, offset: u16) -> u16
    requires greatest_in { (pos 1 ≤ℤ greatest) × (greatest ≤ℤ pos 65535) }
    requires offset_in { pos offset ≤ℤ greatest }
    ensures bound { pos result ≤ℤ greatest }
    ensures value { unsigned_abs part ≤ 18 * 2 ^ 20 → pos 0 ≤ℤ sum → sum ≤ℤ pos 262140 → result ≡ offset_number greatest part sum offset }
{
    number_at(greatest, scaled_offset(greatest, part, sum), offset as i32) as u16
}

/// Returns the scaled prediction of an offset.
///
/// After the last place of a run the numbers may be any, and their sum may wrap.
#[inline(always)]
pub fn scaled_offset(greatest: i32, part: i32, sum: i32) -> i32
    requires greatest_in { (pos 1 ≤ℤ greatest) × (greatest ≤ℤ pos 65535) }
    ensures bounds { (pos 0 ≤ℤ result) × (result ≤ℤ (pos 2 *ℤ greatest +ℤ pos 1)) }
    ensures value { unsigned_abs part ≤ 18 * 2 ^ 20 → pos 0 ≤ℤ sum → sum ≤ℤ pos 262140
        → result ≡ clip (floor_div (part +ℤ sum) 2 +ℤ pos 1) (pos 0) (pos 2 *ℤ greatest +ℤ pos 1) }
{
    let upper = prediction_of(part.wrapping_add(sum)) + 1;
    upper.min(2 * greatest + 1).max(0)
}

/// Returns the mapped residual of an offset, from its scaled prediction.
#[inline(always)]
fn number_at(greatest: i32, twice: i32, offset: i32) -> i32
    requires greatest_in { (pos 1 ≤ℤ greatest) × (greatest ≤ℤ pos 65535) }
    requires twice_in { (pos 0 ≤ℤ twice) × (twice ≤ℤ (pos 2 *ℤ greatest +ℤ pos 1)) }
    requires offset_in { (pos 0 ≤ℤ offset) × (offset ≤ℤ greatest) }
    ensures value { result ≡ pos (mapped_between (pos 0) greatest twice offset) }
    ensures bounds { (pos 0 ≤ℤ result) × (result ≤ℤ greatest) }
{
    let value = prediction_of(twice);
    let beyond = apart(offset, value) + nearer(greatest, value);
    alternating_number(2 * offset - twice).min(beyond)
}

/// Returns the distance between two offsets.
#[inline(always)]
fn apart(offset: i32, value: i32) -> i32
    requires offset_in { unsigned_abs offset ≤ 65535 }
    requires value_in { unsigned_abs value ≤ 65535 }
    ensures value { result ≡ pos (unsigned_abs (offset -ℤ value)) }
    ensures bound { unsigned_abs result ≤ 131070 }
{
    (offset - value).abs()
}

/// Returns the distance of an offset from the nearer end of the range.
#[inline(always)]
pub fn nearer(greatest: i32, value: i32) -> i32
    requires greatest_in { greatest ≤ℤ pos 65535 }
    requires value_in { (pos 0 ≤ℤ value) × (value ≤ℤ greatest) }
    ensures value { result ≡ pos (theta_between (pos 0) greatest value) }
    ensures bound { unsigned_abs result ≤ 65535 }
{
    value.min(greatest - value)
}

/// Returns the mapped residual of a prediction residual whose two signs alternate, from twice the latter less the parity.
#[inline(always)]
fn alternating_number(twice: i32) -> i32
    requires { unsigned_abs twice ≤ 2 ^ 18 }
    ensures above { pos 0 ≤ℤ twice → result ≡ twice }
    ensures below { twice ≤ℤ negsuc 0 → result ≡ negsuc 0 -ℤ twice }
{
    if twice < 0 { -1 - twice } else { twice }
}
