//! Samples from mapped residuals, in 16 bits.
//!
//! Samples of at most 12 bits leave room for it. No step has a branch.

ghost use Rattle.std.specs.Prelude.{◌≡◌, ◌<◌, ◌+◌, ◌/◌, ◌%◌, ℕ, pos, ◌+ℤ◌, ◌-ℤ◌, ◌*ℤ◌, ◌≤ℤ◌, unsigned_abs};
ghost use Rattle.lanes.specs.Lanes.{lane};
ghost use Rattle.sample_prediction.specs.Arithmetic.{floor_div, clip};
ghost use Rattle.sample_prediction.specs.Mapping.{unmapped_between};
ghost use Rattle.wave_inversion.specs.Wave.{AreOffsets};

use predict_core::narrow_offsets::{half_of, nearer, scaled_offset};

/// Returns the offsets of eight samples, from the predicted central differences, the local sums of offsets, and the mapped residuals
/// (CCSDS 123.0-B-1, "Mapped Prediction Residual").
#[inline(always)]
pub(crate) fn unmapped(
    greatest: i16,
    parts: &[i16; 8],
    sums: &[i16; 8],
    residuals: &[i16; 8],
) -> [i16; 8]
    requires greatest_in { (pos 1 ≤ℤ greatest) × (greatest ≤ℤ pos 4095) }
    requires residuals_in { AreOffsets greatest residuals.now }
    ensures value { (b : ℕ) → b < 8 → lane result b ≡ unmapped_between (pos 0) greatest
        (clip (floor_div (lane parts.now b +ℤ lane sums.now b) 2 +ℤ pos 1) (pos 0) (pos 2 *ℤ greatest +ℤ pos 1)) (unsigned_abs (lane residuals.now b)) }
    ensures range { AreOffsets greatest result }
{
    let mut offsets = [0i16; 8];
    for b in 0..8usize {
        offsets[b] = offset_at(
            greatest,
            scaled_offset(greatest, parts[b], sums[b]),
            residuals[b],
        );
    }
    offsets
}

/// Returns the offset that has a mapped residual, from its scaled prediction.
#[inline(always)]
fn offset_at(greatest: i16, twice: i16, residual: i16) -> i16
    requires greatest_in { (pos 1 ≤ℤ greatest) × (greatest ≤ℤ pos 4095) }
    requires twice_in { (pos 0 ≤ℤ twice) × (twice ≤ℤ (pos 2 *ℤ greatest +ℤ pos 1)) }
    requires residual_in { (pos 0 ≤ℤ residual) × (residual ≤ℤ greatest) }
    ensures value { result ≡ unmapped_between (pos 0) greatest twice (unsigned_abs residual) }
    ensures range { (pos 0 ≤ℤ result) × (result ≤ℤ greatest) }
{
    let value = half_of(twice);
    let near = near_offset(value, twice, residual);
    let far = far_offset(greatest, value, residual);
    if residual > 2 * nearer(greatest, value) {
        far
    } else {
        near
    }
}

/// Returns the offset where both signs of the error alternate: up to the nearer end of the range.
#[inline(always)]
fn near_offset(value: i16, twice: i16, residual: i16) -> i16
    requires value_in { (pos 0 ≤ℤ value) × (value ≤ℤ pos 4095) }
    requires twice_in { (pos 0 ≤ℤ twice) × (twice ≤ℤ pos 8191) }
    requires residual_in { (pos 0 ≤ℤ residual) × (residual ≤ℤ pos 4095) }
    ensures even { (unsigned_abs residual + unsigned_abs twice) % 2 ≡ 0 → result ≡ value +ℤ pos ((unsigned_abs residual + 1) / 2) }
    ensures odd { (unsigned_abs residual + unsigned_abs twice) % 2 ≡ 1 → result ≡ value -ℤ pos ((unsigned_abs residual + 1) / 2) }
{
    let half = half_of(residual + 1);
    if (residual.unsigned_abs() + twice.unsigned_abs()) % 2 == 0 {
        value + half
    } else {
        value - half
    }
}

/// Returns the offset where the error has one sign alone: beyond the nearer end of the range.
#[inline(always)]
fn far_offset(greatest: i16, value: i16, residual: i16) -> i16
    requires greatest_in { greatest ≤ℤ pos 4095 }
    requires value_in { (pos 0 ≤ℤ value) × (value ≤ℤ greatest) }
    requires residual_in { (pos 0 ≤ℤ residual) × (residual ≤ℤ greatest) }
    ensures above { (greatest -ℤ value +ℤ pos 1) ≤ℤ value → result ≡ greatest -ℤ residual }
    ensures below { value ≤ℤ (greatest -ℤ value) → result ≡ residual }
{
    if greatest - value < value {
        greatest - residual
    } else {
        residual
    }
}
