//! Samples from mapped residuals, in 32 bits. No step has a branch.

ghost use Rattle.std.specs.Prelude.{◌≡◌, ◌<◌, ◌≤◌, ◌+◌, ◌*◌, ◌^◌, ℕ, pos, ◌+ℤ◌, ◌*ℤ◌, ◌≤ℤ◌, unsigned_abs};
ghost use Rattle.std.specs.Int.{int_min, int_max};
ghost use Rattle.lanes.specs.Lanes.{lane};
ghost use Rattle.sample_prediction.specs.Arithmetic.{floor_div, clip};
ghost use Rattle.sample_prediction.specs.Mapping.{unmapped_between};
ghost use Rattle.wave_inversion.specs.Wave.{AreOffsets};

use sample_prediction::residual::prediction_of as half_of;

/// Returns the offsets of eight samples, from the predicted central differences, the local sums of offsets, and the mapped residuals
/// (CCSDS 123.0-B-1, "Mapped Prediction Residual").
///
/// It stays a function of its own: where its steps stand among others, the compiler takes the lanes one by one.
#[inline(never)]
pub(crate) fn unmapped(
    greatest: i32,
    parts: &[i32; 8],
    sums: &[i32; 8],
    residuals: &[i32; 8],
) -> [i32; 8]
    requires greatest_in { (pos 1 ≤ℤ greatest) × (greatest ≤ℤ pos 65535) }
    requires parts_in { (b : ℕ) → b < 8 → unsigned_abs (lane parts.now b) ≤ 18 * 2 ^ 20 }
    requires sums_in { AreOffsets (pos 262140) sums.now }
    requires residuals_in { AreOffsets greatest residuals.now }
    ensures value { (b : ℕ) → b < 8 → lane result b ≡ unmapped_between (pos 0) greatest
        (clip (floor_div (lane parts.now b +ℤ lane sums.now b) 2 +ℤ pos 1) (pos 0) (pos 2 *ℤ greatest +ℤ pos 1)) (unsigned_abs (lane residuals.now b)) }
    ensures range { AreOffsets greatest result }
{
    let mut offsets = [0i32; 8];
    for b in 0..8usize {
        offsets[b] = offset_at(greatest, parts[b], sums[b], residuals[b]);
    }
    offsets
}

/// Returns the offset that has a mapped residual, from the predicted central difference and the local sum of offsets.
///
/// What the residual leaves of the scaled prediction less 1, and of the greatest offset, tells the sign of the error and the offset, so
/// that neither the scaled prediction is clipped nor the nearer end of the range is found.
#[inline(always)]
fn offset_at(greatest: i32, part: i32, sum: i32, residual: i32) -> i32
    requires greatest_in { (pos 1 ≤ℤ greatest) × (greatest ≤ℤ pos 65535) }
    requires part_in { unsigned_abs part ≤ 18 * 2 ^ 20 }
    requires sum_in { (pos 0 ≤ℤ sum) × (sum ≤ℤ pos 262140) }
    requires residual_in { (pos 0 ≤ℤ residual) × (residual ≤ℤ greatest) }
    ensures value { result ≡ unmapped_between (pos 0) greatest (clip (floor_div (part +ℤ sum) 2 +ℤ pos 1) (pos 0) (pos 2 *ℤ greatest +ℤ pos 1)) (unsigned_abs residual) }
    ensures range { (pos 0 ≤ℤ result) × (result ≤ℤ greatest) }
{
    let rest = half_of(part + sum) - residual;
    let room = greatest - residual;
    let up = offset_above(residual, rest);
    let down = offset_below(rest, room);
    if rest < limit_of(rest, room) {
        up
    } else {
        down
    }
}

/// Returns the offset where the error isn't negative.
#[inline(always)]
fn offset_above(residual: i32, rest: i32) -> i32
    requires residual_in { (pos 0 ≤ℤ residual) × (residual ≤ℤ pos 65535) }
    requires rest_in { unsigned_abs rest ≤ 2 ^ 25 }
    ensures { result ≡ residual +ℤ int_max (floor_div (rest +ℤ pos 1) 2) (pos 0) }
{
    residual + half_of(rest + 1).max(0)
}

/// Returns the offset where the error is negative, or 0.
#[inline(always)]
fn offset_below(rest: i32, room: i32) -> i32
    ensures { result ≡ int_min (floor_div rest 2) room }
{
    half_of(rest).min(room)
}

/// Returns the number below which a rest says that the error isn't negative: twice the room if it is odd, and else 0.
#[inline(always)]
fn limit_of(rest: i32, room: i32) -> i32
    requires rest_in { unsigned_abs rest ≤ 2 ^ 25 }
    requires room_in { (pos 0 ≤ℤ room) × (room ≤ℤ pos 65535) }
    ensures even { rest ≡ pos 2 *ℤ floor_div rest 2 → result ≡ pos 0 }
    ensures odd { rest ≡ pos 2 *ℤ floor_div rest 2 +ℤ pos 1 → result ≡ pos 2 *ℤ room }
{
    if rest == 2 * half_of(rest) {
        0
    } else {
        2 * room
    }
}
