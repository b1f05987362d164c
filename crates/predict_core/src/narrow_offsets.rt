//! The scaled predictions of offsets, in 16 bits.

ghost use Rattle.std.specs.Prelude.{◌≡◌, ◌+◌, ◌≤◌, pos, ◌≤ℤ◌, ◌+ℤ◌, ◌*ℤ◌, unsigned_abs};
ghost use Rattle.lanes.specs.Lanes.{held};
ghost use Rattle.sample_prediction.specs.Arithmetic.{floor_div, clip};
ghost use Rattle.sample_prediction.specs.Residual.{theta_between};

/// Returns the scaled prediction of an offset.
///
/// Where 16 bits don't hold the sum of both, what they hold lies on the same side of the range, and far beyond it.
#[inline(always)]
pub fn scaled_offset(greatest: i16, part: i16, sum: i16) -> i16
    requires greatest_in { (pos 1 ≤ℤ greatest) × (greatest ≤ℤ pos 8191) }
    ensures bounds { (pos 0 ≤ℤ result) × (result ≤ℤ (pos 2 *ℤ greatest +ℤ pos 1)) }
    ensures value { result ≡ clip (floor_div (part +ℤ sum) 2 +ℤ pos 1) (pos 0) (pos 2 *ℤ greatest +ℤ pos 1) }
{
    let upper = half_of(held_sum(part, sum)) + 1;
    upper.min(2 * greatest + 1).max(0)
}

/// Returns the sum of two numbers, or the nearest number of 16 bits where it lies beyond them.
#[inline(always)]
fn held_sum(part: i16, sum: i16) -> i16
    ensures { result ≡ held (part +ℤ sum) }
{
    part.saturating_add(sum)
}

/// Returns half a number, rounded down.
#[inline(always)]
pub fn half_of(twice: i16) -> i16
    ensures value { result ≡ floor_div twice 2 }
    ensures low { (pos 2 *ℤ result) ≤ℤ twice }
    ensures high { twice ≤ℤ (pos 2 *ℤ result +ℤ pos 1) }
{
    twice >> 1
}

/// Returns the distance of an offset from the nearer end of the range.
#[inline(always)]
pub fn nearer(greatest: i16, value: i16) -> i16
    requires greatest_in { greatest ≤ℤ pos 8191 }
    requires value_in { (pos 0 ≤ℤ value) × (value ≤ℤ greatest) }
    ensures value { result ≡ pos (theta_between (pos 0) greatest value) }
    ensures bound { unsigned_abs result ≤ 4095 }
{
    value.min(greatest - value)
}
