//! From a sample to its mapped residual, and back.

ghost use Rattle.std.specs.Prelude.{◌≡◌, ◌+◌, ◌*◌, ◌^◌, ◌<◌, ◌≤◌, pos, negsuc, ◌≤ℤ◌, ◌+ℤ◌, ◌-ℤ◌, ◌*ℤ◌, min, IsTrue, unsigned_abs, int_lt, ◌%◌};
ghost use Rattle.cube_core.specs.Kind.{IsSample};
ghost use Rattle.sample_prediction.specs.Arithmetic.{floor_div, clip};
ghost use Rattle.sample_prediction.specs.Residual.{theta_between, agrees, number_of, mapped_between, mapped};
ghost use Rattle.sample_prediction.specs.Mapping.{error_of, unmapped_between, Between, IsScaled};

use cube_core::kind::Kind;

/// Returns the mapped residual of the sample `s`, for its scaled predicted value.
///
/// `stilde` is 2·smin to 2·smax + 1, and `s` a sample of the kind. The result is at most 2^D - 1
/// (CCSDS 123.0-B-1, "Mapped Prediction Residual").
pub fn map_residual(kind: Kind, stilde: i32, s: i32) -> u16
    requires scaled { IsScaled kind stilde }
    requires sample { IsSample kind s }
    ensures value { result ≡ mapped kind stilde s }
    ensures bound { result < 2 ^ kind.bits }
{
    let _bits = kind.bits();
    map_between(kind.smin(), kind.smax(), stilde, s)
}

/// Returns the one sample whose mapped residual is `delta`, for its scaled predicted value.
///
/// `stilde` is 2·smin to 2·smax + 1, and `delta` at most 2^D - 1.
pub fn unmap_residual(kind: Kind, stilde: i32, delta: u16) -> i32
    requires scaled { IsScaled kind stilde }
    requires residual { delta < 2 ^ kind.bits }
    ensures range { IsSample kind result }
    ensures inverse { mapped kind stilde result ≡ delta }
{
    unmap_between(kind.smin(), kind.smax(), stilde, delta)
}

/// Returns the mapped residual of `v`, a sample between `low` and `high`. `scaled` is 2·`low` to 2·`high` + 1.
#[inline(always)]
pub fn map_between(low: i32, high: i32, scaled: i32, v: i32) -> u16
    requires low_in { negsuc 32767 ≤ℤ low }
    requires high_in { high ≤ℤ (low +ℤ pos 65535) }
    requires high_top { high ≤ℤ pos 65535 }
    requires scaled_low { (pos 2 *ℤ low) ≤ℤ scaled }
    requires scaled_high { scaled ≤ℤ (pos 2 *ℤ high +ℤ pos 1) }
    requires v_low { low ≤ℤ v }
    requires v_high { v ≤ℤ high }
    ensures { result ≡ mapped_between low high scaled v }
{
    let predicted = prediction_of(scaled);
    let theta = theta_of(low, high, predicted);
    let error = v - predicted;
    let size = error.unsigned_abs();
    let sign = has_sign(scaled, error);
    map_error(theta, size, sign) as u16
}

/// Returns the sample between `low` and `high` whose mapped residual is `delta`, at most `high` - `low`. `scaled` is 2·`low` to
/// 2·`high` + 1.
#[inline(always)]
pub fn unmap_between(low: i32, high: i32, scaled: i32, delta: u16) -> i32
    requires low_in { negsuc 32767 ≤ℤ low }
    requires high_in { high ≤ℤ (low +ℤ pos 65535) }
    requires high_top { high ≤ℤ pos 65535 }
    requires scaled_low { (pos 2 *ℤ low) ≤ℤ scaled }
    requires scaled_high { scaled ≤ℤ (pos 2 *ℤ high +ℤ pos 1) }
    requires delta_in { pos delta ≤ℤ (high -ℤ low) }
    ensures value { result ≡ unmapped_between low high scaled delta }
    ensures range { Between low high result }
    ensures inverse { mapped_between low high scaled result ≡ delta }
{
    let predicted = prediction_of(scaled);
    let theta = theta_of(low, high, predicted);
    let below = span_of(low, predicted);
    predicted + unmap_error(theta, below, scaled.unsigned_abs(), delta as u32)
}

/// Returns all ones where twice the sample of the mapped residual `delta` is less than the scaled prediction, else 0.
///
/// Parities tell it before the sample is found.
#[inline(always)]
fn sign_mask_between(low: i32, high: i32, scaled: i32, delta: u16) -> i32
    requires low_in { negsuc 32767 ≤ℤ low }
    requires high_in { high ≤ℤ (low +ℤ pos 65535) }
    requires high_top { high ≤ℤ pos 65535 }
    requires scaled_low { (pos 2 *ℤ low) ≤ℤ scaled }
    requires scaled_high { scaled ≤ℤ (pos 2 *ℤ high +ℤ pos 1) }
    ensures value { int_lt result (pos 0) ≡ int_lt (pos 2 *ℤ unmapped_between low high scaled delta -ℤ scaled) (pos 0) }
    ensures least { negsuc 0 ≤ℤ result }
    ensures most { result ≤ℤ pos 0 }
{
    let predicted = prediction_of(scaled);
    let theta = theta_of(low, high, predicted);
    let below = span_of(low, predicted);
    sign_mask_of_number(theta, below, scaled.unsigned_abs(), delta as u32)
}

/// Returns both: the sample of the mapped residual `delta`, and all ones where twice the sample is less than the scaled
/// prediction, else 0.
///
/// The scaled prediction is `center`, at most 2^26 with either sign, clipped. Where the prediction is at least half of `delta`
/// away from both ends of the range, as it mostly is, nothing was clipped, and both take a few steps.
#[inline(always)]
pub fn unmap_by_center(low: i32, high: i32, center: i32, delta: u16) -> (i32, i32)
    requires low_in { negsuc 32767 ≤ℤ low }
    requires order { low ≤ℤ high }
    requires high_in { high ≤ℤ (low +ℤ pos 65535) }
    requires high_top { high ≤ℤ pos 65535 }
    requires center_in { unsigned_abs center ≤ 2 ^ 26 }
    requires delta_in { pos delta ≤ℤ (high -ℤ low) }
    ensures value { result.0 ≡ unmapped_between low high (clip center (pos 2 *ℤ low) (pos 2 *ℤ high +ℤ pos 1)) delta }
    ensures range { Between low high result.0 }
    ensures inverse { mapped_between low high (clip center (pos 2 *ℤ low) (pos 2 *ℤ high +ℤ pos 1)) result.0 ≡ delta }
    ensures sign { int_lt result.1 (pos 0) ≡ int_lt (pos 2 *ℤ result.0 -ℤ clip center (pos 2 *ℤ low) (pos 2 *ℤ high +ℤ pos 1)) (pos 0) }
    ensures least { negsuc 0 ≤ℤ result.1 }
    ensures most { result.1 ≤ℤ pos 0 }
{
    let predicted = prediction_of(center);
    let half = (delta as u32 + 1) / 2;
    let below = predicted - half as i32;
    let above = predicted + half as i32;
    if below < low || high < above {
        return unmap_far(low, high, clipped(low, high, center), delta);
    }
    if (delta as u32 + center.unsigned_abs()) % 2 == 0 {
        (above, 0)
    } else {
        (below, -1)
    }
}

/// Returns the scaled prediction, which is a number clipped to its range.
fn clipped(low: i32, high: i32, center: i32) -> i32
    requires low_in { negsuc 32767 ≤ℤ low }
    requires order { low ≤ℤ high }
    requires high_top { high ≤ℤ pos 65535 }
    ensures value { result ≡ clip center (pos 2 *ℤ low) (pos 2 *ℤ high +ℤ pos 1) }
    ensures least { (pos 2 *ℤ low) ≤ℤ result }
    ensures most { result ≤ℤ (pos 2 *ℤ high +ℤ pos 1) }
{
    center.min(2 * high + 1).max(2 * low)
}

/// Returns the sample of a mapped residual by its scaled prediction, wherever in the range it is, and all ones where twice the
/// sample is less than the scaled prediction, else 0.
#[cold]
fn unmap_far(low: i32, high: i32, scaled: i32, delta: u16) -> (i32, i32)
    requires low_in { negsuc 32767 ≤ℤ low }
    requires high_in { high ≤ℤ (low +ℤ pos 65535) }
    requires high_top { high ≤ℤ pos 65535 }
    requires scaled_low { (pos 2 *ℤ low) ≤ℤ scaled }
    requires scaled_high { scaled ≤ℤ (pos 2 *ℤ high +ℤ pos 1) }
    requires delta_in { pos delta ≤ℤ (high -ℤ low) }
    ensures value { result.0 ≡ unmapped_between low high scaled delta }
    ensures range { Between low high result.0 }
    ensures inverse { mapped_between low high scaled result.0 ≡ delta }
    ensures sign { int_lt result.1 (pos 0) ≡ int_lt (pos 2 *ℤ unmapped_between low high scaled delta -ℤ scaled) (pos 0) }
    ensures least { negsuc 0 ≤ℤ result.1 }
    ensures most { result.1 ≤ℤ pos 0 }
{
    let sample = unmap_between(low, high, scaled, delta);
    (sample, sign_mask_between(low, high, scaled, delta))
}

/// Returns half of a scaled prediction, rounded down.
#[inline(always)]
pub fn prediction_of(scaled: i32) -> i32
    ensures value { result ≡ floor_div scaled 2 }
    ensures low { (pos 2 *ℤ result) ≤ℤ scaled }
    ensures high { scaled ≤ℤ (pos 2 *ℤ result +ℤ pos 1) }
{
    scaled >> 1
}

/// Returns θ: the distance from the predicted sample to the nearer limit of the range.
#[inline(always)]
fn theta_of(low: i32, high: i32, predicted: i32) -> u32
    requires low_in { negsuc 32767 ≤ℤ low }
    requires high_in { high ≤ℤ (low +ℤ pos 65535) }
    requires at_least { low ≤ℤ predicted }
    requires at_most { predicted ≤ℤ high }
    ensures value { result ≡ theta_between low high predicted }
    ensures low_end { pos result ≤ℤ (predicted -ℤ low) }
    ensures high_end { pos result ≤ℤ (high -ℤ predicted) }
{
    span_of(low, predicted).min(span_of(predicted, high))
}

/// Returns the distance between two numbers, the lower one given first.
#[inline(always)]
fn span_of(low: i32, high: i32) -> u32
    requires order { low ≤ℤ high }
    requires near { high ≤ℤ (low +ℤ pos 65535) }
    ensures { result ≡ unsigned_abs (high -ℤ low) }
{
    (high - low) as u32
}

/// Returns whether the error has the sign that the scaled prediction's parity asks for.
#[inline(always)]
fn has_sign(scaled: i32, error: i32) -> bool
    ensures { result ≡ agrees scaled error }
{
    if scaled.unsigned_abs() % 2 == 0 {
        0 <= error
    } else {
        error <= 0
    }
}

/// Maps a prediction residual to a number: up to θ both signs alternate, and beyond it each size has one
/// number.
///
/// `size` is its absolute value, and `sign` whether it has the sign that the scaled prediction's parity asks
/// for.
#[inline(always)]
fn map_error(theta: u32, size: u32, sign: bool) -> u32
    requires fits { size + min size theta ≤ 65535 }
    requires zero { size ≡ 0 → IsTrue sign }
    ensures value { result ≡ number_of theta size sign }
    ensures bound { result ≤ 65535 }
{
    if size > theta {
        size + theta
    } else if sign {
        2 * size
    } else {
        2 * size - 1
    }
}

/// The prediction residual that is mapped to `number`: the inverse of [`map_error`].
///
/// `below` is the distance from the predicted sample to the lower limit, and `parity` has the scaled prediction's parity.
#[inline(always)]
fn unmap_error(theta: u32, below: u32, parity: u32, number: u32) -> i32
    requires theta_in { theta ≤ 65535 }
    requires number_in { number ≤ 65535 }
    requires parity_in { parity ≤ 131072 }
    ensures { result ≡ error_of theta below parity number }
{
    if 2 * theta < number {
        let size = (number - theta) as i32;
        if theta < below { -size } else { size }
    } else {
        let size = ((number + 1) / 2) as i32;
        if (number + parity) % 2 == 0 {
            size
        } else {
            -size
        }
    }
}

/// Returns all ones where twice the error that is mapped to `number` is less than the scaled prediction's parity, else 0.
///
/// `below` and `parity` are as for [`unmap_error`].
#[inline(always)]
fn sign_mask_of_number(theta: u32, below: u32, parity: u32, number: u32) -> i32
    requires theta_in { theta ≤ 65535 }
    requires number_in { number ≤ 65535 }
    requires parity_in { parity ≤ 131072 }
    ensures value { int_lt result (pos 0) ≡ int_lt (pos 2 *ℤ error_of theta below parity number -ℤ pos (parity % 2)) (pos 0) }
    ensures least { negsuc 0 ≤ℤ result }
    ensures most { result ≤ℤ pos 0 }
{
    if 2 * theta < number {
        if theta < below { -1 } else { 0 }
    } else {
        -(((number + parity) % 2) as i32)
    }
}
