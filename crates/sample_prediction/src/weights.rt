//! The weights of the differences: their products, and their update.

ghost use Rattle.std.specs.Prelude.{if◌then◌else◌, ◌≡◌, ◌+◌, ◌-◌, ◌*◌, ◌^◌, ◌≤◌, pos, negsuc, ◌≤ℤ◌, ◌+ℤ◌, ◌-ℤ◌, ◌*ℤ◌, unsigned_abs, int_lt};
ghost use Rattle.std.specs.Prelude.{ℕ, ℤ, List, length, take};
ghost use Rattle.std.specs.Prelude.{◌++◌, replicate};
ghost use Rattle.sample_prediction.specs.Arithmetic.{floor_div, clip};
ghost use Rattle.sample_prediction.specs.Prediction.{inner_product};
ghost use Rattle.sample_prediction.specs.Weights.{step, weight_min, weight_max, updated_weight as updated, updated_weights};
ghost use Rattle.sample_prediction.specs.Bounds.{AllWithin};

use crate::predictor::MOST_COMPONENTS;

/// Returns the sum of the products of the weights in use with their differences.
///
/// `count` is at most 18, and the differences from index `count` on are 0. It loops over 0, 8 or 18 components, a count known at
/// compile time.
#[inline(always)]
pub fn product_of(
    count: usize,
    weights: &[i32; MOST_COMPONENTS],
    differences: &[i32; MOST_COMPONENTS],
) -> i64
    requires count_in { count ≤ 18 }
    requires weights_in { AllWithin (2 ^ 21) weights.now }
    requires differences_in { AllWithin (2 ^ 18) differences.now }
    ensures value { (us : List ℤ) → length us ≡ count → differences.now ≡ us ++ replicate (18 - count) (pos 0)
        → result ≡ inner_product (take count weights.now) us }
    ensures bound { unsigned_abs result ≤ 2 ^ 44 }
    ensures bound_by { (n : ℕ) → AllWithin n weights.now → unsigned_abs result ≤ 18 * (n * 2 ^ 18) }
{
    if count == 0 {
        0
    } else if count <= 8 {
        product_of_first::<8>(weights, differences)
    } else {
        product_of_first::<MOST_COMPONENTS>(weights, differences)
    }
}

/// Returns the sum of the products of the first `N` weights with their differences.
#[inline(always)]
pub fn product_of_first<const N: usize>(
    weights: &[i32; MOST_COMPONENTS],
    differences: &[i32; MOST_COMPONENTS],
) -> i64
    requires few { N ≤ 18 }
    requires weights_in { AllWithin (2 ^ 21) weights.now }
    requires differences_in { AllWithin (2 ^ 18) differences.now }
    ensures value { result ≡ inner_product (take N weights.now) (take N differences.now) }
    ensures bound { unsigned_abs result ≤ 2 ^ 44 }
    ensures bound_by { (n : ℕ) → AllWithin n weights.now → unsigned_abs result ≤ 18 * (n * 2 ^ 18) }
{
    let mut sum = 0i64;
    for i in 0..N {
        let product = weights[i] as i64 * differences[i] as i64;
        sum += product;
    }
    sum
}

/// Updates each weight by its scaled difference, with the sign of the error
/// (CCSDS 123.0-B-1, "Weight Update").
///
/// `count` is at most 18, and the differences from index `count` on are 0. All differences are scaled up or down in the same way,
/// in words of 32 bits.
#[inline(always)]
pub fn update(
    count: usize,
    weights: &mut [i32; MOST_COMPONENTS],
    differences: &[i32; MOST_COMPONENTS],
    omega: u32,
    bits: u32,
    exponent: i32,
    negative: bool,
)
    requires count_in { count ≤ 18 }
    requires omega_in { omega ≤ 19 }
    requires bits_in { (2 ≤ bits) × (bits ≤ 16) }
    requires exponent_least { (pos bits -ℤ pos 25) ≤ℤ exponent }
    requires exponent_most { exponent ≤ℤ pos 21 }
    requires weights_in { AllWithin (2 ^ (omega + 2)) weights.old }
    requires differences_in { AllWithin (4 * 2 ^ bits) differences.now }
    ensures value { (us : List ℤ) → length us ≡ count → differences.now ≡ us ++ replicate (18 - count) (pos 0)
        → take count weights.new ≡ updated_weights omega exponent negative (take count weights.old) us }
    ensures bound { AllWithin (2 ^ (omega + 2)) weights.new }
{
    if count == 0 {
        return;
    }
    let sign_mask = sign_mask_of(negative);
    if count <= 8 {
        update_first::<8>(weights, differences, omega, bits, exponent, sign_mask);
    } else {
        update_first::<MOST_COMPONENTS>(weights, differences, omega, bits, exponent, sign_mask);
    }
}

/// Updates the first `N` weights. `sign_mask` is all ones where the error is negative, and 0 otherwise.
///
/// The error's sign chooses between two weights without a branch, so that the compiler vectorizes the loop.
#[inline(always)]
fn update_first<const N: usize>(
    weights: &mut [i32; MOST_COMPONENTS],
    differences: &[i32; MOST_COMPONENTS],
    omega: u32,
    bits: u32,
    exponent: i32,
    sign_mask: i32,
)
    requires few { N ≤ 18 }
    requires sign_mask_in { (negsuc 0 ≤ℤ sign_mask) × (sign_mask ≤ℤ pos 0) }
    requires omega_in { omega ≤ 19 }
    requires bits_in { (2 ≤ bits) × (bits ≤ 16) }
    requires exponent_least { (pos bits -ℤ pos 25) ≤ℤ exponent }
    requires exponent_most { exponent ≤ℤ pos 21 }
    requires weights_in { AllWithin (2 ^ (omega + 2)) weights.old }
    requires differences_in { AllWithin (4 * 2 ^ bits) differences.now }
    ensures value { take N weights.new ≡ updated_weights omega exponent (int_lt sign_mask (pos 0)) (take N weights.old) (take N differences.now) }
    ensures bound { AllWithin (2 ^ (omega + 2)) weights.new }
{
    if exponent < 0 {
        let shift = left_shift((-1 - exponent) as u32);
        update_by::<N>(weights, differences, omega, shift, sign_mask);
    } else {
        let shift = right_shift(exponent as u32);
        update_by::<N>(weights, differences, omega, shift, sign_mask);
    }
}

/// How a component becomes the step of its weight at one exponent ρ: it is shifted left, the rounding is added, and it is
/// shifted right (CCSDS 123.0-B-1, "Weight Update").
///
/// If ρ is below 0, nothing is shifted right, otherwise nothing is shifted left. So all exponents take one path, and a loop over
/// places that finds the shift beforehand has no branch.
#[derive(Clone, Copy)]
pub struct StepShift {
    /// ρ.
    pub exponent: i32,
    left: u32,
    rounding: i32,
    right: u32,
    ghost left_in: { left ≤ 22 },
    ghost rounding_in: { (pos 0 ≤ℤ rounding) × (rounding ≤ℤ pos 2097152) },
    ghost right_in: { right ≤ 22 },
    ghost steps: { (a : ℤ) → floor_div (a *ℤ pos (2 ^ left) +ℤ rounding) (2 ^ right) ≡ step exponent a },
}

impl StepShift {
    /// A placeholder, replaced before it is used.
    pub fn none() -> StepShift {
        left_shift(0)
    }
}

/// Returns the shift for steps at an exponent, for samples of `bits` bits.
#[inline(always)]
pub fn step_shift(bits: u32, exponent: i32) -> StepShift
    requires bits_in { (2 ≤ bits) × (bits ≤ 16) }
    requires exponent_least { (pos bits -ℤ pos 25) ≤ℤ exponent }
    requires exponent_most { exponent ≤ℤ pos 21 }
    ensures exponent { result.exponent ≡ exponent }
    ensures room { bits + result.left ≤ 24 }
{
    if exponent < 0 {
        left_shift((-1 - exponent) as u32)
    } else {
        right_shift(exponent as u32)
    }
}

/// Returns the shift for steps at an exponent of `-by - 1`.
#[inline(always)]
fn left_shift(by: u32) -> StepShift
    requires { by ≤ 22 }
    ensures exponent { result.exponent ≡ negsuc by }
    ensures left { result.left ≡ by }
{
    StepShift {
        exponent: -1 - by as i32,
        left: by,
        rounding: 0,
        right: 0,
    }
}

/// Returns the shift for steps at an exponent of `by`.
#[inline(always)]
fn right_shift(by: u32) -> StepShift
    requires { by ≤ 21 }
    ensures exponent { result.exponent ≡ pos by }
    ensures left { result.left ≡ 0 }
{
    StepShift {
        exponent: by as i32,
        left: 0,
        rounding: 1i32 << by,
        right: by + 1,
    }
}

/// Updates the first `N` weights by steps of a shift. `sign_mask` is all ones if the error is negative, else 0.
#[inline(always)]
pub fn update_by<const N: usize>(
    weights: &mut [i32; MOST_COMPONENTS],
    differences: &[i32; MOST_COMPONENTS],
    omega: u32,
    shift: StepShift,
    sign_mask: i32,
)
    requires few { N ≤ 18 }
    requires sign_mask_in { (negsuc 0 ≤ℤ sign_mask) × (sign_mask ≤ℤ pos 0) }
    requires omega_in { omega ≤ 19 }
    requires weights_in { AllWithin (2 ^ (omega + 2)) weights.old }
    requires differences_in { AllWithin (2 ^ (26 - shift.left)) differences.now }
    ensures value { take N weights.new ≡ updated_weights omega shift.exponent (int_lt sign_mask (pos 0)) (take N weights.old) (take N differences.now) }
    ensures bound { AllWithin (2 ^ (omega + 2)) weights.new }
{
    for i in 0..N {
        weights[i] = moved(omega, shift, sign_mask, weights[i], differences[i]);
    }
}

/// Returns one weight after an error.
#[inline(always)]
fn moved(omega: u32, shift: StepShift, sign_mask: i32, weight: i32, difference: i32) -> i32
    requires sign_mask_in { (negsuc 0 ≤ℤ sign_mask) × (sign_mask ≤ℤ pos 0) }
    requires omega_in { omega ≤ 19 }
    requires weight_in { unsigned_abs weight ≤ 2 ^ 21 }
    requires difference_in { unsigned_abs difference ≤ 2 ^ (26 - shift.left) }
    ensures value { result ≡ updated omega shift.exponent (int_lt sign_mask (pos 0)) weight difference }
    ensures bound { unsigned_abs result ≤ 2 ^ (omega + 2) }
{
    // Both weights are computed before the error is known, so that the next prediction waits only for the choice.
    let raised = clip_weight(omega, weight, stepped(shift, difference));
    let lowered = clip_weight(omega, weight, stepped(shift, -difference));
    chosen(sign_mask, raised, lowered)
}

/// Returns the word of a sign: all ones where an error is negative, else 0.
#[inline(always)]
fn sign_mask_of(negative: bool) -> i32
    ensures value { int_lt result (pos 0) ≡ negative }
    ensures low { negsuc 0 ≤ℤ result }
    ensures high { result ≤ℤ pos 0 }
{
    if negative { -1 } else { 0 }
}

/// Returns the second weight where `sign_mask` is all ones, and the first where it is 0.
#[inline(always)]
fn chosen(sign_mask: i32, raised: i32, lowered: i32) -> i32
    requires sign_mask_in { (negsuc 0 ≤ℤ sign_mask) × (sign_mask ≤ℤ pos 0) }
    requires raised_in { unsigned_abs raised ≤ 2 ^ 21 }
    requires lowered_in { unsigned_abs lowered ≤ 2 ^ 21 }
    ensures { result ≡ (if int_lt sign_mask (pos 0) then lowered else raised) }
{
    raised + ((lowered - raised) & sign_mask)
}

/// Returns the step for a size.
#[inline(always)]
fn stepped(shift: StepShift, size: i32) -> i32
    requires { unsigned_abs size ≤ 2 ^ (26 - shift.left) }
    ensures value { result ≡ floor_div (size *ℤ pos (2 ^ shift.left) +ℤ shift.rounding) (2 ^ shift.right) }
    ensures bound { unsigned_abs result ≤ 2 ^ 27 }
{
    (size * (1i32 << shift.left) + shift.rounding) >> shift.right
}

/// Returns the weight plus a step, clipped to the range of weights.
#[inline(always)]
fn clip_weight(omega: u32, weight: i32, step: i32) -> i32
    requires omega_in { omega ≤ 19 }
    requires weight_in { unsigned_abs weight ≤ 2 ^ 21 }
    requires step_in { unsigned_abs step ≤ 2 ^ 27 }
    ensures value { result ≡ clip (weight +ℤ step) (weight_min omega) (weight_max omega) }
    ensures bound { unsigned_abs result ≤ 2 ^ (omega + 2) }
{
    let limit = 1i32 << (omega + 2);
    let least = -limit;
    let greatest = limit - 1;
    (weight + step).min(greatest).max(least)
}
