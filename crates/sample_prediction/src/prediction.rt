//! The scaled prediction at a place that is not the first of its band.

ghost use Rattle.std.specs.Prelude.{◌≡◌, ◌+◌, ◌*◌, ◌^◌, ◌<◌, ◌≤◌, false, pos, negsuc, ◌≤ℤ◌, ◌+ℤ◌, ◌-ℤ◌, ◌*ℤ◌, unsigned_abs, ◌-◌, ℤ, List, length, take};
ghost use Rattle.std.specs.Prelude.{◌++◌, replicate};
ghost use Rattle.sample_prediction.specs.Arithmetic.{clip, floor_div, wrapped};
ghost use Rattle.sample_prediction.specs.Prediction.{inner_product, scaled_by as scaled_of};
ghost use Rattle.sample_prediction.specs.Chain.{scaled_by_difference};
ghost use Rattle.sample_prediction.specs.Mapping.{IsScaled};
ghost use Rattle.cube_core.specs.Kind.{smin, smid, smax};
ghost use Rattle.sample_prediction.specs.Bounds.{AllWithin, IsPredictor};

use crate::predictor::{MOST_COMPONENTS, Predictor};
use crate::register::{floor_shift, register_of, wrapped_value};
use crate::sample_limits::SampleLimits;
use crate::weights::{product_of, product_of_first};

/// Returns the scaled predicted sample value, from the local sum, the weights and the differences.
///
/// `sum` is the local sum of the samples, not of their offsets. `count` is at most 18, and the differences from index `count` on
/// are 0.
#[inline(always)]
pub fn scaled_by(
    predictor: &Predictor,
    range: &SampleLimits,
    count: usize,
    sum: i32,
    weights: &[i32; MOST_COMPONENTS],
    differences: &[i32; MOST_COMPONENTS],
) -> i32
    requires lawful { IsPredictor predictor.now }
    requires count_in { count ≤ 18 }
    requires weights_in { AllWithin (2 ^ (predictor.now.omega + 2)) weights.now }
    requires differences_in { AllWithin (2 ^ 18) differences.now }
    requires sum_in { (negsuc 131071 ≤ℤ sum) × (sum ≤ℤ pos 262140) }
    ensures value { (us : List ℤ) → length us ≡ count → differences.now ≡ us ++ replicate (18 - count) (pos 0)
        → result ≡ scaled_of predictor.now range.now.kind sum (take count weights.now) us }
    ensures scaled { IsScaled range.now.kind result }
{
    let product = product_of(count, weights, differences);
    scaled_by_product(predictor, range, sum, product)
}

/// Returns the scaled predicted sample value from the sum of the products of weights and differences.
#[inline(always)]
fn scaled_by_product(predictor: &Predictor, range: &SampleLimits, sum: i32, product: i64) -> i32
    requires lawful { IsPredictor predictor.now }
    requires product_in { unsigned_abs product ≤ 2 ^ 44 }
    requires sum_in { (negsuc 131071 ≤ℤ sum) × (sum ≤ℤ pos 262140) }
    ensures value { (ws us : List ℤ) → product ≡ inner_product ws us → result ≡ scaled_of predictor.now range.now.kind sum ws us }
    ensures scaled { IsScaled range.now.kind result }
{
    let middle = range.smid;
    let register = wrapped_value(
        predictor.register,
        register_of(predictor.omega, product, sum, middle),
    );
    let upper = floor_shift(register, predictor.omega + 1);
    scaled_from(range.smin, range.smax, middle, upper)
}

/// Returns the predicted central difference at a place, by the first `N` weights. The scaled prediction follows
/// from it.
///
/// It is the sum of the products, without the weights' fraction, rounded down. Where the register may wrap, it is a difference
/// that leads to the same scaled prediction. `WRAPS` may be false only for a register of 46 bits or more, which never wraps.
/// `sum` is the local sum of the samples, not of their offsets.
#[inline(always)]
pub fn predicted_difference<const N: usize, const WRAPS: bool>(
    predictor: &Predictor,
    range: &SampleLimits,
    sum: i32,
    weights: &[i32; MOST_COMPONENTS],
    differences: &[i32; MOST_COMPONENTS],
) -> i32
    requires few { N ≤ 18 }
    requires lawful { IsPredictor predictor.now }
    requires register { WRAPS ≡ false → 46 ≤ predictor.now.register }
    requires weights_in { AllWithin (2 ^ (predictor.now.omega + 2)) weights.now }
    requires differences_in { AllWithin (2 ^ 18) differences.now }
    requires sum_in { (negsuc 131071 ≤ℤ sum) × (sum ≤ℤ pos 262140) }
    ensures scaled { scaled_of predictor.now range.now.kind sum (take N weights.now) (take N differences.now) ≡ scaled_by_difference range.now.kind result sum }
    ensures bound { unsigned_abs result ≤ 18 * 2 ^ 20 }
{
    let product = product_of_first::<N>(weights, differences);
    let part = whole_product(predictor.omega, product);
    if may_wrap::<WRAPS>(predictor, range, sum, product, part) {
        wrapped_difference(predictor, range, sum, product)
    } else {
        part
    }
}

/// Returns whether the register may wrap: `part` is the sum of the products, `product`, without the weights' fraction, and `sum`
/// is the local sum.
///
/// The test takes 32 bits. Its branch is mostly predicted, so that the weights don't wait for it.
#[inline(always)]
fn may_wrap<const WRAPS: bool>(
    predictor: &Predictor,
    range: &SampleLimits,
    sum: i32,
    product: i64,
    part: i32,
) -> bool
    requires lawful { IsPredictor predictor.now }
    requires register { WRAPS ≡ false → 46 ≤ predictor.now.register }
    requires part_is { part ≡ floor_div product (2 ^ predictor.now.omega) }
    requires part_in { unsigned_abs part ≤ 18 * 2 ^ 20 }
    requires sum_in { (negsuc 131071 ≤ℤ sum) × (sum ≤ℤ pos 262140) }
    ensures kept { result ≡ false → wrapped predictor.now.register (product +ℤ pos (2 ^ predictor.now.omega) *ℤ (sum -ℤ pos 4 *ℤ smid range.now.kind))
        ≡ product +ℤ pos (2 ^ predictor.now.omega) *ℤ (sum -ℤ pos 4 *ℤ smid range.now.kind) }
{
    let upper = part + (sum - 4 * range.smid);
    WRAPS && register_limit(predictor) <= upper.unsigned_abs()
}

/// Returns a power of two: every number of a smaller size, of either sign, fits in the register above the weights' fraction.
#[inline(always)]
fn register_limit(predictor: &Predictor) -> u32
    requires { IsPredictor predictor.now }
    ensures { result * 2 ^ predictor.now.omega ≤ 2 ^ (predictor.now.register - 1) }
{
    1 << (predictor.register - 1 - predictor.omega).min(30)
}

/// Returns the predicted central difference where the register wraps, from the sum of the products.
#[cold]
fn wrapped_difference(predictor: &Predictor, range: &SampleLimits, sum: i32, product: i64) -> i32
    requires lawful { IsPredictor predictor.now }
    requires product_in { unsigned_abs product ≤ 2 ^ 44 }
    requires sum_in { (negsuc 131071 ≤ℤ sum) × (sum ≤ℤ pos 262140) }
    ensures scaled { (ws us : List ℤ) → product ≡ inner_product ws us
        → scaled_of predictor.now range.now.kind sum ws us ≡ scaled_by_difference range.now.kind result sum }
    ensures bound { unsigned_abs result ≤ 18 * 2 ^ 20 }
{
    difference_of(scaled_by_product(predictor, range, sum, product), sum)
}

/// Returns the sum of the products, without the weights' fraction, rounded down.
#[inline(always)]
fn whole_product(omega: u32, product: i64) -> i32
    requires omega_in { omega ≤ 19 }
    requires product_in { unsigned_abs product ≤ 18 * (2 ^ (omega + 2) * 2 ^ 18) }
    ensures value { result ≡ floor_div product (2 ^ omega) }
    ensures bound { unsigned_abs result ≤ 18 * 2 ^ 20 }
{
    floor_shift(product, omega) as i32
}

/// Returns the predicted central difference that leads to a scaled prediction, where the local sum is `sum`.
#[inline(always)]
fn difference_of(scaled: i32, sum: i32) -> i32
    requires scaled_in { (negsuc 65535 ≤ℤ scaled) × (scaled ≤ℤ pos 131071) }
    requires sum_in { (negsuc 131071 ≤ℤ sum) × (sum ≤ℤ pos 262140) }
    ensures value { result ≡ pos 2 *ℤ scaled -ℤ pos 2 -ℤ sum }
    ensures bound { unsigned_abs result ≤ 18 * 2 ^ 20 }
{
    2 * scaled - 2 - sum
}

/// Returns the scaled prediction before it is clipped: the upper part of the register, plus twice the middle, plus 1.
#[inline(always)]
fn center_of(upper: i64, middle: i32) -> i64
    requires upper_in { unsigned_abs upper ≤ 2 ^ 62 }
    requires middle_in { (pos 0 ≤ℤ middle) × (middle ≤ℤ pos 32768) }
    ensures { result ≡ upper +ℤ pos 2 *ℤ middle +ℤ pos 1 }
{
    upper + (2 * middle) as i64 + 1
}

/// Returns the scaled prediction from the upper part of the register.
#[inline(always)]
fn scaled_from(low: i32, high: i32, middle: i32, upper: i64) -> i32
    requires upper_in { unsigned_abs upper ≤ 2 ^ 62 }
    requires low_in { (negsuc 32767 ≤ℤ low) × (low ≤ℤ pos 0) }
    requires high_in { (pos 1 ≤ℤ high) × (high ≤ℤ pos 65535) }
    requires middle_in { (pos 0 ≤ℤ middle) × (middle ≤ℤ pos 32768) }
    ensures value { result ≡ clip (upper +ℤ pos 2 *ℤ middle +ℤ pos 1) (pos 2 *ℤ low) (pos 2 *ℤ high +ℤ pos 1) }
    ensures low_end { (pos 2 *ℤ low) ≤ℤ result }
    ensures high_end { result ≤ℤ (pos 2 *ℤ high +ℤ pos 1) }
{
    let center = center_of(upper, middle);
    center.clamp((2 * low) as i64, (2 * high + 1) as i64) as i32
}
