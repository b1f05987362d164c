//! The exponent of the weights' steps.

ghost use Rattle.std.specs.Prelude.{◌≡◌, ◌+◌, ◌/◌, ◌^◌, ◌<◌, ◌≤◌, ℕ, pos, negsuc, ◌≤ℤ◌, ◌+ℤ◌, ◌-ℤ◌, unsigned_abs};
ghost use Rattle.sample_prediction.specs.Arithmetic.{floor_div, clip};
ghost use Rattle.sample_prediction.specs.Weights.{growth, step_exponent};
ghost use Rattle.sample_prediction.specs.Bounds.{IsPredictor};

use crate::predictor::Predictor;
use crate::register::floor_shift;

/// Returns the exponent of the steps after place `t`, for rows of `columns` columns and samples of `bits` bits.
#[inline(always)]
pub fn exponent_at(predictor: &Predictor, columns: u32, bits: u32, t: u64) -> i32
    requires lawful { IsPredictor predictor.now }
    requires columns_in { columns ≤ 65536 }
    requires bits_in { (2 ≤ bits) × (bits ≤ 16) }
    requires t_in { t < 2 ^ 32 }
    ensures value { result ≡ step_exponent predictor.now columns bits t }
    ensures least { (pos bits -ℤ pos 25) ≤ℤ result }
    ensures most { result ≤ℤ pos 21 }
{
    growth_at(predictor, columns, t) + bits as i32 - predictor.omega as i32
}

/// Returns the exponent at place `t` without the term D - Ω: v_min, plus one for each interval since the second row began, and at
/// most v_max.
#[inline(always)]
fn growth_at(predictor: &Predictor, columns: u32, t: u64) -> i32
    requires lawful { IsPredictor predictor.now }
    requires columns_in { columns ≤ 65536 }
    requires t_in { t < 2 ^ 32 }
    ensures value { result ≡ growth predictor.now columns t }
    ensures least { negsuc 5 ≤ℤ result }
    ensures most { result ≤ℤ pos 9 }
{
    let least = predictor.vmin as i64;
    let greatest = predictor.vmax as i64;
    let intervals = intervals_at(predictor.interval_log, columns, t);
    (least + intervals).clamp(least, greatest) as i32
}

/// Returns how many whole intervals have passed since the second row began; it is negative in the first row.
#[inline(always)]
fn intervals_at(interval_log: u32, columns: u32, t: u64) -> i64
    requires interval_in { interval_log ≤ 11 }
    requires columns_in { columns ≤ 65536 }
    requires t_in { t < 2 ^ 32 }
    ensures value { result ≡ floor_div (pos t -ℤ pos columns) (2 ^ interval_log) }
    ensures bound { unsigned_abs result ≤ 2 ^ 33 }
{
    floor_shift(t as i64 - columns as i64, interval_log)
}

/// Returns for how many places from place `t` on, at most `most`, the exponent certainly stays the same: at
/// least one.
///
/// It changes with each interval from the second row on, until it is the greatest.
pub fn places_alike(predictor: &Predictor, columns: u32, t: u64, most: usize) -> usize
    requires lawful { IsPredictor predictor.now }
    requires columns_in { columns ≤ 65536 }
    requires t_in { t < 2 ^ 32 }
    requires some { 1 ≤ most }
    ensures some { 1 ≤ result }
    ensures few { result ≤ most }
    ensures alike { (bits k : ℕ) → k < result → step_exponent predictor.now columns bits (t + k) ≡ step_exponent predictor.now columns bits t }
{
    let width = columns as u64;
    if t < width {
        (width - t).min(most as u64) as usize
    } else {
        alike_after(predictor, t - width, most)
    }
}

/// `places_alike` for `t` counted from the second row.
fn alike_after(predictor: &Predictor, t: u64, most: usize) -> usize
    requires lawful { IsPredictor predictor.now }
    requires t_in { t < 2 ^ 32 }
    requires some { 1 ≤ most }
    ensures some { 1 ≤ result }
    ensures few { result ≤ most }
    ensures alike { (k : ℕ) → k < result → clip (predictor.now.vmin +ℤ pos ((t + k) / 2 ^ predictor.now.interval_log)) predictor.now.vmin predictor.now.vmax
        ≡ clip (predictor.now.vmin +ℤ pos (t / 2 ^ predictor.now.interval_log)) predictor.now.vmin predictor.now.vmax }
{
    let intervals = intervals_in(predictor.interval_log, t);
    if predictor.vmin as i64 + intervals as i64 >= predictor.vmax as i64 {
        most
    } else {
        left_of_interval(predictor.interval_log, t, intervals).min(most as u64) as usize
    }
}

/// Returns how many whole intervals are in `t` places.
fn intervals_in(interval_log: u32, t: u64) -> u64
    requires interval_in { interval_log ≤ 11 }
    requires t_in { t < 2 ^ 32 }
    ensures value { result ≡ t / 2 ^ interval_log }
    ensures bound { result < 2 ^ 32 }
{
    t >> interval_log
}

/// Returns how many places from place `t` on are in its interval, which follows `intervals` whole ones.
fn left_of_interval(interval_log: u32, t: u64, intervals: u64) -> u64
    requires interval_in { interval_log ≤ 11 }
    requires t_in { t < 2 ^ 32 }
    requires intervals_are { intervals ≡ t / 2 ^ interval_log }
    ensures some { 1 ≤ result }
    ensures alike { (k : ℕ) → k < result → (t + k) / 2 ^ interval_log ≡ intervals }
{
    ((intervals + 1) << interval_log) - t
}
