//! The initial weights of a band.

ghost use Rattle.std.specs.Prelude.{◌≡◌, ◌+◌, ◌-◌, ◌*◌, ◌^◌, ◌<◌, ◌≤◌, pos, ◌++◌, drop, length, map, nat_le, replicate, take, unsigned_abs, if◌then◌else◌};
ghost use Rattle.std.specs.List.{AllByRecursion};
ghost use Rattle.cube_core.specs.Shape.{InRange};
ghost use Rattle.header_bits.specs.Lawful.{IsLawful, IsSigned};
ghost use Rattle.sample_prediction.specs.Predictor.{predictor_of, previous_bands};
ghost use Rattle.sample_prediction.specs.Weights.{eighths, start_weights, table_weight as weight_from, entries_before as entries_in_front};
ghost use Rattle.sample_prediction.specs.declared.predictor.Predictor.{Predictor as Settled};
ghost use Rattle.sample_prediction.specs.Bounds.{AllWithin};

use crate::predictor::MOST_COMPONENTS;
use header_bits::params::{Params, WeightStart};

/// Returns the initial weights of band `z`, at the front of the array: `first` directional ones, 0 in reduced mode and else 3,
/// and those of `near` bands below, the lesser of `z` and P (CCSDS 123.0-B-1, "Weight Initialization").
pub fn start_of(params: &Params, z: u32, first: usize, near: usize) -> [i32; MOST_COMPONENTS]
    requires lawful { IsLawful params.now }
    requires band { z < params.now.shape.bands }
    requires directions { first ≡ (if params.now.reduced then 0 else 3) }
    requires below { near ≡ previous_bands (predictor_of params.now) z }
    ensures value { take (first + near) result ≡ start_weights params.now z }
    ensures bound { AllWithin (2 ^ (params.now.omega + 2)) result }
{
    match &params.start {
        WeightStart::Usual => default_weights(params.omega, first, near),
        WeightStart::Table { q, values } => {
            let from = entries_before(z, first, params.previous);
            let entries = entries_from(values.as_slice(), from, first + near);
            table_start(params.omega, *q, entries)
        }
    }
}

/// Returns the default weights: 0 for the `first` directional components; of the `count` bands below seven
/// eighths for the nearest, and an eighth of the weight before for each other
/// (CCSDS 123.0-B-1, "Weight Initialization").
pub fn default_weights(omega: u32, first: usize, count: usize) -> [i32; MOST_COMPONENTS]
    requires omega_in { (4 ≤ omega) × (omega ≤ 19) }
    requires room { first + count ≤ 18 }
    ensures value { result ≡ replicate first (pos 0) ++ eighths (pos (7 * 2 ^ (omega - 3))) count ++ replicate (18 - first - count) (pos 0) }
    ensures bound { AllWithin (2 ^ (omega + 2)) result }
{
    let mut weights = [0i32; MOST_COMPONENTS];
    let mut weight = 7i32 << (omega - 3);
    for i in 0..count {
        weights[first + i] = weight;
        weight >>= 3;
    }
    weights
}

/// Returns `count` entries of a table, from entry `from` on.
fn entries_from(values: &[i32], from: usize, count: usize) -> &[i32]
    requires { from + count ≤ length values.now }
    ensures { result.now ≡ take count (drop from values.now) }
{
    &values[from..from + count]
}

/// Returns how many entries of a weight table come before those of band `z`, where each band has `first` of
/// them and one for each band below, but at most `previous` of the latter.
fn entries_before(z: u32, first: usize, previous: u32) -> usize
    requires bands { z < 65536 }
    requires directions { first ≤ 3 }
    requires few { previous ≤ 15 }
    ensures { (p : Settled) → p.previous ≡ previous → first ≡ (if p.reduced then 0 else 3) → result ≡ entries_in_front p z }
{
    let z = z as usize;
    let most = previous as usize;
    let near = z.min(most);
    z * first + near * near.saturating_sub(1) / 2 + (z - near) * most
}

/// Returns the weights that entries of `q` bits stand for: the bits of an entry are the highest of a weight; below them come a
/// zero and then ones.
fn table_start(omega: u32, q: u32, entries: &[i32]) -> [i32; MOST_COMPONENTS]
    requires omega_in { (4 ≤ omega) × (omega ≤ 19) }
    requires bits { InRange 3 (omega + 3) q }
    requires few { length entries.now ≤ 18 }
    requires signed { AllByRecursion (IsSigned q) entries.now }
    ensures value { take (length entries.now) result ≡ map (weight_from omega q) entries.now }
    ensures bound { AllWithin (2 ^ (omega + 2)) result }
{
    let mut weights = [0i32; MOST_COMPONENTS];
    for i in 0..entries.len() {
        weights[i] = table_weight(omega, q, entries[i]);
    }
    weights
}

/// Returns the weight that an entry of `q` bits stands for.
fn table_weight(omega: u32, q: u32, entry: i32) -> i32
    requires omega_in { (4 ≤ omega) × (omega ≤ 19) }
    requires bits { InRange 3 (omega + 3) q }
    requires signed { IsSigned q entry }
    ensures value { result ≡ weight_from omega q entry }
    ensures bound { unsigned_abs result ≤ 2 ^ (omega + 2) }
{
    let scale = power(omega + 3 - q);
    entry * scale + ones_below(omega, q)
}

/// Returns the bits of a weight below those of an entry: a zero and then ones, or none where the entry has all Ω + 3 bits.
fn ones_below(omega: u32, q: u32) -> i32
    requires omega_in { omega ≤ 19 }
    requires bits { InRange 3 (omega + 3) q }
    ensures value { result ≡ pos (if nat_le q (omega + 2) then 2 ^ (omega + 2 - q) - 1 else 0) }
{
    if q <= omega + 2 {
        power(omega + 2 - q) - 1
    } else {
        0
    }
}

/// Returns a power of two.
fn power(exponent: u32) -> i32
    requires { exponent ≤ 21 }
    ensures value { result ≡ pos (2 ^ exponent) }
{
    1 << exponent
}
