//! Two neighbouring code parameters that are kept as long as residuals have them.

ghost use Rattle.std.specs.Prelude.{◌≡◌, ◌+◌, ◌^◌, ◌<◌, ◌≤◌, ℕ, length};
ghost use Rattle.sample_adaptive.specs.Runs.{IsKeptCodes};

use crate::thresholds::ROW;
use std::simd::prelude::*;

/// The most bits of a code word that is written in a lane.
const MOST_BITS: u32 = 14;

/// Two neighbouring code parameters, k and k + 1, and what depends on them alone, in each of eight lanes.
#[derive(Clone, Copy)]
pub(crate) struct KeptCodes {
    /// k, the lower code parameter.
    pub k: u32,
    /// Where the table of thresholds has the row of k.
    pub row: usize,
    /// 2^k.
    pub power: u16x8,
    /// 2^(k + 1).
    pub next_power: u16x8,
    /// k + 2, the length of a code word without zeros where the parameter is k + 1.
    pub shortest: u16x8,
    /// A code word that would have at most so many bits without an escape has none, and at most 14 bits.
    pub longest: u16x8,
}

impl KeptCodes {
    /// Returns the code parameters k and k + 1, with what depends on them.
    #[inline(always)]
    pub(crate) fn of(bits: u32, limit: u32, k: u32) -> KeptCodes
        requires { (k + 2 ≤ bits) × (bits ≤ 16) × (limit ≤ 32) }
        ensures k { result.k ≡ k }
        ensures kept { IsKeptCodes bits limit result }
    {
        KeptCodes {
            k,
            row: ROW * k as usize,
            power: u16x8::splat(1 << k),
            next_power: u16x8::splat(2 << k),
            shortest: u16x8::splat(k as u16 + 2),
            longest: u16x8::splat((limit + k).min(MOST_BITS) as u16),
        }
    }

    /// Returns the one of the two parameters, or the greatest that there is, which most likely is that of a residual with this counter and
    /// sum before it.
    #[inline(always)]
    pub(crate) fn nearer(
        self,
        bits: u32,
        thresholds: &[u32],
        counter: usize,
        accumulator: u32,
    ) -> u32
        requires kept { (limit : ℕ) × IsKeptCodes bits limit self }
        requires bits { bits ≤ 16 }
        requires table { length thresholds.now ≡ 9360 }
        requires counter { counter ≤ 2 ^ 9 }
        ensures { result + 2 ≤ bits }
    {
        let above = u32::from(thresholds[self.row + ROW + counter] <= accumulator);
        (self.k + above).min(bits - 2)
    }
}

/// Returns the lower of two neighbouring code parameters between whose thresholds a sum lies about in the middle.
///
/// k is the sum's own parameter, or was so shortly before, and `at` is where the table has its threshold.
pub(crate) fn lower_parameter(thresholds: &[u32], at: usize, k: u32, accumulator: u32) -> u32
    requires { at + 520 < length thresholds.now }
    ensures { result ≤ k }
{
    let low = u64::from(thresholds[at]);
    let high = u64::from(thresholds[at + ROW]);
    if k > 0 && 2 * u64::from(accumulator) < low + high {
        k - 1
    } else {
        k
    }
}
