//! A code parameter that is kept as long as residuals have it.

ghost use Rattle.std.specs.Prelude.{◌≡◌, ◌+◌, ◌*◌, ◌^◌, ◌<◌, ◌≤◌};
ghost use Rattle.sample_adaptive.specs.Runs.{IsKeptCode};
ghost use Rattle.sample_adaptive.specs.Statistics.{AreStatistics, code_parameter};
ghost use Rattle.sample_adaptive.specs.Thresholds.{AreThresholds};

use crate::code_settings::CodeSettings;
use crate::statistics::{Statistics, parameter};
use crate::thresholds::ROW;

/// A code parameter, and what depends on it alone.
#[derive(Clone, Copy)]
pub(crate) struct KeptCode {
    /// k, the code parameter.
    pub k: u32,
    /// 2^k.
    pub one: u64,
    /// k + 1, the length of a code word without zeros.
    pub shortest: u32,
    /// Where the table has the threshold of k at the counter of a piece's first residual.
    pub first: usize,
}

impl KeptCode {
    /// Returns the code parameter k, with what depends on it, for a piece that begins with this counter.
    #[inline(always)]
    pub(crate) fn of(bits: u32, counter: u32, k: u32) -> KeptCode
        requires { (k + 2 ≤ bits) × (bits ≤ 16) × (counter < 2 ^ 9) }
        ensures k { result.k ≡ k }
        ensures kept { IsKeptCode bits counter result }
    {
        KeptCode {
            k,
            one: 1 << k,
            shortest: k + 1,
            first: ROW * k as usize + counter as usize,
        }
    }

    /// Returns the code parameter of residual `i` of a piece, which mostly is this one: two thresholds show that it is.
    ///
    /// `counter` is that of the first residual, and `accumulator` that of this one.
    #[inline(always)]
    pub(crate) fn settled(
        self,
        settings: CodeSettings,
        thresholds: &[u32],
        counter: u32,
        i: usize,
        accumulator: u32,
    ) -> KeptCode
        requires kept { IsKeptCode settings.bits counter self }
        requires table { AreThresholds settings.bits settings.rescaling.size thresholds.now }
        requires statistics { AreStatistics settings.rescaling.size (record { counter = counter + i; accumulator = accumulator }) }
        ensures k { result.k ≡ code_parameter settings.bits (record { counter = counter + i; accumulator = accumulator }) }
        ensures kept { IsKeptCode settings.bits counter result }
    {
        let at = self.first + i;
        if thresholds[at] <= accumulator && accumulator < thresholds[at + ROW] {
            return self;
        }
        KeptCode::anew(settings.bits, counter, i as u32, accumulator)
    }

    /// `settled`, from the statistics alone. Apart from the loops that keep a code parameter: they are shorter so, and nothing is
    /// passed in memory.
    #[cold]
    #[inline(never)]
    fn anew(bits: u32, counter: u32, i: u32, accumulator: u32) -> KeptCode
        requires bits { (2 ≤ bits) × (bits ≤ 16) }
        requires counter { (1 ≤ counter + i) × (counter + i < 2 ^ 9) }
        requires accumulator { accumulator < 2 ^ 25 }
        ensures k { result.k ≡ code_parameter bits (record { counter = counter + i; accumulator = accumulator }) }
        ensures kept { IsKeptCode bits counter result }
    {
        let s = Statistics {
            counter: counter + i,
            accumulator,
        };
        KeptCode::of(bits, counter, parameter(bits, s))
    }
}
