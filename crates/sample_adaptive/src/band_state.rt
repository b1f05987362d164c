//! The state of each band: its statistics, and the code parameter k.

ghost use Rattle.std.specs.Prelude.{◌≡◌, ◌+◌, ◌^◌, ◌<◌, ◌≤◌};
ghost use Rattle.sample_adaptive.specs.Statistics.{AreStatistics, next_statistics, code_parameter};
ghost use Rattle.sample_adaptive.specs.BandStates.{IsBandState};
ghost use Rattle.sample_adaptive.specs.Thresholds.{AreThresholds};
ghost use Rattle.sample_adaptive.specs.declared.code_settings.CodeSettings.{CodeSettings};

use crate::code_settings::CodeSettings;
use crate::statistics::{Statistics, counted, halved, level, parameter, rare_parameter};
use crate::thresholds::ROW;

/// The statistics of a band, and the code parameter of an earlier residual, which most residuals leave as it was.
#[derive(Clone, Copy)]
pub(crate) struct BandState {
    pub statistics: Statistics,
    /// k, the code parameter of an earlier residual.
    pub k: u32,
}

impl BandState {
    /// Returns the state with these statistics, and the code parameter that they give.
    #[inline(always)]
    pub(crate) fn of(settings: CodeSettings, statistics: Statistics) -> BandState
        requires { AreStatistics settings.rescaling.size statistics }
        ensures statistics { result.statistics ≡ statistics }
        ensures value { result.k ≡ code_parameter settings.bits statistics }
        ensures state { IsBandState settings result }
    {
        let k = parameter(settings.bits, statistics);
        BandState { statistics, k }
    }

    /// Returns the state with these statistics, and a code parameter that need not be theirs.
    #[inline(always)]
    pub(crate) fn with_parameter(statistics: Statistics, k: u32) -> BandState
        requires { (k ≤ 14) × (statistics.counter < 2 ^ 9) }
        ensures statistics { result.statistics ≡ statistics }
        ensures k { result.k ≡ k }
        ensures state { (settings : CodeSettings) → AreStatistics settings.rescaling.size statistics → k + 2 ≤ settings.bits → IsBandState settings result }
    {
        BandState { statistics, k }
    }

    /// Updates the code parameter to that of the statistics.
    ///
    /// Two comparisons mostly show that it is unchanged, and then nothing is written.
    #[inline(always)]
    pub(crate) fn update_k(&mut self, settings: CodeSettings)
        requires { IsBandState settings self.old }
        ensures statistics { self.new.statistics ≡ self.old.statistics }
        ensures value { self.new.k ≡ code_parameter settings.bits self.old.statistics }
        ensures state { IsBandState settings self.new }
    {
        let scaled_counter = self.statistics.counter << self.k;
        let level = level(self.statistics);
        if scaled_counter <= level && level < 2 * scaled_counter {
            return;
        }
        *self = BandState::of(settings, self.statistics);
    }

    /// Updates the code parameter to that of the statistics, by a table of thresholds.
    ///
    /// Two of them mostly show that it is unchanged, and then nothing is written.
    #[inline(always)]
    pub(crate) fn settle(&mut self, settings: CodeSettings, thresholds: &[u32])
        requires state { IsBandState settings self.old }
        requires table { AreThresholds settings.bits settings.rescaling.size thresholds.now }
        ensures statistics { self.new.statistics ≡ self.old.statistics }
        ensures value { self.new.k ≡ code_parameter settings.bits self.old.statistics }
        ensures state { IsBandState settings self.new }
    {
        let s = self.statistics;
        let at = ROW * self.k as usize + s.counter as usize;
        if thresholds[at] <= s.accumulator && s.accumulator < thresholds[at + ROW] {
            return;
        }
        let k = rare_parameter(settings.bits, s.counter, s.accumulator);
        *self = BandState::with_parameter(s, k);
    }

    /// Counts one more residual, and leaves the code parameter as it was.
    #[inline(always)]
    #[tactic(auto, unfolding(crate::specs::Statistics::next_statistics))]
    pub(crate) fn count(&mut self, settings: CodeSettings, residual: u16)
        requires { IsBandState settings self.old }
        ensures value { self.new.statistics ≡ next_statistics settings.rescaling.size self.old.statistics residual }
        ensures state { IsBandState settings self.new }
    {
        if self.statistics.counter < settings.rescaling.greatest {
            self.statistics = counted(self.statistics, residual);
            return;
        }
        self.statistics = halved(self.statistics, residual);
    }
}
