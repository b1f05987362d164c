//! The states of all bands, each number of them in an array of its own.

ghost use Rattle.std.specs.Prelude.{◌≡◌, ◌+◌, ◌<◌, ◌≤◌, ℕ, length, slice_set, IfOk, IfErr};
ghost use Rattle.cube_core.specs.declared.fault.Fault.TheVariants.{WantOfMemory};
ghost use Rattle.lanes.specs.Lanes.{number};
ghost use Rattle.sample_adaptive.specs.BandStates.{state_of};
ghost use Rattle.sample_adaptive.specs.ColumnLanes.{with_lanes, with_numbers};

use crate::band_state::BandState;
use crate::statistics::Statistics;
use cube_core::fault::Fault;
use std::alloc::Global;
use std::marker::Model;

/// The states of all bands. Each number has an array of its own, so that those of eight successive bands are the lanes of a vector.
#[derive(Drop)]
pub(crate) struct BandStates {
    counters: Vec<u32>,
    accumulators: Vec<u32>,
    /// k, the code parameter of an earlier residual of each band.
    parameters: Vec<u32>,
}

impl Model for BandStates {
    ghost use Rattle.std.specs.Prelude.{◌≡◌, List, length};
    ghost use Rattle.sample_adaptive.specs.declared.band_state.BandState.{BandState};
    ghost use Rattle.sample_adaptive.specs.BandStates.{states_of};

    ghost Value = { List BandState };

    ghost view = { λ s. states_of s.counters.items s.accumulators.items s.parameters.items };

    ghost invariant = { λ s. (length s.accumulators.items ≡ length s.counters.items) × (length s.parameters.items ≡ length s.counters.items) };
}

/// The statistics of eight bands, lane by lane.
#[derive(Clone, Copy)]
pub(crate) struct EightStatistics {
    pub counters: [u32; 8],
    pub accumulators: [u32; 8],
}

impl BandStates {
    /// Returns the states of so many bands, with no statistics yet.
    ///
    /// Returns `WantOfMemory` if they can't be allocated.
    pub(crate) fn new(alloc: Global, count: usize) -> Result<BandStates, Fault>
        ensures count { IfOk result (λ s. length s ≡ count) }
        ensures refused { IfErr result (λ e. e ≡ WantOfMemory) }
    {
        Ok(BandStates {
            counters: vec![in alloc; 0u32; count]?,
            accumulators: vec![in alloc; 0u32; count]?,
            parameters: vec![in alloc; 0u32; count]?,
        })
    }

    /// Returns the number of bands.
    pub(crate) fn len(&self) -> usize
        ensures { result ≡ length self.now }
    {
        self.counters.len()
    }

    /// Returns what the states are allocated with.
    pub(crate) fn allocator(&self) -> Global {
        *self.counters.allocator()
    }

    /// Returns the state of band `z`.
    #[inline(always)]
    pub(crate) fn get(&self, z: usize) -> BandState
        requires { z < length self.now }
        ensures { result ≡ state_of self.now z }
    {
        BandState {
            statistics: Statistics {
                counter: self.counters[z],
                accumulator: self.accumulators[z],
            },
            k: self.parameters[z],
        }
    }

    /// Gives band `z` another state.
    #[inline(always)]
    pub(crate) fn set(&mut self, z: usize, state: BandState)
        requires { z < length self.old }
        ensures { self.new ≡ slice_set self.old z state }
    {
        self.counters[z] = state.statistics.counter;
        self.accumulators[z] = state.statistics.accumulator;
        self.parameters[z] = state.k;
    }

    /// Returns the statistics of eight bands, from band `at` on.
    #[inline(always)]
    pub(crate) fn gathered(&self, at: usize) -> EightStatistics
        requires { at + 8 ≤ length self.now }
        ensures counters { (j : ℕ) → j < 8 → number result.counters j ≡ (state_of self.now (at + j)).statistics.counter }
        ensures accumulators { (j : ℕ) → j < 8 → number result.accumulators j ≡ (state_of self.now (at + j)).statistics.accumulator }
    {
        EightStatistics {
            counters: eight_of(&self.counters, at),
            accumulators: eight_of(&self.accumulators, at),
        }
    }

    /// Gives eight bands, from band `at` on, a counter and their accumulators.
    #[inline(always)]
    pub(crate) fn store(&mut self, at: usize, counter: u32, accumulators: &[u32; 8])
        requires { at + 8 ≤ length self.old }
        ensures { self.new ≡ with_lanes self.old at counter accumulators.now 8 }
    {
        put_eight_of(&mut self.counters, at, &[counter; 8]);
        put_eight_of(&mut self.accumulators, at, accumulators);
    }
}

/// Returns the numbers of eight bands, from band `at` on.
#[inline(always)]
fn eight_of(numbers: &[u32], at: usize) -> [u32; 8]
    requires { at + 8 ≤ length numbers.now }
    ensures { (j : ℕ) → j < 8 → number result j ≡ number numbers.now (at + j) }
{
    let mut eight = [0; 8];
    for j in 0..8usize {
        eight[j] = numbers[at + j];
    }
    eight
}

/// Gives eight bands, from band `at` on, their numbers.
#[inline(always)]
fn put_eight_of(numbers: &mut [u32], at: usize, eight: &[u32; 8])
    requires { at + 8 ≤ length numbers.old }
    ensures { numbers.new ≡ with_numbers numbers.old at eight.now 8 }
{
    for j in 0..8usize {
        numbers[at + j] = eight[j];
    }
}
