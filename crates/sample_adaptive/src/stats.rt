//! The coder of one image: it writes residuals by the statistics of their bands, and reads them back.

ghost use Rattle.std.specs.Prelude.{◌≡◌, ◌+◌, ◌*◌, ◌^◌, ◌<◌, ◌≤◌, ◌++◌, [], length, max, Err, Some, IsOk, IfOk, IfErr, OnOk, OnErr, ℕ};
ghost use Rattle.std.specs.List.{AllByRecursion};
ghost use Rattle.cube_core.specs.declared.fault.Fault.{Fault};
ghost use Rattle.cube_core.specs.declared.fault.Fault.TheVariants.{WantOfMemory};
ghost use Rattle.sample_adaptive.specs.Settings.{AreForSamples, HasEntries, settings};
ghost use Rattle.sample_adaptive.specs.Statistics.{constant_of, start_statistics};
ghost use Rattle.sample_adaptive.specs.Taken.{CoderState, HasTaken, HasSettings, PutsResidual, PutsRun, GetsRun, Writes, WritesRun, code_by, counted, of_band};
ghost use Rattle.sample_adaptive.specs.BandStates.{AreBandStates, statistics_of};
ghost use Rattle.sample_adaptive.specs.Thresholds.{AreThresholds};
ghost use Rattle.sample_adaptive.specs.Words.{code_word};

use crate::band_state::BandState;
use crate::band_states::BandStates;
use crate::code_settings::CodeSettings;
use crate::read_run::take_words;
use crate::statistics::{Rescaling, first};
use crate::thresholds::thresholds;
use crate::written_column::next_word;
use crate::written_run::{LaterRun, make_room, put_words};
use core::mem::replace_with;
use cube_core::fault::Fault;
use header_bits::bit_reader::BitReader;
use header_bits::bit_writer::BitWriter;
use header_bits::params::{Coder, CountStart, Params};
use std::alloc::Global;
use std::marker::Model;

/// The sample-adaptive coder of one image, which takes the residuals of each band in turn.
#[derive(Drop)]
pub struct Stats {
    pub(crate) settings: CodeSettings,
    pub(crate) bands: BandStates,
    /// By the counter, how large the accumulator has to be for each code parameter.
    pub(crate) thresholds: Vec<u32>,
    /// The fault for which a read was refused, if one was: every later read is refused for the same.
    pub(crate) refused: Option<Fault>,
    pub(crate) ghost thresholds_are: { AreThresholds settings.bits settings.rescaling.size thresholds.items },
}

impl Model for Stats {
    ghost use Rattle.sample_adaptive.specs.Taken.{CoderState};
    ghost use Rattle.sample_adaptive.specs.BandStates.{AreBandStates, statistics_of};

    ghost Value = { CoderState };

    ghost view = { λ s. record {
      bits = s.settings.bits;
      umax = s.settings.limit;
      gamma_star = s.settings.rescaling.size;
      bands = statistics_of s.bands;
      refused = s.refused;
    } };

    ghost invariant = { λ s. AreBandStates s.settings s.bands };
}

impl Stats {
    /// Returns the coder of an image, which has taken no residual.
    ///
    /// The parameters are lawful, and name this coder. Returns `WantOfMemory` if the statistics of all bands, or the table of
    /// thresholds, can't be allocated.
    pub fn new(alloc: Global, params: &Params) -> Result<Stats, Fault>
        requires { AreForSamples params.now }
        ensures taken { IfOk result (λ s. HasTaken (settings params.now) s (λ z. [])) }
        ensures bands { IfOk result (λ s. length s.bands ≡ params.now.shape.bands) }
        ensures refused { IfErr result (λ e. e ≡ WantOfMemory) }
    {
        match &params.coder {
            Coder::Sample {
                umax,
                gamma_star,
                gamma_zero,
                start,
            } => {
                let settings = CodeSettings {
                    limit: *umax,
                    bits: params.kind.bits(),
                    rescaling: Rescaling::of(*gamma_star),
                };
                let bands = first_of_all(
                    alloc,
                    settings,
                    *gamma_zero,
                    start,
                    params.shape.bands(),
                )?;
                let thresholds = thresholds(alloc, settings.bits, settings.rescaling.size)?;
                Ok(Stats {
                    settings,
                    bands,
                    thresholds,
                    refused: None,
                })
            }
            Coder::Block { .. } => unreachable!(),
        }
    }

    /// Appends the code word of residual `t` of band `z`, and updates the band's statistics.
    ///
    /// `z` is below the number of bands, `t` counts the band's residuals from 0, and the residual is at most 2^D - 1. The word has at
    /// most 48 bits and is pushed at once; it succeeds where the writer has room for 48 bits. Returns `WantOfMemory` if an
    /// allocation fails, or if there would be more than 2^63 bits; then nothing was changed. Earlier refusals of reads don't
    /// matter to it.
    #[inline(always)]
    pub fn put(&mut self, z: u32, t: u64, delta: u16, writer: &mut BitWriter) -> Result<(), Fault>
        requires band { z < length self.old.bands }
        requires residual { delta < 2 ^ self.old.bits }
        ensures taken { OnOk result (PutsResidual z t delta self.old writer.old.bits self.new writer.new.bits) }
        ensures written { OnOk result (writer.new.bits ≡ writer.old.bits ++ code_word (code_by self.old z t) delta) }
        ensures counted { OnOk result (self.new ≡ counted self.old z t delta) }
        ensures same { OnErr result ((self.new ≡ self.old) × (writer.new.bits ≡ writer.old.bits)) }
        ensures within { 48 ≤ writer.old.room → IsOk result }
        ensures room { OnOk result (writer.old.room ≤ writer.new.room + 48) }
        ensures bounded { writer.new.room ≤ max writer.old.room (max (48 + 7) (length writer.old.bits)) }
        ensures still { 48 ≤ writer.old.room → writer.new.room ≤ writer.old.room }
        ensures refused { IfErr result (λ e. e ≡ WantOfMemory) }
        ensures bands { (length self.new.bands ≡ length self.old.bands) × (self.new.bits ≡ self.old.bits) }
    {
        let mut band = self.bands.get(z as usize);
        let word = next_word(self.settings, t == 0, &mut band, delta);
        writer.push(word.bits, word.length)?;
        self.bands.set(z as usize, band);
        Ok(())
    }

    /// Appends the code words of residuals `t`, `t + 1`, .. of band `z`, and updates the band's statistics.
    ///
    /// `z` is below the number of bands, and `t` counts the band's residuals from 0. The run is within a row, so it has at most
    /// 65,536 residuals, and each is at most 2^D - 1. Returns `WantOfMemory` if an allocation fails, or if there would be more than
    /// 2^63 bits; then nothing was changed. It succeeds where the writer has room for 48 bits a residual. Earlier refusals of reads
    /// don't matter to it.
    #[inline]
    pub fn put_run(
        &mut self,
        z: u32,
        t: u64,
        residuals: &[u16],
        writer: &mut BitWriter,
    ) -> Result<(), Fault>
        requires band { z < length self.old.bands }
        requires residuals { AllByRecursion (λ n. n < 2 ^ self.old.bits) residuals.now }
        requires long { (length residuals.now ≤ 2 ^ 16) × (t < 2 ^ 48) }
        ensures taken { OnOk result (PutsRun z t residuals.now self.old writer.old.bits self.new writer.new.bits) }
        ensures written { OnOk result (WritesRun z t residuals.now self.old writer.old.bits self.new writer.new.bits) }
        ensures same { OnErr result ((self.new ≡ self.old) × (writer.new.bits ≡ writer.old.bits)) }
        ensures within { 48 * length residuals.now ≤ writer.old.room → IsOk result }
        ensures bounded { writer.new.room ≤ max writer.old.room (max (48 * length residuals.now + 7) (length writer.old.bits)) }
        ensures refused { IfErr result (λ e. e ≡ WantOfMemory) }
        ensures bands { (length self.new.bands ≡ length self.old.bands) × (self.new.bits ≡ self.old.bits) }
    {
        make_room(residuals.len(), writer)?;
        if t >= 1 {
            self.put_later(z, residuals, writer);
        } else if let Some((first, later)) = residuals.split_first() {
            let Ok(()) = self.put(z, 0, *first, writer) else {
                unreachable!()
            };
            self.put_later(z, later, writer);
        }
        Ok(())
    }

    /// Appends the code words of residuals of band `z`, none of which is its first. The writer has room for them.
    #[inline(always)]
    fn put_later(&mut self, z: u32, residuals: &[u16], writer: &mut BitWriter)
        requires band { z < length self.old.bands }
        requires residuals { AllByRecursion (λ n. n < 2 ^ self.old.bits) residuals.now }
        requires room { 48 * length residuals.now ≤ writer.old.room }
        ensures still { writer.new.room ≤ writer.old.room }
        ensures written { (t k : ℕ) → 0 < t + k → Writes (λ i. z) (λ i. t + i) k residuals.now self.old writer.old.bits self.new writer.new.bits }
        ensures bands { (length self.new.bands ≡ length self.old.bands) × (self.new.bits ≡ self.old.bits) }
    {
        let run = LaterRun {
            settings: self.settings,
            thresholds: &self.thresholds,
            state: self.bands.get(z as usize),
            residuals,
        };
        let state = replace_with(writer, run, put_words);
        self.bands.set(z as usize, state);
    }

    /// Reads residuals `t`, `t + 1`, .. of band `z`, whose code words come next, into `residuals`, and updates the band's
    /// statistics.
    ///
    /// `t` counts the band's residuals from 0, and the first is at `index` in encoding order. The run is within
    /// a row, so it has at most 65,536 residuals. Where a residual is refused, it returns the fault that `get` returns, but
    /// `BadCode` has the residual's index in encoding order. Then the reader keeps its position, every later read returns
    /// the same, nothing else was changed, and what is in `residuals` is unspecified.
    #[inline]
    pub fn get_run(
        &mut self,
        z: u32,
        t: u64,
        index: u64,
        reader: &mut BitReader,
        residuals: &mut [u16],
    ) -> Result<(), Fault>
        requires band { z < length self.old.bands }
        requires long { (length residuals.old ≤ 2 ^ 16) × (index < 2 ^ 48) }
        ensures taken { GetsRun z t index result self.old reader.old self.new reader.new.left residuals.new }
        ensures again { (fault : Fault) → self.old.refused ≡ Some fault → result ≡ Err fault }
        ensures kept { IfErr result (λ fault. self.new ≡ record self.old { refused = Some fault }) }
        ensures same { OnErr result (reader.new ≡ reader.old) }
        ensures count { reader.new.count ≡ reader.old.count }
        ensures long { length residuals.new ≡ length residuals.old }
        ensures bands { (length self.new.bands ≡ length self.old.bands) × (self.new.bits ≡ self.old.bits) }
    {
        if let Some(fault) = self.refused {
            return Err(fault);
        }
        // Copies go ahead: they stay in registers, and a refusal leaves what they were made of.
        let mut band = self.bands.get(z as usize);
        let mut ahead = reader.fork();
        match take_words(
            self.settings,
            &self.thresholds,
            t,
            index,
            &mut band,
            &mut ahead,
            residuals,
        ) {
            Ok(()) => {
                self.bands.set(z as usize, band);
                *reader = ahead;
                Ok(())
            }
            Err(refusal) => {
                self.refused = Some(refusal);
                Err(refusal)
            }
        }
    }
}

/// Returns the states of `count` bands before their first residuals.
fn first_of_all(
    alloc: Global,
    settings: CodeSettings,
    gamma_zero: u32,
    start: &CountStart,
    count: u32,
) -> Result<BandStates, Fault>
    requires exponent { (gamma_zero ≤ 8) × (gamma_zero + 1 ≤ settings.rescaling.size) }
    requires entries { HasEntries count start.now }
    requires constants { (z : ℕ) → z < count → constant_of start.now z ≤ 14 }
    ensures count { IfOk result (λ v. length v ≡ count) }
    ensures first { IfOk result (λ v. (z : ℕ) → z < count → of_band (statistics_of v) z ≡ start_statistics gamma_zero (constant_of start.now z)) }
    ensures state { IfOk result (λ v. AreBandStates settings v) }
    ensures refused { IfErr result (λ e. e ≡ WantOfMemory) }
{
    let mut bands = BandStates::new(alloc, count as usize)?;
    for z in 0..count {
        let statistics = first(gamma_zero, constant(start, z));
        bands.set(z as usize, BandState::of(settings, statistics));
    }
    Ok(bands)
}

/// Returns K, the accumulator initialization constant of band `z`.
#[tactic(auto, unfolding(crate::specs::Statistics::constant_of))]
fn constant(start: &CountStart, z: u32) -> u32
    requires { (count : ℕ) × HasEntries count start.now × (z < count) }
    ensures { result ≡ constant_of start.now z }
{
    match start {
        CountStart::Constant(k) => *k,
        CountStart::Each(table) => u32::from(table.as_slice()[z as usize]),
    }
}
