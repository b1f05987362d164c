//! Columns of code words, written: one residual of each of several bands.

ghost use Rattle.std.specs.Prelude.{◌≡◌, ◌+◌, ◌*◌, ◌^◌, ◌<◌, ◌≤◌, ◌==◌, ◌++◌, length, max, IsOk, IfErr, OnOk, OnErr, ℕ};
ghost use Rattle.std.specs.List.{AllByRecursion};
ghost use Rattle.cube_core.specs.declared.fault.Fault.TheVariants.{WantOfMemory};
ghost use Rattle.header_bits.specs.Bits.{bits_of};
ghost use Rattle.sample_adaptive.specs.Words.{code_word};
ghost use Rattle.sample_adaptive.specs.Taken.{CoderState, HasSettings, PutsColumn, WritesColumn, code_by, counted, of_band, with_band};
ghost use Rattle.sample_adaptive.specs.BandStates.{IsBandState, AreBandStates, statistics_of};
ghost use Rattle.sample_adaptive.specs.Thresholds.{AreThresholds};

use crate::band_state::BandState;
use crate::band_states::BandStates;
use crate::code_settings::CodeSettings;
use crate::code_word::{Code, Word, word_of};
use crate::column_lanes::coded;
use crate::stats::Stats;
use crate::written_run::make_room;
use crate::written_singly::{put_each, put_long_words};
use core::mem::replace;
use cube_core::fault::Fault;
use header_bits::bit_writer::BitWriter;
use word_lanes::eight_words::push_eight;

impl Stats {
    /// Appends the code word of residual `t` of band `z`, then that of the next band, and so on, and updates the bands'
    /// statistics.
    ///
    /// `t` counts each band's residuals from 0, and each residual is at most 2^D - 1. At most 65,536 residuals are put, and from `z` on
    /// there are at least as many bands. Returns `WantOfMemory` if an allocation fails, or if there would be more than 2^63 bits;
    /// then nothing was changed. It succeeds where the writer has room for 48 bits a residual. Earlier refusals of reads don't
    /// matter to it.
    #[inline]
    pub fn put_column(
        &mut self,
        z: u32,
        t: u64,
        residuals: &[u16],
        writer: &mut BitWriter,
    ) -> Result<(), Fault>
        requires inside { z + length residuals.now ≤ length self.old.bands }
        requires residuals { AllByRecursion (λ n. n < 2 ^ self.old.bits) residuals.now }
        requires few { length residuals.now ≤ 2 ^ 16 }
        ensures taken { OnOk result (PutsColumn z t residuals.now self.old writer.old.bits self.new writer.new.bits) }
        ensures written { OnOk result (WritesColumn z t residuals.now self.old writer.old.bits self.new writer.new.bits) }
        ensures same { OnErr result ((self.new ≡ self.old) × (writer.new.bits ≡ writer.old.bits)) }
        ensures within { 48 * length residuals.now ≤ writer.old.room → IsOk result }
        ensures bounded { writer.new.room ≤ max writer.old.room (max (48 * length residuals.now + 7) (length writer.old.bits)) }
        ensures refused { IfErr result (λ e. e ≡ WantOfMemory) }
        ensures bands { (length self.new.bands ≡ length self.old.bands) × (self.new.bits ≡ self.old.bits) }
    {
        make_room(residuals.len(), writer)?;
        // The writer is taken out for as long, so that it stays in registers.
        let nothing = BitWriter::new(self.bands.allocator());
        let ahead = replace(writer, nothing);
        let settings = self.settings;
        *writer = put_words_of(
            ahead,
            settings,
            &self.thresholds,
            z,
            t,
            &mut self.bands,
            residuals,
        );
        Ok(())
    }
}

/// Appends the code word of one residual of each band from band `z` on, for which the writer has room, and updates the bands' states.
#[inline(always)]
fn put_words_of(
    writer: BitWriter,
    settings: CodeSettings,
    thresholds: &[u32],
    z: u32,
    t: u64,
    bands: &mut BandStates,
    residuals: &[u16],
) -> BitWriter
    requires table { AreThresholds settings.bits settings.rescaling.size thresholds.now }
    requires state { AreBandStates settings bands.old }
    requires inside { z + length residuals.now ≤ length bands.old }
    requires few { length residuals.now ≤ 2 ^ 16 }
    requires residuals { AllByRecursion (λ n. n < 2 ^ settings.bits) residuals.now }
    requires room { 48 * length residuals.now ≤ writer.room }
    ensures written { (v : CoderState) → v.bands ≡ statistics_of bands.old → HasSettings v settings.bits settings.limit settings.rescaling.size
        → WritesColumn z t residuals.now v writer.bits (record v { bands = statistics_of bands.new }) result.bits }
    ensures state { AreBandStates settings bands.new }
    ensures bands { length bands.new ≡ length bands.old }
    ensures still { result.room ≤ writer.room }
{
    if t == 0 {
        return put_firsts(writer, settings, residuals);
    }
    put_later(writer, settings, thresholds, z, bands, residuals)
}

/// `put_words_of` for residuals none of which is the first of its band: eight at a time, and the last ones singly.
#[inline(always)]
fn put_later(
    writer: BitWriter,
    settings: CodeSettings,
    thresholds: &[u32],
    z: u32,
    bands: &mut BandStates,
    residuals: &[u16],
) -> BitWriter
    requires table { AreThresholds settings.bits settings.rescaling.size thresholds.now }
    requires state { AreBandStates settings bands.old }
    requires inside { z + length residuals.now ≤ length bands.old }
    requires few { length residuals.now ≤ 2 ^ 16 }
    requires residuals { AllByRecursion (λ n. n < 2 ^ settings.bits) residuals.now }
    requires room { 48 * length residuals.now ≤ writer.room }
    ensures written { (v : CoderState) (t : ℕ) → 0 < t → v.bands ≡ statistics_of bands.old → HasSettings v settings.bits settings.limit settings.rescaling.size
        → WritesColumn z t residuals.now v writer.bits (record v { bands = statistics_of bands.new }) result.bits }
    ensures state { AreBandStates settings bands.new }
    ensures bands { length bands.new ≡ length bands.old }
    ensures still { result.room ≤ writer.room }
{
    if residuals.is_empty() {
        return writer;
    }
    let counter = bands.get(z as usize).statistics.counter;
    let mut writer = writer;
    let mut i = 0;
    while i + 8 <= residuals.len() {
        let at = z as usize + i;
        writer = put_eight(
            writer,
            settings,
            thresholds,
            counter,
            at,
            bands,
            &residuals[i..i + 8],
        );
        i += 8;
    }
    if i == residuals.len() {
        return writer;
    }
    put_each(
        writer,
        settings,
        thresholds,
        z as usize + i,
        bands,
        &residuals[i..],
    )
}

/// Appends the code words of eight residuals from band `at` on, in lanes if the bands have this counter. They are pushed at once if all are short.
#[inline(always)]
fn put_eight(
    writer: BitWriter,
    settings: CodeSettings,
    thresholds: &[u32],
    counter: u32,
    at: usize,
    bands: &mut BandStates,
    residuals: &[u16],
) -> BitWriter
    requires table { AreThresholds settings.bits settings.rescaling.size thresholds.now }
    requires state { AreBandStates settings bands.old }
    requires counter { (1 ≤ counter) × (counter < 2 ^ 9) }
    requires inside { at + length residuals.now ≤ length bands.old }
    requires eight { length residuals.now ≡ 8 }
    requires few { length residuals.now ≤ 2 ^ 16 }
    requires residuals { AllByRecursion (λ n. n < 2 ^ settings.bits) residuals.now }
    requires room { 48 * length residuals.now ≤ writer.room }
    ensures written { (v : CoderState) (t : ℕ) → 0 < t → v.bands ≡ statistics_of bands.old → HasSettings v settings.bits settings.limit settings.rescaling.size
        → WritesColumn at t residuals.now v writer.bits (record v { bands = statistics_of bands.new }) result.bits }
    ensures state { AreBandStates settings bands.new }
    ensures bands { length bands.new ≡ length bands.old }
    ensures still { result.room ≤ writer.room }
    ensures room { writer.room ≤ result.room + 384 }
{
    let coded = coded(settings, counter, bands, at, residuals, 0);
    if coded.alike {
        bands.store(at, coded.counter, &coded.accumulators);
        if coded.short {
            return push_eight(writer, coded.words);
        }
        return put_long_words(writer, settings, coded.parameters, residuals);
    }
    put_each(writer, settings, thresholds, at, bands, residuals)
}

/// Appends the code words of residuals each of which is the first of its band, for which the writer has room. They don't count.
fn put_firsts(writer: BitWriter, settings: CodeSettings, residuals: &[u16]) -> BitWriter
    requires few { length residuals.now ≤ 2 ^ 16 }
    requires residuals { AllByRecursion (λ n. n < 2 ^ settings.bits) residuals.now }
    requires room { 48 * length residuals.now ≤ writer.room }
    ensures written { (v : CoderState) (z : ℕ) → v.bits ≡ settings.bits → WritesColumn z 0 residuals.now v writer.bits v result.bits }
    ensures still { result.room ≤ writer.room }
{
    let mut writer = writer;
    let code = Code {
        limit: 0,
        k: 0,
        bits: settings.bits,
    };
    for i in 0..residuals.len() {
        let word = word_of(code, residuals[i]);
        writer.push_reserved(word.bits, word.length);
    }
    writer
}

/// Returns the code word of a band's next residual, and updates the band's state unless the residual is its first.
#[inline(always)]
pub(crate) fn next_word(
    settings: CodeSettings,
    first: bool,
    state: &mut BandState,
    residual: u16,
) -> Word
    requires state { IsBandState settings state.old }
    requires residual { residual < 2 ^ settings.bits }
    ensures word { (v : CoderState) (z t : ℕ) → first ≡ (t == 0) → HasSettings v settings.bits settings.limit settings.rescaling.size → of_band v.bands z ≡ state.old.statistics
        → bits_of result.length result.bits ≡ code_word (code_by v z t) residual }
    ensures below { result.bits < 2 ^ result.length }
    ensures few { result.length ≤ 48 }
    ensures counts { (v : CoderState) (z t : ℕ) → first ≡ (t == 0) → HasSettings v settings.bits settings.limit settings.rescaling.size
        → of_band v.bands z ≡ state.old.statistics → counted v z t residual ≡ with_band v z state.new.statistics }
    ensures state { IsBandState settings state.new }
{
    if first {
        let code = Code {
            limit: 0,
            k: 0,
            bits: settings.bits,
        };
        return word_of(code, residual);
    }
    state.update_k(settings);
    let code = Code {
        limit: settings.limit,
        k: state.k,
        bits: settings.bits,
    };
    state.count(settings, residual);
    word_of(code, residual)
}
