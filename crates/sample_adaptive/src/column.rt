//! Columns of code words, read back: one residual of each of several bands.

ghost use Rattle.std.specs.Prelude.{◌≡◌, ◌+◌, ◌^◌, ◌<◌, ◌≤◌, ◌==◌, length, Some, IfOk, IfErr, OnErr, ℕ};
ghost use Rattle.cube_core.specs.declared.fault.Fault.{Fault};
ghost use Rattle.sample_adaptive.specs.Reading.{fault_at, word_at};
ghost use Rattle.header_bits.specs.Reading.{Reads};
ghost use Rattle.header_bits.specs.Windows.{IsAhead};
ghost use Rattle.sample_adaptive.specs.Statistics.{code_parameter};
ghost use Rattle.sample_adaptive.specs.Taken.{CoderState, HasSettings, GetsEach, GetsColumn, Reaches, code_by, counted, of_band, with_band};
ghost use Rattle.sample_adaptive.specs.Thresholds.{AreThresholds};
ghost use Rattle.sample_adaptive.specs.BandStates.{IsBandState, AreBandStates, statistics_of};

use crate::band_state::BandState;
use crate::band_states::BandStates;
use crate::code_settings::CodeSettings;
use crate::code_word::{Code, take_from, take_word};
use crate::eight_column::take_eight;
use crate::short_column::take_next;
use crate::stats::Stats;
use cube_core::fault::Fault;
use header_bits::bit_reader::BitReader;

impl Stats {
    /// Reads residual `t` of band `z`, then that of the next band, and so on, whose code words come next, into `residuals`,
    /// and updates the bands' statistics.
    ///
    /// `t` counts each band's residuals from 0, and the first residual is at `index` in encoding order. At most 65,536 residuals are
    /// read, and from `z` on there are at least as many bands. Where a residual is refused, it returns the fault that `get` returns,
    /// but `BadCode` has the residual's index in encoding order. Then the reader keeps its position, every later read returns the
    /// same, and the statistics and what is in `residuals` are unspecified.
    #[inline]
    pub fn get_column(
        &mut self,
        z: u32,
        t: u64,
        index: u64,
        reader: &mut BitReader,
        residuals: &mut [u16],
    ) -> Result<(), Fault>
        requires inside { z + length residuals.old ≤ length self.old.bands }
        requires long { (length residuals.old ≤ 2 ^ 16) × (index < 2 ^ 48) }
        ensures taken { GetsColumn z t index result self.old reader.old self.new reader.new.left residuals.new }
        ensures again { (fault : Fault) → self.old.refused ≡ Some fault → result ≡ Err fault }
        ensures kept { IfErr result (λ fault. self.new.refused ≡ Some fault) }
        ensures same { OnErr result (reader.new ≡ reader.old) }
        ensures count { reader.new.count ≡ reader.old.count }
        ensures long { length residuals.new ≡ length residuals.old }
        ensures bands { (length self.new.bands ≡ length self.old.bands) × (self.new.bits ≡ self.old.bits) }
    {
        if let Some(fault) = self.refused {
            return Err(fault);
        }
        // A copy of the reader goes ahead: it stays in registers, and a refusal leaves what it was made of. The bands' states
        // change in their place, as copies of all of them would take room; after a refusal nothing reads them.
        let mut ahead = reader.fork();
        match take_column(
            self.settings,
            &self.thresholds,
            z as usize,
            t,
            index,
            &mut self.bands,
            &mut ahead,
            residuals,
        ) {
            Ok(()) => {
                *reader = ahead;
                Ok(())
            }
            Err(refusal) => {
                self.refused = Some(refusal);
                Err(refusal)
            }
        }
    }
}

/// Reads one residual of each band from band `z` on, whose code words come next, and updates the bands' states.
///
/// After a refusal the reader's position and the states are unspecified.
#[inline(always)]
fn take_column(
    settings: CodeSettings,
    thresholds: &[u32],
    z: usize,
    t: u64,
    index: u64,
    bands: &mut BandStates,
    reader: &mut BitReader,
    residuals: &mut [u16],
) -> Result<(), Fault>
    requires thresholds { AreThresholds settings.bits settings.rescaling.size thresholds.now }
    requires state { AreBandStates settings bands.old }
    requires inside { z + length residuals.old ≤ length bands.old }
    requires long { (length residuals.old ≤ 2 ^ 16) × (index < 2 ^ 48) }
    ensures taken { (v : CoderState) → v.bands ≡ statistics_of bands.old → HasSettings v settings.bits settings.limit settings.rescaling.size
        → GetsColumn z t index result v reader.old (record v { bands = statistics_of bands.new }) reader.new.left residuals.new }
    ensures state { AreBandStates settings bands.new }
    ensures count { reader.new.count ≡ reader.old.count }
    ensures long { length residuals.new ≡ length residuals.old }
    ensures bands { length bands.new ≡ length bands.old }
{
    // Only the proof needs this: the bands can be counted.
    let _count = bands.len();
    if t == 0 {
        return take_each(settings, z, true, index, bands, reader, residuals);
    }
    let done = take_ready(settings, thresholds, z, index, bands, reader, residuals);
    if done == residuals.len() {
        return Ok(());
    }
    take_each(
        settings,
        z + done,
        false,
        index + done as u64,
        bands,
        reader,
        &mut residuals[done..],
    )
}

/// Reads one residual of each band, none of which is its first, as long as 57 bits are left and begin with a code word. Returns
/// how many, and updates the bands' states.
///
/// A loop that refuses nothing keeps all that it changes in registers. Eight words are read at a time, and else by `take_next`.
#[inline(always)]
fn take_ready(
    settings: CodeSettings,
    thresholds: &[u32],
    z: usize,
    index: u64,
    bands: &mut BandStates,
    reader: &mut BitReader,
    residuals: &mut [u16],
) -> usize
    requires thresholds { AreThresholds settings.bits settings.rescaling.size thresholds.now }
    requires state { AreBandStates settings bands.old }
    requires inside { z + length residuals.old ≤ length bands.old }
    requires long { (length residuals.old ≤ 2 ^ 16) × (index < 2 ^ 48) }
    ensures taken { (v : CoderState) (t : ℕ) → 0 < t → v.bands ≡ statistics_of bands.old → HasSettings v settings.bits settings.limit settings.rescaling.size
        → Reaches (λ i. z + i) (λ i. t) 0 index result v (record v { bands = statistics_of bands.new }) reader.old reader.new residuals.new }
    ensures state { AreBandStates settings bands.new }
    ensures within { result ≤ length residuals.new }
    ensures count { reader.new.count ≡ reader.old.count }
    ensures long { length residuals.new ≡ length residuals.old }
    ensures bands { length bands.new ≡ length bands.old }
{
    if residuals.is_empty() {
        return 0;
    }
    let counter = bands.get(z).statistics.counter;
    let mut ahead = reader.fork();
    let mut i = 0;
    while i < residuals.len() {
        if residuals.len() - i >= 8 {
            let taken = take_eight(settings, counter, z, bands, &mut ahead, i, residuals);
            i += taken;
            if taken == 8 {
                continue;
            }
        }
        // A copy is passed on, so that the reader stays in registers.
        let mut rest = ahead.fork();
        let taken = take_next(
            settings, thresholds, index, z, bands, &mut rest, i, residuals,
        );
        ahead = rest;
        i += taken;
        if taken == 0 {
            break;
        }
    }
    *reader = ahead;
    i
}

/// Decodes one residual, not the band's first, from `word`, which begins with the next 57 bits, and updates the band's state.
/// If the residual is refused, the reader and the band's statistics are as before.
#[inline(always)]
pub(crate) fn take_known(
    settings: CodeSettings,
    index: u64,
    word: u64,
    band: &mut BandState,
    reader: &mut BitReader,
) -> Result<u16, Fault>
    requires state { IsBandState settings band.old }
    requires ahead { IsAhead 57 reader.old.left word }
    ensures reads { (v : CoderState) (z t : ℕ) → 0 < t → HasSettings v settings.bits settings.limit settings.rescaling.size → of_band v.bands z ≡ band.old.statistics
        → Reads (λ residual. residual) result reader.new.left (word_at reader.old.count index (code_by v z t) reader.old.left) }
    ensures counts { IfOk result (λ residual. (v : CoderState) (z t : ℕ) → 0 < t → HasSettings v settings.bits settings.limit settings.rescaling.size
        → of_band v.bands z ≡ band.old.statistics → counted v z t residual ≡ with_band v z band.new.statistics) }
    ensures state { IsBandState settings band.new }
    ensures count { reader.new.count ≡ reader.old.count }
    ensures same { OnErr result ((reader.new ≡ reader.old) × (band.new.statistics ≡ band.old.statistics)) }
    ensures updated { OnErr result (band.new.k ≡ code_parameter settings.bits band.old.statistics) }
{
    band.update_k(settings);
    let code = Code {
        limit: settings.limit,
        k: band.k,
        bits: settings.bits,
    };
    let residual = take_from(code, index, word, reader)?;
    band.count(settings, residual);
    Ok(residual)
}

/// `take_column` for residuals that are either all the first of their bands or none of them.
#[inline(always)]
fn take_each(
    settings: CodeSettings,
    z: usize,
    first: bool,
    index: u64,
    bands: &mut BandStates,
    reader: &mut BitReader,
    residuals: &mut [u16],
) -> Result<(), Fault>
    requires state { AreBandStates settings bands.old }
    requires inside { z + length residuals.old ≤ length bands.old }
    requires long { (length residuals.old ≤ 2 ^ 16) × (index < 2 ^ 49) }
    ensures taken { (v : CoderState) (b t k : ℕ) → z ≡ b + k → first ≡ (t == 0) → v.bands ≡ statistics_of bands.old
        → HasSettings v settings.bits settings.limit settings.rescaling.size
        → GetsEach (λ i. b + i) (λ i. t) k index result v reader.old (record v { bands = statistics_of bands.new }) reader.new.left residuals.new }
    ensures state { AreBandStates settings bands.new }
    ensures count { reader.new.count ≡ reader.old.count }
    ensures long { length residuals.new ≡ length residuals.old }
    ensures bands { length bands.new ≡ length bands.old }
{
    // Only the proof needs this: the bands can be counted.
    let _count = bands.len();
    for i in 0..residuals.len() {
        let mut state = bands.get(z + i);
        match take_residual(settings, first, index + i as u64, &mut state, reader) {
            Ok(residual) => residuals[i] = residual,
            Err(fault) => return Err(fault),
        }
        bands.set(z + i, state);
    }
    Ok(())
}

/// Reads a band's residual, whose code word comes next, and updates the band's state unless the residual is its first.
#[inline(always)]
pub(crate) fn take_residual(
    settings: CodeSettings,
    first: bool,
    index: u64,
    state: &mut BandState,
    reader: &mut BitReader,
) -> Result<u16, Fault>
    requires state { IsBandState settings state.old }
    ensures reads { (v : CoderState) (z t : ℕ) → first ≡ (t == 0) → HasSettings v settings.bits settings.limit settings.rescaling.size → of_band v.bands z ≡ state.old.statistics
        → Reads (λ residual. residual) result reader.new.left (word_at reader.old.count index (code_by v z t) reader.old.left) }
    ensures counts { IfOk result (λ residual. (v : CoderState) (z t : ℕ) → first ≡ (t == 0) → HasSettings v settings.bits settings.limit settings.rescaling.size
        → of_band v.bands z ≡ state.old.statistics → counted v z t residual ≡ with_band v z state.new.statistics) }
    ensures state { IsBandState settings state.new }
    ensures below { IfOk result (λ residual. residual < 2 ^ settings.bits) }
    ensures count { reader.new.count ≡ reader.old.count }
    ensures same { OnErr result (reader.new ≡ reader.old) }
    ensures indexed { IfErr result (λ fault. fault_at index fault ≡ fault) }
{
    if first {
        let code = Code {
            limit: 0,
            k: 0,
            bits: settings.bits,
        };
        return take_word(code, index, reader);
    }
    state.update_k(settings);
    let code = Code {
        limit: settings.limit,
        k: state.k,
        bits: settings.bits,
    };
    let residual = take_word(code, index, reader)?;
    state.count(settings, residual);
    Ok(residual)
}
