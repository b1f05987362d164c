//! Runs of one band's code words, written.

ghost use Rattle.std.specs.Prelude.{◌≡◌, ◌+◌, ◌-◌, ◌*◌, ◌^◌, ◌<◌, ◌≤◌, ◌++◌, List, Bool, length, take, max, IsOk, IfErr, OnOk, ℕ};
ghost use Rattle.std.specs.List.{AllByRecursion, sum};
ghost use Rattle.cube_core.specs.declared.fault.Fault.TheVariants.{WantOfMemory};
ghost use Rattle.sample_adaptive.specs.BandStates.{IsBandState};
ghost use Rattle.sample_adaptive.specs.Runs.{IsKeptCode, IsKeptCodes, IsPiece, sum_after, words_from};
ghost use Rattle.sample_adaptive.specs.Statistics.{AreStatistics, statistics_from};
ghost use Rattle.sample_adaptive.specs.Taken.{CoderState, HasSettings, Writes, of_band, with_band};
ghost use Rattle.sample_adaptive.specs.Thresholds.{AreThresholds};
ghost use Rattle.sample_adaptive.specs.Words.{IsCode, code_word};

use crate::band_state::BandState;
use crate::code_settings::CodeSettings;
use crate::code_word::{Code, word_of};
use crate::eight_run::{LaneState, put_eight};
use crate::kept_code::KeptCode;
use crate::kept_codes::KeptCodes;
use crate::statistics::{Rescaling, Statistics};
use cube_core::fault::Fault;
use header_bits::bit_writer::BitWriter;

/// The greatest length of a code word in bits.
const MOST_BITS: u64 = 48;

/// Numbers of one band, none of which is its first, what their code words depend on, and what is kept of the band.
#[derive(Clone, Copy)]
pub(crate) struct LaterRun<'a> {
    pub settings: CodeSettings,
    pub thresholds: &'a [u32],
    pub state: BandState,
    pub residuals: &'a [u16],
}

/// Appends the code words of a run, for which the writer has room, and returns the band's state after it.
///
/// The run is cut where statistics are halved, so that within a piece residuals are only counted. The writer and the state are passed by
/// value, so that both can stay in registers.
#[inline(always)]
pub(crate) fn put_words(writer: BitWriter, run: LaterRun) -> (BitWriter, BandState)
    requires state { IsBandState run.settings run.state }
    requires table { AreThresholds run.settings.bits run.settings.rescaling.size run.thresholds.now }
    requires residuals { AllByRecursion (λ n. n < 2 ^ run.settings.bits) run.residuals.now }
    requires room { 48 * length run.residuals.now ≤ writer.room }
    ensures written { (v : CoderState) (z t k : ℕ) → z < length v.bands → HasSettings v run.entry.settings.bits run.entry.settings.limit run.entry.settings.rescaling.size
        → of_band v.bands z ≡ run.entry.state.statistics → 0 < t + k
        → Writes (λ i. z) (λ i. t + i) k run.entry.residuals.now v writer.bits (with_band v z result.1.statistics) result.0.bits }
    ensures state { IsBandState run.entry.settings result.1 }
    ensures still { result.0.room ≤ writer.room }
{
    let mut writer = writer;
    let mut state = run.state;
    let settings = run.settings;
    let residuals = run.residuals;
    let mut codes = KeptCodes::of(settings.bits, settings.limit, state.k);
    let mut i = 0;
    while i < residuals.len() {
        let most = (settings.rescaling.greatest + 1 - state.statistics.counter) as usize;
        let count = most.min(residuals.len() - i);
        let piece = LaterRun {
            settings,
            thresholds: run.thresholds,
            state,
            residuals: &residuals[i..i + count],
        };
        let after = put_piece(writer, piece, codes);
        writer = after.0;
        state = after.1;
        codes = after.2;
        i += count;
    }
    (writer, state)
}

/// Appends the code words of residuals, after the last of which at most the statistics are halved. Returns the band's state after them, and
/// the two code parameters that are kept.
#[inline(always)]
fn put_piece(
    writer: BitWriter,
    run: LaterRun,
    codes: KeptCodes,
) -> (BitWriter, BandState, KeptCodes)
    requires state { IsBandState run.settings run.state }
    requires some { 0 < length run.residuals.now }
    requires piece { IsPiece run.settings run.state.statistics run.thresholds.now run.residuals.now }
    requires kept { IsKeptCodes run.settings.bits run.settings.limit codes }
    requires room { 48 * length run.residuals.now ≤ writer.room }
    ensures text { result.0.bits ≡ writer.bits ++ words_from run.entry.settings run.entry.state.statistics run.entry.residuals.now }
    ensures statistics { result.1.statistics ≡ statistics_from run.entry.settings.rescaling.size run.entry.state.statistics run.entry.residuals.now }
    ensures state { IsBandState run.entry.settings result.1 }
    ensures kept { IsKeptCodes run.entry.settings.bits run.entry.settings.limit result.2 }
    ensures still { result.0.room ≤ writer.room }
    ensures room { writer.room ≤ result.0.room + 48 * length run.entry.residuals.now }
{
    let settings = run.settings;
    let statistics = run.state.statistics;
    let mut writer = writer;
    let mut state = LaneState {
        codes,
        accumulator: statistics.accumulator,
    };
    let count = run.residuals.len();
    let mut i = 0;
    while i + 8 <= count {
        let after = put_eight(writer, run, state, i);
        writer = after.0;
        state = after.1;
        i += 8;
    }
    let first = statistics.counter as usize + i;
    let k = state
        .codes
        .nearer(settings.bits, run.thresholds, first, state.accumulator);
    let single = PieceState {
        kept: KeptCode::of(settings.bits, statistics.counter, k),
        accumulator: state.accumulator,
    };
    let rest = put_each(writer, run, single, i, count);
    let accumulator = rest.1.accumulator;
    let statistics = after_piece(settings.rescaling, statistics, count as u32, accumulator);
    let after = BandState::with_parameter(statistics, state.codes.k);
    (rest.0, after, state.codes)
}

/// Returns the statistics after residuals at whose end at most they are halved, by how many they are and by the accumulator after them.
#[inline(always)]
fn after_piece(rescaling: Rescaling, s: Statistics, count: u32, accumulator: u32) -> Statistics
    requires statistics { AreStatistics rescaling.size s }
    requires piece { (0 < count) × (s.counter + count ≤ 2 ^ rescaling.size) }
    requires accumulator { accumulator ≤ 2 ^ 16 * (s.counter + count) }
    ensures value { (residuals : List ℕ) → length residuals ≡ count → accumulator ≡ s.accumulator + sum residuals → result ≡ statistics_from rescaling.size s residuals }
    ensures statistics { AreStatistics rescaling.size result }
{
    let counter = s.counter + count;
    if counter <= rescaling.greatest {
        return Statistics {
            counter,
            accumulator,
        };
    }
    Statistics {
        counter: counter / 2,
        accumulator: (accumulator + 1) / 2,
    }
}

/// What changes from residual to residual of a piece: the code parameter, and the sum so far.
#[derive(Clone, Copy)]
pub(crate) struct PieceState {
    pub kept: KeptCode,
    pub accumulator: u32,
}

/// Appends the code words of residuals `first` to `last - 1` of a piece, one after another, and returns the state after them.
#[inline(always)]
pub(crate) fn put_each(
    writer: BitWriter,
    run: LaterRun,
    state: PieceState,
    first: usize,
    last: usize,
) -> (BitWriter, PieceState)
    requires piece { IsPiece run.settings run.state.statistics run.thresholds.now run.residuals.now }
    requires order { first ≤ last }
    requires within { last ≤ length run.residuals.now }
    requires kept { IsKeptCode run.settings.bits run.state.statistics.counter state.kept }
    requires sum { state.accumulator ≡ sum_after run.state.statistics run.residuals.now first }
    requires room { 48 * (last - first) ≤ writer.room }
    ensures text { (old : List Bool) → writer.bits ≡ old ++ words_from run.entry.settings run.entry.state.statistics (take first run.entry.residuals.now)
        → result.0.bits ≡ old ++ words_from run.entry.settings run.entry.state.statistics (take last run.entry.residuals.now) }
    ensures kept { IsKeptCode run.entry.settings.bits run.entry.state.statistics.counter result.1.kept }
    ensures sum { result.1.accumulator ≡ sum_after run.entry.state.statistics run.entry.residuals.now last }
    ensures room { writer.room ≤ result.0.room + 48 * (last - first) }
    ensures still { result.0.room ≤ writer.room }
{
    let mut writer = writer;
    let mut state = state;
    for i in first..last {
        let after = put_one(writer, run, state, i);
        writer = after.0;
        state = after.1;
    }
    (writer, state)
}

/// Appends the code word of residual `i` of a piece, and returns the state after it.
#[inline(always)]
fn put_one(writer: BitWriter, run: LaterRun, state: PieceState, i: usize) -> (BitWriter, PieceState)
    requires piece { IsPiece run.settings run.state.statistics run.thresholds.now run.residuals.now }
    requires within { i < length run.residuals.now }
    requires kept { IsKeptCode run.settings.bits run.state.statistics.counter state.kept }
    requires sum { state.accumulator ≡ sum_after run.state.statistics run.residuals.now i }
    requires room { 48 ≤ writer.room }
    ensures text { (old : List Bool) → writer.bits ≡ old ++ words_from run.entry.settings run.entry.state.statistics (take i run.entry.residuals.now)
        → result.0.bits ≡ old ++ words_from run.entry.settings run.entry.state.statistics (take (i + 1) run.entry.residuals.now) }
    ensures kept { IsKeptCode run.entry.settings.bits run.entry.state.statistics.counter result.1.kept }
    ensures sum { result.1.accumulator ≡ sum_after run.entry.state.statistics run.entry.residuals.now (i + 1) }
    ensures room { writer.room ≤ result.0.room + 48 }
    ensures still { result.0.room ≤ writer.room }
{
    let residual = run.residuals[i];
    let counter = run.state.statistics.counter;
    let kept = state.kept.settled(run.settings, run.thresholds, counter, i, state.accumulator);
    let after = PieceState {
        kept,
        accumulator: state.accumulator + u32::from(residual),
    };
    let quotient = u32::from(residual) >> kept.k;
    if quotient < run.settings.limit {
        let bits = kept.one + (u64::from(residual) & (kept.one - 1));
        let mut writer = writer;
        writer.push_reserved(bits, quotient + kept.shortest);
        return (writer, after);
    }
    let code = Code {
        limit: run.settings.limit,
        k: kept.k,
        bits: run.settings.bits,
    };
    (put_long(writer, code, residual), after)
}

/// Appends the code word of a residual, which may be an escape. Apart from the loop over residuals, which is shorter so.
#[cold]
#[inline(never)]
fn put_long(writer: BitWriter, code: Code, residual: u16) -> BitWriter
    requires code { IsCode code }
    requires residual { residual < 2 ^ code.bits }
    requires room { 48 ≤ writer.room }
    ensures text { result.bits ≡ writer.bits ++ code_word code residual }
    ensures room { writer.room ≤ result.room + 48 }
    ensures still { result.room ≤ writer.room }
{
    let word = word_of(code, residual);
    let mut writer = writer;
    writer.push_reserved(word.bits, word.length);
    writer
}

/// Reserves room for `words` code words. The room grows to that, in whole bytes, or to as many bits as are written if these are more.
pub(crate) fn make_room(words: usize, writer: &mut BitWriter) -> Result<(), Fault>
    requires few { words ≤ 2 ^ 16 }
    ensures same { writer.new.bits ≡ writer.old.bits }
    ensures room { OnOk result (48 * words ≤ writer.new.room) }
    ensures bounded { writer.new.room ≤ max writer.old.room (max (48 * words + 7) (length writer.old.bits)) }
    ensures within { 48 * words ≤ writer.old.room → IsOk result }
    ensures refused { IfErr result (λ e. e ≡ WantOfMemory) }
{
    writer.reserve(MOST_BITS * words as u64)
}
