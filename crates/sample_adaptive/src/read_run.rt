//! Runs of one band's code words, read back.

ghost use Rattle.std.specs.Prelude.{◌≡◌, ◌+◌, ◌^◌, ◌<◌, ◌≤◌, length, ℕ};
ghost use Rattle.header_bits.specs.Bits.{Unread};
ghost use Rattle.sample_adaptive.specs.Taken.{CoderState, HasSettings, GetsEach, GetsRun, Reaches, of_band, with_band};
ghost use Rattle.sample_adaptive.specs.BandStates.{IsBandState};
ghost use Rattle.sample_adaptive.specs.Pieces.{AreWordsOf};
ghost use Rattle.sample_adaptive.specs.Statistics.{AreStatistics};
ghost use Rattle.sample_adaptive.specs.Thresholds.{AreThresholds};

use crate::band_state::BandState;
use crate::code_settings::CodeSettings;
use crate::code_word::{Code, take_word};
use crate::piece::{take_piece, take_some};
use crate::short_run::words_of;
use crate::short_word::ShortWords;
use crate::statistics::Statistics;
use cube_core::fault::Fault;
use header_bits::bit_reader::BitReader;

/// Reads residuals `t`, `t + 1`, .. of a band, whose code words come next, and updates its state.
///
/// After a refusal the reader's position and the state are unspecified.
#[inline(always)]
pub(crate) fn take_words(
    settings: CodeSettings,
    thresholds: &[u32],
    t: u64,
    index: u64,
    state: &mut BandState,
    reader: &mut BitReader,
    residuals: &mut [u16],
) -> Result<(), Fault>
    requires thresholds { AreThresholds settings.bits settings.rescaling.size thresholds.now }
    requires state { IsBandState settings state.old }
    requires long { (length residuals.old ≤ 2 ^ 16) × (index < 2 ^ 48) }
    ensures taken { (v : CoderState) (z : ℕ) → z < length v.bands → HasSettings v settings.bits settings.limit settings.rescaling.size → of_band v.bands z ≡ state.old.statistics
        → GetsRun z t index result v reader.old (with_band v z state.new.statistics) reader.new.left residuals.new }
    ensures state { IsBandState settings state.new }
    ensures count { reader.new.count ≡ reader.old.count }
    ensures long { length residuals.new ≡ length residuals.old }
{
    if t >= 1 {
        return take_later(settings, thresholds, index, state, reader, residuals);
    }
    match residuals.split_first_mut() {
        Some((first, later)) => {
            let code = Code {
                limit: 0,
                k: 0,
                bits: settings.bits,
            };
            *first = take_word(code, index, reader)?;
            take_later(settings, thresholds, index + 1, state, reader, later)
        }
        None => Ok(()),
    }
}

/// Reads residuals of a band, none of which is its first, and updates its state.
#[inline(always)]
fn take_later(
    settings: CodeSettings,
    thresholds: &[u32],
    index: u64,
    state: &mut BandState,
    reader: &mut BitReader,
    residuals: &mut [u16],
) -> Result<(), Fault>
    requires thresholds { AreThresholds settings.bits settings.rescaling.size thresholds.now }
    requires state { IsBandState settings state.old }
    requires long { (length residuals.old ≤ 2 ^ 16) × (index ≤ 2 ^ 48) }
    ensures taken { (v : CoderState) (z t k : ℕ) → z < length v.bands → HasSettings v settings.bits settings.limit settings.rescaling.size
        → of_band v.bands z ≡ state.old.statistics → 0 < t + k
        → GetsEach (λ i. z) (λ i. t + i) k index result v reader.old (with_band v z state.new.statistics) reader.new.left residuals.new }
    ensures state { IsBandState settings state.new }
    ensures count { reader.new.count ≡ reader.old.count }
    ensures long { length residuals.new ≡ length residuals.old }
{
    let done = take_ready(settings, thresholds, index, state, reader, residuals);
    if done == residuals.len() {
        return Ok(());
    }
    take_rest(
        settings,
        index + done as u64,
        state,
        reader,
        &mut residuals[done..],
    )
}

/// Reads residuals of a band, none of which is its first, as long as 57 bits are left and begin with a code word. Returns how
/// many, and updates the band's state.
///
/// A loop that refuses nothing keeps all that it changes in registers. The statistics are halved at the end of a piece, and short words
/// are read four at a time.
#[inline(always)]
fn take_ready(
    settings: CodeSettings,
    thresholds: &[u32],
    index: u64,
    state: &mut BandState,
    reader: &mut BitReader,
    residuals: &mut [u16],
) -> usize
    requires thresholds { AreThresholds settings.bits settings.rescaling.size thresholds.now }
    requires state { IsBandState settings state.old }
    requires long { (length residuals.old ≤ 2 ^ 16) × (index ≤ 2 ^ 48) }
    ensures taken { (v : CoderState) (z t k : ℕ) → z < length v.bands → HasSettings v settings.bits settings.limit settings.rescaling.size
        → of_band v.bands z ≡ state.old.statistics → 0 < t + k
        → Reaches (λ i. z) (λ i. t + i) k index result v (with_band v z state.new.statistics) reader.old reader.new residuals.new }
    ensures state { IsBandState settings state.new }
    ensures within { result ≤ length residuals.new }
    ensures count { reader.new.count ≡ reader.old.count }
    ensures long { length residuals.new ≡ length residuals.old }
{
    let mut statistics = state.statistics;
    let mut words = words_of(settings, state.k);
    let mut ahead = reader.fork();
    let mut i = 0;
    while i < residuals.len() {
        let taken = take_piece(
            settings,
            thresholds,
            &mut statistics,
            &mut words,
            &mut ahead,
            i,
            residuals,
        );
        i += taken;
        if taken > 0 {
            continue;
        }
        let taken = take_some_on_copies(
            settings,
            thresholds,
            index + i as u64,
            &mut statistics,
            &mut words,
            &mut ahead,
            i,
            residuals,
        );
        i += taken;
        if taken == 0 {
            break;
        }
    }
    *reader = ahead;
    *state = BandState::with_parameter(statistics, words.code.k);
    i
}

/// `take_some`, with copies in place of what it changes: so the caller keeps all that in registers, and pays for copies only here.
#[inline(always)]
fn take_some_on_copies(
    settings: CodeSettings,
    thresholds: &[u32],
    index: u64,
    statistics: &mut Statistics,
    words: &mut ShortWords,
    reader: &mut BitReader,
    i: usize,
    residuals: &mut [u16],
) -> usize
    requires thresholds { AreThresholds settings.bits settings.rescaling.size thresholds.now }
    requires statistics { AreStatistics settings.rescaling.size statistics.old }
    requires words { AreWordsOf settings words.old.code }
    requires inside { i < length residuals.old }
    requires long { length residuals.old ≤ 2 ^ 16 }
    ensures taken { (v : CoderState) (z t k begun : ℕ) (first : Unread) → z < length v.bands → HasSettings v settings.bits settings.limit settings.rescaling.size
        → 0 < t + k → index ≡ begun + i → Reaches (λ i. z) (λ i. t + i) k begun i v (with_band v z statistics.old) first reader.old residuals.old
        → Reaches (λ i. z) (λ i. t + i) k begun (i + result) v (with_band v z statistics.new) first reader.new residuals.new }
    ensures within { i + result ≤ length residuals.new }
    ensures statistics { AreStatistics settings.rescaling.size statistics.new }
    ensures words { AreWordsOf settings words.new.code }
    ensures count { reader.new.count ≡ reader.old.count }
    ensures long { length residuals.new ≡ length residuals.old }
{
    let mut rest_statistics = *statistics;
    let mut rest_words = *words;
    let mut rest = reader.fork();
    let taken = take_some(
        settings,
        thresholds,
        index,
        &mut rest_statistics,
        &mut rest_words,
        &mut rest,
        i,
        residuals,
    );
    *statistics = rest_statistics;
    *words = rest_words;
    *reader = rest;
    taken
}

/// `take_later`, word by word and with fewer than 57 bits left, too; it names the fault of a refused residual.
#[inline(never)]
fn take_rest(
    settings: CodeSettings,
    index: u64,
    state: &mut BandState,
    reader: &mut BitReader,
    residuals: &mut [u16],
) -> Result<(), Fault>
    requires state { IsBandState settings state.old }
    requires long { (length residuals.old ≤ 2 ^ 16) × (index ≤ 2 ^ 49) }
    ensures taken { (v : CoderState) (z t k : ℕ) → z < length v.bands → HasSettings v settings.bits settings.limit settings.rescaling.size
        → of_band v.bands z ≡ state.old.statistics → 0 < t + k
        → GetsEach (λ i. z) (λ i. t + i) k index result v reader.old (with_band v z state.new.statistics) reader.new.left residuals.new }
    ensures state { IsBandState settings state.new }
    ensures count { reader.new.count ≡ reader.old.count }
    ensures long { length residuals.new ≡ length residuals.old }
{
    for i in 0..residuals.len() {
        state.update_k(settings);
        let code = Code {
            limit: settings.limit,
            k: state.k,
            bits: settings.bits,
        };
        match take_word(code, index + i as u64, reader) {
            Ok(residual) => {
                residuals[i] = residual;
                state.count(settings, residual);
            }
            Err(fault) => return Err(fault),
        }
    }
    Ok(())
}
