//! Short code words of one band, read back.

ghost use Rattle.std.specs.Prelude.{◌≡◌, ◌+◌, ◌*◌, ◌^◌, ◌<◌, ◌≤◌, length, true, Ok, IfSome, IfNone, ℕ};
ghost use Rattle.header_bits.specs.Bits.{Unread};
ghost use Rattle.header_bits.specs.Windows.{IsAhead};
ghost use Rattle.sample_adaptive.specs.Pieces.{AreCounted, AreWordsOf, at_piece_end};
ghost use Rattle.sample_adaptive.specs.Reading.{word_at};
ghost use Rattle.sample_adaptive.specs.Statistics.{AreStatistics, code_parameter};
ghost use Rattle.sample_adaptive.specs.Thresholds.{AreThresholds};
ghost use Rattle.sample_adaptive.specs.Taken.{CoderState, HasSettings, Reaches, with_band};

use crate::code_settings::CodeSettings;
use crate::code_word::Code;
use crate::short_word::ShortWords;
use crate::statistics::{Statistics, parameter};
use crate::thresholds::ROW;
use header_bits::bit_reader::BitReader;

/// Reads up to `few` residuals, none of which is the band's first, as long as their code words are short, into `residuals` from
/// index `i` on. Returns how many, and counts them: the statistics aren't halved yet if the counter comes to 2^γ*.
///
/// The bits ahead are looked at once, and have as many short words. With fewer than 57 bits left it reads none.
#[inline(always)]
pub(crate) fn take_few(
    settings: CodeSettings,
    thresholds: &[u32],
    few: usize,
    statistics: &mut Statistics,
    words: &mut ShortWords,
    reader: &mut BitReader,
    i: usize,
    residuals: &mut [u16],
) -> usize
    requires thresholds { AreThresholds settings.bits settings.rescaling.size thresholds.now }
    requires statistics { AreStatistics settings.rescaling.size statistics.old }
    requires words { AreWordsOf settings words.old.code }
    requires ahead { few * words.old.most ≤ 57 }
    requires before { statistics.old.counter + few ≤ 2 ^ settings.rescaling.size }
    requires inside { i + few ≤ length residuals.old }
    requires long { length residuals.old ≤ 2 ^ 16 }
    ensures taken { (v : CoderState) (z t k index : ℕ) (first : Unread) → z < length v.bands → HasSettings v settings.bits settings.limit settings.rescaling.size
        → 0 < t + k → Reaches (λ i. z) (λ i. t + i) k index i v (with_band v z statistics.old) first reader.old residuals.old
        → Reaches (λ i. z) (λ i. t + i) k index (i + result) v (with_band v z (at_piece_end settings.rescaling.size statistics.new)) first reader.new residuals.new }
    ensures few { result ≤ few }
    ensures counter { statistics.new.counter ≡ statistics.old.counter + result }
    ensures most { result ≡ few → words.new.most ≡ words.old.most }
    ensures statistics { AreCounted settings.rescaling.size statistics.new }
    ensures words { AreWordsOf settings words.new.code }
    ensures count { reader.new.count ≡ reader.old.count }
    ensures long { length residuals.new ≡ length residuals.old }
{
    let Some(word) = reader.peek() else { return 0 };
    let most = words.most;
    let first = statistics.counter as usize;
    let mut accumulator = statistics.accumulator;
    let mut bits = word;
    let mut taken = 0;
    while taken < few {
        let Some(residual) = take_short(
            settings,
            thresholds,
            most,
            first + taken,
            &mut accumulator,
            words,
            &mut bits,
            reader,
        ) else {
            break;
        };
        residuals[i + taken] = residual as u16;
        taken += 1;
    }
    *statistics = Statistics {
        counter: (first + taken) as u32,
        accumulator,
    };
    taken
}

/// `take_few_rarely`, with copies in place of what it changes: so the caller keeps all that in registers, and pays for copies only here.
#[inline(always)]
pub(crate) fn take_few_on_copies(
    settings: CodeSettings,
    thresholds: &[u32],
    few: usize,
    statistics: &mut Statistics,
    words: &mut ShortWords,
    reader: &mut BitReader,
    i: usize,
    residuals: &mut [u16],
) -> usize
    requires thresholds { AreThresholds settings.bits settings.rescaling.size thresholds.now }
    requires statistics { AreStatistics settings.rescaling.size statistics.old }
    requires words { AreWordsOf settings words.old.code }
    requires ahead { few * words.old.most ≤ 57 }
    requires before { statistics.old.counter + few ≤ 2 ^ settings.rescaling.size }
    requires inside { i + few ≤ length residuals.old }
    requires long { length residuals.old ≤ 2 ^ 16 }
    ensures taken { (v : CoderState) (z t k index : ℕ) (first : Unread) → z < length v.bands → HasSettings v settings.bits settings.limit settings.rescaling.size
        → 0 < t + k → Reaches (λ i. z) (λ i. t + i) k index i v (with_band v z statistics.old) first reader.old residuals.old
        → Reaches (λ i. z) (λ i. t + i) k index (i + result) v (with_band v z (at_piece_end settings.rescaling.size statistics.new)) first reader.new residuals.new }
    ensures few { result ≤ few }
    ensures counter { statistics.new.counter ≡ statistics.old.counter + result }
    ensures most { result ≡ few → words.new.most ≡ words.old.most }
    ensures statistics { AreCounted settings.rescaling.size statistics.new }
    ensures words { AreWordsOf settings words.new.code }
    ensures count { reader.new.count ≡ reader.old.count }
    ensures long { length residuals.new ≡ length residuals.old }
{
    let mut rest_statistics = *statistics;
    let mut rest_words = *words;
    let mut rest = reader.fork();
    let taken = take_few_rarely(
        settings,
        thresholds,
        few,
        &mut rest_statistics,
        &mut rest_words,
        &mut rest,
        i,
        residuals,
    );
    *statistics = rest_statistics;
    *words = rest_words;
    *reader = rest;
    taken
}

/// `take_few`, apart from the loop over words that share a code parameter, which is shorter so.
#[cold]
#[inline(never)]
fn take_few_rarely(
    settings: CodeSettings,
    thresholds: &[u32],
    few: usize,
    statistics: &mut Statistics,
    words: &mut ShortWords,
    reader: &mut BitReader,
    i: usize,
    residuals: &mut [u16],
) -> usize
    requires thresholds { AreThresholds settings.bits settings.rescaling.size thresholds.now }
    requires statistics { AreStatistics settings.rescaling.size statistics.old }
    requires words { AreWordsOf settings words.old.code }
    requires ahead { few * words.old.most ≤ 57 }
    requires before { statistics.old.counter + few ≤ 2 ^ settings.rescaling.size }
    requires inside { i + few ≤ length residuals.old }
    requires long { length residuals.old ≤ 2 ^ 16 }
    ensures taken { (v : CoderState) (z t k index : ℕ) (first : Unread) → z < length v.bands → HasSettings v settings.bits settings.limit settings.rescaling.size
        → 0 < t + k → Reaches (λ i. z) (λ i. t + i) k index i v (with_band v z statistics.old) first reader.old residuals.old
        → Reaches (λ i. z) (λ i. t + i) k index (i + result) v (with_band v z (at_piece_end settings.rescaling.size statistics.new)) first reader.new residuals.new }
    ensures few { result ≤ few }
    ensures counter { statistics.new.counter ≡ statistics.old.counter + result }
    ensures most { result ≡ few → words.new.most ≡ words.old.most }
    ensures statistics { AreCounted settings.rescaling.size statistics.new }
    ensures words { AreWordsOf settings words.new.code }
    ensures count { reader.new.count ≡ reader.old.count }
    ensures long { length residuals.new ≡ length residuals.old }
{
    take_few(
        settings, thresholds, few, statistics, words, reader, i, residuals,
    )
}

/// Reads a residual, not the band's first, if its code word is short, and adds it to the accumulator. `bits` has the next bits at its
/// front, `most` or more.
#[inline(always)]
fn take_short(
    settings: CodeSettings,
    thresholds: &[u32],
    most: u32,
    counter: usize,
    accumulator: &mut u32,
    words: &mut ShortWords,
    bits: &mut u64,
    reader: &mut BitReader,
) -> Option<u32>
    requires thresholds { AreThresholds settings.bits settings.rescaling.size thresholds.now }
    requires statistics { AreStatistics settings.rescaling.size (record { counter = counter; accumulator = accumulator.old }) }
    requires words { AreWordsOf settings words.old.code }
    requires most { words.old.most ≡ most }
    requires ahead { IsAhead most reader.old.left bits.old }
    ensures reads { IfSome result (λ residual. (index : ℕ) → word_at reader.old.count index (record {
      limit = settings.limit;
      k = code_parameter settings.bits (record { counter = counter; accumulator = accumulator.old });
      bits = settings.bits;
    }) reader.old.left ≡ Ok (residual, reader.new.left)) }
    ensures sums { IfSome result (λ residual. accumulator.new ≡ accumulator.old + residual) }
    ensures below { IfSome result (λ residual. residual < 2 ^ 16) }
    ensures ahead { IfSome result (λ residual. (more : ℕ) → more + most ≤ 57 → IsAhead (more + most) reader.old.left bits.old → IsAhead more reader.new.left bits.new) }
    ensures most { IfSome result (λ residual. words.new.most ≡ most) }
    ensures same { IfNone result ((reader.new ≡ reader.old) × (accumulator.new ≡ accumulator.old)) }
    ensures words { AreWordsOf settings words.new.code }
    ensures count { reader.new.count ≡ reader.old.count }
{
    if !keeps_k(settings, thresholds, *words, counter, *accumulator) {
        let statistics = Statistics {
            counter: counter as u32,
            accumulator: *accumulator,
        };
        *words = words_at(settings, statistics);
        if words.most != most {
            return None;
        }
    }
    let residual = words.take(bits, reader)?;
    *accumulator += residual;
    Some(residual)
}

/// Returns the short code words of the next residual.
#[cold]
#[inline(never)]
pub(crate) fn words_at(settings: CodeSettings, statistics: Statistics) -> ShortWords
    requires { AreStatistics settings.rescaling.size statistics }
    ensures code { result.code ≡ record { limit = settings.limit; k = code_parameter settings.bits statistics; bits = settings.bits } }
    ensures words { AreWordsOf settings result.code }
{
    words_of(settings, parameter(settings.bits, statistics))
}

/// Returns the short code words of a code parameter.
#[inline(always)]
pub(crate) fn words_of(settings: CodeSettings, k: u32) -> ShortWords
    requires { k + 2 ≤ settings.bits }
    ensures code { result.code ≡ record { limit = settings.limit; k = k; bits = settings.bits } }
    ensures words { AreWordsOf settings result.code }
{
    ShortWords::of(Code {
        limit: settings.limit,
        k,
        bits: settings.bits,
    })
}

/// Whether two thresholds show that the code parameter is still that of the statistics, as they mostly do.
#[inline(always)]
fn keeps_k(
    settings: CodeSettings,
    thresholds: &[u32],
    words: ShortWords,
    counter: usize,
    accumulator: u32,
) -> bool
    requires thresholds { AreThresholds settings.bits settings.rescaling.size thresholds.now }
    requires counter { counter < 2 ^ settings.rescaling.size }
    requires words { AreWordsOf settings words.code }
    ensures { result ≡ true → words.code.k ≡ code_parameter settings.bits (record { counter = counter; accumulator = accumulator }) }
{
    let entry = words.row + counter;
    thresholds[entry] <= accumulator && accumulator < thresholds[entry + ROW]
}
