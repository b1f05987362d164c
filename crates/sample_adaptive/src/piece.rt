//! Pieces of a band's residuals: the statistics are halved at the end of each, and count and sum within it.

ghost use Rattle.std.specs.Prelude.{◌≡◌, ◌+◌, ◌*◌, ◌^◌, ◌<◌, ◌≤◌, length, take, Ok, IfSome, IfNone, ℕ};
ghost use Rattle.header_bits.specs.Bits.{Unread};
ghost use Rattle.sample_adaptive.specs.Pieces.{AreCounted, AreWordsOf, at_piece_end};
ghost use Rattle.sample_adaptive.specs.Reading.{word_at};
ghost use Rattle.sample_adaptive.specs.Statistics.{AreStatistics, next_statistics, code_parameter};
ghost use Rattle.sample_adaptive.specs.Thresholds.{AreThresholds};
ghost use Rattle.sample_adaptive.specs.Taken.{CoderState, HasSettings, Reaches, with_band};

use crate::alike_run::take_alike;
use crate::code_settings::CodeSettings;
use crate::code_word::take_from;
use crate::short_run::{take_few, take_few_on_copies, words_at};
use crate::short_word::ShortWords;
use crate::statistics::{Statistics, counted};
use header_bits::bit_reader::BitReader;

/// Reads residuals, none of which is the band's first, into `residuals` from index `i` on, as many at a time as the bits ahead have short
/// words, up to the end of the piece or of the residuals, or to one whose word isn't short. Returns how many, and updates the statistics.
#[inline(always)]
pub(crate) fn take_piece(
    settings: CodeSettings,
    thresholds: &[u32],
    statistics: &mut Statistics,
    words: &mut ShortWords,
    reader: &mut BitReader,
    i: usize,
    residuals: &mut [u16],
) -> usize
    requires thresholds { AreThresholds settings.bits settings.rescaling.size thresholds.now }
    requires statistics { AreStatistics settings.rescaling.size statistics.old }
    requires words { AreWordsOf settings words.old.code }
    requires inside { i ≤ length residuals.old }
    requires long { length residuals.old ≤ 2 ^ 16 }
    ensures taken { (v : CoderState) (z t k index : ℕ) (first : Unread) → z < length v.bands → HasSettings v settings.bits settings.limit settings.rescaling.size
        → 0 < t + k → Reaches (λ i. z) (λ i. t + i) k index i v (with_band v z statistics.old) first reader.old residuals.old
        → Reaches (λ i. z) (λ i. t + i) k index (i + result) v (with_band v z statistics.new) first reader.new residuals.new }
    ensures within { i + result ≤ length residuals.new }
    ensures statistics { AreStatistics settings.rescaling.size statistics.new }
    ensures words { AreWordsOf settings words.new.code }
    ensures count { reader.new.count ≡ reader.old.count }
    ensures long { length residuals.new ≡ length residuals.old }
{
    let whole = words_left(settings, *statistics, residuals.len() - i);
    let together = words.together;
    let mut taken = 0;
    while taken + together <= whole {
        let at = i + taken;
        let s = *statistics;
        let kept = take_together(
            settings, thresholds, together, s, *words, reader, at, residuals,
        );
        if let Some(accumulator) = kept {
            *statistics = Statistics {
                counter: s.counter + together as u32,
                accumulator,
            };
            taken += together;
            continue;
        }
        let some = take_few_on_copies(
            settings, thresholds, together, statistics, words, reader, at, residuals,
        );
        taken += some;
        if some < together {
            *statistics = piece_ended(settings, *statistics);
            return taken;
        }
    }
    if taken == whole {
        *statistics = piece_ended(settings, *statistics);
        return taken;
    }
    let at = i + taken;
    let few = whole - taken;
    let rest = take_few(
        settings, thresholds, few, statistics, words, reader, at, residuals,
    );
    *statistics = piece_ended(settings, *statistics);
    taken + rest
}

/// Returns how many residuals are left of a piece, or in all if these are fewer.
#[inline(always)]
fn words_left(settings: CodeSettings, s: Statistics, left: usize) -> usize
    requires { AreStatistics settings.rescaling.size s }
    ensures within { result ≤ left }
    ensures before { s.counter + result ≤ 2 ^ settings.rescaling.size }
{
    left.min((settings.rescaling.greatest + 1 - s.counter) as usize)
}

/// `take_alike` for three or four words: the loop over a number that is known is unrolled.
#[inline(always)]
fn take_together(
    settings: CodeSettings,
    thresholds: &[u32],
    together: usize,
    statistics: Statistics,
    words: ShortWords,
    reader: &mut BitReader,
    i: usize,
    residuals: &mut [u16],
) -> Option<u32>
    requires thresholds { AreThresholds settings.bits settings.rescaling.size thresholds.now }
    requires statistics { AreStatistics settings.rescaling.size statistics }
    requires words { AreWordsOf settings words.code }
    requires together { (3 ≤ together) × (together ≤ 4) }
    requires ahead { together * words.most ≤ 57 }
    requires before { statistics.counter + together ≤ 2 ^ settings.rescaling.size }
    requires inside { i + together ≤ length residuals.old }
    requires long { length residuals.old ≤ 2 ^ 16 }
    ensures taken { IfSome result (λ accumulator. (v : CoderState) (z t k index : ℕ) (first : Unread) → z < length v.bands
        → HasSettings v settings.bits settings.limit settings.rescaling.size → 0 < t + k
        → Reaches (λ i. z) (λ i. t + i) k index i v (with_band v z statistics) first reader.old residuals.old
        → Reaches (λ i. z) (λ i. t + i) k index (i + together) v
        (with_band v z (at_piece_end settings.rescaling.size (record { counter = statistics.counter + together; accumulator = accumulator }))) first reader.new residuals.new) }
    ensures statistics { IfSome result (λ accumulator. AreCounted settings.rescaling.size (record { counter = statistics.counter + together; accumulator = accumulator })) }
    ensures same { IfNone result (reader.new ≡ reader.old) }
    ensures before { take i residuals.new ≡ take i residuals.old }
    ensures count { reader.new.count ≡ reader.old.count }
    ensures long { length residuals.new ≡ length residuals.old }
{
    if together == 4 {
        take_alike(
            settings, thresholds, 4, statistics, words, reader, i, residuals,
        )
    } else {
        take_alike(
            settings, thresholds, 3, statistics, words, reader, i, residuals,
        )
    }
}

/// Reads one residual or a few, none of which is the band's first, as long as 57 bits are left and begin with a code word, into
/// `residuals` from index `i` on. Returns how many, and updates the statistics. The first residual is at `index` in encoding order.
#[cold]
#[inline(never)]
pub(crate) fn take_some(
    settings: CodeSettings,
    thresholds: &[u32],
    index: u64,
    statistics: &mut Statistics,
    words: &mut ShortWords,
    reader: &mut BitReader,
    i: usize,
    residuals: &mut [u16],
) -> usize
    requires thresholds { AreThresholds settings.bits settings.rescaling.size thresholds.now }
    requires statistics { AreStatistics settings.rescaling.size statistics.old }
    requires words { AreWordsOf settings words.old.code }
    requires inside { i < length residuals.old }
    requires long { length residuals.old ≤ 2 ^ 16 }
    ensures taken { (v : CoderState) (z t k begun : ℕ) (first : Unread) → z < length v.bands → HasSettings v settings.bits settings.limit settings.rescaling.size
        → 0 < t + k → index ≡ begun + i → Reaches (λ i. z) (λ i. t + i) k begun i v (with_band v z statistics.old) first reader.old residuals.old
        → Reaches (λ i. z) (λ i. t + i) k begun (i + result) v (with_band v z statistics.new) first reader.new residuals.new }
    ensures within { i + result ≤ length residuals.new }
    ensures statistics { AreStatistics settings.rescaling.size statistics.new }
    ensures words { AreWordsOf settings words.new.code }
    ensures count { reader.new.count ≡ reader.old.count }
    ensures long { length residuals.new ≡ length residuals.old }
{
    let few = words_left(settings, *statistics, residuals.len() - i).min(words.together);
    let taken = take_few(
        settings, thresholds, few, statistics, words, reader, i, residuals,
    );
    *statistics = piece_ended(settings, *statistics);
    if taken > 0 {
        return taken;
    }
    let Some(residual) = take_one(settings, index, statistics, words, reader) else {
        return 0;
    };
    residuals[i] = residual;
    1
}

/// Reads a residual, not the band's first, if 57 bits are left and begin with its code word, and updates the statistics.
#[inline(always)]
fn take_one(
    settings: CodeSettings,
    index: u64,
    statistics: &mut Statistics,
    words: &mut ShortWords,
    reader: &mut BitReader,
) -> Option<u16>
    requires statistics { AreStatistics settings.rescaling.size statistics.old }
    requires words { AreWordsOf settings words.old.code }
    ensures reads { IfSome result (λ residual. word_at reader.old.count index (record {
      limit = settings.limit;
      k = code_parameter settings.bits statistics.old;
      bits = settings.bits;
    }) reader.old.left ≡ Ok (residual, reader.new.left)) }
    ensures counts { IfSome result (λ residual. statistics.new ≡ next_statistics settings.rescaling.size statistics.old residual) }
    ensures same { IfNone result ((reader.new ≡ reader.old) × (statistics.new ≡ statistics.old)) }
    ensures statistics { AreStatistics settings.rescaling.size statistics.new }
    ensures words { AreWordsOf settings words.new.code }
    ensures count { reader.new.count ≡ reader.old.count }
{
    let word = reader.peek()?;
    *words = words_at(settings, *statistics);
    let residual = take_from(words.code, index, word, reader).ok()?;
    *statistics = piece_ended(settings, counted(*statistics, residual));
    Some(residual)
}

/// Returns the statistics, which are halved if the counter has come to 2^γ*.
#[inline(always)]
pub(crate) fn piece_ended(settings: CodeSettings, s: Statistics) -> Statistics
    requires { AreCounted settings.rescaling.size s }
    ensures value { result ≡ at_piece_end settings.rescaling.size s }
    ensures range { AreStatistics settings.rescaling.size result }
{
    let greatest = settings.rescaling.greatest;
    if s.counter <= greatest {
        return s;
    }
    Statistics {
        counter: (greatest + 1) / 2,
        accumulator: (s.accumulator + 1) / 2,
    }
}
