//! Short code words of one band that share a code parameter, read back.

ghost use Rattle.std.specs.Prelude.{◌≡◌, ◌+◌, ◌*◌, ◌^◌, ◌<◌, ◌≤◌, length, take, IfSome, IfNone, ℕ};
ghost use Rattle.header_bits.specs.Bits.{Unread};
ghost use Rattle.sample_adaptive.specs.Pieces.{AreCounted, AreWordsOf, at_piece_end};
ghost use Rattle.sample_adaptive.specs.Statistics.{AreStatistics};
ghost use Rattle.sample_adaptive.specs.Thresholds.{AreThresholds};
ghost use Rattle.sample_adaptive.specs.Taken.{CoderState, HasSettings, Reaches, with_band};

use crate::code_settings::CodeSettings;
use crate::short_word::ShortWords;
use crate::statistics::Statistics;
use crate::thresholds::ROW;
use header_bits::bit_reader::BitReader;

/// Reads `few` residuals, none of which is the band's first, into `residuals` from index `i` on, if thresholds show that they have the code
/// parameter of `words`, and their code words are short. Returns the accumulator after them; or returns `None`, and then the reader
/// stands where it stood.
///
/// Thresholds grow with the counter, and the accumulator with each residual: so the first accumulator and the lower threshold of the last
/// counter, and the last accumulator and the upper threshold of the first counter, show it of all. The bits ahead are looked at once.
#[inline(always)]
pub(crate) fn take_alike(
    settings: CodeSettings,
    thresholds: &[u32],
    few: usize,
    statistics: Statistics,
    words: ShortWords,
    reader: &mut BitReader,
    i: usize,
    residuals: &mut [u16],
) -> Option<u32>
    requires thresholds { AreThresholds settings.bits settings.rescaling.size thresholds.now }
    requires statistics { AreStatistics settings.rescaling.size statistics }
    requires words { AreWordsOf settings words.code }
    requires some { 1 ≤ few }
    requires ahead { few * words.most ≤ 57 }
    requires before { statistics.counter + few ≤ 2 ^ settings.rescaling.size }
    requires inside { i + few ≤ length residuals.old }
    requires long { length residuals.old ≤ 2 ^ 16 }
    ensures taken { IfSome result (λ accumulator. (v : CoderState) (z t k index : ℕ) (first : Unread) → z < length v.bands
        → HasSettings v settings.bits settings.limit settings.rescaling.size → 0 < t + k
        → Reaches (λ i. z) (λ i. t + i) k index i v (with_band v z statistics) first reader.old residuals.old
        → Reaches (λ i. z) (λ i. t + i) k index (i + few) v
        (with_band v z (at_piece_end settings.rescaling.size (record { counter = statistics.counter + few; accumulator = accumulator }))) first reader.new residuals.new) }
    ensures statistics { IfSome result (λ accumulator. AreCounted settings.rescaling.size (record { counter = statistics.counter + few; accumulator = accumulator })) }
    ensures same { IfNone result (reader.new ≡ reader.old) }
    ensures before { take i residuals.new ≡ take i residuals.old }
    ensures count { reader.new.count ≡ reader.old.count }
    ensures long { length residuals.new ≡ length residuals.old }
{
    let entry = words.row + statistics.counter as usize;
    if statistics.accumulator < thresholds[entry + (few - 1)] {
        return None;
    }
    let mut bits = reader.peek()?;
    let mut ahead = reader.fork();
    let mut accumulator = statistics.accumulator;
    let mut last = accumulator;
    let mut taken = 0;
    while taken < few {
        let residual = words.take(&mut bits, &mut ahead)?;
        residuals[i + taken] = residual as u16;
        last = accumulator;
        accumulator += residual;
        taken += 1;
    }
    if thresholds[entry + ROW] <= last {
        return None;
    }
    *reader = ahead;
    Some(accumulator)
}
