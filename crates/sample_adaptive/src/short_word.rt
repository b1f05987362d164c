//! Short code words, read back from a word of the bits that are ahead.

ghost use Rattle.std.specs.Prelude.{◌≡◌, ◌+◌, ◌-◌, ◌*◌, ◌^◌, ◌<◌, ◌≤◌, Ok, IfSome, IfNone, Bool, List, ℕ};
ghost use Rattle.header_bits.specs.Windows.{IsAhead};
ghost use Rattle.sample_adaptive.specs.Words.{IsCode};
ghost use Rattle.sample_adaptive.specs.Reading.{word_at};

use crate::code_word::Code;
use crate::thresholds::ROW;
use header_bits::bit_reader::BitReader;

/// The greatest length of a short code word where k is small: four of them lie within the 57 bits that a reader sees at once.
const QUARTER: u32 = 14;

/// The greatest length of a short code word where k is large: three of them lie within the 57 bits.
const THIRD: u32 = 19;

/// The short code words of a code: those that are no escapes, and of which the 57 bits that a reader sees at once have four, or three
/// where k is so large that few words would be that short.
#[derive(Clone, Copy)]
pub(crate) struct ShortWords {
    pub code: Code,
    /// 2^k.
    pub power: u32,
    /// The number of bits after a word's zeros: the one and the low bits.
    pub after: u32,
    /// Where the thresholds of k begin in their table.
    pub row: usize,
    /// How many short words the bits that are seen at once have: four or three.
    pub together: usize,
    /// The greatest length of a short word.
    pub most: u32,
    /// The number of zeros below which a word is short, and a residual's: at most U_max, most - k and 2^(D - k).
    pub zeros: u32,
    pub ghost code_is: { IsCode code },
    pub ghost power_is: { power ≡ 2 ^ code.k },
    pub ghost after_is: { after ≡ code.k + 1 },
    pub ghost row_is: { row ≡ 520 * code.k },
    pub ghost within_limit: { zeros ≤ code.limit },
    pub ghost together_in: { (3 ≤ together) × (together ≤ 4) },
    pub ghost most_in: { most ≤ 19 },
    pub ghost ahead: { together * most ≤ 57 },
    pub ghost within_length: { zeros ≤ most - code.k },
    pub ghost within_bits: { zeros * 2 ^ code.k ≤ 2 ^ code.bits },
}

impl ShortWords {
    /// Returns the short code words of a code.
    #[inline(always)]
    pub(crate) fn of(code: Code) -> ShortWords
        requires { IsCode code }
        ensures { result.code ≡ code }
    {
        let most = if code.k < 7 { QUARTER } else { THIRD };
        let together = if code.k < 7 { 4 } else { 3 };
        let short = most.saturating_sub(code.k);
        let lawful = 1 << (code.bits - code.k);
        ShortWords {
            code,
            power: 1 << code.k,
            after: code.k + 1,
            row: ROW * code.k as usize,
            together,
            most,
            zeros: code.limit.min(short).min(lawful),
        }
    }

    /// Reads the residual whose code word comes next, if that is a short one.
    ///
    /// `bits` has the next bits at its front, as many as a short word may have, and after a word those that come next then.
    #[inline(always)]
    pub(crate) fn take(self, bits: &mut u64, reader: &mut BitReader) -> Option<u32>
        requires { IsAhead self.most reader.old.left bits.old }
        ensures reads { IfSome result (λ residual. (index : ℕ) → word_at reader.old.count index self.code reader.old.left ≡ Ok (residual, reader.new.left)) }
        ensures ahead { IfSome result (λ residual. (more : ℕ) → more + self.most ≤ 57 → IsAhead (more + self.most) reader.old.left bits.old → IsAhead more reader.new.left bits.new) }
        ensures count { reader.new.count ≡ reader.old.count }
        ensures below { IfSome result (λ residual. residual < 2 ^ 16) }
        ensures same { IfNone result (reader.new ≡ reader.old) }
    {
        let ahead = with_one_below(*bits);
        let zeros = ahead.leading_zeros();
        if zeros >= self.zeros {
            return None;
        }
        // The bits are turned until those after the word come first: then its low bits come last.
        let length = zeros + self.after;
        *bits = ahead.rotate_left(length);
        let low = *bits & u64::from(self.power - 1);
        reader.skip(u64::from(length));
        Some(zeros * self.power + low as u32)
    }
}

/// Reads the residual whose code word comes next, if that has at most `most` bits and isn't an escape.
///
/// `bits` has the next bits at its front, `most` or more, and after a word those that come next then. `power` is 2^k.
/// With at most D + 2 bits no such word is of a number above 2^D - 1.
#[inline(always)]
pub(crate) fn take_short_word(
    code: Code,
    power: u32,
    most: u32,
    bits: &mut u64,
    reader: &mut BitReader,
) -> Option<u32>
    requires code { IsCode code }
    requires power { power ≡ 2 ^ code.k }
    requires few { most ≤ 57 }
    requires most { most ≤ code.bits + 2 }
    requires k { code.k + 2 ≤ code.bits }
    requires ahead { IsAhead most reader.old.left bits.old }
    ensures reads { IfSome result (λ residual. (index : ℕ) → word_at reader.old.count index code reader.old.left ≡ Ok (residual, reader.new.left)) }
    ensures ahead { IfSome result (λ residual. (more : ℕ) → more + most ≤ 57 → IsAhead (more + most) reader.old.left bits.old → IsAhead more reader.new.left bits.new) }
    ensures below { IfSome result (λ residual. residual < 2 ^ code.bits) }
    ensures count { reader.new.count ≡ reader.old.count }
    ensures same { IfNone result (reader.new ≡ reader.old) }
{
    let ahead = with_one_below(*bits);
    let zeros = ahead.leading_zeros();
    let length = zeros + 1 + code.k;
    if length > most {
        return None;
    }
    if zeros >= code.limit {
        return None;
    }
    *bits = ahead.rotate_left(length);
    let low = *bits & u64::from(power - 1);
    reader.skip(u64::from(length));
    Some(zeros * power + low as u32)
}

/// Returns a word of the bits that are ahead with a one below them, so that it has a highest one whatever they are.
#[inline(always)]
pub(crate) fn with_one_below(word: u64) -> u64
    ensures some { 1 ≤ result }
    ensures ahead { (left : List Bool) (most : ℕ) → most ≤ 63 → IsAhead most left word → IsAhead most left result }
{
    word | 1
}
