//! Codes of any length, appended, and codes gathered in a word.

ghost use Rattle.std.specs.Prelude.{◌≡◌, ◌+◌, ◌-◌, ◌^◌, ◌<◌, ◌≤◌, ◌++◌, length};
ghost use Rattle.header_bits.specs.Bits.{bits_of, fundamental};
ghost use Rattle.block_adaptive.specs.Options.{quotient_codes, low_groups};
ghost use Rattle.block_adaptive.specs.Taken.{Writes};

use header_bits::bit_writer::BitWriter;

/// Appends a fundamental sequence, up to 64 zeros at a time.
#[inline(always)]
pub(crate) fn append_fundamental(writer: &mut BitWriter, zeros: u64)
    requires { zeros + 1 ≤ writer.old.room }
    ensures { Writes writer.old writer.new (fundamental zeros) }
{
    let mut left = zeros;
    while left >= 64 {
        writer.push_reserved(0, 64);
        left -= 64;
    }
    writer.push_reserved(1, left as u32 + 1);
}

/// Returns the `held` bits of a word followed by a number's `n` bits.
#[inline(always)]
#[tactic(auto, using(header_bits::proofs::Words::pushed_after, header_bits::proofs::Words::joined_is, header_bits::proofs::Words::joined_below))]
fn joined(word: u64, held: u32, bits: u64, n: u32) -> u64
    requires few { (n < 64) × (held + n ≤ 64) }
    requires word { word < 2 ^ held }
    requires below { bits < 2 ^ n }
    ensures bits { bits_of (held + n) result ≡ bits_of held word ++ bits_of n bits }
    ensures below { result < 2 ^ (held + n) }
{
    (word << n) | bits
}

/// Returns the `held` bits of a word followed by a fundamental sequence of `n` bits.
///
/// The zeros come first, so that a quotient is shifted by as it is.
#[inline(always)]
fn with_sequence(word: u64, held: u32, n: u32) -> u64
    requires some { 1 ≤ n }
    requires few { (n < 64) × (held + n ≤ 64) }
    requires word { word < 2 ^ held }
    ensures bits { bits_of (held + n) result ≡ bits_of held word ++ bits_of n 1 }
    ensures below { result < 2 ^ (held + n) }
{
    let zeros = joined(word, held, 0, n - 1);
    joined(zeros, held + (n - 1), 1, 1)
}

/// Returns the codes of a few values without their k lowest bits, together fewer than 64 bits, as one number.
#[inline(always)]
#[tactic(auto, using(crate::proofs::Emits::quotient_word_steps))]
pub(crate) fn quotient_word(k: u32, values: &[u16]) -> u64
    requires k { k ≤ 15 }
    requires few { length (quotient_codes k values.now) < 64 }
    ensures bits { bits_of (length (quotient_codes k values.now)) result ≡ quotient_codes k values.now }
    ensures below { result < 2 ^ length (quotient_codes k values.now) }
{
    let mut word = 0;
    let mut held = 0;
    for value in values {
        let n = u32::from(*value >> k) + 1;
        word = with_sequence(word, held, n);
        held += n;
    }
    word
}

/// Returns the k lowest bits of each of a few values, together at most 64 bits, as one number.
#[inline(always)]
#[tactic(auto, using(crate::proofs::Emits::low_word_steps))]
pub(crate) fn low_word(k: u32, values: &[u16]) -> u64
    requires k { k ≤ 16 }
    requires few { length (low_groups k values.now) ≤ 64 }
    ensures bits { bits_of (length (low_groups k values.now)) result ≡ low_groups k values.now }
    ensures below { result < 2 ^ length (low_groups k values.now) }
{
    let mask = (1u64 << k) - 1;
    let mut word = 0;
    let mut held = 0;
    for value in values {
        word = joined(word, held, u64::from(*value) & mask, k);
        held += k;
    }
    word
}
