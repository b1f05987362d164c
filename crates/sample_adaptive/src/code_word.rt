//! Code words: how a residual is written, and how it is read back.

ghost use Rattle.std.specs.Prelude.{◌≡◌, ◌+◌, ◌*◌, ◌/◌, ◌^◌, ◌<◌, ◌≤◌, ◌↔◌, ◌++◌, IsOk, IfOk, IfErr, OnErr};
ghost use Rattle.cube_core.specs.declared.fault.Fault.TheVariants.{BadCode};
ghost use Rattle.header_bits.specs.Bits.{bits_of};
ghost use Rattle.header_bits.specs.Reading.{Reads};
ghost use Rattle.header_bits.specs.Windows.{IsAhead};
ghost use Rattle.sample_adaptive.specs.Words.{IsCode, code_word};
ghost use Rattle.sample_adaptive.specs.Reading.{fault_at, word_at};

use cube_core::fault::Fault;
use header_bits::bit_reader::{BitReader, bits_after};
use header_bits::bit_writer::BitWriter;

/// How the next residual is written (CCSDS 123.0-B-1, "Sample-adaptive entropy coder").
#[derive(Clone, Copy, Debug, PartialEq, Eq)]
pub struct Code {
    /// The number of zeros with which an escape begins: the unary length limit, or 0 for the first residual of a band. A word
    /// that is no escape begins with fewer.
    pub limit: u32,
    /// k, the number of low bits after the one.
    pub k: u32,
    /// D, the number of bits of a residual that is written whole.
    pub bits: u32,
}

/// Bits, as the `length` lowest ones of a number.
#[derive(Clone, Copy, Debug, PartialEq, Eq)]
pub(crate) struct Word {
    pub bits: u64,
    pub length: u32,
}

/// Returns the code word of a residual.
///
/// It has at most 48 bits and is pushed at once: zeros, a one and the low bits make one number, and so do zeros and a
/// residual in D bits.
#[tactic(auto, unfolding(crate::specs::Words::form_text, crate::specs::Words::form_of))]
pub(crate) fn word_of(code: Code, residual: u16) -> Word
    requires code { IsCode code }
    requires residual { residual < 2 ^ code.bits }
    ensures word { bits_of result.length result.bits ≡ code_word code residual }
    ensures below { result.bits < 2 ^ result.length }
    ensures few { result.length ≤ 48 }
{
    let quotient = u32::from(residual) >> code.k;
    if quotient < code.limit {
        let one = 1u64 << code.k;
        Word {
            bits: one + (u64::from(residual) & (one - 1)),
            length: quotient + 1 + code.k,
        }
    } else {
        Word {
            bits: u64::from(residual),
            length: code.limit + code.bits,
        }
    }
}

/// Reads the residual whose code word comes next, and returns it.
///
/// Returns `BadCode` with the index if the bits are of a code word's form but no residual's, and `Truncated` if they end
/// within one. Then the reader keeps its position.
#[inline(always)]
pub(crate) fn take_word(code: Code, index: u64, reader: &mut BitReader) -> Result<u16, Fault>
    requires { IsCode code }
    ensures reads { Reads (λ residual. residual) result reader.new.left (word_at reader.old.count index code reader.old.left) }
    ensures below { IfOk result (λ residual. residual < 2 ^ code.bits) }
    ensures count { reader.new.count ≡ reader.old.count }
    ensures same { OnErr result (reader.new ≡ reader.old) }
    ensures indexed { IfErr result (λ fault. fault_at index fault ≡ fault) }
{
    match reader.peek() {
        Some(word) => take_from(code, index, word, reader),
        None => {
            // Takes a copy of the reader and separate fields of the code, so that both stay in registers.
            let mut ahead = reader.fork();
            let residual = take_last(code.limit, code.k, code.bits, index, &mut ahead)?;
            *reader = ahead;
            Ok(residual)
        }
    }
}

/// Reads the residual whose code word the next 57 bits begin with. No code word is longer.
#[inline(always)]
pub(crate) fn take_from(
    code: Code,
    index: u64,
    word: u64,
    reader: &mut BitReader,
) -> Result<u16, Fault>
    requires code { IsCode code }
    requires ahead { IsAhead 57 reader.old.left word }
    ensures reads { Reads (λ residual. residual) result reader.new.left (word_at reader.old.count index code reader.old.left) }
    ensures below { IfOk result (λ residual. residual < 2 ^ code.bits) }
    ensures count { reader.new.count ≡ reader.old.count }
    ensures same { OnErr result (reader.new ≡ reader.old) }
    ensures indexed { IfErr result (λ fault. fault_at index fault ≡ fault) }
{
    let zeros = word.leading_zeros();
    if zeros < code.limit {
        let low = bits_after(word, zeros + 1, code.k);
        let residual = plain(code, index, u64::from(zeros), low)?;
        reader.skip(u64::from(zeros + 1 + code.k));
        Ok(residual)
    } else {
        let residual = escaped(code, index, bits_after(word, code.limit, code.bits))?;
        reader.skip(u64::from(code.limit + code.bits));
        Ok(residual)
    }
}

/// Reads the residual whose code word comes next, part by part, since fewer than 57 bits may be left.
///
/// After a refusal the reader's position is unspecified.
#[inline(never)]
#[tactic(auto, unfolding(crate::specs::Reading::word_at, crate::specs::Reading::plain_at, crate::specs::Reading::escape_at))]
fn take_last(
    limit: u32,
    k: u32,
    bits: u32,
    index: u64,
    reader: &mut BitReader,
) -> Result<u16, Fault>
    requires { IsCode (record { limit = limit; k = k; bits = bits }) }
    ensures reads { Reads (λ residual. residual) result reader.new.left (word_at reader.old.count index (record {
      limit = limit;
      k = k;
      bits = bits;
    }) reader.old.left) }
    ensures below { IfOk result (λ residual. residual < 2 ^ bits) }
    ensures count { reader.new.count ≡ reader.old.count }
    ensures indexed { IfErr result (λ fault. fault_at index fault ≡ fault) }
{
    let code = Code { limit, k, bits };
    let zeros = reader.count_zeros(u64::from(code.limit))?;
    if zeros < u64::from(code.limit) {
        let low = reader.take(code.k)?;
        plain(code, index, zeros, low)
    } else {
        let residual = reader.take(code.bits)?;
        escaped(code, index, residual)
    }
}

/// Returns the residual whose code word has this number of zeros, a one and these low bits.
#[inline(always)]
fn plain(code: Code, index: u64, zeros: u64, low: u64) -> Result<u16, Fault>
    requires code { IsCode code }
    requires zeros { zeros < code.limit }
    requires low { low < 2 ^ code.k }
    ensures value { IfOk result (λ residual. residual ≡ zeros * 2 ^ code.k + low) }
    ensures below { IsOk result ↔ (zeros * 2 ^ code.k + low < 2 ^ code.bits) }
    ensures refused { IfErr result (λ fault. fault ≡ BadCode index) }
{
    let residual = (zeros << code.k) + low;
    if residual < 1 << code.bits {
        Ok(residual as u16)
    } else {
        Err(Fault::BadCode { place: index })
    }
}

/// Returns the residual of an escape, or `BadCode` if its quotient is below the limit, so that it needs no escape.
#[inline(always)]
fn escaped(code: Code, index: u64, residual: u64) -> Result<u16, Fault>
    requires code { IsCode code }
    requires residual { residual < 2 ^ code.bits }
    ensures value { IfOk result (λ value. value ≡ residual) }
    ensures needed { IsOk result ↔ (code.limit ≤ residual / 2 ^ code.k) }
    ensures refused { IfErr result (λ fault. fault ≡ BadCode index) }
{
    if residual >> code.k < u64::from(code.limit) {
        Err(Fault::BadCode { place: index })
    } else {
        Ok(residual as u16)
    }
}
