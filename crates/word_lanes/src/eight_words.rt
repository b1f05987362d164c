//! Eight words side by side in lanes, merged and appended.

ghost use Rattle.std.specs.Prelude.{◌≡◌, ◌+◌, ◌*◌, ◌^◌, ◌<◌, ◌≤◌, ◌++◌, ℕ, length};
ghost use Rattle.header_bits.specs.Bits.{bits_of};
ghost use Rattle.lanes.specs.Lanes.{number};
ghost use Rattle.word_lanes.specs.EightWords.{AreShort, AreWords, ArePairs, text_at, texts, word_text};

use header_bits::bit_writer::BitWriter;
use lanes::unsigned;
use std::simd::prelude::*;

/// Eight words: word i consists of the `lengths[i]` lowest bits of `bits[i]`, which has no others.
#[derive(Clone, Copy)]
pub struct EightWords {
    pub bits: [u16; 8],
    pub lengths: [u16; 8],
}

/// Appends eight words of at most 14 bits, the first one first, for which the writer has room.
#[inline(always)]
pub fn push_eight(writer: BitWriter, words: EightWords) -> BitWriter
    requires words { AreShort words }
    requires room { length (texts (word_text words) 0 8) ≤ writer.room }
    ensures text { result.bits ≡ writer.bits ++ texts (word_text words) 0 8 }
    ensures room { writer.room ≡ result.room + length (texts (word_text words) 0 8) }
    ensures most { length (texts (word_text words) 0 8) ≤ 112 }
{
    push_two(writer, quads_of(pairs_of(words)))
}

/// Appends eight words of the same length, at most 14 bits, the first one first, for which the writer has room.
#[inline(always)]
pub fn push_equal_eight(writer: BitWriter, bits: u16x8, length: u32) -> BitWriter
    requires few { length ≤ 14 }
    requires below { (j : ℕ) → j < 8 → number bits j < 2 ^ length }
    requires room { 8 * length ≤ writer.room }
    ensures text { result.bits ≡ writer.bits ++ texts (λ j. bits_of length (number bits j)) 0 8 }
    ensures room { writer.room ≡ result.room + 8 * length }
{
    let pairs = unsigned::sum(raised(unsigned::evens(bits), length), unsigned::odds(bits));
    let quads = unsigned::long_sum(
        long_raised(unsigned::long_evens(pairs), length + length),
        unsigned::long_odds(pairs),
    );
    let words = Quads {
        bits: quads.to_array(),
        lengths: [u64::from(4 * length); 2],
    };
    push_two(writer, words)
}

/// Appends eight words of at most 48 bits, one after another, for which the writer has room.
#[inline(always)]
pub fn push_long_eight(writer: BitWriter, words: EightWords) -> BitWriter
    requires words { AreWords 48 8 words.bits words.lengths }
    requires room { 384 ≤ writer.room }
    ensures text { result.bits ≡ writer.bits ++ texts (word_text words) 0 8 }
    ensures room { writer.room ≤ result.room + 384 }
    ensures still { result.room ≤ writer.room }
{
    let mut writer = writer;
    for i in 0..8usize {
        writer.push_reserved(u64::from(words.bits[i]), u32::from(words.lengths[i]));
    }
    writer
}

/// Four words, each of two neighbours: at most 28 bits.
#[derive(Clone, Copy)]
struct Pairs {
    bits: u32x4,
    lengths: u32x4,
}

/// Two words, each of four neighbours: at most 56 bits.
#[derive(Clone, Copy)]
struct Quads {
    bits: [u64; 2],
    lengths: [u64; 2],
}

/// Merges each two neighbours of eight words.
#[inline(always)]
fn pairs_of(words: EightWords) -> Pairs
    requires words { AreShort words }
    ensures words { AreWords 28 4 result.bits result.lengths }
    ensures pairs { ArePairs 4 result.bits result.lengths words.bits words.lengths }
{
    let bits = u16x8::from_array(words.bits);
    let lengths = u16x8::from_array(words.lengths);
    let behind = unsigned::odds(lengths);
    let raised = unsigned::product(unsigned::evens(bits), unsigned::powers(behind));
    Pairs {
        bits: unsigned::sum(raised, unsigned::odds(bits)),
        lengths: unsigned::sum(unsigned::evens(lengths), behind),
    }
}

/// Merges each two neighbours of four words.
///
/// The powers are those of all four lengths: clang makes them faster so than those of two alone.
#[inline(always)]
fn quads_of(words: Pairs) -> Quads
    requires words { AreWords 28 4 words.bits words.lengths }
    ensures words { AreWords 56 2 result.bits result.lengths }
    ensures pairs { ArePairs 2 result.bits result.lengths words.bits words.lengths }
{
    let powers = unsigned::long_odds(unsigned::powers(words.lengths));
    let raised = unsigned::long_product(unsigned::long_evens(words.bits), powers);
    let bits = unsigned::long_sum(raised, unsigned::long_odds(words.bits));
    let lengths = unsigned::long_sum(
        unsigned::long_evens(words.lengths),
        unsigned::long_odds(words.lengths),
    );
    Quads {
        bits: bits.to_array(),
        lengths: lengths.to_array(),
    }
}

/// Returns each number times two to `by`, exact wherever that fits in 32 bits.
#[inline(always)]
fn raised(a: u32x4, by: u32) -> u32x4
    requires { by < 32 }
    ensures { (k : ℕ) → k < 4 → number a k * 2 ^ by < 2 ^ 32 → number result k ≡ number a k * 2 ^ by }
{
    a << u32x4::splat(by)
}

/// Returns each number times two to `by`, exact wherever that fits in 64 bits.
#[inline(always)]
fn long_raised(a: u64x2, by: u32) -> u64x2
    requires { by < 64 }
    ensures { (k : ℕ) → k < 2 → number a k * 2 ^ by < 2 ^ 64 → number result k ≡ number a k * 2 ^ by }
{
    a << u64x2::splat(u64::from(by))
}

/// Appends two words, which mostly fit into one push.
#[inline(always)]
fn push_two(writer: BitWriter, words: Quads) -> BitWriter
    requires words { AreWords 56 2 words.bits words.lengths }
    requires room { number words.lengths 0 + number words.lengths 1 ≤ writer.room }
    ensures text { result.bits ≡ writer.bits ++ (text_at words.bits words.lengths 0 ++ text_at words.bits words.lengths 1) }
    ensures room { writer.room ≡ result.room + (number words.lengths 0 + number words.lengths 1) }
{
    let mut writer = writer;
    let [first, second] = words.bits;
    let [before, behind] = words.lengths;
    if before + behind <= 64 {
        writer.push_reserved((first << behind) + second, (before + behind) as u32);
    } else {
        writer.push_reserved(first, before as u32);
        writer.push_reserved(second, behind as u32);
    }
    writer
}
