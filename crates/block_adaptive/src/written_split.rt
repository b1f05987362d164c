//! The bits of a block under split-sample, of eight values at a time.

ghost use Rattle.std.specs.Prelude.{◌≡◌, ◌+◌, ◌/◌, ◌%◌, ◌^◌, ◌<◌, ◌≤◌, ℕ, IsTrue, length};
ghost use Rattle.header_bits.specs.Bits.{fundamental};
ghost use Rattle.lanes.specs.Lanes.{number};
ghost use Rattle.word_lanes.specs.EightWords.{AreShort, word_text};
ghost use Rattle.block_adaptive.specs.Options.{quotient_codes, low_groups};
ghost use Rattle.block_adaptive.specs.Taken.{Writes};

use crate::choice::quotients_cost;
use crate::gathering::{append_fundamental, quotient_word};
use header_bits::bit_writer::BitWriter;
use lanes::{eight, lines, masks};
use std::simd::prelude::*;
use word_lanes::eight_words::{EightWords, push_eight, push_equal_eight};

/// Appends the fundamental sequences of a block's values without their k lowest bits.
///
/// Mostly each has at most 14 bits, and then eight are made in lanes.
#[inline(always)]
pub(crate) fn append_quotients(writer: BitWriter, k: u32, block: &[u16]) -> BitWriter
    requires k { k ≤ 15 }
    requires eights { length block.now % 8 ≡ 0 }
    requires room { length (quotient_codes k block.now) ≤ writer.room }
    ensures { Writes writer result (quotient_codes k block.now) }
{
    let mut writer = writer;
    let mut first = 0;
    while first < block.len() {
        let quotients = masks::shifted(lines::numbers_at(block, first), k);
        if are_short(quotients) {
            writer = push_eight(writer, sequences_of(quotients));
        } else {
            writer = append_long_codes(writer, k, &block[first..first + 8]);
        }
        first += 8;
    }
    writer
}

/// Appends the k lowest bits of each value of a block, of eight values at a time.
#[inline(always)]
pub(crate) fn append_low_eights(writer: BitWriter, k: u32, block: &[u16]) -> BitWriter
    requires k { k ≤ 14 }
    requires eights { length block.now % 8 ≡ 0 }
    requires room { length (low_groups k block.now) ≤ writer.room }
    ensures { Writes writer result (low_groups k block.now) }
{
    let mut writer = writer;
    let mut first = 0;
    while first < block.len() {
        let lows = lows_of(k, lines::numbers_at(block, first));
        writer = push_equal_eight(writer, lows, k);
        first += 8;
    }
    writer
}

/// Returns whether fundamental sequences of so many zeros have at most 14 bits each.
#[inline(always)]
fn are_short(zeros: u16x8) -> bool
    ensures { IsTrue result → (j : ℕ) → j < 8 → number zeros j ≤ 13 }
{
    eight::are_within(zeros, u16x8::splat(13))
}

/// Returns the fundamental sequences of so many zeros, at most 13 each.
#[inline(always)]
fn sequences_of(zeros: u16x8) -> EightWords
    requires { (j : ℕ) → j < 8 → number zeros j ≤ 13 }
    ensures short { AreShort result }
    ensures text { (j : ℕ) → j < 8 → word_text result j ≡ fundamental (number zeros j) }
{
    let lengths = eight::short_sum(zeros, u16x8::splat(1));
    EightWords {
        bits: [1; 8],
        lengths: lengths.to_array(),
    }
}

/// Returns the k lowest bits of each of eight values.
#[inline(always)]
fn lows_of(k: u32, values: u16x8) -> u16x8
    requires k { k ≤ 14 }
    ensures { (j : ℕ) → j < 8 → number result j ≡ number values j % 2 ^ k }
{
    eight::rests(values, u16x8::splat(1 << k))
}

/// Appends the fundamental sequences of eight values without their k lowest bits, some of which have more than 14 bits.
///
/// Apart from the loop over eights, which is shorter so.
#[inline(never)]
fn append_long_codes(writer: BitWriter, k: u32, values: &[u16]) -> BitWriter
    requires k { k ≤ 15 }
    requires few { length values.now ≤ 64 }
    requires room { length (quotient_codes k values.now) ≤ writer.room }
    ensures { Writes writer result (quotient_codes k values.now) }
{
    let mut writer = writer;
    let cost = quotients_cost(k, values);
    if cost < 64 {
        writer.push_reserved(quotient_word(k, values), cost as u32);
        writer
    } else {
        append_codes(writer, k, values)
    }
}

/// Appends the fundamental sequences of values without their k lowest bits, one at a time.
fn append_codes(writer: BitWriter, k: u32, values: &[u16]) -> BitWriter
    requires k { k ≤ 15 }
    requires room { length (quotient_codes k values.now) ≤ writer.room }
    ensures { Writes writer result (quotient_codes k values.now) }
{
    let mut writer = writer;
    for value in values {
        append_fundamental(&mut writer, u64::from(*value >> k));
    }
    writer
}
