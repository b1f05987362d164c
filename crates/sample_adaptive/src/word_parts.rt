//! Eight successive code words, taken apart before it is known whether they are lawful.

ghost use Rattle.std.specs.Prelude.{◌≡◌, ◌+◌, ◌-◌, ◌<◌, ◌≤◌, ℕ, List, Bool, drop, IsTrue};
ghost use Rattle.header_bits.specs.Windows.{IsAhead};
ghost use Rattle.lanes.specs.Lanes.{number};
ghost use Rattle.sample_adaptive.specs.WordParts.{InSteps, IsPartNext, IsPlainNext};

use crate::short_word::with_one_below;
use header_bits::bit_reader::BitReader;

/// How many bits a reader sees at once.
const SEEN: u32 = 57;

/// What eight words consist of, as if each was plain.
#[derive(Clone, Copy)]
pub(crate) struct WordParts {
    /// The place of the one after each word's zeros, in a word of 64 bits that begins with them: 63 if there is none.
    pub places: [u16; 8],
    /// Numbers that end with the low bits of each.
    pub endings: [u32; 8],
}

/// Takes apart the eight words that come next, by their code parameters, to each of which 64 is added. Returns whether each was seen whole;
/// else nothing else holds.
///
/// Four words are taken of one load, or three where D is above 12, since they are longer there.
#[inline(always)]
pub(crate) fn take_apart(
    bits: u32,
    ends: &[u32; 8],
    parts: &mut WordParts,
    reader: &mut BitReader,
) -> bool
    requires ends { (j : ℕ) → j < 8 → (64 ≤ number ends.now j) × (number ends.now j ≤ 78) }
    ensures words { IsTrue result → InSteps (IsPartNext ends.now parts.new) 8 reader.old.left reader.new.left }
    ensures count { reader.new.count ≡ reader.old.count }
{
    // Each number is known, so that the loops over the words are unrolled.
    if bits <= 12 {
        if !take_few_apart(ends, 0, 4, parts, reader) {
            return false;
        }
        return take_few_apart(ends, 4, 4, parts, reader);
    }
    if !take_few_apart(ends, 0, 3, parts, reader) {
        return false;
    }
    if !take_few_apart(ends, 3, 3, parts, reader) {
        return false;
    }
    take_few_apart(ends, 6, 2, parts, reader)
}

/// Takes apart a few words that come next, from lane `first` on, if they lie in the bits that are seen at once. Returns whether they do.
///
/// No word is tested alone: lengths only add up, and so their sum at the end shows that each word was seen whole.
#[inline(always)]
fn take_few_apart(
    ends: &[u32; 8],
    first: usize,
    few: usize,
    parts: &mut WordParts,
    reader: &mut BitReader,
) -> bool
    requires ends { (j : ℕ) → j < 8 → (64 ≤ number ends.now j) × (number ends.now j ≤ 78) }
    requires within { first + few ≤ 8 }
    ensures words { IsTrue result → (bits : List Bool) → InSteps (IsPartNext ends.now parts.old) first bits reader.old.left
        → InSteps (IsPartNext ends.now parts.new) (first + few) bits reader.new.left }
    ensures count { reader.new.count ≡ reader.old.count }
{
    let Some(word) = reader.peek() else {
        return false;
    };
    let mut bits = word;
    let mut length = 0;
    for j in first..first + few {
        let part = first_part(bits, ends[j]);
        parts.places[j] = part.place;
        parts.endings[j] = part.ending;
        bits = part.rest;
        length += part.length;
    }
    if length > SEEN {
        return false;
    }
    reader.skip(u64::from(length));
    true
}

/// What a word consists of, and the bits after it.
#[derive(Clone, Copy)]
struct Part {
    place: u16,
    ending: u32,
    length: u32,
    rest: u64,
}

/// Takes apart the word with which bits begin, by its code parameter, to which 64 is added.
///
/// The bits are turned until those after the word come first: then its low bits come last. Its length is told by the place of the one after its
/// zeros, which takes a step less than counting them.
#[inline(always)]
fn first_part(bits: u64, end: u32) -> Part
    requires { (64 ≤ end) × (end ≤ 78) }
    ensures word { (left : List Bool) (most : ℕ) → result.length ≤ most → most ≤ 57 → IsAhead most left bits
        → IsPlainNext (end - 64) (63 - result.place) result.ending left (drop result.length left) }
    ensures rest { (left : List Bool) (most : ℕ) → result.length ≤ most → most ≤ 57 → IsAhead most left bits → IsAhead (most - result.length) (drop result.length left) result.rest }
    ensures few { result.length ≤ 79 }
{
    let ahead = with_one_below(bits);
    let place = 63 - ahead.leading_zeros();
    let length = end - place;
    let rest = ahead.rotate_left(length);
    Part {
        place: place as u16,
        ending: (rest % (1 << 32)) as u32,
        length,
        rest,
    }
}
