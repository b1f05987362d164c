//! Eight code words of a column, read back at once: their code parameters are known before they are read.

ghost use Rattle.std.specs.Prelude.{◌≡◌, ◌+◌, ◌-◌, ◌*◌, ◌%◌, ◌^◌, ◌<◌, ◌≤◌, ℕ, length, take, slice_index_or, IsTrue, IfSome};
ghost use Rattle.header_bits.specs.Bits.{Unread};
ghost use Rattle.lanes.specs.Lanes.{number};
ghost use Rattle.sample_adaptive.specs.BandStates.{AreBandStates, state_of, statistics_of};
ghost use Rattle.sample_adaptive.specs.Statistics.{next_statistics};
ghost use Rattle.sample_adaptive.specs.Taken.{CoderState, HasSettings, Reaches};
ghost use Rattle.sample_adaptive.specs.WordParts.{InSteps, IsWordNext, spelt_by, zeros_of};

use crate::band_states::BandStates;
use crate::code_settings::CodeSettings;
use crate::column_lanes::{parameters, summed};
use crate::word_parts::{WordParts, take_apart};
use header_bits::bit_reader::BitReader;
use lanes::eight;
use std::simd::prelude::*;

/// Reads residuals `i` to `i + 7` of a column, none of which is the first of its band, if the bands from `z + i` on have this counter and no word is
/// an escape or so long that four of a load (three where D is above 12) aren't seen whole. Returns 8, and updates the bands' statistics; or
/// returns 0, and changes nothing.
///
/// The code parameters of all eight are known beforehand, in lanes, and so are their sums afterwards; only the words go one by one.
#[inline(always)]
pub(crate) fn take_eight(
    settings: CodeSettings,
    counter: u32,
    z: usize,
    bands: &mut BandStates,
    reader: &mut BitReader,
    i: usize,
    residuals: &mut [u16],
) -> usize
    requires counter { (1 ≤ counter) × (counter < 2 ^ 9) }
    requires state { AreBandStates settings bands.old }
    requires within { i + 8 ≤ length residuals.old }
    requires inside { z + length residuals.old ≤ length bands.old }
    requires long { length residuals.old ≤ 2 ^ 16 }
    ensures taken { (v : CoderState) (t index : ℕ) (first : Unread) → 0 < t → HasSettings v settings.bits settings.limit settings.rescaling.size
        → Reaches (λ i. z + i) (λ i. t) 0 index i v (record v { bands = statistics_of bands.old }) first reader.old residuals.old
        → Reaches (λ i. z + i) (λ i. t) 0 index (i + result) v (record v { bands = statistics_of bands.new }) first reader.new residuals.new }
    ensures few { result ≤ 8 }
    ensures state { AreBandStates settings bands.new }
    ensures count { reader.new.count ≡ reader.old.count }
    ensures long { length residuals.new ≡ length residuals.old }
    ensures bands { length bands.new ≡ length bands.old }
{
    // Only the proof needs this: the bands can be counted.
    let _count = bands.len();
    let mut ahead = reader.fork();
    let Some(read) = read_bands(settings, counter, bands, z + i, &mut ahead) else {
        return 0;
    };
    bands.store(z + i, read.counter, &read.accumulators);
    put_numbers(residuals, i, &read.numbers);
    *reader = ahead;
    8
}

/// Puts eight numbers into a list, from index `i` on.
#[inline(always)]
fn put_numbers(residuals: &mut [u16], i: usize, numbers: &[u16; 8])
    requires { i + 8 ≤ length residuals.old }
    ensures before { take i residuals.new ≡ take i residuals.old }
    ensures numbers { (j : ℕ) → j < 8 → slice_index_or residuals.new (i + j) 0 ≡ number numbers.now j }
    ensures long { length residuals.new ≡ length residuals.old }
{
    for j in 0..8usize {
        residuals[i + j] = numbers[j];
    }
}

/// The next residuals of eight bands, and the bands' statistics after them.
#[derive(Clone, Copy)]
struct ReadBands {
    numbers: [u16; 8],
    counter: u32,
    accumulators: [u32; 8],
}

/// Reads the next residuals of eight bands, from band `at` on, if the bands have this counter and the words can be read at once.
#[inline(always)]
fn read_bands(
    settings: CodeSettings,
    counter: u32,
    bands: &BandStates,
    at: usize,
    reader: &mut BitReader,
) -> Option<ReadBands>
    requires counter { (1 ≤ counter) × (counter < 2 ^ 9) }
    requires state { AreBandStates settings bands.now }
    requires bands { at + 8 ≤ length bands.now }
    ensures words { IfSome result (λ read. InSteps (IsWordNext settings bands.now at read.numbers) 8 reader.old.left reader.new.left) }
    ensures statistics { IfSome result (λ read. (j : ℕ) → j < 8 → record { counter = read.counter; accumulator = number read.accumulators j }
        ≡ next_statistics settings.rescaling.size (state_of bands.now (at + j)).statistics (number read.numbers j)) }
    ensures count { reader.new.count ≡ reader.old.count }
{
    let before = bands.gathered(at);
    if !eight::are_all(u32x8::from_array(before.counters), counter) {
        return None;
    }
    let accumulators = u32x8::from_array(before.accumulators);
    let k = parameters(settings.bits, counter, accumulators);
    let mut parts = WordParts {
        places: [0; 8],
        endings: [0; 8],
    };
    let ends = eight::sum(k, u32x8::splat(64)).to_array();
    if !take_apart(settings.bits, &ends, &mut parts, reader) {
        return None;
    }
    let numbers = residuals_of(settings, k, parts)?;
    let halving = u32::from(counter == settings.rescaling.greatest);
    let after = summed(accumulators, u16x8::from_array(numbers), halving).to_array();
    Some(ReadBands {
        numbers,
        counter: (counter + 1) >> halving,
        accumulators: after,
    })
}

/// Returns the residuals of eight words, if the words are lawful.
#[inline(always)]
fn residuals_of(settings: CodeSettings, k: u32x8, parts: WordParts) -> Option<[u16; 8]>
    requires parameters { (j : ℕ) → j < 8 → number k j + 2 ≤ settings.bits }
    ensures lawful { IfSome result (λ numbers. (j : ℕ) → j < 8 → (zeros_of parts j < settings.limit)
        × (spelt_by (number k j) (zeros_of parts j) (number parts.endings j) < 2 ^ settings.bits)) }
    ensures numbers { IfSome result (λ numbers. (j : ℕ) → j < 8 → number numbers j ≡ spelt_by (number k j) (zeros_of parts j) (number parts.endings j)) }
{
    let powers = eight::powers(k);
    let places = eight::capped(u16x8::from_array(parts.places), 63);
    let zeros = eight::less(63, eight::long(places));
    let low = rests(u32x8::from_array(parts.endings), powers);
    let numbers = eight::sum(product(zeros, powers), low);
    if !are_lawful(settings, places, numbers) {
        return None;
    }
    Some(eight::short(numbers).to_array())
}

/// Returns whether each word begins with fewer zeros than an escape, and its residual has at most D bits.
#[inline(always)]
fn are_lawful(settings: CodeSettings, places: u16x8, numbers: u32x8) -> bool
    requires { (j : ℕ) → j < 8 → number places j ≤ 63 }
    ensures plain { IsTrue result → (j : ℕ) → j < 8 → 63 - number places j < settings.limit }
    ensures few { IsTrue result → (j : ℕ) → j < 8 → number numbers j < 2 ^ settings.bits }
{
    if !eight::are_all(eight::shifted(numbers, settings.bits), 0) {
        return false;
    }
    let escape = 63 - settings.limit;
    eight::are_within(u16x8::splat((escape + 1) as u16), places)
}

/// Returns the product of each two lanes, exact wherever it fits in 32 bits.
#[inline(always)]
fn product(a: u32x8, b: u32x8) -> u32x8
    ensures { (k : ℕ) → k < 8 → number a k * number b k < 2 ^ 32 → number result k ≡ number a k * number b k }
{
    a * b
}

/// Returns what each number leaves over when it is divided by a power of two.
#[inline(always)]
fn rests(a: u32x8, powers: u32x8) -> u32x8
    ensures { (k n : ℕ) → k < 8 → number powers k ≡ 2 ^ n → number result k ≡ number a k % 2 ^ n }
{
    a & (powers - u32x8::splat(1))
}
