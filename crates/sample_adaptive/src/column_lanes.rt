//! Eight bands of a column side by side in lanes: their statistics, code parameters and code words.

ghost use Rattle.std.specs.Prelude.{◌≡◌, ◌+◌, ◌-◌, ◌*◌, ◌/◌, ◌^◌, ◌<◌, ◌≤◌, ℕ, length, slice_index_or, IsTrue};
ghost use Rattle.std.specs.List.{AllByRecursion};
ghost use Rattle.lanes.specs.Lanes.{number};
ghost use Rattle.sample_adaptive.specs.BandStates.{AreBandStates, state_of};
ghost use Rattle.word_lanes.specs.EightWords.{AreShort, word_text};
ghost use Rattle.sample_adaptive.specs.Runs.{code_with};
ghost use Rattle.sample_adaptive.specs.Statistics.{next_statistics, code_parameter};
ghost use Rattle.sample_adaptive.specs.Words.{code_word};

use crate::band_states::BandStates;
use crate::code_settings::CodeSettings;
use lanes::eight;
use std::simd::prelude::*;
use word_lanes::eight_words::EightWords;

/// What the next residuals of eight bands are written as, and the bands' statistics after them.
#[derive(Clone, Copy)]
pub(crate) struct CodedBands {
    /// Whether the bands have the counter. Else nothing else holds.
    pub alike: bool,
    /// Whether the words are the code words: none is an escape, and none has more than 14 bits.
    pub short: bool,
    pub words: EightWords,
    /// The code parameters of the residuals.
    pub parameters: [u32; 8],
    pub counter: u32,
    pub accumulators: [u32; 8],
}

/// Codes residuals `i` to `i + 7` of a column in lanes, the first of them that of band `at`, if the bands have this counter.
#[inline(always)]
pub(crate) fn coded(
    settings: CodeSettings,
    counter: u32,
    bands: &BandStates,
    at: usize,
    residuals: &[u16],
    i: usize,
) -> CodedBands
    requires counter { (1 ≤ counter) × (counter < 2 ^ 9) }
    requires state { AreBandStates settings bands.now }
    requires bands { at + 8 ≤ length bands.now }
    requires inside { i + 8 ≤ length residuals.now }
    ensures short { IsTrue result.short → AreShort result.words }
    ensures text { IsTrue result.alike → IsTrue result.short → (j : ℕ) → j < 8
        → word_text result.words j ≡ code_word (code_with settings (state_of bands.now (at + j)).statistics) (slice_index_or residuals.now (i + j) 0) }
    ensures parameters { IsTrue result.alike → (j : ℕ) → j < 8 → number result.parameters j ≡ code_parameter settings.bits (state_of bands.now (at + j)).statistics }
    ensures few { (j : ℕ) → j < 8 → number result.parameters j + 2 ≤ settings.bits }
    ensures statistics { IsTrue result.alike → (j : ℕ) → j < 8 → record { counter = result.counter; accumulator = number result.accumulators j }
        ≡ next_statistics settings.rescaling.size (state_of bands.now (at + j)).statistics (slice_index_or residuals.now (i + j) 0) }
{
    let before = bands.gathered(at);
    let numbers = taken(residuals, i);
    let accumulators = u32x8::from_array(before.accumulators);
    let k = parameters(settings.bits, counter, accumulators);
    let words = short_words(settings.limit, k, numbers);
    let halving = u32::from(counter == settings.rescaling.greatest);
    let after = summed(accumulators, numbers, halving).to_array();
    let parameters = k.to_array();
    let alike = eight::are_all(u32x8::from_array(before.counters), counter);
    CodedBands {
        alike,
        short: words.fit,
        words: words.words,
        parameters,
        counter: (counter + 1) >> halving,
        accumulators: after,
    }
}

/// Returns residuals `i` to `i + 7`.
#[inline(always)]
fn taken(residuals: &[u16], i: usize) -> u16x8
    requires { i + 8 ≤ length residuals.now }
    ensures { (j : ℕ) → j < 8 → number result j ≡ slice_index_or residuals.now (i + j) 0 }
{
    u16x8::from_slice(&residuals[i..i + 8])
}

/// Returns the code parameters of bands with this counter.
///
/// What the counter's products with powers of two are compared with is held between the counter and the product for D - 1, where it gives the least or the greatest
/// code parameter: so each is the logarithm of its quotient by the counter.
#[inline(always)]
pub(crate) fn parameters(bits: u32, counter: u32, accumulators: u32x8) -> u32x8
    requires bits { (2 ≤ bits) × (bits ≤ 16) }
    requires counter { (1 ≤ counter) × (counter < 2 ^ 9) }
    requires accumulators { (j : ℕ) → j < 8 → number accumulators j < 2 ^ 25 }
    ensures value { (j : ℕ) → j < 8 → number result j ≡ code_parameter bits (record { counter = counter; accumulator = number accumulators j }) }
    ensures most { (j : ℕ) → j < 8 → number result j + 2 ≤ bits }
{
    let levels = eight::sum(accumulators, u32x8::splat(49 * counter / 128));
    let most = (counter << (bits - 1)) - 1;
    eight::logarithms(eight::within(levels, counter, most), counter)
}

/// Returns the accumulators with one more residual each, halved if `halving` is 1.
#[inline(always)]
pub(crate) fn summed(accumulators: u32x8, residuals: u16x8, halving: u32) -> u32x8
    requires accumulators { (j : ℕ) → j < 8 → number accumulators j < 2 ^ 25 }
    requires halving { halving ≤ 1 }
    ensures { (j : ℕ) → j < 8 → number result j ≡ (number accumulators j + number residuals j + halving) / 2 ^ halving }
{
    let sums = eight::sum(accumulators, eight::long(residuals));
    eight::shifted(eight::sum(sums, u32x8::splat(halving)), halving)
}

/// Eight words, and whether they are the code words of residuals.
#[derive(Clone, Copy)]
struct Fitting {
    fit: bool,
    words: EightWords,
}

/// Returns code words of residuals by their code parameters, if each has at most 14 bits and none is an escape.
///
/// A product with 2^(15 - k), of which the upper half counts, divides by 2^(k + 1). Doubled residuals above 16 bits are held: their words have more than 14 bits.
#[inline(always)]
fn short_words(limit: u32, k: u32x8, residuals: u16x8) -> Fitting
    requires limit { limit ≤ 32 }
    requires parameters { (j : ℕ) → j < 8 → number k j ≤ 14 }
    ensures short { IsTrue result.fit → AreShort result.words }
    ensures text { IsTrue result.fit → (j bits : ℕ) → j < 8 → word_text result.words j ≡ code_word (record { limit = limit; k = number k j; bits = bits }) (number residuals j) }
{
    let ones = eight::short(eight::powers(k));
    let inverses = eight::short(eight::powers(eight::less(15, k)));
    let k = eight::short(k);
    let held = eight::capped(residuals, 32767);
    let quotients = eight::high_products(eight::short_sum(held, held), inverses);
    let lengths = eight::short_sum(eight::short_sum(quotients, k), u16x8::splat(1));
    let most = eight::capped(eight::short_sum(k, u16x8::splat(limit as u16)), 14);
    let bits = eight::short_sum(eight::rests(residuals, ones), ones);
    let words = EightWords {
        bits: bits.to_array(),
        lengths: lengths.to_array(),
    };
    let fit = eight::are_within(lengths, most);
    Fitting { fit, words }
}
