//! Eight residuals of a run at a time, in lanes.

ghost use Rattle.std.specs.Prelude.{◌≡◌, ◌+◌, ◌*◌, ◌^◌, ◌<◌, ◌≤◌, ◌++◌, List, Bool, IsTrue, length, take, min, slice_index_or, ℕ};
ghost use Rattle.lanes.specs.Lanes.{number};
ghost use Rattle.word_lanes.specs.EightWords.{AreShort, word_text};
ghost use Rattle.sample_adaptive.specs.Runs.{AreLaneWords, AreNeighbours, IsKeptCodes, IsPiece, sum_after, text_within, words_from};
ghost use Rattle.sample_adaptive.specs.Thresholds.{threshold};

use crate::kept_code::KeptCode;
use crate::kept_codes::{KeptCodes, lower_parameter};
use crate::lane_words::{LaneWords, lane_words};
use crate::thresholds::ROW;
use crate::written_run::{LaterRun, PieceState, put_each};
use header_bits::bit_writer::BitWriter;
use lanes::{eight, lines, masks};
use std::simd::prelude::*;
use word_lanes::eight_words::{EightWords, push_eight, push_long_eight};

/// What changes from eight residuals of a piece to the next: two code parameters, and the sum so far.
#[derive(Clone, Copy)]
pub(crate) struct LaneState {
    pub codes: KeptCodes,
    pub accumulator: u32,
}

/// Appends the code words of residuals `i` to `i + 7` of a piece, and returns the state after them.
///
/// Mostly each has one of the two kept code parameters and a short word, and then all are made in lanes.
#[inline(always)]
pub(crate) fn put_eight(
    writer: BitWriter,
    run: LaterRun,
    state: LaneState,
    i: usize,
) -> (BitWriter, LaneState)
    requires piece { IsPiece run.settings run.state.statistics run.thresholds.now run.residuals.now }
    requires within { i + 8 ≤ length run.residuals.now }
    requires kept { IsKeptCodes run.settings.bits run.settings.limit state.codes }
    requires sum { state.accumulator ≡ sum_after run.state.statistics run.residuals.now i }
    requires room { 384 ≤ writer.room }
    ensures text { (old : List Bool) → writer.bits ≡ old ++ words_from run.entry.settings run.entry.state.statistics (take i run.entry.residuals.now)
        → result.0.bits ≡ old ++ words_from run.entry.settings run.entry.state.statistics (take (i + 8) run.entry.residuals.now) }
    ensures kept { IsKeptCodes run.entry.settings.bits run.entry.settings.limit result.1.codes }
    ensures sum { result.1.accumulator ≡ sum_after run.entry.state.statistics run.entry.residuals.now (i + 8) }
    ensures room { writer.room ≤ result.0.room + 384 }
    ensures still { result.0.room ≤ writer.room }
{
    let codes = state.codes;
    let before = sums_of(run, state.accumulator, i);
    let last = lines::last(before);
    if are_neighbours(run, codes, state.accumulator, before, i) {
        let words = words_of(run, codes, before, i);
        let after = LaneState {
            codes,
            accumulator: last + u32::from(run.residuals[i + 7]),
        };
        if eight::are_within(words.lengths, codes.longest) {
            return (push_eight(writer, eight_of(words)), after);
        }
        if are_plain(run, codes, words, i) {
            return (push_long_eight(writer, eight_of(words)), after);
        }
    }
    put_rarely(writer, run, state, i)
}

/// Returns the sums before residuals `i` to `i + 7` of a piece, of which `accumulator` is that before the first.
#[inline(always)]
fn sums_of(run: LaterRun, accumulator: u32, i: usize) -> u32x8
    requires piece { IsPiece run.settings run.state.statistics run.thresholds.now run.residuals.now }
    requires within { i + 8 ≤ length run.residuals.now }
    requires sum { accumulator ≡ sum_after run.state.statistics run.residuals.now i }
    ensures { (j : ℕ) → j < 8 → number result j ≡ sum_after run.entry.state.statistics run.entry.residuals.now (i + j) }
{
    let residuals = lines::numbers_at(run.residuals, i);
    lines::sums_before(accumulator, residuals)
}

/// Returns whether residuals `i` to `i + 7` of a piece have the kept code parameters. `before` are the sums before them, of which
/// `first` is the first.
#[inline(always)]
fn are_neighbours(run: LaterRun, codes: KeptCodes, first: u32, before: u32x8, i: usize) -> bool
    requires piece { IsPiece run.settings run.state.statistics run.thresholds.now run.residuals.now }
    requires within { i + 8 ≤ length run.residuals.now }
    requires kept { IsKeptCodes run.settings.bits run.settings.limit codes }
    requires first { first ≡ sum_after run.state.statistics run.residuals.now i }
    requires before { (j : ℕ) → j < 8 → number before j ≡ sum_after run.state.statistics run.residuals.now (i + j) }
    ensures { IsTrue result → AreNeighbours run.entry.settings run.entry.state.statistics run.entry.residuals.now codes.k i }
{
    are_surely(run, codes, first, lines::last(before), i) || are_each(run, codes, before, i)
}

/// `are_neighbours`, by the sums before the first and the last residual alone: it is false for some eights for which `are_each` is true.
///
/// Thresholds grow with the counter, and sums too, so two comparisons show it of all eight.
#[inline(always)]
fn are_surely(run: LaterRun, codes: KeptCodes, first: u32, last: u32, i: usize) -> bool
    requires piece { IsPiece run.settings run.state.statistics run.thresholds.now run.residuals.now }
    requires within { i + 8 ≤ length run.residuals.now }
    requires kept { IsKeptCodes run.settings.bits run.settings.limit codes }
    requires first { first ≡ sum_after run.state.statistics run.residuals.now i }
    requires last { last ≡ sum_after run.state.statistics run.residuals.now (i + 7) }
    ensures { IsTrue result → AreNeighbours run.entry.settings run.entry.state.statistics run.entry.residuals.now codes.k i }
{
    let at = codes.row + run.state.statistics.counter as usize + i;
    run.thresholds[at + 7] <= first && last < run.thresholds[at + 2 * ROW]
}

/// `are_neighbours`, by comparing each sum with its thresholds.
#[inline(always)]
fn are_each(run: LaterRun, codes: KeptCodes, before: u32x8, i: usize) -> bool
    requires piece { IsPiece run.settings run.state.statistics run.thresholds.now run.residuals.now }
    requires within { i + 8 ≤ length run.residuals.now }
    requires kept { IsKeptCodes run.settings.bits run.settings.limit codes }
    requires before { (j : ℕ) → j < 8 → number before j ≡ sum_after run.state.statistics run.residuals.now (i + j) }
    ensures { IsTrue result → AreNeighbours run.entry.settings run.entry.state.statistics run.entry.residuals.now codes.k i }
{
    let under = masks::where_less(before, thresholds_of(run, codes, 0, i));
    let within = masks::where_less(before, thresholds_of(run, codes, 2, i));
    eight::are_within(under, u16x8::splat(0)) && eight::are_within(u16x8::splat(65535), within)
}

/// Returns the least sums with which residuals `i` to `i + 7` of a piece have at least the lower kept code parameter, or one that is `above`
/// it.
#[inline(always)]
fn thresholds_of(run: LaterRun, codes: KeptCodes, above: usize, i: usize) -> u32x8
    requires piece { IsPiece run.settings run.state.statistics run.thresholds.now run.residuals.now }
    requires within { i + 8 ≤ length run.residuals.now }
    requires kept { IsKeptCodes run.settings.bits run.settings.limit codes }
    requires above { above ≤ 2 }
    ensures lanes { (j : ℕ) → j < 8 → number result j ≡ threshold run.entry.settings.bits (codes.k + above) (run.entry.state.statistics.counter + (i + j)) }
    ensures small { (j : ℕ) → j < 8 → number result j ≤ 2 ^ 30 }
{
    let at = codes.row + run.state.statistics.counter as usize + i;
    lines::long_numbers_at(run.thresholds, at + ROW * above)
}

/// Returns the code words of residuals `i` to `i + 7` of a piece as if none was an escape. `before` are the sums before them.
#[inline(always)]
fn words_of(run: LaterRun, codes: KeptCodes, before: u32x8, i: usize) -> LaneWords
    requires piece { IsPiece run.settings run.state.statistics run.thresholds.now run.residuals.now }
    requires within { i + 8 ≤ length run.residuals.now }
    requires kept { IsKeptCodes run.settings.bits run.settings.limit codes }
    requires before { (j : ℕ) → j < 8 → number before j ≡ sum_after run.state.statistics run.residuals.now (i + j) }
    requires neighbours { AreNeighbours run.settings run.state.statistics run.residuals.now codes.k i }
    ensures { AreLaneWords run.entry.settings run.entry.state.statistics run.entry.residuals.now codes.k i result }
{
    let residuals = lines::numbers_at(run.residuals, i);
    let lower = masks::where_less(before, thresholds_of(run, codes, 1, i));
    lane_words(codes, residuals, lower)
}

/// Returns whether the words of residuals `i` to `i + 7` of a piece are their code words: no residual is above 32,767, and none needs an escape.
#[inline(always)]
fn are_plain(run: LaterRun, codes: KeptCodes, words: LaneWords, i: usize) -> bool
    requires within { i + 8 ≤ length run.residuals.now }
    requires kept { IsKeptCodes run.settings.bits run.settings.limit codes }
    ensures small { IsTrue result → (j : ℕ) → j < 8 → slice_index_or run.entry.residuals.now (i + j) 0 ≤ 32767 }
    ensures plain { IsTrue result → (j : ℕ) → j < 8 → number words.lengths j ≤ run.entry.settings.limit + codes.k }
{
    let residuals = lines::numbers_at(run.residuals, i);
    let longest = (run.settings.limit + codes.k) as u16;
    eight::are_within(words.lengths, u16x8::splat(longest))
        && eight::are_within(residuals, u16x8::splat(32767))
}

/// Returns eight words as arrays.
#[inline(always)]
fn eight_of(words: LaneWords) -> EightWords
    ensures bits { result.bits ≡ words.bits }
    ensures lengths { result.lengths ≡ words.lengths }
{
    EightWords {
        bits: words.bits.to_array(),
        lengths: words.lengths.to_array(),
    }
}

/// `put_apart`. Its result is taken apart here, so that what is in registers before and after the call isn't kept in memory elsewhere.
#[inline(always)]
fn put_rarely(
    writer: BitWriter,
    run: LaterRun,
    state: LaneState,
    i: usize,
) -> (BitWriter, LaneState)
    requires piece { IsPiece run.settings run.state.statistics run.thresholds.now run.residuals.now }
    requires within { i + 8 ≤ length run.residuals.now }
    requires kept { IsKeptCodes run.settings.bits run.settings.limit state.codes }
    requires sum { state.accumulator ≡ sum_after run.state.statistics run.residuals.now i }
    requires room { 384 ≤ writer.room }
    ensures text { (old : List Bool) → writer.bits ≡ old ++ words_from run.entry.settings run.entry.state.statistics (take i run.entry.residuals.now)
        → result.0.bits ≡ old ++ words_from run.entry.settings run.entry.state.statistics (take (i + 8) run.entry.residuals.now) }
    ensures kept { IsKeptCodes run.entry.settings.bits run.entry.settings.limit result.1.codes }
    ensures sum { result.1.accumulator ≡ sum_after run.entry.state.statistics run.entry.residuals.now (i + 8) }
    ensures room { writer.room ≤ result.0.room + 384 }
    ensures still { result.0.room ≤ writer.room }
{
    let counter = run.state.statistics.counter as usize + i;
    let k = state.codes.nearer(
        run.settings.bits,
        run.thresholds,
        counter,
        state.accumulator,
    );
    let (writer, state) = put_apart(writer, run, k, state.accumulator, i);
    (writer, state)
}

/// Appends the code words of residuals `i` to `i + 7` of a piece, one after another, and returns the state after them.
///
/// Apart from the loop over eights, which is shorter so.
#[cold]
#[inline(never)]
fn put_apart(
    writer: BitWriter,
    run: LaterRun,
    k: u32,
    accumulator: u32,
    i: usize,
) -> (BitWriter, LaneState)
    requires piece { IsPiece run.settings run.state.statistics run.thresholds.now run.residuals.now }
    requires within { i + 8 ≤ length run.residuals.now }
    requires k { k + 2 ≤ run.settings.bits }
    requires sum { accumulator ≡ sum_after run.state.statistics run.residuals.now i }
    requires room { 384 ≤ writer.room }
    ensures text { (old : List Bool) → writer.bits ≡ old ++ words_from run.entry.settings run.entry.state.statistics (take i run.entry.residuals.now)
        → result.0.bits ≡ old ++ words_from run.entry.settings run.entry.state.statistics (take (i + 8) run.entry.residuals.now) }
    ensures kept { IsKeptCodes run.entry.settings.bits run.entry.settings.limit result.1.codes }
    ensures sum { result.1.accumulator ≡ sum_after run.entry.state.statistics run.entry.residuals.now (i + 8) }
    ensures room { writer.room ≤ result.0.room + 384 }
    ensures still { result.0.room ≤ writer.room }
{
    let settings = run.settings;
    let counter = run.state.statistics.counter;
    let state = PieceState {
        kept: KeptCode::of(settings.bits, counter, k),
        accumulator,
    };
    let after = put_each(writer, run, state, i, i + 8);
    let last = after.1;
    let at = last.kept.first + i + 8;
    let k = lower_parameter(run.thresholds, at, last.kept.k, last.accumulator);
    let state = LaneState {
        codes: KeptCodes::of(settings.bits, settings.limit, k),
        accumulator: last.accumulator,
    };
    (after.0, state)
}
