//! Code words of a column, written one by one.

ghost use Rattle.std.specs.Prelude.{◌≡◌, ◌+◌, ◌*◌, ◌^◌, ◌<◌, ◌≤◌, ◌++◌, length, slice_index_or, ℕ};
ghost use Rattle.std.specs.List.{AllByRecursion};
ghost use Rattle.lanes.specs.Lanes.{number};
ghost use Rattle.word_lanes.specs.EightWords.{texts};
ghost use Rattle.sample_adaptive.specs.Words.{code_word};
ghost use Rattle.sample_adaptive.specs.Taken.{CoderState, HasSettings, WritesColumn, code_by, counted, of_band, with_band};
ghost use Rattle.sample_adaptive.specs.BandStates.{IsBandState, AreBandStates, statistics_of};
ghost use Rattle.sample_adaptive.specs.Thresholds.{AreThresholds};

use crate::band_state::BandState;
use crate::band_states::BandStates;
use crate::code_settings::CodeSettings;
use crate::code_word::{Code, word_of};
use header_bits::bit_writer::BitWriter;

/// Appends the code words of residuals one by one, from band `at` on.
#[cold]
#[inline(never)]
pub(crate) fn put_each(
    writer: BitWriter,
    settings: CodeSettings,
    thresholds: &[u32],
    at: usize,
    bands: &mut BandStates,
    residuals: &[u16],
) -> BitWriter
    requires table { AreThresholds settings.bits settings.rescaling.size thresholds.now }
    requires state { AreBandStates settings bands.old }
    requires inside { at + length residuals.now ≤ length bands.old }
    requires few { length residuals.now ≤ 2 ^ 16 }
    requires residuals { AllByRecursion (λ n. n < 2 ^ settings.bits) residuals.now }
    requires room { 48 * length residuals.now ≤ writer.room }
    ensures written { (v : CoderState) (t : ℕ) → 0 < t → v.bands ≡ statistics_of bands.old → HasSettings v settings.bits settings.limit settings.rescaling.size
        → WritesColumn at t residuals.now v writer.bits (record v { bands = statistics_of bands.new }) result.bits }
    ensures state { AreBandStates settings bands.new }
    ensures bands { length bands.new ≡ length bands.old }
    ensures still { result.room ≤ writer.room }
    ensures room { writer.room ≤ result.room + 48 * length residuals.now }
{
    // Only the proof needs this: the bands can be counted.
    let _count = bands.len();
    let mut writer = writer;
    for i in 0..residuals.len() {
        let mut state = bands.get(at + i);
        writer = put_one(writer, settings, thresholds, &mut state, residuals[i]);
        bands.set(at + i, state);
    }
    writer
}

/// Appends the code word of a band's next residual, which isn't its first, and updates the band's state.
#[inline(always)]
fn put_one(
    writer: BitWriter,
    settings: CodeSettings,
    thresholds: &[u32],
    state: &mut BandState,
    residual: u16,
) -> BitWriter
    requires table { AreThresholds settings.bits settings.rescaling.size thresholds.now }
    requires state { IsBandState settings state.old }
    requires residual { residual < 2 ^ settings.bits }
    requires room { 48 ≤ writer.room }
    ensures text { (v : CoderState) (z t : ℕ) → 0 < t → HasSettings v settings.bits settings.limit settings.rescaling.size → of_band v.bands z ≡ state.old.statistics
        → result.bits ≡ writer.bits ++ code_word (code_by v z t) residual }
    ensures counts { (v : CoderState) (z t : ℕ) → 0 < t → HasSettings v settings.bits settings.limit settings.rescaling.size
        → of_band v.bands z ≡ state.old.statistics → counted v z t residual ≡ with_band v z state.new.statistics }
    ensures state { IsBandState settings state.new }
    ensures room { writer.room ≤ result.room + 48 }
    ensures still { result.room ≤ writer.room }
{
    state.settle(settings, thresholds);
    let code = Code {
        limit: settings.limit,
        k: state.k,
        bits: settings.bits,
    };
    state.count(settings, residual);
    let word = word_of(code, residual);
    let mut writer = writer;
    writer.push_reserved(word.bits, word.length);
    writer
}

/// Appends the code words of eight residuals, whose code parameters are known and of which one at least is long.
#[cold]
#[inline(never)]
pub(crate) fn put_long_words(
    writer: BitWriter,
    settings: CodeSettings,
    parameters: [u32; 8],
    residuals: &[u16],
) -> BitWriter
    requires few { (j : ℕ) → j < 8 → number parameters j + 2 ≤ settings.bits }
    requires eight { length residuals.now ≡ 8 }
    requires residuals { AllByRecursion (λ n. n < 2 ^ settings.bits) residuals.now }
    requires room { 384 ≤ writer.room }
    ensures text { result.bits ≡ writer.bits ++ texts (λ j. code_word (record {
      limit = settings.limit;
      k = number parameters j;
      bits = settings.bits;
    }) (slice_index_or residuals.now j 0)) 0 8 }
    ensures room { writer.room ≤ result.room + 384 }
    ensures still { result.room ≤ writer.room }
{
    let mut writer = writer;
    for j in 0..8usize {
        let code = Code {
            limit: settings.limit,
            k: parameters[j],
            bits: settings.bits,
        };
        let word = word_of(code, residuals[j]);
        writer.push_reserved(word.bits, word.length);
    }
    writer
}
