//! Short code words of successive bands, read back.

ghost use Rattle.std.specs.Prelude.{◌≡◌, ◌+◌, ◌*◌, ◌^◌, ◌<◌, ◌≤◌, length, true, Ok, IfSome, IfNone, ℕ};
ghost use Rattle.header_bits.specs.Bits.{Unread};
ghost use Rattle.header_bits.specs.Windows.{IsAhead};
ghost use Rattle.sample_adaptive.specs.Reading.{word_at};
ghost use Rattle.sample_adaptive.specs.Taken.{CoderState, HasSettings, Reaches, code_by, counted, of_band, with_band};
ghost use Rattle.sample_adaptive.specs.Statistics.{code_parameter};
ghost use Rattle.sample_adaptive.specs.Thresholds.{AreThresholds};
ghost use Rattle.sample_adaptive.specs.BandStates.{IsBandState, AreBandStates, statistics_of};

use crate::band_state::BandState;
use crate::band_states::BandStates;
use crate::code_settings::CodeSettings;
use crate::code_word::Code;
use crate::column::take_known;
use crate::short_word::take_short_word;
use crate::statistics::{Statistics, parameter};
use crate::thresholds::ROW;
use header_bits::bit_reader::BitReader;

/// Reads eight residuals or fewer, one of each band from band `z + i` on and none of which is its first, as long as 57 bits are left and
/// begin with a code word, into `residuals` from index `i` on. Returns how many, and updates the bands' states. The residual at index 0 is at
/// `index` in encoding order.
///
/// Short words are read four at a time.
#[inline(never)]
pub(crate) fn take_next(
    settings: CodeSettings,
    thresholds: &[u32],
    index: u64,
    z: usize,
    bands: &mut BandStates,
    reader: &mut BitReader,
    i: usize,
    residuals: &mut [u16],
) -> usize
    requires thresholds { AreThresholds settings.bits settings.rescaling.size thresholds.now }
    requires state { AreBandStates settings bands.old }
    requires within { i < length residuals.old }
    requires inside { z + length residuals.old ≤ length bands.old }
    requires long { (length residuals.old ≤ 2 ^ 16) × (index < 2 ^ 48) }
    ensures taken { (v : CoderState) (t : ℕ) (first : Unread) → 0 < t → HasSettings v settings.bits settings.limit settings.rescaling.size
        → Reaches (λ i. z + i) (λ i. t) 0 index i v (record v { bands = statistics_of bands.old }) first reader.old residuals.old
        → Reaches (λ i. z + i) (λ i. t) 0 index (i + result) v (record v { bands = statistics_of bands.new }) first reader.new residuals.new }
    ensures within { i + result ≤ length residuals.new }
    ensures state { AreBandStates settings bands.new }
    ensures count { reader.new.count ≡ reader.old.count }
    ensures long { length residuals.new ≡ length residuals.old }
    ensures bands { length bands.new ≡ length bands.old }
{
    let end = residuals.len().min(i + 8);
    let mut ahead = reader.fork();
    let mut at = i;
    while at < end {
        if end - at >= 4 {
            let taken = take_four(settings, thresholds, z, bands, &mut ahead, at, residuals);
            at += taken;
            if taken >= 3 {
                continue;
            }
        }
        // A copy is passed on, so that the reader stays in registers.
        let mut rest = ahead.fork();
        let taken = take_some(
            settings,
            thresholds,
            index + at as u64,
            z,
            bands,
            &mut rest,
            at,
            residuals,
        );
        ahead = rest;
        at += taken;
        if taken == 0 {
            break;
        }
    }
    *reader = ahead;
    at - i
}

/// Reads up to four residuals, one of each band from band `z + i` on and none of which is its first, as long as their code words are
/// short, into `residuals` from index `i` on. Returns how many, and updates the bands' states.
///
/// Where D is above 12, so few words may have at most 14 bits that longer ones are taken for short, three of a load.
#[inline(always)]
fn take_four(
    settings: CodeSettings,
    thresholds: &[u32],
    z: usize,
    bands: &mut BandStates,
    reader: &mut BitReader,
    i: usize,
    residuals: &mut [u16],
) -> usize
    requires thresholds { AreThresholds settings.bits settings.rescaling.size thresholds.now }
    requires state { AreBandStates settings bands.old }
    requires within { i + 4 ≤ length residuals.old }
    requires inside { z + length residuals.old ≤ length bands.old }
    requires long { length residuals.old ≤ 2 ^ 16 }
    ensures taken { (v : CoderState) (t index : ℕ) (first : Unread) → 0 < t → HasSettings v settings.bits settings.limit settings.rescaling.size
        → Reaches (λ i. z + i) (λ i. t) 0 index i v (record v { bands = statistics_of bands.old }) first reader.old residuals.old
        → Reaches (λ i. z + i) (λ i. t) 0 index (i + result) v (record v { bands = statistics_of bands.new }) first reader.new residuals.new }
    ensures few { result ≤ 4 }
    ensures state { AreBandStates settings bands.new }
    ensures count { reader.new.count ≡ reader.old.count }
    ensures long { length residuals.new ≡ length residuals.old }
    ensures bands { length bands.new ≡ length bands.old }
{
    // Either number is known, so that the loop over the words is unrolled.
    if settings.bits <= 12 {
        take_few(settings, thresholds, 4, z, bands, reader, i, residuals)
    } else {
        take_few(settings, thresholds, 3, z, bands, reader, i, residuals)
    }
}

/// Reads one residual or a few, one of each band from band `z + i` on and none of which is its first, as long as 57 bits are left and
/// begin with a code word, into `residuals` from index `i` on. Returns how many, and updates the bands' states. The first residual is at
/// `index` in encoding order.
#[inline(never)]
fn take_some(
    settings: CodeSettings,
    thresholds: &[u32],
    index: u64,
    z: usize,
    bands: &mut BandStates,
    reader: &mut BitReader,
    i: usize,
    residuals: &mut [u16],
) -> usize
    requires thresholds { AreThresholds settings.bits settings.rescaling.size thresholds.now }
    requires state { AreBandStates settings bands.old }
    requires within { i < length residuals.old }
    requires inside { z + length residuals.old ≤ length bands.old }
    requires long { length residuals.old ≤ 2 ^ 16 }
    ensures taken { (v : CoderState) (t begun : ℕ) (first : Unread) → 0 < t → HasSettings v settings.bits settings.limit settings.rescaling.size
        → index ≡ begun + i → Reaches (λ i. z + i) (λ i. t) 0 begun i v (record v { bands = statistics_of bands.old }) first reader.old residuals.old
        → Reaches (λ i. z + i) (λ i. t) 0 begun (i + result) v (record v { bands = statistics_of bands.new }) first reader.new residuals.new }
    ensures within { i + result ≤ length residuals.new }
    ensures state { AreBandStates settings bands.new }
    ensures count { reader.new.count ≡ reader.old.count }
    ensures long { length residuals.new ≡ length residuals.old }
    ensures bands { length bands.new ≡ length bands.old }
{
    // Only the proof needs this: the bands can be counted.
    let _count = bands.len();
    let few = (residuals.len() - i).min(3);
    let taken = take_few(settings, thresholds, few, z, bands, reader, i, residuals);
    if taken > 0 {
        return taken;
    }
    let Some(word) = reader.peek() else { return 0 };
    let mut band = bands.get(z + i);
    let Ok(residual) = take_known(settings, index, word, &mut band, reader) else {
        return 0;
    };
    bands.set(z + i, band);
    residuals[i] = residual;
    1
}

/// Reads up to `few` residuals, one of each band from band `z + i` on and none of which is its first, as long as their code words are
/// short, into `residuals` from index `i` on. Returns how many, and updates the bands' states.
///
/// The bits ahead are looked at once, and have as many short words. With fewer than 57 bits left it reads none.
#[inline(always)]
fn take_few(
    settings: CodeSettings,
    thresholds: &[u32],
    few: usize,
    z: usize,
    bands: &mut BandStates,
    reader: &mut BitReader,
    i: usize,
    residuals: &mut [u16],
) -> usize
    requires thresholds { AreThresholds settings.bits settings.rescaling.size thresholds.now }
    requires state { AreBandStates settings bands.old }
    requires few { few ≤ 4 }
    requires within { i + few ≤ length residuals.old }
    requires inside { z + length residuals.old ≤ length bands.old }
    requires long { length residuals.old ≤ 2 ^ 16 }
    ensures taken { (v : CoderState) (t index : ℕ) (first : Unread) → 0 < t → HasSettings v settings.bits settings.limit settings.rescaling.size
        → Reaches (λ i. z + i) (λ i. t) 0 index i v (record v { bands = statistics_of bands.old }) first reader.old residuals.old
        → Reaches (λ i. z + i) (λ i. t) 0 index (i + result) v (record v { bands = statistics_of bands.new }) first reader.new residuals.new }
    ensures few { result ≤ few }
    ensures state { AreBandStates settings bands.new }
    ensures count { reader.new.count ≡ reader.old.count }
    ensures long { length residuals.new ≡ length residuals.old }
    ensures bands { length bands.new ≡ length bands.old }
{
    // Only the proof needs this: the bands can be counted.
    let _count = bands.len();
    let Some(word) = reader.peek() else { return 0 };
    let most = most_bits(settings.bits, few);
    let mut bits = word;
    let mut taken = 0;
    while taken < few {
        let mut band = bands.get(z + i + taken);
        let Some(residual) = take_short(settings, thresholds, most, &mut band, &mut bits, reader)
        else {
            break;
        };
        bands.set(z + i + taken, band);
        residuals[i + taken] = residual as u16;
        taken += 1;
    }
    taken
}

/// Reads a residual, not the band's first, if its code word has at most `most` bits and is no escape, and updates the band's state.
/// `bits` has the next bits at its front, `most` or more.
#[inline(always)]
fn take_short(
    settings: CodeSettings,
    thresholds: &[u32],
    most: u32,
    band: &mut BandState,
    bits: &mut u64,
    reader: &mut BitReader,
) -> Option<u32>
    requires thresholds { AreThresholds settings.bits settings.rescaling.size thresholds.now }
    requires state { IsBandState settings band.old }
    requires few { most ≤ 57 }
    requires most { most ≤ settings.bits + 2 }
    requires ahead { IsAhead most reader.old.left bits.old }
    ensures reads { IfSome result (λ residual. (v : CoderState) (z t index : ℕ) → 0 < t → HasSettings v settings.bits settings.limit settings.rescaling.size
        → of_band v.bands z ≡ band.old.statistics → word_at reader.old.count index (code_by v z t) reader.old.left ≡ Ok (residual, reader.new.left)) }
    ensures counts { IfSome result (λ residual. (v : CoderState) (z t : ℕ) → 0 < t → HasSettings v settings.bits settings.limit settings.rescaling.size
        → of_band v.bands z ≡ band.old.statistics → counted v z t residual ≡ with_band v z band.new.statistics) }
    ensures ahead { IfSome result (λ residual. (more : ℕ) → more + most ≤ 57 → IsAhead (more + most) reader.old.left bits.old → IsAhead more reader.new.left bits.new) }
    ensures below { IfSome result (λ residual. residual < 2 ^ 16) }
    ensures state { IsBandState settings band.new }
    ensures count { reader.new.count ≡ reader.old.count }
    ensures same { IfNone result ((reader.new ≡ reader.old) × (band.new.statistics ≡ band.old.statistics)) }
{
    if !keeps_k(settings, thresholds, band) {
        let k = renewed(settings.bits, band.statistics);
        *band = BandState::with_parameter(band.statistics, k);
    }
    let code = Code {
        limit: settings.limit,
        k: band.k,
        bits: settings.bits,
    };
    let residual = take_short_word(code, 1 << band.k, most, bits, reader)?;
    band.count(settings, residual as u16);
    Some(residual)
}

/// Whether two thresholds show that the code parameter is still that of the statistics, as they mostly do.
#[inline(always)]
fn keeps_k(settings: CodeSettings, thresholds: &[u32], band: &BandState) -> bool
    requires thresholds { AreThresholds settings.bits settings.rescaling.size thresholds.now }
    requires state { IsBandState settings band.now }
    ensures { result ≡ true → band.now.k ≡ code_parameter settings.bits band.now.statistics }
{
    let entry = ROW * band.k as usize + band.statistics.counter as usize;
    thresholds[entry] <= band.statistics.accumulator
        && band.statistics.accumulator < thresholds[entry + ROW]
}

/// Returns the code parameter of the statistics.
#[cold]
#[inline(never)]
fn renewed(bits: u32, statistics: Statistics) -> u32
    requires bits { (2 ≤ bits) × (bits ≤ 16) }
    requires counter { (1 ≤ statistics.counter) × (statistics.counter < 2 ^ 9) }
    requires accumulator { statistics.accumulator < 2 ^ 25 }
    ensures value { result ≡ code_parameter bits statistics }
    ensures most { result + 2 ≤ bits }
{
    parameter(bits, statistics)
}

/// Returns the greatest length of a short word, so many of which the bits ahead have: at most D + 2.
#[inline(always)]
fn most_bits(bits: u32, few: usize) -> u32
    requires bits { bits ≤ 16 }
    requires few { few ≤ 4 }
    ensures most { result ≤ bits + 2 }
    ensures ahead { few * result ≤ 57 }
    ensures few { result ≤ 19 }
{
    if few == 4 {
        (bits + 2).min(14)
    } else {
        bits + 2
    }
}
