//! Tests of the sample-adaptive coder: round trips for settings at both ends of their ranges, worked bodies, and
//! refusals.

ghost use Rattle.std.specs.Prelude.{◌≡◌, ◌+◌, ◌^◌, ◌<◌, ◌≤◌, length};
ghost use Rattle.sample_adaptive.specs.Settings.{AreForSamples};

use crate::checks::{same, same_bytes, same_fault};
use crate::fills::filled;
use crate::row_words::{bytes_of, fault_of, number_of, numbers_of, parts_of};
use cube_core::fault::Fault;
use cube_core::kind::Kind;
use cube_core::shape::Shape;
use header_bits::bit_reader::BitReader;
use header_bits::bit_writer::BitWriter;
use header_bits::params::{Coder, CountStart, Params};
use sample_adaptive::stats::Stats;
use std::alloc::Global;
use std::process::Abort;

/// The settings of the coder in a test.
#[derive(Clone, Copy, Debug)]
pub(crate) struct Settings {
    pub(crate) bits: u32,
    pub(crate) umax: u32,
    pub(crate) gamma_star: u32,
    pub(crate) gamma_zero: u32,
    pub(crate) constant: u32,
}

/// Asserts that a number is in a range.
fn is_within(rt: &impl Abort, number: u32, least: u32, most: u32)
    ensures { (least ≤ number) × (number ≤ most) }
{
    assert!(rt; least <= number);
    assert!(rt; number <= most);
}

/// Returns a shape of `bands` bands.
fn shape_of(rt: &impl Abort, bands: u32) -> Shape
    ensures { result.bands ≡ bands }
{
    let shape = Shape::new(1, 64, bands).expect(rt, "a shape");
    assert!(rt; shape.bands() == bands);
    shape
}

/// Returns the kind of unsigned samples of `bits` bits.
fn kind_of(rt: &impl Abort, bits: u32) -> Kind
    ensures { result.bits ≡ bits }
{
    let kind = Kind::new(false, bits).expect(rt, "a kind");
    assert!(rt; kind.bits() == bits);
    kind
}

/// Returns the parameters of `bands` bands with these settings, which are lawful.
fn params_of_bands(rt: &impl Abort, bands: u32, s: Settings) -> Params
    ensures lawful { AreForSamples result }
    ensures bands { result.shape.bands ≡ bands }
    ensures bits { result.kind.bits ≡ s.bits }
{
    is_within(rt, s.umax, 8, 32);
    is_within(rt, s.gamma_zero, 1, 8);
    is_within(rt, s.gamma_star, 4, 9);
    is_within(rt, s.bits, 2, 16);
    assert!(rt; s.gamma_zero < s.gamma_star);
    assert!(rt; s.constant <= s.bits - 2);
    Params {
        coder: Coder::Sample {
            umax: s.umax,
            gamma_star: s.gamma_star,
            gamma_zero: s.gamma_zero,
            start: CountStart::Constant(s.constant),
        },
        ..Params::plain(shape_of(rt, bands), kind_of(rt, s.bits))
    }
}

/// Returns the coder of `bands` bands, which has taken no number.
pub(crate) fn stats_of(rt: &impl Abort, alloc: Global, bands: u32, s: Settings) -> Stats
    ensures bands { length result.bands ≡ bands }
    ensures bits { result.bits ≡ s.bits }
{
    let params = params_of_bands(rt, bands, s);
    Stats::new(alloc, &params).expect(rt, "memory")
}

/// Returns the body of a band's numbers, with fill bits up to a whole byte.
fn written(rt: &impl Abort, alloc: Global, s: Settings, numbers: &[u16]) -> Vec<u8> {
    assert!(rt; s.bits <= 16);
    let mut stats = stats_of(rt, alloc, 1, s);
    let mut writer = BitWriter::new(alloc);
    for (t, number) in numbers.iter().enumerate() {
        assert!(rt; u32::from(*number) < 1 << s.bits);
        stats
            .put(0, t as u64, *number, &mut writer)
            .expect(rt, "memory");
    }
    filled(rt, writer)
}

/// Reads `count` numbers of one band. Returns them, and how many bits are left.
fn read(rt: &impl Abort, alloc: Global, s: Settings, bytes: &[u8], count: u64) -> (Vec<u16>, u64) {
    assert!(rt; bytes.len() < 1_000_000);
    let mut stats = stats_of(rt, alloc, 1, s);
    let mut reader = BitReader::new(bytes);
    let mut numbers = Vec::new(alloc);
    for t in 0..count {
        let number = stats.get(0, t, &mut reader).expect(rt, "a number");
        numbers.push(number).expect(rt, "memory");
    }
    (numbers, reader.left())
}

/// Returns numbers that begin with the greatest one, followed by runs of zeros, of great and of middle ones.
fn sample_numbers(alloc: Global, bits: u32, seed: u64) -> Result<Vec<u16>, Fault>
    requires { (2 ≤ bits) × (bits ≤ 16) }
{
    let most = ((1u32 << bits) - 1) as u16;
    let mut numbers = Vec::new(alloc);
    numbers.push(most)?;
    let mut state = seed;
    for t in 0..700u32 {
        state = state
            .wrapping_mul(6_364_136_223_846_793_005)
            .wrapping_add(1_442_695_040_888_963_407);
        let some = ((state >> 48) & u64::from(most)) as u16;
        numbers.push(match t / 50 % 4 {
            0 => 0,
            1 => some,
            2 => most,
            _ => some >> (bits / 2),
        })?;
    }
    Ok(numbers)
}

/// Asserts that numbers are written and read back, with fewer than 8 bits left.
fn come_back(rt: &impl Abort, alloc: Global, s: Settings)
    requires { (2 ≤ s.bits) × (s.bits ≤ 16) × (s.constant < 16) }
{
    let seed = u64::from(s.bits * 100 + s.constant);
    let numbers = sample_numbers(alloc, s.bits, seed).expect(rt, "memory");
    let bytes = written(rt, alloc, s, &numbers);
    let (back, left) = read(rt, alloc, s, &bytes, numbers.len() as u64);
    assert!(rt; back.as_slice() == numbers.as_slice(), "{s:?}");
    assert!(rt; left < 8, "{s:?}");
}

#[test]
fn numbers_come_back(rt: HostRuntime) {
    for bits in 2..17 {
        for constant in 0..bits - 1 {
            for (umax, gamma_star, gamma_zero) in [(8, 4, 1), (32, 9, 8), (8, 9, 1), (32, 4, 3)] {
                let settings = Settings {
                    bits,
                    umax,
                    gamma_star,
                    gamma_zero,
                    constant,
                };
                come_back(&rt, rt.alloc(), settings);
            }
        }
    }
}

/// Asserts that these numbers are written as this body.
fn is_body(rt: &impl Abort, alloc: Global, s: Settings, numbers: &str, body: &str) {
    let found = written(rt, alloc, s, &numbers_of(rt, alloc, numbers));
    same_bytes(rt, &found, &bytes_of(rt, alloc, body), numbers);
}

#[test]
fn rescaling_rounds_up(rt: HostRuntime) {
    let settings = Settings {
        bits: 8,
        umax: 16,
        gamma_star: 4,
        gamma_zero: 1,
        constant: 3,
    };
    is_body(&rt, rt.alloc(), settings, "0 2 14*0", "00 a8 92 55 55 50");
}

/// Returns settings with the least unary length limit, under which escapes come early.
pub(crate) fn short_codes(bits: u32) -> Settings
    ensures { result.bits ≡ bits }
{
    Settings {
        bits,
        umax: 8,
        gamma_star: 6,
        gamma_zero: 1,
        constant: 0,
    }
}

#[test]
fn an_escape_is_written(rt: HostRuntime) {
    is_body(&rt, rt.alloc(), short_codes(8), "144 19", "90 00 13");
}

/// Asserts that the second number of a band is refused for this fault by each call, and that the reader keeps its
/// position.
fn is_refused(rt: &impl Abort, alloc: Global, s: Settings, bytes: &[u8], fault: Fault, name: &str) {
    assert!(rt; bytes.len() < 1_000_000);
    let mut stats = stats_of(rt, alloc, 1, s);
    let mut reader = BitReader::new(bytes);
    stats.get(0, 0, &mut reader).expect(rt, "a number");
    let left = reader.left();
    same_fault(rt, stats.get(0, 1, &mut reader).err(), fault, name);
    same_fault(rt, stats.get(0, 1, &mut reader).err(), fault, name);
    same(rt, reader.left(), left);
}

/// In each row: what is refused, dynamic range, body, and the fault of its second number.
const BAD_CODES: &str = "\
00, then 00001: four zeros and a one spell 4, which two bits do not hold | 2 | 02 | BadCode 1
00, then 0000000011: 3 after an escape that it does not need | 2 | 00 30 | BadCode 1
144, then eight zeros and 3 in eight bits | 8 | 90 00 03 | BadCode 1
144, and then seven of the eight zeros of an escape | 8 | 90 | Truncated 8";

/// Asserts that the second number of a row's body is refused for its fault.
fn row_is_refused(rt: &impl Abort, alloc: Global, row: &str) {
    let [name, bits, body, fault, _] = parts_of(rt, row);
    let settings = short_codes(number_of(rt, bits));
    let fault = fault_of(rt, fault);
    is_refused(rt, alloc, settings, &bytes_of(rt, alloc, body), fault, name);
}

/// 144 in 8 bits, then eight zeros and 3 in 8 bits: a needless escape.
const NEEDLESS_ESCAPE: [u8; 3] = [0x90, 0x00, 0x03];

/// Returns the fault of a band's second number, whose index in encoding order is given.
fn second_fault(stats: &mut Stats, index: u64, reader: &mut BitReader) -> Option<Fault>
    requires band { 0 < length stats.old.bands }
    requires few { index < 100 }
    ensures bands { length stats.new.bands ≡ length stats.old.bands }
{
    stats.get_run(0, 1, index, reader, &mut [0]).err()
}

#[test]
fn bad_code_names_the_index_that_is_asked_for(rt: HostRuntime) {
    let mut stats = stats_of(&rt, rt.alloc(), 1, short_codes(8));
    let mut reader = BitReader::new(&NEEDLESS_ESCAPE);
    same(&rt, stats.get(0, 0, &mut reader).ok(), Some(144));
    let refusal = Fault::BadCode { place: 41 };
    let first = second_fault(&mut stats, 41, &mut reader);
    same_fault(&rt, first, refusal, "the number's index");
    let later = second_fault(&mut stats, 42, &mut reader);
    same_fault(&rt, later, refusal, "the first refusal, of a later call");
    same(&rt, reader.left(), 16);
}

#[test]
fn bad_code_words_are_refused(rt: HostRuntime) {
    for row in BAD_CODES.split('\n') {
        row_is_refused(&rt, rt.alloc(), row);
    }
}
