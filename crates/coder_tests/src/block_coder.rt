//! Tests of the block-adaptive coder: round trips for all block sizes and many settings, worked bodies, and refusals.

ghost use Rattle.std.specs.Prelude.{◌≡◌, ◌+◌, ◌^◌, ◌<◌, ◌≤◌, length, IfOk};
ghost use Rattle.cube_core.specs.Shape.{sample_count};
ghost use Rattle.block_adaptive.specs.Settings.{AreForBlocks, IsSize};

use crate::checks::{same_bytes, same_fault};
use crate::fills::filled;
use crate::row_words::{bytes_of, fault_of, number_of, numbers_of, parts_of};
use block_adaptive::block_reader::BlockReader;
use block_adaptive::block_writer::BlockWriter;
use cube_core::fault::Fault;
use cube_core::kind::Kind;
use cube_core::shape::Shape;
use header_bits::bit_reader::BitReader;
use header_bits::bit_writer::BitWriter;
use header_bits::params::{Coder, Params};
use std::alloc::Global;
use std::process::Abort;

/// The settings of the coder in a test.
#[derive(Clone, Copy, Debug)]
pub(crate) struct Settings {
    pub(crate) bits: u32,
    pub(crate) restricted: bool,
    /// The block size: 0 to 3 for 8, 16, 32 and 64.
    pub(crate) size: u32,
    pub(crate) reference: u32,
    pub(crate) count: u32,
}

/// Returns the block size of a code from 0 to 3.
fn size_of(code: u32) -> u32
    ensures { IsSize result }
{
    match code {
        0 => 8,
        1 => 16,
        2 => 32,
        _ => 64,
    }
}

/// Returns the parameters of settings, which are lawful.
pub(crate) fn params_of(rt: &impl Abort, s: Settings) -> Params
    ensures lawful { AreForBlocks result }
    ensures bits { result.kind.bits ≡ s.bits }
{
    assert!(rt; s.reference >= 1);
    assert!(rt; s.reference <= 4096);
    let shape = Shape::new(1, s.count, 1).expect(rt, "a shape");
    let kind = Kind::new(false, s.bits).expect(rt, "a kind");
    assert!(rt; kind.bits() == s.bits);
    Params {
        coder: Coder::Block {
            size: size_of(s.size),
            restricted: s.restricted,
            reference: s.reference,
        },
        ..Params::plain(shape, kind)
    }
}

/// Returns the body of numbers, with fill bits up to a whole byte.
fn written(rt: &impl Abort, alloc: Global, params: &Params, numbers: &[u16]) -> Vec<u8>
    requires lawful { AreForBlocks params.now }
    requires count { length numbers.now ≡ sample_count params.now.shape }
{
    let mut blocks = BlockWriter::new(params);
    let mut writer = BitWriter::new(alloc);
    for number in numbers {
        assert!(rt; u32::from(*number) < 1 << params.kind.bits());
        blocks.put(*number, &mut writer).expect(rt, "memory");
    }
    blocks.end(&mut writer).expect(rt, "memory");
    filled(rt, writer)
}

/// Reads all numbers of a body. Returns them, and how many bits are left.
pub(crate) fn read(
    rt: &impl Abort,
    alloc: Global,
    params: &Params,
    bytes: &[u8],
) -> Result<(Vec<u16>, u64), Fault>
    requires { AreForBlocks params.now }
{
    assert!(rt; bytes.len() < 1_000_000);
    let mut blocks = BlockReader::new(params);
    let mut reader = BitReader::new(bytes);
    let mut numbers = Vec::new(alloc);
    for _number in 0..params.shape.sample_count() {
        numbers.push(blocks.next(&mut reader)?)?;
    }
    Ok((numbers, reader.left()))
}

/// Returns `count` numbers: runs of zeros of many lengths, and small, middle and great ones between them.
fn sample_numbers(alloc: Global, bits: u32, count: u32, seed: u64) -> Result<Vec<u16>, Fault>
    requires { (2 ≤ bits) × (bits ≤ 16) }
    ensures { IfOk result (λ v. length v.items ≡ count) }
{
    let most = ((1u32 << bits) - 1) as u16;
    let mut numbers = Vec::new(alloc);
    let mut state = seed;
    for t in 0..count {
        state = state
            .wrapping_mul(6_364_136_223_846_793_005)
            .wrapping_add(1_442_695_040_888_963_407);
        let some = ((state >> 48) & u64::from(most)) as u16;
        numbers.push(match (t / 7 + t / 64) % 6 {
            0 => most,
            1 => some,
            2 => some >> (bits - 1),
            _ => 0,
        })?;
    }
    Ok(numbers)
}

/// Returns the body of as many numbers as the settings say.
fn body_of(rt: &impl Abort, alloc: Global, s: Settings, numbers: &[u16]) -> Vec<u8> {
    let params = params_of(rt, s);
    assert!(rt; numbers.len() as u64 == params.shape.sample_count());
    written(rt, alloc, &params, numbers)
}

/// Asserts that a body is read as these numbers, with fewer than 8 bits left.
pub(crate) fn is_read_as(
    rt: &impl Abort,
    alloc: Global,
    s: Settings,
    body: &[u8],
    numbers: &[u16],
) {
    let params = params_of(rt, s);
    let (back, left) = read(rt, alloc, &params, body).expect(rt, "numbers");
    assert!(rt; back.as_slice() == numbers, "{s:?}");
    assert!(rt; left < 8, "{s:?}");
}

/// Asserts that numbers are written and read back.
fn come_back(rt: &impl Abort, alloc: Global, s: Settings)
    requires bits { (2 ≤ s.bits) × (s.bits ≤ 16) }
    requires size { s.size < 4 }
{
    let seed = u64::from(s.bits * 100 + s.size);
    let numbers = sample_numbers(alloc, s.bits, s.count, seed).expect(rt, "memory");
    let body = body_of(rt, alloc, s, &numbers);
    is_read_as(rt, alloc, s, &body, &numbers);
}

#[test]
fn numbers_come_back(rt: HostRuntime) {
    for bits in 2..17 {
        for size in 0..4 {
            for (reference, count) in [
                (1, 61),
                (2, 1),
                (63, 700),
                (64, 1031),
                (65, 2000),
                (4096, 1200),
            ] {
                for restricted in [false, true] {
                    let settings = Settings {
                        bits,
                        restricted,
                        size,
                        reference,
                        count,
                    };
                    come_back(&rt, rt.alloc(), settings);
                }
            }
        }
    }
}

/// Asserts that these numbers, in blocks of 8, are written as this body.
fn is_body(rt: &impl Abort, alloc: Global, settings: Settings, numbers: &[u16], body: &[u8]) {
    assert!(rt; numbers.len() < 65_536);
    let s = Settings {
        count: numbers.len() as u32,
        ..settings
    };
    same_bytes(rt, &body_of(rt, alloc, s, numbers), body, "a body");
}

/// In each row: dynamic range, reference interval, numbers in blocks of 8, their body, and the set of code options.
const BODIES: &str = "\
8 | 1 | 144 | a0 0f f0 00 00 00 00
8 | 1 | 0 | 08
8 | 8 | 48*0 | 00 80
8 | 8 | 32*0 | 01
8 | 4 | 48*0 | 01 04
8 | 4096 | 1040*0 | 00 80 41
8 | 65 | 1040*0 | 00 84 02 10
8 | 1 | 55 3 5 0 4 2 20 1 2 2 1 2 | 80 7e 7d d1 14 24 94 f8
2 | 1 | 8*1 | ea aa a0
2 | 1 | 0 | 20 | restricted
2 | 1 | 2 | 47 80 | restricted
2 | 1 | 3 | 40 f0 | restricted
2 | 1 | 8*3 | ff ff 80 | restricted
2 | 1 | 2 0 2 0 2 0 0 1 | c4 40 80 | restricted
4 | 1 | 2 | 23 c0 | restricted";

/// Asserts that a row's numbers are written as its body.
fn row_is_body(rt: &impl Abort, alloc: Global, row: &str) {
    let [bits, reference, numbers, body, set] = parts_of(rt, row);
    let numbers = numbers_of(rt, alloc, numbers);
    let body = bytes_of(rt, alloc, body);
    let settings = Settings {
        bits: number_of(rt, bits),
        restricted: set == "restricted",
        size: 0,
        reference: number_of(rt, reference),
        count: 0,
    };
    is_body(rt, alloc, settings, &numbers, &body);
}

#[test]
fn bodies(rt: HostRuntime) {
    for row in BODIES.split('\n') {
        row_is_body(&rt, rt.alloc(), row);
    }
}

/// Returns the fault that the first number of a body in blocks of 8 is refused for, and asserts that the reader keeps
/// its position.
fn refusal_of(rt: &impl Abort, bits: u32, reference: u32, bytes: &[u8]) -> Option<Fault> {
    assert!(rt; bytes.len() < 1_000_000);
    let params = params_of(
        rt,
        Settings {
            bits,
            restricted: false,
            size: 0,
            reference,
            count: 48,
        },
    );
    let mut blocks = BlockReader::new(&params);
    let mut reader = BitReader::new(bytes);
    assert!(rt; params.shape.sample_count() == 48);
    let first = blocks.next(&mut reader).err();
    let left = reader.left();
    assert!(rt; left == 8 * bytes.len() as u64);
    first
}

/// In each row: what is refused, dynamic range, reference interval, body, and the fault.
const REFUSALS: &str = "\
a run of five blocks where four are left | 8 | 4 | 00 42 10 | RunPastSegment 0
k = 5 and eight zeros | 8 | 1 | c0 00 | BadOption 0
k = 5 and five zeros | 8 | 1 | c0 | Truncated 8
number 10 is the pair (4, 0), above two bits | 2 | 1 | 10 03 c0 | BadOption 0";

/// Asserts that a row's body is refused for its fault.
fn row_is_refused(rt: &impl Abort, alloc: Global, row: &str) {
    let [name, bits, reference, body, fault] = parts_of(rt, row);
    let body = bytes_of(rt, alloc, body);
    let found = refusal_of(rt, number_of(rt, bits), number_of(rt, reference), &body);
    same_fault(rt, found, fault_of(rt, fault), name);
}

#[test]
fn refusals(rt: HostRuntime) {
    for row in REFUSALS.split('\n') {
        row_is_refused(&rt, rt.alloc(), row);
    }
}
