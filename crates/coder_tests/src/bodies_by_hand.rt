//! Tests of hand-made bodies of blocks: lawful ones that the writer never chooses, and those at the limits of what is
//! lawful.

ghost use Rattle.std.specs.Prelude.{◌≡◌, ◌*◌, ◌%◌, ◌^◌, ◌≤◌, length};

use crate::block_coder::{Settings, is_read_as, params_of, read};
use crate::checks::same_fault;
use crate::fills::filled;
use crate::row_words::{bytes_of, number_of, numbers_of, parts_of};
use block_adaptive::options::Choice;
use cube_core::fault::Fault;
use header_bits::bit_writer::BitWriter;
use std::alloc::Global;
use std::process::Abort;

/// Appends a fundamental sequence: `zeros` zeros and a one.
fn append_fundamental(rt: &impl Abort, writer: &mut BitWriter, zeros: u64) {
    for _zero in 0..zeros {
        writer.push(0, 1).expect(rt, "memory");
    }
    writer.push(1, 1).expect(rt, "memory");
}

/// Appends the `bits` low bits of each value.
fn append_low_bits(rt: &impl Abort, writer: &mut BitWriter, values: &[u16], bits: u32)
    requires { bits ≤ 8 }
{
    for value in values {
        let low = u64::from(*value) % (1 << bits);
        writer.push(low, bits).expect(rt, "memory");
    }
}

/// Appends the fundamental sequences of pairs of values, as under the second extension.
fn append_pairs(rt: &impl Abort, writer: &mut BitWriter, values: &[u16]) {
    for pair in values.chunks(2) {
        assert!(rt; pair.len() == 2);
        let sum = u64::from(pair[0]) + u64::from(pair[1]);
        append_fundamental(rt, writer, sum * (sum + 1) / 2 + u64::from(pair[1]));
    }
}

/// Appends the coded data set of a block of eight 8-bit values under a code option, bit by bit.
fn append_block(rt: &impl Abort, writer: &mut BitWriter, option: Choice, values: &[u16]) {
    match option {
        Choice::Uncoded => {
            writer.push(0b111, 3).expect(rt, "memory");
            append_low_bits(rt, writer, values, 8);
        }
        Choice::Second => {
            writer.push(0b0001, 4).expect(rt, "memory");
            append_pairs(rt, writer, values);
        }
        Choice::Split(k) => {
            assert!(rt; k < 6);
            writer.push(u64::from(k) + 1, 3).expect(rt, "memory");
            for value in values {
                append_fundamental(rt, writer, u64::from(*value >> k));
            }
            append_low_bits(rt, writer, values, k);
        }
    }
}

/// Returns the settings of `count` numbers of 8 bits, in blocks of 8.
fn settings(reference: u32, count: u32) -> Settings {
    Settings {
        bits: 8,
        restricted: false,
        size: 0,
        reference,
        count,
    }
}

/// The values of two blocks.
const VALUES: &str = "0 1 2 3 0 5 1 0 7 0 0 1 2 0 3 1";

/// Returns a code option by its number: uncoded, second extension, then split-sample 0 and up.
fn option(number: u32) -> Choice {
    match number {
        0 => Choice::Uncoded,
        1 => Choice::Second,
        k => Choice::Split(k - 2),
    }
}

/// Asserts that two blocks are read under these code options.
fn two_blocks_are_read(rt: &impl Abort, alloc: Global, first: Choice, second: Choice) {
    let values = numbers_of(rt, alloc, VALUES);
    assert!(rt; values.len() == 16);
    let mut writer = BitWriter::new(alloc);
    append_block(rt, &mut writer, first, &values[..8]);
    append_block(rt, &mut writer, second, &values[8..]);
    let body = filled(rt, writer);
    is_read_as(rt, alloc, settings(64, 16), &body, &values);
}

/// Checks every code option for each of two blocks.
#[test]
fn every_option_is_read(rt: HostRuntime) {
    for first in 0..8 {
        for second in 0..8 {
            two_blocks_are_read(&rt, rt.alloc(), option(first), option(second));
        }
    }
}

/// Appends a zero-block run by the code of its length.
fn append_run(rt: &impl Abort, writer: &mut BitWriter, blocks: u64) {
    writer.push(0, 4).expect(rt, "memory");
    append_fundamental(
        rt,
        writer,
        if blocks <= 4 {
            blocks.saturating_sub(1)
        } else {
            blocks
        },
    );
}

/// Asserts that six zero blocks are read, where a run ends after each block whose bit in `split` is set. The last run
/// has the code of the segment's rest if `rest` is set.
fn split_run_is_read(rt: &impl Abort, alloc: Global, split: u32, rest: bool) {
    let mut writer = BitWriter::new(alloc);
    let mut blocks = 1u64;
    for border in 0u32..5 {
        if split >> border & 1 == 1 {
            append_run(rt, &mut writer, blocks);
            blocks = 0;
        }
        blocks = blocks.saturating_add(1);
    }
    if rest {
        writer.push(0, 4).expect(rt, "memory");
        append_fundamental(rt, &mut writer, 4);
    } else {
        append_run(rt, &mut writer, blocks);
    }
    let body = filled(rt, writer);
    is_read_as(rt, alloc, settings(8, 48), &body, &[0; 48]);
}

/// Splits six zero blocks in every way into runs, the last of which also has the code of the segment's rest.
#[test]
fn every_split_of_a_run_is_read(rt: HostRuntime) {
    for split in 0u32..32 {
        for rest in [false, true] {
            split_run_is_read(&rt, rt.alloc(), split, rest);
        }
    }
}

/// Asserts that a body is refused for this fault.
fn is_refused(rt: &impl Abort, alloc: Global, s: Settings, body: &[u8], fault: Fault) {
    let params = params_of(rt, s);
    let found = read(rt, alloc, &params, body).err();
    same_fault(rt, found, fault, "a body");
}

/// In each row: reference interval, count of numbers, and a body with a zero-block run past its segment.
const RUNS_PAST: &str = "\
4 | 48 | 00 42 10 00 00 00 00 00 00 00 00
4096 | 1040 | 00 00 00 00 00 00 00 00 04 02 01
1 | 1 | 00 00 00 00 00 00 00 00 00 00 00
8 | 48 | 00 00 00 00 00 00 00 00 00 00 00";

/// Asserts that a row's body is refused for a run past its segment.
fn run_is_refused(rt: &impl Abort, alloc: Global, row: &str) {
    let [reference, count, body, _, _] = parts_of(rt, row);
    let s = settings(number_of(rt, reference), number_of(rt, count));
    let past = Fault::RunPastSegment { block: 0 };
    is_refused(rt, alloc, s, &bytes_of(rt, alloc, body), past);
}

/// Checks runs at the ends of reference intervals and of segments of 64 blocks, and the most zeros of a run code.
#[test]
fn runs_past_a_segment_are_refused(rt: HostRuntime) {
    for row in RUNS_PAST.split('\n') {
        run_is_refused(&rt, rt.alloc(), row);
    }
    is_read_as(&rt, rt.alloc(), settings(8, 40), &[0x00, 0x40], &[0; 40]);
}

/// Checks that filled values may be any, and that the number of a pair is at most that of the greatest pair.
#[test]
fn filled_values_and_greatest_pairs(rt: HostRuntime) {
    let alloc = rt.alloc();
    let filled = bytes_of(&rt, alloc, "f2 1f ff ff ff ff ff ff e0");
    is_read_as(&rt, alloc, settings(1, 1), &filled, &[144]);
    let two_bits = Settings {
        bits: 2,
        ..settings(1, 8)
    };
    let greatest = numbers_of(&rt, alloc, "3 3 6*0");
    is_read_as(&rt, alloc, two_bits, &[0x10, 0, 0, 0x0F], &greatest);
    let bad = Fault::BadOption { block: 0 };
    is_refused(&rt, alloc, two_bits, &[0x10, 0x03, 0xC0, 0], bad);
    is_refused(&rt, alloc, two_bits, &[0x10, 0, 0, 0], bad);
}
