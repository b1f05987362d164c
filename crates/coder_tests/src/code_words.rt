//! Tests of reading and writing several code words at once: a run of one band, and columns of bands.

use crate::checks::same_fault;
use crate::sample_coder::{short_codes, stats_of};
use cube_core::fault::Fault;
use header_bits::bit_reader::BitReader;
use header_bits::bit_writer::BitWriter;

/// Reads a run of one band: its first number in 8 bits, then an escape.
#[test]
fn a_run_is_read(rt: HostRuntime) {
    let mut stats = stats_of(&rt, rt.alloc(), 1, short_codes(8));
    let mut reader = BitReader::new(&[0x90, 0x00, 0x13]);
    let mut numbers = [0; 2];
    stats
        .get_run(0, 0, 0, &mut reader, &mut numbers)
        .expect(&rt, "numbers");
    assert!(rt; numbers == [144, 19]);
    assert!(rt; reader.left() == 0);
}

/// Reads columns of two bands: their first numbers in 8 bits each, then two fundamental sequences.
#[test]
fn columns_are_read(rt: HostRuntime) {
    let mut stats = stats_of(&rt, rt.alloc(), 2, short_codes(8));
    let mut reader = BitReader::new(&[0x90, 0x13, 0x14]);
    let mut numbers = [0; 2];
    stats
        .get_column(0, 0, 0, &mut reader, &mut numbers)
        .expect(&rt, "the first numbers");
    assert!(rt; numbers == [144, 19]);
    stats
        .get_column(0, 1, 2, &mut reader, &mut numbers)
        .expect(&rt, "the second numbers");
    assert!(rt; numbers == [3, 1]);
    assert!(rt; reader.left() == 2);
}

/// Writes the same columns to the same bytes.
#[test]
fn columns_are_put(rt: HostRuntime) {
    let mut stats = stats_of(&rt, rt.alloc(), 2, short_codes(8));
    let mut writer = BitWriter::new(rt.alloc());
    stats
        .put_column(0, 0, &[144, 19], &mut writer)
        .expect(&rt, "memory");
    stats
        .put_column(0, 1, &[3, 1], &mut writer)
        .expect(&rt, "memory");
    writer.push(0, 2).expect(&rt, "memory");
    assert!(rt; writer.bit_count() == 24);
    let bytes = writer.into_bytes();
    assert!(rt; bytes.as_slice() == [0x90, 0x13, 0x14].as_slice());
}

/// Checks that a needless escape, the upper band's second number at index 3 of the body, is refused by each call.
#[test]
fn a_column_is_refused(rt: HostRuntime) {
    let mut stats = stats_of(&rt, rt.alloc(), 2, short_codes(8));
    let mut reader = BitReader::new(&[0x90, 0x13, 0x10, 0x00, 0x30]);
    let mut numbers = [0; 2];
    stats
        .get_column(0, 0, 0, &mut reader, &mut numbers)
        .expect(&rt, "the first numbers");
    let fault = Fault::BadCode { place: 3 };
    let first = stats.get_column(0, 1, 2, &mut reader, &mut numbers);
    same_fault(&rt, first.err(), fault, "a needless escape");
    let later = stats.get_column(0, 1, 2, &mut reader, &mut numbers);
    same_fault(&rt, later.err(), fault, "the same later");
    assert!(rt; reader.left() == 24);
}
