//! Tests of the bit reader.

use crate::tests::checks::same;
use cube_core::fault::Fault;
use header_bits::bit_reader::{BitReader, bits_after};

#[test]
fn zeros_end_at_a_one_or_at_the_limit(rt: HostRuntime) {
    let mut reader = BitReader::new(&[1]);
    same(&rt, reader.count_zeros(10), Ok(7));
    same(&rt, reader.left(), 0);
    let mut reader = BitReader::new(&[1]);
    same(&rt, reader.count_zeros(7), Ok(7));
    same(&rt, reader.left(), 1);
}

#[test]
fn zeros_cut_short_are_refused(rt: HostRuntime) {
    let mut reader = BitReader::new(&[0]);
    same(
        &rt,
        reader.count_zeros(10),
        Err(Fault::Truncated { bit: 8 }),
    );
    same(&rt, reader.left(), 8);
}

#[test]
fn zeros_over_words(rt: HostRuntime) {
    let mut bytes = [0; 20];
    bytes[18] = 0x10; // 147 zeros, a one, 12 zeros
    let mut reader = BitReader::new(&bytes);
    same(&rt, reader.take(5), Ok(0));
    same(&rt, reader.fork().count_zeros(100), Ok(100));
    same(&rt, reader.count_zeros(1000), Ok(142));
    same(&rt, reader.count(), 160);
    same(&rt, reader.left(), 12);
}

/// Returns the next 57 bits, or `None` if fewer are left.
fn next_57_bits(reader: &BitReader) -> Option<u64> {
    reader.peek().map(|word| word >> 7)
}

#[test]
fn peek_returns_the_next_bits(rt: HostRuntime) {
    let bytes = [0xA5, 0x0F, 0xFF, 0x00, 0x12, 0x34, 0x56, 0x78, 0x9A];
    let mut reader = BitReader::new(&bytes);
    assert!(rt; reader.left() == 72);
    same(&rt, reader.peek(), Some(0xA50F_FF00_1234_5678));
    reader.skip(12);
    same(&rt, next_57_bits(&reader), Some(0xFFF0_0123_4567_89A0 >> 7));
    reader.skip(3);
    assert!(rt; reader.left() == 57);
    same(&rt, next_57_bits(&reader), Some(0x01FF_0012_3456_789A));
    reader.skip(1);
    same(&rt, reader.peek(), None);
    reader.skip(56);
    same(&rt, reader.left(), 0);
}

#[test]
fn bits_within_a_word(rt: HostRuntime) {
    same(&rt, bits_after(0xA50F_FF00_1234_5678, 4, 12), 0x50F);
    same(&rt, bits_after(0xA50F_FF00_1234_5678, 63, 0), 0);
}

#[test]
fn numbers_over_bytes(rt: HostRuntime) {
    let bytes = [0xA5, 0x0F, 0xFF, 0x00, 0x12, 0x34, 0x56, 0x78, 0x9A, 0xBC];
    let mut reader = BitReader::new(&bytes);
    same(&rt, reader.take(0), Ok(0));
    same(&rt, reader.take(3), Ok(5));
    same(&rt, reader.take(64), Ok(0x287F_F800_91A2_B3C4));
    same(&rt, reader.take(14), Err(Fault::Truncated { bit: 80 }));
    same(&rt, reader.take(13), Ok(0x1ABC));
    same(&rt, reader.left(), 0);
}
