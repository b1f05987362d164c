//! Tests of the bit writer.

use crate::tests::checks::same;
use cube_core::fault::Fault;
use header_bits::bit_writer::BitWriter;
use std::process::Abort;

#[test]
fn a_word_after_one_bit(rt: HostRuntime) {
    let mut writer = BitWriter::new(rt.alloc());
    assert!(rt; writer.push(1, 1).is_ok());
    assert!(rt; writer.push(u64::MAX, 64).is_ok());
    same(&rt, writer.bit_count(), 65);
    assert!(rt; writer.push(0, 7).is_ok());
    assert!(rt;
        bytes_are(
            writer,
            &[0xFF, 0xFF, 0xFF, 0xFF, 0xFF, 0xFF, 0xFF, 0xFF, 0x80]
        )
    );
}

/// Pushes a number of fourteen bits.
fn push_fourteen(rt: &impl Abort, writer: &mut BitWriter, number: u64) {
    assert!(rt; number < 1 << 14);
    assert!(rt; writer.push(number, 14).is_ok());
}

#[test]
fn reserved_bits_are_pushed(rt: HostRuntime) {
    let mut writer = BitWriter::new(rt.alloc());
    assert!(rt; writer.reserve(72).is_ok());
    for number in [0x5, 0x2, 0x11, 0, 0x7f] {
        push_fourteen(&rt, &mut writer, number);
    }
    assert!(rt; writer.push(0, 0).is_ok());
    assert!(rt; writer.push(3, 2).is_ok());
    same(&rt, writer.bit_count(), 72);
    assert!(rt; bytes_are(writer, &[0, 20, 0, 32, 4, 64, 0, 1, 255]));
}

#[test]
fn more_than_the_most_bits_are_refused(rt: HostRuntime) {
    let mut writer = BitWriter::new(rt.alloc());
    same(&rt, writer.reserve(u64::MAX), Err(Fault::WantOfMemory));
    same(&rt, writer.bit_count(), 0);
}

fn bytes_are(writer: BitWriter, wanted: &[u8]) -> bool {
    writer.bit_count() % 8 == 0 && writer.into_bytes().as_slice() == wanted
}
