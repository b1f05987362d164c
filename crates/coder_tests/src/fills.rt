//! Filling bodies up to whole bytes.

use header_bits::bit_writer::BitWriter;
use std::process::Abort;

/// Returns the bytes of a writer, with fill bits up to a whole byte.
pub(crate) fn filled(rt: &impl Abort, mut writer: BitWriter) -> Vec<u8> {
    let fill = (8 - writer.bit_count() % 8) % 8;
    writer.push(0, fill as u32).expect(rt, "memory");
    assert!(rt; writer.bit_count() % 8 == 0);
    writer.into_bytes()
}
