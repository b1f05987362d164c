//! Tests of the bit writer and the bit reader against plain ones that go bit by bit, on worked files and random bytes.

ghost use Rattle.std.specs.Prelude.{◌≤◌};

use crate::checks::same;
use crate::row_words::{file_of, parts_of};
use crate::rows::{
    BLOCK_ROWS, CUBE_A_ROWS, REGISTER_ROWS, RESTRICTED_ROWS, RUN_ROWS, SEGMENT_ROWS, SMALL_ROWS,
    TABLE_ROWS, WEIGHT_ROWS,
};
use header_bits::bit_reader::BitReader;
use header_bits::bit_writer::BitWriter;
use std::alloc::Global;
use std::process::Abort;

/// A generator of pseudo-random numbers from a seed.
#[derive(Drop)]
struct Draw(u64);

impl Draw {
    /// Returns the next number, which is below 2^31.
    fn next(&mut self) -> u64 {
        self.0 = self
            .0
            .wrapping_mul(6_364_136_223_846_793_005)
            .wrapping_add(1_442_695_040_888_963_407);
        self.0 >> 33
    }
}

/// A plain reader, which reads one bit after another.
#[derive(Drop)]
struct SlowReader<'a> {
    bytes: &'a [u8],
    at: usize,
}

impl SlowReader<'_> {
    fn bit(&mut self) -> Option<bool> {
        let byte = *self.bytes.get(self.at / 8)?;
        let position = 7 - self.at % 8;
        self.at = self.at.wrapping_add(1);
        Some(byte >> position as u32 & 1 == 1)
    }

    fn take(&mut self, n: u32) -> Option<u64> {
        let start = self.at;
        let mut number = 0u64;
        for _ in 0..n {
            let Some(bit) = self.bit() else {
                self.at = start;
                return None;
            };
            number = number.wrapping_mul(2) | if bit { 1 } else { 0 };
        }
        Some(number)
    }

    fn count_zeros(&mut self, limit: u64) -> Option<u64> {
        let start = self.at;
        for zeros in 0..limit {
            match self.bit() {
                Some(true) => return Some(zeros),
                Some(false) => {}
                None => {
                    self.at = start;
                    return None;
                }
            }
        }
        Some(limit)
    }
}

/// Appends the `n` low bits of a number, the most significant first.
fn push(rt: &impl Abort, bits: &mut Vec<bool>, number: u64, n: u32)
    requires { n ≤ 64 }
{
    for k in 0..n {
        let position = n - 1 - k;
        bits.push(number >> position & 1 == 1).expect(rt, "memory");
    }
}

/// Returns bits packed into bytes, with fill bits of 0.
fn packed(rt: &impl Abort, alloc: Global, bits: &[bool]) -> Vec<u8> {
    let mut bytes = Vec::new(alloc);
    for (i, bit) in bits.iter().enumerate() {
        if i % 8 == 0 {
            bytes.push(0u8).expect(rt, "memory");
        }
        if *bit && let Some(last) = bytes.last_mut() {
            *last |= 0x80 >> (i % 8) as u32;
        }
    }
    bytes
}

/// Asserts that both readers count the same number of zeros.
fn zeros_agree(rt: &impl Abort, reader: &mut BitReader, slow: &mut SlowReader, limit: u64) {
    same(rt, reader.count_zeros(limit).ok(), slow.count_zeros(limit));
}

/// A bit writer, and the plain bits of the same numbers.
#[derive(Drop)]
struct Written {
    writer: BitWriter,
    bits: Vec<bool>,
}

impl Written {
    fn new(alloc: Global) -> Written {
        Written {
            writer: BitWriter::new(alloc),
            bits: Vec::new(alloc),
        }
    }

    /// Asserts that both readers take the same number, and writes it both ways.
    fn take_and_push(
        &mut self,
        rt: &impl Abort,
        reader: &mut BitReader,
        slow: &mut SlowReader,
        n: u32,
    )
        requires { n ≤ 64 }
    {
        match reader.take(n) {
            Ok(number) => {
                same(rt, slow.take(n), Some(number));
                self.writer.push(number, n).expect(rt, "memory");
                push(rt, &mut self.bits, number, n);
            }
            Err(_) => same(rt, slow.take(n), None),
        }
    }

    /// Asserts that both have the same bytes, with fill bits of 0.
    fn agrees(mut self, rt: &impl Abort, alloc: Global) {
        same(rt, self.writer.bit_count(), self.bits.len() as u64);
        for _ in 0..self.writer.bit_count().wrapping_neg() % 8 {
            self.writer.push(0, 1).expect(rt, "memory");
        }
        assert!(rt; self.writer.bit_count() % 8 == 0);
        let bytes = self.writer.into_bytes();
        same(
            rt,
            bytes.as_slice(),
            packed(rt, alloc, &self.bits).as_slice(),
        );
    }
}

/// Asserts that both readers read the same from bytes, and that both writers then have the same bytes.
fn agree(rt: &impl Abort, alloc: Global, draw: &mut Draw, bytes: &[u8]) {
    assert!(rt; bytes.len() <= 1000);
    let mut reader = BitReader::new(bytes);
    let mut slow = SlowReader { bytes, at: 0 };
    let mut written = Written::new(alloc);
    for _ in 0..400 {
        let n = (draw.next() % 65) as u32;
        if draw.next() % 3 == 0 {
            zeros_agree(rt, &mut reader, &mut slow, draw.next() % 20);
        }
        written.take_and_push(rt, &mut reader, &mut slow, n);
        same(
            rt,
            reader.left(),
            reader.count().wrapping_sub(slow.at as u64),
        );
    }
    written.agrees(rt, alloc);
}

/// Asserts that readers and writers agree on a row's file, in eight draws.
fn row_agrees(rt: &impl Abort, alloc: Global, draw: &mut Draw, row: &str) {
    let [_name, _settings, _samples, header, body] = parts_of(rt, row);
    let file = file_of(rt, alloc, header, body);
    for _ in 0..8 {
        agree(rt, alloc, draw, &file);
    }
}

/// Asserts that readers and writers agree on the file of each row.
fn rows_agree(rt: &impl Abort, alloc: Global, draw: &mut Draw, rows: &str) {
    for row in rows.split('\n') {
        row_agrees(rt, alloc, draw, row);
    }
}

#[test]
fn worked_files_bit_by_bit(rt: HostRuntime) {
    let mut draw = Draw(1);
    for rows in [
        SMALL_ROWS,
        REGISTER_ROWS,
        WEIGHT_ROWS,
        CUBE_A_ROWS,
        BLOCK_ROWS,
        RUN_ROWS,
        SEGMENT_ROWS,
        TABLE_ROWS,
        RESTRICTED_ROWS,
    ] {
        rows_agree(&rt, rt.alloc(), &mut draw, rows);
    }
}

/// Returns `size` bytes. About half of them are zero, so that runs of zeros are long.
fn random_bytes(rt: &impl Abort, alloc: Global, draw: &mut Draw, size: u32) -> Vec<u8> {
    let mut bytes = Vec::new(alloc);
    for _ in 0..size {
        let byte = if draw.next() % 2 == 0 {
            0
        } else {
            draw.next() % 256
        };
        bytes.push(byte as u8).expect(rt, "memory");
    }
    bytes
}

#[test]
fn random_bytes_bit_by_bit(rt: HostRuntime) {
    let mut draw = Draw(2);
    for size in 0..200 {
        let bytes = random_bytes(&rt, rt.alloc(), &mut draw, size);
        agree(&rt, rt.alloc(), &mut draw, &bytes);
    }
}
