//! Round trips of rows of one piece and of more, in each encoding order. The decoder goes place by place.

use crate::files::{BYTES, decodes_to, encoded, header_by};
use crate::row_parameters::params_of;
use std::alloc::Global;
use std::process::Abort;

/// Numbers of columns around the 64 of a piece.
const COLUMNS: [&str; 5] = [
    "columns=1 reduced=1",
    "columns=63 reduced=0",
    "columns=64 reduced=0",
    "columns=65 reduced=0",
    "columns=129 reduced=0",
];

/// Encoding orders: band-sequential, interleaved by line, by pairs of bands with one left over, and by pixel.
const DEPTHS: [&str; 4] = ["depth=0", "depth=1", "depth=2", "depth=3"];

/// The sample-adaptive coder, and the block-adaptive coder.
const CODERS: [&str; 2] = ["reference=0", "reference=8"];

/// Returns samples that rise along a row, with some noise.
fn samples(rt: &impl Abort, alloc: Global, count: u64) -> Vec<u8> {
    let mut samples = Vec::new(alloc);
    let mut state = 1u32;
    for i in 0..count {
        state = state.wrapping_mul(1_664_525).wrapping_add(1_013_904_223);
        let value = (i % 97) as u32 + (state >> 28);
        samples.push(value as u8).expect(rt, "memory");
    }
    samples
}

/// Asserts that samples are encoded by these settings, and decoded again.
fn samples_come_back(rt: &impl Abort, alloc: Global, settings: &str) {
    let params = params_of(rt, alloc, settings);
    let header = header_by(rt, alloc, &params, settings);
    let raw = samples(rt, alloc, params.shape.sample_count());
    let file = encoded(rt, alloc, settings, settings, BYTES, &raw);
    decodes_to(rt, alloc, settings, &file, &header, BYTES, &raw);
}

/// Asserts that samples are encoded with these columns, in this order and by this coder, and decoded again.
fn come_back(rt: &impl Abort, alloc: Global, columns: &str, depth: &str, coder: &str) {
    let settings = format!(in alloc; "rows=2 bands=3 previous=1 {columns} {depth} {coder}").expect(
        rt, "memory",
    );
    samples_come_back(rt, alloc, &settings);
}

#[test]
fn rows_around_a_piece_come_back_in_each_order(rt: HostRuntime) {
    for columns in COLUMNS {
        for depth in DEPTHS {
            for coder in CODERS {
                come_back(&rt, rt.alloc(), columns, depth, coder);
            }
        }
    }
}
