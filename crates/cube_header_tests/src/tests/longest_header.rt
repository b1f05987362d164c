//! A test of the longest header: the most bands, the most weights, and an accumulator constant for each band.

use crate::tests::checks::same;
use cube_core::fault::Fault;
use cube_core::kind::Kind;
use cube_core::shape::Shape;
use header_bits::header::{read_header, write_header};
use header_bits::params::{Coder, CountStart, Params, WeightStart};
use header_bits::tables::{ConstantTable, WeightTable};
use std::alloc::Global;
use std::process::Abort;

/// The greatest number of bands.
const BANDS: u32 = 65_536;

/// The header's length: 19 bytes, 18 weights of 22 bits for each band, less the 120 that the first 15 bands lack in
/// all, and 4 bits for each band's constant.
const LENGTH: usize = 19 + (18 * 65_536 - 120) * 22 / 8 + 65_536 / 2;

/// Returns weights of 22 bits: for each band three directional ones, and one for each band below it, up to 15.
fn weights(alloc: Global) -> Result<Vec<i32>, Fault> {
    let mut weights = Vec::new(alloc);
    let mut state = 1u64;
    for band in 0..BANDS {
        for _place in 0..band.min(15) + 3 {
            state = state
                .wrapping_mul(6_364_136_223_846_793_005)
                .wrapping_add(1_442_695_040_888_963_407);
            weights.push((state >> 42) as i32 - (1 << 21))?;
        }
    }
    Ok(weights)
}

/// Returns a constant from 0 to 6 for each band, in turn.
fn constants(alloc: Global) -> Result<Vec<u8>, Fault> {
    let mut constants = Vec::new(alloc);
    for band in 0..BANDS {
        constants.push((band % 7) as u8)?;
    }
    Ok(constants)
}

/// Returns the weight initialization with these weights.
fn start(rt: &impl Abort, alloc: Global) -> WeightStart {
    WeightStart::Table {
        q: 22,
        values: WeightTable::new(weights(alloc).expect(rt, "memory")),
    }
}

/// Returns the sample-adaptive coder with these constants.
fn coder(rt: &impl Abort, alloc: Global) -> Coder {
    Coder::Sample {
        umax: 16,
        gamma_star: 6,
        gamma_zero: 1,
        start: CountStart::Each(ConstantTable::new(constants(alloc).expect(rt, "memory"))),
    }
}

/// Returns the parameters with the longest header.
fn params(rt: &impl Abort, alloc: Global) -> Params {
    let shape = Shape::new(2, 1, BANDS).expect(rt, "a shape");
    let kind = Kind::new(false, 8).expect(rt, "a kind");
    Params {
        previous: 15,
        reduced: false,
        column: false,
        register: 64,
        omega: 19,
        start: start(rt, alloc),
        coder: coder(rt, alloc),
        ..Params::plain(shape, kind)
    }
}

/// Returns whether a weight initialization is the table of these weights, with a resolution of 22 bits.
fn has_weights(rt: &impl Abort, alloc: Global, start: &WeightStart) -> bool {
    let weights = weights(alloc).expect(rt, "memory");
    match start {
        WeightStart::Table { q: 22, values } => values.as_slice() == weights.as_slice(),
        _ => false,
    }
}

/// Returns whether a coder has the accumulator table of these constants.
fn has_constants(rt: &impl Abort, alloc: Global, coder: &Coder) -> bool {
    let constants = constants(alloc).expect(rt, "memory");
    match coder {
        Coder::Sample {
            start: CountStart::Each(table),
            ..
        } => table.as_slice() == constants.as_slice(),
        _ => false,
    }
}

/// Returns the bytes of the longest header.
fn written(rt: &impl Abort, alloc: Global) -> Vec<u8> {
    let params = params(rt, alloc);
    assert!(rt; params.check().is_ok());
    write_header(alloc, &params).expect(rt, "memory")
}

/// Asserts that all bytes are read as the longest header.
fn are_longest_header(rt: &impl Abort, alloc: Global, bytes: &[u8]) {
    assert!(rt; bytes.len() == LENGTH);
    let (params, size) = read_header(alloc, bytes).expect(rt, "a header");
    same(rt, size, LENGTH);
    same(rt, params.shape.bands(), BANDS);
    assert!(rt; has_weights(rt, alloc, &params.start));
    assert!(rt; has_constants(rt, alloc, &params.coder));
}

#[test]
fn the_longest_header_is_written_and_read(rt: HostRuntime) {
    let bytes = written(&rt, rt.alloc());
    are_longest_header(&rt, rt.alloc(), &bytes);
}
