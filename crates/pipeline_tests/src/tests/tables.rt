//! Tests of the files that predictors in threads make with tables, and with the restricted set of code options.

use super::cube_a::{BYTES, plan_of};
use crate::tests::checks::same_piped;
use coder_pipe::OpenGate;
use coder_pipe::encode_predicted::encode_predicted;
use coder_pipe::pipeline::Piped;
use cube_core::cube::Cube;
use cube_core::fault::Fault;
use cube_core::kind::Kind;
use cube_core::shape::Shape;
use header_bits::params::{Coder, CountStart, Params, WeightStart};
use header_bits::tables::{ConstantTable, WeightTable};
use std::alloc::Global;
use std::process::Abort;
use std::sync::Wait;
use std::test::Fail;
use std::thread::Threads;

/// Returns parameters of one column, two rows and two bands.
fn params_of(
    rt: &impl Abort,
    bits: u32,
    previous: u32,
    start: WeightStart,
    coder: Coder,
) -> Params {
    Params {
        previous,
        start,
        coder,
        ..Params::plain(
            Shape::new(1, 2, 2).expect(rt, "a shape"),
            Kind::new(false, bits).expect(rt, "a kind"),
        )
    }
}

/// Returns the sample-adaptive coder with this accumulator initialization.
fn by_samples(start: CountStart) -> Coder {
    Coder::Sample {
        umax: 16,
        gamma_star: 6,
        gamma_zero: 1,
        start,
    }
}

/// Asserts that two predictors with a band each make this file of four samples.
fn makes<R: Threads + Wait + Sync + Abort>(
    rt: &R,
    alloc: Global,
    params: &Params,
    samples: &[u8],
    file: &[u8],
) -> Result<(), Fail> {
    for slots in [1, 8] {
        same_piped(
            rt,
            &made_of(rt, alloc, params, samples, slots)?,
            file,
            &[2, 2],
        );
    }
    Ok(())
}

/// Encodes four samples with two predictors and lanes of `slots` slots.
fn made_of<R: Threads + Wait + Sync + Abort>(
    rt: &R,
    alloc: Global,
    params: &Params,
    samples: &[u8],
    slots: u32,
) -> Result<Piped, Fault> {
    let cube = Cube::from_raw(alloc, params.shape, params.kind, BYTES, samples)?;
    let plan = plan_of(rt, alloc, params, 2, &[0, 1], slots)?;
    encode_predicted(rt, alloc, &cube, &plan, &OpenGate)
}

/// Starts the weight of the second band from a table.
#[test]
fn one_weight(rt: HostRuntime) -> Result<(), Fail> {
    let alloc = rt.alloc();
    let start = WeightStart::Table {
        q: 3,
        values: WeightTable::new(Vec::from_slice(alloc, &[-1])?),
    };
    let params = params_of(&rt, 8, 1, start, by_samples(CountStart::Constant(3)));
    let file = [
        0x00, 0x00, 0x01, 0x00, 0x02, 0x00, 0x02, 0x11, 0x00, 0x00, 0x08, 0x00, // the image part
        0x06, 0xA0, 0x92, 0x59, 0x63, // the predictor part
        0xE0, // the table: -1 in three bits
        0x82, 0x26, // the coder part
        0x37, 0x2D, 0x8C, 0x70,
    ];
    makes(&rt, alloc, &params, &[100, 110, 50, 60], &file)
}

/// Starts the accumulator of each band from a constant of its own.
#[test]
fn two_constants(rt: HostRuntime) -> Result<(), Fail> {
    let alloc = rt.alloc();
    let table = ConstantTable::new(Vec::from_slice(alloc, &[3, 0])?);
    let coder = by_samples(CountStart::Each(table));
    let params = params_of(&rt, 8, 0, WeightStart::Usual, coder);
    let file = [
        0x00, 0x00, 0x01, 0x00, 0x02, 0x00, 0x02, 0x11, 0x00, 0x00, 0x08, 0x00, // the image part
        0x02, 0xA0, 0x92, 0x59, 0x00, // the predictor part
        0x82, 0x3F, // the coder part
        0x30, // the table: 3 and 0
        0x90, 0x80, 0x08,
    ];
    makes(&rt, alloc, &params, &[200, 200, 128, 128], &file)
}

/// Encodes four 2-bit samples, all at the middle, as one zero block.
#[test]
fn a_restricted_block(rt: HostRuntime) -> Result<(), Fail> {
    let coder = Coder::Block {
        size: 8,
        restricted: true,
        reference: 1,
    };
    let params = params_of(&rt, 2, 0, WeightStart::Usual, coder);
    let file = [
        0x00, 0x00, 0x01, 0x00, 0x02, 0x00, 0x02, 0x05, 0x00, 0x00, 0x0C, 0x00, // the image part
        0x02, 0xA0, 0x92, 0x59, 0x00, // the predictor part
        0x10, 0x01, // the coder part
        0x20,
    ];
    makes(&rt, rt.alloc(), &params, &[2, 2, 2, 2], &file)
}
