//! The speed of whole files, in both directions.

ghost use Rattle.std.specs.Prelude.{◌≡◌};
ghost use Rattle.header_bits.specs.Lawful.{IsLawful};

use crate::cube::sum_of_cube;
use crate::predictor::{orders, params_of, synthetic_cube};
use crate::report::Report;
use crate::synthetic::sum_of_bytes;
use anyhow::Result;
use coder_pipe::decode::decode;
use coder_pipe::encode::encode_one;
use cube_core::order::Order;
use header_bits::params::{Coder, Params};

/// The longest file that can be decoded.
const MOST_BYTES: usize = 1 << 60;

/// Measures both coders in each order, in full mode with three previous bands.
pub fn measure(report: &Report) -> Result<()> {
    let shape = report.shape()?;
    for (name, order) in orders(shape.bands()) {
        there_and_back(report, "sample", name, order, Coder::plain())?;
        let blocks = Coder::Block {
            size: 16,
            restricted: false,
            reference: 64,
        };
        there_and_back(report, "block", name, order, blocks)?;
    }
    Ok(())
}

/// Measures both directions of a coder in an order, and holds no more than either way needs.
fn there_and_back(
    report: &Report,
    coder_name: &str,
    order_name: &str,
    order: Order,
    coder: Coder,
) -> Result<()> {
    let params = params_of(report.shape()?, false, 3, order, coder)?;
    let file = there(report, coder_name, order_name, &params)?;
    back(report, coder_name, order_name, &params, &file)
}

/// Measures how a file is written, and returns it.
fn there(report: &Report, coder: &str, order: &str, params: &Params) -> Result<Vec<u8>>
    requires { IsLawful params.now }
{
    let alloc = report.alloc();
    let cube = synthetic_cube(alloc, params.shape, params.kind)?;
    let start = report.start()?;
    let file = encode_one(alloc, &cube, params)?;
    let time = report.since(start)?;
    let name = format!(in alloc; "encode_{coder}_{order}")?;
    let count = params.shape.sample_count();
    report.line(name.as_str(), count, time, sum_of_bytes(&file))?;
    Ok(file)
}

/// Measures how the file is read.
fn back(report: &Report, coder: &str, order: &str, params: &Params, file: &[u8]) -> Result<()> {
    let alloc = report.alloc();
    if file.len() > MOST_BYTES {
        return Ok(());
    }
    let start = report.start()?;
    let (_params, cube) = decode(alloc, file)?;
    let time = report.since(start)?;
    let name = format!(in alloc; "decode_{coder}_{order}")?;
    let count = params.shape.sample_count();
    report.line(name.as_str(), count, time, sum_of_cube(&cube))
}
