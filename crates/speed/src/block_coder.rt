//! The speed of the block-adaptive coder.

ghost use Rattle.std.specs.Prelude.{◌≡◌, ◌≤◌, ◌%◌, ◌^◌, IfOk, IfErr, length, map};
ghost use Rattle.cube_core.specs.declared.fault.Fault.TheVariants.{WantOfMemory};
ghost use Rattle.cube_core.specs.Shape.{sample_count};
ghost use Rattle.block_adaptive.specs.Settings.{AreForBlocks, IsSize};
ghost use Rattle.file_format.specs.File.{body_of, filled};
ghost use Rattle.header_bits.specs.Bits.{bits_of_bytes};
ghost use Rattle.speed.specs.Bodies.{AreOfBits};
ghost use Rattle.speed.specs.Measured.{coder_alone};

use crate::report::Report;
use crate::sample_coder::whole_bytes;
use crate::synthetic::{mixed, residuals, sum_of_bytes};
use anyhow::Result;
use block_adaptive::block_reader::BlockReader;
use block_adaptive::block_writer::BlockWriter;
use cube_core::fault::Fault;
use cube_core::kind::Kind;
use cube_core::shape::Shape;
use header_bits::bit_reader::BitReader;
use header_bits::bit_writer::BitWriter;
use header_bits::params::{Coder, Params};
use std::alloc::{AllocError, Global};

/// Measures the writer and the reader of blocks of each size, and of the restricted set of code options
/// for numbers of four bits and of two.
pub fn measure(report: &Report) -> Result<()> {
    let shape = report.shape()?;
    let numbers = residuals(report.alloc(), shape.sample_count())?;
    of_size(report, "8", shape, 8, &numbers)?;
    of_size(report, "16", shape, 16, &numbers)?;
    of_size(report, "32", shape, 32, &numbers)?;
    of_size(report, "64", shape, 64, &numbers)?;
    restricted(report, "restricted_4", shape, 4, &numbers)?;
    restricted(report, "restricted_2", shape, 2, &numbers)
}

/// Measures blocks of this size, by numbers of twelve bits.
fn of_size(report: &Report, name: &str, shape: Shape, size: u32, numbers: &[u16]) -> Result<()>
    requires size { IsSize size }
    requires count { length numbers.now ≡ sample_count shape }
{
    let kind = Kind::new(false, 12)?;
    coded(report, name, &params(shape, kind, size, false), numbers)
}

/// Measures the restricted set of code options, by the low bits of numbers.
fn restricted(report: &Report, name: &str, shape: Shape, bits: u32, numbers: &[u16]) -> Result<()>
    requires { length numbers.now ≡ sample_count shape }
{
    let kind = Kind::new(false, bits)?;
    let low = low_bits(report.alloc(), numbers, kind)?;
    coded(report, name, &params(shape, kind, 16, true), &low)
}

/// As many of the low bits of numbers as a sample has.
fn low_bits(alloc: Global, numbers: &[u16], kind: Kind) -> Result<Vec<u16>, AllocError>
    ensures { IfOk result (λ v. v.items ≡ map (λ n. n % 2 ^ kind.bits) numbers.now) }
{
    let bits = kind.bits();
    let mut low = Vec::new(alloc);
    for number in numbers {
        let rest = u32::from(*number) % (1 << bits);
        low.push(rest as u16)?;
    }
    Ok(low)
}

/// Parameters of blocks of this size, in the full or the restricted set of code options.
fn params(shape: Shape, kind: Kind, size: u32, restricted: bool) -> Params
    requires size { IsSize size }
    ensures value { result ≡ coder_alone shape kind (Coder.Block size restricted 4096) }
    ensures lawful { AreForBlocks result }
{
    let _bits = kind.bits();
    Params {
        coder: Coder::Block {
            size,
            restricted,
            reference: 4096,
        },
        ..Params::plain(shape, kind)
    }
}

/// Measures how numbers are written in blocks as the parameters say, and read.
fn coded(report: &Report, name: &str, params: &Params, numbers: &[u16]) -> Result<()>
    requires lawful { AreForBlocks params.now }
    requires count { length numbers.now ≡ sample_count params.now.shape }
{
    let start = report.start()?;
    let body = encoded(report.alloc(), params, numbers)?;
    let time = report.since(start)?;
    let sum = sum_of_bytes(&body);
    let line = format!(in report.alloc(); "block_encode_{name}")?;
    report.line(line.as_str(), numbers.len() as u64, time, sum)?;
    decode(report, name, params, &body)
}

/// The body of numbers of as many bits as the samples have, in whole bytes.
fn encoded(alloc: Global, params: &Params, numbers: &[u16]) -> Result<Vec<u8>, Fault>
    requires lawful { AreForBlocks params.now }
    requires count { length numbers.now ≡ sample_count params.now.shape }
    ensures body { IfOk result (λ body. AreOfBits params.now.kind.bits numbers.now → bits_of_bytes body.items ≡ filled 1 (body_of params.now numbers.now)) }
    ensures refused { IfErr result (λ e. e ≡ WantOfMemory) }
{
    let bits = params.kind.bits();
    let mut blocks = BlockWriter::new(params);
    let mut writer = BitWriter::new(alloc);
    for number in numbers {
        // `put` requires a number below 2^D; all are, so this never ends the loop.
        if u32::from(*number) >= 1 << bits {
            break;
        }
        blocks.put(*number, &mut writer)?;
    }
    blocks.end(&mut writer)?;
    whole_bytes(writer)
}

/// Measures how the numbers are read.
fn decode(report: &Report, name: &str, params: &Params, body: &[u8]) -> Result<()>
    requires { AreForBlocks params.now }
{
    // A reader takes at most 2^60 bytes; a body is far shorter than 2^40.
    let body = &body[..body.len().min(1 << 40)];
    let count = params.shape.sample_count();
    let start = report.start()?;
    let mut blocks = BlockReader::new(params);
    let mut reader = BitReader::new(body);
    let mut sum = 0;
    for _number in 0..count {
        sum = mixed(sum, u64::from(blocks.next(&mut reader)?));
    }
    let time = report.since(start)?;
    let line = format!(in report.alloc(); "block_decode_{name}")?;
    report.line(line.as_str(), count, time, sum)
}
