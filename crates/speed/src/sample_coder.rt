//! The speed of the sample-adaptive coder.

ghost use Rattle.std.specs.Prelude.{◌≡◌, ◌≤◌, IfOk, IfErr};
ghost use Rattle.file_format.specs.File.{filled};
ghost use Rattle.cube_core.specs.declared.fault.Fault.TheVariants.{WantOfMemory};
ghost use Rattle.header_bits.specs.Bits.{bits_of_bytes};
ghost use Rattle.sample_adaptive.specs.Settings.{AreForSamples};
ghost use Rattle.speed.specs.Bodies.{AreOfBits, one_band_body};
ghost use Rattle.speed.specs.Measured.{coder_alone};

use crate::report::Report;
use crate::synthetic::{mixed, residuals, sum_of_bytes};
use anyhow::Result;
use cube_core::fault::Fault;
use cube_core::kind::Kind;
use cube_core::shape::Shape;
use header_bits::bit_reader::BitReader;
use header_bits::bit_writer::BitWriter;
use header_bits::params::{Coder, CountStart, Params};
use sample_adaptive::stats::Stats;
use std::alloc::Global;

/// The greatest number of twelve bits.
const MOST: u16 = 4095;

/// Measures `put` and `get` on the numbers of one band.
pub fn measure(report: &Report) -> Result<()> {
    let shape = report.shape()?;
    let kind = Kind::new(false, 12)?;
    let numbers = residuals(report.alloc(), shape.sample_count())?;
    coded(report, &params(shape, kind), &numbers)
}

/// Measures how numbers are written as the parameters say, and read.
fn coded(report: &Report, params: &Params, numbers: &[u16]) -> Result<()>
    requires lawful { AreForSamples params.now }
    requires bits { params.now.kind.bits ≡ 12 }
    requires bands { 1 ≤ params.now.shape.bands }
{
    let start = report.start()?;
    let body = encoded(report.alloc(), params, numbers)?;
    let time = report.since(start)?;
    let count = params.shape.sample_count();
    report.line("sample_encode", count, time, sum_of_bytes(&body))?;
    decode(report, params, count, &body)
}

/// Parameters for samples of twelve bits.
fn params(shape: Shape, kind: Kind) -> Params
    requires { kind.bits ≡ 12 }
    ensures value { result ≡ coder_alone shape kind (Coder.Sample 18 6 1 (CountStart.Constant 5)) }
    ensures lawful { AreForSamples result }
    ensures bands { 1 ≤ result.shape.bands }
{
    let _bands = shape.bands();
    Params {
        coder: Coder::Sample {
            umax: 18,
            gamma_star: 6,
            gamma_zero: 1,
            start: CountStart::Constant(5),
        },
        ..Params::plain(shape, kind)
    }
}

/// The code words of numbers of twelve bits, all of the first band, in whole bytes.
fn encoded(alloc: Global, params: &Params, numbers: &[u16]) -> Result<Vec<u8>, Fault>
    requires lawful { AreForSamples params.now }
    requires bits { params.now.kind.bits ≡ 12 }
    requires bands { 1 ≤ params.now.shape.bands }
    ensures body { IfOk result (λ body. AreOfBits 12 numbers.now → bits_of_bytes body.items ≡ filled 1 (one_band_body params.now numbers.now)) }
    ensures refused { IfErr result (λ e. e ≡ WantOfMemory) }
{
    let mut stats = Stats::new(alloc, params)?;
    let mut writer = BitWriter::new(alloc);
    for (t, number) in numbers.iter().enumerate() {
        // `put` requires a number below 2^D; all are, so this never ends the loop.
        if *number > MOST {
            break;
        }
        stats.put(0, t as u64, *number, &mut writer)?;
    }
    whole_bytes(writer)
}

/// Measures how numbers are read.
fn decode(report: &Report, params: &Params, count: u64, body: &[u8]) -> Result<()>
    requires lawful { AreForSamples params.now }
    requires bands { 1 ≤ params.now.shape.bands }
{
    // A reader takes at most 2^60 bytes; a body is far shorter than 2^40.
    let body = &body[..body.len().min(1 << 40)];
    let start = report.start()?;
    let mut stats = Stats::new(report.alloc(), params)?;
    let mut reader = BitReader::new(body);
    let mut sum = 0;
    for t in 0..count {
        sum = mixed(sum, u64::from(stats.get(0, t, &mut reader)?));
    }
    let time = report.since(start)?;
    report.line("sample_decode", count, time, sum)
}

/// The bytes of a writer, with zeros that fill the last.
pub fn whole_bytes(mut writer: BitWriter) -> Result<Vec<u8>, Fault>
    ensures filled { IfOk result (λ bytes. bits_of_bytes bytes.items ≡ filled 1 writer.bits) }
    ensures refused { IfErr result (λ e. e ≡ WantOfMemory) }
{
    let over = (writer.bit_count() % 8) as u32;
    writer.push(0, (8 - over) % 8)?;
    Ok(writer.into_bytes())
}
