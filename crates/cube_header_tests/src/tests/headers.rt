//! Tests of writing and reading headers, and of their refusals.

ghost use Rattle.std.specs.Prelude.{◌<◌};
ghost use Rattle.header_bits.specs.Lawful.{IsLawful};

use crate::tests::checks::same;
use cube_core::fault::{Fault, Field, Rule};
use cube_core::kind::Kind;
use cube_core::shape::Shape;
use header_bits::bit_reader::BitReader;
use header_bits::bit_writer::BitWriter;
use header_bits::header::{put_header, read_header, take_header, write_header};
use header_bits::params::Params;
use std::alloc::Global;
use std::process::Abort;

/// The header of a cube of one 8-bit sample.
const ONE_SAMPLE: [u8; 19] = [
    0x00, // user data
    0x00, 0x01, 0x00, 0x01, 0x00, 0x01, // one column, row and band
    0x11, // unsigned, eight bits, band sequential
    0x00, 0x00, // no interleaving depth
    0x08, 0x00, // words of one byte, the sample-adaptive coder
    0x02, // no previous bands, reduced mode
    0xA0, // column-oriented sums, a register of 32 bits
    0x92, 0x59, // weight resolution 13, an interval of 2^6, exponents -1 and 3
    0x00, // default weight initialization
    0x82, 0x26, // U_max 16, γ* 6, γ₀ 1, constant 3
];

/// Returns the parameters of that header.
fn one_sample(rt: &impl Abort) -> Params
    ensures { IsLawful result }
{
    let shape = Shape::new(1, 1, 1).expect(rt, "a shape");
    let kind = Kind::new(false, 8).expect(rt, "a kind");
    let params = Params::plain(shape, kind);
    assert!(rt; params.check().is_ok());
    params
}

#[test]
fn one_sample_is_written(rt: HostRuntime) {
    let params = one_sample(&rt);
    let bytes = write_header(rt.alloc(), &params).expect(&rt, "memory");
    same(&rt, bytes.as_slice(), ONE_SAMPLE.as_slice());
}

/// Returns a byte of ones, followed by the header.
fn after_ones(rt: &impl Abort, alloc: Global) -> Vec<u8> {
    let params = one_sample(rt);
    let mut writer = BitWriter::new(alloc);
    writer.push(0xFF, 8).expect(rt, "memory");
    put_header(&params, &mut writer).expect(rt, "memory");
    assert!(rt; writer.bit_count() == 160);
    writer.into_bytes()
}

#[test]
fn a_header_is_put_after_other_bits(rt: HostRuntime) {
    let bytes = after_ones(&rt, rt.alloc());
    same(
        &rt,
        bytes.as_slice().split_first(),
        Some((&0xFF, ONE_SAMPLE.as_slice())),
    );
}

#[test]
fn any_depth_is_read_and_zeros_are_written(rt: HostRuntime) {
    let mut bytes = ONE_SAMPLE;
    bytes[8] = 0x12;
    bytes[9] = 0x34;
    let (params, size) = read_header(rt.alloc(), &bytes).expect(&rt, "a header");
    same(&rt, size, 19);
    same(&rt, params.shape.columns(), 1);
    same(&rt, params.vmin, -1);
    let again = write_header(rt.alloc(), &params).expect(&rt, "memory");
    same(&rt, again.as_slice(), ONE_SAMPLE.as_slice());
}

/// Returns the fault that the header is refused for once its byte `at` is replaced.
fn refusal(alloc: Global, at: usize, byte: u8) -> Option<Fault>
    requires { at < 19 }
{
    let mut bytes = ONE_SAMPLE;
    bytes[at] = byte;
    read_header(alloc, &bytes).err()
}

#[test]
fn refused_headers(rt: HostRuntime) {
    let alloc = rt.alloc();
    same(
        &rt,
        refusal(alloc, 11, 0x01),
        Some(Fault::Reserved { bit: 95 }),
    );
    let rule = Rule::DefaultWithTable;
    same(
        &rt,
        refusal(alloc, 16, 0x20),
        Some(Fault::Disagree { rule }),
    );
    same(
        &rt,
        refusal(alloc, 16, 0x80),
        Some(Fault::Reserved { bit: 128 }),
    );
    let umax = Fault::FieldRange {
        field: Field::Umax,
        value: 7,
    };
    same(&rt, refusal(alloc, 17, 0x3A), Some(umax));
}

#[test]
fn a_header_cut_short(rt: HostRuntime) {
    same(
        &rt,
        read_header(rt.alloc(), &ONE_SAMPLE[..18]).err(),
        Some(Fault::ShortHeader),
    );
}

#[test]
fn a_header_is_taken_off_a_reader(rt: HostRuntime) {
    let mut bytes = [0xFF; 20];
    bytes[1..].copy_from_slice(&ONE_SAMPLE);
    let mut reader = BitReader::new(&bytes);
    same(&rt, reader.take(8), Ok(0xFF));
    let params = take_header(rt.alloc(), &mut reader).expect(&rt, "a header");
    same(&rt, params.vmax, 3);
    same(&rt, reader.left(), 0);
}

#[test]
fn a_refused_header_is_not_taken(rt: HostRuntime) {
    let mut reader = BitReader::new(&ONE_SAMPLE[..18]);
    same(
        &rt,
        take_header(rt.alloc(), &mut reader).err(),
        Some(Fault::ShortHeader),
    );
    same(&rt, reader.left(), 144);
}

#[test]
fn refused_parameters(rt: HostRuntime) {
    let mut params = one_sample(&rt);
    params.vmin = -7;
    let least = Fault::FieldRange {
        field: Field::VMin,
        value: -7,
    };
    same(&rt, params.check(), Err(least));
    params.vmin = 3;
    params.vmax = 2;
    let rule = Rule::ExponentOrder;
    same(&rt, params.check(), Err(Fault::Disagree { rule }));
}
