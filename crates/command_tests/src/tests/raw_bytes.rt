//! Tests of raw bytes that come and go piece by piece, in every layout.

ghost use Rattle.std.specs.Prelude.{◌<◌};
ghost use Rattle.cube_core.specs.Layout.{IsLayout};

use super::support::{ONE_BYTE, expanded, sink};
use crate::tests::checks::same;
use ccsds_command::compress::run_compress;
use ccsds_command::expand::run_expand;
use command_devices::cut::{CutSink, CutSource};
use command_words::settings::CompressSettings;
use cube_core::fault::Fault;
use cube_core::kind::Kind;
use cube_core::layout::{Layout, RawOrder};
use cube_core::shape::Shape;
use header_bits::params::Params;
use std::alloc::Global;
use std::process::Abort;

/// The sample 100z + 10y + x at each place of three columns, two rows and two bands: band after band, line after line, and pixel after pixel.
const SCENES: [(RawOrder, [u8; 12]); 3] = [
    (
        RawOrder::Bsq,
        [0, 1, 2, 10, 11, 12, 100, 101, 102, 110, 111, 112],
    ),
    (
        RawOrder::Bil,
        [0, 1, 2, 100, 101, 102, 10, 11, 12, 110, 111, 112],
    ),
    (
        RawOrder::Bip,
        [0, 100, 1, 101, 2, 102, 10, 110, 11, 111, 12, 112],
    ),
];

/// Returns the settings of such a scene, of seven bits in one byte.
fn settings_of(rt: &impl Abort, order: RawOrder) -> CompressSettings
    ensures { IsLayout result.layout }
{
    let shape = Shape::new(3, 2, 2).expect(rt, "a shape");
    let kind = Kind::new(false, 7).expect(rt, "a kind");
    CompressSettings {
        params: Params::plain(shape, kind),
        layout: Layout { order, ..ONE_BYTE },
        predictors: 0,
        slots: 1024,
    }
}

/// Compresses raw bytes that come in pieces, with the call `fail_at` failing. A refusal leaves the sink empty.
fn file_of(
    rt: &impl Abort,
    alloc: Global,
    order: RawOrder,
    raw: &[u8],
    piece: usize,
    fail_at: Option<u64>,
) -> Result<Vec<u8>, Fault>
    requires { 0 < piece }
{
    let mut source = CutSource::new(raw, piece, fail_at);
    let mut sink = sink(rt, alloc, 100, None);
    let answer = run_compress(alloc, &mut source, &mut sink, &settings_of(rt, order));
    assert!(rt; answer.is_ok() || sink.taken().is_empty());
    answer?;
    Ok(Vec::from_slice(alloc, sink.taken())?)
}

/// Asserts that a scene gives this file, in pieces of `piece` bytes.
fn is_compressed(
    rt: &impl Abort,
    alloc: Global,
    order: RawOrder,
    raw: &[u8],
    piece: usize,
    file: &[u8],
)
    requires { 0 < piece }
{
    let found = file_of(rt, alloc, order, raw, piece, None).expect(rt, "no refusal");
    same(rt, found.as_slice(), file);
}

#[test]
fn a_cube_has_one_file_in_every_layout(rt: HostRuntime) {
    let alloc = rt.alloc();
    let file = file_of(&rt, alloc, SCENES[0].0, &SCENES[0].1, 100, None).expect(&rt, "no refusal");
    for (order, raw) in SCENES {
        is_compressed(&rt, alloc, order, &raw, 1, &file);
        is_compressed(&rt, alloc, order, &raw, 5, &file);
        is_compressed(&rt, alloc, order, &raw, 100, &file);
        let again = expanded(alloc, &Layout { order, ..ONE_BYTE }, &file).expect(&rt, "no refusal");
        same(&rt, again.as_slice(), raw.as_slice());
    }
}

#[test]
fn each_failing_call_is_a_read_refusal(rt: HostRuntime) {
    for (order, raw) in SCENES {
        for call in 0..13 {
            let answer = file_of(&rt, rt.alloc(), order, &raw, 1, Some(call));
            same(&rt, answer.err(), Some(Fault::Read));
        }
    }
}

/// Returns the scene with a sample of eight bits at this index.
fn with_bad_sample(raw: [u8; 12], index: usize) -> [u8; 12] {
    let mut bad = raw;
    if index < 12 {
        bad[index] = 200;
    }
    bad
}

#[test]
fn the_first_bad_sample_is_told(rt: HostRuntime) {
    for (order, raw) in SCENES {
        for index in 0..12 {
            let bad = with_bad_sample(with_bad_sample(raw, index), 11);
            let answer = file_of(&rt, rt.alloc(), order, &bad, 5, None);
            let fault = Fault::SampleRange {
                index: index as u64,
            };
            same(&rt, answer.err(), Some(fault));
        }
    }
}

#[test]
fn a_wrong_length_is_told_before_a_bad_sample(rt: HostRuntime) {
    for (order, raw) in SCENES {
        let bad = with_bad_sample(raw, 0);
        for had in 0..12 {
            let answer = file_of(&rt, rt.alloc(), order, &bad[..had], 5, None);
            let fault = Fault::RawLength {
                wanted: 12,
                had: had as u64,
            };
            same(&rt, answer.err(), Some(fault));
        }
        let long = [&bad[..], &bad[..]]
            .concat(rt.alloc())
            .expect(&rt, "memory");
        let answer = file_of(&rt, rt.alloc(), order, &long, 5, None);
        let fault = Fault::RawLength {
            wanted: 12,
            had: 13,
        };
        same(&rt, answer.err(), Some(fault));
    }
}

/// Asserts that a sink whose call `call` fails has the raw bytes of the calls before it, three in each.
fn stops_at(rt: &impl Abort, alloc: Global, order: RawOrder, raw: &[u8], file: &[u8], call: u64)
    requires { call < 4 }
{
    let mut source = CutSource::new(file, 100, None);
    let mut sink = CutSink::new(alloc, 100, 3, Some(call)).expect(rt, "memory");
    let answer = run_expand(alloc, &mut source, &mut sink, &Layout { order, ..ONE_BYTE });
    same(rt, answer, Err(Fault::Write { written: 3 * call }));
    same(rt, Some(sink.taken()), raw.get(..3 * call as usize));
}

#[test]
fn failing_sinks_have_the_raw_bytes_that_went_out(rt: HostRuntime) {
    let alloc = rt.alloc();
    let file = file_of(&rt, alloc, SCENES[0].0, &SCENES[0].1, 100, None).expect(&rt, "no refusal");
    for (order, raw) in SCENES {
        for call in 0..4 {
            stops_at(&rt, alloc, order, &raw, &file, call);
        }
    }
}
