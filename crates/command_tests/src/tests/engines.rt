//! Tests of the engines of `compress`, `expand` and `inspect` on sources and sinks over memory.

ghost use Rattle.std.specs.Prelude.{◌<◌};
ghost use Rattle.cube_core.specs.Layout.{IsLayout};

use super::support::{
    ONE_BYTE, TWO_BYTES, TWO_EQUAL_FILE, compressed, expanded, inspected, one_band, sink, two_equal,
};
use crate::tests::checks::same;
use ccsds_command::compress::run_compress;
use ccsds_command::expand::run_expand;
use ccsds_command::inspect::run_inspect;
use command_devices::cut::{CutSink, CutSource};
use cube_core::fault::{Fault, Rule};
use cube_core::layout::Layout;
use std::alloc::Global;
use std::process::Abort;

/// The file of two rows and two bands: 4, 0, 0, 0 in 11 bits, with a register of 32 bits that wraps.
const REGISTER_WRAPS: [u8; 26] = [
    0x00, 0x00, 0x01, 0x00, 0x02, 0x00, 0x02, 0x17, 0x00, 0x00, 0x08, 0x00, 0x06, 0xA0, 0xF2, 0x59,
    0x00, 0x82, 0x26, // the header
    0xFE, 0xE8, 0x00, 0xE0, 0x00, 0x1F, 0xFC,
];

#[test]
fn two_equal_samples_are_compressed(rt: HostRuntime) {
    let settings = two_equal(&rt);
    let file = compressed(rt.alloc(), &settings, &[0xC8, 0xC8]).expect(&rt, "no refusal");
    same(&rt, file.as_slice(), TWO_EQUAL_FILE.as_slice());
}

/// Asserts that raw bytes are refused for their length by the settings of two equal samples.
fn has_wrong_length(rt: &impl Abort, alloc: Global, raw: &[u8], had: u64) {
    let answer = compressed(alloc, &two_equal(rt), raw);
    same(rt, answer.err(), Some(Fault::RawLength { wanted: 2, had }));
}

#[test]
fn raw_bytes_of_a_wrong_length_are_refused(rt: HostRuntime) {
    has_wrong_length(&rt, rt.alloc(), &[], 0);
    has_wrong_length(&rt, rt.alloc(), &[0xC8], 1);
    has_wrong_length(&rt, rt.alloc(), &[0xC8; 3], 3);
    has_wrong_length(&rt, rt.alloc(), &[0xC8; 9], 3);
}

#[test]
fn a_sample_out_of_range_is_refused(rt: HostRuntime) {
    let settings = one_band(&rt, 2, 1, 11, TWO_BYTES);
    let answer = compressed(rt.alloc(), &settings, &[0x07, 0xFF, 0x08, 0x00]);
    same(&rt, answer.err(), Some(Fault::SampleRange { index: 1 }));
}

/// Asserts that parameters that break a rule are refused before anything is read.
fn breaks(rt: &impl Abort, alloc: Global, reduced: bool, column: bool, rule: Rule) {
    let mut settings = two_equal(rt);
    settings.params.reduced = reduced;
    settings.params.column = column;
    // Its first call would fail.
    let mut source = CutSource::new(&[0xC8, 0xC8], 1, Some(0));
    let mut sink = sink(rt, alloc, 100, None);
    let answer = run_compress(alloc, &mut source, &mut sink, &settings);
    same(rt, answer, Err(Fault::Disagree { rule }));
    assert!(rt; sink.taken().is_empty());
}

#[test]
fn parameters_are_refused_before_anything_is_read(rt: HostRuntime) {
    breaks(&rt, rt.alloc(), true, false, Rule::NeighbourOneColumn);
    breaks(&rt, rt.alloc(), false, true, Rule::FullOneColumn);
}

/// Asserts that a file is expanded to these bytes.
fn expands(rt: &impl Abort, alloc: Global, layout: &Layout, file: &[u8], raw: &[u8])
    requires { IsLayout layout.now }
{
    let found = expanded(alloc, layout, file).expect(rt, "no refusal");
    same(rt, found.as_slice(), raw);
}

#[test]
fn two_equal_samples_are_expanded(rt: HostRuntime) {
    expands(&rt, rt.alloc(), &ONE_BYTE, &TWO_EQUAL_FILE, &[0xC8, 0xC8]);
}

#[test]
fn samples_of_eleven_bits_are_expanded(rt: HostRuntime) {
    let file = &REGISTER_WRAPS;
    expands(&rt, rt.alloc(), &ONE_BYTE, file, &[4, 0, 0, 0]);
    expands(&rt, rt.alloc(), &TWO_BYTES, file, &[0, 4, 0, 0, 0, 0, 0, 0]);
    let little = Layout {
        little: true,
        ..TWO_BYTES
    };
    expands(&rt, rt.alloc(), &little, file, &[4, 0, 0, 0, 0, 0, 0, 0]);
}

/// Asserts that the first `length` bytes of the file of two equal samples are refused for this fault.
fn is_no_file(rt: &impl Abort, alloc: Global, length: usize, fault: Fault) {
    let file = TWO_EQUAL_FILE.get(..length).unwrap_or(&[]);
    same(rt, expanded(alloc, &ONE_BYTE, file).err(), Some(fault));
}

#[test]
fn a_cut_file_is_refused(rt: HostRuntime) {
    is_no_file(&rt, rt.alloc(), 0, Fault::ShortHeader);
    is_no_file(&rt, rt.alloc(), 18, Fault::ShortHeader);
    is_no_file(&rt, rt.alloc(), 20, Fault::Truncated { bit: 160 });
    let file = TWO_EQUAL_FILE.get(..11).unwrap_or(&[]);
    let told = inspected(rt.alloc(), file);
    same(&rt, told.err(), Some(Fault::ShortHeader));
}

#[test]
fn a_sample_too_large_for_its_byte_is_refused(rt: HostRuntime) {
    let settings = one_band(&rt, 2, 1, 9, TWO_BYTES);
    let raw = [0x00, 0xFF, 0x01, 0x00];
    let file = compressed(rt.alloc(), &settings, &raw).expect(&rt, "no refusal");
    let answer = expanded(rt.alloc(), &ONE_BYTE, &file);
    same(&rt, answer.err(), Some(Fault::SampleRange { index: 1 }));
}

#[test]
fn compress_reports_a_failing_source(rt: HostRuntime) {
    let settings = two_equal(&rt);
    for call in 0..3 {
        let mut sink = sink(&rt, rt.alloc(), 100, None);
        let mut raw = CutSource::new(&[0xC8, 0xC8], 1, Some(call));
        let answer = run_compress(rt.alloc(), &mut raw, &mut sink, &settings);
        same(&rt, answer, Err(Fault::Read));
        assert!(rt; sink.taken().is_empty());
    }
}

#[test]
fn expand_reports_a_failing_source(rt: HostRuntime) {
    for call in 0..3 {
        let mut sink = sink(&rt, rt.alloc(), 100, None);
        let mut file = CutSource::new(&TWO_EQUAL_FILE, 1, Some(call));
        let answer = run_expand(rt.alloc(), &mut file, &mut sink, &ONE_BYTE);
        same(&rt, answer, Err(Fault::Read));
        assert!(rt; sink.taken().is_empty());
    }
}

#[test]
fn inspect_reports_a_failing_source(rt: HostRuntime) {
    for call in 0..3 {
        let mut sink = sink(&rt, rt.alloc(), 100, None);
        let mut file = CutSource::new(&TWO_EQUAL_FILE, 1, Some(call));
        let answer = run_inspect(rt.alloc(), &mut file, &mut sink);
        same(&rt, answer, Err(Fault::Read));
        assert!(rt; sink.taken().is_empty());
    }
}

/// Compresses two equal samples into a sink, and returns the result.
fn two_equal_into(rt: &impl Abort, alloc: Global, sink: &mut CutSink) -> Result<(), Fault> {
    let mut source = CutSource::new(&[0xC8, 0xC8], 1, None);
    run_compress(alloc, &mut source, sink, &two_equal(rt))
}

/// Asserts that a sink whose call `call` fails has `written` bytes, and that this number is reported.
fn stops_at(rt: &impl Abort, alloc: Global, piece: usize, call: u64, written: u64)
    requires { 0 < piece }
{
    let mut sink = sink(rt, alloc, piece, Some(call));
    let answer = two_equal_into(rt, alloc, &mut sink);
    same(rt, answer, Err(Fault::Write { written }));
    let front = TWO_EQUAL_FILE.get(..written as usize);
    same(rt, Some(sink.taken()), front);
}

#[test]
fn failing_sinks_have_what_went_out(rt: HostRuntime) {
    stops_at(&rt, rt.alloc(), 1, 5, 5);
    stops_at(&rt, rt.alloc(), 4, 2, 8);
    stops_at(&rt, rt.alloc(), 1, 0, 0);
    stops_at(&rt, rt.alloc(), 100, 0, 0);
}

#[test]
fn pieces_of_one_byte_change_nothing(rt: HostRuntime) {
    let mut sink = sink(&rt, rt.alloc(), 1, None);
    let answer = two_equal_into(&rt, rt.alloc(), &mut sink);
    same(&rt, answer, Ok(()));
    same(&rt, sink.taken(), TWO_EQUAL_FILE.as_slice());
}
