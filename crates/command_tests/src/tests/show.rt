//! Tests of what `show` writes, and of what it refuses.

ghost use Rattle.std.specs.Prelude.{◌≡◌, ◌<◌, [], Some};

use super::support::sink;
use crate::tests::checks::same;
use ccsds_command::show::run_show;
use command_devices::cut::{CutSink, CutSource};
use command_devices::sink::Sink;
use command_devices::source::{Failed, Source};
use command_devices::stream::{ReaderSource, WriterSink};
use cube_core::fault::Fault;
use std::alloc::Global;
use std::process::Abort;

/// The input of two samples of 200, one row below the other.
const TWO_EQUAL: [u8; 8] = [0, 1, 0, 2, 0, 1, 0xC8, 0xC8];

const TWO_EQUAL_SHOWN: &str = "00000100020001110000080002a092590082269080\n";

/// Runs `show` on an input that is read piece by piece, and returns its result.
fn shown(alloc: Global, input: &[u8], piece: usize, sink: &mut CutSink) -> Result<(), Fault>
    requires { 0 < piece }
{
    run_show(alloc, &mut CutSource::new(input, piece, None), sink)
}

/// Asserts that an input, read and written in pieces of at most `piece` bytes, is shown as this text.
fn is_shown(rt: &impl Abort, alloc: Global, input: &[u8], piece: usize, text: &str)
    requires { 0 < piece }
{
    let mut out = sink(rt, alloc, piece, None);
    same(rt, shown(alloc, input, piece, &mut out), Ok(()));
    same(rt, out.taken(), text.as_bytes());
}

#[test]
fn cubes_are_shown(rt: HostRuntime) {
    let input = [0, 1, 0, 1, 0, 1, 0xC8];
    let text = "00000100010001110000080002a0925900822690\n";
    is_shown(&rt, rt.alloc(), &input, 100, text);
    is_shown(&rt, rt.alloc(), &TWO_EQUAL, 100, TWO_EQUAL_SHOWN);
    let input = [0, 1, 0, 1, 0, 2, 0xC8, 0xC9];
    let text = "00000100010002110000080002a092590082269092\n";
    is_shown(&rt, rt.alloc(), &input, 100, text);
    let input = [0, 2, 0, 1, 0, 1, 0xC8, 0xBE];
    let text = "00000200010001110000080002a092590082269030\n";
    is_shown(&rt, rt.alloc(), &input, 100, text);
}

#[test]
fn pieces_of_one_byte_change_nothing(rt: HostRuntime) {
    is_shown(&rt, rt.alloc(), &TWO_EQUAL, 1, TWO_EQUAL_SHOWN);
}

/// Asserts that an input, in pieces of 1 and of 100 bytes, is refused for its length before anything is written.
fn has_wrong_length(rt: &impl Abort, alloc: Global, input: &[u8], wanted: u64, had: u64) {
    for piece in [1, 100] {
        let mut out = sink(rt, alloc, 100, None);
        let answer = shown(alloc, input, piece, &mut out);
        same(rt, answer, Err(Fault::RawLength { wanted, had }));
        assert!(rt; out.taken().is_empty());
    }
}

#[test]
fn wrong_lengths_are_refused(rt: HostRuntime) {
    has_wrong_length(&rt, rt.alloc(), &[], 6, 0);
    has_wrong_length(&rt, rt.alloc(), &[0, 1, 0, 1, 0], 6, 5);
    has_wrong_length(&rt, rt.alloc(), &[0, 1, 0, 1, 0, 1], 1, 0);
    has_wrong_length(&rt, rt.alloc(), &[0, 1, 0, 1, 0, 1, 0xC8, 0xC8], 1, 2);
    has_wrong_length(&rt, rt.alloc(), &[0, 1, 0, 1, 0, 1, 0xC8, 0xC8, 0xC8], 1, 2);
    has_wrong_length(&rt, rt.alloc(), &[0, 0, 0, 0, 0, 0, 0xC8], 1 << 48, 1);
}

#[test]
fn a_failing_source_is_a_read_refusal(rt: HostRuntime) {
    for call in 0..9 {
        let mut out = sink(&rt, rt.alloc(), 100, None);
        let mut source = CutSource::new(&TWO_EQUAL, 1, Some(call));
        let answer = run_show(rt.alloc(), &mut source, &mut out);
        same(&rt, answer, Err(Fault::Read));
        assert!(rt; out.taken().is_empty());
    }
}

/// Asserts that a sink whose call `call` fails has `written` bytes, and that this number is reported.
fn stops_at(rt: &impl Abort, alloc: Global, piece: usize, call: u64, written: u64)
    requires { 0 < piece }
{
    let mut out = sink(rt, alloc, piece, Some(call));
    let answer = shown(alloc, &TWO_EQUAL, 100, &mut out);
    same(rt, answer, Err(Fault::Write { written }));
    let shown = TWO_EQUAL_SHOWN.as_bytes();
    same(rt, Some(out.taken()), shown.get(..written as usize));
}

#[test]
fn a_failing_sink_has_what_went_out(rt: HostRuntime) {
    stops_at(&rt, rt.alloc(), 1, 42, 42);
    stops_at(&rt, rt.alloc(), 1, 0, 0);
    stops_at(&rt, rt.alloc(), 4, 2, 8);
    stops_at(&rt, rt.alloc(), 100, 0, 0);
}

/// A sink that takes nothing.
#[derive(Drop)]
struct StuckSink {
    stalls: u64,
}

impl Sink for StuckSink {
    ghost taken = { λ _. Some [] };

    ghost failures = { λ _. 0 };

    ghost stalls = { λ s. s.stalls };

    fn write(&mut self, piece: &[u8]) -> Result<usize, Failed> {
        if !piece.is_empty() {
            self.stalls = self.stalls.saturating_add(1);
        }
        Ok(0)
    }
}

#[test]
fn a_sink_that_takes_nothing_is_a_write_refusal(rt: HostRuntime) {
    let mut source = CutSource::new(&TWO_EQUAL, 100, None);
    let answer = run_show(rt.alloc(), &mut source, &mut StuckSink { stalls: 0 });
    same(&rt, answer, Err(Fault::Write { written: 0 }));
}

#[test]
fn streams_are_sources_and_sinks(rt: HostRuntime) {
    let mut source = ReaderSource::new(TWO_EQUAL.as_slice());
    let mut out = WriterSink::new(Vec::new(rt.alloc()));
    same(&rt, run_show(rt.alloc(), &mut source, &mut out), Ok(()));
    same(&rt, source.read(&mut [0; 4]), Ok(0));
    same(&rt, out.write(&[]), Ok(0));
}
