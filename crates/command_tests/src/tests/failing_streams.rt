//! Tests of sources and sinks over readers and writers that fail once, and that count their calls.

use crate::tests::checks::same;
use ccsds_command::show::run_show;
use command_devices::cut::{CutSink, CutSource};
use command_devices::device::{InputDevice, OutputDevice};
use command_devices::sink::Sink;
use command_devices::source::{Failed, Source};
use command_devices::stream::{ReaderSource, WriterSink};
use cube_core::fault::Fault;
use std::io::{self, Error, ErrorKind};
use std::test::Fail;

/// The input of `show` for two samples of 200, one row below the other.
const TWO_EQUAL: [u8; 8] = [0, 1, 0, 2, 0, 1, 0xC8, 0xC8];

/// A reader that returns the bytes of `TWO_EQUAL` one by one. One of its calls fails.
#[derive(Drop)]
struct OneByOne {
    given: usize,
    calls: u64,
    fail_at: u64,
    kind: ErrorKind,
}

impl OneByOne {
    fn failing(fail_at: u64, kind: ErrorKind) -> OneByOne {
        OneByOne {
            given: 0,
            calls: 0,
            fail_at,
            kind,
        }
    }
}

impl InputDevice for OneByOne {
    fn read(&mut self, buffer: &mut [u8]) -> io::Result<usize> {
        let call = self.calls;
        self.calls = call.saturating_add(1);
        if call == self.fail_at {
            return Err(Error::from(self.kind));
        }
        if self.given >= TWO_EQUAL.len() || buffer.is_empty() {
            return Ok(0);
        }
        buffer[0] = TWO_EQUAL[self.given];
        self.given += 1;
        Ok(1)
    }
}

/// A writer that takes at most two bytes of a piece. One of its calls fails, and one takes nothing.
#[derive(Drop)]
struct TwoByTwo {
    taken: u64,
    calls: u64,
    fail_at: u64,
    stall_at: u64,
}

impl TwoByTwo {
    fn failing(fail_at: u64, stall_at: u64) -> TwoByTwo {
        TwoByTwo {
            taken: 0,
            calls: 0,
            fail_at,
            stall_at,
        }
    }
}

impl OutputDevice for TwoByTwo {
    fn write(&mut self, piece: &[u8]) -> io::Result<usize> {
        let call = self.calls;
        self.calls = call.saturating_add(1);
        if call == self.fail_at {
            return Err(Error::from(ErrorKind::Interrupted));
        }
        if call == self.stall_at {
            return Ok(0);
        }
        let taken = piece.len().min(2);
        self.taken = self.taken.saturating_add(taken as u64);
        Ok(taken)
    }
}

#[test]
fn a_read_asks_the_reader_once_and_answers_as_it_did(rt: HostRuntime) {
    let kinds = [
        ErrorKind::Interrupted,
        ErrorKind::WouldBlock,
        ErrorKind::UnexpectedEof,
        ErrorKind::Other,
    ];
    for kind in kinds {
        for fail_at in 0..10 {
            let mut source = ReaderSource::new(OneByOne::failing(fail_at, kind));
            let mut given = 0;
            for call in 0..10 {
                let mut buffer = [0; 4];
                let answer = source.read(&mut buffer);
                if call == fail_at {
                    same(&rt, answer, Err(Failed));
                } else if given < TWO_EQUAL.len() {
                    same(&rt, answer, Ok(1));
                    same(&rt, buffer[0], TWO_EQUAL[given]);
                    given += 1;
                } else {
                    same(&rt, answer, Ok(0));
                }
                same(&rt, source.reader().calls, call + 1);
            }
        }
    }
}

#[test]
fn a_write_asks_the_writer_once_and_answers_as_it_did(rt: HostRuntime) {
    for (fail_at, stall_at) in [(0, 1), (1, 0), (2, 3), (3, 4), (9, 9)] {
        for calls in 0..6 {
            let mut sink = WriterSink::new(TwoByTwo::failing(fail_at, stall_at));
            let mut taken = 0u64;
            for call in 0..calls {
                let answer = sink.write(&[1, 2, 3]);
                if call == fail_at {
                    same(&rt, answer, Err(Failed));
                } else if call == stall_at {
                    same(&rt, answer, Ok(0));
                } else {
                    same(&rt, answer, Ok(2));
                    taken = taken.saturating_add(2);
                }
            }
            let writer = sink.into_writer();
            same(&rt, (writer.calls, writer.taken), (calls, taken));
        }
    }
}

#[test]
fn a_reader_that_fails_once_ends_a_command(rt: HostRuntime) -> Result<(), Fail> {
    for fail_at in 0..9 {
        let reader = OneByOne::failing(fail_at, ErrorKind::Interrupted);
        let mut source = ReaderSource::new(reader);
        let mut sink = CutSink::new(rt.alloc(), 100, 100, None)?;
        let answer = run_show(rt.alloc(), &mut source, &mut sink);
        same(&rt, answer, Err(Fault::Read));
        same(&rt, source.reader().calls, fail_at + 1);
        assert!(rt; sink.taken().is_empty());
    }
    Ok(())
}

#[test]
fn a_writer_that_fails_or_stalls_once_ends_a_command(rt: HostRuntime) {
    for call in 0..22 {
        for writer in [TwoByTwo::failing(call, 99), TwoByTwo::failing(99, call)] {
            let mut source = CutSource::new(&TWO_EQUAL, 100, None);
            let mut sink = WriterSink::new(writer);
            let answer = run_show(rt.alloc(), &mut source, &mut sink);
            let written = 2 * call;
            same(&rt, answer, Err(Fault::Write { written }));
            let writer = sink.into_writer();
            same(&rt, (writer.calls, writer.taken), (call + 1, written));
        }
    }
}
