//! Tests of reading and writing all bytes, piece by piece.

ghost use Rattle.std.specs.Prelude.{◌≡◌, ◌<◌, ◌^◌, None};

use crate::tests::checks::same;
use command_devices::cut::{CutSink, CutSource};
use command_devices::reading::{read_file, read_up_to};
use command_devices::source::{Failed, Source};
use command_devices::writing::write_all;
use cube_core::fault::Fault;
use std::alloc::Global;
use std::process::Abort;
use std::test::Fail;

const BYTES: [u8; 5] = [10, 20, 30, 40, 50];

#[test]
fn a_source_is_read_to_its_end(rt: HostRuntime) -> Result<(), Fail> {
    for piece in [1, 2, 5, 100] {
        let all = read_file(rt.alloc(), &mut CutSource::new(&BYTES, piece, None))?;
        same(&rt, all.as_slice(), BYTES.as_slice());
    }
    Ok(())
}

/// Asserts that a source with pieces of this size is read up to a limit, or to its end below it.
fn is_read_up_to(rt: &impl Abort, alloc: Global, piece: usize, limit: u64)
    requires { 0 < piece }
{
    let mut source = CutSource::new(&BYTES, piece, None);
    let front = read_up_to(alloc, &mut source, limit).expect(rt, "no refusal");
    let most = BYTES.len().min(limit as usize);
    same(rt, Some(front.as_slice()), BYTES.get(..most));
}

#[test]
fn a_source_is_read_to_a_limit(rt: HostRuntime) {
    for limit in 0..7 {
        is_read_up_to(&rt, rt.alloc(), 1, limit);
        is_read_up_to(&rt, rt.alloc(), 2, limit);
        is_read_up_to(&rt, rt.alloc(), 5, limit);
        is_read_up_to(&rt, rt.alloc(), 100, limit);
    }
}

#[test]
fn a_failing_source_is_a_read_refusal(rt: HostRuntime) {
    for call in 0..6 {
        let mut source = CutSource::new(&BYTES, 1, Some(call));
        let answer = read_file(rt.alloc(), &mut source);
        same(&rt, answer.err(), Some(Fault::Read));
    }
}

#[test]
fn a_sink_takes_all_that_it_has_room_for(rt: HostRuntime) -> Result<(), Fail> {
    let mut sink = CutSink::new(rt.alloc(), 5, 2, None)?;
    same(&rt, write_all(&mut sink, &BYTES), Ok(()));
    same(&rt, sink.taken(), BYTES.as_slice());
    Ok(())
}

#[test]
fn what_a_small_sink_took_is_reported(rt: HostRuntime) -> Result<(), Fail> {
    let mut sink = CutSink::new(rt.alloc(), 3, 2, None)?;
    let answer = write_all(&mut sink, &BYTES);
    same(&rt, answer, Err(Fault::Write { written: 2 }));
    same(&rt, Some(sink.taken()), BYTES.get(..2));
    Ok(())
}

/// The least number of bytes by which the buffer grows.
const PIECE: usize = 65_536;

/// A source of `left` bytes, which returns as many in a call as there is room for. It records whether it was ever
/// offered more room than both a piece and the bytes returned by then.
#[derive(Drop)]
struct Offered {
    left: usize,
    given: usize,
    too_much: bool,
}

impl Source for Offered {
    ghost left = { λ _. None };

    ghost failures = { λ _. 0 };

    fn read(&mut self, buffer: &mut [u8]) -> Result<usize, Failed> {
        if buffer.len() > PIECE.max(self.given) {
            self.too_much = true;
        }
        let n = buffer.len().min(self.left);
        self.left -= n;
        self.given = self.given.saturating_add(n);
        Ok(n)
    }
}

/// Asserts that all `size` bytes are read, with no more memory allocated or offered than they may take.
fn memory_grows_with(rt: &impl Abort, alloc: Global, size: usize, limit: u64)
    requires { size < 2 ^ 32 }
{
    let mut source = Offered {
        left: size,
        given: 0,
        too_much: false,
    };
    let bytes = read_up_to(alloc, &mut source, limit).expect(rt, "no refusal");
    same(rt, bytes.len(), size);
    assert!(rt; bytes.capacity() <= 2 * PIECE.max(size));
    assert!(rt; !source.too_much);
}

#[test]
fn memory_is_bounded_by_the_bytes_read(rt: HostRuntime) {
    for size in [0, 1, PIECE - 1, PIECE, PIECE + 1, 5 * PIECE] {
        for limit in [size as u64, size as u64 + 1, 1 << 25, 1 << 48] {
            memory_grows_with(&rt, rt.alloc(), size, limit);
        }
    }
}
