//! A source and a sink over memory that transfer a piece at a time and may fail once.

ghost use Rattle.std.specs.Prelude.{◌≡◌, ◌≢◌, ◌⊎◌, ◌<◌, ◌≤◌, [], Ok, Some, length, take, min, IfOk, IfErr, OnOk, OnErr};
ghost use Rattle.cube_core.specs.declared.fault.Fault.TheVariants.{WantOfMemory};
ghost use Rattle.command_devices.specs.Cut.{Giving, Taking, new_giving, new_taking, CountsGiving, CountsTaking, IsFull};
ghost use Rattle.command_devices.specs.Devices.{Gave, IsEnd, Took, Rises, CountsStall};

use crate::sink::Sink;
use crate::source::{Failed, Source};
use cube_core::fault::Fault;
use std::alloc::Global;
use std::marker::Model;

/// A source that returns bytes from memory, at most `piece` in a call; call `fail_at`, counted from 0, fails.
#[derive(Drop)]
pub struct CutSource<'a> {
    bytes: &'a [u8],
    piece: usize,
    fail_at: Option<u64>,
    calls: u64,
    failures: u64,
}

impl<'a> Model for CutSource<'a> {
    ghost Value = { Giving };

    ghost view = { λ s. record { left = s.bytes.now; piece = s.piece; fail_at = s.fail_at; calls = s.calls; failures = s.failures } };

    ghost invariant = { λ s. 0 < s.piece };
}

impl<'a> CutSource<'a> {
    /// Returns a source of these bytes.
    ///
    /// `piece` is at least 1.
    pub fn new(bytes: &'a [u8], piece: usize, fail_at: Option<u64>) -> CutSource<'a>
        requires { 0 < piece }
        ensures { result ≡ new_giving bytes.now piece fail_at }
    {
        CutSource {
            bytes,
            piece,
            fail_at,
            calls: 0,
            failures: 0,
        }
    }
}

impl Source for CutSource<'_> {
    ghost left = { λ s. Some s.left };

    ghost failures = { λ s. s.failures };

    fn read(&mut self, buffer: &mut [u8]) -> Result<usize, Failed>
        ensures within { IfOk result (λ n. n ≤ length buffer.old) }
        ensures given { IfOk result (λ n. Gave (Some self.old.left) (Some self.new.left) (take n buffer.new)) }
        ensures end { result ≡ Ok 0 → 0 < length buffer.old → IsEnd (Some self.new.left) }
        ensures worked { IfOk result (λ _. self.new.failures ≡ self.old.failures) }
        ensures failed { OnErr result (Rises self.old.failures self.new.failures) }
        ensures same { OnErr result (Gave (Some self.old.left) (Some self.new.left) []) }
        ensures counted { CountsGiving self.old self.new }
        ensures piece { IfOk result (λ n. n ≡ min (min self.old.piece (length buffer.old)) (length self.old.left)) }
        ensures not_cut { OnOk result (self.old.fail_at ≢ Some self.old.calls) }
        ensures cut { OnErr result (self.old.fail_at ≡ Some self.old.calls) }
    {
        let call = self.calls;
        self.calls = call.saturating_add(1);
        if self.fail_at == Some(call) {
            self.failures = self.failures.saturating_add(1);
            return Err(Failed);
        }
        let n = self.piece.min(buffer.len()).min(self.bytes.len());
        let (front, rest) = self.bytes.split_at(n);
        buffer[..n].copy_from_slice(front);
        self.bytes = rest;
        Ok(n)
    }
}

/// A sink that takes bytes into memory, at most `piece` in a call; call `fail_at`, counted from 0, fails.
///
/// A call also fails if there is no room for what it would take of the piece.
#[derive(Drop)]
pub struct CutSink {
    taken: Vec<u8>,
    room: usize,
    piece: usize,
    fail_at: Option<u64>,
    calls: u64,
    failures: u64,
}

impl Model for CutSink {
    ghost use Rattle.std.specs.Prelude.{◌<◌, ◌≤◌, vec_len, vec_capacity};
    ghost use Rattle.command_devices.specs.Cut.{Taking};

    ghost Value = { Taking };

    ghost view = { λ s. record { taken = s.taken.items; room = s.room; piece = s.piece; fail_at = s.fail_at; calls = s.calls; failures = s.failures } };

    ghost invariant = { λ s. (0 < s.piece) × (vec_len s.taken ≤ s.room) × (s.room ≤ vec_capacity s.taken) };
}

impl CutSink {
    /// Returns a sink with room for `room` bytes.
    ///
    /// `piece` is at least 1. Returns `WantOfMemory` if the room can't be allocated.
    pub fn new(
        alloc: Global,
        room: usize,
        piece: usize,
        fail_at: Option<u64>,
    ) -> Result<CutSink, Fault>
        requires { 0 < piece }
        ensures empty { IfOk result (λ s. s ≡ new_taking room piece fail_at) }
        ensures memory { IfErr result (λ e. e ≡ WantOfMemory) }
    {
        let taken = Vec::with_capacity(alloc, room)?;
        Ok(CutSink {
            taken,
            room,
            piece,
            fail_at,
            calls: 0,
            failures: 0,
        })
    }

    /// Returns the bytes that were taken.
    pub fn taken(&self) -> &[u8]
        ensures { result.now ≡ self.now.taken }
    {
        &self.taken
    }
}

impl Sink for CutSink {
    ghost taken = { λ s. Some s.taken };

    ghost failures = { λ s. s.failures };

    ghost stalls = { λ _. 0 };

    fn write(&mut self, piece: &[u8]) -> Result<usize, Failed>
        ensures within { IfOk result (λ n. n ≤ length piece.now) }
        ensures took { IfOk result (λ n. Took (Some self.old.taken) (Some self.new.taken) (take n piece.now)) }
        ensures worked { IfOk result (λ _. self.new.failures ≡ self.old.failures) }
        ensures stalled { IfOk result (λ n. CountsStall n (length piece.now) 0 0) }
        ensures failed { OnErr result (Rises self.old.failures self.new.failures) }
        ensures same { OnErr result (Took (Some self.old.taken) (Some self.new.taken) []) }
        ensures counted { CountsTaking self.old self.new }
        ensures piece { IfOk result (λ n. n ≡ min self.old.piece (length piece.now)) }
        ensures not_cut { OnOk result (self.old.fail_at ≢ Some self.old.calls) }
        ensures fitted { OnOk result (length self.new.taken ≤ self.old.room) }
        ensures cut { OnErr result ((self.old.fail_at ≡ Some self.old.calls) ⊎ IsFull self.old (length piece.now)) }
    {
        let call = self.calls;
        self.calls = call.saturating_add(1);
        let n = self.piece.min(piece.len());
        let room = self.room - self.taken.len();
        if self.fail_at == Some(call) || room < n {
            self.failures = self.failures.saturating_add(1);
            return Err(Failed);
        }
        self.taken.extend_from_slice(&piece[..n]).unwrap();
        Ok(n)
    }
}
