//! Sources and sinks over the readers and writers of files and standard streams.

ghost use Rattle.std.specs.Prelude.{◌≡◌, ◌≤◌, ◌<◌, [], None, Ok, Some, length, take, IfOk, OnErr};
ghost use Rattle.command_devices.specs.Devices.{Gave, IsEnd, Took, Rises, CountsStall};
ghost use Rattle.command_devices.specs.Streams.{OverReader, OverWriter};

use crate::device::{InputDevice, OutputDevice};
use crate::sink::Sink;
use crate::source::{Failed, Source};
use std::marker::Model;

/// A source over a reader. It exposes its bytes to contracts where the reader does; files and streams don't. An
/// interrupted call is a failure.
#[derive(Drop)]
pub struct ReaderSource<R: InputDevice> {
    reader: R,
    failures: u64,
}

impl<R: InputDevice> Model for ReaderSource<R> {
    ghost Value = { OverReader R };

    ghost view = { λ s. record { reader = s.reader; failures = s.failures } };
}

impl<R: InputDevice> ReaderSource<R> {
    /// Returns a source of the bytes that the reader has left.
    pub fn new(reader: R) -> ReaderSource<R>
        ensures { result ≡ record { reader = reader; failures = 0 } }
    {
        ReaderSource {
            reader,
            failures: 0,
        }
    }

    /// Returns the reader.
    pub fn reader(&self) -> &R
        ensures { result.now ≡ self.now.reader }
    {
        &self.reader
    }
}

impl<R: InputDevice> Source for ReaderSource<R> {
    ghost left = { λ s. R.remaining s.reader };

    ghost failures = { λ s. s.failures };

    #[tactic(auto, using(crate::proofs::Streams::consumed_gave, crate::proofs::Streams::kept_gave, crate::proofs::Streams::at_end))]
    fn read(&mut self, buffer: &mut [u8]) -> Result<usize, Failed>
        ensures within { IfOk result (λ n. n ≤ length buffer.old) }
        ensures given { IfOk result (λ n. Gave (R.remaining self.old.reader) (R.remaining self.new.reader) (take n buffer.new)) }
        ensures end { result ≡ Ok 0 → 0 < length buffer.old → IsEnd (R.remaining self.new.reader) }
        ensures worked { IfOk result (λ _. self.new.failures ≡ self.old.failures) }
        ensures failed { OnErr result (Rises self.old.failures self.new.failures) }
        ensures same { OnErr result (Gave (R.remaining self.old.reader) (R.remaining self.new.reader) []) }
        ensures asked { IfOk result (λ n. R.answers self.old.reader (length buffer.old) (Some (take n buffer.new)) self.new.reader) }
        ensures refused { OnErr result (R.answers self.old.reader (length buffer.old) None self.new.reader) }
    {
        match self.reader.read(buffer) {
            Ok(n) => Ok(n),
            Err(_) => {
                self.failures = self.failures.saturating_add(1);
                Err(Failed)
            }
        }
    }
}

/// A sink over a writer. It exposes its bytes to contracts where the writer does; files and streams don't. Each
/// piece is passed to the writer at once.
#[derive(Drop)]
pub struct WriterSink<W: OutputDevice> {
    writer: W,
    failures: u64,
    stalls: u64,
}

impl<W: OutputDevice> Model for WriterSink<W> {
    ghost Value = { OverWriter W };

    ghost view = { λ s. record { writer = s.writer; failures = s.failures; stalls = s.stalls } };
}

impl<W: OutputDevice> WriterSink<W> {
    /// Returns a sink that appends to what the writer holds.
    pub fn new(writer: W) -> WriterSink<W>
        ensures { result ≡ record { writer = writer; failures = 0; stalls = 0 } }
    {
        WriterSink {
            writer,
            failures: 0,
            stalls: 0,
        }
    }

    /// Returns the writer, with the bytes that it took.
    pub fn into_writer(self) -> W
        ensures { result ≡ self.writer }
    {
        self.writer
    }
}

impl<W: OutputDevice> Sink for WriterSink<W> {
    ghost taken = { λ s. W.contents s.writer };

    ghost failures = { λ s. s.failures };

    ghost stalls = { λ s. s.stalls };

    #[tactic(auto, using(crate::proofs::Streams::appended_took, crate::proofs::Streams::kept_took))]
    fn write(&mut self, piece: &[u8]) -> Result<usize, Failed>
        ensures within { IfOk result (λ n. n ≤ length piece.now) }
        ensures took { IfOk result (λ n. Took (W.contents self.old.writer) (W.contents self.new.writer) (take n piece.now)) }
        ensures worked { IfOk result (λ _. self.new.failures ≡ self.old.failures) }
        ensures stalled { IfOk result (λ n. CountsStall n (length piece.now) self.old.stalls self.new.stalls) }
        ensures failed { OnErr result (Rises self.old.failures self.new.failures × (self.new.stalls ≡ self.old.stalls)) }
        ensures same { OnErr result (Took (W.contents self.old.writer) (W.contents self.new.writer) []) }
        ensures asked { IfOk result (λ n. W.answers self.old.writer piece.now (Some n) self.new.writer) }
        ensures refused { OnErr result (W.answers self.old.writer piece.now None self.new.writer) }
    {
        match self.writer.write(piece) {
            Ok(n) => {
                if n == 0 && !piece.is_empty() {
                    self.stalls = self.stalls.saturating_add(1);
                }
                Ok(n)
            }
            Err(_) => {
                self.failures = self.failures.saturating_add(1);
                Err(Failed)
            }
        }
    }
}
