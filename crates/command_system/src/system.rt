//! The system that the program runs on: its standard streams and its files, as the ends of a command.

ghost use Rattle.std.specs.Prelude.{◌≡◌, ⊤};

use command_devices::device::{InputDevice, OutputDevice};
use command_devices::opener::Opener;
use command_devices::sink::Sink;
use command_devices::source::Source;
use command_devices::stream::{ReaderSource, WriterSink};
use cube_core::fault::Fault;
use std::fs::{self, File, OpenOptions};
use std::io::{self, Printer, Read, Stdin, Write};
use std::os::unix::fs::{MetadataExt, OpenOptionsExt};

/// The permissions of a file that is created, where none are passed on: all may read and write, but for the system's mask.
const USUAL_MODE: u32 = 0o666;

/// The system, reached through the runtime that `main` was given.
#[derive(Drop)]
pub struct System<'a> {
    pub rt: &'a HostRuntime,
}

/// A command's input: the standard input, or a file.
#[derive(Drop)]
pub enum Reader {
    Standard(Stdin),
    File(File),
}

impl InputDevice for Reader {
    fn read(&mut self, buffer: &mut [u8]) -> io::Result<usize> {
        match self {
            Reader::Standard(input) => input.read(buffer),
            Reader::File(file) => file.read(buffer),
        }
    }
}

/// A command's output: the standard output, or a file.
#[derive(Drop)]
pub enum Writer<'a> {
    Standard(Printer<'a, HostRuntime>),
    File(File),
}

impl OutputDevice for Writer<'_> {
    fn write(&mut self, piece: &[u8]) -> io::Result<usize> {
        match self {
            Writer::Standard(output) => output.write(piece),
            Writer::File(file) => file.write(piece),
        }
    }
}

impl<'a> Opener for System<'a> {
    type Input = ReaderSource<Reader>;

    type Output = WriterSink<Writer<'a>>;

    // Nothing is known of what a file or stream of the system holds, but that it hasn't failed yet.
    ghost opens = { λ s name input. ⟦<ReaderSource<Reader> as Source>⟧.failures input ≡ 0 };

    ghost makes = { λ s input name output. ⟦<WriterSink<Writer<'a>> as Sink>⟧.failures output ≡ 0 };

    ghost has_none = { λ s name. ⊤ };

    ghost makes_none = { λ s input name. ⊤ };

    fn standard_input(&self) -> ReaderSource<Reader> {
        ReaderSource::new(Reader::Standard(self.rt.stdin()))
    }

    fn standard_output(&self) -> WriterSink<Writer<'a>> {
        WriterSink::new(Writer::Standard(io::writer(self.rt)))
    }

    fn open(&self, name: &str) -> Result<ReaderSource<Reader>, Fault> {
        match File::open(self.rt, name) {
            Ok(file) => Ok(ReaderSource::new(Reader::File(file))),
            Err(_) => Err(Fault::Read),
        }
    }

    fn create(
        &self,
        input: &ReaderSource<Reader>,
        name: &str,
    ) -> Result<WriterSink<Writer<'a>>, Fault> {
        if leads_to(self.rt, name, input.reader()) {
            return Err(Fault::Write { written: 0 });
        }
        match create_with(self.rt, name, mode_of(input.reader())) {
            Ok(file) => Ok(WriterSink::new(Writer::File(file))),
            Err(_) => Err(Fault::Write { written: 0 }),
        }
    }
}

/// Creates a file with these permissions, as far as the system's mask leaves them, or empties one that exists, whose
/// permissions stay.
fn create_with(rt: &HostRuntime, name: &str, mode: u32) -> io::Result<File> {
    let mut options = OpenOptions::new();
    options.write(true);
    options.create(true);
    options.truncate(true);
    options.mode(mode);
    options.open(rt, name)
}

/// Returns the permissions that a new output gets: those of the file that is read, or the usual ones where the input is
/// no file.
fn mode_of(input: &Reader) -> u32 {
    let Reader::File(file) = input else {
        return USUAL_MODE;
    };
    match file.metadata() {
        Ok(found) if found.is_file() => found.mode() & 0o777,
        _ => USUAL_MODE,
    }
}

/// Returns whether a name leads, through whatever links, to the file that is read, by the system's numbers of
/// both.
fn leads_to(rt: &HostRuntime, name: &str, input: &Reader) -> bool {
    let Reader::File(open) = input else {
        return false;
    };
    match (fs::metadata(rt, name), open.metadata()) {
        (Ok(there), Ok(here)) => there.dev() == here.dev() && there.ino() == here.ino(),
        _ => false,
    }
}
