//! Tests of each command between its input and its output, over files in memory.

ghost use Rattle.std.specs.Prelude.{◌≡◌, ◌≢◌, codes};
ghost use Rattle.ccsds_command.specs.Command.{HasLayout};

use super::support::{ONE_BYTE, TWO_EQUAL_FILE, inspected, two_equal};
use crate::tests::checks::same;
use ccsds_command::command::{run_command, run_words};
use command_devices::opener::Opener;
use command_devices::sink::Sink;
use command_devices::source::Source;
use command_devices::stream::{ReaderSource, WriterSink};
use command_words::settings::{CompressSettings, Settings};
use cube_core::fault::Fault;
use std::alloc::Global;
use std::process::Abort;
use std::sync::Wait;
use std::sync::atomic::{AtomicU64, Ordering};
use std::test::Fail;
use std::thread::Threads;

/// An opener over memory with a standard input and one file, whose name is `in`. It creates any file but one of that
/// name, and counts the calls to open and to create.
#[derive(Drop)]
struct Memory<'a> {
    alloc: Global,
    standard: &'a [u8],
    file: &'a [u8],
    opened: AtomicU64,
    made: AtomicU64,
}

impl<'a> Memory<'a> {
    fn new(alloc: Global, standard: &'a [u8], file: &'a [u8]) -> Memory<'a> {
        Memory {
            alloc,
            standard,
            file,
            opened: AtomicU64::new(0),
            made: AtomicU64::new(0),
        }
    }

    /// Returns how often `open` was called, and how often `create`.
    fn asked(&self) -> (u64, u64) {
        (
            self.opened.load(Ordering::SeqCst),
            self.made.load(Ordering::SeqCst),
        )
    }
}

/// Adds one to a count.
fn count(calls: &AtomicU64) {
    let before = calls.load(Ordering::SeqCst);
    calls.store(before.saturating_add(1), Ordering::SeqCst);
}

impl<'a> Opener for Memory<'a> {
    type Input = ReaderSource<&'a [u8]>;

    type Output = WriterSink<Vec<u8>>;

    ghost opens = { λ m name input. ⟦<ReaderSource<&'a [u8]> as Source>⟧.failures input ≡ 0 };

    ghost makes = { λ m input name output. ⟦<WriterSink<Vec<u8>> as Sink>⟧.failures output ≡ 0 };

    ghost has_none = { λ m name. name ≢ codes "in" };

    ghost makes_none = { λ m input name. name ≡ codes "in" };

    fn standard_input(&self) -> ReaderSource<&'a [u8]> {
        ReaderSource::new(self.standard)
    }

    fn standard_output(&self) -> WriterSink<Vec<u8>> {
        WriterSink::new(Vec::new(self.alloc))
    }

    fn open(&self, name: &str) -> Result<ReaderSource<&'a [u8]>, Fault> {
        count(&self.opened);
        if name == "in" {
            Ok(ReaderSource::new(self.file))
        } else {
            Err(Fault::Read)
        }
    }

    fn create(
        &self,
        _input: &ReaderSource<&'a [u8]>,
        name: &str,
    ) -> Result<WriterSink<Vec<u8>>, Fault> {
        count(&self.made);
        if name == "in" {
            Err(Fault::Write { written: 0 })
        } else {
            Ok(WriterSink::new(Vec::new(self.alloc)))
        }
    }
}

/// Returns what a command writes over a standard input and a file.
fn written<R: Threads + Wait + Sync>(
    threads: &R,
    alloc: Global,
    standard: &[u8],
    file: &[u8],
    settings: &Settings,
) -> Result<Vec<u8>, Fault>
    requires { HasLayout settings.now }
{
    let memory = Memory::new(alloc, standard, file);
    let ended = run_command(threads, alloc, &memory, settings)?;
    ended.answer?;
    Ok(ended.output.into_writer())
}

/// Returns the settings to compress `in` to `out` with this number of predictors.
fn compression(rt: &impl Abort, alloc: Global, predictors: u32) -> Settings
    ensures { HasLayout result }
{
    let settings = CompressSettings {
        predictors,
        ..two_equal(rt)
    };
    Settings::Compress(settings, name(rt, alloc, "in"), name(rt, alloc, "out"))
}

/// Returns the settings to expand a file to another.
fn expansion(rt: &impl Abort, alloc: Global, from: &str, to: &str) -> Settings
    ensures { HasLayout result }
{
    Settings::Expand(ONE_BYTE, name(rt, alloc, from), name(rt, alloc, to))
}

/// Returns a file's name.
fn name(rt: &impl Abort, alloc: Global, text: &str) -> String {
    String::from_str(alloc, text).expect(rt, "a name")
}

/// Asserts that a command over a standard input and a file writes these bytes.
fn writes<R: Threads + Wait + Sync + Abort>(
    rt: &R,
    alloc: Global,
    standard: &[u8],
    file: &[u8],
    settings: Settings,
    wanted: &[u8],
)
    requires { HasLayout settings }
{
    let found = written(rt, alloc, standard, file, &settings).expect(rt, "no refusal");
    same(rt, found.as_slice(), wanted);
}

#[test]
fn compress_goes_from_file_to_file(rt: HostRuntime) {
    let one = compression(&rt, rt.alloc(), 0);
    writes(&rt, rt.alloc(), &[], &[200, 200], one, &TWO_EQUAL_FILE);
    let two = compression(&rt, rt.alloc(), 2);
    writes(&rt, rt.alloc(), &[], &[200, 200], two, &TWO_EQUAL_FILE);
}

#[test]
fn expand_goes_from_file_to_file(rt: HostRuntime) {
    let settings = expansion(&rt, rt.alloc(), "in", "out");
    writes(&rt, rt.alloc(), &[], &TWO_EQUAL_FILE, settings, &[200, 200]);
}

#[test]
fn show_goes_between_the_standard_streams(rt: HostRuntime) {
    let cube = [0, 1, 0, 2, 0, 1, 200, 200];
    let text = "00000100020001110000080002a092590082269080\n".as_bytes();
    writes(&rt, rt.alloc(), &cube, &[], Settings::Show, text);
}

#[test]
fn inspect_goes_between_the_standard_streams(rt: HostRuntime) -> Result<(), Fail> {
    let file = &TWO_EQUAL_FILE;
    let lines = inspected(rt.alloc(), file)?;
    writes(&rt, rt.alloc(), file, &[], Settings::Inspect, &lines);
    Ok(())
}

/// Asserts that an expansion from a file to another is refused for this fault.
fn is_refused<R: Threads + Wait + Sync + Abort>(
    rt: &R,
    alloc: Global,
    from: &str,
    to: &str,
    fault: Fault,
) {
    let settings = expansion(rt, alloc, from, to);
    let answer = written(rt, alloc, &[], &TWO_EQUAL_FILE, &settings);
    same(rt, answer.err(), Some(fault));
}

#[test]
fn missing_input_or_output_is_reported(rt: HostRuntime) {
    is_refused(&rt, rt.alloc(), "other", "out", Fault::Read);
    is_refused(&rt, rt.alloc(), "in", "in", Fault::Write { written: 0 });
}

/// Asserts that a command over a file has this result, and opens its input once and creates its output once.
fn asks_once<R: Threads + Wait + Sync + Abort>(
    rt: &R,
    alloc: Global,
    file: &[u8],
    settings: Settings,
    answer: Result<(), Fault>,
)
    requires { HasLayout settings }
{
    let memory = Memory::new(alloc, &[], file);
    let ended = run_command(rt, alloc, &memory, &settings).expect(rt, "both ends");
    same(rt, ended.answer, answer);
    same(rt, memory.asked(), (1, 1));
}

/// Checks that a command opens its input once and creates its output once, whether it is refused or not.
#[test]
fn each_file_is_asked_for_once(rt: HostRuntime) {
    let compress = compression(&rt, rt.alloc(), 0);
    asks_once(&rt, rt.alloc(), &[200, 200], compress, Ok(()));
    let compress = compression(&rt, rt.alloc(), 2);
    asks_once(&rt, rt.alloc(), &[200, 200], compress, Ok(()));
    let short = Fault::RawLength { wanted: 2, had: 1 };
    let compress = compression(&rt, rt.alloc(), 0);
    asks_once(&rt, rt.alloc(), &[200], compress, Err(short));
    let expand = expansion(&rt, rt.alloc(), "in", "out");
    asks_once(&rt, rt.alloc(), &TWO_EQUAL_FILE, expand, Ok(()));
    let expand = expansion(&rt, rt.alloc(), "in", "out");
    asks_once(&rt, rt.alloc(), &[], expand, Err(Fault::ShortHeader));
}

/// Returns the words of a line.
fn words(rt: &impl Abort, alloc: Global, line: &str) -> Vec<String> {
    let mut words = Vec::new(alloc);
    for word in line.split(' ') {
        words.push(name(rt, alloc, word)).expect(rt, "a word");
    }
    words
}

#[test]
fn words_run_their_command(rt: HostRuntime) {
    let alloc = rt.alloc();
    let memory = Memory::new(alloc, &[], &TWO_EQUAL_FILE);
    let line = words(&rt, alloc, "expand --bytes 1 in out");
    let ended = run_words(&rt, alloc, &memory, &line).expect(&rt, "both ends");
    same(&rt, ended.answer, Ok(()));
    same(&rt, ended.output.into_writer().as_slice(), &[200, 200]);
}

#[test]
fn words_that_ask_for_no_command_open_no_file(rt: HostRuntime) {
    let alloc = rt.alloc();
    let memory = Memory::new(alloc, &[], &TWO_EQUAL_FILE);
    let line = words(&rt, alloc, "expand in");
    let answer = run_words(&rt, alloc, &memory, &line);
    same(&rt, answer.err(), Some(Fault::Usage));
    same(&rt, memory.asked(), (0, 0));
}
