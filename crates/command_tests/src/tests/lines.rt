//! What the tests share: command lines whose words are separated by spaces, and engines that run over memory.

ghost use Rattle.std.specs.Prelude.{IfOk};
ghost use Rattle.command_words.specs.Settings.{AreInRange};
ghost use Rattle.cube_core.specs.Layout.{IsLayout};

use ccsds_command::compress::run_compress;
use ccsds_command::inspect::run_inspect;
use command_devices::cut::{CutSink, CutSource};
use command_words::settings::{CompressSettings, Settings};
use command_words::words::settings;
use cube_core::fault::Fault;
use cube_core::layout::Layout;
use std::alloc::Global;
use std::process::Abort;

/// A line that compresses an image, with the required options alone.
pub(crate) const IMAGE: &str = "compress --columns=3 --rows=2 --bands=2 --bits=8 a b";

/// The room of a sink, and the size of the pieces that are read and written.
const ROOM: usize = 1000;

/// Returns that line with more options.
pub(crate) fn image_with(rt: &impl Abort, alloc: Global, options: &str) -> String {
    format!(in alloc; "{IMAGE} {options}").expect(rt, "memory")
}

/// Returns the settings of a command line whose words are separated by spaces.
pub(crate) fn parsed(alloc: Global, line: &str) -> Result<Settings, Fault>
    ensures { IfOk result AreInRange }
{
    let words: Vec<&str> = line.split(' ').collect(alloc)?;
    settings(alloc, words.as_slice())
}

/// Returns the settings of a line that compresses, and its files. Other lines are refused.
pub(crate) fn compression(
    alloc: Global,
    line: &str,
) -> Result<(CompressSettings, String, String), Fault>
    ensures { IfOk result (λ r. IsLayout r.0.layout) }
{
    match parsed(alloc, line)? {
        Settings::Compress(settings, from, to) => Ok((settings, from, to)),
        _ => Err(Fault::Usage),
    }
}

/// Returns the layout of a line that expands, and its files. Other lines are refused.
pub(crate) fn expansion(alloc: Global, line: &str) -> Result<(Layout, String, String), Fault> {
    match parsed(alloc, line)? {
        Settings::Expand(layout, from, to) => Ok((layout, from, to)),
        _ => Err(Fault::Usage),
    }
}

/// Returns the file to which raw bytes are compressed by these settings.
fn file_of(alloc: Global, settings: &CompressSettings, raw: &[u8]) -> Result<Vec<u8>, Fault>
    requires { IsLayout settings.now.layout }
{
    let mut source = CutSource::new(raw, ROOM, None);
    let mut sink = CutSink::new(alloc, ROOM, ROOM, None)?;
    run_compress(alloc, &mut source, &mut sink, settings)?;
    Ok(Vec::from_slice(alloc, sink.taken())?)
}

/// Returns the file to which raw bytes are compressed by a command line.
pub(crate) fn compressed(alloc: Global, line: &str, raw: &[u8]) -> Result<Vec<u8>, Fault> {
    let (settings, _from, _to) = compression(alloc, line)?;
    file_of(alloc, &settings, raw)
}

/// Compresses raw bytes by a command line, and returns what `inspect` writes for the file, after a newline.
pub(crate) fn told(alloc: Global, line: &str, raw: &[u8]) -> Result<String, Fault> {
    let file = compressed(alloc, line, raw)?;
    let mut source = CutSource::new(&file, ROOM, None);
    let mut sink = CutSink::new(alloc, ROOM, ROOM, None)?;
    run_inspect(alloc, &mut source, &mut sink)?;
    match str::from_utf8(sink.taken()) {
        Ok(lines) => Ok(format!(in alloc; "\n{lines}")?),
        Err(_) => Err(Fault::Usage),
    }
}
