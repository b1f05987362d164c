//! What the tests share: settings and a file of two samples, and engines that run over memory.

ghost use Rattle.std.specs.Prelude.{◌<◌};
ghost use Rattle.cube_core.specs.Layout.{IsLayout};

use ccsds_command::compress::run_compress;
use ccsds_command::expand::run_expand;
use ccsds_command::inspect::run_inspect;
use command_devices::cut::{CutSink, CutSource};
use command_words::settings::CompressSettings;
use cube_core::fault::Fault;
use cube_core::kind::Kind;
use cube_core::layout::{Layout, RawOrder};
use cube_core::shape::Shape;
use header_bits::params::Params;
use std::alloc::Global;
use std::process::Abort;

/// The room of a sink, and the size of the pieces that are read and written.
const ROOM: usize = 1000;

/// The room of a sink for the files of the longest scenes here.
const FILE_ROOM: usize = 32000;

/// The layout of samples of one byte, band after band.
pub(crate) const ONE_BYTE: Layout = Layout {
    order: RawOrder::Bsq,
    bytes: 1,
    little: false,
};

/// The layout of samples of two bytes, the high one first.
pub(crate) const TWO_BYTES: Layout = Layout {
    bytes: 2,
    ..ONE_BYTE
};

/// The file of two samples of 200, one row below the other.
pub(crate) const TWO_EQUAL_FILE: [u8; 21] = [
    0x00, 0x00, 0x01, 0x00, 0x02, 0x00, 0x01, 0x11, 0x00, 0x00, 0x08, 0x00, 0x02, 0xA0, 0x92, 0x59,
    0x00, 0x82, 0x26, // the header
    0x90, 0x80, // 144 and 0
];

/// Returns the settings of that file.
pub(crate) fn two_equal(rt: &impl Abort) -> CompressSettings
    ensures { IsLayout result.layout }
{
    one_band(rt, 1, 2, 8, ONE_BYTE)
}

/// Returns the settings of one unsigned band, in reduced mode with column-oriented sums.
pub(crate) fn one_band(
    rt: &impl Abort,
    columns: u32,
    rows: u32,
    bits: u32,
    layout: Layout,
) -> CompressSettings
    requires { IsLayout layout }
    ensures { IsLayout result.layout }
{
    let shape = Shape::new(columns, rows, 1).expect(rt, "a shape");
    let kind = Kind::new(false, bits).expect(rt, "a kind");
    CompressSettings {
        params: Params::plain(shape, kind),
        layout,
        predictors: 0,
        slots: 1024,
    }
}

/// Returns a sink with room for 100 bytes that takes at most `piece` bytes in a call, and may fail at one.
pub(crate) fn sink(rt: &impl Abort, alloc: Global, piece: usize, fail_at: Option<u64>) -> CutSink
    requires { 0 < piece }
{
    CutSink::new(alloc, 100, piece, fail_at).expect(rt, "memory")
}

/// Returns the file to which raw bytes are compressed.
pub(crate) fn compressed(
    alloc: Global,
    settings: &CompressSettings,
    raw: &[u8],
) -> Result<Vec<u8>, Fault>
    requires { IsLayout settings.now.layout }
{
    let mut source = CutSource::new(raw, ROOM, None);
    let mut sink = CutSink::new(alloc, ROOM, ROOM, None)?;
    run_compress(alloc, &mut source, &mut sink, settings)?;
    Ok(Vec::from_slice(alloc, sink.taken())?)
}

/// Compresses raw bytes that come in pieces, with the call `fail_at` failing. A refusal leaves the sink empty.
pub(crate) fn file_of(
    rt: &impl Abort,
    alloc: Global,
    settings: &CompressSettings,
    bytes: &[u8],
    piece: usize,
    fail_at: Option<u64>,
) -> Result<Vec<u8>, Fault>
    requires piece { 0 < piece }
    requires layout { IsLayout settings.now.layout }
{
    let mut source = CutSource::new(bytes, piece, fail_at);
    let mut sink = CutSink::new(alloc, FILE_ROOM, ROOM, None)?;
    let answer = run_compress(alloc, &mut source, &mut sink, settings);
    assert!(rt; answer.is_ok() || sink.taken().is_empty());
    answer?;
    Ok(Vec::from_slice(alloc, sink.taken())?)
}

/// Returns the raw bytes to which a file is expanded.
pub(crate) fn expanded(alloc: Global, layout: &Layout, file: &[u8]) -> Result<Vec<u8>, Fault>
    requires { IsLayout layout.now }
{
    let mut source = CutSource::new(file, ROOM, None);
    let mut sink = CutSink::new(alloc, ROOM, ROOM, None)?;
    run_expand(alloc, &mut source, &mut sink, layout)?;
    Ok(Vec::from_slice(alloc, sink.taken())?)
}

/// Returns what `inspect` writes for a file.
pub(crate) fn inspected(alloc: Global, file: &[u8]) -> Result<Vec<u8>, Fault> {
    let mut source = CutSource::new(file, ROOM, None);
    let mut sink = CutSink::new(alloc, ROOM, ROOM, None)?;
    run_inspect(alloc, &mut source, &mut sink)?;
    Ok(Vec::from_slice(alloc, sink.taken())?)
}
