//! Calls that allocate, each by itself.

ghost use Rattle.std.specs.Prelude.{◌≡◌, IfOk};
ghost use Rattle.header_bits.specs.Lawful.{IsLawful};
ghost use Rattle.coder_pipe.specs.Sends.{IsSeen};

use crate::files::{interleaved, plan_of, scene, with_tables};
use crate::repeats::Again;
use band_rings::lane::lane;
use band_rings::sender::LaneSender;
use coder_pipe::cube_feed::cube_feeds;
use coder_pipe::plan::Plan;
use coder_pipe::weaver::Weaver;
use command_devices::cut::CutSink;
use cube_core::cube::Cube;
use cube_core::fault::Fault;
use header_bits::bit_writer::BitWriter;
use header_bits::header::{read_header, write_header};
use header_bits::params::Params;
use std::alloc::Global;

/// How many bits are reserved, and how many bytes a sink has room for.
const ROOM: u32 = 4096;

/// The slots of a lane.
const SLOTS: u32 = 8;

/// The length in bytes of the longest header that is read.
const MOST_BYTES: usize = 1 << 60;

/// Returns a line with what the calls return: the length of a header with tables and how much of it is read, how many feeds there
/// are, which predictor comes first, and the slots of a lane.
pub fn line(alloc: Global, again: &mut Again) -> Result<String, Fault> {
    let header = header(alloc, &with_tables(alloc)?, again)?;
    let length = header.len();
    let read = read_length(alloc, &header, again)?;
    let (feeds, first) = planned(alloc, &interleaved()?, again)?;
    let slots = ends(alloc, again)?.slots();
    reserve(alloc, again)?;
    sink(alloc, again)?;
    let line = format!(in alloc;
        "header: {length} bytes, {read} read; feeds: {feeds}, first {first}; slots: {slots}\n"
    )?;
    Ok(line)
}

/// Returns the header of parameters. Repeats the call if it was refused.
fn header(alloc: Global, params: &Params, again: &mut Again) -> Result<Vec<u8>, Fault>
    requires { IsLawful params.now }
{
    match write_header(alloc, params) {
        Err(Fault::WantOfMemory) => {
            again.call("write_header");
            write_header(alloc, params)
        }
        other => other,
    }
}

/// Returns how many bytes are read as a header. Repeats the call if it was refused.
fn read_length(alloc: Global, header: &[u8], again: &mut Again) -> Result<usize, Fault> {
    if header.len() > MOST_BYTES {
        return Ok(0);
    }
    let (_params, length) = match read_header(alloc, header) {
        Err(Fault::WantOfMemory) => {
            again.call("read_header");
            read_header(alloc, header)?
        }
        other => other?,
    };
    Ok(length)
}

/// Returns how many feeds a plan has, and which predictor the weaver wants first.
fn planned(alloc: Global, params: &Params, again: &mut Again) -> Result<(usize, u32), Fault>
    requires { IsLawful params.now }
{
    let cube = scene(alloc, params, again)?;
    let plan = plan_of(alloc, params, again)?;
    let feeds = feed_count(alloc, &cube, &plan, again)?;
    let weaver = weaver(alloc, params, &plan, again)?;
    Ok((feeds, weaver.wants().unwrap_or(u32::MAX)))
}

/// Returns how many feeds a cube and a plan have. Repeats the call if it was refused.
fn feed_count(alloc: Global, cube: &Cube, plan: &Plan, again: &mut Again) -> Result<usize, Fault>
    requires { IsSeen plan.now.params cube.now }
{
    let feeds = match cube_feeds(alloc, cube, plan) {
        Err(Fault::WantOfMemory) => {
            again.call("cube_feeds");
            cube_feeds(alloc, cube, plan)?
        }
        other => other?,
    };
    Ok(feeds.len())
}

/// Returns a weaver. Repeats the call if it was refused.
fn weaver(alloc: Global, params: &Params, plan: &Plan, again: &mut Again) -> Result<Weaver, Fault>
    requires { plan.now.params ≡ params.now }
{
    match Weaver::new(alloc, params, plan) {
        Err(Fault::WantOfMemory) => {
            again.call("Weaver::new");
            Weaver::new(alloc, params, plan)
        }
        other => other,
    }
}

/// Returns the sending end of a lane. Repeats the call if it was refused.
fn ends(alloc: Global, again: &mut Again) -> Result<LaneSender, Fault> {
    let (sender, _receiver) = match lane(alloc, SLOTS) {
        Err(Fault::WantOfMemory) => {
            again.call("lane");
            lane(alloc, SLOTS)?
        }
        other => other?,
    };
    Ok(sender)
}

/// Reserves room for bits. Repeats the call if it was refused.
fn reserve(alloc: Global, again: &mut Again) -> Result<(), Fault> {
    let mut writer = BitWriter::new(alloc);
    match writer.reserve(u64::from(ROOM)) {
        Err(Fault::WantOfMemory) => {
            again.call("BitWriter::reserve");
            writer.reserve(u64::from(ROOM))
        }
        other => other,
    }
}

/// Makes a sink. Repeats the call if it was refused.
fn sink(alloc: Global, again: &mut Again) -> Result<(), Fault> {
    let _sink = match CutSink::new(alloc, ROOM as usize, 1, None) {
        Err(Fault::WantOfMemory) => {
            again.call("CutSink::new");
            CutSink::new(alloc, ROOM as usize, 1, None)?
        }
        other => other?,
    };
    Ok(())
}
