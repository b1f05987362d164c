//! From a file to its scene's raw bytes in the caller's room.

ghost use Rattle.std.specs.Prelude.{◌≡◌, IfErr, OnErr, OnOk, length};
ghost use Rattle.cube_core.specs.Layout.{HaveBytes, IsLayout, raw_bytes};
ghost use Rattle.cube_core.specs.Shape.{sample_count};
ghost use Rattle.ccsds123.specs.Told.{Answers};
ghost use Rattle.ccsds123.specs.Coding.{DecodesInto, IsPutFault};
ghost use Rattle.ccsds123.specs.Header.{fronted};

use crate::asked::layout_of;
use crate::header::test_length;
use crate::records::{FaultRecord, LayoutRecord};
use crate::refusal::{Refusal, Room, answer};
use cube_core::cube::Cube;
use cube_core::fault::Fault;
use cube_core::layout::Layout;
use file_decoding::decode::decode;
use std::alloc::Global;

/// Decodes a file: its scene's raw bytes, in a layout, go to the front of a room, and their number is stored.
///
/// The refusals, in this order: those of the layout; `Read` for a file of more than 2^60 bytes; those of `decode`;
/// `SampleRange` of the first sample that doesn't fit in its byte; `Room`. Nothing is then written but a length of 0.
#[unsafe(no_mangle)]
pub extern "C" fn ccsds123_decode(
    alloc: Global,
    file: &[u8],
    layout: &LayoutRecord,
    raw: &mut [u8],
    raw_length: &mut u64,
    fault: &mut FaultRecord,
) -> i32
    ensures { Answers result fault.new (DecodesInto layout.now file.now raw.old raw.new raw_length.new) }
{
    let outcome = decode_into(alloc, file, layout, raw, raw_length);
    answer(outcome, fault)
}

/// Decodes a file into a room.
#[tactic(auto, unfolding(crate::specs::Coding::DecodesInto))]
fn decode_into(
    alloc: Global,
    file: &[u8],
    layout: &LayoutRecord,
    raw: &mut [u8],
    raw_length: &mut u64,
) -> Result<(), Refusal>
    ensures { DecodesInto layout.now file.now raw.old raw.new raw_length.new result }
{
    *raw_length = 0;
    let laid = layout_of(layout)?;
    test_length(file)?;
    match decode(alloc, file) {
        Ok((_params, cube)) => put_raw(&cube, laid, raw, raw_length),
        Err(fault) => Err(Refusal::Coder(fault)),
    }
}

/// Writes a cube's raw bytes to the front of a room, and stores their number.
///
/// Returns `SampleRange` of the first sample that doesn't fit in its byte; else `Room` if the room is too small.
fn put_raw(cube: &Cube, layout: Layout, raw: &mut [u8], raw_length: &mut u64) -> Result<(), Refusal>
    requires { IsLayout layout }
    ensures put { OnOk result (HaveBytes cube.now layout (sample_count cube.now.shape) × (raw.new ≡ fronted (raw_bytes cube.now layout) raw.old)
        × (raw_length.new ≡ length (raw_bytes cube.now layout))) }
    ensures refused { IfErr result (IsPutFault cube.now layout (length raw.old)) }
    ensures same { OnErr result ((raw.new ≡ raw.old) × (raw_length.new ≡ raw_length.old)) }
{
    if let Some(index) = cube.unfit(layout) {
        return Err(Refusal::Coder(Fault::SampleRange { index }));
    }
    let shape = cube.shape();
    let _count = shape.sample_count();
    let wanted = layout.length(shape);
    let had = raw.len() as u64;
    if had < wanted {
        return Err(Refusal::Room {
            room: Room::Raw,
            wanted,
            had,
        });
    }
    cube.write_raw(layout, &mut raw[..wanted as usize]);
    *raw_length = wanted;
    Ok(())
}
