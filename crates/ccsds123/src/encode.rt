//! From the caller's raw bytes to a file in the caller's room.

ghost use Rattle.std.specs.Prelude.{◌≡◌, ◌⊎◌, ◌≢◌, IfOk, IfErr};
ghost use Rattle.cube_core.specs.Layout.{IsLayout};
ghost use Rattle.header_bits.specs.Lawful.{IsLawful};
ghost use Rattle.ccsds123.specs.Told.{Answers};
ghost use Rattle.ccsds123.specs.Coding.{EncodesInto, IsFileOfRaw, IsRawRefusal};

use crate::asked::{layout_of, params_of};
use crate::records::{FaultRecord, LayoutRecord, ParamsRecord};
use crate::refusal::{Refusal, Room, answer};
use crate::rooms::put_bytes;
use cube_core::cube::Cube;
use cube_core::fault::Fault;
use cube_core::layout::Layout;
use file_encoding::encode::encode_owned;
use header_bits::params::Params;
use std::alloc::Global;

/// Codes the scene whose raw bytes are given: its file goes to the front of a room, and its length is stored.
///
/// The refusals, in this order: those of the parameters and tables; of the layout; `RawLength`; `WantOfMemory`; `SampleRange`;
/// `WantOfMemory`; `Room`. Nothing is then written but a length of 0.
#[unsafe(no_mangle)]
pub extern "C" fn ccsds123_encode(
    alloc: Global,
    params: &ParamsRecord,
    weights: &[i32],
    accumulators: &[u8],
    layout: &LayoutRecord,
    raw: &[u8],
    file: &mut [u8],
    file_length: &mut u64,
    fault: &mut FaultRecord,
) -> i32
    ensures { Answers result fault.new (EncodesInto (record {
      params = params.now;
      weights = weights.now;
      accumulators = accumulators.now;
      layout = layout.now;
      raw = raw.now;
    }) file.old file.new file_length.new) }
{
    let outcome = encode_into(
        alloc,
        params,
        weights,
        accumulators,
        layout,
        raw,
        file,
        file_length,
    );
    answer(outcome, fault)
}

/// Codes raw bytes into a room.
#[tactic(auto, unfolding(crate::specs::Coding::EncodesInto, crate::specs::Asked::AsksParams))]
fn encode_into(
    alloc: Global,
    params: &ParamsRecord,
    weights: &[i32],
    accumulators: &[u8],
    layout: &LayoutRecord,
    raw: &[u8],
    file: &mut [u8],
    file_length: &mut u64,
) -> Result<(), Refusal>
    ensures { EncodesInto (record { params = params.now; weights = weights.now; accumulators = accumulators.now; layout = layout.now; raw = raw.now })
        file.old file.new file_length.new result }
{
    *file_length = 0;
    let asked = params_of(alloc, params, weights, accumulators)?;
    let laid = layout_of(layout)?;
    match file_of_raw(alloc, &asked, laid, raw) {
        Ok(bytes) => put_bytes(Room::File, &bytes, file, file_length),
        Err(fault) => Err(Refusal::Coder(fault)),
    }
}

/// Returns the file of the cube whose raw bytes are given.
fn file_of_raw(alloc: Global, params: &Params, layout: Layout, raw: &[u8]) -> Result<Vec<u8>, Fault>
    requires lawful { IsLawful params.now }
    requires layout { IsLayout layout }
    ensures file { IfOk result (λ file. IsFileOfRaw params.now layout raw.now file.items) }
    ensures refused { IfErr result (IsRawRefusal params.now layout raw.now) }
{
    let cube = Cube::from_raw(alloc, params.shape, params.kind, layout, raw)?;
    encode_owned(alloc, cube, params)
}
