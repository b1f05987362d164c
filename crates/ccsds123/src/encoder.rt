//! From raw bytes that come row after row to a file in the caller's room.

ghost use Rattle.std.specs.Prelude.{◌≡◌, ◌⊎◌, None, Ok, Err, IfOk, IfErr};
ghost use Rattle.cube_core.specs.declared.fault.Fault.TheVariants.{WantOfMemory};
ghost use Rattle.ccsds123.specs.Told.{Answers};
ghost use Rattle.ccsds123.specs.Rows.{Begins, begin_test, begun, EndsInto, TakesRows};
ghost use Rattle.ccsds123.specs.Scenes.{IsOpen, scene_of, told_scene};
ghost use Rattle.ccsds123.specs.declared.refusal.Refusal.TheVariants.{Coder as OfCoder};

use crate::asked::{layout_of, params_of, test_together};
use crate::handle::{EncoderRecord, put_scene, take_scene};
use crate::records::{FaultRecord, LayoutRecord, ParamsRecord};
use crate::refusal::{Refusal, Room, answer};
use crate::rooms::put_bytes;
use crate::scene::SceneEncoder;
use cube_core::fault::Fault;
use std::alloc::Global;

/// Begins to encode a scene whose raw bytes come row after row. An encoder that the handle has already is freed before.
///
/// The refusals, in this order: those of the parameters and tables; of the layout; `Choice` of a band-sequential order where the
/// layout interleaves bands, and of a band-sequential layout where the order does; `WantOfMemory`. There is then no encoder.
#[unsafe(no_mangle)]
pub extern "C" fn ccsds123_encoder_begin(
    alloc: Global,
    encoder: &mut EncoderRecord,
    params: &ParamsRecord,
    weights: &[i32],
    accumulators: &[u8],
    layout: &LayoutRecord,
    fault: &mut FaultRecord,
) -> i32
    ensures { Answers result fault.new (Begins (record { params = params.now; weights = weights.now; accumulators = accumulators.now; layout = layout.now })
        (told_scene encoder.new.held.value)) }
{
    let outcome = begin(alloc, encoder, params, weights, accumulators, layout);
    answer(outcome, fault)
}

#[tactic(auto, unfolding(crate::specs::Rows::Begins))]
fn begin(
    alloc: Global,
    encoder: &mut EncoderRecord,
    params: &ParamsRecord,
    weights: &[i32],
    accumulators: &[u8],
    layout: &LayoutRecord,
) -> Result<(), Refusal>
    ensures { Begins (record { params = params.now; weights = weights.now; accumulators = accumulators.now; layout = layout.now })
        (told_scene encoder.new.held.value) result }
{
    let _ended = take_scene(alloc, encoder);
    let scene = new_scene(alloc, params, weights, accumulators, layout)?;
    put_scene(encoder, scene);
    Ok(())
}

/// Returns the scene of which no row has come.
#[tactic(auto, unfolding(crate::specs::Asked::AsksParams))]
fn new_scene(
    alloc: Global,
    params: &ParamsRecord,
    weights: &[i32],
    accumulators: &[u8],
    layout: &LayoutRecord,
) -> Result<Box<SceneEncoder>, Refusal>
    ensures open { IfOk result (λ scene. IsOpen scene.value) }
    ensures begun { IfOk result (λ scene. (begin_test (record { params = params.now; weights = weights.now; accumulators = accumulators.now; layout = layout.now }) ≡ Ok tt)
        × (scene_of scene.value ≡ begun (record { params = params.now; weights = weights.now; accumulators = accumulators.now; layout = layout.now }))) }
    ensures refused { IfErr result (λ e. (begin_test (record { params = params.now; weights = weights.now; accumulators = accumulators.now; layout = layout.now }) ≡ Err e)
        ⊎ (e ≡ OfCoder WantOfMemory)) }
{
    let asked = params_of(alloc, params, weights, accumulators)?;
    let laid = layout_of(layout)?;
    test_together(params, layout)?;
    match SceneEncoder::new(alloc, asked, laid) {
        Ok(scene) => boxed(alloc, scene),
        Err(fault) => Err(Refusal::Coder(fault)),
    }
}

/// Puts a scene on the heap.
fn boxed(alloc: Global, scene: SceneEncoder) -> Result<Box<SceneEncoder>, Refusal>
    ensures scene { IfOk result (λ b. b.value ≡ scene) }
    ensures refused { IfErr result (λ e. e ≡ OfCoder WantOfMemory) }
{
    match Box::new(alloc, scene) {
        Ok(scene) => Ok(scene),
        Err(_) => Err(Refusal::Coder(Fault::WantOfMemory)),
    }
}

/// Takes raw bytes of the scene's next rows, as many as there are.
///
/// The refusals: `Usage` where there is no encoder; `RawLength` of bytes that aren't whole rows, or are more than the scene still
/// wants; then, row by row, `WantOfMemory` and `SampleRange`. A refusal frees the encoder.
#[unsafe(no_mangle)]
pub extern "C" fn ccsds123_encoder_rows(
    alloc: Global,
    encoder: &mut EncoderRecord,
    raw: &[u8],
    fault: &mut FaultRecord,
) -> i32
    ensures { Answers result fault.new (TakesRows (told_scene encoder.old.held.value) raw.now (told_scene encoder.new.held.value)) }
{
    let outcome = take_rows(alloc, encoder, raw);
    answer(outcome, fault)
}

#[tactic(auto, unfolding(crate::specs::Rows::TakesRows))]
fn take_rows(alloc: Global, encoder: &mut EncoderRecord, raw: &[u8]) -> Result<(), Refusal>
    ensures { TakesRows (told_scene encoder.old.held.value) raw.now (told_scene encoder.new.held.value) result }
{
    let Some(mut scene) = take_scene(alloc, encoder) else {
        return Err(Refusal::Coder(Fault::Usage));
    };
    match scene.take_rows(alloc, raw) {
        Ok(()) => {
            put_scene(encoder, scene);
            Ok(())
        }
        Err(fault) => Err(Refusal::Coder(fault)),
    }
}

/// Writes the file of all rows to the front of a room, stores its length, and frees the encoder.
///
/// The refusals: `Usage` where there is no encoder; `RawLength` where rows are missing; `WantOfMemory`; `Room`. Nothing is then
/// written but a length of 0. Where the room is too small, the encoder stays, to be asked again; any other refusal frees it.
#[unsafe(no_mangle)]
pub extern "C" fn ccsds123_encoder_end(
    alloc: Global,
    encoder: &mut EncoderRecord,
    file: &mut [u8],
    file_length: &mut u64,
    fault: &mut FaultRecord,
) -> i32
    ensures { Answers result fault.new (EndsInto (told_scene encoder.old.held.value) (told_scene encoder.new.held.value) file.old file.new file_length.new) }
{
    let outcome = end_into(alloc, encoder, file, file_length);
    answer(outcome, fault)
}

#[tactic(auto, unfolding(crate::specs::Rows::EndsInto))]
fn end_into(
    alloc: Global,
    encoder: &mut EncoderRecord,
    file: &mut [u8],
    file_length: &mut u64,
) -> Result<(), Refusal>
    ensures { EndsInto (told_scene encoder.old.held.value) (told_scene encoder.new.held.value) file.old file.new file_length.new result }
{
    *file_length = 0;
    let Some(mut scene) = take_scene(alloc, encoder) else {
        return Err(Refusal::Coder(Fault::Usage));
    };
    if let Err(fault) = scene.end(alloc) {
        return Err(Refusal::Coder(fault));
    }
    let outcome = put_bytes(Room::File, scene.file(), file, file_length);
    if outcome.is_err() {
        put_scene(encoder, scene);
    }
    outcome
}

/// Frees an encoder that isn't ended. Where there is none, it does nothing.
#[unsafe(no_mangle)]
pub extern "C" fn ccsds123_encoder_free(alloc: Global, encoder: &mut EncoderRecord)
    ensures { told_scene encoder.new.held.value ≡ None }
{
    let _ended = take_scene(alloc, encoder);
}
