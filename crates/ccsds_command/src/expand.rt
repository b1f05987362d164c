//! From a file to its cube's raw bytes.

ghost use Rattle.std.specs.Prelude.{◌≡◌, ◌⊎◌, IfOk, IfErr, OnOk};
ghost use Rattle.cube_core.specs.Layout.{IsLayout, HaveBytes};
ghost use Rattle.cube_core.specs.Shape.{sample_count};
ghost use Rattle.ccsds_command.specs.Expand.{Expands, HasFileOf, HasNoFile, IsExpandFault, IsExpandRefusal};
ghost use Rattle.cube_core.specs.declared.fault.Fault.TheVariants.{WantOfMemory};
ghost use Rattle.command_devices.specs.Reading.{IsReadRefusal, ToldAsRead, file_limit};
ghost use Rattle.command_devices.specs.Devices.{GaveBelow, GaveWithin};
ghost use Rattle.command_devices.specs.Writing.{IsWrite};

use coder_pipe::decode::decode;
use command_devices::reading::read_file;
use command_devices::sink::Sink;
use command_devices::source::Source;
use cube_core::cube::Cube;
use cube_core::fault::Fault;
use cube_core::layout::Layout;
use raw_streams::write::write_raw;
use std::alloc::Global;

/// Reads a file, decodes it, and writes its cube's raw bytes.
///
/// The samples are written in one byte or two. Returns `Read` if the source fails, or has more than 2^40 bytes;
/// the refusals of `decode`; `SampleRange` with the first sample that doesn't fit in its byte; `WantOfMemory`
/// if an allocation fails; and `Write`, with the number of bytes that went out, if the sink fails or takes
/// nothing. After any other refusal nothing was written.
#[tactic(auto, unfolding(crate::specs::Expand::Expands, crate::specs::Expand::IsExpandFault))]
pub fn run_expand<S: Source, K: Sink>(
    alloc: Global,
    source: &mut S,
    sink: &mut K,
    layout: &Layout,
) -> Result<(), Fault>
    requires { IsLayout layout.now }
    ensures expanded { OnOk result (Expands layout.now (S.left source.old) (K.taken sink.old) (K.taken sink.new)) }
    ensures refused { IfErr result (IsExpandFault layout.now (S.left source.old) (S.failures source.old) (S.failures source.new) (K.taken sink.old)
        (K.taken sink.new) (K.failures sink.old) (K.failures sink.new) (K.stalls sink.old) (K.stalls sink.new)) }
    ensures worked { OnOk result ((S.failures source.new ≡ S.failures source.old) × (K.failures sink.new ≡ K.failures sink.old)
        × (K.stalls sink.new ≡ K.stalls sink.old)) }
    ensures told { IfErr result (ToldAsRead (S.failures source.old) (S.failures source.new)) }
    ensures unwritten { IfErr result (λ e. IsWrite e ⊎ (sink.new ≡ sink.old)) }
    ensures bounded { GaveWithin (λ _. file_limit) (S.left source.old) (S.left source.new) }
    ensures unfilled { IfErr result (λ e. e ≡ WantOfMemory → GaveBelow file_limit (S.left source.old) (S.left source.new)) }
{
    let cube = fitting_cube(alloc, source, *layout)?;
    write_raw(alloc, sink, &cube, *layout)
}

/// Returns the cube whose file the source has, if each of its samples fits in its bytes.
///
/// It isn't inlined: the rooms of the bands that are inverted side by side stand on the stack, which no other command should need.
#[inline(never)]
fn fitting_cube<S: Source>(alloc: Global, source: &mut S, layout: Layout) -> Result<Cube, Fault>
    requires { IsLayout layout }
    ensures cube { IfOk result (HasFileOf (S.left source.old)) }
    ensures fits { IfOk result (λ c. HaveBytes c layout (sample_count c.shape)) }
    ensures refused { IfErr result (IsExpandRefusal layout (S.left source.old) (S.failures source.old) (S.failures source.new)) }
    ensures worked { OnOk result (S.failures source.new ≡ S.failures source.old) }
    ensures told { IfErr result (ToldAsRead (S.failures source.old) (S.failures source.new)) }
    ensures bounded { GaveWithin (λ _. file_limit) (S.left source.old) (S.left source.new) }
    ensures short { OnOk result (GaveBelow file_limit (S.left source.old) (S.left source.new)) }
    ensures unfilled { IfErr result (λ e. e ≡ WantOfMemory → GaveBelow file_limit (S.left source.old) (S.left source.new)) }
{
    let cube = decoded(alloc, source)?;
    match cube.unfit(layout) {
        None => Ok(cube),
        Some(index) => Err(Fault::SampleRange { index }),
    }
}

/// Returns the cube whose file the source has.
fn decoded<S: Source>(alloc: Global, source: &mut S) -> Result<Cube, Fault>
    ensures cube { IfOk result (HasFileOf (S.left source.old)) }
    ensures refused { IfErr result (λ e. IsReadRefusal (S.left source.old) (S.failures source.old) (S.failures source.new) e
        ⊎ HasNoFile (S.left source.old) e) }
    ensures worked { OnOk result (S.failures source.new ≡ S.failures source.old) }
    ensures told { IfErr result (ToldAsRead (S.failures source.old) (S.failures source.new)) }
    ensures bounded { GaveWithin (λ _. file_limit) (S.left source.old) (S.left source.new) }
    ensures short { OnOk result (GaveBelow file_limit (S.left source.old) (S.left source.new)) }
    ensures unfilled { IfErr result (λ e. e ≡ WantOfMemory → GaveBelow file_limit (S.left source.old) (S.left source.new)) }
{
    let mut bytes = read_file(alloc, source)?;
    // They grew ahead of what came, by up to as much again, which isn't needed beside the cube.
    bytes.shrink_to_fit();
    let (_params, cube) = decode(alloc, &bytes)?;
    Ok(cube)
}
