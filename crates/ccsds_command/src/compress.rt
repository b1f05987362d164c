//! From a cube's raw bytes to its file.

ghost use Rattle.std.specs.Prelude.{◌≡◌, ◌⊎◌, IfOk, IfErr, OnOk, Err};
ghost use Rattle.cube_core.specs.declared.fault.Fault.{Fault as Refusal};
ghost use Rattle.cube_core.specs.Layout.{IsLayout};
ghost use Rattle.header_bits.specs.Lawful.{IsLawful, params_fault};
ghost use Rattle.ccsds_command.specs.Compress.{Compresses, IsCompressFault, IsCubeRefusal, HasCube, HasFile, raw_limit};
ghost use Rattle.command_devices.specs.Devices.{GaveWithin};
ghost use Rattle.command_devices.specs.Reading.{ToldAsRead};
ghost use Rattle.command_devices.specs.Writing.{IsWrite};

use crate::by_rows::{file_by_rows, goes_by_rows};
use command_devices::sink::Sink;
use command_devices::source::Source;
use command_devices::writing::write_all;
use command_words::settings::CompressSettings;
use cube_core::cube::Cube;
use cube_core::fault::Fault;
use file_encoding::encode::encode_owned;
use raw_streams::read::read_raw;
use std::alloc::Global;

/// Reads a cube's raw bytes, codes the cube, and writes the file.
///
/// Unlawful parameters are refused before anything is read (`FieldRange`, `Disagree`). The samples have one
/// byte or two. It reads at most one byte more than the samples have. Returns `Read` if the source fails;
/// `RawLength` if there are too few or too many bytes; `SampleRange` with the first sample that isn't of the
/// parameters' kind; `WantOfMemory` if an allocation fails; and `Write`, with the number of bytes that went
/// out, if the sink fails or takes nothing. After any other refusal nothing was written.
#[tactic(auto, unfolding(crate::specs::Compress::Compresses, crate::specs::Compress::IsCompressFault))]
pub fn run_compress<S: Source, K: Sink>(
    alloc: Global,
    source: &mut S,
    sink: &mut K,
    settings: &CompressSettings,
) -> Result<(), Fault>
    requires { IsLayout settings.now.layout }
    ensures checked { (fault : Refusal) → params_fault settings.now.params ≡ Err fault → (result ≡ Err fault) × (source.new ≡ source.old)
        × (sink.new ≡ sink.old) }
    ensures compressed { OnOk result (Compresses settings.now (S.left source.old) (K.taken sink.old) (K.taken sink.new)) }
    ensures refused { IfErr result (IsCompressFault settings.now (S.left source.old) (S.failures source.old) (S.failures source.new) (K.taken sink.old)
        (K.taken sink.new) (K.failures sink.old) (K.failures sink.new) (K.stalls sink.old) (K.stalls sink.new)) }
    ensures worked { OnOk result ((S.failures source.new ≡ S.failures source.old) × (K.failures sink.new ≡ K.failures sink.old)
        × (K.stalls sink.new ≡ K.stalls sink.old)) }
    ensures told { IfErr result (ToldAsRead (S.failures source.old) (S.failures source.new)) }
    ensures unwritten { IfErr result (λ e. IsWrite e ⊎ (sink.new ≡ sink.old)) }
    ensures bounded { GaveWithin (λ _. raw_limit settings.now) (S.left source.old) (S.left source.new) }
{
    settings.params.check()?;
    let file = file_of_source(alloc, source, settings)?;
    write_all(sink, &file)
}

/// Returns the file of the cube whose raw bytes the source has.
///
/// It isn't inlined: the rooms of the bands that are predicted side by side stand on the stack, which no other command should need.
#[inline(never)]
fn file_of_source<S: Source>(
    alloc: Global,
    source: &mut S,
    settings: &CompressSettings,
) -> Result<Vec<u8>, Fault>
    requires lawful { IsLawful settings.now.params }
    requires layout { IsLayout settings.now.layout }
    ensures file { IfOk result (λ file. HasFile settings.now (S.left source.old) file.items) }
    ensures refused { IfErr result (IsCubeRefusal settings.now (S.left source.old) (S.failures source.old) (S.failures source.new)) }
    ensures worked { OnOk result (S.failures source.new ≡ S.failures source.old) }
    ensures told { IfErr result (ToldAsRead (S.failures source.old) (S.failures source.new)) }
    ensures bounded { GaveWithin (λ _. raw_limit settings.now) (S.left source.old) (S.left source.new) }
{
    if goes_by_rows(settings) {
        return file_by_rows(alloc, source, settings);
    }
    let cube = read_cube(alloc, source, settings)?;
    encode_owned(alloc, cube, &settings.params)
}

/// Reads the cube whose raw bytes the source has.
pub(crate) fn read_cube<S: Source>(
    alloc: Global,
    source: &mut S,
    settings: &CompressSettings,
) -> Result<Cube, Fault>
    requires { IsLayout settings.now.layout }
    ensures cube { IfOk result (HasCube settings.now (S.left source.old)) }
    ensures refused { IfErr result (IsCubeRefusal settings.now (S.left source.old) (S.failures source.old) (S.failures source.new)) }
    ensures worked { OnOk result (S.failures source.new ≡ S.failures source.old) }
    ensures told { IfErr result (ToldAsRead (S.failures source.old) (S.failures source.new)) }
    ensures bounded { GaveWithin (λ _. raw_limit settings.now) (S.left source.old) (S.left source.new) }
{
    let params = &settings.params;
    read_raw(alloc, source, params.shape, params.kind, settings.layout)
}
