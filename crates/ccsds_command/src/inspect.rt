//! From a file to its header's fields as lines of text.

ghost use Rattle.std.specs.Prelude.{◌≡◌, ◌⊎◌, IfOk, IfErr, OnOk};
ghost use Rattle.header_bits.specs.Lawful.{IsLawful};
ghost use Rattle.command_devices.specs.Reading.{ToldAsRead};
ghost use Rattle.command_devices.specs.Writing.{IsWrite};
ghost use Rattle.ccsds_command.specs.Inspect.{HasHeader, HasLines, Inspects, IsInspectFault, IsInspectRefusal, header_limit};
ghost use Rattle.command_devices.specs.Devices.{GaveWithin};

use command_devices::reading::read_up_to;
use command_devices::sink::Sink;
use command_devices::source::Source;
use command_devices::writing::write_all;
use command_reports::lines::header_lines;
use cube_core::fault::Fault;
use header_bits::header::read_header;
use header_bits::params::Params;
use std::alloc::Global;

/// The greatest number of bytes that are read. The longest header, with the largest tables, has some 3,300,000.
const HEADER_LIMIT: u64 = 1 << 22;

/// Reads the front of a file, and writes a line for each field of its header, a name, a space and the value, and a last line with the header's
/// length in bytes.
///
/// The first 2^22 bytes are read, or all of a shorter file, since no header is longer; what follows the header isn't looked at.
/// Returns `Read` if the source fails; the refusals of `read_header`; `WantOfMemory` if an allocation fails; and `Write`, with the
/// number of bytes that went out, if the sink fails or takes nothing. After any other refusal nothing was written.
#[tactic(auto, unfolding(crate::specs::Inspect::Inspects, crate::specs::Inspect::IsInspectFault))]
pub fn run_inspect<S: Source, K: Sink>(
    alloc: Global,
    source: &mut S,
    sink: &mut K,
) -> Result<(), Fault>
    ensures inspected { OnOk result (Inspects (S.left source.old) (K.taken sink.old) (K.taken sink.new)) }
    ensures refused { IfErr result (IsInspectFault (S.left source.old) (S.failures source.old) (S.failures source.new) (K.taken sink.old) (K.taken sink.new)
        (K.failures sink.old) (K.failures sink.new) (K.stalls sink.old) (K.stalls sink.new)) }
    ensures worked { OnOk result ((S.failures source.new ≡ S.failures source.old) × (K.failures sink.new ≡ K.failures sink.old)
        × (K.stalls sink.new ≡ K.stalls sink.old)) }
    ensures told { IfErr result (ToldAsRead (S.failures source.old) (S.failures source.new)) }
    ensures unwritten { IfErr result (λ e. IsWrite e ⊎ (sink.new ≡ sink.old)) }
    ensures bounded { GaveWithin (λ _. header_limit) (S.left source.old) (S.left source.new) }
{
    let text = lines_of_source(alloc, source)?;
    write_all(sink, &text)
}

/// Returns the lines of the source's header.
fn lines_of_source<S: Source>(alloc: Global, source: &mut S) -> Result<Vec<u8>, Fault>
    ensures lines { IfOk result (λ text. HasLines (S.left source.old) text.items) }
    ensures refused { IfErr result (IsInspectRefusal (S.left source.old) (S.failures source.old) (S.failures source.new)) }
    ensures worked { OnOk result (S.failures source.new ≡ S.failures source.old) }
    ensures told { IfErr result (ToldAsRead (S.failures source.old) (S.failures source.new)) }
    ensures bounded { GaveWithin (λ _. header_limit) (S.left source.old) (S.left source.new) }
{
    let (params, size) = header_of_source(alloc, source)?;
    header_lines(alloc, &params, size)
}

/// Returns the source's header: its parameters, and its length in bytes.
fn header_of_source<S: Source>(alloc: Global, source: &mut S) -> Result<(Params, usize), Fault>
    ensures header { IfOk result (λ found. HasHeader (S.left source.old) found.0 found.1) }
    ensures lawful { IfOk result (λ found. IsLawful found.0) }
    ensures refused { IfErr result (IsInspectRefusal (S.left source.old) (S.failures source.old) (S.failures source.new)) }
    ensures worked { OnOk result (S.failures source.new ≡ S.failures source.old) }
    ensures told { IfErr result (ToldAsRead (S.failures source.old) (S.failures source.new)) }
    ensures bounded { GaveWithin (λ _. header_limit) (S.left source.old) (S.left source.new) }
{
    let bytes = read_up_to(alloc, source, HEADER_LIMIT)?;
    read_header(alloc, &bytes)
}
