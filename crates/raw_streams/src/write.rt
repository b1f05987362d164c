//! The raw bytes of a cube, written to a sink.

ghost use Rattle.std.specs.Prelude.{◌≡◌, ◌⊎◌, ◌^◌, length, OnOk, IfErr};
ghost use Rattle.cube_core.specs.Shape.{sample_count};
ghost use Rattle.cube_core.specs.Layout.{IsLayout, HaveBytes, raw_bytes};
ghost use Rattle.cube_core.specs.declared.fault.Fault.TheVariants.{WantOfMemory};
ghost use Rattle.command_devices.specs.Devices.{Took};
ghost use Rattle.command_devices.specs.Writing.{IsCutShort};

use crate::part::{PIECE, length_of, next_part};
use command_devices::sink::Sink;
use command_devices::writing::write_more;
use cube_core::cube::Cube;
use cube_core::fault::Fault;
use cube_core::layout::Layout;
use std::alloc::Global;

/// Writes the raw bytes of a cube, each of whose samples fits in its bytes.
///
/// The samples become raw bytes piece by piece, in 131,072 bytes of memory beside the cube. Returns `WantOfMemory` if these can't be
/// allocated, and then nothing was written; and `Write`, with the number of bytes that went out, if the sink fails or takes nothing.
pub fn write_raw<K: Sink>(
    alloc: Global,
    sink: &mut K,
    cube: &Cube,
    layout: Layout,
) -> Result<(), Fault>
    requires layout { IsLayout layout }
    requires fits { HaveBytes cube.now layout (sample_count cube.now.shape) }
    ensures whole { OnOk result (Took (K.taken sink.old) (K.taken sink.new) (raw_bytes cube.now layout)) }
    ensures worked { OnOk result ((K.failures sink.new ≡ K.failures sink.old) × (K.stalls sink.new ≡ K.stalls sink.old)) }
    ensures refused { IfErr result (λ e. ((e ≡ WantOfMemory) × (sink.new ≡ sink.old)) ⊎ IsCutShort (K.taken sink.old) (K.taken sink.new)
        (K.failures sink.old) (K.failures sink.new) (K.stalls sink.old) (K.stalls sink.new) (raw_bytes cube.now layout) e) }
{
    let mut room = vec![in alloc; 0u8; PIECE]?;
    write_pieces(sink, cube, layout, &mut room)
}

/// `write_raw` with room for a piece.
fn write_pieces<K: Sink>(
    sink: &mut K,
    cube: &Cube,
    layout: Layout,
    room: &mut [u8],
) -> Result<(), Fault>
    requires layout { IsLayout layout }
    requires fits { HaveBytes cube.now layout (sample_count cube.now.shape) }
    requires room { length room.old ≡ 2 ^ 17 }
    ensures whole { OnOk result (Took (K.taken sink.old) (K.taken sink.new) (raw_bytes cube.now layout)) }
    ensures worked { OnOk result ((K.failures sink.new ≡ K.failures sink.old) × (K.stalls sink.new ≡ K.stalls sink.old)) }
    ensures cut { IfErr result (IsCutShort (K.taken sink.old) (K.taken sink.new) (K.failures sink.old) (K.failures sink.new) (K.stalls sink.old)
        (K.stalls sink.new) (raw_bytes cube.now layout)) }
{
    let shape = cube.shape();
    let _count = shape.sample_count();
    let units = layout.units(shape);
    let mut done = 0;
    let mut sent = 0;
    while done < units {
        let part = next_part(layout, shape, done);
        let bytes = &mut room[..length_of(layout, shape, part)];
        cube.write_part(layout, part, bytes);
        write_more(sink, bytes, sent)?;
        done += part.count;
        sent += bytes.len() as u64;
    }
    Ok(())
}
