//! Raw bytes, read from a source into a cube.

ghost use Rattle.std.specs.Prelude.{◌≡◌, ◌⊎◌, ◌+◌, ◌*◌, ◌<◌, ◌≤◌, ◌^◌, [], length, IfOk, IfErr, OnOk};
ghost use Rattle.cube_core.specs.Shape.{sample_count};
ghost use Rattle.cube_core.specs.Layout.{IsLayout};
ghost use Rattle.cube_core.specs.Parts.{IsPart, part_samples, unit_count};
ghost use Rattle.raw_streams.specs.Streams.{HasRawCube, IsEndRefusal, IsPartRefusal, IsRawRefusal, most_read};
ghost use Rattle.command_devices.specs.Devices.{Gave, GaveWithin, IsEnd};
ghost use Rattle.command_devices.specs.Reading.{ToldAsRead};

use crate::part::{PIECE, length_of, next_part};
use command_devices::reading::fill;
use command_devices::source::Source;
use cube_core::cube::Cube;
use cube_core::fault::Fault;
use cube_core::kind::Kind;
use cube_core::layout::Layout;
use cube_core::part::Part;
use cube_core::reading::read_next;
use cube_core::shape::Shape;
use std::alloc::Global;

/// Reads the cube whose raw bytes the source has, and at most one byte more than these.
///
/// The raw bytes become samples piece by piece, in 131,072 bytes of memory beside the cube. The cube is allocated once its first piece has
/// come. Returns `Read` if the source fails; `RawLength` if there are too few or too many bytes; `SampleRange` with the first sample that
/// isn't of the kind, once the length is known to be right; and `WantOfMemory` if an allocation fails.
pub fn read_raw<S: Source>(
    alloc: Global,
    source: &mut S,
    shape: Shape,
    kind: Kind,
    layout: Layout,
) -> Result<Cube, Fault>
    requires { IsLayout layout }
    ensures cube { IfOk result (HasRawCube shape kind layout (S.left source.old)) }
    ensures refused { IfErr result (IsRawRefusal shape kind layout (S.left source.old) (S.failures source.old) (S.failures source.new)) }
    ensures worked { OnOk result (S.failures source.new ≡ S.failures source.old) }
    ensures told { IfErr result (ToldAsRead (S.failures source.old) (S.failures source.new)) }
    ensures bounded { GaveWithin (λ _. most_read shape layout) (S.left source.old) (S.left source.new) }
{
    let mut room = vec![in alloc; 0u8; PIECE]?;
    read_pieces(alloc, source, shape, kind, layout, &mut room)
}

/// `read_raw` with room for a piece.
fn read_pieces<S: Source>(
    alloc: Global,
    source: &mut S,
    shape: Shape,
    kind: Kind,
    layout: Layout,
    room: &mut [u8],
) -> Result<Cube, Fault>
    requires layout { IsLayout layout }
    requires room { length room.old ≡ 2 ^ 17 }
    ensures cube { IfOk result (HasRawCube shape kind layout (S.left source.old)) }
    ensures refused { IfErr result (IsRawRefusal shape kind layout (S.left source.old) (S.failures source.old) (S.failures source.new)) }
    ensures worked { OnOk result (S.failures source.new ≡ S.failures source.old) }
    ensures told { IfErr result (ToldAsRead (S.failures source.old) (S.failures source.new)) }
    ensures bounded { GaveWithin (λ _. most_read shape layout) (S.left source.old) (S.left source.new) }
{
    let _count = shape.sample_count();
    let units = layout.units(shape);
    let first = next_part(layout, shape, 0);
    let bytes = &mut room[..length_of(layout, shape, first)];
    read_bytes(source, shape, layout, first, bytes)?;
    let cube = Cube::new(alloc, shape, kind)?;
    cube.prove_is_cube();
    let mut found = read_next(Ok(cube), layout, first, bytes);
    let mut done = first.count;
    while done < units {
        let part = next_part(layout, shape, done);
        let bytes = &mut room[..length_of(layout, shape, part)];
        read_bytes(source, shape, layout, part, bytes)?;
        found = read_next(found, layout, part, bytes);
        done += part.count;
    }
    read_end(source, shape, layout, &mut room[..1])?;
    found
}

/// Reads the raw bytes of a part.
///
/// Returns `Read` if the source fails; `RawLength` if it ends within the part.
pub(crate) fn read_bytes<S: Source>(
    source: &mut S,
    shape: Shape,
    layout: Layout,
    part: Part,
    bytes: &mut [u8],
) -> Result<(), Fault>
    requires layout { IsLayout layout }
    requires part { IsPart layout shape part }
    requires room { length bytes.old ≡ part_samples layout shape part * layout.bytes }
    ensures given { OnOk result (Gave (S.left source.old) (S.left source.new) bytes.new) }
    ensures worked { OnOk result (S.failures source.new ≡ S.failures source.old) }
    ensures refused { IfErr result (IsPartRefusal shape layout part (S.left source.old) (S.left source.new) (S.failures source.old) (S.failures source.new)) }
    ensures bounded { GaveWithin (λ _. part_samples layout shape part * layout.bytes) (S.left source.old) (S.left source.new) }
    ensures long { length bytes.new ≡ part_samples layout shape part * layout.bytes }
{
    let n = fill(source, bytes)?;
    if n == bytes.len() {
        return Ok(());
    }
    let _count = shape.sample_count();
    let before = part.first * layout.unit(shape) * u64::from(layout.bytes);
    Err(Fault::RawLength {
        wanted: layout.length(shape),
        had: before + n as u64,
    })
}

/// Reads on, where nothing may come any more.
///
/// Returns `Read` if the source fails; `RawLength` if a byte comes.
pub(crate) fn read_end<S: Source>(
    source: &mut S,
    shape: Shape,
    layout: Layout,
    byte: &mut [u8],
) -> Result<(), Fault>
    requires layout { IsLayout layout }
    requires room { length byte.old ≡ 1 }
    ensures given { OnOk result (Gave (S.left source.old) (S.left source.new) []) }
    ensures ended { OnOk result (IsEnd (S.left source.new)) }
    ensures worked { OnOk result (S.failures source.new ≡ S.failures source.old) }
    ensures refused { IfErr result (IsEndRefusal shape layout (S.left source.old) (S.left source.new) (S.failures source.old) (S.failures source.new)) }
    ensures bounded { GaveWithin (λ _. 1) (S.left source.old) (S.left source.new) }
{
    let n = fill(source, byte)?;
    if n == 0 {
        return Ok(());
    }
    let _count = shape.sample_count();
    let wanted = layout.length(shape);
    Err(Fault::RawLength {
        wanted,
        had: wanted + 1,
    })
}
