//! Raw bytes, read from a source some rows at a time: of all bands where the raw order interleaves these, of one band in band sequential order.

ghost use Rattle.std.specs.Prelude.{◌≡◌, ◌+◌, ◌-◌, ◌*◌, ◌≤◌, length, IfErr, OnOk};
ghost use Rattle.cube_core.specs.Layout.{IsLayout};
ghost use Rattle.command_devices.specs.Devices.{Gave, GaveWithin};
ghost use Rattle.command_devices.specs.Reading.{ToldAsRead};
ghost use Rattle.raw_streams.specs.Rows.{GaveRows, IsCutOff, IsRestRefusal, row_bytes, rows_in};
ghost use Rattle.raw_streams.specs.Streams.{most_read};

use crate::part::rows_part;
use crate::read::{read_bytes, read_end};
use command_devices::source::Source;
use cube_core::fault::Fault;
use cube_core::layout::Layout;
use cube_core::shape::Shape;
use raw_rows::one_row::{row_count, row_samples};

/// Reads the raw bytes of `count` rows, from row `y` on. In band sequential order a row is of one band, and rows are counted band after
/// band.
///
/// Returns `Read` if the source fails; `RawLength` if it ends within these rows.
pub fn read_rows<S: Source>(
    source: &mut S,
    shape: Shape,
    layout: Layout,
    y: u64,
    count: u64,
    bytes: &mut [u8],
) -> Result<(), Fault>
    requires layout { IsLayout layout }
    requires inside { y + count ≤ rows_in shape layout }
    requires room { length bytes.old ≡ count * row_bytes shape layout }
    ensures given { OnOk result (Gave (S.left source.old) (S.left source.new) bytes.new) }
    ensures worked { OnOk result (S.failures source.new ≡ S.failures source.old) }
    ensures refused { IfErr result (IsCutOff shape layout y count (S.left source.old) (S.left source.new) (S.failures source.old) (S.failures source.new)) }
    ensures told { IfErr result (ToldAsRead (S.failures source.old) (S.failures source.new)) }
    ensures bounded { GaveWithin (λ _. count * row_bytes shape layout) (S.left source.old) (S.left source.new) }
    ensures long { length bytes.new ≡ length bytes.old }
{
    let part = rows_part(layout, shape, y, count);
    read_bytes(source, shape, layout, part, bytes)
}

/// Reads on after `y` rows, to the end of the scene, and at most a byte further. The bytes are dropped.
///
/// Returns `Read` if the source fails; `RawLength` if there are too few or too many bytes.
pub fn read_rest<S: Source>(
    source: &mut S,
    shape: Shape,
    layout: Layout,
    y: u64,
    bytes: &mut [u8],
) -> Result<(), Fault>
    requires layout { IsLayout layout }
    requires inside { y ≤ rows_in shape layout }
    requires room { length bytes.old ≡ row_bytes shape layout }
    ensures given { OnOk result (GaveRows shape layout y (S.left source.old) (S.left source.new)) }
    ensures long { length bytes.new ≡ length bytes.old }
    ensures worked { OnOk result (S.failures source.new ≡ S.failures source.old) }
    ensures refused { IfErr result (IsRestRefusal shape layout y (S.left source.old) (S.left source.new) (S.failures source.old) (S.failures source.new)) }
    ensures told { IfErr result (ToldAsRead (S.failures source.old) (S.failures source.new)) }
    ensures bounded { GaveWithin (λ _. most_read shape layout - y * row_bytes shape layout) (S.left source.old) (S.left source.new) }
{
    // A row has a byte, in which one more is tried.
    let _size = row_samples(layout, shape);
    let rows = row_count(layout, shape);
    let mut done = y;
    while done < rows {
        read_rows(source, shape, layout, done, 1, bytes)?;
        done += 1;
    }
    read_end(source, shape, layout, &mut bytes[..1])
}
