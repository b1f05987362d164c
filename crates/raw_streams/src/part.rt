//! The parts that go through a piece of memory.

ghost use Rattle.std.specs.Prelude.{◌≡◌, ◌+◌, ◌*◌, ◌<◌, ◌≤◌, ◌^◌};
ghost use Rattle.cube_core.specs.Layout.{IsLayout};
ghost use Rattle.cube_core.specs.Parts.{IsPart, first_sample, part_samples, unit_count, unit_of};
ghost use Rattle.raw_streams.specs.Rows.{rows_in, samples_in_row};

use cube_core::layout::{Layout, RawOrder};
use cube_core::part::Part;
use cube_core::shape::Shape;
use raw_rows::one_row::row_count;

/// The most bytes of a piece. No unit of raw samples has more.
pub(crate) const PIECE: usize = 1 << 17;

/// Returns the part after the first `done` units, which aren't all: as many as fit in a piece, or those that are left.
pub(crate) fn next_part(layout: Layout, shape: Shape, done: u64) -> Part
    requires layout { IsLayout layout }
    requires more { done < unit_count layout.order shape }
    ensures first { result.first ≡ done }
    ensures some { 1 ≤ result.count }
    ensures part { IsPart layout shape result }
    ensures short { part_samples layout shape result * layout.bytes ≤ 2 ^ 17 }
{
    let most = PIECE as u64 / (layout.unit(shape) * u64::from(layout.bytes));
    Part {
        first: done,
        count: most.min(layout.units(shape) - done),
    }
}

/// Returns the number of raw bytes of a part that fits in a piece.
pub(crate) fn length_of(layout: Layout, shape: Shape, part: Part) -> usize
    requires layout { IsLayout layout }
    requires short { part_samples layout shape part * layout.bytes ≤ 2 ^ 17 }
    ensures { result ≡ part_samples layout shape part * layout.bytes }
{
    (part.count * layout.unit(shape)) as usize * layout.bytes as usize
}

/// Returns the part that `count` rows are, from row `y` on.
pub(crate) fn rows_part(layout: Layout, shape: Shape, y: u64, count: u64) -> Part
    requires inside { y + count ≤ rows_in shape layout }
    ensures part { IsPart layout shape result }
    ensures first { first_sample layout shape result ≡ y * samples_in_row shape layout }
    ensures samples { part_samples layout shape result ≡ count * samples_in_row shape layout }
{
    // There are at most 2^32 rows.
    let _rows = row_count(layout, shape);
    let units = u64::from(row_units(layout, shape));
    Part {
        first: y * units,
        count: count * units,
    }
}

/// Returns how many units a row is: a row of one band in band sequential order, else one of all bands.
fn row_units(layout: Layout, shape: Shape) -> u32
    ensures row { result * unit_of layout.order shape ≡ samples_in_row shape layout }
    ensures all { rows_in shape layout * result ≡ unit_count layout.order shape }
    ensures range { result ≤ 65536 }
{
    match layout.order {
        RawOrder::Bsq => shape.columns(),
        RawOrder::Bil => shape.bands(),
        RawOrder::Bip => shape.columns(),
    }
}
