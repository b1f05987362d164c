//! Rows of one band that are taken from raw bytes together, as one long row.

ghost use Rattle.std.specs.Prelude.{◌≡◌, ◌*◌, ◌≤◌, length, IfOk, IfErr};
ghost use Rattle.cube_core.specs.declared.layout.RawOrder.TheVariants.{Bsq};
ghost use Rattle.cube_core.specs.Layout.{IsLayout};
ghost use Rattle.cube_core.specs.Raw.{IsBadSample};
ghost use Rattle.raw_streams.specs.Joined.{IsFront};

use cube_core::cube::Cube;
use cube_core::fault::Fault;
use cube_core::layout::Layout;
use cube_core::part::Part;

/// Takes the first `count` samples of a row of one band from their raw bytes. What the row holds after them is of no account.
///
/// Returns `SampleRange` with the index of the first sample that isn't of the kind.
pub fn take_front(row: Cube, layout: Layout, count: u64, bytes: &[u8]) -> Result<Cube, Fault>
    requires layout { IsLayout layout }
    requires order { layout.order ≡ Bsq }
    requires row { (row.shape.rows ≡ 1) × (row.shape.bands ≡ 1) }
    requires inside { count ≤ row.shape.columns }
    requires bytes { length bytes.now ≡ count * layout.bytes }
    ensures row { IfOk result (λ c. (c.shape ≡ row.shape) × (c.kind ≡ row.kind) × IsFront c layout count bytes.now) }
    ensures bad { IfErr result (IsBadSample row.kind layout bytes.now) }
{
    let row = row.read_part(layout, Part { first: 0, count }, bytes)?;
    Ok(row)
}
