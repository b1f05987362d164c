//! A cube whose raw bytes come part after part.

ghost use Rattle.std.specs.Prelude.{◌≡◌, ◌+◌, ◌*◌, ◌++◌, List, ℕ, length, IfOk};
ghost use Rattle.cube_core.specs.Shape.{Sizes};
ghost use Rattle.cube_core.specs.Kind.{SampleKind};
ghost use Rattle.cube_core.specs.Layout.{IsLayout};
ghost use Rattle.cube_core.specs.Parts.{IsPart, first_sample, part_samples};
ghost use Rattle.cube_core.specs.Raw.{IsFound};

use crate::cube::Cube;
use crate::fault::Fault;
use crate::layout::Layout;
use crate::part::Part;

/// Reads the next part into what was found so far: the cube, or `SampleRange` of the first sample out of the kind's range, after
/// which nothing more is read.
pub fn read_next(
    found: Result<Cube, Fault>,
    layout: Layout,
    part: Part,
    bytes: &[u8],
) -> Result<Cube, Fault>
    requires layout { IsLayout layout }
    requires part { IfOk found (λ c. IsPart layout c.shape part) }
    requires whole { IfOk found (λ c. length bytes.now ≡ part_samples layout c.shape part * layout.bytes) }
    ensures { (s : Sizes) (k : SampleKind) (before : List ℕ) → length bytes.now ≡ part_samples layout s part * layout.bytes
        → IsFound s k layout before (first_sample layout s part) found
        → IsFound s k layout (before ++ bytes.now) (first_sample layout s part + part_samples layout s part) result }
{
    match found {
        Ok(cube) => cube.read_part(layout, part, bytes),
        Err(fault) => Err(fault),
    }
}
