//! Parts of raw samples, and the pieces of a cube that they consist of.

ghost use Rattle.std.specs.Prelude.{◌≡◌, ◌+◌, ◌*◌, ◌<◌, ◌≤◌, ◌^◌};
ghost use Rattle.cube_core.specs.declared.layout.RawOrder.TheVariants.{Bsq, Bil, Bip};
ghost use Rattle.cube_core.specs.Layout.{order_of};
ghost use Rattle.cube_core.specs.Parts.{IsPieceOf, unit_of, unit_count};
ghost use Rattle.cube_core.specs.Shape.{sample_count};

use crate::layout::Layout;
use crate::shape::{Shape, index_at};

/// Units of raw samples that follow one another in the layout's order: the number of the first, and how many there are.
///
/// A unit is a sample in band sequential order, a row of one band under interleaving by line, and the samples of all bands at
/// one row and column under interleaving by pixel.
#[derive(Clone, Copy, Debug, PartialEq, Eq)]
pub struct Part {
    pub first: u64,
    pub count: u64,
}

impl Part {
    /// Row and band of the first line of a part under interleaving by line.
    pub(crate) fn line(self, shape: Shape) -> (u32, u32)
        requires { self.first ≤ unit_count Bil shape }
        ensures line { result.0 * shape.bands + result.1 ≡ self.first }
        ensures band { result.1 < shape.bands }
        ensures row { result.0 ≤ shape.rows }
    {
        let _rows = shape.rows();
        let bands = u64::from(shape.bands());
        ((self.first / bands) as u32, (self.first % bands) as u32)
    }
}

/// Samples that follow one another in the cube, and lie evenly spaced in a part.
#[derive(Clone, Copy)]
pub(crate) struct Piece {
    /// The index of the first one in the cube.
    pub(crate) at: usize,
    pub(crate) count: usize,
    /// The index of the first one in the part, and the distance from there to the next.
    pub(crate) first: usize,
    pub(crate) step: usize,
}

impl Piece {
    /// All samples of a part in band sequential order, in which the samples of a cube follow one another.
    pub(crate) fn sequential(shape: Shape, part: Part) -> Piece
        requires part { part.first + part.count ≤ sample_count shape }
        ensures piece { IsPieceOf shape (order_of Bsq shape) part.first part.count result.at result.count result.first result.step }
        ensures all { (result.first ≡ 0) × (result.count ≡ part.count) × (result.step ≡ 1) }
    {
        let _count = shape.sample_count();
        Piece {
            at: part.first as usize,
            count: part.count as usize,
            first: 0,
            step: 1,
        }
    }

    /// Row `y` of band `z`, which is the `line`-th of a part under interleaving by line.
    pub(crate) fn line(shape: Shape, part: Part, z: u32, y: u32, line: u64) -> Piece
        requires part { part.first + part.count ≤ unit_count Bil shape }
        requires band { z < shape.bands }
        requires line { (line < part.count) × (y * shape.bands + z ≡ part.first + line) }
        ensures piece { IsPieceOf shape (order_of Bil shape) (part.first * shape.columns) (part.count * shape.columns) result.at result.count result.first
            result.step }
        ensures all { (result.first ≡ line * shape.columns) × (result.count ≡ shape.columns) × (result.step ≡ 1) }
    {
        let _count = shape.sample_count();
        let columns = shape.columns() as usize;
        Piece {
            at: index_at(shape, z, y, 0),
            count: columns,
            first: line as usize * columns,
            step: 1,
        }
    }

    /// The samples of band `z` of `count` pixels of a part under interleaving by pixel, from its `pixel`-th on.
    pub(crate) fn pixels(shape: Shape, part: Part, z: u32, pixel: u64, count: u64) -> Piece
        requires part { part.first + part.count ≤ unit_count Bip shape }
        requires band { z < shape.bands }
        requires pixels { pixel + count ≤ part.count }
        ensures piece { IsPieceOf shape (order_of Bip shape) (part.first * shape.bands) (part.count * shape.bands) result.at result.count result.first
            result.step }
        ensures all { (result.at ≡ z * (shape.rows * shape.columns) + (part.first + pixel)) × (result.count ≡ count)
            × (result.first ≡ pixel * shape.bands + z) × (result.step ≡ shape.bands) }
    {
        let _count = shape.sample_count();
        let bands = shape.bands() as usize;
        let plane = shape.rows() as usize * shape.columns() as usize;
        Piece {
            at: z as usize * plane + (part.first + pixel) as usize,
            count: count as usize,
            first: pixel as usize * bands + z as usize,
            step: bands,
        }
    }
}
