//! The order in which the samples of a cube are encoded.

ghost use Rattle.std.specs.Prelude.{◌≡◌, ◌<◌, slice_get, Some};
ghost use Rattle.cube_core.specs.Shape.{InRange, sample_count};
ghost use Rattle.cube_core.specs.Order.{IsOrder, IsPlaceOf, goes_along_rows, place_index, places};

use crate::shape::Shape;

/// The order in which samples are encoded (CCSDS 123.0-B-1, "Encoding order").
#[derive(Clone, Copy, Debug, PartialEq, Eq)]
pub enum Order {
    /// Band sequential: band after band, row after row.
    Bsq,
    /// Band interleaved, with so many bands in a group: 1 is by line, all bands is by pixel.
    Bi(u32),
}

impl Order {
    /// Returns whether places go along the rows of a band: in band sequential order, and interleaved with depth
    /// 1.
    pub fn goes_along_rows(self) -> bool
        ensures { result ≡ goes_along_rows self }
    {
        match self {
            Order::Bsq => true,
            Order::Bi(depth) => depth == 1,
        }
    }
}

/// The coordinates of a sample: band `z`, row `y`, column `x`, each from 0.
#[derive(Clone, Copy, Debug, PartialEq, Eq)]
pub struct Place {
    pub z: u32,
    pub y: u32,
    pub x: u32,
}

/// Returns the place with index `i` in encoding order, from 0. `i` is below the number of samples, and the
/// depth 1 to the number of bands.
pub fn place_at(shape: &Shape, order: Order, i: u64) -> Place
    requires order { IsOrder shape.now order }
    requires within { i < sample_count shape.now }
    ensures place { IsPlaceOf shape.now result }
    ensures index { place_index shape.now order result ≡ i }
    ensures item { slice_get (places shape.now order) i ≡ Some result }
{
    match order {
        Order::Bsq => sequential_place(*shape, i),
        Order::Bi(depth) => interleaved_place(*shape, depth, i),
    }
}

/// Returns the index of a place in encoding order: the inverse of `place_at`. The place is inside the shape,
/// and the depth 1 to the number of bands.
pub fn index_of(shape: &Shape, order: Order, place: Place) -> u64
    requires order { IsOrder shape.now order }
    requires place { IsPlaceOf shape.now place }
    ensures index { result ≡ place_index shape.now order place }
    ensures within { result < sample_count shape.now }
    ensures item { slice_get (places shape.now order) result ≡ Some place }
{
    match order {
        Order::Bsq => sequential_index(*shape, place),
        Order::Bi(depth) => interleaved_index(*shape, depth, place),
    }
}

/// The place with index `i` in band sequential order.
fn sequential_place(shape: Shape, i: u64) -> Place
    requires { i < sample_count shape }
    ensures place { IsPlaceOf shape result }
    ensures index { place_index shape Order.Bsq result ≡ i }
{
    let columns = u64::from(shape.columns());
    let rows = u64::from(shape.rows());
    Place {
        z: (i / columns / rows) as u32,
        y: (i / columns % rows) as u32,
        x: (i % columns) as u32,
    }
}

/// The place with index `i` in interleaved order.
fn interleaved_place(shape: Shape, depth: u32, i: u64) -> Place
    requires depth { InRange 1 shape.bands depth }
    requires within { i < sample_count shape }
    ensures place { IsPlaceOf shape result }
    ensures index { place_index shape (Order.Bi depth) result ≡ i }
{
    // The range of the rows bounds `y`.
    let _rows = shape.rows();
    let columns = u64::from(shape.columns());
    let bands = u64::from(shape.bands());
    let depth = u64::from(depth);
    let line = bands * columns;
    let whole_group = depth * columns;
    let in_line = i % line;
    let first = in_line / whole_group * depth;
    let size = depth.min(bands - first);
    let in_group = in_line % whole_group;
    Place {
        z: (first + in_group % size) as u32,
        y: (i / line) as u32,
        x: (in_group / size) as u32,
    }
}

/// The index of a place in band sequential order.
fn sequential_index(shape: Shape, place: Place) -> u64
    requires { IsPlaceOf shape place }
    ensures { result ≡ place_index shape Order.Bsq place }
{
    let row = u64::from(place.z) * u64::from(shape.rows()) + u64::from(place.y);
    row * u64::from(shape.columns()) + u64::from(place.x)
}

/// The index of a place in interleaved order.
fn interleaved_index(shape: Shape, depth: u32, place: Place) -> u64
    requires depth { InRange 1 shape.bands depth }
    requires place { IsPlaceOf shape place }
    ensures { result ≡ place_index shape (Order.Bi depth) place }
{
    // The number of samples bounds the index.
    let _count = shape.sample_count();
    let bands = u64::from(shape.bands());
    let columns = u64::from(shape.columns());
    let first = u64::from(place.z / depth * depth);
    let size = u64::from(depth).min(bands - first);
    let before = (u64::from(place.y) * bands + first) * columns;
    before + (u64::from(place.x) * size + (u64::from(place.z) - first))
}
