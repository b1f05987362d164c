//! Tests of encoding orders, and of walks along them.

ghost use Rattle.std.specs.Prelude.{◌≡◌};
ghost use Rattle.cube_core.specs.Order.{IsOrder};

use crate::tests::checks::same;
use cube_core::cursor::Places;
use cube_core::order::{Order, Place, index_of, place_at};
use cube_core::shape::Shape;
use std::process::Abort;

/// Returns a shape of these sizes.
pub(super) fn shape_of(rt: &impl Abort, columns: u32, rows: u32, bands: u32) -> Shape
    ensures columns { result.columns ≡ columns }
    ensures rows { result.rows ≡ rows }
    ensures bands { result.bands ≡ bands }
{
    let shape = Shape::new(columns, rows, bands).expect(rt, "a shape");
    assert!(rt; shape.columns() == columns);
    assert!(rt; shape.rows() == rows);
    assert!(rt; shape.bands() == bands);
    shape
}

/// Asserts that `place_at` returns this place for index `i`, and that `index_of` returns `i` for the place.
fn is_found(rt: &impl Abort, shape: Shape, order: Order, i: u64, place: Place)
    requires { IsOrder shape order }
{
    assert!(rt; i < shape.sample_count());
    same(rt, place_at(&shape, order, i), place);
    assert!(rt; place.z < shape.bands());
    assert!(rt; place.y < shape.rows());
    assert!(rt; place.x < shape.columns());
    same(rt, index_of(&shape, order, place), i);
}

/// Asserts that a place is the next one of a walk, and moves the walk past it.
fn stands_at(rt: &impl Abort, walk: &mut Places, place: Place) {
    same(rt, walk.peek(), Some(place));
    same(rt, walk.next(), Some(place));
}

/// The first places of three bands, two rows and two columns, interleaved with a depth of 2.
const FIRST_PLACES: [Place; 7] = [
    Place { z: 0, y: 0, x: 0 },
    Place { z: 1, y: 0, x: 0 },
    Place { z: 0, y: 0, x: 1 },
    Place { z: 1, y: 0, x: 1 },
    Place { z: 2, y: 0, x: 0 },
    Place { z: 2, y: 0, x: 1 },
    Place { z: 0, y: 1, x: 0 },
];

#[test]
fn places_of_three_bands_two_a_group(rt: HostRuntime) {
    let shape = shape_of(&rt, 2, 2, 3);
    let mut walk = Places::new(shape, Order::Bi(2));
    for i in 0..FIRST_PLACES.len() {
        is_found(&rt, shape, Order::Bi(2), i as u64, FIRST_PLACES[i]);
        stands_at(&rt, &mut walk, FIRST_PLACES[i]);
    }
    same(&rt, walk.left(), 5);
}

#[test]
fn index_of_a_place_of_the_second_group(rt: HostRuntime) {
    let shape = shape_of(&rt, 2, 2, 3);
    let place = Place { z: 2, y: 0, x: 1 };
    same(&rt, index_of(&shape, Order::Bi(2), place), 5);
}

/// Asserts that a walk returns all places of an order, by increasing index.
fn walk_through(rt: &impl Abort, shape: Shape, order: Order)
    requires { IsOrder shape order }
{
    let mut i = 0;
    for place in Places::new(shape, order) {
        is_found(rt, shape, order, i, place);
        assert!(rt; i < shape.sample_count());
        i += 1;
    }
    same(rt, i, shape.sample_count());
}

/// Asserts that a walk that skips any number of places, from any place on, continues at the right index.
fn go_by_many(rt: &impl Abort, shape: Shape, order: Order)
    requires { IsOrder shape order }
{
    let count = shape.sample_count();
    for begun in 0..count {
        for more in 0..=count {
            let mut walk = Places::new(shape, order);
            walk.go_by(begun);
            walk.go_by(more);
            let expected = if begun + more < count {
                Some(place_at(&shape, order, begun + more))
            } else {
                None
            };
            same(rt, walk.peek(), expected);
        }
    }
}

/// Asserts that the places that `column` counts, from any place on, are successive bands of one row and column.
fn go_along_columns(rt: &impl Abort, shape: Shape, order: Order)
    requires { IsOrder shape order }
{
    let count = shape.sample_count();
    for index in 0..count {
        let mut walk = Places::new(shape, order);
        walk.go_by(index);
        let first = place_at(&shape, order, index);
        for i in 0..walk.column() {
            assert!(rt; i < count - index);
            let place = place_at(&shape, order, index + i);
            same(rt, u64::from(place.z), u64::from(first.z) + i);
            same(rt, (place.y, place.x), (first.y, first.x));
        }
    }
}

#[test]
fn walks_through_shapes_of_one_column_row_or_band(rt: HostRuntime) {
    for (columns, rows, bands) in [(1, 3, 5), (3, 1, 5), (3, 2, 1), (2, 3, 5)] {
        let shape = shape_of(&rt, columns, rows, bands);
        walk_through(&rt, shape, Order::Bsq);
        go_by_many(&rt, shape, Order::Bsq);
        go_along_columns(&rt, shape, Order::Bsq);
        for depth in [1, 2, bands] {
            if 1 <= depth && depth <= bands {
                walk_through(&rt, shape, Order::Bi(depth));
                go_by_many(&rt, shape, Order::Bi(depth));
                go_along_columns(&rt, shape, Order::Bi(depth));
            }
        }
    }
}
