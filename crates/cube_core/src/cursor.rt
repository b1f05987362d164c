//! A walk over the places of a cube in encoding order, which steps from place to place without a division.

ghost use Rattle.std.specs.Prelude.{◌≡◌, ◌+◌, ◌-◌, ◌*◌, ◌<◌, ◌≤◌, ℕ, false, Some, length, drop, slice_get};
ghost use Rattle.std.specs.Iterator.{YieldsFirst, item_count};
ghost use Rattle.cube_core.specs.declared.order.Place.{Place as APlace};
ghost use Rattle.cube_core.specs.Shape.{InRange, sample_count};
ghost use Rattle.cube_core.specs.Order.{IsOrder, IsPlaceOf, goes_along_rows, place_index, places};
ghost use Rattle.cube_core.specs.Cursor.{IsSpot};

use crate::order::{Order, Place};
use crate::shape::Shape;
use std::marker::Model;

/// A place, and under interleaving the bands `first` to `end - 1` of its group; in band-sequential order both are 0.
#[derive(Clone, Copy)]
pub(crate) struct Spot {
    pub(crate) place: Place,
    pub(crate) first: u32,
    pub(crate) end: u32,
}

/// The places still to come, in encoding order.
#[derive(Drop)]
pub struct Places {
    shape: Shape,
    order: Order,
    spot: Spot,
    left: u64,
}

impl Model for Places {
    ghost use Rattle.std.specs.Prelude.{List};
    ghost use Rattle.cube_core.specs.declared.order.Place.{Place};
    ghost use Rattle.cube_core.specs.Cursor.{IsWalk, places_left};

    ghost Value = { List Place };

    ghost view = { λ w. places_left w.shape w.order w.left };

    ghost invariant = { λ w. IsWalk w.shape w.order w.spot w.left };
}

impl Places {
    /// Returns all places of a cube, in encoding order. A depth of interleaving is 1 to the number of bands.
    pub fn new(shape: Shape, order: Order) -> Places
        requires { IsOrder shape order }
        ensures { result ≡ places shape order }
    {
        Places {
            shape,
            order,
            spot: first_spot(shape, order),
            left: shape.sample_count(),
        }
    }

    /// Returns the next place, or `None` after the last.
    pub fn peek(&self) -> Option<Place>
        ensures { result ≡ slice_get self.now 0 }
    {
        if self.left == 0 {
            None
        } else {
            Some(self.spot.place)
        }
    }

    /// Returns how many places are still to come.
    pub fn left(&self) -> u64
        ensures { result ≡ length self.now }
    {
        self.left
    }

    /// Returns a number of next places that share a row and column, band after band: 1 in band-sequential order, in interleaved
    /// order those up to the last band of the group, and 0 after the last place.
    pub fn column(&self) -> u64
        ensures along { (i : ℕ) (p : APlace) → i < result → slice_get self.now 0 ≡ Some p → slice_get self.now i ≡ Some (record p { z = p.z + i }) }
        ensures some { (p : APlace) → slice_get self.now 0 ≡ Some p → 1 ≤ result }
    {
        if self.left == 0 {
            return 0;
        }
        match self.order {
            Order::Bsq => 1,
            Order::Bi(_) => u64::from(self.spot.end - self.spot.place.z),
        }
    }

    /// Skips `count` places, or all that are left if these are fewer.
    pub fn go_by(&mut self, count: u64)
        ensures { self.new ≡ drop count self.old }
    {
        let mut rest = count.min(self.left);
        while rest > 0 {
            let (spot, on) = spot_ahead(self.shape, self.order, self.spot, rest - 1);
            rest -= on + 1;
            self.left -= on + 1;
            if self.left > 0 {
                self.spot = spot_after(self.shape, self.order, spot);
            }
        }
    }
}

impl Iterator for Places {
    type Item = Place;

    ghost next_gives = { YieldsFirst (λ w. w) };

    ghost remaining = { item_count (λ w. w) };

    fn next(&mut self) -> Option<Place> {
        if self.left == 0 {
            return None;
        }
        let place = self.spot.place;
        self.left -= 1;
        if self.left > 0 {
            self.spot = spot_after(self.shape, self.order, self.spot);
        }
        Some(place)
    }
}

/// The spot of the first place.
fn first_spot(shape: Shape, order: Order) -> Spot
    requires { IsOrder shape order }
    ensures spot { IsSpot shape order result }
    ensures first { place_index shape order result.place ≡ 0 }
{
    // No size is 0, so there is a first place.
    let _count = shape.sample_count();
    let place = Place { z: 0, y: 0, x: 0 };
    match order {
        Order::Bsq => Spot {
            place,
            first: 0,
            end: 0,
        },
        Order::Bi(depth) => Spot {
            place,
            first: 0,
            end: depth,
        },
    }
}

/// Returns the spot at most `most` places further on, and how many places away it is: in the same row where places go along rows;
/// otherwise whole columns of bands away, and then in the same column.
fn spot_ahead(shape: Shape, order: Order, spot: Spot, most: u64) -> (Spot, u64)
    requires order { IsOrder shape order }
    requires spot { IsSpot shape order spot }
    ensures spot { IsSpot shape order result.0 }
    ensures index { place_index shape order result.0.place ≡ place_index shape order spot.place + result.1 }
    ensures most { result.1 ≤ most }
{
    let place = spot.place;
    if order.goes_along_rows() {
        let on = most.min(u64::from(shape.columns() - 1 - place.x));
        let place = Place {
            x: place.x + on as u32,
            ..place
        };
        (Spot { place, ..spot }, on)
    } else {
        let columns = columns_within(shape, order, spot, most);
        let whole = columns * u64::from(spot.end - spot.first);
        let on = (most - whole).min(u64::from(spot.end - 1 - place.z));
        let place = Place {
            z: place.z + on as u32,
            y: place.y,
            x: place.x + columns as u32,
        };
        (Spot { place, ..spot }, whole + on)
    }
}

/// Returns how many columns of a group's bands are within `most` places and the rest of the row.
#[inline(always)]
fn columns_within(shape: Shape, order: Order, spot: Spot, most: u64) -> u64
    requires order { IsOrder shape order }
    requires by_columns { goes_along_rows order ≡ false }
    requires spot { IsSpot shape order spot }
    ensures few { result * (spot.end - spot.first) ≤ most }
    ensures inside { spot.place.x + result < shape.columns }
{
    let size = u64::from(spot.end - spot.first);
    if most < size {
        return 0;
    }
    (most / size).min(u64::from(shape.columns() - 1 - spot.place.x))
}

/// Returns the spot after one that isn't the last.
fn spot_after(shape: Shape, order: Order, spot: Spot) -> Spot
    requires order { IsOrder shape order }
    requires spot { IsSpot shape order spot }
    requires more { place_index shape order spot.place + 1 < sample_count shape }
    ensures spot { IsSpot shape order result }
    ensures next { place_index shape order result.place ≡ place_index shape order spot.place + 1 }
{
    match order {
        Order::Bsq => Spot {
            place: place_after(shape, spot.place),
            ..spot
        },
        Order::Bi(depth) => interleaved_after(shape, depth, spot),
    }
}

/// Returns the place after one that isn't the last, in band sequential order.
fn place_after(shape: Shape, place: Place) -> Place
    requires place { IsPlaceOf shape place }
    requires more { place_index shape Order.Bsq place + 1 < sample_count shape }
    ensures place { IsPlaceOf shape result }
    ensures next { place_index shape Order.Bsq result ≡ place_index shape Order.Bsq place + 1 }
{
    let Place { z, y, x } = place;
    if x + 1 < shape.columns() {
        Place { z, y, x: x + 1 }
    } else if y + 1 < shape.rows() {
        Place { z, y: y + 1, x: 0 }
    } else {
        Place {
            z: z + 1,
            y: 0,
            x: 0,
        }
    }
}

/// Returns the spot after one that isn't the last, in interleaved order.
fn interleaved_after(shape: Shape, depth: u32, spot: Spot) -> Spot
    requires depth { InRange 1 shape.bands depth }
    requires spot { IsSpot shape (Order.Bi depth) spot }
    requires more { place_index shape (Order.Bi depth) spot.place + 1 < sample_count shape }
    ensures spot { IsSpot shape (Order.Bi depth) result }
    ensures next { place_index shape (Order.Bi depth) result.place ≡ place_index shape (Order.Bi depth) spot.place + 1 }
{
    let Spot { place, first, end } = spot;
    let Place { z, y, x } = place;
    if z + 1 < end {
        Spot {
            place: Place { z: z + 1, y, x },
            first: first,
            end: end,
        }
    } else if x + 1 < shape.columns() {
        Spot {
            place: Place {
                z: first,
                y,
                x: x + 1,
            },
            first: first,
            end: end,
        }
    } else if end < shape.bands() {
        Spot {
            place: Place { z: end, y, x: 0 },
            first: end,
            end: shape.bands().min(end + depth),
        }
    } else {
        Spot {
            place: Place {
                z: 0,
                y: y + 1,
                x: 0,
            },
            first: 0,
            end: depth,
        }
    }
}
