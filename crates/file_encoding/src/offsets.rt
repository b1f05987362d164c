//! The offsets of a cube's samples, band after band.

ghost use Rattle.std.specs.Prelude.{◌≡◌, ◌+◌, ◌<◌, IsTrue};
ghost use Rattle.std.specs.List.{flat_map};
ghost use Rattle.cube_core.specs.Order.{upto};
ghost use Rattle.file_encoding.specs.InPlace.{all_offsets, offsets_of};

use crate::taker::Taker;
use cube_core::cube::Cube;

/// Sends the samples of a cube as offsets from the least sample, band after band and row after row. Returns false if the taker has
/// stopped.
pub(crate) fn send_offsets<T: Taker>(cube: &Cube, taker: &mut T) -> bool
    requires may { T.may taker.old (all_offsets cube.now) }
    ensures sent { T.takes taker.old taker.new result (all_offsets cube.now) }
{
    for z in 0..cube.shape().bands() {
        if !send_plane(cube, z, taker) {
            return false;
        }
    }
    true
}

/// Does the same for one band.
fn send_plane<T: Taker>(cube: &Cube, z: u32, taker: &mut T) -> bool
    requires band { z < cube.now.shape.bands }
    requires may { T.may taker.old (flat_map (λ y. offsets_of cube.now z y) (upto cube.now.shape.rows)) }
    ensures sent { T.takes taker.old taker.new result (flat_map (λ y. offsets_of cube.now z y) (upto cube.now.shape.rows)) }
{
    cube.prove_is_cube();
    for y in 0..cube.shape().rows() {
        if !taker.take(cube.row(z, y)) {
            return false;
        }
    }
    true
}
