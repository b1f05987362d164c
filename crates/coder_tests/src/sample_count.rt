//! A test that a caller can prove how many samples a cube has.

ghost use Rattle.std.specs.Prelude.{◌≡◌, length};

use crate::checks::same;
use cube_core::cube::Cube;
use cube_core::kind::Kind;
use cube_core::shape::Shape;
use std::process::Abort;

/// Returns the number of a cube's samples, computed from its shape alone.
fn sample_count_of(cube: &Cube) -> u64
    ensures { result ≡ length cube.now.samples }
{
    cube.prove_is_cube();
    cube.shape().sample_count()
}

#[test]
fn a_cube_has_as_many_samples_as_places(rt: HostRuntime) {
    let shape = Shape::new(3, 2, 4).expect(&rt, "a shape");
    let kind = Kind::new(true, 12).expect(&rt, "a kind");
    let cube = Cube::new(rt.alloc(), shape, kind).expect(&rt, "memory");
    same(&rt, sample_count_of(&cube), 24);
}
