//! How many bytes a file may have.

ghost use Rattle.std.specs.Prelude.{◌≡◌, ◌≤◌, ◌+◌, ◌*◌, ◌^◌, ◌<◌};
ghost use Rattle.cube_core.specs.Shape.{AreSizes};
ghost use Rattle.ccsds123.specs.Asked.{shape_of};
ghost use Rattle.ccsds123.specs.Bound.{most_bytes as most_bytes_of, most_header as most_header_of, most_sample_body, most_block_body};

use crate::asked::has_accumulators;
use crate::records::ParamsRecord;
use cube_core::shape::Shape;

/// Returns a number of bytes that no file exceeds whose parameters have these numbers.
#[tactic(auto, unfolding(crate::specs::Bound::most_bytes))]
pub fn most_bytes(given: &ParamsRecord, shape: Shape) -> u64
    requires shape { shape ≡ shape_of given.now }
    requires bits { given.now.bits ≤ 16 }
    ensures { result ≡ most_bytes_of given.now }
{
    let body = if given.coder == 0 {
        sample_body(given, shape)
    } else {
        block_body(given, shape)
    };
    (most_header(given, shape) + body) / 8 + 8
}

#[tactic(auto, unfolding(crate::specs::Bound::most_header))]
fn most_header(given: &ParamsRecord, shape: Shape) -> u64
    requires shape { shape ≡ shape_of given.now }
    ensures bits { result ≡ most_header_of given.now }
    ensures few { result ≤ 2 ^ 32 }
{
    let bands = u64::from(shape.bands());
    let weights = if given.weight_table != 0 {
        bands * 396 + 7
    } else {
        0
    };
    let accumulators = if has_accumulators(given) {
        bands * 4 + 7
    } else {
        0
    };
    152 + weights + accumulators
}

#[tactic(auto, unfolding(crate::specs::Bound::most_sample_body))]
fn sample_body(given: &ParamsRecord, shape: Shape) -> u64
    requires shape { shape ≡ shape_of given.now }
    requires bits { given.now.bits ≤ 16 }
    ensures bits { result ≡ most_sample_body given.now }
    ensures few { result ≤ 2 ^ 48 * 48 }
{
    shape.sample_count() * u64::from(given.umax.min(32) + given.bits)
}

#[tactic(auto, unfolding(crate::specs::Bound::most_block_body))]
fn block_body(given: &ParamsRecord, shape: Shape) -> u64
    requires shape { shape ≡ shape_of given.now }
    requires bits { given.now.bits ≤ 16 }
    ensures bits { result ≡ most_block_body given.now }
    ensures few { result ≤ 2 ^ 48 * 18 }
{
    let count = shape.sample_count();
    count * u64::from(given.bits) + 63 * 16 + (count / 8 + 1) * 6
}
