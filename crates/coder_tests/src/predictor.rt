//! Tests of the predictor on cube A: residuals of its samples, and samples of its residuals.

ghost use Rattle.std.specs.Prelude.{◌≡◌, ◌<◌, ◌^◌};
ghost use Rattle.cube_core.specs.Order.{IsOrder};
ghost use Rattle.cube_core.specs.Examples.{sizes, unsigned};
ghost use Rattle.header_bits.specs.Lawful.{IsLawful};

use crate::checks::same;
use crate::row_words::numbers_of;
use cube_core::cube::Cube;
use cube_core::cursor::Places;
use cube_core::kind::Kind;
use cube_core::layout::{Layout, RawOrder};
use cube_core::order::{Order, Place};
use cube_core::shape::Shape;
use header_bits::params::Params;
use predict_core::band::Band;
use predict_core::residual::{map_residual, unmap_residual};
use predict_core::rows::Rows;
use std::alloc::Global;
use std::process::Abort;

/// Cube A: three columns, two rows and two bands.
const CUBE_A: [u8; 12] = [100, 102, 105, 101, 104, 103, 110, 111, 115, 112, 113, 114];

/// Returns the shape of cube A.
fn shape_a(rt: &impl Abort) -> Shape
    ensures { result ≡ sizes 3 2 2 }
{
    let shape = Shape::new(3, 2, 2).expect(rt, "a shape");
    assert!(rt; shape.columns() == 3);
    assert!(rt; shape.rows() == 2);
    assert!(rt; shape.bands() == 2);
    shape
}

/// Returns the kind of cube A.
fn kind_a(rt: &impl Abort) -> Kind
    ensures { result ≡ unsigned 8 }
{
    let kind = Kind::new(false, 8).expect(rt, "a kind");
    assert!(rt; kind.bits() == 8);
    assert!(rt; !kind.is_signed());
    kind
}

/// Returns the parameters of cube A.
fn params_a(rt: &impl Abort) -> Params
    ensures lawful { IsLawful result }
    ensures shape { result.shape ≡ sizes 3 2 2 }
    ensures kind { result.kind ≡ unsigned 8 }
{
    Params {
        previous: 1,
        reduced: false,
        column: false,
        ..Params::plain(shape_a(rt), kind_a(rt))
    }
}

/// The predictor of a band of cube A.
#[derive(Drop)]
struct BandOfA {
    band: Band,
    ghost shape: { band.shape ≡ sizes 3 2 2 },
    ghost kind: { band.kind ≡ unsigned 8 },
    ghost inside: { band.band < 2 },
}

fn band_of_a(rt: &impl Abort, alloc: Global, z: u32) -> BandOfA
    requires { z < 2 }
{
    let params = params_a(rt);
    BandOfA {
        band: Band::new(alloc, &params, z).expect(rt, "a band"),
    }
}

/// A cube of cube A's shape and kind.
#[derive(Drop)]
struct CubeOfA {
    cube: Cube,
    ghost shape: { cube.shape ≡ sizes 3 2 2 },
    ghost kind: { cube.kind ≡ unsigned 8 },
}

fn cube_of_a(rt: &impl Abort, alloc: Global, bytes: &[u8]) -> CubeOfA {
    let layout = Layout {
        order: RawOrder::Bsq,
        bytes: 1,
        little: false,
    };
    CubeOfA {
        cube: Cube::from_raw(alloc, shape_a(rt), kind_a(rt), layout, bytes).expect(rt, "a cube"),
    }
}

/// Returns the residual at a place, which is the band's next one.
fn coded(rt: &impl Abort, coder: &mut BandOfA, cube: &CubeOfA, place: Place) -> u16
    ensures { result < 2 ^ 8 }
{
    assert!(rt; place.y < 2);
    assert!(rt; place.x < 3);
    assert!(rt; coder.band.next() == u64::from(place.y) * 3 + u64::from(place.x));
    coder.band.forward(&cube.cube, place.y, place.x)
}

/// Restores the sample at a place from its residual, while the place holds another value.
fn found_again(
    rt: &impl Abort,
    decoder: &mut BandOfA,
    back: &mut CubeOfA,
    place: Place,
    own: u8,
    delta: u16,
)
    requires { delta < 2 ^ 8 }
{
    assert!(rt; place.z < 2);
    assert!(rt; place.y < 2);
    assert!(rt; place.x < 3);
    back.cube.set(place.z, place.y, place.x, i32::from(own));
    assert!(rt; decoder.band.next() == u64::from(place.y) * 3 + u64::from(place.x));
    let sample = decoder.band.inverse(&back.cube, place.y, place.x, delta);
    back.cube.set(place.z, place.y, place.x, sample);
}

/// Returns the residuals of cube A in an order, and the cube that is restored from them.
///
/// Before each sample is restored, its place holds `own`, and all later ones hold `later`.
fn forward_and_back(
    rt: &impl Abort,
    alloc: Global,
    order: Order,
    own: u8,
    later: u8,
) -> (Vec<u16>, CubeOfA)
    requires { IsOrder (sizes 3 2 2) order }
{
    let cube = cube_of_a(rt, alloc, &CUBE_A);
    let mut back = cube_of_a(rt, alloc, &[later; 12]);
    let mut coders = [band_of_a(rt, alloc, 0), band_of_a(rt, alloc, 1)];
    let mut decoders = [band_of_a(rt, alloc, 0), band_of_a(rt, alloc, 1)];
    let mut residuals = Vec::new(alloc);
    for place in Places::new(shape_a(rt), order) {
        let z = place.z as usize;
        assert!(rt; z < 2);
        let delta = coded(rt, &mut coders[z], &cube, place);
        residuals.push(delta).expect(rt, "memory");
        found_again(rt, &mut decoders[z], &mut back, place, own, delta);
    }
    (residuals, back)
}

/// Asserts that cube A has these residuals in an order, and is restored from them.
fn is_coded_as(rt: &impl Abort, alloc: Global, order: Order, residuals: &str)
    requires { IsOrder (sizes 3 2 2) order }
{
    let expected = numbers_of(rt, alloc, residuals);
    for (own, later) in [(255, 7), (0, 255), (128, 0)] {
        let (residuals, back) = forward_and_back(rt, alloc, order, own, later);
        same(rt, residuals.as_slice(), expected.as_slice());
        is_cube_a(rt, &back);
    }
}

#[test]
fn cube_a_forward_and_back_in_each_order(rt: HostRuntime) {
    let alloc = rt.alloc();
    is_coded_as(&rt, alloc, Order::Bsq, "55 3 5 0 4 2 20 1 2 2 1 2");
    is_coded_as(&rt, alloc, Order::Bi(1), "55 3 5 20 1 2 0 4 2 2 1 2");
    is_coded_as(&rt, alloc, Order::Bi(2), "55 20 3 1 5 2 0 2 4 1 2 2");
}

/// Asserts that all samples are those of cube A.
fn is_cube_a(rt: &impl Abort, cube: &CubeOfA) {
    for z in 0..2u32 {
        for y in 0..2u32 {
            for x in 0..3u32 {
                let i = (z * 6 + y * 3 + x) as usize;
                same(rt, cube.cube.sample(z, y, x), i32::from(CUBE_A[i]));
            }
        }
    }
}

/// Asserts that a sample has this mapped residual for a scaled predicted value, and is restored from it.
fn is_mapped(rt: &impl Abort, scaled: u16, sample: u8, residual: u8)
    requires { scaled < 512 }
{
    let kind = kind_a(rt);
    let scaled = i32::from(scaled);
    let sample = i32::from(sample);
    let residual = u16::from(residual);
    same(rt, map_residual(kind, scaled, sample), residual);
    same(rt, unmap_residual(kind, scaled, residual), sample);
}

#[test]
fn mapping_there_and_back(rt: HostRuntime) {
    is_mapped(&rt, 256, 129, 2);
    is_mapped(&rt, 256, 127, 1);
    is_mapped(&rt, 257, 129, 1);
    is_mapped(&rt, 257, 127, 2);
    is_mapped(&rt, 400, 0, 255);
    is_mapped(&rt, 511, 255, 0);
    is_mapped(&rt, 511, 0, 255);
}

/// Returns the residuals of a row of cube A, predicted as a piece.
fn coded_row(rt: &impl Abort, coder: &mut BandOfA, cube: &CubeOfA, y: u32) -> [u16; 3] {
    assert!(rt; y < 2);
    assert!(rt; coder.band.next() == u64::from(y) * 3);
    let rows = Rows::of(&cube.cube, y);
    coder.band.predict_piece(&rows, 0, 3);
    [
        coder.band.piece_residual(0),
        coder.band.piece_residual(1),
        coder.band.piece_residual(2),
    ]
}

/// Asserts that the two rows of a band of cube A, predicted as pieces, have these residuals.
fn rows_are_coded_as(rt: &impl Abort, alloc: Global, z: u32, upper: [u16; 3], lower: [u16; 3])
    requires { z < 2 }
{
    let cube = cube_of_a(rt, alloc, &CUBE_A);
    let mut coder = band_of_a(rt, alloc, z);
    same(rt, coded_row(rt, &mut coder, &cube, 0), upper);
    same(rt, coded_row(rt, &mut coder, &cube, 1), lower);
}

#[test]
fn rows_of_cube_a_as_pieces(rt: HostRuntime) {
    rows_are_coded_as(&rt, rt.alloc(), 0, [55, 3, 5], [0, 4, 2]);
    rows_are_coded_as(&rt, rt.alloc(), 1, [20, 1, 2], [2, 1, 2]);
}
