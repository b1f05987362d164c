//! Tests of cubes: ranges of sizes and samples, layouts of raw bytes, and refusals.

ghost use Rattle.cube_core.specs.Layout.{IsLayout};

use super::places::shape_of;
use crate::tests::checks::same;
use cube_core::cube::Cube;
use cube_core::cursor::Places;
use cube_core::fault::{Fault, Field};
use cube_core::kind::Kind;
use cube_core::layout::{Layout, RawOrder};
use cube_core::order::{Order, Place};
use cube_core::shape::Shape;
use std::alloc::Global;
use std::process::Abort;

#[test]
fn sizes_and_bits_out_of_range(rt: HostRuntime) {
    let bits = Fault::FieldRange {
        field: Field::DynamicRange,
        value: 17,
    };
    same(&rt, Kind::new(false, 17), Err(bits));
    let columns = Fault::FieldRange {
        field: Field::Columns,
        value: 0,
    };
    same(&rt, Shape::new(0, 1, 1), Err(columns));
    assert!(rt; Shape::new(65_536, 65_536, 65_536).is_ok());
}

#[test]
fn new_cube_is_zero_until_set(rt: HostRuntime) {
    let kind = Kind::new(true, 8).expect(&rt, "a kind");
    assert!(rt; kind.smin() == -128);
    assert!(rt; kind.smax() == 127);
    let shape = shape_of(&rt, 1, 1, 1);
    let mut cube = Cube::new(rt.alloc(), shape, kind).expect(&rt, "memory");
    same(&rt, cube.sample(0, 0, 0), 0);
    cube.set(0, 0, 0, -128);
    same(&rt, cube.sample(0, 0, 0), -128);
}

/// Reads raw bytes, the low one first, as a cube of one 11-bit sample, and returns the sample.
fn lone_sample(rt: &impl Abort, alloc: Global, bytes: &[u8]) -> Result<i32, Fault> {
    let layout = Layout {
        order: RawOrder::Bsq,
        bytes: 2,
        little: true,
    };
    let kind = Kind::new(false, 11).expect(rt, "a kind");
    let cube = Cube::from_raw(alloc, shape_of(rt, 1, 1, 1), kind, layout, bytes)?;
    Ok(cube.sample(0, 0, 0))
}

#[test]
fn lone_samples_of_eleven_bits(rt: HostRuntime) {
    let alloc = rt.alloc();
    same(
        &rt,
        lone_sample(&rt, alloc, &[0x00, 0x08]),
        Err(Fault::SampleRange { index: 0 }),
    );
    same(&rt, lone_sample(&rt, alloc, &[0xFF, 0x07]), Ok(2047));
    same(
        &rt,
        lone_sample(&rt, alloc, &[0xFF]),
        Err(Fault::RawLength { wanted: 2, had: 1 }),
    );
}

/// Returns the 12-bit samples of two columns, two rows and three bands, in an order of raw bytes.
fn samples_in(order: RawOrder) -> [u16; 12] {
    match order {
        RawOrder::Bsq => [
            0x001, 0x002, 0x003, 0x004, 0x105, 0x106, 0x107, 0x108, 0xF09, 0xF0A, 0xF0B, 0xF0C,
        ],
        RawOrder::Bil => [
            0x001, 0x002, 0x105, 0x106, 0xF09, 0xF0A, 0x003, 0x004, 0x107, 0x108, 0xF0B, 0xF0C,
        ],
        RawOrder::Bip => [
            0x001, 0x105, 0xF09, 0x002, 0x106, 0xF0A, 0x003, 0x107, 0xF0B, 0x004, 0x108, 0xF0C,
        ],
    }
}

/// Returns these samples as raw bytes, two for each.
fn bytes_in(rt: &impl Abort, alloc: Global, order: RawOrder, little: bool) -> Vec<u8> {
    let mut bytes = Vec::new(alloc);
    for sample in samples_in(order) {
        let [high, low] = sample.to_be_bytes();
        let two = if little { [low, high] } else { [high, low] };
        bytes.extend_from_slice(&two).expect(rt, "memory");
    }
    bytes
}

/// Asserts that a cube has this sample at a place.
fn has_sample(rt: &impl Abort, cube: &Cube, place: Place, wanted: u16) {
    let shape = cube.shape();
    assert!(rt; place.z < shape.bands());
    assert!(rt; place.y < shape.rows());
    assert!(rt; place.x < shape.columns());
    same(
        rt,
        cube.sample(place.z, place.y, place.x),
        i32::from(wanted),
    );
}

/// Asserts that a cube has the shape and the samples of `samples_in`.
fn has_samples(rt: &impl Abort, cube: &Cube) {
    same(rt, cube.shape(), shape_of(rt, 2, 2, 3));
    let mut i = 0;
    for place in Places::new(cube.shape(), Order::Bsq) {
        assert!(rt; i < 12);
        has_sample(rt, cube, place, samples_in(RawOrder::Bsq)[i]);
        i += 1;
    }
}

/// Asserts that the samples are read from a layout, and that writing them in it returns the same bytes.
fn layout_is_read(rt: &impl Abort, alloc: Global, order: RawOrder, little: bool) {
    let kind = Kind::new(false, 12).expect(rt, "a kind");
    let shape = shape_of(rt, 2, 2, 3);
    let layout = Layout {
        order,
        bytes: 2,
        little,
    };
    let bytes = bytes_in(rt, alloc, order, little);
    let cube = Cube::from_raw(alloc, shape, kind, layout, &bytes).expect(rt, "a cube");
    has_samples(rt, &cube);
    let again = cube.to_raw(alloc, layout).expect(rt, "memory");
    same(rt, again.as_slice(), bytes.as_slice());
}

#[test]
fn each_layout_is_read_to_one_cube(rt: HostRuntime) {
    for order in [RawOrder::Bsq, RawOrder::Bil, RawOrder::Bip] {
        for little in [false, true] {
            layout_is_read(&rt, rt.alloc(), order, little);
        }
    }
}

/// Returns a layout with two bytes for each sample if `wide`, otherwise with one.
fn layout_of(order: RawOrder, wide: bool, little: bool) -> Layout
    ensures { IsLayout result }
{
    if wide {
        Layout {
            order,
            bytes: 2,
            little,
        }
    } else {
        Layout {
            order,
            bytes: 1,
            little,
        }
    }
}

/// Reads a cube from bytes, writes it in a layout, reads that again, and returns it in the layout of the bytes.
fn there_and_back(
    rt: &impl Abort,
    alloc: Global,
    shape: Shape,
    layout: Layout,
    bytes: &[u8],
) -> Vec<u8>
    requires { IsLayout layout }
{
    let plain = layout_of(RawOrder::Bsq, false, false);
    let kind = Kind::new(true, 8).expect(rt, "a kind");
    let cube = Cube::from_raw(alloc, shape, kind, plain, bytes).expect(rt, "a cube");
    let raw = cube.to_raw(alloc, layout).expect(rt, "memory");
    let again = Cube::from_raw(alloc, shape, kind, layout, &raw).expect(rt, "a cube");
    again.to_raw(alloc, plain).expect(rt, "memory")
}

/// Twelve signed samples of 8 bits.
const TWELVE: [u8; 12] = [
    0x00, 0x01, 0x7F, 0x80, 0xFF, 0x10, 0x90, 0xA5, 0x5A, 0x81, 0x7E, 0xFE,
];

/// Asserts that twelve samples in a shape are the same after they are written in each layout and read again.
fn each_layout_is_written_and_read(rt: &impl Abort, alloc: Global, shape: Shape) {
    for order in [RawOrder::Bsq, RawOrder::Bil, RawOrder::Bip] {
        for (wide, little) in [(false, false), (true, false), (true, true)] {
            let layout = layout_of(order, wide, little);
            let back = there_and_back(rt, alloc, shape, layout, &TWELVE);
            same(rt, back.as_slice(), TWELVE.as_slice());
        }
    }
}

#[test]
fn each_layout_is_written_and_read_in_each_shape(rt: HostRuntime) {
    for (columns, rows, bands) in [(1, 3, 4), (4, 1, 3), (4, 3, 1), (2, 2, 3)] {
        let shape = shape_of(&rt, columns, rows, bands);
        each_layout_is_written_and_read(&rt, rt.alloc(), shape);
    }
}

/// Returns the raw bytes of a cube of one sample.
fn lone_bytes(
    rt: &impl Abort,
    alloc: Global,
    kind: Kind,
    sample: i32,
    layout: Layout,
) -> Result<Vec<u8>, Fault>
    requires { IsLayout layout }
{
    assert!(rt; kind.smin() <= sample);
    assert!(rt; sample <= kind.smax());
    let mut cube = Cube::new(alloc, shape_of(rt, 1, 1, 1), kind).expect(rt, "memory");
    cube.set(0, 0, 0, sample);
    cube.to_raw(alloc, layout)
}

#[test]
fn nine_bits_in_one_byte(rt: HostRuntime) {
    let nine = Kind::new(false, 9).expect(&rt, "a kind");
    let narrow = layout_of(RawOrder::Bsq, false, false);
    let refused = lone_bytes(&rt, rt.alloc(), nine, 256, narrow);
    same(&rt, refused.err(), Some(Fault::SampleRange { index: 0 }));
}

#[test]
fn sixteen_bits_in_two_bytes(rt: HostRuntime) {
    let sixteen = Kind::new(true, 16).expect(&rt, "a kind");
    let wide = layout_of(RawOrder::Bsq, true, false);
    let bytes = lone_bytes(&rt, rt.alloc(), sixteen, -32_768, wide).expect(&rt, "bytes");
    same(&rt, bytes.as_slice(), [0x80u8, 0x00].as_slice());
}
