//! The speed of reading and writing raw bytes, and of a walk over all places.

ghost use Rattle.std.specs.Prelude.{◌≡◌, ◌≤◌, IfOk};
ghost use Rattle.cube_core.specs.Layout.{IsLayout};
ghost use Rattle.cube_core.specs.Order.{IsOrder};
ghost use Rattle.speed.specs.Formats.{format_name, format_bits, layout_of, synthetic_bytes};
ghost use Rattle.speed.specs.Images.{offsets_of};
ghost use Rattle.speed.specs.Numbers.{checksum};

use crate::report::Report;
use crate::synthetic::{Generator, mixed, sum_of_bytes};
use anyhow::Result;
use cube_core::cube::Cube;
use cube_core::cursor::Places;
use cube_core::kind::Kind;
use cube_core::layout::{Layout, RawOrder};
use cube_core::order::Order;
use cube_core::shape::Shape;
use std::alloc::{AllocError, Global};

/// How the bytes of a sample lie.
#[derive(Clone, Copy)]
enum Format {
    Little,
    Big,
    Byte,
}

impl Format {
    /// The name that is printed.
    fn name(self) -> &'static str
        ensures { result.now ≡ format_name self }
    {
        match self {
            Format::Little => "little",
            Format::Big => "big",
            Format::Byte => "byte",
        }
    }

    /// How many bits the samples have.
    fn bits(self) -> u32
        ensures value { result ≡ format_bits self }
        ensures range { (2 ≤ result) × (result ≤ 16) }
    {
        match self {
            Format::Little | Format::Big => 12,
            Format::Byte => 8,
        }
    }

    /// How the samples lie in this order.
    fn layout(self, order: RawOrder) -> Layout
        ensures value { result ≡ layout_of self order }
        ensures lawful { IsLayout result }
    {
        match self {
            Format::Little => Layout {
                order,
                bytes: 2,
                little: true,
            },
            Format::Big => Layout {
                order,
                bytes: 2,
                little: false,
            },
            Format::Byte => Layout {
                order,
                bytes: 1,
                little: false,
            },
        }
    }
}

/// Measures `from_raw`, `to_raw` and the walk.
pub fn measure(report: &Report) -> Result<()> {
    for (name, order) in [
        ("bsq", RawOrder::Bsq),
        ("bil", RawOrder::Bil),
        ("bip", RawOrder::Bip),
    ] {
        for format in [Format::Little, Format::Big, Format::Byte] {
            raw(report, name, order, format)?;
        }
    }
    let shape = report.shape()?;
    let bands = shape.bands();
    walk(report, "walk_bsq", shape, Order::Bsq)?;
    walk(report, "walk_bi_1", shape, Order::Bi(1))?;
    walk(report, "walk_bi_5", shape, Order::Bi(bands.min(5)))?;
    walk(report, "walk_bi_all", shape, Order::Bi(bands))
}

/// Measures `from_raw` and `to_raw` of a layout.
fn raw(report: &Report, order_name: &str, order: RawOrder, format: Format) -> Result<()> {
    let format_name = format.name();
    let name = format!(in report.alloc(); "{order_name}_{format_name}")?;
    let cube = from_raw(report, name.as_str(), order, format)?;
    to_raw(report, name.as_str(), format.layout(order), &cube)
}

/// Measures `from_raw`, and returns the cube.
fn from_raw(report: &Report, name: &str, order: RawOrder, format: Format) -> Result<Cube> {
    let shape = report.shape()?;
    let count = shape.sample_count();
    let kind = Kind::new(false, format.bits())?;
    let bytes = raw_bytes(report.alloc(), format, count)?;
    let start = report.start()?;
    let cube = Cube::from_raw(report.alloc(), shape, kind, format.layout(order), &bytes)?;
    let time = report.since(start)?;
    let line = format!(in report.alloc(); "from_raw_{name}")?;
    report.line(line.as_str(), count, time, sum_of_cube(&cube))?;
    Ok(cube)
}

/// Measures `to_raw`.
fn to_raw(report: &Report, name: &str, layout: Layout, cube: &Cube) -> Result<()>
    requires { IsLayout layout }
{
    let count = cube.shape().sample_count();
    let start = report.start()?;
    let bytes = cube.to_raw(report.alloc(), layout)?;
    let time = report.since(start)?;
    let line = format!(in report.alloc(); "to_raw_{name}")?;
    report.line(line.as_str(), count, time, sum_of_bytes(&bytes))
}

/// Measures a walk over all places.
fn walk(report: &Report, name: &str, shape: Shape, order: Order) -> Result<()>
    requires { IsOrder shape order }
{
    let start = report.start()?;
    let mut sum = 0;
    for place in Places::new(shape, order) {
        let number = u64::from(place.z) << 40 | u64::from(place.y) << 20 | u64::from(place.x);
        sum = mixed(sum, number);
    }
    let time = report.since(start)?;
    report.line(name, shape.sample_count(), time, sum)
}

/// Returns the bytes of that many samples.
fn raw_bytes(alloc: Global, format: Format, count: u64) -> Result<Vec<u8>, AllocError>
    ensures { IfOk result (λ bytes. bytes.items ≡ synthetic_bytes format count) }
{
    let mut generator = Generator::new();
    let mut bytes = Vec::new(alloc);
    for _sample in 0..count {
        let number = generator.number(format.bits());
        match format {
            Format::Little => bytes.extend_from_slice(&number.to_le_bytes())?,
            Format::Big => bytes.extend_from_slice(&number.to_be_bytes())?,
            Format::Byte => bytes.push(number as u8)?,
        }
    }
    Ok(bytes)
}

/// The checksum of the offsets of a cube's samples.
pub fn sum_of_cube(cube: &Cube) -> u64
    ensures { result ≡ checksum (offsets_of cube.now) }
{
    cube.prove_is_cube();
    let shape = cube.shape();
    let mut sum = 0;
    for z in 0..shape.bands() {
        for y in 0..shape.rows() {
            for offset in cube.row(z, y) {
                sum = mixed(sum, u64::from(*offset));
            }
        }
    }
    sum
}
