//! The speed of the predictor in both directions: along the walk of an encoder, and back place by place.

ghost use Rattle.std.specs.Prelude.{◌≡◌, ◌<◌, ◌≤◌, ◌^◌, false, [], length, slice_index, IfOk, IfErr, OnOk, ℕ};
ghost use Rattle.cube_core.specs.declared.fault.Fault.TheVariants.{WantOfMemory};
ghost use Rattle.cube_core.specs.Shape.{sample_count};
ghost use Rattle.header_bits.specs.Lawful.{IsLawful};
ghost use Rattle.header_bits.specs.TableParts.{weight_count};
ghost use Rattle.sample_prediction.specs.Residual.{residuals as residuals_of};
ghost use Rattle.speed.specs.Images.{synthetic_image};
ghost use Rattle.speed.specs.Measured.{measured, lawful_or_fault, from_table};
ghost use Rattle.speed.specs.Numbers.{checksum, synthetic_weights};

use crate::collected::Collected;
use crate::cube::sum_of_cube;
use crate::report::Report;
use crate::synthetic::{Generator, mixed};
use anyhow::Result;
use cube_core::cube::Cube;
use cube_core::cursor::Places;
use cube_core::fault::Fault;
use cube_core::kind::Kind;
use cube_core::order::Order;
use cube_core::shape::Shape;
use file_encoding::walk::{planes_room, send_own};
use header_bits::params::{Coder, Params, WeightStart};
use header_bits::tables::WeightTable;
use predict_core::bands::all_bands;
use std::alloc::{AllocError, Global};

/// Measures `forward` and `inverse` in each mode and order, and in full mode from a weight table.
pub fn measure(report: &Report) -> Result<()> {
    measure_orders(report, "full_3", false, 3)?;
    measure_orders(report, "reduced_0", true, 0)?;
    measure_tables(report)
}

/// The orders that are measured, by their names.
pub fn orders(bands: u32) -> [(&'static str, Order); 3] {
    [
        ("bsq", Order::Bsq),
        ("bil", Order::Bi(1)),
        ("bip", Order::Bi(bands)),
    ]
}

/// Measures a mode in each order.
fn measure_orders(report: &Report, mode: &str, reduced: bool, previous: u32) -> Result<()> {
    let shape = report.shape()?;
    for (name, order) in orders(shape.bands()) {
        let params = params_of(shape, reduced, previous, order, Coder::plain())?;
        there_and_back(report, mode, name, &params)?;
    }
    Ok(())
}

/// Measures full mode from a weight table, in each order.
fn measure_tables(report: &Report) -> Result<()> {
    let shape = report.shape()?;
    for (name, order) in orders(shape.bands()) {
        let params = params_of(shape, false, 3, order, Coder::plain())?;
        let params = with_table(report.alloc(), params)?;
        there_and_back(report, "table_3", name, &params)?;
    }
    Ok(())
}

/// Returns parameters in full mode, whose weights start from a table.
fn with_table(alloc: Global, mut params: Params) -> Result<Params, Fault>
    requires { IsLawful params }
    ensures value { IfOk result (λ p. p ≡ from_table params) }
    ensures lawful { IfOk result (λ p. IsLawful p) }
{
    let count = weight_count(params.previous, params.shape.bands());
    let values = WeightTable::new(synthetic_weights(alloc, count)?);
    params.start = WeightStart::Table { q: 14, values };
    params.check()?;
    Ok(params)
}

/// How many weights all bands have in full mode.
#[tactic(auto, unfolding(header_bits::specs::TableParts::weight_count))]
fn weight_count(previous: u32, bands: u32) -> usize
    requires previous { previous ≤ 15 }
    requires bands { bands ≤ 65536 }
    ensures { result ≡ weight_count previous false bands }
{
    let mut count = 0;
    for band in 0..bands {
        count += (band.min(previous) + 3) as usize;
    }
    count
}

/// Returns `count` signed numbers of 14 bits.
fn synthetic_weights(alloc: Global, count: usize) -> Result<Vec<i32>, AllocError>
    ensures { IfOk result (λ v. v.items ≡ synthetic_weights count) }
{
    let mut generator = Generator::new();
    let mut weights = Vec::new(alloc);
    for _i in 0..count {
        weights.push(i32::from(generator.number(14)) - 8192)?;
    }
    Ok(weights)
}

/// The parameters of a measurement: 12 bits, neighbour sums, and the plain numbers.
///
/// Returns the first refusal if they aren't lawful.
pub fn params_of(
    shape: Shape,
    reduced: bool,
    previous: u32,
    order: Order,
    coder: Coder,
) -> Result<Params, Fault>
    ensures value { result ≡ lawful_or_fault (measured shape reduced previous order coder) }
    ensures lawful { IfOk result (λ p. IsLawful p) }
{
    let params = Params {
        order,
        previous,
        reduced,
        column: false,
        coder,
        ..Params::plain(shape, Kind::new(false, 12)?)
    };
    params.check()?;
    Ok(params)
}

/// Measures both directions.
fn there_and_back(report: &Report, mode: &str, order: &str, params: &Params) -> Result<()>
    requires { IsLawful params.now }
{
    let residuals = there(report, mode, order, params)?;
    back(report, mode, order, params, &residuals)
}

/// Measures `forward`, and returns the residuals.
fn there(report: &Report, mode: &str, order: &str, params: &Params) -> Result<Vec<u16>>
    requires { IsLawful params.now }
    ensures count { IfOk result (λ r. length r.items ≡ sample_count params.now.shape) }
    ensures below { IfOk result (λ r. (i : ℕ) → i < length r.items → slice_index r.items i < 2 ^ params.now.kind.bits) }
{
    let count = params.shape.sample_count();
    let alloc = report.alloc();
    let cube = synthetic_cube(alloc, params.shape, params.kind)?;
    let mut collected = Collected {
        residuals: Vec::with_capacity(alloc, count as usize)?,
    };
    let start = report.start()?;
    forward(alloc, &cube, params, &mut collected)?;
    let time = report.since(start)?;
    let name = format!(in alloc; "forward_{mode}_{order}")?;
    let residuals = collected.residuals;
    report.line(name.as_str(), count, time, sum_of(&residuals))?;
    Ok(residuals)
}

/// Measures `inverse`.
fn back(report: &Report, mode: &str, order: &str, params: &Params, residuals: &[u16]) -> Result<()>
    requires lawful { IsLawful params.now }
    requires all { length residuals.now ≡ sample_count params.now.shape }
    requires below { (i : ℕ) → i < length residuals.now → slice_index residuals.now i < 2 ^ params.now.kind.bits }
{
    let alloc = report.alloc();
    let mut back = Cube::new(alloc, params.shape, params.kind)?;
    let start = report.start()?;
    inverse(alloc, &mut back, params, residuals)?;
    let time = report.since(start)?;
    let name = format!(in alloc; "inverse_{mode}_{order}")?;
    let count = params.shape.sample_count();
    report.line(name.as_str(), count, time, sum_of_cube(&back))
}

/// Collects the residuals of a cube, in encoding order.
fn forward(
    alloc: Global,
    cube: &Cube,
    params: &Params,
    collected: &mut Collected,
) -> Result<(), Fault>
    requires lawful { IsLawful params.now }
    requires shape { cube.now.shape ≡ params.now.shape }
    requires kind { cube.now.kind ≡ params.now.kind }
    requires none { collected.old.residuals.items ≡ [] }
    ensures residuals { OnOk result (collected.new.residuals.items ≡ residuals_of params.now cube.now) }
    ensures count { OnOk result (length collected.new.residuals.items ≡ sample_count params.now.shape) }
    ensures below { OnOk result ((i : ℕ) → i < length collected.new.residuals.items → slice_index collected.new.residuals.items i < 2 ^ params.now.kind.bits) }
    ensures refused { IfErr result (λ e. e ≡ WantOfMemory) }
{
    cube.prove_is_cube();
    let mut bands = all_bands(alloc, params)?;
    let mut room = planes_room(alloc, params);
    if send_own(cube, params, 0, &[], &mut bands, &mut room, collected) {
        Ok(())
    } else {
        Err(Fault::WantOfMemory)
    }
}

/// Writes the samples of residuals, which are in encoding order.
fn inverse(alloc: Global, cube: &mut Cube, params: &Params, residuals: &[u16]) -> Result<(), Fault>
    requires lawful { IsLawful params.now }
    requires shape { cube.old.shape ≡ params.now.shape }
    requires kind { cube.old.kind ≡ params.now.kind }
    requires all { length residuals.now ≡ sample_count params.now.shape }
    requires below { (i : ℕ) → i < length residuals.now → slice_index residuals.now i < 2 ^ params.now.kind.bits }
    ensures samples { OnOk result (residuals_of params.now cube.new ≡ residuals.now) }
    ensures same { (cube.new.shape ≡ cube.old.shape) × (cube.new.kind ≡ cube.old.kind) }
    ensures refused { IfErr result (λ e. e ≡ WantOfMemory) }
{
    let mut bands = all_bands(alloc, params)?;
    let mut places = Places::new(params.shape, params.order);
    let mut i = 0usize;
    while let Some(place) = places.next() {
        let sample = bands[place.z as usize].inverse(cube, place.y, place.x, residuals[i]);
        cube.set(place.z, place.y, place.x, sample);
        i += 1;
    }
    Ok(())
}

/// A cube that changes slowly, with some noise.
pub fn synthetic_cube(alloc: Global, shape: Shape, kind: Kind) -> Result<Cube, Fault>
    ensures cube { IfOk result (λ c. c ≡ synthetic_image shape kind) }
    ensures refused { IfErr result (λ e. e ≡ WantOfMemory) }
{
    let mut generator = Generator::new();
    let mut cube = Cube::new(alloc, shape, kind)?;
    for z in 0..shape.bands() {
        for y in 0..shape.rows() {
            for x in 0..shape.columns() {
                let slow = 16 * z + 4 * y + 2 * x;
                let noise = u32::from(generator.number(6));
                let offset = (slow + noise) % (1 << kind.bits());
                cube.set(z, y, x, kind.sample_of(offset as u16));
            }
        }
    }
    Ok(cube)
}

/// The checksum of numbers.
fn sum_of(numbers: &[u16]) -> u64
    ensures { result ≡ checksum numbers.now }
{
    let mut sum = 0;
    for number in numbers {
        sum = mixed(sum, u64::from(*number));
    }
    sum
}
