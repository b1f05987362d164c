//! A row in raw bytes: its samples, band after band. It has all bands where the raw order interleaves these, and one in band sequential order.

ghost use Rattle.std.specs.Prelude.{◌≡◌, ◌+◌, ◌*◌, ◌<◌, ◌≤◌, ◌^◌, ℕ, length, slice_index, IfOk, IfErr};
ghost use Rattle.cube_core.specs.Image.{IsCube};
ghost use Rattle.cube_core.specs.Layout.{IsLayout, IsFirstBad, raw_bytes, HaveBytes};
ghost use Rattle.cube_core.specs.Raw.{AreSamples};
ghost use Rattle.cube_core.specs.Shape.{AreSizes, InRange};
ghost use Rattle.raw_rows.specs.OneRow.{AreBandRows, one_row as row_of, rows_of_raw, samples_of_row};

use cube_core::cube::Cube;
use cube_core::fault::Fault;
use cube_core::layout::{Layout, RawOrder};
use cube_core::shape::Shape;

/// Returns the shape of one row, with all bands or, in band sequential order, one.
pub fn one_row(layout: Layout, shape: Shape) -> Shape
    ensures { result ≡ row_of (rows_of_raw layout.order shape) }
{
    let (columns, bands) = (shape.columns(), row_bands(layout, shape));
    match Shape::new(columns, 1, bands) {
        Ok(row) => row,
        Err(_) => unreachable!(),
    }
}

/// Returns the number of samples of a row.
pub fn row_samples(layout: Layout, shape: Shape) -> u64
    ensures value { result ≡ samples_of_row (rows_of_raw layout.order shape) }
    ensures range { InRange 1 (2 ^ 32) result }
    ensures sizes { AreSizes shape }
{
    // Sizes are a part of what counts samples.
    let _count = shape.sample_count();
    u64::from(row_bands(layout, shape)) * u64::from(shape.columns())
}

/// Returns the number of rows: those of an image whose rows have all bands, and in band sequential order those of all bands.
pub fn row_count(layout: Layout, shape: Shape) -> u64
    ensures value { result ≡ (rows_of_raw layout.order shape).rows }
    ensures range { InRange 1 (2 ^ 32) result }
{
    match layout.order {
        RawOrder::Bsq => u64::from(shape.bands()) * u64::from(shape.rows()),
        RawOrder::Bil => u64::from(shape.rows()),
        RawOrder::Bip => u64::from(shape.rows()),
    }
}

/// Returns the number of bands of a row.
fn row_bands(layout: Layout, shape: Shape) -> u32
    ensures value { result ≡ (rows_of_raw layout.order shape).bands }
    ensures range { InRange 1 65536 result }
{
    match layout.order {
        RawOrder::Bsq => 1,
        RawOrder::Bil => shape.bands(),
        RawOrder::Bip => shape.bands(),
    }
}

/// Takes the samples of a row from its raw bytes: band after band, each as its offset from the least sample of the kind.
/// The cube is of one row, and is the row that was read afterwards.
///
/// Returns the index of the first sample that isn't of the kind.
pub fn take_row(row: Cube, layout: Layout, bytes: &[u8], samples: &mut [u16]) -> Result<Cube, u64>
    requires layout { IsLayout layout }
    requires row { row.shape.rows ≡ 1 }
    requires bytes { length bytes.now ≡ samples_of_row row.shape * layout.bytes }
    requires samples { length samples.old ≡ samples_of_row row.shape }
    ensures row { IfOk result (λ c. IsCube c × (c.shape ≡ row.shape) × (c.kind ≡ row.kind) × (raw_bytes c layout ≡ bytes.now)
        × HaveBytes c layout (samples_of_row row.shape) × AreSamples row.kind layout bytes.now (samples_of_row row.shape) × AreBandRows c samples.new) }
    ensures long { length samples.new ≡ length samples.old }
    ensures bad { IfErr result (λ i. IsFirstBad row.kind layout bytes.now i) }
{
    let shape = row.shape();
    match row.read_part(layout, layout.all(shape), bytes) {
        Ok(row) => {
            copy_bands(&row, samples);
            Ok(row)
        }
        Err(Fault::SampleRange { index }) => Err(index),
        Err(_) => unreachable!(),
    }
}

/// Copies the samples of a cube of one row, band after band.
fn copy_bands(row: &Cube, samples: &mut [u16])
    requires one { row.now.shape.rows ≡ 1 }
    requires long { length samples.old ≡ samples_of_row row.now.shape }
    ensures copied { AreBandRows row.now samples.new }
    ensures long { length samples.new ≡ length samples.old }
{
    let columns = row.shape().columns() as usize;
    let bands = row.shape().bands();
    let mut z = 0;
    while z < bands {
        put_band(samples, z as usize * columns, row.row(z, 0));
        z += 1;
    }
}

/// Replaces samples, from index `at` on, by those of a band's row.
fn put_band(samples: &mut [u16], at: usize, band: &[u16])
    requires { at + length band.now ≤ length samples.old }
    ensures long { length samples.new ≡ length samples.old }
    ensures put { (i : ℕ) → i < length band.now → slice_index samples.new (at + i) ≡ slice_index band.now i }
    ensures before { (j : ℕ) → j < at → slice_index samples.new j ≡ slice_index samples.old j }
{
    samples[at..at + band.len()].copy_from_slice(band);
}
