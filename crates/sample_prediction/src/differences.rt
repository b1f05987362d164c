//! The differences that predict a sample, in an array that is long enough for all parameters; unused elements
//! are 0.

ghost use Rattle.std.specs.Prelude.{◌≡◌, ◌+◌, ◌-◌, ◌<◌, ◌≤◌, pos, ◌+ℤ◌, ◌*ℤ◌, length, take, drop, ◌∷◌, ◌++◌, replicate, true, false, unsigned_abs};
ghost use Rattle.cube_core.specs.Kind.{smin};
ghost use Rattle.cube_core.specs.Image.{IsPlace};
ghost use Rattle.sample_prediction.specs.Predictor.{previous_bands, component_count};
ghost use Rattle.sample_prediction.specs.LocalSum.{local_sum};
ghost use Rattle.sample_prediction.specs.Differences.{central_difference, spectral_differences, directional_differences, difference_vector as vector};
ghost use Rattle.sample_prediction.specs.OffsetSum.{IsWest};
ghost use Rattle.sample_prediction.specs.Bounds.{AllWithin, IsPredictor};

use crate::neighbourhood::{central_of, difference_of, sum_of};
use crate::predictor::{MOST_COMPONENTS, Predictor};
use crate::rows::Rows;

/// Writes all differences at a place that is not the first of its band into an array of zeros, in full mode the
/// directional ones first.
///
/// `sum` is the local sum of the offsets there, and `near` the number of bands below that are used, at most `N`
/// (CCSDS 123.0-B-1, "Local Differences"). Where `N` is small, the compiler keeps the differences in registers.
#[inline(always)]
pub fn fill_differences<const N: usize>(
    predictor: &Predictor,
    rows: &Rows,
    z: u32,
    y: u32,
    x: u32,
    sum: u32,
    near: usize,
    out: &mut [i32; MOST_COMPONENTS],
)
    requires row { rows.now.y ≡ y }
    requires lawful { IsPredictor predictor.now }
    requires place { IsPlace rows.now.image.shape z y x }
    requires later { 0 < y + x }
    requires wide { predictor.now.column ≡ false → 2 ≤ rows.now.image.shape.columns }
    requires sum_is { local_sum predictor.now rows.now.image z y x ≡ pos 4 *ℤ smin rows.now.image.kind +ℤ pos sum }
    requires sum_in { sum ≤ 262140 }
    requires near_is { near ≡ previous_bands predictor.now z }
    requires few { near ≤ N }
    requires clear { out.old ≡ replicate 18 (pos 0) }
    ensures value { out.new ≡ vector predictor.now rows.now.image z y x ++ replicate (18 - component_count predictor.now z) (pos 0) }
    ensures bound { AllWithin 262144 out.new }
{
    if predictor.reduced {
        fill_spectral::<N>(predictor, rows, z, y, x, 0, near, out);
    } else {
        fill_directional(predictor, rows, z, y, x, sum, out);
        fill_spectral::<N>(predictor, rows, z, y, x, 3, near, out);
    }
}

/// Returns the local sum of the offsets at a place that is not the first of its band.
#[inline(always)]
pub fn sum_at(predictor: &Predictor, rows: &Rows, z: u32, y: u32, x: u32) -> u32
    requires row { rows.now.y ≡ y }
    requires place { IsPlace rows.now.image.shape z y x }
    requires later { 0 < y + x }
    requires wide { predictor.now.column ≡ false → 2 ≤ rows.now.image.shape.columns }
    ensures value { local_sum predictor.now rows.now.image z y x ≡ pos 4 *ℤ smin rows.now.image.kind +ℤ pos result }
    ensures bound { result ≤ 262140 }
{
    let row = rows.row(z);
    let above = rows.row_above(z);
    sum_of(predictor.column, y, row, above, x as usize)
}

/// Returns the offset of the sample to the west of a place below the first row; in the first column, of the one
/// to the north.
#[inline(always)]
fn west_of(rows: &Rows, z: u32, y: u32, x: u32) -> u16
    requires row { rows.now.y ≡ y }
    requires place { IsPlace rows.now.image.shape z y x }
    requires later { 0 < y }
    ensures { IsWest rows.now.image z y x result }
{
    if x == 0 {
        rows.row_above(z)[0]
    } else {
        rows.row(z)[x as usize - 1]
    }
}

/// Writes the directional differences to the front of an array of zeros.
#[inline(always)]
fn fill_directional(
    predictor: &Predictor,
    rows: &Rows,
    z: u32,
    y: u32,
    x: u32,
    sum: u32,
    out: &mut [i32; MOST_COMPONENTS],
)
    requires row { rows.now.y ≡ y }
    requires place { IsPlace rows.now.image.shape z y x }
    requires sum_is { local_sum predictor.now rows.now.image z y x ≡ pos 4 *ℤ smin rows.now.image.kind +ℤ pos sum }
    requires sum_in { sum ≤ 262140 }
    requires clear { out.old ≡ replicate 18 (pos 0) }
    ensures value { out.new ≡ directional_differences predictor.now rows.now.image z y x ++ replicate 15 (pos 0) }
    ensures bound { AllWithin 262144 out.new }
{
    if y == 0 {
        return;
    }
    let west = west_of(rows, z, y, x);
    put_neighbours(predictor, rows, z, y, x, sum, west, out);
}

/// Writes the directional differences below the first row to the front of an array.
#[inline(always)]
fn put_neighbours(
    predictor: &Predictor,
    rows: &Rows,
    z: u32,
    y: u32,
    x: u32,
    sum: u32,
    west: u16,
    out: &mut [i32; MOST_COMPONENTS],
)
    requires row { rows.now.y ≡ y }
    requires place { IsPlace rows.now.image.shape z y x }
    requires later { 0 < y }
    requires sum_is { local_sum predictor.now rows.now.image z y x ≡ pos 4 *ℤ smin rows.now.image.kind +ℤ pos sum }
    requires sum_in { sum ≤ 262140 }
    requires west { IsWest rows.now.image z y x west }
    ensures value { out.new ≡ directional_differences predictor.now rows.now.image z y x ++ drop 3 out.old }
    ensures bound { AllWithin 262144 out.old → AllWithin 262144 out.new }
{
    let x = x as usize;
    let above = rows.row_above(z);
    let north = difference_of(above[x], sum);
    let west = difference_of(west, sum);
    // In the first column all three are of the sample to the north.
    let north_west = difference_of(above[x.saturating_sub(1)], sum);
    put_directions(north, west, north_west, out);
}

/// Writes three differences to the front of an array.
#[inline(always)]
fn put_directions(north: i32, west: i32, north_west: i32, out: &mut [i32; MOST_COMPONENTS])
    requires north_in { unsigned_abs north ≤ 262144 }
    requires west_in { unsigned_abs west ≤ 262144 }
    requires north_west_in { unsigned_abs north_west ≤ 262144 }
    ensures value { out.new ≡ north ∷ west ∷ north_west ∷ drop 3 out.old }
    ensures bound { AllWithin 262144 out.old → AllWithin 262144 out.new }
{
    out[0] = north;
    out[1] = west;
    out[2] = north_west;
}

/// Writes the central differences of the `count` bands below `z`, at most `N`, the nearest first, from index `first` on.
#[inline(always)]
fn fill_spectral<const N: usize>(
    predictor: &Predictor,
    rows: &Rows,
    z: u32,
    y: u32,
    x: u32,
    first: usize,
    count: usize,
    out: &mut [i32; MOST_COMPONENTS],
)
    requires row { rows.now.y ≡ y }
    requires place { IsPlace rows.now.image.shape z y x }
    requires later { 0 < y + x }
    requires wide { predictor.now.column ≡ false → 2 ≤ rows.now.image.shape.columns }
    requires bands { count ≤ z }
    requires few { count ≤ N }
    requires room { first + count ≤ 18 }
    requires clear { drop first out.old ≡ replicate (18 - first) (pos 0) }
    requires small { AllWithin 262144 out.old }
    ensures value { out.new ≡ take first out.old ++ spectral_differences predictor.now rows.now.image z y x count ++ replicate (18 - first - count) (pos 0) }
    ensures bound { AllWithin 262144 out.new }
{
    // The bound tells the compiler how often at most, so that it unrolls the loop.
    for i in 0..count.min(N) {
        out[first + i] = central(predictor, rows, z - 1 - i as u32, y, x);
    }
}

/// Returns the central difference of band `z` at a place that is not the first.
#[inline(always)]
fn central(predictor: &Predictor, rows: &Rows, z: u32, y: u32, x: u32) -> i32
    requires row { rows.now.y ≡ y }
    requires place { IsPlace rows.now.image.shape z y x }
    requires later { 0 < y + x }
    requires wide { predictor.now.column ≡ false → 2 ≤ rows.now.image.shape.columns }
    ensures value { result ≡ central_difference predictor.now rows.now.image z y x }
    ensures bound { unsigned_abs result ≤ 262144 }
{
    let row = rows.row(z);
    let above = rows.row_above(z);
    central_of(predictor.column, y, row, above, x as usize)
}
