//! Local sums and differences of samples that are stored as offsets from the least one.
//!
//! A difference is the same for offsets as for samples, and a local sum of offsets is less than one of samples
//! by four times the least sample.

ghost use Rattle.std.specs.Prelude.{◌≡◌, ◌+◌, ◌-◌, ◌*◌, ◌<◌, ◌≤◌, length, false, unsigned_abs, slice_index, IsTrue, ◌↔◌};
ghost use Rattle.sample_prediction.specs.OffsetSum.{offset_sum, offset_difference};

/// Returns four times an average of the neighbours of a place: `row` is its own row, and `above` the one above
/// it.
///
/// The place is not the first of its band. The first row has none above it; then `above` isn't read, but is as long as `row`.
/// Neighbour-oriented sums need two columns (CCSDS 123.0-B-1, "Local Sums").
#[inline(always)]
pub fn sum_of(column: bool, y: u32, row: &[u16], above: &[u16], x: usize) -> u32
    requires inside { x < length row.now }
    requires same { length above.now ≡ length row.now }
    requires later { 0 < y + x }
    requires wide { column ≡ false → 2 ≤ length row.now }
    ensures value { result ≡ offset_sum column y row.now above.now x }
    ensures bound { result ≤ 262140 }
{
    if y == 0 {
        4 * row[x - 1] as u32
    } else {
        let west = if x == 0 { 0 } else { row[x - 1] };
        sum_beside(column, y, row, above, x, west)
    }
}

/// `sum_of` below the first row; `west` is the offset to the west of a place that has one.
#[inline(always)]
pub fn sum_beside(column: bool, y: u32, row: &[u16], above: &[u16], x: usize, west: u16) -> u32
    requires inside { x < length row.now }
    requires same { length above.now ≡ length row.now }
    requires later { 0 < y }
    requires wide { column ≡ false → 2 ≤ length row.now }
    requires west { 0 < x → slice_index row.now (x - 1) ≡ west }
    ensures value { result ≡ offset_sum column y row.now above.now x }
    ensures bound { result ≤ 262140 }
{
    if column {
        4 * above[x] as u32
    } else if x == 0 {
        2 * (above[x] as u32 + above[x + 1] as u32)
    } else if x + 1 == row.len() {
        west as u32 + above[x - 1] as u32 + 2 * above[x] as u32
    } else {
        sum_inside(west, above, x)
    }
}

/// Returns the sum of the four neighbours of a place that has them all, where `west` is the offset to its west.
#[inline(always)]
fn sum_inside(west: u16, above: &[u16], x: usize) -> u32
    requires west_of { 0 < x }
    requires east_of { x + 1 < length above.now }
    ensures value { result ≡ west + slice_index above.now (x - 1) + slice_index above.now x + slice_index above.now (x + 1) }
{
    west as u32 + above[x - 1] as u32 + above[x] as u32 + above[x + 1] as u32
}

/// Returns four times a sample, less a local sum.
#[inline(always)]
pub fn difference_of(offset: u16, sum: u32) -> i32
    requires { sum ≤ 262140 }
    ensures value { result ≡ offset_difference offset sum }
    ensures bound { unsigned_abs result ≤ 262144 }
{
    4 * offset as i32 - sum as i32
}

/// Returns the central difference at a place, under the conditions of `sum_of`.
#[inline(always)]
pub fn central_of(column: bool, y: u32, row: &[u16], above: &[u16], x: usize) -> i32
    requires inside { x < length row.now }
    requires same { length above.now ≡ length row.now }
    requires later { 0 < y + x }
    requires wide { column ≡ false → 2 ≤ length row.now }
    ensures value { result ≡ offset_difference (slice_index row.now x) (offset_sum column y row.now above.now x) }
    ensures bound { unsigned_abs result ≤ 262144 }
{
    let sum = if is_inside(column, y, x, row.len()) {
        sum_inside(row[x - 1], above, x)
    } else {
        sum_of(column, y, row, above, x)
    };
    difference_of(row[x], sum)
}

/// Returns whether a local sum takes four neighbours, as it mostly does. The answer at a place is the same for all bands, so
/// that the compiler can take it out of the loop over them.
#[inline(always)]
fn is_inside(column: bool, y: u32, x: usize, columns: usize) -> bool
    requires { x < columns }
    ensures { IsTrue result ↔ ((column ≡ false) × (0 < y) × (0 < x) × (x + 1 < columns)) }
{
    !column & (0 < y) & (0 < x) & (x + 1 < columns)
}
