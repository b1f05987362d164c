//! A table of the code parameter by the accumulator.

ghost use Rattle.std.specs.Prelude.{◌≡◌, ◌+◌, ◌*◌, ◌^◌, ◌<◌, ◌≤◌, length, IfOk, IfErr};
ghost use Rattle.cube_core.specs.declared.fault.Fault.TheVariants.{WantOfMemory};
ghost use Rattle.sample_adaptive.specs.Thresholds.{AreThresholds, HasFirst, threshold};

use cube_core::fault::Fault;
use std::alloc::Global;

/// The number of entries in a row: as many as there are counters, and eight more.
pub(crate) const ROW: usize = 520;

/// The number of entries in all.
const ENTRIES: usize = 9360;

/// More than any accumulator.
const NEVER: u32 = 1 << 30;

/// Returns the table of thresholds of an image, by D and the rescaling counter size.
pub(crate) fn thresholds(alloc: Global, bits: u32, size: u32) -> Result<Vec<u32>, Fault>
    requires bits { (2 ≤ bits) × (bits ≤ 16) }
    requires size { (1 ≤ size) × (size ≤ 9) }
    ensures table { IfOk result (λ table. AreThresholds bits size table.items) }
    ensures refused { IfErr result (λ e. e ≡ WantOfMemory) }
{
    let mut table = vec![in alloc; 0; ENTRIES]?;
    for j in 0..bits + 1 {
        fill_row(bits, size, j, &mut table);
    }
    Ok(table)
}

/// Fills in the row of `j`, below which the rows are filled in.
fn fill_row(bits: u32, size: u32, j: u32, table: &mut [u32])
    requires bits { (2 ≤ bits) × (bits ≤ 16) }
    requires size { (1 ≤ size) × (size ≤ 9) }
    requires row { j ≤ bits }
    requires below { HasFirst bits size j 0 table.old }
    ensures filled { HasFirst bits size (j + 1) 0 table.new }
{
    for counter in 0..(1 << size) + 8 {
        table[ROW * j as usize + counter as usize] = threshold(bits, j, counter);
    }
}

/// Returns the least accumulator with which the code parameter is at least j.
fn threshold(bits: u32, j: u32, counter: u32) -> u32
    requires { (2 ≤ bits) × (bits ≤ 16) × (counter < 2 ^ 10) }
    ensures { result ≡ threshold bits j counter }
{
    if j == 0 {
        return 0;
    }
    if j > bits - 2 {
        return NEVER;
    }
    (counter << j) - 49 * counter / 128
}
