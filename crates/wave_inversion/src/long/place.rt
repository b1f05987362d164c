//! The local sums and differences of one place of eight bands, a lane of 32 bits for each.
//!
//! Loops over the lanes have no branch, so that the compiler takes all of them in one vector.

ghost use Rattle.std.specs.Prelude.{◌≡◌, ◌+◌, ◌-◌, ◌<◌, ◌≤◌, ℕ, [], slice_index_or, pos, ◌+ℤ◌, ◌-ℤ◌, ◌*ℤ◌, ◌≤ℤ◌};
ghost use Rattle.lanes.specs.Lanes.{lane};
ghost use Rattle.wave_inversion.specs.Wave.{AreOffsets, AreOffsetRows, sum_by};

/// The offsets around a place of eight bands, which is neither in the first row nor at either end of its own.
#[derive(Clone, Copy)]
pub(crate) struct LongAround {
    pub west: [i32; 8],
    pub north_west: [i32; 8],
    pub north: [i32; 8],
    pub north_east: [i32; 8],
    pub ghost west_in: { AreOffsets (pos 65535) west },
    pub ghost north_west_in: { AreOffsets (pos 65535) north_west },
    pub ghost north_in: { AreOffsets (pos 65535) north },
    pub ghost north_east_in: { AreOffsets (pos 65535) north_east },
}

/// Returns the local sums of offsets (CCSDS 123.0-B-1, "Local Sums").
#[inline(always)]
pub(crate) fn local_sums(column: bool, around: &LongAround) -> [i32; 8]
    ensures value { (b : ℕ) → b < 8 → lane result b
        ≡ sum_by column (lane around.now.west b) (lane around.now.north_west b) (lane around.now.north b) (lane around.now.north_east b) }
    ensures range { AreOffsets (pos 262140) result }
{
    if column {
        let twice = sums_of_two(&around.north, &around.north);
        sums_of_two(&twice, &twice)
    } else {
        let west = sums_of_two(&around.west, &around.north_west);
        let north = sums_of_two(&around.north, &around.north_east);
        sums_of_two(&west, &north)
    }
}

/// Returns the sums of numbers that are at most 131,070.
#[inline(always)]
fn sums_of_two(a: &[i32; 8], b: &[i32; 8]) -> [i32; 8]
    requires a_in { AreOffsets (pos 131070) a.now }
    requires b_in { AreOffsets (pos 131070) b.now }
    ensures { (k : ℕ) → k < 8 → lane result k ≡ lane a.now k +ℤ lane b.now k }
{
    let mut sums = [0i32; 8];
    for k in 0..8usize {
        sums[k] = sum_of(a[k], b[k]);
    }
    sums
}

/// Returns the sum of two numbers that are at most 131,070.
#[inline(always)]
fn sum_of(a: i32, b: i32) -> i32
    requires a_in { (pos 0 ≤ℤ a) × (a ≤ℤ pos 131070) }
    requires b_in { (pos 0 ≤ℤ b) × (b ≤ℤ pos 131070) }
    ensures { result ≡ a +ℤ b }
{
    a + b
}

/// Returns four times the offsets, less the local sums (CCSDS 123.0-B-1, "Local Differences").
#[inline(always)]
pub(crate) fn differences(offsets: &[i32; 8], sums: &[i32; 8]) -> [i32; 8]
    requires offsets_in { AreOffsets (pos 65535) offsets.now }
    requires sums_in { AreOffsets (pos 262140) sums.now }
    ensures { (b : ℕ) → b < 8 → lane result b ≡ pos 4 *ℤ lane offsets.now b -ℤ lane sums.now b }
{
    let mut out = [0i32; 8];
    for b in 0..8usize {
        out[b] = difference_of(offsets[b], sums[b]);
    }
    out
}

/// Returns four times an offset, less a local sum.
#[inline(always)]
pub(crate) fn difference_of(offset: i32, sum: i32) -> i32
    requires offset_in { (pos 0 ≤ℤ offset) × (offset ≤ℤ pos 65535) }
    requires sum_in { (pos 0 ≤ℤ sum) × (sum ≤ℤ pos 262140) }
    ensures { result ≡ pos 4 *ℤ offset -ℤ sum }
{
    4 * offset - sum
}

/// Returns the offsets around each band's place at step `k`: row i of `numbers` has its offset at step i, and row i of `above` the one
/// above it.
#[inline(always)]
pub(crate) fn around_at(
    greatest: i32,
    k: usize,
    above: &[[i32; 8]; 64],
    numbers: &[[i32; 8]; 64],
) -> LongAround
    requires greatest_in { greatest ≤ℤ pos 65535 }
    requires step { (1 ≤ k) × (k < 63) }
    requires above_in { AreOffsetRows greatest above.now }
    requires numbers_in { AreOffsetRows greatest numbers.now }
    ensures west { result.west ≡ slice_index_or numbers.now (k - 1) [] }
    ensures north_west { result.north_west ≡ slice_index_or above.now (k - 1) [] }
    ensures north { result.north ≡ slice_index_or above.now k [] }
    ensures north_east { result.north_east ≡ slice_index_or above.now (k + 1) [] }
{
    LongAround {
        west: numbers[k - 1],
        north_west: above[k - 1],
        north: above[k],
        north_east: above[k + 1],
    }
}
