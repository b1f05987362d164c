//! The parameters of a wavefront in lanes of 32 bits.

ghost use Rattle.std.specs.Prelude.{◌≡◌, ◌^◌, ◌<◌, ◌≤◌, pos, ◌+ℤ◌, ◌≤ℤ◌};

use band_lanes::four::step::LongStep;

/// What the places of a wavefront have in common while the exponent of the weight updates stays the same.
#[derive(Clone, Copy)]
pub(crate) struct LongForm {
    pub reduced: bool,
    pub column: bool,
    /// The greatest number of previous bands.
    pub previous: usize,
    /// How many pairs hold the components of any band: more than five, if there are more than seven previous bands.
    pub pairs: usize,
    /// The greatest offset.
    pub greatest: i32,
    pub step: LongStep,
    pub ghost previous_in: { previous ≤ 15 },
    pub ghost deep: { 7 < previous → 5 < pairs },
    pub ghost pairs_in: { pairs ≤ 9 },
    pub ghost greatest_in: { (pos 1 ≤ℤ greatest) × (greatest ≤ℤ pos 65535) },
    pub ghost greatest_is: { greatest +ℤ pos 1 ≡ pos (2 ^ step.bits) },
}
