//! The settings on which code words depend, besides the statistics.

ghost use Rattle.std.specs.Prelude.{◌≤◌};

use crate::statistics::Rescaling;

/// The settings on which the code words of an image depend, besides the statistics.
#[derive(Clone, Copy)]
pub(crate) struct CodeSettings {
    /// U_max, the unary length limit.
    pub limit: u32,
    /// D.
    pub bits: u32,
    pub rescaling: Rescaling,
    pub ghost limit_in: { limit ≤ 32 },
    pub ghost bits_in: { (2 ≤ bits) × (bits ≤ 16) },
}
