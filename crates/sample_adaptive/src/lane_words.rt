//! Code words of eight residuals, in lanes.

ghost use Rattle.std.specs.Prelude.{◌≡◌, ◌+◌, ◌<◌, ◌≤◌, ℕ, min};
ghost use Rattle.lanes.specs.Lanes.{number};
ghost use Rattle.sample_adaptive.specs.Runs.{IsKeptCodes, IsPlainWord};

use crate::kept_codes::KeptCodes;
use lanes::{eight, masks};
use std::simd::prelude::*;

/// Eight words: each has the lowest bits of a number, as many as its length says.
#[derive(Clone, Copy)]
pub(crate) struct LaneWords {
    pub bits: u16x8,
    pub lengths: u16x8,
}

/// Returns the code words of eight residuals as if none was an escape, by the lower of the two parameters where `lower` is 65,535, and by
/// the other where it is 0. A residual above 32,767 is taken as that number.
///
/// Where the parameter is lower, the residual is doubled, so that all quotients come from one shift.
#[inline(always)]
pub(crate) fn lane_words(codes: KeptCodes, residuals: u16x8, lower: u16x8) -> LaneWords
    requires kept { (bits limit : ℕ) × (bits ≤ 16) × IsKeptCodes bits limit codes }
    ensures lower { (j : ℕ) → j < 8 → number lower j ≡ 65535 → IsPlainWord codes.k (min (number residuals j) 32767) (number result.bits j) (number result.lengths j) }
    ensures upper { (j : ℕ) → j < 8 → number lower j ≡ 0 → IsPlainWord (codes.k + 1) (min (number residuals j) 32767) (number result.bits j) (number result.lengths j) }
{
    let held = eight::capped(residuals, 32767);
    let doubled = masks::doubled_where(held, lower);
    let quotients = masks::shifted(doubled, codes.k + 1);
    let powers = masks::lessened_where(codes.next_power, codes.power, lower);
    LaneWords {
        bits: masks::rest_and_power(held, powers),
        lengths: eight::short_sum(quotients, masks::less_one_where(codes.shortest, lower)),
    }
}
