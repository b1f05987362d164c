//! The limits of a kind of samples, computed once.

ghost use Rattle.std.specs.Prelude.{◌≡◌, ◌<◌, ◌^◌, pos, negsuc, ◌≤ℤ◌, ◌+ℤ◌};
ghost use Rattle.cube_core.specs.Kind.{IsKind, IsSample, smin as least, smid as middle, smax as greatest};
ghost use Rattle.sample_prediction.specs.Residual.{mapped};
ghost use Rattle.sample_prediction.specs.Mapping.{IsScaled};

use crate::residual::{map_between, unmap_between};
use cube_core::kind::Kind;

/// A kind of samples with its least, middle and greatest sample.
#[derive(Clone, Copy)]
pub struct SampleLimits {
    /// The kind itself.
    pub kind: Kind,
    /// D, the bits of a sample.
    pub bits: u32,
    /// The least sample.
    pub smin: i32,
    /// The middle sample.
    pub smid: i32,
    /// The greatest sample.
    pub smax: i32,
    pub ghost lawful: { IsKind kind },
    pub ghost bits_is: { bits ≡ kind.bits },
    pub ghost smin_is: { smin ≡ least kind },
    pub ghost smid_is: { smid ≡ middle kind },
    pub ghost smax_is: { smax ≡ greatest kind },
    pub ghost low: { (negsuc 32767 ≤ℤ smin) × (smin ≤ℤ pos 0) },
    pub ghost mid: { (pos 0 ≤ℤ smid) × (smid ≤ℤ pos 32768) },
    pub ghost high: { (pos 1 ≤ℤ smax) × (smax ≤ℤ pos 65535) },
    pub ghost inside: { smid ≤ℤ smax },
    pub ghost span: { smax ≤ℤ (smin +ℤ pos 65535) },
}

impl SampleLimits {
    /// Returns the limits of a kind.
    pub fn of(kind: Kind) -> SampleLimits
        ensures { result.kind ≡ kind }
    {
        SampleLimits {
            kind,
            bits: kind.bits(),
            smin: kind.smin(),
            smid: kind.smid(),
            smax: kind.smax(),
        }
    }

    /// Returns the mapped residual of a sample. The scaled prediction is 2·s_min to 2·s_max + 1.
    #[inline(always)]
    pub fn residual_of(&self, scaled: i32, sample: i32) -> u16
        requires scaled { IsScaled self.now.kind scaled }
        requires sample { IsSample self.now.kind sample }
        ensures value { result ≡ mapped self.now.kind scaled sample }
        ensures bound { result < 2 ^ self.now.kind.bits }
    {
        map_between(self.smin, self.smax, scaled, sample)
    }

    /// Returns the sample of a mapped residual, at most 2^D - 1. The scaled prediction is 2·s_min to 2·s_max + 1.
    #[inline(always)]
    pub fn sample_of(&self, scaled: i32, delta: u16) -> i32
        requires scaled { IsScaled self.now.kind scaled }
        requires residual { delta < 2 ^ self.now.kind.bits }
        ensures range { IsSample self.now.kind result }
        ensures bounds { (negsuc 32767 ≤ℤ result) × (result ≤ℤ pos 65535) }
        ensures inverse { mapped self.now.kind scaled result ≡ delta }
    {
        unmap_between(self.smin, self.smax, scaled, delta)
    }
}
