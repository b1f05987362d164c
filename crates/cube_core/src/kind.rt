//! The kind of a cube's samples: signed or not, and of how many bits.

ghost use Rattle.std.specs.Prelude.{◌≡◌, ◌⊎◌, ◌↔◌, ◌*◌, ◌<◌, ◌^◌, IsOk, IsTrue, pos, negsuc, ◌≤ℤ◌, ◌+ℤ◌};
ghost use Rattle.cube_core.specs.Shape.{InRange};
ghost use Rattle.cube_core.specs.Kind.{kind_or_fault, smin, smax, smid, IsSample, sample_of};

use crate::fault::{Fault, Field};
use std::marker::Model;

/// Whether samples are signed, and how many bits they have, 2 to 16 (CCSDS 123.0-B-1, "Image").
#[derive(Clone, Copy, Debug, PartialEq, Eq)]
pub struct Kind {
    signed: bool,
    bits: u32,
}

impl Model for Kind {
    ghost use Rattle.cube_core.specs.Kind.{SampleKind, IsKind};

    ghost Value = { SampleKind };

    ghost view = { λ k. record { signed = k.signed; bits = k.bits } };

    ghost invariant = { λ k. IsKind (record { signed = k.signed; bits = k.bits }) };

    ghost inverse = { λ v. record { signed = v.signed; bits = v.bits } };
}

impl Kind {
    /// Returns the kind of samples of `bits` bits, signed or not.
    ///
    /// Returns `FieldRange` of `DynamicRange` if `bits` isn't 2 to 16.
    pub fn new(signed: bool, bits: u32) -> Result<Kind, Fault>
        ensures value { result ≡ kind_or_fault (record { signed = signed; bits = bits }) }
        ensures in_range { IsOk result ↔ InRange 2 16 bits }
    {
        if (2..=16).contains(&bits) {
            Ok(Kind { signed, bits })
        } else {
            Err(Fault::FieldRange {
                field: Field::DynamicRange,
                value: i64::from(bits),
            })
        }
    }

    /// Whether samples may be negative.
    pub fn is_signed(self) -> bool
        ensures { result ≡ self.signed }
    {
        self.signed
    }

    /// D, the dynamic range: how many bits a sample has.
    pub fn bits(self) -> u32
        ensures value { result ≡ self.bits }
        ensures range { InRange 2 16 result }
    {
        self.bits
    }

    /// The least sample.
    pub fn smin(self) -> i32
        ensures value { result ≡ smin self }
        ensures range { (negsuc 32767 ≤ℤ result) × (result ≤ℤ pos 0) }
    {
        if self.signed {
            -(1i32 << (self.bits - 1))
        } else {
            0
        }
    }

    /// The greatest sample.
    pub fn smax(self) -> i32
        ensures value { result ≡ smax self }
        ensures range { (pos 1 ≤ℤ result) × (result ≤ℤ pos 65535) }
        ensures span { smax self ≤ℤ (smin self +ℤ pos 65535) }
    {
        if self.signed {
            (1i32 << (self.bits - 1)) - 1
        } else {
            (1i32 << self.bits) - 1
        }
    }

    /// The middle sample.
    pub fn smid(self) -> i32
        ensures value { result ≡ smid self }
        ensures range { (pos 0 ≤ℤ result) × (result ≤ℤ pos 32768) }
        ensures inside { smid self ≤ℤ smax self }
    {
        if self.signed {
            0
        } else {
            1i32 << (self.bits - 1)
        }
    }

    /// Returns the kind of samples of `bytes` whole bytes, 1 or 2, signed where this kind is.
    pub(crate) fn in_bytes(self, bytes: u32) -> Kind
        requires { (bytes ≡ 1) ⊎ (bytes ≡ 2) }
        ensures { result ≡ record { signed = self.signed; bits = 8 * bytes } }
    {
        Kind {
            signed: self.signed,
            bits: 8 * bytes,
        }
    }

    /// Returns whether a number is a sample of this kind.
    pub fn has(self, number: i32) -> bool
        ensures { IsTrue result ↔ IsSample self number }
    {
        self.smin() <= number && number <= self.smax()
    }

    /// Returns the sample with this offset, below 2^D, from the least one.
    pub fn sample_of(self, offset: u16) -> i32
        requires { offset < 2 ^ self.bits }
        ensures value { result ≡ sample_of self offset }
        ensures range { IsSample self result }
        ensures bounds { (negsuc 32767 ≤ℤ result) × (result ≤ℤ pos 65535) }
    {
        self.smin() + i32::from(offset)
    }

    /// Returns the offset of a sample from the least one.
    pub fn offset_of(self, sample: i32) -> u16
        requires { IsSample self sample }
        ensures value { sample_of self result ≡ sample }
        ensures below { result < 2 ^ self.bits }
    {
        (sample - self.smin()) as u16
    }
}
