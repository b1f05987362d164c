//! Raw numbers as offsets from the least sample of a kind, and back.

ghost use Rattle.std.specs.Prelude.{◌≡◌, ◌⊎◌, ◌↔◌, ◌*◌, ◌+◌, ◌%◌, ◌<◌, ◌≤◌, ◌^◌, IsTrue};
ghost use Rattle.cube_core.specs.Kind.{IsKind, IsSample, sample_of};
ghost use Rattle.cube_core.specs.Layout.{twos_complement, raw_code};
ghost use Rattle.cube_core.specs.Scale.{half_of, zero_offset, number_of_rebased};

use crate::kind::Kind;

/// Turns raw numbers of one or two bytes into offsets and back, with no branch on the sign.
#[derive(Clone, Copy)]
pub(crate) struct Scale {
    kind: Kind,
    bytes: u32,
    /// Half the number of values of that many bytes if samples are signed, else 0.
    half: u16,
    /// The offset, from the least sample, of the least number of that many bytes, modulo 2^16.
    bias: u16,
    /// The greatest offset of a sample.
    most: u16,
    ghost kind_is: { IsKind kind },
    ghost half_is: { half ≡ half_of kind.signed bytes },
    ghost bias_is: { (bias + half) % 65536 ≡ zero_offset kind },
    ghost most_is: { most + 1 ≡ 2 ^ kind.bits },
}

impl Scale {
    /// The scale of a kind in that many bytes.
    pub(crate) fn new(kind: Kind, bytes: u32) -> Scale
        requires { (bytes ≡ 1) ⊎ (bytes ≡ 2) }
        ensures { (result.kind ≡ kind) × (result.bytes ≡ bytes) }
    {
        let _bits = kind.bits();
        let half = if !kind.is_signed() {
            0
        } else if bytes == 1 {
            128
        } else {
            32_768
        };
        Scale {
            kind,
            bytes,
            half,
            bias: kind.offset_of(0).wrapping_sub(half),
            most: kind.offset_of(kind.smax()),
        }
    }

    /// Returns the offset of a raw number, or some number above the greatest offset if it spells no sample.
    pub(crate) fn offset<const BYTES: u32>(&self, number: u16) -> u16
        requires bytes { self.now.bytes ≡ BYTES }
        requires width { (BYTES ≡ 1) ⊎ (BYTES ≡ 2) }
        requires number { number < 2 ^ (8 * BYTES) }
        ensures value { result < 2 ^ self.now.kind.bits → sample_of self.now.kind result ≡ twos_complement self.now.kind.signed BYTES number }
        ensures range { IsSample self.now.kind (twos_complement self.now.kind.signed BYTES number) → result < 2 ^ self.now.kind.bits }
    {
        let rebased = number.wrapping_add(self.half);
        let rebased = if BYTES == 1 { rebased % 256 } else { rebased };
        rebased.wrapping_add(self.bias)
    }

    /// Returns whether the greatest of some offsets, and so each of them, belongs to a sample.
    pub(crate) fn has(&self, greatest: u16) -> bool
        ensures { IsTrue result ↔ (greatest < 2 ^ self.now.kind.bits) }
    {
        greatest <= self.most
    }

    /// Returns an offset counted from the least number of that many bytes instead of the least sample: below
    /// 256 or 65,536 exactly where the sample fits in them.
    pub(crate) fn rebased(&self, offset: u16) -> u16
        requires width { (self.now.bytes ≡ 1) ⊎ (self.now.bytes ≡ 2) }
        requires offset { offset < 2 ^ self.now.kind.bits }
        ensures fits { (result < 2 ^ (8 * self.now.bytes)) ↔ IsSample (record { signed = self.now.kind.signed; bits = 8 * self.now.bytes })
            (sample_of self.now.kind offset) }
        ensures code { result < 2 ^ (8 * self.now.bytes) → raw_code self.now.bytes (sample_of self.now.kind offset) ≡ number_of_rebased self.now.kind.signed
            self.now.bytes result }
    {
        offset.wrapping_sub(self.bias)
    }

    /// Returns the number in the bytes, from the rebased offset of its sample.
    pub(crate) fn number<const BYTES: u32>(&self, rebased: u16) -> u16
        requires bytes { self.now.bytes ≡ BYTES }
        requires width { (BYTES ≡ 1) ⊎ (BYTES ≡ 2) }
        ensures value { result ≡ number_of_rebased self.now.kind.signed BYTES rebased }
        ensures below { result < 2 ^ (8 * BYTES) }
    {
        let number = rebased.wrapping_sub(self.half);
        if BYTES == 1 { number % 256 } else { number }
    }

    /// Returns whether the greatest of some rebased offsets, and so each of them, fits in that many bytes.
    pub(crate) fn spells<const BYTES: u32>(&self, greatest: u16) -> bool
        requires width { (BYTES ≡ 1) ⊎ (BYTES ≡ 2) }
        ensures { IsTrue result ↔ (greatest < 2 ^ (8 * BYTES)) }
    {
        BYTES == 2 || greatest < 256
    }
}
