//! How the samples of a cube lie in raw bytes.

ghost use Rattle.std.specs.Prelude.{◌≡◌, ◌⊎◌, ◌*◌, ◌≤◌, ◌<◌, ◌^◌, ◌-◌, ◌≤ℤ◌, ◌-ℤ◌, neg_ℤ, ◌++◌, length, pos, negsuc, OnOk, IfErr};
ghost use Rattle.cube_core.specs.Parts.{IsPart, first_sample, part_samples, unit_of, unit_count};
ghost use Rattle.cube_core.specs.Shape.{InRange, sample_count};
ghost use Rattle.cube_core.specs.Layout.{IsLayout, raw_value, raw_code, twos_complement, order_of, sample_bytes, HasBytes};

use crate::kind::Kind;
use crate::order::Order;
use crate::part::Part;
use crate::shape::Shape;
use byteorder::{BigEndian, ByteOrder, LittleEndian};

/// The order of the samples in a raw file.
#[derive(Clone, Copy, Debug, PartialEq, Eq)]
pub enum RawOrder {
    /// Band sequential.
    Bsq,
    /// Band interleaved by line.
    Bil,
    /// Band interleaved by pixel.
    Bip,
}

impl RawOrder {
    /// Returns the encoding order in which the samples follow one another.
    pub fn order(self, shape: Shape) -> Order
        ensures { result ≡ order_of self shape }
    {
        match self {
            RawOrder::Bsq => Order::Bsq,
            RawOrder::Bil => Order::Bi(1),
            RawOrder::Bip => Order::Bi(shape.bands()),
        }
    }
}

/// How samples lie in raw bytes: their order, one or two bytes each, and which byte comes first.
///
/// Samples are whole numbers of that many bytes, in two's complement where they are signed.
#[derive(Clone, Copy, Debug, PartialEq, Eq)]
pub struct Layout {
    pub order: RawOrder,
    /// Bytes of a sample: 1 or 2.
    pub bytes: u32,
    /// Whether the low byte comes first.
    pub little: bool,
}

impl Layout {
    /// Returns the number of raw bytes of a cube.
    pub fn length(self, shape: Shape) -> u64
        requires { IsLayout self }
        ensures { result ≡ sample_count shape * self.bytes }
    {
        shape.sample_count() * u64::from(self.bytes)
    }

    /// Returns how many samples a unit of raw samples has: one, a row of one band, or those of all bands at one row and column.
    pub fn unit(self, shape: Shape) -> u64
        ensures value { result ≡ unit_of self.order shape }
        ensures range { InRange 1 65536 result }
    {
        match self.order {
            RawOrder::Bsq => 1,
            RawOrder::Bil => u64::from(shape.columns()),
            RawOrder::Bip => u64::from(shape.bands()),
        }
    }

    /// Returns how many units the raw samples of a cube are.
    pub fn units(self, shape: Shape) -> u64
        ensures value { result ≡ unit_count self.order shape }
        ensures samples { result * unit_of self.order shape ≡ sample_count shape }
        ensures range { InRange 1 (2 ^ 48) result }
    {
        let count = shape.sample_count();
        match self.order {
            RawOrder::Bsq => count,
            RawOrder::Bil => u64::from(shape.rows()) * u64::from(shape.bands()),
            RawOrder::Bip => u64::from(shape.rows()) * u64::from(shape.columns()),
        }
    }

    /// Returns the part that all raw samples of a cube are.
    pub fn all(self, shape: Shape) -> Part
        ensures part { IsPart self shape result }
        ensures first { first_sample self shape result ≡ 0 }
        ensures samples { part_samples self shape result ≡ sample_count shape }
        ensures range { InRange 1 (2 ^ 48) (sample_count shape) }
    {
        Part {
            first: 0,
            count: self.units(shape),
        }
    }

    /// Returns the sample in the first bytes.
    pub(crate) fn value(self, kind: Kind, bytes: &[u8]) -> i32
        requires layout { IsLayout self }
        requires enough { self.bytes ≤ length bytes.now }
        ensures value { result ≡ raw_value self kind bytes.now }
        ensures range { (negsuc 32767 ≤ℤ result) × (result ≤ℤ pos 65535) }
    {
        let number = if self.bytes == 1 {
            u16::from(bytes[0])
        } else if self.little {
            LittleEndian::read_u16(bytes)
        } else {
            BigEndian::read_u16(bytes)
        };
        signed_value(kind.is_signed(), self.bytes, number)
    }
}

/// A number of one or two bytes, in two's complement where it is signed.
fn signed_value(signed: bool, bytes: u32, number: u16) -> i32
    requires bytes { (bytes ≡ 1) ⊎ (bytes ≡ 2) }
    requires fits { number < 2 ^ (8 * bytes) }
    ensures value { result ≡ twos_complement signed bytes number }
    ensures range { (negsuc 32767 ≤ℤ result) × (result ≤ℤ pos 65535) }
{
    let number = i32::from(number);
    let half = if bytes == 1 { 128 } else { 32_768 };
    if signed && number >= half {
        number - 2 * half
    } else {
        number
    }
}
