//! Reading bits from the front of bytes.

ghost use Rattle.std.specs.Prelude.{◌≡◌, ◌+◌, ◌-◌, ◌*◌, ◌/◌, ◌%◌, ◌^◌, ◌<◌, ◌≤◌, ◌↔◌, ◌++◌, ◌∷◌, true, false, length, take, drop, replicate, IsOk, IsErr};
ghost use Rattle.std.specs.Prelude.{IfOk, IfErr, OnErr, IsSome, IfSome};
ghost use Rattle.cube_core.specs.declared.fault.Fault.TheVariants.{Truncated};
ghost use Rattle.header_bits.specs.Bits.{bits_of, bits_of_bytes};
ghost use Rattle.header_bits.specs.Reading.{Reads, ReadsZeros, number_at, zeros_at};
ghost use Rattle.header_bits.specs.Windows.{IsAhead, IsFrontWord, IsWindow};

use cube_core::fault::Fault;
use std::marker::Model;

/// A reader that takes the bits of bytes one number after another, the most significant bit of each byte first.
///
/// Contracts see how many bits there are in all, and the bits that are left.
#[derive(Drop)]
pub struct BitReader<'a> {
    bytes: &'a [u8],
    /// How many bits were taken.
    at: u64,
}

impl<'a> Model for BitReader<'a> {
    ghost use Rattle.std.specs.Prelude.{◌*◌, ◌^◌, ◌≤◌, length, drop};
    ghost use Rattle.header_bits.specs.Bits.{bits_of_bytes, Unread};

    ghost Value = { Unread };

    ghost view = { λ a. record { count = 8 * length a.bytes.now; left = drop a.at (bits_of_bytes a.bytes.now) } };

    ghost invariant = { λ a. (a.at ≤ 8 * length a.bytes.now) × (length a.bytes.now ≤ 2 ^ 60) };
}

impl<'a> BitReader<'a> {
    /// Returns a reader at the first bit of at most 2^60 bytes.
    pub fn new(bytes: &'a [u8]) -> BitReader<'a>
        requires { length bytes.now ≤ 2 ^ 60 }
        ensures count { result.count ≡ 8 * length bytes.now }
        ensures left { result.left ≡ bits_of_bytes bytes.now }
    {
        BitReader { bytes, at: 0 }
    }

    /// Returns another reader at the same position in the same bytes.
    pub fn fork(&self) -> BitReader<'a>
        ensures { result ≡ self.now }
    {
        BitReader {
            bytes: self.bytes,
            at: self.at,
        }
    }

    /// Returns how many bits there are in all, including those taken.
    pub fn count(&self) -> u64
        ensures { result ≡ self.now.count }
    {
        self.bytes.len() as u64 * 8
    }

    /// Returns how many bits are left.
    pub fn left(&self) -> u64
        ensures { result ≡ length self.now.left }
    {
        self.count() - self.at
    }

    /// Takes the next `n` bits and returns them as a number, the first bit the most significant.
    ///
    /// `n` is at most 64. Returns `Truncated`, with the number of bits of all the bytes, if fewer bits are
    /// left; the reader then keeps its position.
    pub fn take(&mut self, n: u32) -> Result<u64, Fault>
        requires { n ≤ 64 }
        ensures reads { Reads (λ x. x) result self.new.left (number_at self.old.count n self.old.left) }
        ensures enough { IsOk result ↔ (n ≤ length self.old.left) }
        ensures short { IsErr result → length self.old.left < n }
        ensures taken { IfOk result (λ v. self.old.left ≡ bits_of n v ++ self.new.left) }
        ensures below { IfOk result (λ v. v < 2 ^ n) }
        ensures count { self.new.count ≡ self.old.count }
        ensures refused { IfErr result (λ e. e ≡ Truncated self.old.count) }
        ensures same { OnErr result (self.new ≡ self.old) }
    {
        if self.left() < u64::from(n) {
            return Err(Fault::Truncated { bit: self.count() });
        }
        let number = number_of_bits(self.bytes, self.at, n);
        self.at += u64::from(n);
        Ok(number)
    }

    /// Takes zeros up to a one, which is taken too, or `limit` zeros, and returns the number of zeros.
    ///
    /// Returns `Truncated`, with the number of bits of all the bytes, if the bits end before that; the reader
    /// then keeps its position.
    pub fn count_zeros(&mut self, limit: u64) -> Result<u64, Fault>
        ensures reads { Reads (λ x. x) result self.new.left (zeros_at self.old.count limit self.old.left) }
        ensures taken { IfOk result (λ zeros. ReadsZeros limit zeros self.old.left self.new.left) }
        ensures short { IsErr result ↔ ((length self.old.left < limit) × (self.old.left ≡ replicate (length self.old.left) false)) }
        ensures count { self.new.count ≡ self.old.count }
        ensures refused { IfErr result (λ e. e ≡ Truncated self.old.count) }
        ensures same { OnErr result (self.new ≡ self.old) }
    {
        let most = self.left().min(limit);
        let zeros = zeros_ahead(self.bytes, self.at, most);
        if zeros < most {
            self.at += zeros + 1;
            return Ok(zeros);
        }
        if most < limit {
            return Err(Fault::Truncated { bit: self.count() });
        }
        self.at += zeros;
        Ok(zeros)
    }

    /// Returns a word whose 57 highest bits are the next bits, or `None` if fewer than 57 are left.
    ///
    /// A caller that finds a whole code in the word pays for one load, and continues with `skip`.
    #[inline(always)]
    pub fn peek(&self) -> Option<u64>
        ensures enough { IsSome result ↔ (57 ≤ length self.now.left) }
        ensures bits { IfSome result (λ word. IsAhead 57 self.now.left word) }
    {
        let eight = self.bytes[(self.at / 8) as usize..].first_chunk::<8>()?;
        Some(word_of_eight(eight) << (self.at % 8))
    }

    /// Skips the next `n` bits. At least `n` are left.
    #[inline(always)]
    pub fn skip(&mut self, n: u64)
        requires { n ≤ length self.old.left }
        ensures left { self.new.left ≡ drop n self.old.left }
        ensures count { self.new.count ≡ self.old.count }
    {
        self.at += n;
    }
}

/// Returns the `n` bits of a word after its `highest` highest bits, as a number. Both are at most 63, and together at most 64.
#[inline(always)]
pub fn bits_after(word: u64, highest: u32, n: u32) -> u64
    requires highest { highest < 64 }
    requires few { n < 64 }
    requires within { highest + n ≤ 64 }
    ensures { result ≡ word / 2 ^ (64 - (highest + n)) % 2 ^ n }
{
    // Two shifts to the right, since n may be 0 and a shift by 64 isn't one.
    (word << highest >> 1) >> (63 - n)
}

/// Returns the next `n` bits as a number.
fn number_of_bits(bytes: &[u8], at: u64, n: u32) -> u64
    requires small { length bytes.now ≤ 2 ^ 60 }
    requires few { n ≤ 64 }
    requires enough { at + n ≤ 8 * length bytes.now }
    ensures bits { drop at (bits_of_bytes bytes.now) ≡ bits_of n result ++ drop (at + n) (bits_of_bytes bytes.now) }
    ensures below { result < 2 ^ n }
{
    if n <= 56 {
        return piece_at(bytes, at, n);
    }
    let first = n - 32;
    let high = piece_at(bytes, at, first);
    (high << 32) | piece_at(bytes, at + u64::from(first), 32)
}

/// Returns the next few bits, which lie in eight bytes, as a number.
fn piece_at(bytes: &[u8], at: u64, n: u32) -> u64
    requires small { length bytes.now ≤ 2 ^ 60 }
    requires few { n ≤ 56 }
    requires enough { at + n ≤ 8 * length bytes.now }
    ensures bits { drop at (bits_of_bytes bytes.now) ≡ bits_of n result ++ drop (at + n) (bits_of_bytes bytes.now) }
    ensures below { result < 2 ^ n }
{
    // Two shifts, since n may be 0 and a shift by 64 isn't one.
    (window_at(bytes, at) >> 1) >> (63 - n)
}

/// Returns how many zeros come next, before a one and up to `most`, reading a word of bits at a time.
fn zeros_ahead(bytes: &[u8], at: u64, most: u64) -> u64
    requires small { length bytes.now ≤ 2 ^ 60 }
    requires enough { at + most ≤ 8 * length bytes.now }
    ensures within { result ≤ most }
    ensures zeros { drop at (bits_of_bytes bytes.now) ≡ replicate result false ++ drop (at + result) (bits_of_bytes bytes.now) }
    ensures one { result < most → drop (at + result) (bits_of_bytes bytes.now) ≡ true ∷ drop (at + result + 1) (bits_of_bytes bytes.now) }
{
    let mut zeros = 0;
    while zeros < most {
        let next = at + zeros;
        let run = u64::from(window_at(bytes, next).leading_zeros());
        let some = (64 - next % 8).min(most - zeros);
        if run < some {
            return zeros + run;
        }
        zeros += some;
    }
    most
}

/// Returns a word whose highest bits are the next bits, up to the end of the eighth byte from here.
fn window_at(bytes: &[u8], at: u64) -> u64
    requires small { length bytes.now ≤ 2 ^ 60 }
    requires within { at ≤ 8 * length bytes.now }
    ensures { IsWindow bytes.now at result }
{
    word_of(&bytes[(at / 8) as usize..]) << (at % 8)
}

/// Returns the first eight bytes as a word, with zeros for missing ones.
fn word_of(bytes: &[u8]) -> u64
    ensures { IsFrontWord bytes.now result }
{
    match bytes.first_chunk::<8>() {
        Some(eight) => word_of_eight(eight),
        None => word_of_eight(&padded(bytes)),
    }
}

/// Returns eight bytes as a word, the first byte the highest.
fn word_of_eight(bytes: &[u8; 8]) -> u64
    ensures bits { bits_of_bytes bytes.now ≡ bits_of 64 result }
    ensures below { result < 2 ^ 64 }
{
    u64::from_be_bytes(*bytes)
}

/// Returns fewer than eight bytes, followed by zeros.
fn padded(bytes: &[u8]) -> [u8; 8]
    requires { length bytes.now < 8 }
    ensures { take (length bytes.now) result ≡ bytes.now }
{
    let mut eight = [0; 8];
    eight[..bytes.len()].copy_from_slice(bytes);
    eight
}
