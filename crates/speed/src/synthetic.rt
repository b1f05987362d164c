//! Synthetic numbers, the same as in `bench/src/synthetic.rs`.

ghost use Rattle.std.specs.Prelude.{◌≡◌, ◌≤◌, ◌<◌, ◌^◌, length, IfOk};
ghost use Rattle.speed.specs.Bodies.{AreOfBits};
ghost use Rattle.speed.specs.Numbers.{first_state, next_state, highest, synthetic_residuals, mixed, checksum};

use std::alloc::{AllocError, Global};
use std::marker::Model;

/// A linear congruential generator of 64 bits, whose highest bits are its numbers.
#[derive(Drop)]
pub struct Generator {
    state: u64,
}

impl Model for Generator {
    ghost use Rattle.std.specs.Prelude.{ℕ};

    ghost Value = { ℕ };

    ghost view = { λ g. g.state };
}

impl Generator {
    /// The generator before its first number.
    pub fn new() -> Generator
        ensures { result ≡ first_state }
    {
        Generator {
            state: 0x9E37_79B9_7F4A_7C15,
        }
    }

    /// Returns the next number of that many bits.
    pub fn number(&mut self, bits: u32) -> u16
        requires { (1 ≤ bits) × (bits ≤ 16) }
        ensures state { self.new ≡ next_state self.old }
        ensures number { result ≡ highest bits self.new }
        ensures bound { result < 2 ^ bits }
    {
        self.state = self
            .state
            .wrapping_mul(6_364_136_223_846_793_005)
            .wrapping_add(1_442_695_040_888_963_407);
        let high = (self.state >> 48) as u16;
        high >> (16 - bits)
    }
}

/// Returns `count` residuals of twelve bits. The high part is the number of zeros before the first one of a random word,
/// the low part random bits, whose number changes every 4,096 residuals; every eighth of these stretches is zeros.
pub fn residuals(alloc: Global, count: u64) -> Result<Vec<u16>, AllocError>
    ensures value { IfOk result (λ v. v.items ≡ synthetic_residuals count) }
    ensures len { IfOk result (λ v. length v.items ≡ count) }
    ensures few { IfOk result (λ v. AreOfBits 12 v.items) }
{
    let mut generator = Generator::new();
    let mut residuals = Vec::new(alloc);
    for i in 0..count {
        let quotient = generator.number(16).leading_zeros();
        let low = generator.number(5) >> ((i >> 12) % 4 + 1);
        residuals.push(if (i >> 12) % 8 == 7 {
            0
        } else {
            (quotient << 4) as u16 | low
        })?;
    }
    Ok(residuals)
}

/// A checksum with one more number.
pub fn mixed(checksum: u64, number: u64) -> u64
    ensures { result ≡ mixed checksum number }
{
    checksum.rotate_left(5).wrapping_add(number)
}

/// The checksum of bytes.
pub fn sum_of_bytes(bytes: &[u8]) -> u64
    ensures { result ≡ checksum bytes.now }
{
    let mut sum = 0;
    for byte in bytes {
        sum = mixed(sum, u64::from(*byte));
    }
    sum
}
