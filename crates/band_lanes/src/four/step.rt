//! What the updates of the weights have in common while the exponent stays the same, in words of 32 bits.

ghost use Rattle.std.specs.Prelude.{◌≡◌, ◌+◌, ◌-◌, ◌^◌, ◌<◌, ◌≤◌, ℕ, pos, negsuc, ◌-ℤ◌, ◌+ℤ◌, ◌≤ℤ◌};

/// The parameters of the weight update at places with one exponent ρ (CCSDS 123.0-B-1, "Weight Update").
#[derive(Clone, Copy)]
pub struct LongStep {
    /// Ω, the weight resolution.
    pub omega: u32,
    /// D, the bits of a sample.
    pub bits: u32,
    /// ρ.
    pub exponent: i32,
    /// The greatest weight.
    pub(crate) limit: i32,
    /// If ρ isn't negative, 2^ρ.
    pub(crate) half: i32,
    /// If ρ isn't negative, ρ + 1.
    pub(crate) by: u32,
    /// If ρ is negative, 2^(-ρ - 1).
    pub(crate) factor: i32,
    pub ghost omega_in: { omega ≤ 19 },
    pub ghost bits_in: { bits ≤ 16 },
    pub ghost least: { (pos bits -ℤ pos 25) ≤ℤ exponent },
    pub ghost most: { exponent ≤ℤ pos 21 },
    pub ghost limit_is: { limit +ℤ pos 1 ≡ pos (2 ^ (omega + 2)) },
    pub ghost half_in: { (pos 1 ≤ℤ half) × (half ≤ℤ pos 16777216) },
    pub ghost by_in: { by ≤ 22 },
    pub ghost factor_in: { (pos 1 ≤ℤ factor) × (factor ≤ℤ pos 16777216) },
    pub ghost lowered: { (r : ℕ) → exponent ≡ pos r → (half ≡ pos (2 ^ r)) × (by ≡ r + 1) },
    pub ghost raised: { (k : ℕ) → exponent ≡ negsuc k → factor ≡ pos (2 ^ k) },
}

impl LongStep {
    /// Returns the parameters at an exponent.
    pub fn new(omega: u32, bits: u32, exponent: i32) -> LongStep
        requires omega_in { omega ≤ 19 }
        requires bits_in { bits ≤ 16 }
        requires least { (pos bits -ℤ pos 25) ≤ℤ exponent }
        requires most { exponent ≤ℤ pos 21 }
        ensures omega { result.omega ≡ omega }
        ensures bits { result.bits ≡ bits }
        ensures exponent { result.exponent ≡ exponent }
    {
        let limit = greatest_weight(omega);
        if exponent < 0 {
            LongStep {
                omega,
                bits,
                exponent,
                limit,
                half: 1,
                by: 1,
                factor: power((-1 - exponent) as u32),
            }
        } else {
            LongStep {
                omega,
                bits,
                exponent,
                limit,
                half: power(exponent as u32),
                by: exponent as u32 + 1,
                factor: 1,
            }
        }
    }
}

/// Returns a power of two.
fn power(exponent: u32) -> i32
    requires { exponent ≤ 24 }
    ensures value { result ≡ pos (2 ^ exponent) }
    ensures bound { (pos 1 ≤ℤ result) × (result ≤ℤ pos 16777216) }
{
    1 << exponent
}

/// Returns the greatest weight, 2^(Ω+2) - 1.
fn greatest_weight(omega: u32) -> i32
    requires { omega ≤ 19 }
    ensures { result +ℤ pos 1 ≡ pos (2 ^ (omega + 2)) }
{
    power(omega + 2) - 1
}
