//! What the updates of the weights have in common while the exponent stays the same.

ghost use Rattle.std.specs.Prelude.{◌≡◌, ◌+◌, ◌-◌, ◌^◌, ◌<◌, ◌≤◌, ℕ, pos, negsuc, ◌-ℤ◌, ◌+ℤ◌, ◌≤ℤ◌};

/// The parameters of the weight update at places with one exponent ρ, for weights and components of at most 16 bits
/// (CCSDS 123.0-B-1, "Weight Update").
#[derive(Clone, Copy)]
pub struct Step {
    /// Ω, the weight resolution.
    pub omega: u32,
    /// D, the bits of a sample.
    pub bits: u32,
    /// ρ.
    pub exponent: i32,
    /// The greatest weight.
    pub(crate) limit: i16,
    /// If ρ isn't negative, 2^ρ.
    pub(crate) half: i16,
    /// If ρ isn't negative, ρ + 1.
    pub(crate) by: u32,
    /// If ρ is negative, 2^(-ρ - 1).
    pub(crate) factor: i16,
    pub ghost omega_in: { (4 ≤ omega) × (omega ≤ 13) },
    pub ghost bits_in: { bits ≤ 12 },
    pub ghost least: { (pos bits -ℤ pos 14) ≤ℤ exponent },
    pub ghost most: { exponent ≤ℤ pos 13 },
    pub ghost limit_is: { limit +ℤ pos 1 ≡ pos (2 ^ (omega + 2)) },
    pub ghost half_in: { (pos 1 ≤ℤ half) × (half ≤ℤ pos 8192) },
    pub ghost by_in: { (1 ≤ by) × (by ≤ 14) },
    pub ghost factor_in: { (pos 1 ≤ℤ factor) × (factor ≤ℤ pos 8192) },
    pub ghost lowered: { (r : ℕ) → exponent ≡ pos r → (half ≡ pos (2 ^ r)) × (by ≡ r + 1) },
    pub ghost raised: { (k : ℕ) → exponent ≡ negsuc k → factor ≡ pos (2 ^ k) },
}

impl Step {
    /// Returns the parameters at an exponent.
    pub fn new(omega: u32, bits: u32, exponent: i32) -> Step
        requires omega_in { (4 ≤ omega) × (omega ≤ 13) }
        requires bits_in { bits ≤ 12 }
        requires least { (pos bits -ℤ pos 14) ≤ℤ exponent }
        requires most { exponent ≤ℤ pos 13 }
        ensures omega { result.omega ≡ omega }
        ensures bits { result.bits ≡ bits }
        ensures exponent { result.exponent ≡ exponent }
    {
        let deep = DeepStep::new(omega, bits, exponent);
        Step {
            omega: deep.omega,
            bits: deep.bits,
            exponent: deep.exponent,
            limit: deep.limit,
            half: deep.half,
            by: deep.by,
            factor: deep.factor,
        }
    }

    /// Returns the same for functions that also take samples of 13 bits.
    #[inline(always)]
    pub(crate) fn deep(self) -> DeepStep
        ensures omega { result.omega ≡ self.omega }
        ensures bits { result.bits ≡ self.bits }
        ensures exponent { result.exponent ≡ self.exponent }
    {
        DeepStep {
            omega: self.omega,
            bits: self.bits,
            exponent: self.exponent,
            limit: self.limit,
            half: self.half,
            by: self.by,
            factor: self.factor,
        }
    }
}

/// The same parameters for samples of at most 13 bits, with which a component can fill 16 bits.
#[derive(Clone, Copy)]
pub struct DeepStep {
    /// Ω, the weight resolution.
    pub omega: u32,
    /// D, the bits of a sample.
    pub bits: u32,
    /// ρ.
    pub exponent: i32,
    /// The greatest weight.
    pub(crate) limit: i16,
    /// If ρ isn't negative, 2^ρ.
    pub(crate) half: i16,
    /// If ρ isn't negative, ρ + 1.
    pub(crate) by: u32,
    /// If ρ is negative, 2^(-ρ - 1).
    pub(crate) factor: i16,
    pub ghost omega_in: { (4 ≤ omega) × (omega ≤ 13) },
    pub ghost bits_in: { bits ≤ 13 },
    pub ghost least: { (pos bits -ℤ pos 14) ≤ℤ exponent },
    pub ghost most: { exponent ≤ℤ pos 13 },
    pub ghost limit_is: { limit +ℤ pos 1 ≡ pos (2 ^ (omega + 2)) },
    pub ghost half_in: { (pos 1 ≤ℤ half) × (half ≤ℤ pos 8192) },
    pub ghost by_in: { (1 ≤ by) × (by ≤ 14) },
    pub ghost factor_in: { (pos 1 ≤ℤ factor) × (factor ≤ℤ pos 8192) },
    pub ghost lowered: { (r : ℕ) → exponent ≡ pos r → (half ≡ pos (2 ^ r)) × (by ≡ r + 1) },
    pub ghost raised: { (k : ℕ) → exponent ≡ negsuc k → factor ≡ pos (2 ^ k) },
}

impl DeepStep {
    /// Returns the parameters at an exponent.
    pub fn new(omega: u32, bits: u32, exponent: i32) -> DeepStep
        requires omega_in { (4 ≤ omega) × (omega ≤ 13) }
        requires bits_in { bits ≤ 13 }
        requires least { (pos bits -ℤ pos 14) ≤ℤ exponent }
        requires most { exponent ≤ℤ pos 13 }
        ensures omega { result.omega ≡ omega }
        ensures bits { result.bits ≡ bits }
        ensures exponent { result.exponent ≡ exponent }
    {
        let limit = greatest_weight(omega);
        if exponent < 0 {
            DeepStep {
                omega,
                bits,
                exponent,
                limit,
                half: 1,
                by: 1,
                factor: power((-1 - exponent) as u32),
            }
        } else {
            DeepStep {
                omega,
                bits,
                exponent,
                limit,
                half: power(exponent as u32),
                by: exponent as u32 + 1,
                factor: 1,
            }
        }
    }
}

/// Returns a power of two.
fn power(exponent: u32) -> i16
    requires { exponent ≤ 13 }
    ensures value { result ≡ pos (2 ^ exponent) }
    ensures bound { (pos 1 ≤ℤ result) × (result ≤ℤ pos 8192) }
{
    1 << exponent
}

/// Returns the greatest weight, 2^(Ω+2) - 1.
fn greatest_weight(omega: u32) -> i16
    requires { omega ≤ 13 }
    ensures { result +ℤ pos 1 ≡ pos (2 ^ (omega + 2)) }
{
    ((1i32 << (omega + 2)) - 1) as i16
}
