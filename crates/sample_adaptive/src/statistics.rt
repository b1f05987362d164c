//! The counter and the accumulator of a band, and the code parameter that they give.

ghost use Rattle.std.specs.Prelude.{◌≡◌, ◌+◌, ◌-◌, ◌*◌, ◌/◌, ◌^◌, ◌<◌, ◌≤◌};
ghost use Rattle.sample_adaptive.specs.Statistics.{start_statistics, level as level_of, code_parameter};

/// A band's statistics, by which its next residual is coded (CCSDS 123.0-B-1, "Adaptive code selection statistics").
#[derive(Clone, Copy, Debug, PartialEq, Eq)]
pub struct Statistics {
    /// Γ, the number of residuals that count in the accumulator.
    pub counter: u32,
    /// Σ, their sum.
    pub accumulator: u32,
}

/// When statistics are halved: once the counter is 2^γ* - 1.
///
/// That number is stored, so that it isn't computed for each sample.
#[derive(Clone, Copy)]
pub(crate) struct Rescaling {
    /// γ*, the rescaling counter size: 1 to 9.
    pub size: u32,
    /// 2^γ* - 1, the greatest counter.
    pub greatest: u32,
    pub ghost size_in: { (1 ≤ size) × (size ≤ 9) },
    pub ghost greatest_is: { greatest ≡ 2 ^ size - 1 },
}

impl Rescaling {
    /// Returns the rescaling by a rescaling counter size.
    pub(crate) fn of(size: u32) -> Rescaling
        requires { (1 ≤ size) × (size ≤ 9) }
        ensures { result.size ≡ size }
    {
        Rescaling {
            size,
            greatest: (1 << size) - 1,
        }
    }
}

/// Returns the statistics that a band starts from, by the initial count exponent and the accumulator's constant.
pub(crate) fn first(gamma_zero: u32, constant: u32) -> Statistics
    requires exponent { gamma_zero ≤ 8 }
    requires constant { constant ≤ 14 }
    ensures value { result ≡ start_statistics gamma_zero constant }
{
    let counter = 1 << gamma_zero;
    Statistics {
        counter,
        accumulator: ((3 << (constant + 6)) - 49) * counter / 128,
    }
}

/// Returns the statistics with one more residual.
pub(crate) fn counted(s: Statistics, residual: u16) -> Statistics
    requires { (s.counter < 2 ^ 31) × (s.accumulator < 2 ^ 31) }
    ensures { result ≡ record { counter = s.counter + 1; accumulator = s.accumulator + residual } }
{
    Statistics {
        counter: s.counter + 1,
        accumulator: s.accumulator + u32::from(residual),
    }
}

/// Returns the statistics with one more residual, both halved.
pub(crate) fn halved(s: Statistics, residual: u16) -> Statistics
    requires { (s.counter < 2 ^ 31) × (s.accumulator < 2 ^ 31) }
    ensures { result ≡ record { counter = (s.counter + 1) / 2; accumulator = (s.accumulator + residual + 1) / 2 } }
{
    Statistics {
        counter: (s.counter + 1) / 2,
        accumulator: (s.accumulator + u32::from(residual) + 1) / 2,
    }
}

/// Returns what the counter's products with powers of two are compared with.
pub(crate) fn level(s: Statistics) -> u32
    requires { (s.counter < 2 ^ 9) × (s.accumulator < 2 ^ 25) }
    ensures { result ≡ level_of s }
{
    s.accumulator + 49 * s.counter / 128
}

/// Returns k, the number of low bits of the next residual that its code word has as they are: at most D - 2.
///
/// The greatest k with counter·2^k at most the level is found from the lengths of the two numbers, without trying each k.
pub(crate) fn parameter(bits: u32, s: Statistics) -> u32
    requires bits { (2 ≤ bits) × (bits ≤ 16) }
    requires counter { (1 ≤ s.counter) × (s.counter < 2 ^ 9) }
    requires accumulator { s.accumulator < 2 ^ 25 }
    ensures value { result ≡ code_parameter bits s }
    ensures most { result + 2 ≤ bits }
{
    let level = level(s);
    if level < 2 * s.counter {
        return 0;
    }
    let shift = level.ilog2() - s.counter.ilog2();
    // The comparison is taken as a number: it is true about half of the time, and a branch on it would be mispredicted.
    let less = u32::from(s.counter << shift > level);
    (shift - less).min(bits - 2)
}

/// `parameter`, apart from the loops that mostly keep one. What it takes is passed in registers.
#[cold]
#[inline(never)]
pub(crate) fn rare_parameter(bits: u32, counter: u32, accumulator: u32) -> u32
    requires bits { (2 ≤ bits) × (bits ≤ 16) }
    requires counter { (1 ≤ counter) × (counter < 2 ^ 9) }
    requires accumulator { accumulator < 2 ^ 25 }
    ensures value { result ≡ code_parameter bits (record { counter = counter; accumulator = accumulator }) }
    ensures most { result + 2 ≤ bits }
{
    parameter(
        bits,
        Statistics {
            counter,
            accumulator,
        },
    )
}
