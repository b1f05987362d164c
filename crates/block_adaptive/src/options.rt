//! The options under which a block is coded.

/// A set of code options, and the identifier of each (CCSDS 121.0-B, "Code option identifiers").
#[derive(Clone, Copy, Debug, PartialEq, Eq, Drop)]
pub struct CodeSet {
    /// D, the number of bits of a value: 2 to 16.
    pub bits: u32,
    /// Whether it is the restricted set, for values of at most four bits.
    pub restricted: bool,
}

/// The option under which a block is coded (CCSDS 121.0-B, "Code options").
#[derive(Clone, Copy, Debug, PartialEq, Eq, Drop)]
pub enum Choice {
    /// Each value in D bits.
    Uncoded,
    /// The second extension: a fundamental sequence for each pair of values.
    Second,
    /// Split-sample: a fundamental sequence for each value without its k lowest bits, and then those bits.
    Split(u32),
}
