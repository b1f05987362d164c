//! The refusals of the coder, each with its name.

ghost use Rattle.std.specs.Prelude.{◌≡◌};
ghost use Rattle.cube_core.specs.declared.fault.Fault.TheVariants.{WantOfMemory};

use std::alloc::{AllocError, AllocFailed};
use thiserror::Error;

/// A parameter, or a field of the header, that has a range of its own.
#[derive(Clone, Copy, Debug, PartialEq, Eq)]
pub enum Field {
    /// Nx.
    Columns,
    /// Ny.
    Rows,
    /// Nz.
    Bands,
    /// D, the bits of a sample.
    DynamicRange,
    /// User-defined data.
    User,
    /// The depth of interleaving.
    Depth,
    /// B, the bytes of an output word.
    WordSize,
    /// P, the number of previous bands used for prediction.
    Previous,
    /// R, the register size.
    Register,
    /// Ω, the weight component resolution.
    Omega,
    /// The logarithm to base 2 of t_inc, the weight update scaling exponent change interval.
    Interval,
    /// The least weight update scaling exponent.
    VMin,
    /// The greatest weight update scaling exponent.
    VMax,
    /// How the weights start: a flag, which has no range.
    WeightStart,
    /// The resolution of a weight table.
    Resolution,
    /// An entry of a weight table.
    WeightEntry,
    /// The unary length limit.
    Umax,
    /// γ*, the rescaling counter size.
    GammaStar,
    /// γ₀, the initial count exponent.
    GammaZero,
    /// Whether there is an accumulator table: a flag, which has no range.
    AccumulatorTable,
    /// J, the samples in a block.
    BlockSize,
    /// Whether the set of code options is restricted: a flag, which has no range.
    Restricted,
    /// r, the reference sample interval.
    Reference,
    /// The number of predictors.
    Predictors,
    /// How many residuals a lane has room for.
    Slots,
}

/// A rule between parameters.
#[derive(Clone, Copy, Debug, PartialEq, Eq)]
pub enum Rule {
    /// The depth of interleaving is at most the number of bands.
    DepthOverBands,
    /// Full mode needs at least two columns (our own choice: see `docs/FORMAT.md`).
    FullOneColumn,
    /// Neighbour-oriented sums need at least two columns.
    NeighbourOneColumn,
    /// The register has at least D + Ω + 2 bits.
    RegisterTooSmall,
    /// The least weight update exponent is at most the greatest.
    ExponentOrder,
    /// The default weight start has no table.
    DefaultWithTable,
    /// The default weight start has no resolution.
    DefaultWithResolution,
    /// Q, the resolution of a weight table, is at most Ω + 3.
    ResolutionOverOmega,
    /// A weight table has one entry for each weight.
    WeightTableLength,
    /// γ₀, the initial count exponent, is below γ*, the rescaling counter size.
    CounterOrder,
    /// K, the accumulator initialization constant, is at most D - 2.
    StartConstant,
    /// The constant's field is 15 where there is an accumulator table.
    ConstantWithTable,
    /// An accumulator table has one entry for each band.
    AccumulatorTableLength,
    /// An entry of an accumulator table is at most D - 2.
    AccumulatorEntry,
    /// The restricted set of code options needs samples of at most four bits.
    RestrictedOverFour,
}

/// Why a call is refused. Its `Display` prints the number, the name and the values, as the program does.
///
/// A bit, place, block, index, band or predictor counts from 0.
#[derive(Clone, Copy, Debug, PartialEq, Eq, Error)]
pub enum Fault {
    /// The bytes don't hold a whole part of the header, or a whole table.
    #[error("1 ShortHeader")]
    ShortHeader,
    /// The first reserved bit, or fill bit of a table, that is one; `bit` counts from the header's first bit.
    #[error("2 Reserved {bit}")]
    Reserved { bit: u64 },
    /// A parameter out of its own range; `value` is the parameter itself, after any offset of its field.
    #[error("3 FieldRange {field:?} {value}")]
    FieldRange { field: Field, value: i64 },
    /// Parameters break a rule.
    #[error("4 Disagree {rule:?}")]
    Disagree { rule: Rule },
    /// A custom weight start whose table isn't in the file.
    #[error("5 TableElsewhere")]
    TableElsewhere,
    /// The bits end too early; `bit` is the number of bits in the file.
    #[error("6 Truncated {bit}")]
    Truncated { bit: u64 },
    /// Sample-adaptive: a needless escape, or a value above 2^D - 1; `place` is the index in encoding order.
    #[error("7 BadCode {place}")]
    BadCode { place: u64 },
    /// Block-adaptive: the block holds a value above 2^D - 1.
    #[error("8 BadOption {block}")]
    BadOption { block: u64 },
    /// A run of zero blocks is longer than the rest of its segment.
    #[error("9 RunPastSegment {block}")]
    RunPastSegment { block: u64 },
    /// A bit after the last code word is one.
    #[error("10 BadFill")]
    BadFill,
    /// A whole output word or more follows the last code word; `bits` is how many bits do.
    #[error("11 TooLong {bits}")]
    TooLong { bits: u64 },
    /// An allocation failed.
    #[error("12 WantOfMemory")]
    WantOfMemory,
    /// A raw sample that isn't of the kind, or a sample that doesn't fit in its raw bytes; `index` counts in the layout's order.
    #[error("13 SampleRange {index}")]
    SampleRange { index: u64 },
    /// There are `had` raw bytes in place of `wanted`.
    #[error("14 RawLength {wanted} {had}")]
    RawLength { wanted: u64, had: u64 },
    /// The first band whose predictor doesn't exist; if there is none, the first that only the deal or only the image has.
    #[error("15 BadDeal {band}")]
    BadDeal { band: u32 },
    /// A thread was not started.
    #[error("16 SpawnRefused")]
    SpawnRefused,
    /// A gate stopped a predictor after it had sent `sent` residuals.
    #[error("17 Stopped {predictor} {sent}")]
    Stopped { predictor: u32, sent: u64 },
    /// The source failed, or gave more than the limit.
    #[error("18 Read")]
    Read,
    /// The sink failed, or took nothing of a piece that isn't empty; `written` bytes went out before.
    #[error("19 Write {written}")]
    Write { written: u64 },
    /// The words are not a lawful command.
    #[error("20 Usage")]
    Usage,
}

impl From<AllocError> for Fault {
    ghost from_gives = { λ _ fault. fault ≡ WantOfMemory };

    fn from(_error: AllocError) -> Fault {
        Fault::WantOfMemory
    }
}

impl<T: Drop> From<AllocFailed<T>> for Fault {
    ghost from_gives = { λ _ fault. fault ≡ WantOfMemory };

    fn from(_error: AllocFailed<T>) -> Fault {
        Fault::WantOfMemory
    }
}
