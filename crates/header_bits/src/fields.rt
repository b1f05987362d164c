//! The fields of a header, each described once (CCSDS 123.0-B-1, "Header").
//!
//! The description of a field names the field of its part that comes before it. A part's row has the slots of
//! its fields in that order, so that the position of reserved bits is counted from the row.

ghost use Rattle.std.specs.Prelude.{◌≡◌, ◌+◌, ◌^◌, ◌<◌, ◌≤◌, ◌↔◌, true, length, slice_index, slice_index_or, take};
ghost use Rattle.header_bits.specs.declared.layout.Slot.TheVariants as slot;
ghost use Rattle.header_bits.specs.Layout.{AreNarrow, total, width};
ghost use Rattle.header_bits.specs.Parts.{reserved_test};
ghost use Rattle.header_bits.specs.Lawful.{IsBlockSize};

use crate::field::{
    FlagField, NumberField, ReservedField, ValueRange, counted, flag, index, modulo, number, plain,
    reserved, row,
};
use crate::layout::{Slot, total_bits};
use crate::refusal::check_reserved;
use cube_core::fault::Fault;

// ---- the image part

/// User-defined data.
pub const USER: NumberField = plain!(first, 8, "user", 0, 255);

pub const COLUMNS: NumberField = modulo!(USER, 16, "columns", 1);

pub const ROWS: NumberField = modulo!(COLUMNS, 16, "rows", 1);

pub const BANDS: NumberField = modulo!(ROWS, 16, "bands", 1);

pub const SIGNED: FlagField = flag!(BANDS, "sample", "unsigned", "signed");

pub(crate) const AFTER_SIGNED: ReservedField = reserved!(SIGNED, 2);

/// D, the bits of a sample.
pub const DYNAMIC_RANGE: NumberField = modulo!(AFTER_SIGNED, 4, "bits", 2);

pub const ORDER: FlagField = flag!(DYNAMIC_RANGE, "order", "bi", "bsq");

/// The depth of interleaving; it is also at most the number of bands.
pub const DEPTH: NumberField = modulo!(ORDER, 16, "depth", 1);

pub(crate) const AFTER_DEPTH: ReservedField = reserved!(DEPTH, 2);

/// B, the bytes of an output word.
pub const WORD_SIZE: NumberField = modulo!(AFTER_DEPTH, 3, "word", 1);

pub const CODER: FlagField = flag!(WORD_SIZE, "coder", "sample", "block");

pub(crate) const AFTER_CODER: ReservedField = reserved!(CODER, 10);

pub(crate) const IMAGE_FIELDS: usize = AFTER_CODER.index + 1;

/// The slots of the image part.
macro_rules! image_row {
    () => {
        $crate::field::row![
            USER,
            COLUMNS,
            ROWS,
            BANDS,
            SIGNED,
            AFTER_SIGNED,
            DYNAMIC_RANGE,
            ORDER,
            DEPTH,
            AFTER_DEPTH,
            WORD_SIZE,
            CODER,
            AFTER_CODER
        ]
    };
}

pub(crate) use image_row;

// ---- the predictor part

pub(crate) const BEFORE_PREVIOUS: ReservedField = reserved!(first, 2);

/// P, the number of previous bands used for prediction.
pub const PREVIOUS: NumberField = plain!(BEFORE_PREVIOUS, 4, "previous", 0, 15);

pub const MODE: FlagField = flag!(PREVIOUS, "mode", "full", "reduced");

pub(crate) const AFTER_MODE: ReservedField = reserved!(MODE, 1);

/// Local sums.
pub const SUMS: FlagField = flag!(AFTER_MODE, "sums", "neighbour", "column");

pub(crate) const AFTER_SUMS: ReservedField = reserved!(SUMS, 1);

/// R, the register size.
pub const REGISTER: NumberField = modulo!(AFTER_SUMS, 6, "register", 32);

/// Ω, the weight component resolution.
pub const OMEGA: NumberField = counted!(REGISTER, 4, "omega", 4, 19);

/// The logarithm of the weight update scaling exponent change interval.
pub const INTERVAL: NumberField = counted!(OMEGA, 4, "interval", 4, 11);

/// The least weight update scaling exponent, as its code.
pub const VMIN: NumberField = plain!(INTERVAL, 4, "vmin", 0, 15);

/// The greatest weight update scaling exponent, as its code.
pub const VMAX: NumberField = plain!(VMIN, 4, "vmax", 0, 15);

pub(crate) const AFTER_VMAX: ReservedField = reserved!(VMAX, 1);

pub const WEIGHT_START: FlagField = flag!(AFTER_VMAX, "start", "usual", "table");

/// Whether the file has the weight table.
pub(crate) const WEIGHT_TABLE: FlagField = flag!(WEIGHT_START, "table", "elsewhere", "here");

/// The resolution of a weight table; it is also at most Ω + 3.
pub const RESOLUTION: NumberField = plain!(WEIGHT_TABLE, 5, "resolution", 3, OMEGA.range.most + 3);

pub(crate) const PREDICTOR_FIELDS: usize = RESOLUTION.index + 1;

/// The slots of the predictor part.
macro_rules! predictor_row {
    () => {
        $crate::field::row![
            BEFORE_PREVIOUS,
            PREVIOUS,
            MODE,
            AFTER_MODE,
            SUMS,
            AFTER_SUMS,
            REGISTER,
            OMEGA,
            INTERVAL,
            VMIN,
            VMAX,
            AFTER_VMAX,
            WEIGHT_START,
            WEIGHT_TABLE,
            RESOLUTION
        ]
    };
}

pub(crate) use predictor_row;

/// The least value of a weight update scaling exponent, whose code is 0.
pub const LEAST_EXPONENT: i32 = -6;

/// The greatest value of a weight update scaling exponent: 9.
pub const GREATEST_EXPONENT: i32 = LEAST_EXPONENT + VMAX.range.most as i32;

// ---- the sample-adaptive coder's part

/// The unary length limit.
pub const UMAX: NumberField = modulo!(first, 5, "umax", 8);

/// γ*, the rescaling counter size.
pub const GAMMA_STAR: NumberField = counted!(UMAX, 3, "gamma-star", 4, 9);

/// γ₀, the initial count exponent.
pub const GAMMA_ZERO: NumberField = modulo!(GAMMA_STAR, 3, "gamma-zero", 1);

/// K, the accumulator initialization constant; it is also at most D - 2.
pub const CONSTANT: NumberField = plain!(GAMMA_ZERO, 4, "k", 0, DYNAMIC_RANGE.range.most - 2);

/// Whether the file has an accumulator table.
pub const ACCUMULATOR_TABLE: FlagField = flag!(CONSTANT, "constants", "one", "table");

/// The value of the constant's field where there is an accumulator table.
pub(crate) const BESIDE_TABLE: u32 = CONSTANT.range.most + 1;

pub(crate) const SAMPLE_FIELDS: usize = ACCUMULATOR_TABLE.index + 1;

/// The slots of the sample-adaptive coder's part.
macro_rules! sample_row {
    () => {
        $crate::field::row![UMAX, GAMMA_STAR, GAMMA_ZERO, CONSTANT, ACCUMULATOR_TABLE]
    };
}

pub(crate) use sample_row;

// ---- the block-adaptive coder's part

pub(crate) const BEFORE_BLOCK_SIZE: ReservedField = reserved!(first, 1);

/// J, the samples in a block, written as a code of 0 to 3; the range has the least and the greatest, and `BLOCK_SIZES` the lawful ones.
pub const BLOCK_SIZE: NumberField = plain!(
    BEFORE_BLOCK_SIZE,
    2,
    "block",
    BLOCK_SIZES[0],
    BLOCK_SIZES[3]
);

/// The sizes that blocks may have, in the order of their codes.
pub const BLOCK_SIZES: [u32; 4] = [8, 16, 32, 64];

pub const RESTRICTED: FlagField = flag!(BLOCK_SIZE, "restricted", "no", "yes");

/// r, the reference sample interval.
pub const REFERENCE: NumberField = modulo!(RESTRICTED, 12, "reference", 1);

pub(crate) const BLOCK_FIELDS: usize = REFERENCE.index + 1;

/// The slots of the block-adaptive coder's part.
macro_rules! block_row {
    () => {
        $crate::field::row![BEFORE_BLOCK_SIZE, BLOCK_SIZE, RESTRICTED, REFERENCE]
    };
}

pub(crate) use block_row;

/// Returns whether `size` is a lawful number of samples in a block.
pub fn is_block_size(size: u32) -> bool
    ensures { (result ≡ true) ↔ IsBlockSize size }
{
    BLOCK_SIZES.contains(&size)
}

/// Returns the position of the first bit after the image part.
#[tactic(auto, unfolding(crate::specs::Layout::total))]
pub(crate) fn image_end() -> u64
    ensures { result ≡ 96 }
{
    total_bits(&image_row!())
}

/// Returns the number of bits of the predictor part.
#[tactic(auto, unfolding(crate::specs::Layout::total))]
pub(crate) fn predictor_bits() -> u64
    ensures { result ≡ 40 }
{
    total_bits(&predictor_row!())
}

/// Returns the position of the first bit after the predictor part.
pub(crate) fn predictor_end() -> u64
    ensures { result ≡ 136 }
{
    image_end() + predictor_bits()
}

/// Returns the number of bits of the coder part, of either coder.
#[tactic(auto, unfolding(crate::specs::Layout::total))]
pub(crate) fn coder_bits() -> u64
    ensures { result ≡ 16 }
{
    total_bits(&sample_row!())
}

/// Refuses a reserved field that isn't zero, and names its first bit that is one. Its part begins at position `first`.
pub(crate) fn check_reserved_field(
    first: u64,
    slots: &[Slot],
    index: usize,
    numbers: &[u32],
) -> Result<(), Fault>
    requires narrow { AreNarrow slots.now }
    requires few { length slots.now ≤ 64 }
    requires there { index < length slots.now }
    requires same { length numbers.now ≡ length slots.now }
    requires early { first < 2 ^ 32 }
    ensures { result ≡ reserved_test (first + total (take index slots.now)) (width (slice_index_or slots.now index (slot.Reserved 0)))
        (slice_index numbers.now index) }
{
    let position = first + total_bits(&slots[..index]);
    check_reserved(position, slots[index].width(), numbers[index])
}
