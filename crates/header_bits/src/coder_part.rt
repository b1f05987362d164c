//! The coder part of a header, two bytes.

ghost use Rattle.std.specs.Prelude.{◌≡◌, ◌^◌, ◌<◌};
ghost use Rattle.header_bits.specs.Reading.{Reads};
ghost use Rattle.header_bits.specs.Layout.{AreValues};
ghost use Rattle.header_bits.specs.Parts.{part_at};
ghost use Rattle.header_bits.specs.CoderPart.{coder, sample_fields, sample_tests, sample_contents, block_fields, block_tests, block_contents, size_code};
ghost use Rattle.header_bits.specs.TableParts.{has_constants};
ghost use Rattle.header_bits.specs.Header.{constant_field, is_each, coder_part_of};

use crate::bit_reader::BitReader;
use crate::fields::{
    self, BESIDE_TABLE, BLOCK_FIELDS, BLOCK_SIZES, SAMPLE_FIELDS, block_row, check_reserved_field,
    coder_bits, sample_row,
};
use crate::image_part::ImagePart;
use crate::layout::read_values;
use crate::params::{Coder, CountStart};
use crate::refusal::{disagree_if, out_of_range_if};
use cube_core::fault::{Fault, Field, Rule};

/// The contents of the coder part (CCSDS 123.0-B-1, "Entropy coder metadata").
#[derive(Clone, Copy)]
pub(crate) enum CoderPart {
    Sample {
        umax: u32,
        gamma_star: u32,
        gamma_zero: u32,
        /// K, or 15 where there is a table.
        constant: u32,
        /// Whether the file has an accumulator table.
        table: bool,
    },
    Block {
        size: u32,
        restricted: bool,
        reference: u32,
    },
}

impl CoderPart {
    /// Reads the coder part of an image; `at` is the position of its first bit in the file.
    pub(crate) fn read(
        at: u64,
        image: &ImagePart,
        reader: &mut BitReader,
    ) -> Result<CoderPart, Fault>
        requires { at < 2 ^ 32 }
        ensures { Reads (λ x. x) result reader.new.left (part_at (coder at image.now) reader.old.left) }
    {
        if reader.left() < coder_bits() {
            return Err(Fault::ShortHeader);
        }
        if image.block {
            let mut numbers = [0; BLOCK_FIELDS];
            read_values(&block_row!(), reader, &mut numbers);
            test_block(at, image, &numbers)?;
            Ok(block_part_of(&numbers))
        } else {
            let mut numbers = [0; SAMPLE_FIELDS];
            read_values(&sample_row!(), reader, &mut numbers);
            test_sample(image, &numbers)?;
            Ok(sample_part_of(&numbers))
        }
    }

    /// Returns whether an accumulator table follows.
    pub(crate) fn has_table(&self) -> bool
        ensures { result ≡ has_constants self.now }
    {
        matches!(self, CoderPart::Sample { table: true, .. })
    }

    /// The coder part of a coder.
    pub(crate) fn of(coder: &Coder) -> CoderPart
        ensures { result ≡ coder_part_of coder.now }
    {
        match coder {
            Coder::Sample {
                umax,
                gamma_star,
                gamma_zero,
                start,
            } => CoderPart::Sample {
                umax: *umax,
                gamma_star: *gamma_star,
                gamma_zero: *gamma_zero,
                constant: constant_field(start),
                table: matches!(start, CountStart::Each(_)),
            },
            Coder::Block {
                size,
                restricted,
                reference,
            } => CoderPart::Block {
                size: *size,
                restricted: *restricted,
                reference: *reference,
            },
        }
    }
}

/// Returns the constant for all bands, or 15 where there is a table.
fn constant_field(start: &CountStart) -> u32
    ensures { result ≡ constant_field start.now }
{
    match start {
        CountStart::Constant(constant) => *constant,
        CountStart::Each(_) => BESIDE_TABLE,
    }
}

/// The code of a block size.
pub(crate) fn size_code(size: u32) -> u32
    ensures { result ≡ size_code size }
{
    for code in 0..3 {
        if BLOCK_SIZES[code as usize] == size {
            return code;
        }
    }
    3
}

/// Tests the numbers of the sample-adaptive coder's part, in order.
fn test_sample(image: &ImagePart, numbers: &[u32; SAMPLE_FIELDS]) -> Result<(), Fault>
    requires { AreValues sample_fields numbers.now }
    ensures { result ≡ sample_tests image.now numbers.now }
{
    let [umax, gamma_star, gamma_zero, constant, table] = *numbers;
    let table = table == 1;
    let most = image.kind.bits() - 2;
    out_of_range_if(umax < fields::UMAX.range.least, Field::Umax, umax)?;
    out_of_range_if(
        gamma_star > fields::GAMMA_STAR.range.most,
        Field::GammaStar,
        gamma_star,
    )?;
    disagree_if(gamma_star < gamma_zero + 1, Rule::CounterOrder)?;
    disagree_if(!table & (most < constant), Rule::StartConstant)?;
    disagree_if(table & (constant < BESIDE_TABLE), Rule::ConstantWithTable)
}

/// Returns the coder part that the numbers of the sample-adaptive coder's part stand for.
fn sample_part_of(numbers: &[u32; SAMPLE_FIELDS]) -> CoderPart
    ensures { result ≡ sample_contents numbers.now }
{
    let [umax, gamma_star, gamma_zero, constant, table] = *numbers;
    CoderPart::Sample {
        umax,
        gamma_star,
        gamma_zero,
        constant,
        table: table == 1,
    }
}

/// Tests the numbers of the block-adaptive coder's part, in order.
#[tactic(auto, unfolding(crate::specs::Layout::total))]
fn test_block(at: u64, image: &ImagePart, numbers: &[u32; BLOCK_FIELDS]) -> Result<(), Fault>
    requires { at < 2 ^ 32 }
    ensures { result ≡ block_tests at image.now numbers.now }
{
    let restricted = numbers[fields::RESTRICTED.index] == 1;
    let deep = image.kind.bits() > 4;
    check_reserved_field(at, &block_row!(), fields::BEFORE_BLOCK_SIZE.index, numbers)?;
    disagree_if(restricted & deep, Rule::RestrictedOverFour)
}

/// Returns the coder part that the numbers of the block-adaptive coder's part stand for.
fn block_part_of(numbers: &[u32; BLOCK_FIELDS]) -> CoderPart
    requires { AreValues block_fields numbers.now }
    ensures { result ≡ block_contents numbers.now }
{
    let [_, size, restricted, reference] = *numbers;
    CoderPart::Block {
        size: BLOCK_SIZES[size as usize],
        restricted: restricted == 1,
        reference,
    }
}
