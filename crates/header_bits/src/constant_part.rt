//! The accumulator table of a header, where the coder part announces it: four bits for each band.

ghost use Rattle.std.specs.Prelude.{◌≡◌, ◌+◌, ◌*◌, ◌^◌, ◌<◌, ◌≤◌, ◌++◌, true, length, drop, IfOk, IfErr, OnOk};
ghost use Rattle.std.specs.List.{AllByRecursion};
ghost use Rattle.cube_core.specs.declared.fault.Fault.TheVariants.{WantOfMemory, Disagree};
ghost use Rattle.cube_core.specs.declared.fault.Rule.TheVariants as rule;
ghost use Rattle.cube_core.specs.Steps.{refuse_if};
ghost use Rattle.header_bits.specs.Layout.{values};
ghost use Rattle.header_bits.specs.Parts.{Passes};
ghost use Rattle.header_bits.specs.TableParts.{constants, has_constants, number_fields, numbers_text, some_above};
ghost use Rattle.header_bits.specs.Lawful.{IsLawful};
ghost use Rattle.header_bits.specs.Header.{count_by, constant_bits};

use crate::bit_reader::BitReader;
use crate::bit_writer::BitWriter;
use crate::coder_part::CoderPart;
use crate::image_part::ImagePart;
use crate::params::{Coder, CountStart, Params};
use crate::table_layout::{fill_of, number_bits, pass_fill, put_fill, table_bits};
use crate::tables::ConstantTable;
use cube_core::fault::{Fault, Rule};
use std::alloc::Global;

/// The number of bits of a constant.
const WIDTH: u32 = 4;

/// Checks the accumulator table, if there is one, and goes past it without allocating; `at` is the position of
/// its first bit in the file.
///
/// Returns `ShortHeader` if the bytes end inside it, `AccumulatorEntry` if a constant is above D - 2, and
/// `Reserved` for the first bit after the constants that is one.
pub(crate) fn pass(
    at: u64,
    image: &ImagePart,
    coder: &CoderPart,
    reader: &mut BitReader,
) -> Result<(), Fault>
    requires { at < 2 ^ 29 }
    ensures { Passes (constants at image.now coder.now) result reader.old.left reader.new.left }
{
    if !coder.has_table() {
        return Ok(());
    }
    let bands = image.shape.bands() as usize;
    if reader.left() < table_bits(bands, WIDTH) {
        return Err(Fault::ShortHeader);
    }
    pass_constants(bands, image.kind.bits() - 2, reader)?;
    let bits = number_bits(bands, WIDTH);
    pass_fill(at + bits, fill_of(bits), reader)
}

/// Skips `count` constants, which are there, and refuses one above `most`.
fn pass_constants(count: usize, most: u32, reader: &mut BitReader) -> Result<(), Fault>
    requires whole { count * 4 ≤ length reader.old.left }
    ensures test { result ≡ refuse_if (some_above most (values (number_fields count 4) reader.old.left)) (Disagree rule.AccumulatorEntry) }
    ensures left { OnOk result (reader.new.left ≡ drop (count * 4) reader.old.left) }
{
    for _ in 0..count {
        let constant = reader.take(WIDTH).unwrap();
        if u64::from(most) < constant {
            return Err(Fault::Disagree {
                rule: Rule::AccumulatorEntry,
            });
        }
    }
    Ok(())
}

/// Returns the accumulator start of a coder part of the sample-adaptive coder: where there is a table, which
/// was checked, it is read from the reader.
///
/// Returns `WantOfMemory` if the table can't be allocated.
pub(crate) fn read(
    alloc: Global,
    image: &ImagePart,
    constant: u32,
    table: bool,
    reader: &mut BitReader,
) -> Result<CountStart, Fault>
    requires whole { table ≡ true → image.now.shape.bands * 4 ≤ length reader.old.left }
    ensures start { IfOk result (λ s. s ≡ count_by table constant (values (number_fields image.now.shape.bands 4) reader.old.left)) }
    ensures refused { IfErr result (λ e. (e ≡ WantOfMemory) × (table ≡ true)) }
{
    if !table {
        return Ok(CountStart::Constant(constant));
    }
    let bands = image.shape.bands() as usize;
    let constants = read_constants(alloc, bands, reader)?;
    Ok(CountStart::Each(ConstantTable::new(constants)))
}

/// Reads `count` constants, which are there.
fn read_constants(alloc: Global, count: usize, reader: &mut BitReader) -> Result<Vec<u8>, Fault>
    requires whole { count * 4 ≤ length reader.old.left }
    ensures constants { IfOk result (λ v. v.items ≡ values (number_fields count 4) reader.old.left) }
    ensures refused { IfErr result (λ e. e ≡ WantOfMemory) }
{
    let mut constants = Vec::with_capacity(alloc, count)?;
    for _ in 0..count {
        let constant = reader.take(WIDTH).unwrap();
        constants.push(constant as u8)?;
    }
    Ok(constants)
}

/// Returns the number of bits of the accumulator table; 0 where the parameters have none.
pub(crate) fn bits(params: &Params) -> u64
    requires { IsLawful params.now }
    ensures value { result ≡ length (constant_bits params.now.coder) }
    ensures most { result < 2 ^ 27 }
{
    let Coder::Sample { start, .. } = &params.coder else {
        return 0;
    };
    match start {
        CountStart::Constant(_) => 0,
        CountStart::Each(table) => table_bits(table.as_slice().len(), WIDTH),
    }
}

/// Appends the accumulator table of parameters, if they have one. There is room for it.
pub(crate) fn put(params: &Params, writer: &mut BitWriter)
    requires lawful { IsLawful params.now }
    requires room { length (constant_bits params.now.coder) ≤ writer.old.room }
    ensures bits { writer.new.bits ≡ writer.old.bits ++ constant_bits params.now.coder }
    ensures room { writer.old.room ≤ writer.new.room + length (constant_bits params.now.coder) }
    ensures still { writer.new.room ≤ writer.old.room }
{
    let Coder::Sample { start, .. } = &params.coder else {
        return;
    };
    if let CountStart::Each(table) = start {
        let constants = table.as_slice();
        put_constants(constants, writer);
        put_fill(number_bits(constants.len(), WIDTH), writer);
    }
}

/// Appends constants. There is room for them.
fn put_constants(constants: &[u8], writer: &mut BitWriter)
    requires small { AllByRecursion (λ k. k < 2 ^ 4) constants.now }
    requires room { length (numbers_text 4 constants.now) ≤ writer.old.room }
    ensures bits { writer.new.bits ≡ writer.old.bits ++ numbers_text 4 constants.now }
    ensures room { writer.old.room ≤ writer.new.room + length (numbers_text 4 constants.now) }
    ensures still { writer.new.room ≤ writer.old.room }
{
    for constant in constants {
        writer.push(u64::from(*constant), WIDTH).unwrap();
    }
}
