//! The weight table of a header, where the predictor part announces it.

ghost use Rattle.std.specs.Prelude.{◌≡◌, ◌+◌, ◌*◌, ◌^◌, ◌<◌, ◌≤◌, ◌≤ℤ◌, ◌++◌, pos, true, length, map, IfOk, IfErr};
ghost use Rattle.std.specs.List.{AllByRecursion};
ghost use Rattle.cube_core.specs.declared.fault.Fault.TheVariants.{WantOfMemory};
ghost use Rattle.header_bits.specs.Layout.{values};
ghost use Rattle.header_bits.specs.Parts.{Passes};
ghost use Rattle.header_bits.specs.TableParts.{weight_count, weights, number_fields, numbers_text, signed_of, signed_code};
ghost use Rattle.header_bits.specs.Lawful.{IsLawful, IsSigned};
ghost use Rattle.header_bits.specs.Header.{start_by, coder_start, weight_bits};

use crate::bit_reader::BitReader;
use crate::bit_writer::BitWriter;
use crate::fields::predictor_end;
use crate::image_part::ImagePart;
use crate::params::{Params, WeightStart};
use crate::predictor_part::PredictorPart;
use crate::table_layout::{fill_of, number_bits, pass_fill, put_fill, table_bits};
use crate::tables::WeightTable;
use cube_core::fault::Fault;
use std::alloc::Global;

/// Returns how many weights the first bands have in all: one for each previous band that exists, and three more
/// in full mode.
#[tactic(auto, unfolding(crate::specs::TableParts::weight_count))]
pub(crate) fn weight_count(previous: u32, reduced: bool, bands: u32) -> usize
    requires previous { previous ≤ 15 }
    requires bands { bands ≤ 65536 }
    ensures count { result ≡ weight_count previous reduced bands }
    ensures most { result ≤ 18 * bands }
{
    let directional = if reduced { 0 } else { 3 };
    let mut count = 0;
    for band in 0..bands {
        count += (band.min(previous) + directional) as usize;
    }
    count
}

/// Returns how many weights the table has that the predictor part announces.
fn count_for(image: &ImagePart, predictor: &PredictorPart) -> usize
    requires { predictor.now.previous ≤ 15 }
    ensures count { result ≡ weight_count predictor.now.previous predictor.now.reduced image.now.shape.bands }
    ensures most { result ≤ 2 ^ 21 }
{
    let bands = image.shape.bands();
    weight_count(predictor.previous, predictor.reduced, bands)
}

/// Returns the position of the coder part: after the weight table, or after the predictor part if there is no table.
pub(crate) fn end(image: &ImagePart, predictor: &PredictorPart) -> u64
    requires previous { predictor.now.previous ≤ 15 }
    requires resolution { predictor.now.resolution ≤ 22 }
    ensures position { result ≡ coder_start image.now predictor.now }
    ensures most { result ≤ 2 ^ 28 }
{
    if predictor.custom {
        predictor_end() + table_bits(count_for(image, predictor), predictor.resolution)
    } else {
        predictor_end()
    }
}

/// Checks the weight table, if there is one, and goes past it without allocating. Returns `ShortHeader` if the
/// bytes end inside it, and `Reserved` for the first bit after its numbers that is one.
pub(crate) fn pass(
    image: &ImagePart,
    predictor: &PredictorPart,
    reader: &mut BitReader,
) -> Result<(), Fault>
    requires previous { predictor.now.previous ≤ 15 }
    requires resolution { predictor.now.resolution ≤ 22 }
    ensures { Passes (weights image.now predictor.now) result reader.old.left reader.new.left }
{
    if !predictor.custom {
        return Ok(());
    }
    let count = count_for(image, predictor);
    if reader.left() < table_bits(count, predictor.resolution) {
        return Err(Fault::ShortHeader);
    }
    let bits = number_bits(count, predictor.resolution);
    reader.skip(bits);
    pass_fill(predictor_end() + bits, fill_of(bits), reader)
}

/// Returns the weight start: where there is a table, which was checked, it is read from the reader.
///
/// Returns `WantOfMemory` if the table can't be allocated.
pub(crate) fn read(
    alloc: Global,
    image: &ImagePart,
    predictor: &PredictorPart,
    reader: &mut BitReader,
) -> Result<WeightStart, Fault>
    requires previous { predictor.now.previous ≤ 15 }
    requires most { predictor.now.resolution ≤ 22 }
    requires least { predictor.now.custom ≡ true → 1 ≤ predictor.now.resolution }
    requires whole { predictor.now.custom ≡ true
        → weight_count predictor.now.previous predictor.now.reduced image.now.shape.bands * predictor.now.resolution ≤ length reader.old.left }
    ensures start { IfOk result (λ s. s ≡ start_by predictor.now.custom predictor.now.resolution (map (signed_of predictor.now.resolution)
        (values (number_fields (weight_count predictor.now.previous predictor.now.reduced image.now.shape.bands) predictor.now.resolution) reader.old.left))) }
    ensures refused { IfErr result (λ e. (e ≡ WantOfMemory) × (predictor.now.custom ≡ true)) }
{
    if !predictor.custom {
        return Ok(WeightStart::Usual);
    }
    let q = predictor.resolution;
    let weights = read_weights(alloc, count_for(image, predictor), q, reader)?;
    let values = WeightTable::new(weights);
    Ok(WeightStart::Table { q, values })
}

/// Reads `count` weights of `bits` bits each, which are there.
fn read_weights(
    alloc: Global,
    count: usize,
    bits: u32,
    reader: &mut BitReader,
) -> Result<Vec<i32>, Fault>
    requires bits { (1 ≤ bits) × (bits ≤ 22) }
    requires whole { count * bits ≤ length reader.old.left }
    ensures weights { IfOk result (λ v. v.items ≡ map (signed_of bits) (values (number_fields count bits) reader.old.left)) }
    ensures refused { IfErr result (λ e. e ≡ WantOfMemory) }
{
    let mut weights = Vec::with_capacity(alloc, count)?;
    for _ in 0..count {
        let code = reader.take(bits).unwrap();
        weights.push(signed_of(bits, code as u32))?;
    }
    Ok(weights)
}

/// Returns two to the power of `bits`.
pub(crate) fn power_of_two(bits: u32) -> i32
    requires { bits ≤ 22 }
    ensures value { result ≡ pos (2 ^ bits) }
    ensures range { (pos 1 ≤ℤ result) × (result ≤ℤ pos (2 ^ 22)) }
{
    1 << bits
}

/// Returns the number that a code in two's complement stands for.
fn signed_of(bits: u32, code: u32) -> i32
    requires bits { (1 ≤ bits) × (bits ≤ 22) }
    requires below { code < 2 ^ bits }
    ensures { result ≡ signed_of bits code }
{
    let number = code as i32;
    if number < power_of_two(bits - 1) {
        number
    } else {
        number - power_of_two(bits)
    }
}

/// Returns the code of a number in two's complement.
fn signed_code(bits: u32, weight: i32) -> u64
    requires bits { (1 ≤ bits) × (bits ≤ 22) }
    requires signed { IsSigned bits weight }
    ensures code { result ≡ signed_code bits weight }
    ensures below { result < 2 ^ bits }
{
    if weight < 0 {
        (weight + power_of_two(bits)) as u64
    } else {
        weight as u64
    }
}

/// Returns the number of bits of the weight table; 0 where the parameters have none.
pub(crate) fn bits(params: &Params) -> u64
    requires { IsLawful params.now }
    ensures value { result ≡ length (weight_bits params.now.start) }
    ensures most { result < 2 ^ 27 }
{
    match &params.start {
        WeightStart::Usual => 0,
        WeightStart::Table { q, values } => table_bits(values.as_slice().len(), *q),
    }
}

/// Appends the weight table of parameters, if they have one. There is room for it.
pub(crate) fn put(params: &Params, writer: &mut BitWriter)
    requires lawful { IsLawful params.now }
    requires room { length (weight_bits params.now.start) ≤ writer.old.room }
    ensures bits { writer.new.bits ≡ writer.old.bits ++ weight_bits params.now.start }
    ensures room { writer.old.room ≤ writer.new.room + length (weight_bits params.now.start) }
    ensures still { writer.new.room ≤ writer.old.room }
{
    if let WeightStart::Table { q, values } = &params.start {
        let weights = values.as_slice();
        put_weights(weights, *q, writer);
        put_fill(number_bits(weights.len(), *q), writer);
    }
}

/// Appends weights of `bits` bits each. There is room for them.
fn put_weights(weights: &[i32], bits: u32, writer: &mut BitWriter)
    requires bits { (1 ≤ bits) × (bits ≤ 22) }
    requires signed { AllByRecursion (IsSigned bits) weights.now }
    requires room { length (numbers_text bits (map (signed_code bits) weights.now)) ≤ writer.old.room }
    ensures bits { writer.new.bits ≡ writer.old.bits ++ numbers_text bits (map (signed_code bits) weights.now) }
    ensures room { writer.old.room ≤ writer.new.room + length (numbers_text bits (map (signed_code bits) weights.now)) }
    ensures still { writer.new.room ≤ writer.old.room }
{
    for weight in weights {
        writer.push(signed_code(bits, *weight), bits).unwrap();
    }
}
