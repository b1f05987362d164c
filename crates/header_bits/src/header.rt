//! The whole header, written and read.

ghost use Rattle.std.specs.Prelude.{◌≡◌, ◌⊎◌, ◌||◌, ◌+◌, ◌*◌, ◌%◌, ◌^◌, ◌<◌, ◌≤◌, ◌++◌, true, length, take, min, max, vec_capacity, IsOk, IfOk, IfErr, OnOk, OnErr};
ghost use Rattle.cube_core.specs.declared.fault.Fault.TheVariants.{WantOfMemory};
ghost use Rattle.header_bits.specs.Bits.{bits_of_bytes};
ghost use Rattle.header_bits.specs.Reading.{Reads};
ghost use Rattle.header_bits.specs.Layout.{AreValues, spelled, values};
ghost use Rattle.header_bits.specs.CoderPart.{coder_fields, coder_numbers};
ghost use Rattle.header_bits.specs.TableParts.{has_constants, number_fields};
ghost use Rattle.header_bits.specs.Lawful.{IsLawful};
ghost use Rattle.header_bits.specs.Header.{header_of, header_contents, AreThere, coder_by_part, params_of, parts_at};
ghost use Rattle.header_bits.specs.Header.{SpellsHeader, ReadsHeader, TakesHeader, BeginsNoHeader};

use crate::bit_reader::BitReader;
use crate::bit_writer::BitWriter;
use crate::coder_part::{self, CoderPart};
use crate::fields::{block_row, coder_bits, image_row, predictor_end, predictor_row, sample_row};
use crate::image_part::ImagePart;
use crate::layout::write_values;
use crate::params::{Coder, Params};
use crate::predictor_part::PredictorPart;
use crate::{constant_part, weight_part};
use cube_core::fault::Fault;
use std::alloc::Global;

/// Returns the header of lawful parameters, in whole bytes (CCSDS 123.0-B-1, "Header").
///
/// Under band sequential order the depth is written as zeros. It allocates at most twice the header's length. Returns
/// `WantOfMemory` if the bytes can't be allocated.
pub fn write_header(alloc: Global, params: &Params) -> Result<Vec<u8>, Fault>
    requires { IsLawful params.now }
    ensures header { IfOk result (λ bytes. bits_of_bytes bytes.items ≡ header_of params.now) }
    ensures bounded { IfOk result (λ bytes. min (8 * vec_capacity bytes) (2 ^ 63) ≤ 2 * length (header_of params.now) + 7) }
    ensures refused { IfErr result (λ e. e ≡ WantOfMemory) }
{
    let mut writer = BitWriter::new(alloc);
    put_header(params, &mut writer)?;
    Ok(writer.into_bytes())
}

/// Appends the header of lawful parameters to the bits of a writer: 152 bits and its tables, each in its place, in whole bytes.
///
/// It succeeds within the writer's room, and allocates for the header's length or for as many bits again as are written, and no
/// more. Returns `WantOfMemory` if an allocation fails, or if there would be more than 2^63 bits;
/// the bits are then as before, and the room is no smaller.
pub fn put_header(params: &Params, writer: &mut BitWriter) -> Result<(), Fault>
    requires { IsLawful params.now }
    ensures appended { OnOk result (writer.new.bits ≡ writer.old.bits ++ header_of params.now) }
    ensures whole { length (header_of params.now) % 8 ≡ 0 }
    ensures same { OnErr result (writer.new.bits ≡ writer.old.bits) }
    ensures kept { OnErr result (writer.old.room ≤ writer.new.room) }
    ensures within { length (header_of params.now) ≤ writer.old.room → IsOk result }
    ensures bounded { writer.new.room ≤ max writer.old.room (max (length (header_of params.now) + 7) (length writer.old.bits)) }
    ensures room { OnOk result (writer.old.room ≤ writer.new.room + length (header_of params.now)) }
    ensures refused { IfErr result (λ e. e ≡ WantOfMemory) }
{
    writer.reserve(header_bits(params))?;
    let image = ImagePart::of(params).numbers();
    write_values(&image_row!(), &image, writer).unwrap();
    let predictor = PredictorPart::of(params).numbers();
    write_values(&predictor_row!(), &predictor, writer).unwrap();
    weight_part::put(params, writer);
    put_coder(CoderPart::of(&params.coder), writer).unwrap();
    constant_part::put(params, writer);
    Ok(())
}

/// Returns the number of bits of the header of lawful parameters.
fn header_bits(params: &Params) -> u64
    requires { IsLawful params.now }
    ensures { result ≡ length (header_of params.now) }
{
    let parts = predictor_end() + coder_bits();
    parts + weight_part::bits(params) + constant_part::bits(params)
}

/// Reads a header from the front of at most 2^60 bytes, and returns its parameters and its length in bytes.
///
/// Returns the first refusal, part after part, where a table is a part of its own: `ShortHeader` if the bytes don't hold the whole
/// part; else, in the order of its fields, `Reserved` with the bit's position, `FieldRange`, `Disagree` or `TableElsewhere`
/// (CCSDS 123.0-B-1, "Header"). Only where there is none of these does it allocate, for the tables; it returns `WantOfMemory` if
/// they can't be allocated.
pub fn read_header(alloc: Global, bytes: &[u8]) -> Result<(Params, usize), Fault>
    requires { length bytes.now ≤ 2 ^ 60 }
    ensures reads { ReadsHeader (bits_of_bytes bytes.now) result }
    ensures lawful { IfOk result (λ x. IsLawful x.0) }
    ensures spelt { IfOk result (λ x. SpellsHeader x.0 (take (8 * x.1) (bits_of_bytes bytes.now))) }
    ensures within { IfOk result (λ x. x.1 ≤ length bytes.now) }
    ensures none { IfErr result (λ e. (e ≡ WantOfMemory) ⊎ BeginsNoHeader (bits_of_bytes bytes.now)) }
{
    let mut reader = BitReader::new(bytes);
    let params = take_header(alloc, &mut reader)?;
    let rest = (reader.left() / 8) as usize;
    Ok((params, bytes.len() - rest))
}

/// Takes a header off the bits that a reader has left, and returns its parameters.
///
/// The refusals are those of `read_header`, with positions counted from where the reader is. After a refusal the reader
/// keeps its position.
pub fn take_header(alloc: Global, reader: &mut BitReader) -> Result<Params, Fault>
    ensures takes { TakesHeader reader.old.left result reader.new.left }
    ensures lawful { IfOk result (λ p. IsLawful p) }
    ensures none { IfErr result (λ e. (e ≡ WantOfMemory) ⊎ BeginsNoHeader reader.old.left) }
    ensures count { reader.new.count ≡ reader.old.count }
    ensures same { OnErr result (reader.new ≡ reader.old) }
{
    let mut ahead = reader.fork();
    let parts = look_through(&mut ahead)?;
    let params = read_params(alloc, parts)?;
    reader.skip(reader.left() - ahead.left());
    Ok(params)
}

/// The parts of a header, with readers at its tables: a reader is at the position of a table whether there is
/// one or not.
struct Parts<'a> {
    image: ImagePart,
    predictor: PredictorPart,
    weights: BitReader<'a>,
    coder: CoderPart,
    constants: BitReader<'a>,
}

/// Checks a whole header without allocating. Returns the first refusal, part after part.
fn look_through<'a>(reader: &mut BitReader<'a>) -> Result<Parts<'a>, Fault>
    ensures reads { Reads (λ x. header_contents x.image x.predictor x.weights.left x.coder x.constants.left) result reader.new.left (parts_at reader.old.left) }
    ensures there { IfOk result (λ x. AreThere x.image x.predictor x.weights.left x.coder x.constants.left) }
{
    let image = ImagePart::read(reader)?;
    let predictor = PredictorPart::read(&image, reader)?;
    let weights = reader.fork();
    weight_part::pass(&image, &predictor, reader)?;
    let position = weight_part::end(&image, &predictor);
    let coder = CoderPart::read(position, &image, reader)?;
    let constants = reader.fork();
    constant_part::pass(position + coder_bits(), &image, &coder, reader)?;
    Ok(Parts {
        image,
        predictor,
        weights,
        coder,
        constants,
    })
}

/// Returns the parameters of a header that was checked.
///
/// Returns `WantOfMemory` if a table can't be allocated.
fn read_params(alloc: Global, parts: Parts) -> Result<Params, Fault>
    requires { AreThere parts.image parts.predictor parts.weights.left parts.coder parts.constants.left }
    ensures params { IfOk result (λ p. p ≡ params_of (header_contents parts.entry.image parts.entry.predictor parts.entry.weights.left parts.entry.coder
        parts.entry.constants.left)) }
    ensures refused { IfErr result (λ e. (e ≡ WantOfMemory) × ((parts.entry.predictor.custom || has_constants parts.entry.coder) ≡ true)) }
{
    let Parts {
        image,
        predictor,
        mut weights,
        coder,
        mut constants,
    } = parts;
    let start = weight_part::read(alloc, &image, &predictor, &mut weights)?;
    let coder = read_coder(alloc, &image, coder, &mut constants)?;
    Ok(Params {
        shape: image.shape,
        kind: image.kind,
        order: image.order,
        user: image.user,
        word: image.word,
        previous: predictor.previous,
        reduced: predictor.reduced,
        column: predictor.column,
        register: predictor.register,
        omega: predictor.omega,
        interval_log: predictor.interval_log,
        vmin: predictor.vmin,
        vmax: predictor.vmax,
        start,
        coder,
    })
}

/// Returns the coder of a coder part, with the accumulator table at the reader's position.
fn read_coder(
    alloc: Global,
    image: &ImagePart,
    part: CoderPart,
    constants: &mut BitReader,
) -> Result<Coder, Fault>
    requires { has_constants part ≡ true → image.now.shape.bands * 4 ≤ length constants.old.left }
    ensures coder { IfOk result (λ c. c ≡ coder_by_part part (values (number_fields image.now.shape.bands 4) constants.old.left)) }
    ensures refused { IfErr result (λ e. (e ≡ WantOfMemory) × (has_constants part ≡ true)) }
{
    match part {
        CoderPart::Sample {
            umax,
            gamma_star,
            gamma_zero,
            constant,
            table,
        } => Ok(Coder::Sample {
            umax,
            gamma_star,
            gamma_zero,
            start: constant_part::read(alloc, image, constant, table, constants)?,
        }),
        CoderPart::Block {
            size,
            restricted,
            reference,
        } => Ok(Coder::Block {
            size,
            restricted,
            reference,
        }),
    }
}

/// Appends the coder part.
fn put_coder(part: CoderPart, writer: &mut BitWriter) -> Result<(), Fault>
    requires { AreValues (coder_fields part) (coder_numbers part) }
    ensures bits { OnOk result (writer.new.bits ≡ writer.old.bits ++ spelled (coder_fields part) (coder_numbers part)) }
    ensures within { 16 ≤ writer.old.room → IsOk result }
    ensures room { OnOk result (writer.old.room ≤ writer.new.room + 16) }
    ensures still { OnOk result (16 ≤ writer.old.room → writer.new.room ≤ writer.old.room) }
    ensures refused { IfErr result (λ e. e ≡ WantOfMemory) }
{
    match part {
        CoderPart::Sample {
            umax,
            gamma_star,
            gamma_zero,
            constant,
            table,
        } => {
            let numbers = [umax, gamma_star, gamma_zero, constant, u32::from(table)];
            write_values(&sample_row!(), &numbers, writer)
        }
        CoderPart::Block {
            size,
            restricted,
            reference,
        } => {
            let numbers = [
                0,
                coder_part::size_code(size),
                u32::from(restricted),
                reference,
            ];
            write_values(&block_row!(), &numbers, writer)
        }
    }
}
