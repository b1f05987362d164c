//! The predictor part of a header, five bytes.

ghost use Rattle.std.specs.Prelude.{◌≡◌, ◌+◌, ◌<◌, slice_index, slice_index_or, take};
ghost use Rattle.header_bits.specs.Reading.{Reads};
ghost use Rattle.header_bits.specs.declared.layout.Slot.TheVariants as slot;
ghost use Rattle.header_bits.specs.Layout.{AreValues, total, width};
ghost use Rattle.header_bits.specs.Parts.{part_at, reserved_test};
ghost use Rattle.header_bits.specs.ImagePart.{flag};
ghost use Rattle.header_bits.specs.PredictorPart.{predictor, predictor_fields, predictor_tests, number_tests, start_tests, predictor_contents, exponent_of};
ghost use Rattle.header_bits.specs.PredictorPart.{exponent_code, predictor_numbers};
ghost use Rattle.header_bits.specs.Lawful.{IsExponent};
ghost use Rattle.header_bits.specs.Header.{is_custom, resolution_of, predictor_part_of};

use crate::bit_reader::BitReader;
use crate::fields::{
    self, LEAST_EXPONENT, PREDICTOR_FIELDS, check_reserved_field, image_end, predictor_bits,
    predictor_row,
};
use crate::image_part::ImagePart;
use crate::layout::read_values;
use crate::params::{Params, WeightStart};
use crate::refusal::{disagree_if, out_of_range_if, refuse_if};
use cube_core::fault::{Fault, Field, Rule};

/// The contents of the predictor part (CCSDS 123.0-B-1, "Predictor metadata").
#[derive(Clone, Copy)]
pub(crate) struct PredictorPart {
    pub previous: u32,
    pub reduced: bool,
    pub column: bool,
    pub register: u32,
    pub omega: u32,
    pub interval_log: u32,
    pub vmin: i32,
    pub vmax: i32,
    /// Whether the file has a weight table; else the weights are the default ones.
    pub custom: bool,
    /// The number of bits of each number in the table; 0 where there is none.
    pub resolution: u32,
}

impl PredictorPart {
    /// Reads the predictor part that follows an image part.
    pub(crate) fn read(image: &ImagePart, reader: &mut BitReader) -> Result<PredictorPart, Fault>
        ensures { Reads (λ x. x) result reader.new.left (part_at (predictor image.now) reader.old.left) }
    {
        if reader.left() < predictor_bits() {
            return Err(Fault::ShortHeader);
        }
        let mut numbers = [0; PREDICTOR_FIELDS];
        read_values(&predictor_row!(), reader, &mut numbers);
        test(image, &numbers)?;
        Ok(part_of(&numbers))
    }

    /// The predictor part of parameters.
    pub(crate) fn of(params: &Params) -> PredictorPart
        ensures { result ≡ predictor_part_of params.now }
    {
        PredictorPart {
            previous: params.previous,
            reduced: params.reduced,
            column: params.column,
            register: params.register,
            omega: params.omega,
            interval_log: params.interval_log,
            vmin: params.vmin,
            vmax: params.vmax,
            custom: matches!(params.start, WeightStart::Table { .. }),
            resolution: resolution_of(&params.start),
        }
    }

    /// The numbers for the slots.
    pub(crate) fn numbers(&self) -> [u32; PREDICTOR_FIELDS]
        requires least { IsExponent self.now.vmin }
        requires greatest { IsExponent self.now.vmax }
        ensures { result ≡ predictor_numbers self.now }
    {
        let reserved = 0;
        [
            reserved,
            self.previous,
            u32::from(self.reduced),
            reserved,
            u32::from(self.column),
            reserved,
            self.register,
            self.omega,
            self.interval_log,
            exponent_code(self.vmin),
            exponent_code(self.vmax),
            reserved,
            u32::from(self.custom),
            u32::from(self.custom),
            self.resolution,
        ]
    }
}

/// Returns the number of bits of each number in the table; 0 where there is none.
fn resolution_of(start: &WeightStart) -> u32
    ensures { result ≡ resolution_of start.now }
{
    match start {
        WeightStart::Usual => 0,
        WeightStart::Table { q, .. } => *q,
    }
}

/// Returns the code of a weight update scaling exponent.
fn exponent_code(exponent: i32) -> u32
    requires { IsExponent exponent }
    ensures { result ≡ exponent_code exponent }
{
    (exponent - LEAST_EXPONENT) as u32
}

/// Refuses a reserved field that isn't zero, and names its first bit that is one.
fn check_reserved_at(index: usize, numbers: &[u32; PREDICTOR_FIELDS]) -> Result<(), Fault>
    requires { index < 15 }
    ensures { result ≡ reserved_test (96 + total (take index predictor_fields)) (width (slice_index_or predictor_fields index (slot.Reserved 0)))
        (slice_index numbers.now index) }
{
    check_reserved_field(image_end(), &predictor_row!(), index, numbers)
}

/// Tests the numbers of the predictor part, in order.
#[tactic(auto, unfolding(crate::specs::Layout::total))]
fn test(image: &ImagePart, numbers: &[u32; PREDICTOR_FIELDS]) -> Result<(), Fault>
    requires { AreValues predictor_fields numbers.now }
    ensures { result ≡ predictor_tests image.now numbers.now }
{
    let [_, _, mode, _, sums, ..] = *numbers;
    let full = mode == 0;
    let neighbour = sums == 0;
    let one_column = image.shape.columns() == 1;
    check_reserved_at(fields::BEFORE_PREVIOUS.index, numbers)?;
    disagree_if(full & one_column, Rule::FullOneColumn)?;
    check_reserved_at(fields::AFTER_MODE.index, numbers)?;
    disagree_if(neighbour & one_column, Rule::NeighbourOneColumn)?;
    check_reserved_at(fields::AFTER_SUMS.index, numbers)?;
    test_numbers(image, numbers)
}

/// Tests the numbers of the register size and the weight update, in order, and then those of the weight start.
#[tactic(auto, unfolding(crate::specs::Layout::total))]
fn test_numbers(image: &ImagePart, numbers: &[u32; PREDICTOR_FIELDS]) -> Result<(), Fault>
    requires { AreValues predictor_fields numbers.now }
    ensures { result ≡ number_tests image.now numbers.now }
{
    let [_, _, _, _, _, _, register, omega, interval, vmin, vmax, ..] = *numbers;
    let least = image.kind.bits() + omega + 2;
    out_of_range_if(
        register < fields::REGISTER.range.least,
        Field::Register,
        register,
    )?;
    disagree_if(register < least, Rule::RegisterTooSmall)?;
    out_of_range_if(
        interval > fields::INTERVAL.range.most,
        Field::Interval,
        interval,
    )?;
    disagree_if(vmax < vmin, Rule::ExponentOrder)?;
    check_reserved_at(fields::AFTER_VMAX.index, numbers)?;
    test_start(numbers)
}

/// Tests the numbers of the weight start, in order.
fn test_start(numbers: &[u32; PREDICTOR_FIELDS]) -> Result<(), Fault>
    requires { AreValues predictor_fields numbers.now }
    ensures { result ≡ start_tests numbers.now }
{
    let [_, _, _, _, _, _, _, omega, .., start, table, resolution] = *numbers;
    let custom = start == 1;
    let table = table == 1;
    disagree_if(!custom & table, Rule::DefaultWithTable)?;
    refuse_if(custom & !table, Fault::TableElsewhere)?;
    disagree_if(!custom & (resolution > 0), Rule::DefaultWithResolution)?;
    out_of_range_if(
        custom & (resolution < fields::RESOLUTION.range.least),
        Field::Resolution,
        resolution,
    )?;
    disagree_if(omega + 3 < resolution, Rule::ResolutionOverOmega)
}

/// Returns the predictor part that the numbers stand for.
fn part_of(numbers: &[u32; PREDICTOR_FIELDS]) -> PredictorPart
    requires { AreValues predictor_fields numbers.now }
    ensures { result ≡ predictor_contents numbers.now }
{
    let [
        _,
        previous,
        mode,
        _,
        sums,
        _,
        register,
        omega,
        interval_log,
        vmin,
        vmax,
        _,
        start,
        _,
        resolution,
    ] = *numbers;
    PredictorPart {
        previous,
        reduced: mode == 1,
        column: sums == 1,
        register,
        omega,
        interval_log,
        vmin: exponent_of(vmin),
        vmax: exponent_of(vmax),
        custom: start == 1,
        resolution,
    }
}

/// Returns the weight update scaling exponent of a code.
fn exponent_of(code: u32) -> i32
    requires { code < 16 }
    ensures { result ≡ exponent_of code }
{
    code as i32 + LEAST_EXPONENT
}
