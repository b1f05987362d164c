//! The fields of a header as lines of text.

ghost use Rattle.std.specs.Prelude.{◌≡◌, ◌++◌, ◌≤◌, ◌^◌, ℕ, List, Some, IfOk, IfErr, OnOk, string_bytes, decimal};
ghost use Rattle.std.specs.Fmt.{signed_decimal};
ghost use Rattle.cube_core.specs.declared.fault.Fault.TheVariants.{WantOfMemory};
ghost use Rattle.header_bits.specs.Lawful.{IsLawful};
ghost use Rattle.header_bits.specs.declared.params.Coder.TheVariants.{Sample, Block};
ghost use Rattle.command_reports.specs.Lines.{line, choice, coder_text, order_text, start_text, constant_text};
ghost use Rattle.command_reports.specs.Lines.{size_lines, sample_lines, prediction_lines, weight_lines, coder_lines};
ghost use Rattle.command_reports.specs.Lines.{header_lines as lines_of};

use cube_core::fault::Fault;
use cube_core::order::Order;
use header_bits::field::{FlagField, NumberField};
use header_bits::fields;
use header_bits::params::{Coder, CountStart, Params, WeightStart};
use std::alloc::Global;
use std::fmt::Display;

/// Returns a line for each field of a header with these parameters and `size` bytes, and a last line with this size. Returns
/// `WantOfMemory` if the text can't be allocated.
pub fn header_lines(alloc: Global, params: &Params, size: usize) -> Result<Vec<u8>, Fault>
    requires { IsLawful params.now }
    ensures lines { IfOk result (λ text. text.items ≡ lines_of params.now size) }
    ensures refused { IfErr result (λ e. e ≡ WantOfMemory) }
{
    let mut text = String::new(alloc);
    put_sizes(alloc, &mut text, params)?;
    put_samples(alloc, &mut text, params)?;
    put_prediction(alloc, &mut text, params)?;
    put_weights(alloc, &mut text, params)?;
    put_coder(alloc, &mut text, &params.coder)?;
    put_line(alloc, &mut text, "header", size)?;
    Ok(text.into_bytes())
}

/// Appends the lines of the image's user number and sizes.
fn put_sizes(alloc: Global, text: &mut String, params: &Params) -> Result<(), Fault>
    ensures lines { OnOk result (string_bytes text.new ≡ string_bytes text.old ++ size_lines params.now) }
    ensures refused { IfErr result (λ e. e ≡ WantOfMemory) }
{
    put_number(alloc, text, fields::USER, params.user)?;
    put_number(alloc, text, fields::COLUMNS, params.shape.columns())?;
    put_number(alloc, text, fields::ROWS, params.shape.rows())?;
    put_number(alloc, text, fields::BANDS, params.shape.bands())
}

/// Appends the lines of what the image's samples are, and how they are ordered and coded.
fn put_samples(alloc: Global, text: &mut String, params: &Params) -> Result<(), Fault>
    ensures lines { OnOk result (string_bytes text.new ≡ string_bytes text.old ++ sample_lines params.now) }
    ensures refused { IfErr result (λ e. e ≡ WantOfMemory) }
{
    put_flag(alloc, text, fields::SIGNED, params.kind.is_signed())?;
    put_number(alloc, text, fields::DYNAMIC_RANGE, params.kind.bits())?;
    put_line(
        alloc,
        text,
        fields::ORDER.name,
        order_text(alloc, params.order)?,
    )?;
    put_number(alloc, text, fields::WORD_SIZE, params.word)?;
    put_line(alloc, text, fields::CODER.name, coder_text(&params.coder))
}

/// Appends the lines of how a sample is predicted.
fn put_prediction(alloc: Global, text: &mut String, params: &Params) -> Result<(), Fault>
    ensures lines { OnOk result (string_bytes text.new ≡ string_bytes text.old ++ prediction_lines params.now) }
    ensures refused { IfErr result (λ e. e ≡ WantOfMemory) }
{
    put_number(alloc, text, fields::PREVIOUS, params.previous)?;
    put_flag(alloc, text, fields::MODE, params.reduced)?;
    put_flag(alloc, text, fields::SUMS, params.column)?;
    put_number(alloc, text, fields::REGISTER, params.register)?;
    put_number(alloc, text, fields::OMEGA, params.omega)
}

/// Appends the lines of how the weights change, and of their start.
fn put_weights(alloc: Global, text: &mut String, params: &Params) -> Result<(), Fault>
    requires { IsLawful params.now }
    ensures lines { OnOk result (string_bytes text.new ≡ string_bytes text.old ++ weight_lines params.now) }
    ensures refused { IfErr result (λ e. e ≡ WantOfMemory) }
{
    put_number(alloc, text, fields::INTERVAL, interval(params.interval_log))?;
    put_line(
        alloc,
        text,
        fields::VMIN.name,
        signed_text(alloc, params.vmin)?,
    )?;
    put_line(
        alloc,
        text,
        fields::VMAX.name,
        signed_text(alloc, params.vmax)?,
    )?;
    put_line(
        alloc,
        text,
        fields::WEIGHT_START.name,
        start_text(alloc, &params.start)?,
    )
}

/// Appends the lines of the coder part.
fn put_coder(alloc: Global, text: &mut String, coder: &Coder) -> Result<(), Fault>
    ensures lines { OnOk result (string_bytes text.new ≡ string_bytes text.old ++ coder_lines coder.now) }
    ensures refused { IfErr result (λ e. e ≡ WantOfMemory) }
{
    match coder {
        Coder::Sample {
            umax,
            gamma_star,
            gamma_zero,
            start,
        } => put_sample_coder(alloc, text, *umax, *gamma_star, *gamma_zero, start),
        Coder::Block {
            size,
            restricted,
            reference,
        } => put_block_coder(alloc, text, *size, *restricted, *reference),
    }
}

/// Appends the lines of the sample-adaptive coder.
fn put_sample_coder(
    alloc: Global,
    text: &mut String,
    umax: u32,
    gamma_star: u32,
    gamma_zero: u32,
    start: &CountStart,
) -> Result<(), Fault>
    ensures lines { OnOk result (string_bytes text.new ≡ string_bytes text.old ++ coder_lines (Sample umax gamma_star gamma_zero start.now)) }
    ensures refused { IfErr result (λ e. e ≡ WantOfMemory) }
{
    put_number(alloc, text, fields::UMAX, umax)?;
    put_number(alloc, text, fields::GAMMA_STAR, gamma_star)?;
    put_number(alloc, text, fields::GAMMA_ZERO, gamma_zero)?;
    put_line(
        alloc,
        text,
        fields::CONSTANT.name,
        constant_text(alloc, start)?,
    )
}

/// Appends the lines of the block-adaptive coder.
fn put_block_coder(
    alloc: Global,
    text: &mut String,
    size: u32,
    restricted: bool,
    reference: u32,
) -> Result<(), Fault>
    ensures lines { OnOk result (string_bytes text.new ≡ string_bytes text.old ++ coder_lines (Block size restricted reference)) }
    ensures refused { IfErr result (λ e. e ≡ WantOfMemory) }
{
    put_number(alloc, text, fields::BLOCK_SIZE, size)?;
    put_flag(alloc, text, fields::RESTRICTED, restricted)?;
    put_number(alloc, text, fields::REFERENCE, reference)
}

/// Appends the line of a number.
fn put_number(
    alloc: Global,
    text: &mut String,
    field: NumberField,
    number: u32,
) -> Result<(), Fault>
    ensures line { OnOk result (string_bytes text.new ≡ string_bytes text.old ++ line field.name.now (decimal number)) }
    ensures refused { IfErr result (λ e. e ≡ WantOfMemory) }
{
    put_line(alloc, text, field.name, number)?;
    Ok(())
}

/// Appends the line of a flag.
fn put_flag(alloc: Global, text: &mut String, field: FlagField, set: bool) -> Result<(), Fault>
    ensures line { OnOk result (string_bytes text.new ≡ string_bytes text.old ++ line field.name.now (choice set field.one.now field.zero.now)) }
    ensures refused { IfErr result (λ e. e ≡ WantOfMemory) }
{
    put_line(alloc, text, field.name, word_of(field, set))?;
    Ok(())
}

/// Returns the name of a flag's bit.
fn word_of(field: FlagField, set: bool) -> &'static str
    ensures { result.now ≡ choice set field.one.now field.zero.now }
{
    if set { field.one } else { field.zero }
}

fn coder_text(coder: &Coder) -> &'static str
    ensures { result.now ≡ coder_text coder.now }
{
    match coder {
        Coder::Sample { .. } => fields::CODER.zero,
        Coder::Block { .. } => fields::CODER.one,
    }
}

/// Returns an order's name, and its depth where it is interleaved.
fn order_text(alloc: Global, order: Order) -> Result<String, Fault>
    ensures text { IfOk result (λ text. string_bytes text ≡ order_text order) }
    ensures refused { IfErr result (λ e. e ≡ WantOfMemory) }
{
    let FlagField { zero, one, .. } = fields::ORDER;
    match order {
        Order::Bsq => Ok(String::from_str(alloc, one)?),
        Order::Bi(depth) => Ok(format!(in alloc; "{zero} {depth}")?),
    }
}

/// Returns the weight update scaling exponent change interval, from its logarithm.
fn interval(log: u32) -> u32
    requires { log ≤ 11 }
    ensures { result ≡ 2 ^ log }
{
    1 << log
}

fn signed_text(alloc: Global, number: i32) -> Result<String, Fault>
    ensures text { IfOk result (λ text. string_bytes text ≡ signed_decimal number) }
    ensures refused { IfErr result (λ e. e ≡ WantOfMemory) }
{
    Ok(format!(in alloc; "{number}")?)
}

/// Returns the name of the weight start, and a table's resolution.
fn start_text(alloc: Global, start: &WeightStart) -> Result<String, Fault>
    ensures text { IfOk result (λ text. string_bytes text ≡ start_text start.now) }
    ensures refused { IfErr result (λ e. e ≡ WantOfMemory) }
{
    let FlagField { zero, one, .. } = fields::WEIGHT_START;
    match start {
        WeightStart::Usual => Ok(String::from_str(alloc, zero)?),
        WeightStart::Table { q, .. } => Ok(format!(in alloc; "{one} {q}")?),
    }
}

/// Returns the accumulator's constant, or that there is a table.
fn constant_text(alloc: Global, start: &CountStart) -> Result<String, Fault>
    ensures text { IfOk result (λ text. string_bytes text ≡ constant_text start.now) }
    ensures refused { IfErr result (λ e. e ≡ WantOfMemory) }
{
    match start {
        CountStart::Constant(k) => Ok(format!(in alloc; "{k}")?),
        CountStart::Each(_) => Ok(String::from_str(alloc, fields::ACCUMULATOR_TABLE.one)?),
    }
}

/// Appends a line: a name, a space, a value and a newline.
#[tactic(auto, unfolding(crate::specs::Lines::line))]
fn put_line<T: Display + Drop>(
    alloc: Global,
    text: &mut String,
    name: &str,
    value: T,
) -> Result<(), Fault>
    ensures line { OnOk result ((shown : List ℕ) → T.output value ≡ Some shown → string_bytes text.new ≡ string_bytes text.old ++ line name.now shown) }
    ensures refused { IfErr result (λ e. e ≡ WantOfMemory) }
{
    let line = format!(in alloc; "{name} {value}\n")?;
    text.push_str(line.as_str())?;
    Ok(())
}
