//! The words that the commands take, as `clap` knows them.
//!
//! The comment before an option is its meaning, from which the tables of `docs/COMMAND.md` are made (`tools/option_rows.py`).

ghost use Rattle.std.specs.Prelude.{◌≡◌, IfOk};
ghost use Rattle.clap.specs.Simple.{app_of};
ghost use Rattle.clap.specs.Walk.{rule_of};
ghost use Rattle.command_words.specs.Options as defined;

use clap::{Arg, ArgAction, Command};
use header_bits::field::ValueRange;
use header_bits::fields;
use std::alloc::{AllocError, Global};

/// How many predictors may be asked for; 0 is coding on one thread.
pub(crate) const PREDICTORS: ValueRange = ValueRange { least: 0, most: 64 };

/// How many slots a lane may have.
pub(crate) const SLOTS: ValueRange = ValueRange {
    least: 1,
    most: 65_536,
};

/// How many bytes a raw sample may have.
pub(crate) const BYTES: ValueRange = ValueRange { least: 1, most: 2 };

/// The options of an image's sizes and samples.
macro_rules! sizes {
    () => {
        [
            // columns [N_x]
            fields::COLUMNS.name,
            // rows [N_y]
            fields::ROWS.name,
            // bands [N_z]
            fields::BANDS.name,
            // bits of a sample, the dynamic range [D]
            fields::DYNAMIC_RANGE.name,
        ]
    };
}

/// The options of `compress` with their defaults: those of the encoding order and the rest of the image part, of the predictor,
/// of the coders, and of threads.
macro_rules! options {
    () => {
        [
            // the order in which samples are coded, whatever the raw layout: band sequential or band interleaved
            (fields::ORDER.name, "bsq"),
            // bands that are interleaved together [sub-frame interleaving depth M]; used with `bi` alone; at most the
            // number of bands
            (fields::DEPTH.name, "1"),
            // a byte of your own, kept in the header [user-defined data]
            (fields::USER.name, "0"),
            // the file is filled to a multiple of so many bytes [output word size B]
            (fields::WORD_SIZE.name, "1"),
            // how many bands before it a band is predicted from [P]
            (fields::PREVIOUS.name, "3"),
            // bits of the register of a prediction [R]; at least `bits` + `omega` + 2
            (fields::REGISTER.name, "64"),
            // fractional bits of a weight [weight component resolution Ω]
            (fields::OMEGA.name, "13"),
            // weights keep one step size for two to the power of this many samples [log2 t_inc]
            ("interval-log", "6"),
            // the first scaling exponent of the weight update plus 6 [v_min + 6]; a greater one is a smaller step
            ("vmin-code", "5"),
            // the last scaling exponent of the weight update plus 6 [v_max + 6]; not below `--vmin-code`
            ("vmax-code", "9"),
            // the entropy coder: sample-adaptive or block-adaptive
            (fields::CODER.name, "sample"),
            // the most zeros of a code word [unary length limit U_max]
            (fields::UMAX.name, "16"),
            // how soon the statistics are halved [rescaling counter size γ*]; above `--gamma-zero`
            (fields::GAMMA_STAR.name, "6"),
            // how much the start weighs [initial count exponent γ₀]
            (fields::GAMMA_ZERO.name, "1"),
            // the code parameter to begin with [accumulator initialization constant K]; at most `bits` − 2
            (fields::CONSTANT.name, "3"),
            // residuals in a block [J]
            (fields::BLOCK_SIZE.name, "8"),
            // blocks after which segments begin anew [reference sample interval r]
            (fields::REFERENCE.name, "64"),
            // predictors that run in threads of their own, beside the one that codes; with 0 all is done on one thread.
            // Band z goes to predictor z mod their number
            ("predictors", "0"),
            // how many residuals the lane of a predictor has room for, before it waits for the coding; used only with
            // predictors, but checked in any case
            ("slots", "1024"),
        ]
    };
}

/// The flags of `compress`.
static FLAGS: [&str; 4] = [
    // samples are signed; else unsigned
    "signed",
    // prediction from central differences alone [reduced mode]; else full mode
    "reduced",
    // local sums from the north alone [column-oriented]; else neighbour-oriented
    "column-sums",
    // shorter identifiers of fewer code options, for samples of at most 4 bits [restricted set of code options]; else
    // all options
    "restricted",
];

/// `compress`, with its options and files.
pub(crate) fn compress_command<'a>(alloc: Global) -> Result<Command<'a>, AllocError>
    ensures { IfOk result (λ c. app_of c ≡ defined.compress_app) }
{
    let command = image_options(alloc, Command::new(alloc, "compress"))?;
    layout_options(alloc, command)
}

/// `expand`, with its options and files.
pub(crate) fn expand_command<'a>(alloc: Global) -> Result<Command<'a>, AllocError>
    ensures { IfOk result (λ c. app_of c ≡ defined.expand_app) }
{
    layout_options(alloc, Command::new(alloc, "expand"))
}

/// The options of the image, the predictor and the coders.
fn image_options<'a>(alloc: Global, command: Command<'a>) -> Result<Command<'a>, AllocError>
    ensures { IfOk result (λ c. app_of c ≡ defined.with_rules (app_of command.entry) defined.image_rules) }
{
    let mut command = command;
    for name in sizes!().iter() {
        command = command.arg(required(alloc, *name))?;
    }
    for (name, default) in options!().iter() {
        command = command.arg(option(alloc, *name, *default))?;
    }
    for name in FLAGS.iter() {
        command = command.arg(flag(alloc, *name))?;
    }
    Ok(command)
}

/// The options of the raw layout, and the two files.
fn layout_options<'a>(alloc: Global, command: Command<'a>) -> Result<Command<'a>, AllocError>
    ensures { IfOk result (λ c. app_of c ≡ defined.with_rules (app_of command.entry) defined.layout_rules) }
{
    command
        // the order of the raw samples
        .arg(option(alloc, "layout", "bsq"))?
        // bytes of a raw sample
        .arg(option(alloc, "bytes", "2"))?
        // the low byte of a raw sample comes first; else high byte first
        .arg(flag(alloc, "little"))?
        .arg(file(alloc, "IN"))?
        .arg(file(alloc, "OUT"))
}

/// A required option with a value.
fn required<'a>(alloc: Global, name: &'a str) -> Arg<'a>
    ensures { rule_of result ≡ defined.required name.entry.now }
{
    Arg::new(alloc, name)
        .long(name)
        .action(ArgAction::Set)
        .required(true)
}

/// An option with a value, and its default.
fn option<'a>(alloc: Global, name: &'a str, default: &'a str) -> Arg<'a>
    ensures { rule_of result ≡ defined.option (name.entry.now, default.entry.now) }
{
    Arg::new(alloc, name)
        .long(name)
        .action(ArgAction::Set)
        .default_value(default)
}

fn flag<'a>(alloc: Global, name: &'a str) -> Arg<'a>
    ensures { rule_of result ≡ defined.flag name.entry.now }
{
    Arg::new(alloc, name).long(name).action(ArgAction::SetTrue)
}

fn file<'a>(alloc: Global, name: &'a str) -> Arg<'a>
    ensures { rule_of result ≡ defined.file name.entry.now }
{
    Arg::new(alloc, name).required(true).action(ArgAction::Set)
}
