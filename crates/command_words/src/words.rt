//! From the words of a command line to its settings.

ghost use Rattle.std.specs.Prelude.{◌≡◌, ◌≢◌, ◌⊎◌, IfOk, IfErr, true, codes, string_bytes, String};
ghost use Rattle.cube_core.specs.declared.fault.Fault.TheVariants.{Usage, WantOfMemory};
ghost use Rattle.cube_core.specs.declared.layout.Layout.{Layout};
ghost use Rattle.cube_core.specs.declared.layout.RawOrder.{RawOrder};
ghost use Rattle.cube_core.specs.Shape.{AreSizes, Sizes};
ghost use Rattle.cube_core.specs.Kind.{IsKind, SampleKind};
ghost use Rattle.cube_core.specs.declared.order.Order.{Order};
ghost use Rattle.cube_core.specs.Layout.{IsLayout};
ghost use Rattle.header_bits.specs.declared.params.Params.{Params};
ghost use Rattle.header_bits.specs.declared.params.Coder.{Coder};
ghost use Rattle.std.specs.declared.alloc.Global.{Global};
ghost use Rattle.clap.specs.Values.{kind_of};
ghost use Rattle.clap.specs.Simple.{app_of, is_simple, matches_of};
ghost use Rattle.clap.specs.Faults.{is_simple_and_free};
ghost use Rattle.clap.specs.declared.error.ErrorKind.TheVariants.{OutOfMemory};
ghost use Rattle.command_words.specs.Settings.{AreInRange, AreParams, IsCoderInRange, IsDepth};
ghost use Rattle.command_words.specs.Reading.{AreFilesOf, AreParamsOf, AreSizesOf, HasWord, IsBlockOf, IsCoderOf, IsKindOf, IsLayoutOf, IsOrderOf};
ghost use Rattle.command_words.specs.Reading.{IsSampleOf, raw_order_word, rows};
ghost use Rattle.command_words.specs.Words.{texts, AreOfOptions, AreTaken, Ask, AskForNone, BeginWith};

use crate::option_values::{exponent, flag, number, number_in, word};
use crate::options::{BYTES, PREDICTORS, SLOTS, compress_command, expand_command};
use crate::settings::{CompressSettings, Settings};
use clap::error::ErrorKind;
use clap::{ArgMatches, Command, Error};
use cube_core::fault::Fault;
use cube_core::kind::Kind;
use cube_core::layout::{Layout, RawOrder};
use cube_core::order::Order;
use cube_core::shape::Shape;
use header_bits::fields::{self, is_block_size};
use header_bits::params::{Coder, CountStart, Params, WeightStart};
use std::alloc::Global;

/// Returns the settings that the words after the program's name ask for. The first word names the command, and
/// no word follows `show` and `inspect`.
///
/// Returns `Usage` if they are no lawful command: an unknown word, a word too many or too few, an option twice
/// or with a value out of its range, the same text for both files, and also if they ask for help or a version.
/// Nothing is printed. Returns `WantOfMemory` if an allocation fails.
pub fn settings<'a>(alloc: Global, words: &'a [&'a str]) -> Result<Settings, Fault>
    ensures ranges { IfOk result AreInRange }
    ensures asked { IfOk result (Ask (texts words.entry.now)) }
    ensures refused { IfErr result (λ e. ((e ≡ Usage) × AskForNone (texts words.entry.now)) ⊎ ((e ≡ WantOfMemory) × AreOfOptions (texts words.entry.now))) }
{
    match *words {
        ["show"] => Ok(Settings::Show),
        ["compress", ..] => compress_settings(alloc, words),
        ["expand", ..] => expand_settings(alloc, words),
        ["inspect"] => Ok(Settings::Inspect),
        _ => Err(Fault::Usage),
    }
}

/// Returns why words were refused.
fn fault_of(error: &Error) -> Fault
    ensures memory { kind_of error.now ≡ OutOfMemory → result ≡ WantOfMemory }
    ensures usage { kind_of error.now ≢ OutOfMemory → result ≡ Usage }
{
    match error.kind() {
        ErrorKind::OutOfMemory => Fault::WantOfMemory,
        _ => Fault::Usage,
    }
}

fn compress_settings<'a>(alloc: Global, words: &'a [&'a str]) -> Result<Settings, Fault>
    requires { BeginWith (codes "compress") (texts words.now) }
    ensures ranges { IfOk result AreInRange }
    ensures asked { IfOk result (Ask (texts words.entry.now)) }
    ensures refused { IfErr result (λ e. ((e ≡ Usage) × AskForNone (texts words.entry.now)) ⊎ (e ≡ WantOfMemory)) }
{
    let matches = matches(compress_command(alloc)?, words)?;
    let params = params(&matches)?;
    let layout = layout(&matches)?;
    let predictors = number_in(&matches, "predictors", PREDICTORS)?;
    let slots = number_in(&matches, "slots", SLOTS)?;
    let (from, to) = files(alloc, &matches)?;
    let settings = CompressSettings {
        params,
        layout,
        predictors,
        slots,
    };
    Ok(Settings::Compress(settings, from, to))
}

fn expand_settings<'a>(alloc: Global, words: &'a [&'a str]) -> Result<Settings, Fault>
    requires { BeginWith (codes "expand") (texts words.now) }
    ensures ranges { IfOk result AreInRange }
    ensures asked { IfOk result (Ask (texts words.entry.now)) }
    ensures refused { IfErr result (λ e. ((e ≡ Usage) × AskForNone (texts words.entry.now)) ⊎ (e ≡ WantOfMemory)) }
{
    let matches = matches(expand_command(alloc)?, words)?;
    let layout = layout(&matches)?;
    let (from, to) = files(alloc, &matches)?;
    Ok(Settings::Expand(layout, from, to))
}

/// Returns what a command finds in words, the first of which is its name.
fn matches<'a>(command: Command<'a>, words: &'a [&'a str]) -> Result<ArgMatches<'a>, Fault>
    ensures found { is_simple (app_of command.entry) ≡ true → IfOk result (λ m. rows m ≡ matches_of (app_of command.entry) (texts words.entry.now)) }
    ensures taken { is_simple_and_free (app_of command.entry) ≡ true → IfOk result (λ m. AreTaken (app_of command.entry) (texts words.entry.now)) }
    ensures refused { IfErr result (λ e. ((e ≡ Usage) × (is_simple_and_free (app_of command.entry) ≡ true
        → ¬ (AreTaken (app_of command.entry) (texts words.entry.now)))) ⊎ (e ≡ WantOfMemory)) }
{
    command
        .try_get_matches_from(words)
        .map_err(|error| fault_of(&error))
}

fn params(matches: &ArgMatches<'_>) -> Result<Params, Fault>
    ensures ranges { IfOk result AreParams }
    ensures read { IfOk result (AreParamsOf (rows matches.now)) }
    ensures refused { IfErr result (λ e. (e ≡ Usage) × ((p : Params) → AreParamsOf (rows matches.now) p → ¬ (AreParams p))) }
{
    Ok(Params {
        shape: shape(matches)?,
        kind: kind(matches)?,
        order: order(matches)?,
        user: number(matches, fields::USER)?,
        word: number(matches, fields::WORD_SIZE)?,
        previous: number(matches, fields::PREVIOUS)?,
        reduced: flag(matches, "reduced"),
        column: flag(matches, "column-sums"),
        register: number(matches, fields::REGISTER)?,
        omega: number(matches, fields::OMEGA)?,
        interval_log: number_in(matches, "interval-log", fields::INTERVAL.range)?,
        vmin: exponent(matches, "vmin-code", fields::VMIN.range)?,
        vmax: exponent(matches, "vmax-code", fields::VMAX.range)?,
        start: WeightStart::Usual,
        coder: coder(matches)?,
    })
}

fn shape(matches: &ArgMatches<'_>) -> Result<Shape, Fault>
    ensures read { IfOk result (AreSizesOf (rows matches.now)) }
    ensures refused { IfErr result (λ e. (e ≡ Usage) × ((s : Sizes) → AreSizesOf (rows matches.now) s → ¬ (AreSizes s))) }
{
    let columns = number(matches, fields::COLUMNS)?;
    let rows = number(matches, fields::ROWS)?;
    let bands = number(matches, fields::BANDS)?;
    Ok(Shape::new(columns, rows, bands).unwrap())
}

fn kind(matches: &ArgMatches<'_>) -> Result<Kind, Fault>
    ensures read { IfOk result (IsKindOf (rows matches.now)) }
    ensures refused { IfErr result (λ e. (e ≡ Usage) × ((k : SampleKind) → IsKindOf (rows matches.now) k → ¬ (IsKind k))) }
{
    let bits = number(matches, fields::DYNAMIC_RANGE)?;
    Ok(Kind::new(flag(matches, "signed"), bits).unwrap())
}

/// Returns the encoding order. The depth is always checked against its range, and used only with `bi`.
fn order(matches: &ArgMatches<'_>) -> Result<Order, Fault>
    ensures depth { IfOk result IsDepth }
    ensures read { IfOk result (IsOrderOf (rows matches.now)) }
    ensures refused { IfErr result (λ e. (e ≡ Usage) × ((o : Order) → IsOrderOf (rows matches.now) o → ¬ (IsDepth o))) }
{
    let depth = number(matches, fields::DEPTH)?;
    match word(matches, "order") {
        Some("bsq") => Ok(Order::Bsq),
        Some("bi") => Ok(Order::Bi(depth)),
        _ => Err(Fault::Usage),
    }
}

/// Returns the coder. The options of both coders are checked, and those of one are used.
fn coder(matches: &ArgMatches<'_>) -> Result<Coder, Fault>
    ensures ranges { IfOk result IsCoderInRange }
    ensures read { IfOk result (IsCoderOf (rows matches.now)) }
    ensures refused { IfErr result (λ e. (e ≡ Usage) × ((c : Coder) → ¬ (IsCoderOf (rows matches.now) c))) }
{
    let sample = sample_coder(matches)?;
    let block = block_coder(matches)?;
    match word(matches, "coder") {
        Some("sample") => Ok(sample),
        Some("block") => Ok(block),
        _ => Err(Fault::Usage),
    }
}

fn sample_coder(matches: &ArgMatches<'_>) -> Result<Coder, Fault>
    ensures ranges { IfOk result IsCoderInRange }
    ensures read { IfOk result (IsSampleOf (rows matches.now)) }
    ensures refused { IfErr result (λ e. (e ≡ Usage) × ((c : Coder) → IsSampleOf (rows matches.now) c → ¬ (IsCoderInRange c))) }
{
    Ok(Coder::Sample {
        umax: number(matches, fields::UMAX)?,
        gamma_star: number(matches, fields::GAMMA_STAR)?,
        gamma_zero: number(matches, fields::GAMMA_ZERO)?,
        start: CountStart::Constant(number(matches, fields::CONSTANT)?),
    })
}

fn block_coder(matches: &ArgMatches<'_>) -> Result<Coder, Fault>
    ensures ranges { IfOk result IsCoderInRange }
    ensures read { IfOk result (IsBlockOf (rows matches.now)) }
    ensures refused { IfErr result (λ e. (e ≡ Usage) × ((c : Coder) → IsBlockOf (rows matches.now) c → ¬ (IsCoderInRange c))) }
{
    let size = number(matches, fields::BLOCK_SIZE)?;
    if !is_block_size(size) {
        return Err(Fault::Usage);
    }
    Ok(Coder::Block {
        size,
        restricted: flag(matches, "restricted"),
        reference: number(matches, fields::REFERENCE)?,
    })
}

fn layout(matches: &ArgMatches<'_>) -> Result<Layout, Fault>
    ensures bytes { IfOk result IsLayout }
    ensures read { IfOk result (IsLayoutOf (rows matches.now)) }
    ensures refused { IfErr result (λ e. (e ≡ Usage) × ((l : Layout) → IsLayoutOf (rows matches.now) l → ¬ (IsLayout l))) }
{
    Ok(Layout {
        order: raw_order(matches)?,
        bytes: number_in(matches, "bytes", BYTES)?,
        little: flag(matches, "little"),
    })
}

fn raw_order(matches: &ArgMatches<'_>) -> Result<RawOrder, Fault>
    ensures read { IfOk result (λ o. HasWord (rows matches.now) (codes "layout") (raw_order_word o)) }
    ensures refused { IfErr result (λ e. (e ≡ Usage) × ((o : RawOrder) → ¬ (HasWord (rows matches.now) (codes "layout") (raw_order_word o)))) }
{
    match word(matches, "layout") {
        Some("bsq") => Ok(RawOrder::Bsq),
        Some("bil") => Ok(RawOrder::Bil),
        Some("bip") => Ok(RawOrder::Bip),
        _ => Err(Fault::Usage),
    }
}

/// Returns the two files, IN and OUT.
fn files(alloc: Global, matches: &ArgMatches<'_>) -> Result<(String, String), Fault>
    ensures apart { IfOk result (λ f. string_bytes f.0 ≢ string_bytes f.1) }
    ensures read { IfOk result (λ f. AreFilesOf (rows matches.now) f.0 f.1) }
    ensures refused { IfErr result (λ e. ((e ≡ Usage) × ((from to : String Global) → AreFilesOf (rows matches.now) from to
        → string_bytes from ≡ string_bytes to)) ⊎ (e ≡ WantOfMemory)) }
{
    let (Some(from), Some(to)) = (word(matches, "IN"), word(matches, "OUT")) else {
        return Err(Fault::Usage);
    };
    if from == to {
        return Err(Fault::Usage);
    }
    let from = String::from_str(alloc, from)?;
    let to = String::from_str(alloc, to)?;
    Ok((from, to))
}
