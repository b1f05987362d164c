//! The values of options: a number, a word, or whether a flag was given.

ghost use Rattle.std.specs.Prelude.{◌≡◌, ◌≤◌, ℕ, ℤ, IfOk, IfErr, option_map};
ghost use Rattle.cube_core.specs.declared.fault.Fault.TheVariants.{Usage};
ghost use Rattle.cube_core.specs.Shape.{InRange};
ghost use Rattle.header_bits.specs.Lawful.{IsExponent};
ghost use Rattle.clap.specs.Walk.{first_of};
ghost use Rattle.command_words.specs.Reading.{HasExponent, HasFlag, HasNumber, rows};

use clap::ArgMatches;
use cube_core::fault::Fault;
use header_bits::field::{NumberField, ValueRange};
use header_bits::fields::LEAST_EXPONENT;

/// Returns the number of an option that is named after its field.
pub(crate) fn number(matches: &ArgMatches<'_>, field: NumberField) -> Result<u32, Fault>
    ensures range { IfOk result (InRange field.range.least field.range.most) }
    ensures read { IfOk result (HasNumber (rows matches.now) field.name.now) }
    ensures refused { IfErr result (λ e. (e ≡ Usage) × ((n : ℕ) → HasNumber (rows matches.now) field.name.now n
        → ¬ (InRange field.range.least field.range.most n))) }
{
    number_in(matches, field.name, field.range)
}

/// Returns an option's number, in its range.
pub(crate) fn number_in(
    matches: &ArgMatches<'_>,
    name: &str,
    range: ValueRange,
) -> Result<u32, Fault>
    ensures range { IfOk result (InRange range.least range.most) }
    ensures read { IfOk result (HasNumber (rows matches.now) name.now) }
    ensures refused { IfErr result (λ e. (e ≡ Usage) × ((n : ℕ) → HasNumber (rows matches.now) name.now n → ¬ (InRange range.least range.most n))) }
{
    between(matches, name, range.least, range.most)
}

/// Returns an option's number, from a least to a greatest one.
fn between(matches: &ArgMatches<'_>, name: &str, least: u32, most: u32) -> Result<u32, Fault>
    ensures range { IfOk result (InRange least most) }
    ensures read { IfOk result (HasNumber (rows matches.now) name.now) }
    ensures refused { IfErr result (λ e. (e ≡ Usage) × ((n : ℕ) → HasNumber (rows matches.now) name.now n → ¬ (InRange least most n))) }
{
    match matches.get_one::<u32>(name) {
        Some(number) if least <= number && number <= most => Ok(number),
        _ => Err(Fault::Usage),
    }
}

/// Returns a weight update scaling exponent, which is given as its code, the exponent plus 6.
pub(crate) fn exponent(
    matches: &ArgMatches<'_>,
    name: &str,
    codes: ValueRange,
) -> Result<i32, Fault>
    requires { (codes.least ≡ 0) × (codes.most ≡ 15) }
    ensures range { IfOk result IsExponent }
    ensures read { IfOk result (HasExponent (rows matches.now) name.now) }
    ensures refused { IfErr result (λ e. (e ≡ Usage) × ((v : ℤ) → HasExponent (rows matches.now) name.now v → ¬ (IsExponent v))) }
{
    let code = number_in(matches, name, codes)?;
    Ok(code as i32 + LEAST_EXPONENT)
}

/// Returns whether a flag was given.
pub(crate) fn flag(matches: &ArgMatches<'_>, name: &str) -> bool
    ensures { HasFlag (rows matches.now) name.now result }
{
    matches.get_flag(name)
}

/// Returns an option's word.
pub(crate) fn word<'a>(matches: &ArgMatches<'a>, name: &str) -> Option<&'a str>
    ensures { option_map (λ w. w.now) result ≡ first_of name.now (rows matches.now) }
{
    matches.get_str(name)
}
