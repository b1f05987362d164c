//! Tests that refuse, each with its fault.

ghost use Rattle.std.specs.Prelude.{◌≡◌, ◌≤◌, ◌<◌, ◌^◌, pos};
ghost use Rattle.cube_core.specs.declared.fault.Fault.TheVariants.{Disagree, FieldRange};
ghost use Rattle.cube_core.specs.Steps.{refuse_if};
ghost use Rattle.header_bits.specs.Parts.{reserved_test};

use cube_core::fault::{Fault, Field, Rule};

/// Returns `fault` if a condition holds.
pub(crate) fn refuse_if(condition: bool, fault: Fault) -> Result<(), Fault>
    ensures { result ≡ refuse_if condition fault }
{
    if condition { Err(fault) } else { Ok(()) }
}

/// Returns `Disagree` with a rule if a condition holds.
pub(crate) fn disagree_if(condition: bool, rule: Rule) -> Result<(), Fault>
    ensures { result ≡ refuse_if condition (Disagree rule) }
{
    refuse_if(condition, Fault::Disagree { rule })
}

/// Returns `FieldRange` with a field and its number if a condition holds.
pub(crate) fn out_of_range_if(condition: bool, field: Field, number: u32) -> Result<(), Fault>
    ensures { result ≡ refuse_if condition (FieldRange field (pos number)) }
{
    let value = i64::from(number);
    refuse_if(condition, Fault::FieldRange { field, value })
}

/// Refuses the first of `n` reserved bits that is one; `at` is the position of the first of them.
pub(crate) fn check_reserved(at: u64, n: u32, value: u32) -> Result<(), Fault>
    requires few { n ≤ 16 }
    requires early { at < 2 ^ 33 }
    ensures { result ≡ reserved_test at n value }
{
    for i in 0..n {
        if value >> (n - 1 - i) != 0 {
            return Err(Fault::Reserved {
                bit: at + u64::from(i),
            });
        }
    }
    Ok(())
}
