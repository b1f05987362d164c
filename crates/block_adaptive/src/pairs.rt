//! Pairs of values, each read as one number.

ghost use Rattle.std.specs.Prelude.{◌≡◌, ◌≤◌, ◌<◌, ◌^◌, ◌-◌, ◌+◌, ◌*◌, ◌/◌, ◌%◌, ℕ, length, IfOk, IfErr, Err, Ok, List, Bool};
ghost use Rattle.header_bits.specs.Reading.{Reads};
ghost use Rattle.block_adaptive.specs.Reading.{Site, site_of, pair_sum, pair_of, pairs_at};

use crate::data_sets::fundamental;
use cube_core::fault::Fault;
use header_bits::bit_reader::BitReader;

/// Returns the sum of a pair, from the pair's number.
fn sum_of(most: u16, number: u64) -> u64
    requires { number ≤ 2 * most * (most + 1) }
    ensures value { result ≡ pair_sum most number }
    ensures under { result * (result + 1) / 2 ≤ number }
    ensures bound { result ≤ 2 * most }
{
    ((8 * number + 1).isqrt() - 1) / 2
}

/// Returns the pair with a number, which comes from a data set of the block.
#[tactic(auto, unfolding(crate::specs::Reading::pair_of))]
fn pair(block: u64, most: u16, number: u64) -> Result<(u16, u16), Fault>
    requires { number ≤ 2 * most * (most + 1) }
    ensures found { IfOk result (λ p. (count : ℕ) (left : List Bool) → pair_of (record { count = count; block = block }) most number left ≡ Ok (p, left)) }
    ensures fault { IfErr result (λ e. (count : ℕ) (left : List Bool) → pair_of (record { count = count; block = block }) most number left ≡ Err e) }
{
    let sum = sum_of(most, number);
    let second = number - sum * (sum + 1) / 2;
    if second > u64::from(most) {
        return Err(Fault::BadOption { block });
    }
    let first = sum.saturating_sub(second);
    if first > u64::from(most) {
        return Err(Fault::BadOption { block });
    }
    Ok((first as u16, second as u16))
}

/// Reads a pair for each two values.
pub(crate) fn pairs(
    reader: &mut BitReader,
    block: u64,
    most: u16,
    values: &mut [u16],
) -> Result<(), Fault>
    requires { length values.old % 2 ≡ 0 }
    ensures read { Reads (λ _. values.new) result reader.new.left (pairs_at (site_of reader.old block) most (length values.old / 2) reader.old.left) }
    ensures count { reader.new.count ≡ reader.old.count }
{
    for i in 0..values.len() / 2 {
        let number = fundamental(reader, block, 2 * u64::from(most) * (u64::from(most) + 1))?;
        let (first, second) = pair(block, most, number)?;
        values[2 * i] = first;
        values[2 * i + 1] = second;
    }
    Ok(())
}
