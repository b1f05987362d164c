//! The low bits of a block under a split-sample option, which come after all its fundamental sequences.

ghost use Rattle.std.specs.Prelude.{◌≡◌, ◌≤◌, ◌+◌, ◌*◌, ◌%◌, ◌^◌, ℕ, [], ◌∷◌, length};
ghost use Rattle.std.specs.List.{AllByRecursion};
ghost use Rattle.header_bits.specs.Reading.{Reads};
ghost use Rattle.block_adaptive.specs.Ahead.{joined_four};
ghost use Rattle.block_adaptive.specs.Reading.{site_of, low_at, lows_at};

use cube_core::fault::Fault;
use header_bits::bit_reader::BitReader;

/// Reads the low bits of each value, whose quotient is known.
#[tactic(auto, using(crate::proofs::Takes::lows_steps))]
pub(crate) fn lows(
    reader: &mut BitReader,
    block: u64,
    k: u32,
    most: u16,
    values: &mut [u16],
) -> Result<(), Fault>
    requires { k ≤ 15 }
    ensures read { Reads (λ _. values.new) result reader.new.left (lows_at (site_of reader.old block) k most values.old reader.old.left) }
    ensures count { reader.new.count ≡ reader.old.count }
{
    for value in values.iter_mut() {
        *value = whole(reader, block, k, most, *value)?;
    }
    Ok(())
}

/// Reads the low bits of a quotient, which come next, and returns the value.
#[inline(always)]
#[tactic(auto, unfolding(crate::specs::Reading::low_at))]
fn whole(reader: &mut BitReader, block: u64, k: u32, most: u16, quotient: u16) -> Result<u16, Fault>
    requires { k ≤ 15 }
    ensures read { Reads (λ x. x) result reader.new.left (low_at (site_of reader.old block) k most quotient reader.old.left) }
    ensures count { reader.new.count ≡ reader.old.count }
{
    let low = reader.take(k)? as u32;
    let value = (u32::from(quotient) << k) + low;
    if value > u32::from(most) {
        return Err(Fault::BadOption { block });
    }
    Ok(value as u16)
}

/// Reads the low bits of each value, whose quotient is known and allows any low bits.
#[inline(always)]
pub(crate) fn lows_within(
    reader: &mut BitReader,
    block: u64,
    k: u32,
    most: u16,
    values: &mut [u16],
) -> Result<(), Fault>
    requires depth { k ≤ 14 }
    requires fours { length values.old % 4 ≡ 0 }
    requires within { AllByRecursion (λ q. (q + 1) * 2 ^ k ≤ most + 1) values.old }
    ensures read { Reads (λ _. values.new) result reader.new.left (lows_at (site_of reader.old block) k most values.old reader.old.left) }
    ensures count { reader.new.count ≡ reader.old.count }
{
    let mut first = 0;
    while first < values.len() {
        four_lows(reader, block, k, most, &mut values[first..first + 4])?;
        first += 4;
    }
    Ok(())
}

/// Reads the low bits of four values, whose quotients are known and allow any low bits.
///
/// They are at most 56, so one look at the next bits serves all four.
#[inline(always)]
fn four_lows(
    reader: &mut BitReader,
    block: u64,
    k: u32,
    most: u16,
    four: &mut [u16],
) -> Result<(), Fault>
    requires depth { k ≤ 14 }
    requires four { length four.old ≡ 4 }
    requires within { AllByRecursion (λ q. (q + 1) * 2 ^ k ≤ most + 1) four.old }
    ensures read { Reads (λ _. four.new) result reader.new.left (lows_at (site_of reader.old block) k most four.old reader.old.left) }
    ensures count { reader.new.count ≡ reader.old.count }
{
    match reader.peek() {
        Some(word) => {
            join_lows(word, k, four);
            reader.skip(u64::from(4 * k));
            Ok(())
        }
        None => lows(reader, block, k, most, four),
    }
}

/// Joins four quotients with their low bits, which are the highest bits of a word.
#[inline(always)]
#[tactic(auto, using(crate::proofs::Powers::four_shifts))]
fn join_lows(word: u64, k: u32, four: &mut [u16])
    requires depth { k ≤ 14 }
    requires four { length four.old ≡ 4 }
    requires within { AllByRecursion (λ q. (q + 1) * 2 ^ k ≤ 65536) four.old }
    ensures { (a b c d : ℕ) → four.old ≡ a ∷ b ∷ c ∷ d ∷ [] → four.new ≡ joined_four k word a b c d }
{
    // Two shifts, since k may be 0 and a shift by 64 isn't one.
    let last = (word >> 1) >> (63 - 4 * k);
    let third = last >> k;
    let second = third >> k;
    let first = second >> k;
    four[0] = joined(four[0], k, first);
    four[1] = joined(four[1], k, second);
    four[2] = joined(four[2], k, third);
    four[3] = joined(four[3], k, last);
}

/// Returns the value made of a quotient and the lowest bits of a number.
#[inline(always)]
fn joined(quotient: u16, k: u32, number: u64) -> u16
    requires depth { k ≤ 14 }
    requires within { (quotient + 1) * 2 ^ k ≤ 65536 }
    ensures { result ≡ quotient * 2 ^ k + number % 2 ^ k }
{
    let low = (number & ((1 << k) - 1)) as u16;
    (quotient << k) + low
}
