//! What a block costs under each option, and the choice among them (CCSDS 121.0-B, "Code option selection").

ghost use Rattle.std.specs.Prelude.{◌≡◌, ◌≤◌, ◌<◌, ◌^◌, ◌*◌, ◌-◌, ◌+◌, ◌/◌, ◌%◌, ℕ, length, sum};
ghost use Rattle.block_adaptive.specs.Options.{width, splits, cost, IsOption, quotient_codes, quotient_sum, pair_codes, pair_number, low_groups};
ghost use Rattle.block_adaptive.specs.Chosen.{shorter, chosen_option};
ghost use Rattle.block_adaptive.specs.declared.options.Choice.TheVariants.{Uncoded, Second};

use crate::options::{Choice, CodeSet};
use crate::quotient_sums::quotient_sums;

/// Returns the number of bits of an identifier; those of zero blocks and of the second extension have one more.
pub(crate) fn identifier_width(set: &CodeSet) -> u32
    ensures value { result ≡ width set.now }
    ensures least { 1 ≤ result }
    ensures most { result ≤ 4 }
{
    if set.restricted && set.bits <= 4 {
        if set.bits <= 2 { 1 } else { 2 }
    } else if set.bits <= 8 {
        3
    } else {
        4
    }
}

/// Returns the number of bits of a block's quotients under split-sample.
pub(crate) fn quotients_cost(k: u32, block: &[u16]) -> u64
    requires k { k ≤ 15 }
    requires few { length block.now ≤ 64 }
    ensures value { result ≡ length (quotient_codes k block.now) }
    ensures bound { result ≤ 2 ^ 23 }
{
    // 64 values of at most 65,536 bits each fit 32 bits, so that the sum goes on in many lanes at once.
    let mut total = 0u32;
    for value in block {
        total += u32::from(*value >> k) + 1;
    }
    u64::from(total)
}

/// Returns the number of bits of a pair under the second extension.
fn pair_cost(first: u16, second: u16) -> u64
    ensures value { result ≡ pair_number first second + 1 }
    ensures bound { result ≤ 2 ^ 34 }
{
    let sum = u64::from(first) + u64::from(second);
    sum * (sum + 1) / 2 + u64::from(second) + 1
}

/// Returns the number of bits of a block's pairs under the second extension.
fn pairs_cost(block: &[u16]) -> u64
    requires few { length block.now ≤ 64 }
    ensures value { result ≡ length (pair_codes block.now) }
    ensures bound { result ≤ 2 ^ 40 }
{
    let mut total = 0u64;
    let mut left = block;
    while let Some((first, rest)) = left.split_first() {
        let Some((second, rest)) = rest.split_first() else {
            return total + pair_cost(*first, 0);
        };
        total += pair_cost(*first, *second);
        left = rest;
    }
    total
}

/// Returns the number of bits of a block's coded data set under an option, identifier included.
///
/// The block has at most 64 values, and the option is one of the set.
#[tactic(auto, using(crate::proofs::Costs::uncoded_cost, crate::proofs::Costs::second_cost, crate::proofs::Costs::split_cost))]
pub fn option_cost(set: &CodeSet, block: &[u16], choice: Choice) -> u64
    requires bits { set.now.bits ≤ 16 }
    requires option { IsOption set.now choice }
    requires few { length block.now ≤ 64 }
    ensures value { result ≡ cost set.now choice block.now }
    ensures bound { result ≤ 2 ^ 41 }
{
    let identifier = u64::from(identifier_width(set));
    let len = block.len() as u64;
    match choice {
        Choice::Uncoded => identifier + u64::from(set.bits) * len,
        Choice::Second => identifier + 1 + pairs_cost(block),
        Choice::Split(k) => identifier + quotients_cost(k, block) + u64::from(k) * len,
    }
}

/// Returns the first k that may have the shortest data set, by the sum of the values: up to it each k is shorter than the one
/// before, and from three after it on none is.
fn first_split(splits: u32, sum: u64, len: u64) -> u32
    requires splits { splits ≤ 14 }
    requires len { len ≤ 64 }
    requires none { len ≡ 0 → sum ≡ 0 }
    ensures few { result ≤ splits }
    ensures most { result ≤ 14 }
    ensures within { 0 < splits → result < splits }
    ensures falls { 0 < result → len * 2 ^ (result + 1) < sum }
    ensures rises { result + 1 < splits → sum ≤ len * 2 ^ (result + 2) }
{
    if sum == 0 || splits == 0 {
        return 0;
    }
    // The logarithms leave one step at most.
    let near = sum.ilog2().saturating_sub(len.ilog2() + 2).min(splits - 1);
    if near + 1 < splits && len << (near + 2) < sum {
        near + 1
    } else {
        near
    }
}

/// Returns the number of bits of a block's data set under split-sample, by the sum of its quotients.
fn split_cost(width: u32, k: u32, quotients: u32, len: u64) -> u64
    requires width { width ≤ 4 }
    requires k { k ≤ 15 }
    requires len { len ≤ 64 }
    ensures { result ≡ width + quotients + len + k * len }
{
    u64::from(width) + u64::from(quotients) + len + u64::from(k) * len
}

/// Returns the option with the shortest data set, and its number of bits: of equally short ones uncoded first,
/// then the second extension, then the smallest k.
///
/// The sum of the values shows of most options that they are no shorter, without a pass over the block.
pub(crate) fn choose(set: &CodeSet, block: &[u16], total: u32) -> (Choice, u64)
    requires bits { set.now.bits ≤ 16 }
    requires few { length block.now ≤ 64 }
    requires total { total ≡ sum block.now }
    requires eights { length block.now % 8 ≡ 0 }
    ensures chosen { result.0 ≡ chosen_option set.now block.now }
    ensures cost { result.1 ≡ cost set.now result.0 block.now }
    ensures bound { result.1 ≤ 2 ^ 41 }
{
    let splits = (1u32 << identifier_width(set)) - 2;
    if splits == 0 || u64::from(total) < block.len() as u64 {
        choose_of_small(set, block, total)
    } else {
        choose_of_large(set, block, total)
    }
}

/// Returns uncoded, or the second extension where that is shorter, and the number of bits of the block then.
fn without_split(set: &CodeSet, block: &[u16]) -> (Choice, u64)
    requires bits { set.now.bits ≤ 16 }
    requires few { length block.now ≤ 64 }
    ensures shorter { result.0 ≡ shorter set.now block.now Uncoded Second }
    ensures cost { result.1 ≡ cost set.now result.0 block.now }
    ensures bound { result.1 ≤ 2 ^ 41 }
{
    let uncoded = option_cost(set, block, Choice::Uncoded);
    let second = option_cost(set, block, Choice::Second);
    if second < uncoded {
        (Choice::Second, second)
    } else {
        (Choice::Uncoded, uncoded)
    }
}

/// Returns the choice for values that are less than 1 on average, or in a set without split-sample.
///
/// Each k above 0 has at least two bits for each value, and so isn't shorter than k = 0.
fn choose_of_small(set: &CodeSet, block: &[u16], total: u32) -> (Choice, u64)
    requires bits { set.now.bits ≤ 16 }
    requires few { length block.now ≤ 64 }
    requires total { total ≡ sum block.now }
    requires small { 0 < splits set.now → total < length block.now }
    ensures chosen { result.0 ≡ chosen_option set.now block.now }
    ensures cost { result.1 ≡ cost set.now result.0 block.now }
    ensures bound { result.1 ≤ 2 ^ 41 }
{
    let (best, least) = without_split(set, block);
    let width = identifier_width(set);
    let plain = split_cost(width, 0, total, block.len() as u64);
    if width > 1 && plain < least {
        (Choice::Split(0), plain)
    } else {
        (best, least)
    }
}

/// Returns the choice for values that are at least 1 on average, in a set with split-sample.
///
/// The second extension is longer than k = 0, and only three k may be the shortest.
fn choose_of_large(set: &CodeSet, block: &[u16], total: u32) -> (Choice, u64)
    requires bits { set.now.bits ≤ 16 }
    requires few { length block.now ≤ 64 }
    requires total { total ≡ sum block.now }
    requires eights { length block.now % 8 ≡ 0 }
    requires some { 0 < splits set.now }
    requires large { length block.now ≤ total }
    ensures chosen { result.0 ≡ chosen_option set.now block.now }
    ensures cost { result.1 ≡ cost set.now result.0 block.now }
    ensures bound { result.1 ≤ 2 ^ 41 }
{
    let width = identifier_width(set);
    let splits = (1u32 << width) - 2;
    let len = block.len() as u64;
    let first = first_split(splits, u64::from(total), len);
    let [mut quotients, mut next, last] = quotient_sums(first, block);
    let mut best = Choice::Uncoded;
    let mut least = option_cost(set, block, best);
    for i in 0..3 {
        let k = first + i;
        if k < splits {
            let cost = split_cost(width, k, quotients, len);
            if cost < least {
                best = Choice::Split(k);
                least = cost;
            }
        }
        quotients = next;
        next = last;
    }
    (best, least)
}
