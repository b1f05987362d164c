//! Reading one coded data set: a block under its option, or a run of zero blocks (CCSDS 121.0-B, "Coded data set").

ghost use Rattle.std.specs.Prelude.{◌≡◌, ◌≤◌, ◌<◌, ◌^◌, ◌+◌, ◌-◌, ◌*◌, ℕ, List, length, drop, IfErr, IfOk, Ok, Err, ◌%◌, ◌++◌, Bool};
ghost use Rattle.std.specs.List.{AllByRecursion};
ghost use Rattle.header_bits.specs.Reading.{Reads};
ghost use Rattle.block_adaptive.specs.Ahead.{IsAhead, IsWord, used};
ghost use Rattle.block_adaptive.specs.Options.{width, greatest_value};
ghost use Rattle.block_adaptive.specs.Reading.{site_of, fundamental_at, quotients_at, split_at, words_at, run_at, data_set_at};
ghost use Rattle.block_adaptive.specs.DataSets.{CodedDataSet, spelled, IsCodedDataSet};
ghost use Rattle.block_adaptive.specs.Positions.{IsPosition, blocks_from};
ghost use Rattle.block_adaptive.specs.DataSetKinds.{with_values};

use crate::ahead::{Ahead, code_ahead, look_ahead, take_used};
use crate::choice::identifier_width;
use crate::data_set_kind::DataSetKind;
use crate::lows::{lows, lows_within};
use crate::options::{Choice, CodeSet};
use crate::pairs::pairs;
use crate::segments::{Position, blocks_left};
use cube_core::fault::Fault;
use header_bits::bit_reader::BitReader;

/// Reads a fundamental sequence of at most `most` zeros, and returns the number of its zeros.
#[inline(always)]
#[tactic(auto, unfolding(crate::specs::Reading::fundamental_at))]
pub(crate) fn fundamental(reader: &mut BitReader, block: u64, most: u64) -> Result<u64, Fault>
    requires { most < 2 ^ 63 }
    ensures read { Reads (λ x. x) result reader.new.left (fundamental_at (site_of reader.old block) most reader.old.left) }
    ensures bound { IfOk result (λ m. m ≤ most) }
    ensures count { reader.new.count ≡ reader.old.count }
{
    let zeros = reader.count_zeros(most + 1)?;
    if zeros > most {
        return Err(Fault::BadOption { block });
    }
    Ok(zeros)
}

/// Reads a fundamental sequence for each value.
#[inline(always)]
#[tactic(auto, using(header_bits::proofs::Items::all_weaker, crate::proofs::Bounds::checked_within))]
fn quotients(reader: &mut BitReader, block: u64, most: u16, values: &mut [u16]) -> Result<(), Fault>
    ensures read { Reads (λ _. values.new) result reader.new.left (quotients_at (site_of reader.old block) most (length values.old) reader.old.left) }
    ensures count { reader.new.count ≡ reader.old.count }
{
    let mut ahead = reader.fork();
    if let Ok(bound) = codes(&mut ahead, block, values) {
        if bound <= most {
            *reader = ahead;
            return Ok(());
        }
    }
    checked_codes(reader, block, most, values)
}

/// Reads a fundamental sequence for each value, and returns an upper bound of the numbers read.
///
/// One test of that bound for the block replaces one for each value.
#[inline(always)]
fn codes(reader: &mut BitReader, block: u64, values: &mut [u16]) -> Result<u16, Fault>
    ensures read { IfOk result (λ bound. AllByRecursion (λ q. q ≤ bound) values.new
        × (quotients_at (site_of reader.old block) 65535 (length values.old) reader.old.left ≡ Ok (values.new, reader.new.left))) }
    ensures count { reader.new.count ≡ reader.old.count }
{
    let mut bound = 0;
    let mut ahead = look_ahead(reader);
    for value in values.iter_mut() {
        if let Some((quotient, next)) = code_ahead(ahead) {
            bound |= quotient;
            *value = quotient;
            ahead = next;
        } else {
            let (quotient, next) = next_code(reader, block, ahead)?;
            bound |= quotient;
            *value = quotient;
            ahead = next;
        }
    }
    take_used(reader, ahead);
    Ok(bound)
}

/// Reads the fundamental sequence after the used bits, and looks ahead anew.
#[inline(always)]
#[tactic(auto, using(crate::proofs::Looking::code_read))]
fn next_code(reader: &mut BitReader, block: u64, ahead: Ahead) -> Result<(u16, Ahead), Fault>
    requires { IsAhead ahead reader.old.left }
    ensures found { IfOk result (λ p. IsWord p.1 × IsAhead p.1 reader.new.left
        × (fundamental_at (site_of reader.old block) 65535 (drop (used ahead) reader.old.left) ≡ Ok (p.0, drop (used p.1) reader.new.left))) }
    ensures count { reader.new.count ≡ reader.old.count }
{
    take_used(reader, ahead);
    if let Some(found) = code_ahead(look_ahead(reader)) {
        return Ok(found);
    }
    let quotient = fundamental(reader, block, 65_535)? as u16;
    Ok((quotient, look_ahead(reader)))
}

/// Reads a fundamental sequence for each value, and checks one after another.
#[inline(never)]
fn checked_codes(
    reader: &mut BitReader,
    block: u64,
    most: u16,
    values: &mut [u16],
) -> Result<(), Fault>
    ensures read { Reads (λ _. values.new) result reader.new.left (quotients_at (site_of reader.old block) most (length values.old) reader.old.left) }
    ensures count { reader.new.count ≡ reader.old.count }
{
    for value in values.iter_mut() {
        *value = fundamental(reader, block, u64::from(most))? as u16;
    }
    Ok(())
}

/// Reads a block under a split-sample option.
#[tactic(auto, unfolding(crate::specs::Reading::split_at))]
fn split(
    reader: &mut BitReader,
    block: u64,
    k: u32,
    most: u16,
    values: &mut [u16],
) -> Result<(), Fault>
    requires depth { k ≤ 14 }
    requires fours { length values.old % 4 ≡ 0 }
    ensures read { Reads (λ _. values.new) result reader.new.left (split_at (site_of reader.old block) k most (length values.old) reader.old.left) }
    ensures count { reader.new.count ≡ reader.old.count }
{
    let greatest = most >> k;
    quotients(reader, block, greatest, values)?;
    if k == 0 {
        return Ok(());
    }
    if (u32::from(greatest) + 1) << k <= u32::from(most) + 1 {
        lows_within(reader, block, k, most, values)
    } else {
        lows(reader, block, k, most, values)
    }
}

/// Reads a run code, and returns its run of zero blocks.
#[tactic(auto, unfolding(crate::specs::Reading::run_at))]
fn run(reader: &mut BitReader, block: u64, left: u32) -> Result<DataSetKind, Fault>
    requires { left ≤ 64 }
    ensures found { IfOk result (λ found. (vs : List ℕ) → run_at (site_of reader.old block) left reader.old.left ≡ Ok (with_values vs found, reader.new.left)) }
    ensures fault { IfErr result (λ fault. run_at (site_of reader.old block) left reader.old.left ≡ Err fault) }
    ensures count { reader.new.count ≡ reader.old.count }
{
    let limit = u64::from(left.max(4));
    let zeros = reader.count_zeros(limit + 1)?;
    if zeros > limit {
        return Err(Fault::RunPastSegment { block });
    }
    if zeros == 4 {
        return Ok(DataSetKind::RestOfSegment);
    }
    let named = if zeros <= 3 { zeros + 1 } else { zeros };
    if named > u64::from(left) {
        return Err(Fault::RunPastSegment { block });
    }
    Ok(DataSetKind::Run(named as u32))
}

/// Returns the greatest value, 2^D - 1.
fn largest(set: &CodeSet) -> u16
    requires { set.now.bits ≤ 16 }
    ensures { result ≡ greatest_value set.now }
{
    ((1u32 << set.bits) - 1) as u16
}

/// Reads a number of `depth` bits for each value.
fn words(reader: &mut BitReader, depth: u32, values: &mut [u16]) -> Result<(), Fault>
    requires { depth ≤ 16 }
    ensures read { Reads (λ _. values.new) result reader.new.left (words_at reader.old.count depth (length values.old) reader.old.left) }
    ensures count { reader.new.count ≡ reader.old.count }
{
    for value in values.iter_mut() {
        *value = reader.take(depth)? as u16;
    }
    Ok(())
}

/// Reads one coded data set, that of the block at a position. The values of a block are written.
#[tactic(auto, unfolding(crate::specs::Reading::data_set_at))]
pub(crate) fn data_set(
    reader: &mut BitReader,
    block: u64,
    set: &CodeSet,
    position: &Position,
    values: &mut [u16],
) -> Result<DataSetKind, Fault>
    requires bits { set.now.bits ≤ 16 }
    requires position { IsPosition position.now }
    requires fours { length values.old % 4 ≡ 0 }
    ensures read { Reads (with_values values.new) result reader.new.left (data_set_at (site_of reader.old block) set.now (length values.old)
        (blocks_from position.now) reader.old.left) }
    ensures count { reader.new.count ≡ reader.old.count }
{
    let most = largest(set);
    let width = identifier_width(set);
    let number = reader.take(width)?;
    if number == 0 {
        let more = reader.take(1)?;
        if more == 0 {
            let found = run(reader, block, blocks_left(position))?;
            return Ok(found);
        }
        pairs(reader, block, most, values)?;
        Ok(DataSetKind::Block(Choice::Second))
    } else if number == (1u64 << width) - 1 {
        words(reader, set.bits, values)?;
        Ok(DataSetKind::Block(Choice::Uncoded))
    } else {
        let k = number as u32 - 1;
        split(reader, block, k, most, values)?;
        Ok(DataSetKind::Block(Choice::Split(k)))
    }
}

/// Reads one lawful coded data set, that of the block at a position. The values of a block are written.
///
/// The refusal is that of the first unlawful part of the data set: `BadOption` and `RunPastSegment` name the block, and
/// `Truncated` how many bits the whole input has.
#[tactic(auto, using(crate::proofs::Fronts::found_is, crate::proofs::Fronts::none_is, crate::proofs::Lawful::rest_least))]
pub(crate) fn read_data_set(
    reader: &mut BitReader,
    block: u64,
    set: &CodeSet,
    position: &Position,
    values: &mut [u16],
) -> Result<DataSetKind, Fault>
    requires bits { set.now.bits ≤ 16 }
    requires position { IsPosition position.now }
    requires fours { length values.old % 4 ≡ 0 }
    ensures read { Reads (with_values values.new) result reader.new.left (data_set_at (site_of reader.old block) set.now (length values.old)
        (blocks_from position.now) reader.old.left) }
    ensures found { IfOk result (λ found. (reader.old.left ≡ spelled set.now (with_values values.new found) ++ reader.new.left)
        × IsCodedDataSet set.now (length values.old) (blocks_from position.now) (with_values values.new found)) }
    ensures none { IfErr result (λ _. (t : CodedDataSet) (rest : List Bool) → IsCodedDataSet set.now (length values.old) (blocks_from position.now) t
        → reader.old.left ≡ spelled set.now t ++ rest → ⊥) }
    ensures count { reader.new.count ≡ reader.old.count }
{
    data_set(reader, block, set, position, values)
}
