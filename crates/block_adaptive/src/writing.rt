//! Writing coded data sets into reserved room.

ghost use Rattle.std.specs.Prelude.{◌≡◌, ◌+◌, ◌%◌, ◌^◌, ◌<◌, ◌≤◌, ◌++◌, length, sum, OnOk, OnErr, IfErr, IfOk};
ghost use Rattle.std.specs.List.{AllByRecursion};
ghost use Rattle.cube_core.specs.declared.fault.Fault.TheVariants.{WantOfMemory};
ghost use Rattle.header_bits.specs.Bits.{bits_of, fundamental};
ghost use Rattle.block_adaptive.specs.Options.{IsOption, zero_identifier, identifier, low_groups, pair_codes, option_text, cost};
ghost use Rattle.block_adaptive.specs.DataSets.{run_text, run_code, spelled, spelling};
ghost use Rattle.block_adaptive.specs.Positions.{IsPosition, blocks_from};
ghost use Rattle.block_adaptive.specs.Taken.{Writes, GrowsByNeed, rest_of, run_and_block, data_sets_after, zeros_after};

use crate::choice::{choose, identifier_width};
use crate::gathering::{append_fundamental, low_word};
use crate::options::{Choice, CodeSet};
use crate::segments::{Position, blocks_left};
use crate::written_split::{append_low_eights, append_quotients};
use core::mem::replace_with;
use cube_core::fault::Fault;
use header_bits::bit_writer::BitWriter;

/// A block, and the option under which it is coded.
#[derive(Clone, Copy)]
struct Coding<'a> {
    set: CodeSet,
    choice: Choice,
    block: &'a [u16],
}

/// Appends the k lowest bits of each value of a block, of four values at a time.
#[inline(always)]
fn append_lows(writer: BitWriter, k: u32, block: &[u16]) -> BitWriter
    requires k { k ≤ 16 }
    requires fours { length block.now % 4 ≡ 0 }
    requires room { length (low_groups k block.now) ≤ writer.room }
    ensures { Writes writer result (low_groups k block.now) }
{
    let mut writer = writer;
    let mut first = 0;
    while first < block.len() {
        writer.push_reserved(low_word(k, &block[first..first + 4]), 4 * k);
        first += 4;
    }
    writer
}

/// Appends the fundamental sequences of a block's pairs.
fn append_pairs(writer: BitWriter, block: &[u16]) -> BitWriter
    requires even { length block.now % 2 ≡ 0 }
    requires room { length (pair_codes block.now) ≤ writer.room }
    ensures { Writes writer result (pair_codes block.now) }
{
    let mut writer = writer;
    for i in 0..block.len() / 2 {
        let first = block[2 * i] as u64;
        let second = block[2 * i + 1] as u64;
        let sum = first + second;
        append_fundamental(&mut writer, sum * (sum + 1) / 2 + second);
    }
    writer
}

/// Appends the coded data set of a block under an option. The writer is passed by value, so that it stays in registers.
#[inline(always)]
fn write_option(writer: BitWriter, coding: Coding) -> (BitWriter, ())
    requires bits { coding.set.bits ≤ 16 }
    requires option { IsOption coding.set coding.choice }
    requires eights { length coding.block.now % 8 ≡ 0 }
    requires room { cost coding.set coding.choice coding.block.now ≤ writer.room }
    ensures { Writes writer result.0 (option_text coding.entry.set coding.entry.choice coding.entry.block.now) }
{
    let mut writer = writer;
    let set = coding.set;
    let block = coding.block;
    let width = identifier_width(&set);
    match coding.choice {
        Choice::Uncoded => {
            writer.push_reserved((1 << width) - 1, width);
            (append_lows(writer, set.bits, block), ())
        }
        Choice::Second => {
            writer.push_reserved(1, width + 1);
            (append_pairs(writer, block), ())
        }
        Choice::Split(k) => {
            writer.push_reserved(u64::from(k) + 1, width);
            (
                append_low_eights(append_quotients(writer, k, block), k, block),
                (),
            )
        }
    }
}

/// Writes the coded data set of a run, whose code has `zeros` zeros.
fn write_run(writer: &mut BitWriter, set: &CodeSet, zeros: u32)
    requires room { length (run_text set.now (fundamental zeros)) ≤ writer.old.room }
    ensures { Writes writer.old writer.new (run_text set.now (fundamental zeros)) }
{
    writer.push_reserved(0, identifier_width(set) + 1);
    append_fundamental(writer, u64::from(zeros));
}

/// Returns the number of zeros of a run's code.
#[tactic(auto, unfolding(crate::specs::DataSets::run_code))]
fn zeros_of_run(blocks: u32) -> u32
    ensures code { fundamental result ≡ run_code blocks }
    ensures most { result ≤ blocks }
{
    if blocks <= 4 {
        blocks.saturating_sub(1)
    } else {
        blocks
    }
}

/// Returns the number of bits of the data set of a run, whose code has `zeros` zeros.
#[tactic(auto, using(crate::proofs::Emits::run_text_cost))]
fn run_cost(set: &CodeSet, zeros: u32) -> u64
    requires { zeros ≤ 64 }
    ensures value { result ≡ length (run_text set.now (fundamental zeros)) }
    ensures bound { result ≤ 70 }
{
    u64::from(identifier_width(set) + zeros) + 2
}

/// Writes the run of all blocks that are left in a segment.
#[tactic(auto, unfolding(crate::specs::DataSets::spelled, crate::specs::DataSets::rest_code))]
fn write_rest(writer: &mut BitWriter, set: &CodeSet, left: u32) -> Result<(), Fault>
    requires { (1 ≤ left) × (left ≤ 64) }
    ensures appended { OnOk result (writer.new.bits ≡ writer.old.bits ++ spelled set.now (rest_of left)) }
    ensures same { OnErr result (writer.new.bits ≡ writer.old.bits) }
    ensures grows { GrowsByNeed writer.old writer.new }
    ensures refused { IfErr result (λ e. e ≡ WantOfMemory) }
{
    let zeros = if left >= 5 { 4 } else { zeros_of_run(left) };
    writer.reserve(run_cost(set, zeros))?;
    write_run(writer, set, zeros);
    Ok(())
}

/// Writes a block that isn't a zero block, whose values have this sum, after a run of zero blocks.
#[tactic(auto, using(crate::proofs::Tried::option_is_least), unfolding(crate::specs::DataSets::spelled))]
fn write_block(
    writer: &mut BitWriter,
    set: &CodeSet,
    zeros: u32,
    block: &[u16],
    total: u32,
) -> Result<(), Fault>
    requires bits { set.now.bits ≤ 16 }
    requires zeros { zeros ≤ 64 }
    requires few { length block.now ≤ 64 }
    requires total { total ≡ sum block.now }
    requires eights { length block.now % 8 ≡ 0 }
    ensures appended { OnOk result (writer.new.bits ≡ writer.old.bits ++ spelling set.now (run_and_block set.now zeros block.now)) }
    ensures same { OnErr result (writer.new.bits ≡ writer.old.bits) }
    ensures grows { GrowsByNeed writer.old writer.new }
    ensures refused { IfErr result (λ e. e ≡ WantOfMemory) }
{
    let (choice, cost) = choose(set, block, total);
    if zeros > 0 {
        let code = zeros_of_run(zeros);
        writer.reserve(run_cost(set, code) + cost)?;
        write_run(writer, set, code);
    } else {
        writer.reserve(cost)?;
    }
    let coding = Coding {
        set: *set,
        choice,
        block,
    };
    replace_with(writer, coding, write_option);
    Ok(())
}

/// Writes the data sets that a whole block completes, whose values have this sum, after the zero blocks that
/// are held; returns how many are held then.
///
/// The first zero block held is at `position`. It allocates first.
#[tactic(auto, using(crate::proofs::Sums::zero_tests), unfolding(crate::specs::Segments::segment_rest))]
pub(crate) fn write_data_sets(
    writer: &mut BitWriter,
    set: &CodeSet,
    position: &Position,
    zeros: u32,
    block: &[u16],
    total: u32,
) -> Result<u32, Fault>
    requires bits { set.now.bits ≤ 16 }
    requires position { IsPosition position.now }
    requires left { zeros < blocks_from position.now }
    requires few { length block.now ≤ 64 }
    requires total { total ≡ sum block.now }
    requires eights { length block.now % 8 ≡ 0 }
    ensures appended { OnOk result (writer.new.bits ≡ writer.old.bits
        ++ spelling set.now (data_sets_after set.now (blocks_from position.now) zeros block.now)) }
    ensures held { IfOk result (λ n. n ≡ zeros_after (blocks_from position.now) zeros block.now) }
    ensures same { OnErr result (writer.new.bits ≡ writer.old.bits) }
    ensures grows { GrowsByNeed writer.old writer.new }
    ensures refused { IfErr result (λ e. e ≡ WantOfMemory) }
{
    if total != 0 {
        write_block(writer, set, zeros, block, total)?;
        return Ok(0);
    }
    let left = blocks_left(position);
    if zeros + 1 < left {
        return Ok(zeros + 1);
    }
    write_rest(writer, set, left)?;
    Ok(0)
}
