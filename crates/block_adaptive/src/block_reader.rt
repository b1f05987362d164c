//! A reader of blocks, which returns their values one after another.

ghost use Rattle.std.specs.Prelude.{◌≡◌, ℕ, ◌+◌, ◌*◌, ◌%◌, ◌<◌, ◌≤◌, Bool, List, [], ◌∷◌, ◌++◌, Ok, Err, Some, None, IfOk, IfErr, OnErr};
ghost use Rattle.std.specs.Prelude.{MatchResult, length, replicate, take};
ghost use Rattle.cube_core.specs.declared.fault.Fault.{Fault};
ghost use Rattle.header_bits.specs.Reading.{Reads};
ghost use Rattle.block_adaptive.specs.DataSets.{Cut, left_at, capacity, values_of};
ghost use Rattle.cube_core.specs.Shape.{sample_count};
ghost use Rattle.block_adaptive.specs.Settings.{AreForBlocks, IsCutOf, cut_by};
ghost use Rattle.block_adaptive.specs.Given.{ReaderState, given_count, GivesFirst, GivesFront, GivesNext, GivesAll, GivesRun, HasGiven, next_data_set, in_hand};
ghost use Rattle.block_adaptive.specs.Reading.{data_sets_at};

use crate::data_set_kind::DataSetKind;
use crate::data_sets::read_data_set;
use crate::options::CodeSet;
use crate::segments::{Position, blocks_left};
use cube_core::fault::Fault;
use header_bits::bit_reader::BitReader;
use header_bits::params::{Coder, Params};
use std::marker::Model;

/// Reads the residuals of a body, one coded data set at a time.
///
/// It holds the values of the last data set, in an array or, for zero blocks, as a count.
#[derive(Drop)]
pub struct BlockReader {
    set: CodeSet,
    /// J: 8, 16, 32 or 64.
    size: u32,
    reference: u32,
    /// The number of blocks.
    count: u64,
    /// The block at which the next data set begins.
    block: u64,
    values: [u16; 64],
    /// How many of the block's values were returned.
    at: u32,
    /// How many zeros are still to be returned.
    zeros: u32,
    /// The refusal of a `next`, which every later one returns again.
    refused: Option<Fault>,
}

impl Model for BlockReader {
    ghost use Rattle.std.specs.Prelude.{◌++◌, take, drop, replicate};
    ghost use Rattle.block_adaptive.specs.Given.{ReaderState};
    ghost use Rattle.block_adaptive.specs.Holding.{AreParts};

    ghost Value = { ReaderState };

    ghost view = { λ a. record {
      cut = record { set = a.set; size = a.size; reference = a.reference; count = a.count };
      block = a.block;
      held = drop a.at (take a.size a.values) ++ replicate a.zeros 0;
      refused = a.refused;
    } };

    ghost invariant = { λ a. AreParts (record { set = a.set; size = a.size; reference = a.reference; count = a.count }) a.block a.at a.zeros };
}

impl BlockReader {
    /// Returns a reader of an image's residuals, none of which was read yet. It allocates nothing.
    ///
    /// The parameters are lawful, and for this coder.
    #[tactic(auto, using(crate::proofs::Handed::nothing_held))]
    pub fn new(params: &Params) -> BlockReader
        requires { AreForBlocks params.now }
        ensures cut { result.cut ≡ cut_by params.now }
        ensures room { IsCutOf (sample_count params.now.shape) result.cut }
        ensures given { HasGiven result [] [] }
        ensures count { given_count result ≡ 0 }
    {
        match params.coder {
            Coder::Block {
                size,
                restricted,
                reference,
            } => BlockReader {
                set: CodeSet {
                    bits: params.kind.bits(),
                    restricted,
                },
                size,
                reference,
                count: params.shape.sample_count().div_ceil(u64::from(size)),
                block: 0,
                values: [0; 64],
                at: size,
                zeros: 0,
                refused: None,
            },
            Coder::Sample { .. } => unreachable!(),
        }
    }

    /// Returns the next residual of the body.
    ///
    /// Fewer residuals were returned than all blocks have values. If the reader holds no value, it first reads the
    /// whole next data set. If no lawful data set comes next, the refusal is that of its first unlawful
    /// part: `Truncated` with the number of bits of the whole input if they end inside it, `RunPastSegment` for a run code, and
    /// `BadOption` for any other; both name the block at which the data set begins. The reader then keeps its position, nothing
    /// else is changed, and every later call returns the same
    /// refusal. It allocates nothing.
    #[inline]
    pub fn next(&mut self, reader: &mut BitReader) -> Result<u16, Fault>
        requires { given_count self.old < capacity self.old.cut }
        ensures first { self.old.refused ≡ None → MatchResult result (λ value. (new : ReaderState) × (in_hand self.old reader.old self.old.held ≡ Ok (
          new,
          reader.new.left,
        )) × GivesFirst new value self.new) (λ fault. (self.old.held ≡ []) × (next_data_set self.old reader.old ≡ Err fault)) }
        ensures given { GivesNext self.old reader.old result self.new reader.new.left }
        ensures again { (fault : Fault) → self.old.refused ≡ Some fault → result ≡ Err fault }
        ensures kept { IfErr result (λ fault. self.new ≡ record self.old { refused = Some fault }) }
        ensures counted { IfOk result (λ _. given_count self.new ≡ given_count self.old + 1) }
        ensures inside { self.new.block ≤ self.new.cut.count }
        ensures same { OnErr result (reader.new ≡ reader.old) }
        ensures count { reader.new.count ≡ reader.old.count }
        ensures cut { self.new.cut ≡ self.old.cut }
    {
        if let Some(fault) = self.refused {
            return Err(fault);
        }
        if self.at == self.size && self.zeros == 0 {
            self.take_data_set(reader)?;
        }
        Ok(self.give())
    }

    /// Writes the next residuals of the body to `numbers`: those that as many calls of `next` return.
    ///
    /// With these, no more residuals are returned than all blocks have values. If no lawful data set comes next while
    /// residuals are missing, the refusal is that of `next`; the bits then keep the position of that data set, what
    /// is in `numbers` is unspecified, and every later call returns the same refusal and changes nothing else. It allocates
    /// nothing.
    pub fn next_run(&mut self, reader: &mut BitReader, numbers: &mut [u16]) -> Result<(), Fault>
        requires { given_count self.old + length numbers.old ≤ capacity self.old.cut }
        ensures given { GivesRun self.old reader.old result self.new reader.new.left numbers.new }
        ensures again { (fault : Fault) → self.old.refused ≡ Some fault → result ≡ Err fault }
        ensures kept { IfErr result (λ fault. self.new.refused ≡ Some fault) }
        ensures still { (fault : Fault) → self.old.refused ≡ Some fault → (self.new ≡ self.old) × (reader.new ≡ reader.old) }
        ensures stops { IfErr result (λ fault. self.old.refused ≡ None → (self.new.held ≡ []) × (next_data_set self.new reader.new ≡ Err fault)) }
        ensures counted { IfOk result (λ _. given_count self.new ≡ given_count self.old + length numbers.old) }
        ensures inside { self.new.block ≤ self.new.cut.count }
        ensures count { reader.new.count ≡ reader.old.count }
        ensures cut { self.new.cut ≡ self.old.cut }
    {
        if let Some(refusal) = self.refused {
            return Err(refusal);
        }
        let mut done = 0;
        while done < numbers.len() {
            done += self.next_some(reader, &mut numbers[done..])?;
        }
        Ok(())
    }

    /// Writes the next residuals of the body to the front of `numbers`, and returns how many: those of one data set
    /// for which there is room.
    #[inline(always)]
    fn next_some(&mut self, reader: &mut BitReader, numbers: &mut [u16]) -> Result<usize, Fault>
        requires more { given_count self.old < capacity self.old.cut }
        requires room { 0 < length numbers.old }
        ensures given { IfOk result (λ n. (given : List ℕ) (bits : List Bool) → HasGiven self.old given bits
            → GivesAll self.old given bits reader.old.left self.new reader.new.left (take n numbers.new)) }
        ensures some { IfOk result (λ n. (0 < n) × (n ≤ length numbers.old)) }
        ensures counted { IfOk result (λ n. given_count self.new ≡ given_count self.old + n) }
        ensures working { IfOk result (λ _. self.new.refused ≡ self.old.refused) }
        ensures body { IfErr result (λ fault. (given : List ℕ) (bits : List Bool) → HasGiven self.old given bits
            → data_sets_at reader.old.count self.old.cut self.old.cut.count 0 (bits ++ reader.old.left) ≡ Err fault) }
        ensures fault { IfErr result (λ fault. (self.old.held ≡ []) × (next_data_set self.old reader.old ≡ Err fault)) }
        ensures kept { IfErr result (λ fault. self.new ≡ record self.old { refused = Some fault }) }
        ensures same { OnErr result (reader.new ≡ reader.old) }
        ensures inside { self.new.block ≤ self.new.cut.count }
        ensures count { reader.new.count ≡ reader.old.count }
        ensures cut { self.new.cut ≡ self.old.cut }
    {
        if self.zeros == 0 && self.at == self.size {
            self.take_data_set(reader)?;
        }
        Ok(self.give_run(numbers))
    }

    /// Reads the next coded data set, and stores its values.
    #[inline(never)]
    fn take_data_set(&mut self, reader: &mut BitReader) -> Result<(), Fault>
        requires empty { self.old.held ≡ [] }
        requires more { self.old.block < self.old.cut.count }
        ensures read { Reads (λ _. self.new) result reader.new.left (next_data_set self.old reader.old) }
        ensures some { IfOk result (λ _. 0 < length self.new.held) }
        ensures counted { IfOk result (λ _. given_count self.new ≡ given_count self.old) }
        ensures refused { IfErr result (λ fault. self.new ≡ record self.old { refused = Some fault }) }
        ensures same { OnErr result (reader.new ≡ reader.old) }
        ensures count { reader.new.count ≡ reader.old.count }
    {
        let position = Position {
            reference: self.reference,
            count: self.count,
            block: self.block,
        };
        let set = self.set;
        let mut ahead = reader.fork();
        match read_data_set(
            &mut ahead,
            self.block,
            &set,
            &position,
            &mut self.values[..self.size as usize],
        ) {
            Ok(DataSetKind::Block(_)) => {
                *reader = ahead;
                self.at = 0;
                self.zeros = 0;
                self.block += 1;
                Ok(())
            }
            Ok(DataSetKind::Run(blocks)) => {
                *reader = ahead;
                self.hold_zeros(blocks);
                Ok(())
            }
            Ok(DataSetKind::RestOfSegment) => {
                *reader = ahead;
                self.hold_zeros(blocks_left(&position));
                Ok(())
            }
            Err(fault) => {
                self.at = self.size;
                self.zeros = 0;
                self.refused = Some(fault);
                Err(fault)
            }
        }
    }

    /// Stores a run of zero blocks, at most as many as the segment has left.
    #[tactic(auto, using(crate::proofs::Handed::rest_most, crate::proofs::Places::run_in_hand))]
    fn hold_zeros(&mut self, blocks: u32)
        requires { (0 < blocks) × (blocks ≤ left_at self.old.cut self.old.block) }
        ensures zeros { self.new ≡ record self.old { block = self.old.block + blocks; held = values_of (replicate blocks (replicate self.old.cut.size 0)) } }
        ensures some { 0 < length self.new.held }
        ensures counted { given_count self.new ≡ self.old.block * self.old.cut.size }
    {
        self.at = self.size;
        self.zeros = blocks * self.size;
        self.block += u64::from(blocks);
    }

    /// Returns the first value held.
    #[tactic(auto, using(crate::proofs::Places::first_in_hand))]
    fn give(&mut self) -> u16
        requires { 0 < length self.old.held }
        ensures first { GivesFirst self.old result self.new }
        ensures counted { given_count self.new ≡ given_count self.old + 1 }
        ensures inside { self.new.block ≤ self.new.cut.count }
    {
        if self.at < self.size {
            let value = self.values[self.at as usize];
            self.at += 1;
            value
        } else {
            self.zeros -= 1;
            0
        }
    }

    /// Moves the first values held to the front of `numbers`, and returns how many: all of them, or as many as there is room for.
    #[inline(always)]
    #[tactic(auto, using(std::proofs::lemmas::Grind::common_steps, crate::proofs::Places::first_of_hand, crate::proofs::Places::zeros_of_hand))]
    fn give_run(&mut self, numbers: &mut [u16]) -> usize
        requires held { 0 < length self.old.held }
        requires room { 0 < length numbers.old }
        ensures front { GivesFront self.old (take result numbers.new) self.new }
        ensures some { (0 < result) × (result ≤ length numbers.old) }
        ensures counted { given_count self.new ≡ given_count self.old + result }
        ensures inside { self.new.block ≤ self.new.cut.count }
    {
        if self.at < self.size {
            let at = self.at as usize;
            let count = numbers.len().min((self.size - self.at) as usize);
            numbers[..count].copy_from_slice(&self.values[at..at + count]);
            self.at += count as u32;
            count
        } else {
            let count = numbers.len().min(self.zeros as usize);
            numbers[..count].fill(0);
            self.zeros -= count as u32;
            count
        }
    }
}
