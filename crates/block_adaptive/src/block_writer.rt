//! A writer of blocks: it takes residuals one after another, and writes the coded data sets of their blocks.

ghost use Rattle.std.specs.Prelude.{◌∷◌, ◌≡◌, ◌+◌, ◌^◌, ◌<◌, ◌≤◌, ◌++◌, [], length, sum, take, OnOk, OnErr, IfErr};
ghost use Rattle.std.specs.List.{AllByRecursion};
ghost use Rattle.cube_core.specs.declared.fault.Fault.TheVariants.{WantOfMemory};
ghost use Rattle.block_adaptive.specs.Settings.{AreForBlocks, IsCutOf, cut_by};
ghost use Rattle.block_adaptive.specs.Taken.{HasTaken, PutsResidual, PutsAll, EndsBlock, EndsInside, EndsBody, taken_count, packed, ended, data_sets_packed};
ghost use Rattle.block_adaptive.specs.Taken.{GrowsByNeed};
ghost use Rattle.block_adaptive.specs.DataSets.{capacity};
ghost use Rattle.cube_core.specs.Shape.{sample_count};

use crate::block_values::{filled_block, sum_of, sum_of_eights};
use crate::options::CodeSet;
use crate::segments::Position;
use crate::writing::write_data_sets;
use cube_core::fault::Fault;
use header_bits::bit_writer::BitWriter;
use header_bits::params::{Coder, Params};
use std::marker::Model;

/// Writes the body of residuals, with the shortest option of each block and the longest runs of zero blocks.
///
/// It holds the values of the block begun, and zero blocks, as a count, until the length of their run is known.
#[derive(Drop)]
pub struct BlockWriter {
    set: CodeSet,
    /// J: 8, 16, 32 or 64.
    size: u32,
    reference: u32,
    /// The number of blocks.
    count: u64,
    /// The first block of which nothing was written.
    start: u64,
    /// The number of zero blocks from it on.
    zeros: u32,
    /// The sum of the values of the next block so far. It shows that a block is zeros, what k = 0 costs and which three k may be
    /// the shortest, so that one pass over the whole block decides its option.
    total: u32,
    values: [u16; 64],
    /// The number of values of the next block so far.
    held: u32,
}

impl Model for BlockWriter {
    ghost use Rattle.std.specs.Prelude.{take};
    ghost use Rattle.block_adaptive.specs.Taken.{WriterState};
    ghost use Rattle.block_adaptive.specs.Holding.{AreStored};

    ghost Value = { WriterState };

    ghost view = { λ a. record {
      cut = record { set = a.set; size = a.size; reference = a.reference; count = a.count };
      start = a.start;
      zeros = a.zeros;
      held = take a.held a.values;
    } };

    ghost invariant = { λ a. AreStored (record { set = a.set; size = a.size; reference = a.reference; count = a.count }) a.start a.zeros a.total
        (take a.held a.values) };
}

impl BlockWriter {
    /// Returns a writer of an image's residuals, none of which was taken yet. The parameters are lawful, and for this coder. It allocates
    /// nothing.
    pub fn new(params: &Params) -> BlockWriter
        requires { AreForBlocks params.now }
        ensures cut { result.cut ≡ cut_by params.now }
        ensures room { IsCutOf (sample_count params.now.shape) result.cut }
        ensures taken { HasTaken result [] [] }
        ensures count { taken_count result ≡ 0 }
    {
        match params.coder {
            Coder::Block {
                size,
                restricted,
                reference,
            } => BlockWriter {
                set: CodeSet {
                    bits: params.kind.bits(),
                    restricted,
                },
                size,
                reference,
                count: params.shape.sample_count().div_ceil(u64::from(size)),
                start: 0,
                zeros: 0,
                total: 0,
                values: [0; 64],
                held: 0,
            },
            Coder::Sample { .. } => unreachable!(),
        }
    }

    /// Takes the next residual, and appends the part of the body that is then known.
    ///
    /// Fewer residuals were taken than all blocks have values, and the residual is at most 2^D - 1. It allocates only
    /// if the residual completes a block, and no more than twice the bits written then. Returns `WantOfMemory` if the allocation fails,
    /// or if there would be more than 2^63 bits; then nothing was changed, and the call may be repeated.
    #[inline]
    pub fn put(&mut self, delta: u16, writer: &mut BitWriter) -> Result<(), Fault>
        requires number { delta < 2 ^ self.old.cut.set.bits }
        requires more { taken_count self.old < capacity self.old.cut }
        ensures taken { OnOk result (PutsResidual delta self.old writer.old.bits self.new writer.new.bits) }
        ensures counted { OnOk result (taken_count self.new ≡ taken_count self.old + 1) }
        ensures same { OnErr result ((self.new ≡ self.old) × (writer.new.bits ≡ writer.old.bits)) }
        ensures grows { GrowsByNeed writer.old writer.new }
        ensures refused { IfErr result (λ e. e ≡ WantOfMemory) }
        ensures memory { IfErr result (λ _. EndsBlock self.old) }
        ensures cut { self.new.cut ≡ self.old.cut }
    {
        if self.held + 1 < self.size {
            self.values[self.held as usize] = delta;
            self.held += 1;
            self.total += u32::from(delta);
            return Ok(());
        }
        self.put_last(delta, writer)
    }

    /// Takes the next residuals, and appends the part of the body that is then known. Returns how many were taken: fewer than all
    /// only if `put` would refuse the residual after them, which completes a block. The call may then be repeated with those left.
    ///
    /// With these, no more residuals are taken than all blocks have values, and each is at most 2^D - 1. It allocates as `put` does.
    pub fn put_all(&mut self, numbers: &[u16], writer: &mut BitWriter) -> usize
        requires numbers { AllByRecursion (λ n. n < 2 ^ self.old.cut.set.bits) numbers.now }
        requires more { taken_count self.old + length numbers.now ≤ capacity self.old.cut }
        ensures taken { PutsAll (take result numbers.now) self.old writer.old.bits self.new writer.new.bits }
        ensures counted { taken_count self.new ≡ taken_count self.old + result }
        ensures most { result ≤ length numbers.now }
        ensures memory { result < length numbers.now → EndsBlock self.new }
        ensures grows { GrowsByNeed writer.old writer.new }
        ensures cut { self.new.cut ≡ self.old.cut }
    {
        let size = self.size as usize;
        let mut first = 0;
        while first < numbers.len() {
            // A block that is whole in `numbers` is coded from there, without a copy.
            if self.held == 0 && numbers.len() - first >= size {
                let taken = self.put_block(&numbers[first..first + size], writer);
                if taken < size {
                    return first + taken;
                }
                first += size;
                continue;
            }
            let free = (self.size - 1 - self.held) as usize;
            let end = first + free.min(numbers.len() - first);
            self.hold(&numbers[first..end]);
            first = end;
            if first < numbers.len() {
                let Ok(()) = self.put(numbers[first], writer) else {
                    return first;
                };
                first += 1;
            }
        }
        first
    }

    /// Takes residuals that don't complete the block begun.
    #[inline(always)]
    fn hold(&mut self, numbers: &[u16])
        requires numbers { AllByRecursion (λ n. n < 2 ^ self.old.cut.set.bits) numbers.now }
        requires few { length self.old.held + length numbers.now < self.old.cut.size }
        requires more { taken_count self.old + length numbers.now ≤ capacity self.old.cut }
        ensures { self.new ≡ record self.old { held = self.old.held ++ numbers.now } }
    {
        let held = self.held as usize;
        self.values[held..held + numbers.len()].copy_from_slice(numbers);
        self.held += numbers.len() as u32;
        self.total += sum_of(numbers);
    }

    /// Takes the residuals of a whole block, while none is held, and appends the part of the body that is then known.
    /// Returns how many were taken: all but the last if an allocation failed.
    fn put_block(&mut self, block: &[u16], writer: &mut BitWriter) -> usize
        requires none { self.old.held ≡ [] }
        requires whole { length block.now ≡ self.old.cut.size }
        requires range { AllByRecursion (λ v. v < 2 ^ self.old.cut.set.bits) block.now }
        requires more { taken_count self.old + length block.now ≤ capacity self.old.cut }
        ensures taken { PutsAll (take result block.now) self.old writer.old.bits self.new writer.new.bits }
        ensures counted { taken_count self.new ≡ taken_count self.old + result }
        ensures most { result ≤ length block.now }
        ensures memory { result < length block.now → EndsBlock self.new }
        ensures grows { GrowsByNeed writer.old writer.new }
        ensures cut { self.new.cut ≡ self.old.cut }
    {
        let most = self.size as usize - 1;
        match self.pack(block, sum_of_eights(block), writer) {
            Ok(()) => most + 1,
            Err(_) => {
                self.hold(&block[..most]);
                most
            }
        }
    }

    /// Takes the last residual of a block, and appends the part of the body that is then known.
    #[inline(never)]
    fn put_last(&mut self, delta: u16, writer: &mut BitWriter) -> Result<(), Fault>
        requires last { length self.old.held + 1 ≡ self.old.cut.size }
        requires more { self.old.start + self.old.zeros < self.old.cut.count }
        ensures appended { OnOk result (writer.new.bits ≡ writer.old.bits ++ data_sets_packed self.old (self.old.held ++ delta ∷ [])) }
        ensures packed { OnOk result (self.new ≡ packed self.old (self.old.held ++ delta ∷ [])) }
        ensures same { OnErr result ((self.new ≡ self.old) × (writer.new.bits ≡ writer.old.bits)) }
        ensures grows { GrowsByNeed writer.old writer.new }
        ensures refused { IfErr result (λ e. e ≡ WantOfMemory) }
    {
        let mut block = self.values;
        block[self.held as usize] = delta;
        let total = self.total + u32::from(delta);
        self.pack(&block[..self.size as usize], total, writer)
    }

    /// Ends the body: appends all that is held, with the block begun filled with zeros.
    ///
    /// All residuals were taken. It allocates only if they end inside a block, at most twice the bits written then. Returns
    /// `WantOfMemory`, with nothing changed, if the allocation fails or there would be more than 2^63 bits; the call may be repeated.
    pub fn end(&mut self, writer: &mut BitWriter) -> Result<(), Fault>
        ensures ended { OnOk result (EndsBody self.old writer.old.bits writer.new.bits) }
        ensures past { OnOk result (self.new ≡ ended self.old) }
        ensures same { OnErr result ((self.new ≡ self.old) × (writer.new.bits ≡ writer.old.bits)) }
        ensures grows { GrowsByNeed writer.old writer.new }
        ensures refused { IfErr result (λ e. e ≡ WantOfMemory) }
        ensures memory { IfErr result (λ _. EndsInside self.old) }
    {
        if self.held == 0 {
            return Ok(());
        }
        let size = self.size as usize;
        let block = filled_block(&self.values, self.held);
        self.pack(&block[..size], self.total, writer)
    }

    /// Takes a whole block with this sum in place of the values held, and appends the part of the body that is then known.
    #[inline(never)]
    fn pack(&mut self, block: &[u16], total: u32, writer: &mut BitWriter) -> Result<(), Fault>
        requires whole { length block.now ≡ self.old.cut.size }
        requires total { total ≡ sum block.now }
        requires more { self.old.start + self.old.zeros < self.old.cut.count }
        ensures appended { OnOk result (writer.new.bits ≡ writer.old.bits ++ data_sets_packed self.old block.now) }
        ensures packed { OnOk result (self.new ≡ packed self.old block.now) }
        ensures same { OnErr result ((self.new ≡ self.old) × (writer.new.bits ≡ writer.old.bits)) }
        ensures grows { GrowsByNeed writer.old writer.new }
        ensures refused { IfErr result (λ e. e ≡ WantOfMemory) }
    {
        let position = Position {
            reference: self.reference,
            count: self.count,
            block: self.start,
        };
        // A copy stays in registers while bytes are stored.
        let set = self.set;
        let zeros = write_data_sets(writer, &set, &position, self.zeros, block, total)?;
        self.start += u64::from(self.zeros + 1 - zeros);
        self.zeros = zeros;
        self.held = 0;
        self.total = 0;
        Ok(())
    }
}
