//! The entropy coder of an image, either of the two, as it writes: it takes the residuals in encoding order.

ghost use Rattle.std.specs.Prelude.{◌≡◌, ◌*◌, ◌<◌, ◌≤◌, [], length, take, IsOk, IsTrue, IsFalse, IfOk, IfErr, OnOk, OnErr};
ghost use Rattle.cube_core.specs.declared.fault.Fault.TheVariants.{WantOfMemory};
ghost use Rattle.header_bits.specs.Lawful.{IsLawful};
ghost use Rattle.block_adaptive.specs.Settings.{IsBlock};
ghost use Rattle.file_encoding.specs.Coding.{HasTaken, MayPut, MayPutRun, MayPutColumn, MayPutBlocks, MayGrow, MayGrowAtEnd, PutsResidual, PutsRun};
ghost use Rattle.file_encoding.specs.Coding.{PutsColumn, PutsBlocks, EndsBody, IsBySamples, IsByBlocks};

use block_adaptive::block_writer::BlockWriter;
use cube_core::fault::Fault;
use header_bits::bit_writer::BitWriter;
use header_bits::params::{Coder, Params};
use sample_adaptive::stats::Stats;
use std::alloc::Global;

/// The entropy coder that an image's parameters name, as it writes.
#[derive(Drop)]
pub enum EntropyEncoder {
    Samples(Stats),
    Blocks(BlockWriter),
}

impl EntropyEncoder {
    /// Returns the coder of an image, which has taken no residual.
    ///
    /// Returns `WantOfMemory` if the statistics of all bands can't be allocated; the block-adaptive coder allocates
    /// nothing.
    #[tactic(auto, using(sample_adaptive::proofs::ForSamples::for_samples, crate::proofs::Coders::samples_none))]
    pub fn new(alloc: Global, params: &Params) -> Result<EntropyEncoder, Fault>
        requires { IsLawful params.now }
        ensures taken { IfOk result (λ coder. HasTaken params.now coder [] []) }
        ensures refused { IfErr result (λ e. e ≡ WantOfMemory) }
        ensures blocks { IsBlock params.now.coder → IsOk result }
    {
        match params.coder {
            Coder::Sample { .. } => Ok(EntropyEncoder::Samples(Stats::new(alloc, params)?)),
            Coder::Block { .. } => Ok(EntropyEncoder::Blocks(BlockWriter::new(params))),
        }
    }

    /// Takes the next residual, number `t` of band `z`, and appends the bits of the body that it completes.
    ///
    /// The residual is at most 2^D - 1, and fewer were taken than there are samples. Returns `WantOfMemory` if an
    /// allocation fails; then nothing was changed. The block-adaptive coder allocates only where the residual ends a
    /// block.
    #[inline(always)]
    pub fn put(&mut self, z: u32, t: u64, delta: u16, writer: &mut BitWriter) -> Result<(), Fault>
        requires { MayPut self.old z delta }
        ensures taken { OnOk result (PutsResidual z t delta self.old writer.old.bits self.new writer.new.bits) }
        ensures same { OnErr result ((self.new ≡ self.old) × (writer.new.bits ≡ writer.old.bits)) }
        ensures refused { IfErr result (λ e. e ≡ WantOfMemory) }
        ensures memory { IfErr result (λ _. MayGrow self.old) }
    {
        match self {
            EntropyEncoder::Samples(stats) => stats.put(z, t, delta, writer),
            EntropyEncoder::Blocks(blocks) => blocks.put(delta, writer),
        }
    }

    /// Returns whether this is the sample-adaptive coder.
    pub fn is_by_samples(&self) -> bool
        ensures samples { IsTrue result → IsBySamples self.now }
        ensures blocks { IsFalse result → IsByBlocks self.now }
    {
        match self {
            EntropyEncoder::Samples(_) => true,
            EntropyEncoder::Blocks(_) => false,
        }
    }

    /// Takes the next residuals, numbers `t`, `t + 1`, .. of band `z`, and appends their code words. The coder is the
    /// sample-adaptive one.
    ///
    /// The residuals are of one row, and each is at most 2^D - 1. Returns `WantOfMemory` if an allocation fails; then
    /// nothing was changed. It succeeds where the writer has room for 48 bits a residual.
    #[inline(always)]
    pub fn put_run(
        &mut self,
        z: u32,
        t: u64,
        run: &[u16],
        writer: &mut BitWriter,
    ) -> Result<(), Fault>
        requires { MayPutRun self.old z t run.now }
        ensures taken { OnOk result (PutsRun z t run.now self.old writer.old.bits self.new writer.new.bits) }
        ensures same { OnErr result ((self.new ≡ self.old) × (writer.new.bits ≡ writer.old.bits)) }
        ensures within { 48 * length run.now ≤ writer.old.room → IsOk result }
        ensures refused { IfErr result (λ e. e ≡ WantOfMemory) }
    {
        match self {
            EntropyEncoder::Samples(stats) => stats.put_run(z, t, run, writer),
            EntropyEncoder::Blocks(_) => unreachable!(),
        }
    }

    /// Takes the next residuals, number `t` of band `z`, of the next band, and so on, and appends their code words. The
    /// coder is the sample-adaptive one.
    ///
    /// Each residual is at most 2^D - 1. Returns `WantOfMemory` if an allocation fails; then nothing was changed. It
    /// succeeds where the writer has room for 48 bits a residual.
    #[inline(always)]
    pub fn put_column(
        &mut self,
        z: u32,
        t: u64,
        column: &[u16],
        writer: &mut BitWriter,
    ) -> Result<(), Fault>
        requires { MayPutColumn self.old z column.now }
        ensures taken { OnOk result (PutsColumn z t column.now self.old writer.old.bits self.new writer.new.bits) }
        ensures same { OnErr result ((self.new ≡ self.old) × (writer.new.bits ≡ writer.old.bits)) }
        ensures within { 48 * length column.now ≤ writer.old.room → IsOk result }
        ensures refused { IfErr result (λ e. e ≡ WantOfMemory) }
    {
        match self {
            EntropyEncoder::Samples(stats) => stats.put_column(z, t, column, writer),
            EntropyEncoder::Blocks(_) => unreachable!(),
        }
    }

    /// Takes the next residuals, and appends the bits of the body that they complete. The coder is the block-adaptive
    /// one. Returns how many were taken: fewer than all only where the next one ends a block for which an allocation
    /// failed.
    ///
    /// Each residual is at most 2^D - 1, and together no more are taken than there are samples.
    #[inline(always)]
    pub fn put_blocks(&mut self, residuals: &[u16], writer: &mut BitWriter) -> usize
        requires { MayPutBlocks self.old residuals.now }
        ensures taken { PutsBlocks (take result residuals.now) self.old writer.old.bits self.new writer.new.bits }
        ensures most { result ≤ length residuals.now }
        ensures memory { result < length residuals.now → MayGrow self.new }
    {
        match self {
            EntropyEncoder::Samples(_) => unreachable!(),
            EntropyEncoder::Blocks(blocks) => blocks.put_all(residuals, writer),
        }
    }

    /// Ends the body, once all residuals were taken: appends the last block, if it isn't full.
    ///
    /// Returns `WantOfMemory` if an allocation fails; then nothing was changed. Only the block-adaptive coder
    /// allocates, where the residuals end within a block.
    pub fn end(&mut self, writer: &mut BitWriter) -> Result<(), Fault>
        ensures ended { OnOk result (EndsBody self.old writer.old.bits writer.new.bits) }
        ensures same { OnErr result ((self.new ≡ self.old) × (writer.new.bits ≡ writer.old.bits)) }
        ensures refused { IfErr result (λ e. e ≡ WantOfMemory) }
        ensures memory { IfErr result (λ _. MayGrowAtEnd self.old) }
    {
        match self {
            EntropyEncoder::Samples(_) => Ok(()),
            EntropyEncoder::Blocks(blocks) => blocks.end(writer),
        }
    }
}
