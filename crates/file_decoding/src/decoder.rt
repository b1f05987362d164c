//! The entropy coder of an image, either of the two, as it reads: it gives the residuals in encoding order.

ghost use Rattle.std.specs.Prelude.{◌≡◌, ◌+◌, ◌^◌, ◌<◌, ◌≤◌, ℕ, [], length, IsOk, IfOk, IfErr};
ghost use Rattle.cube_core.specs.declared.fault.Fault.TheVariants.{WantOfMemory};
ghost use Rattle.header_bits.specs.Lawful.{IsLawful};
ghost use Rattle.block_adaptive.specs.Settings.{IsBlock};
ghost use Rattle.block_adaptive.specs.Given.{given_count};
ghost use Rattle.block_adaptive.specs.DataSets.{capacity};
ghost use Rattle.file_decoding.specs.declared.decoder.EntropyDecoder.TheVariants.{Blocks};
ghost use Rattle.file_decoding.specs.Decoding.{HasGiven, MayAskAll, MayAskColumn, GivesEach, GivesRun, GivesColumn};

use block_adaptive::block_reader::BlockReader;
use cube_core::fault::Fault;
use header_bits::bit_reader::BitReader;
use header_bits::params::{Coder, Params};
use sample_adaptive::stats::Stats;
use std::alloc::Global;

/// The entropy coder that an image's parameters name, as it reads.
#[derive(Drop)]
pub enum EntropyDecoder {
    Samples(Stats),
    Blocks(BlockReader),
}

impl EntropyDecoder {
    /// Returns the coder of an image, which has returned no residual.
    ///
    /// Returns `WantOfMemory` if the statistics of all bands can't be allocated; the block-adaptive coder allocates
    /// nothing.
    pub fn new(alloc: Global, params: &Params) -> Result<EntropyDecoder, Fault>
        requires { IsLawful params.now }
        ensures given { IfOk result (λ coder. HasGiven params.now coder [] []) }
        ensures refused { IfErr result (λ e. e ≡ WantOfMemory) }
        ensures blocks { IsBlock params.now.coder → IsOk result }
    {
        match params.coder {
            Coder::Sample { .. } => Ok(EntropyDecoder::Samples(Stats::new(alloc, params)?)),
            Coder::Block { .. } => Ok(EntropyDecoder::Blocks(BlockReader::new(params))),
        }
    }

    /// Writes the next residuals of the body to `deltas`: numbers `t`, `t + 1`, .. of band `z`. The first is at `index`
    /// in encoding order.
    ///
    /// They are of one row, at least one and at most 64. Where the bits encode fewer, it returns the first fault of the
    /// body; the reader's position, the coder and `deltas` are then unspecified. It allocates nothing.
    #[inline]
    pub fn next_run(
        &mut self,
        z: u32,
        t: u64,
        index: u64,
        reader: &mut BitReader,
        deltas: &mut [u16],
    ) -> Result<(), Fault>
        requires may { MayAskAll self.old z t index (length deltas.old) }
        requires small { (1 ≤ length deltas.old) × (length deltas.old ≤ 64) × (index < 2 ^ 48) }
        ensures given { GivesRun z t index result self.old reader.old self.new reader.new.left deltas.new }
        ensures count { reader.new.count ≡ reader.old.count }
        ensures long { length deltas.new ≡ length deltas.old }
    {
        match self {
            EntropyDecoder::Samples(stats) => stats.get_run(z, t, index, reader, deltas),
            EntropyDecoder::Blocks(blocks) => next_of_blocks(blocks, reader, deltas),
        }
    }

    /// Writes the next residuals of the body to `deltas`: number `t` of band `z`, then that of the next band, and so on.
    /// The first is at `index` in encoding order.
    ///
    /// They are of one row and column, at least one and at most 65,536. Where the bits encode fewer, it returns the first
    /// fault of the body; the reader's position, the coder and `deltas` are then unspecified. It allocates nothing.
    #[inline]
    pub fn next_column(
        &mut self,
        z: u32,
        t: u64,
        index: u64,
        reader: &mut BitReader,
        deltas: &mut [u16],
    ) -> Result<(), Fault>
        requires may { MayAskColumn self.old z t index (length deltas.old) }
        requires small { (1 ≤ length deltas.old) × (length deltas.old ≤ 2 ^ 16) × (index < 2 ^ 48) }
        ensures given { GivesColumn z t index result self.old reader.old self.new reader.new.left deltas.new }
        ensures count { reader.new.count ≡ reader.old.count }
        ensures long { length deltas.new ≡ length deltas.old }
    {
        match self {
            EntropyDecoder::Samples(stats) => stats.get_column(z, t, index, reader, deltas),
            EntropyDecoder::Blocks(blocks) => next_of_blocks(blocks, reader, deltas),
        }
    }
}

/// Writes the next residuals of a body of blocks to `deltas`.
fn next_of_blocks(
    blocks: &mut BlockReader,
    reader: &mut BitReader,
    deltas: &mut [u16],
) -> Result<(), Fault>
    requires may { given_count blocks.old + length deltas.old ≤ capacity blocks.old.cut }
    ensures given { (zs ts : ℕ → ℕ) (index : ℕ) → GivesEach zs ts index result (Blocks blocks.old) reader.old (Blocks blocks.new) reader.new.left deltas.new }
    ensures count { reader.new.count ≡ reader.old.count }
    ensures long { length deltas.new ≡ length deltas.old }
{
    blocks.next_run(reader, deltas)
}
