//! Segments, in one of which each run of zero blocks stays (CCSDS 121.0-B, "Zero-block option").

ghost use Rattle.std.specs.Prelude.{◌≡◌, ◌^◌, ◌≤◌};
ghost use Rattle.cube_core.specs.Shape.{InRange};
ghost use Rattle.block_adaptive.specs.Positions.{IsPosition, blocks_from};
ghost use Rattle.block_adaptive.specs.Segments.{segment_count};
ghost use Rattle.block_adaptive.specs.Settings.{IsSize};

/// Returns the number of segments into which the blocks of `samples` numbers are cut. It allocates nothing.
///
/// `samples` is 1 to 2^48, and `size`, the numbers in a block, 8, 16, 32 or 64. After every `reference` blocks,
/// 1 to 4096, segments of 64 blocks begin anew.
pub fn segment_count(samples: u64, size: u32, reference: u32) -> u64
    requires samples { InRange 1 (2 ^ 48) samples }
    requires size { IsSize size }
    requires reference { InRange 1 4096 reference }
    ensures { result ≡ segment_count samples size reference }
{
    let blocks = samples.div_ceil(u64::from(size));
    let interval = u64::from(reference);
    blocks / interval * interval.div_ceil(64) + (blocks % interval).div_ceil(64)
}

/// The position of a block among the others.
#[derive(Clone, Copy, Drop)]
pub(crate) struct Position {
    /// r: after every `reference` blocks segments of 64 begin anew.
    pub(crate) reference: u32,
    /// The number of all blocks.
    pub(crate) count: u64,
    /// The index of the block.
    pub(crate) block: u64,
}

/// Returns how many blocks there are from this block on, including it, to the end of its segment.
#[tactic(auto, unfolding(crate::specs::Segments::segment_rest))]
pub(crate) fn blocks_left(position: &Position) -> u32
    requires { IsPosition position.now }
    ensures value { result ≡ blocks_from position.now }
    ensures least { 1 ≤ result }
    ensures most { result ≤ 64 }
{
    let inside = (position.block % u64::from(position.reference)) as u32;
    let near = (64 - inside % 64).min(position.reference - inside);
    (position.count - position.block).min(near as u64) as u32
}
