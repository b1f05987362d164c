//! What lanes of 32 bits have found.

ghost use Rattle.std.specs.Prelude.{◌≡◌, ◌*◌, ◌<◌, ◌≤◌, ℕ, pos, ◌≤ℤ◌, [], take, slice_index, slice_index_or};
ghost use Rattle.lanes.specs.Lanes.{lane, place};
ghost use Rattle.band_lanes.specs.Rows.{weights_of};
ghost use Rattle.wave_inversion.specs.Wave.{AreOffsetRows, AreOffsets, kept_long_rows};
ghost use Rattle.wave_inversion.specs.WaveRows.{without_sign};
ghost use Rattle.wave_inversion.specs.WaveTiles.{AreCollected, offset_in, rows_at_end};

use crate::long::room::{LongWaveRoom, LongWeightRows};
use crate::long::weights::take_weights;
use band_lanes::pairs::MOST_PAIRS;
use lanes::turn::turn_back;
use sample_prediction::predictor::MOST_COMPONENTS;

/// Collects what eight lanes have found. The first ones, so many as `lanes`, came to the end of the row before the last step: their weights
/// are those that were kept.
pub(crate) fn collect<const Q: usize>(lanes: usize, room: &mut LongWaveRoom)
    requires few { Q ≤ 9 }
    requires numbers_in { AreOffsetRows (pos 65535) room.old.numbers }
    ensures { AreCollected Q lanes room.old.numbers (kept_long_rows room.old.ends) room.old.weights room.new.found }
{
    narrow_rows(&room.numbers, &mut room.turned);
    turn_back(&room.turned, &mut room.lines.numbers);
    copy_lines(&room.lines.numbers, &mut room.found.offsets);
    take_ends::<Q>(lanes, &room.ends, &room.weights, &mut room.found.weights);
}

/// Writes the numbers of rows of 32 bits into rows of 16 bits, without a sign.
fn narrow_rows(numbers: &[[i32; 8]; 64], narrow: &mut [[i16; 8]; 64])
    requires { AreOffsetRows (pos 65535) numbers.now }
    ensures { (i b : ℕ) → i < 64 → b < 8 → place numbers.now i b ≡ without_sign (place narrow.new i b) }
{
    for i in 0..64usize {
        let row = narrowed(&numbers[i]);
        narrow[i] = row;
    }
}

/// Returns the numbers of a row of 32 bits in 16 bits, without a sign.
#[inline(always)]
fn narrowed(numbers: &[i32; 8]) -> [i16; 8]
    requires { AreOffsets (pos 65535) numbers.now }
    ensures { (b : ℕ) → b < 8 → lane numbers.now b ≡ without_sign (lane result b) }
{
    let mut row = [0i16; 8];
    for b in 0..8usize {
        row[b] = (numbers[b] as u16).cast_signed();
    }
    row
}

/// Writes the numbers of eight lines of 16 bits, which have no sign.
fn copy_lines(lines: &[[i16; 64]; 8], offsets: &mut [[u16; 64]; 8])
    ensures { (b i : ℕ) → b < 8 → i < 64 → without_sign (place lines.now b i) ≡ pos (offset_in offsets.new b i) }
{
    for b in 0..8usize {
        copy_line(&lines[b], &mut offsets[b]);
    }
}

/// Writes the numbers of a line of 16 bits, which have no sign.
fn copy_line(line: &[i16; 64], offsets: &mut [u16; 64])
    ensures { (i : ℕ) → i < 64 → without_sign (lane line.now i) ≡ pos (slice_index offsets.new i) }
{
    for i in 0..64usize {
        offsets[i] = line[i].cast_unsigned();
    }
}

/// Writes the weights of each lane where it ends.
fn take_ends<const Q: usize>(
    lanes: usize,
    ends: &[LongWeightRows; 8],
    weights: &[[i32; 16]; MOST_PAIRS],
    taken: &mut [[i32; MOST_COMPONENTS]; 8],
)
    requires few { Q ≤ 9 }
    ensures { (b : ℕ) → b < 8 → take (2 * Q) (slice_index_or taken.new b []) ≡ weights_of Q b (rows_at_end lanes (kept_long_rows ends.now) weights.now b) }
{
    for b in 0..8usize {
        let rows = end_of_lane(lanes, ends, weights, b);
        take_weights::<Q>(rows, b, &mut taken[b]);
    }
}

/// Returns the rows that hold the weights of lane `b` where it ends: those that were kept for it, if it is one of the first `lanes`.
fn end_of_lane<'a>(
    lanes: usize,
    ends: &'a [LongWeightRows; 8],
    weights: &'a [[i32; 16]; MOST_PAIRS],
    b: usize,
) -> &'a [[i32; 16]; MOST_PAIRS]
    requires { b < 8 }
    ensures { result.now ≡ rows_at_end lanes (kept_long_rows ends.now) weights.now b }
{
    if b < lanes { &ends[b].rows } else { weights }
}
