//! What lanes of 16 bits have found.

ghost use Rattle.std.specs.Prelude.{◌≡◌, ◌*◌, ◌<◌, ◌≤◌, ℕ, pos, ◌≤ℤ◌, [], take, slice_index, slice_index_or};
ghost use Rattle.lanes.specs.Lanes.{lane, place};
ghost use Rattle.band_lanes.specs.Rows.{weights_of};
ghost use Rattle.wave_inversion.specs.Wave.{kept_rows};
ghost use Rattle.wave_inversion.specs.WaveTiles.{AreCollected, offset_in, rows_at_end};

use crate::room::{WaveRoom, WeightRows};
use band_lanes::pairs::MOST_PAIRS;
use lanes::turn::turn_back;
use predict_core::lane_weights::take_weights;
use sample_prediction::predictor::MOST_COMPONENTS;

/// Collects what eight lanes have found. The first ones, so many as `lanes`, came to the end of the row before the last step: their weights
/// are those that were kept.
pub(crate) fn collect<const Q: usize>(lanes: usize, room: &mut WaveRoom)
    requires few { Q ≤ 9 }
    requires numbers_in { (i b : ℕ) → i < 64 → b < 8 → pos 0 ≤ℤ place room.old.numbers i b }
    ensures { AreCollected Q lanes room.old.numbers (kept_rows room.old.ends) room.old.weights room.new.found }
{
    turn_back(&room.numbers, &mut room.lines.numbers);
    copy_lines(&room.lines.numbers, &mut room.found.offsets);
    take_ends::<Q>(lanes, &room.ends, &room.weights, &mut room.found.weights);
}

/// Writes the numbers of eight lines.
fn copy_lines(lines: &[[i16; 64]; 8], offsets: &mut [[u16; 64]; 8])
    requires { (b i : ℕ) → b < 8 → i < 64 → pos 0 ≤ℤ place lines.now b i }
    ensures { (b i : ℕ) → b < 8 → i < 64 → place lines.now b i ≡ pos (offset_in offsets.new b i) }
{
    for b in 0..8usize {
        copy_line(&lines[b], &mut offsets[b]);
    }
}

/// Writes the numbers of a line.
fn copy_line(line: &[i16; 64], offsets: &mut [u16; 64])
    requires { (i : ℕ) → i < 64 → pos 0 ≤ℤ lane line.now i }
    ensures { (i : ℕ) → i < 64 → lane line.now i ≡ pos (slice_index offsets.new i) }
{
    for i in 0..64usize {
        offsets[i] = line[i] as u16;
    }
}

/// Writes the weights of each lane where it ends.
fn take_ends<const Q: usize>(
    lanes: usize,
    ends: &[WeightRows; 8],
    weights: &[[i16; 16]; MOST_PAIRS],
    taken: &mut [[i32; MOST_COMPONENTS]; 8],
)
    requires few { Q ≤ 9 }
    ensures { (b : ℕ) → b < 8 → take (2 * Q) (slice_index_or taken.new b []) ≡ weights_of Q b (rows_at_end lanes (kept_rows ends.now) weights.now b) }
{
    for b in 0..8usize {
        let rows = end_of_lane(lanes, ends, weights, b);
        take_weights::<Q>(rows, b, &mut taken[b]);
    }
}

/// Returns the rows that hold the weights of lane `b` where it ends: those that were kept for it, if it is one of the first `lanes`.
fn end_of_lane<'a>(
    lanes: usize,
    ends: &'a [WeightRows; 8],
    weights: &'a [[i16; 16]; MOST_PAIRS],
    b: usize,
) -> &'a [[i16; 16]; MOST_PAIRS]
    requires { b < 8 }
    ensures { result.now ≡ rows_at_end lanes (kept_rows ends.now) weights.now b }
{
    if b < lanes { &ends[b].rows } else { weights }
}
