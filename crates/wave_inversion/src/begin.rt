//! The steps of a wavefront in one piece of a row, in which one lane after another begins if the piece is the row's first, and ends if it
//! is its last.

ghost use Rattle.std.specs.Prelude.{◌≡◌, ◌≢◌, ◌+◌, ◌^◌, ◌<◌, ◌-◌, ◌*◌, ◌≤◌, ℕ, true, min, length, take};
ghost use Rattle.cube_core.specs.Image.{Image};
ghost use Rattle.header_bits.specs.declared.params.Params.{Params as Parameters};
ghost use Rattle.lanes.specs.Lanes.{lane, place};
ghost use Rattle.band_lanes.specs.Rows.{weights_of};
ghost use Rattle.sample_prediction.specs.Bounds.{AllWithin};
ghost use Rattle.sample_prediction.specs.Chain.{AreWeightsAt};
ghost use Rattle.predict_core.specs.declared.settings.Settings.{Settings as Constants};
ghost use Rattle.wave_inversion.specs.Inversion.{band_at};
ghost use Rattle.wave_inversion.specs.Wave.{AreOffsetRows, AreRowsBelow, kept_rows, AreLowerBelow, lower_of};
ghost use Rattle.wave_inversion.specs.WaveForms.{narrow_form};
ghost use Rattle.wave_inversion.specs.WaveLanes.{AreLanes, AreInStep, AreToBegin, column_at};
ghost use Rattle.wave_inversion.specs.WaveTiles.{lane_count};

use crate::finish::lane_count;
use crate::form::Form;
use crate::room::{WaveRoom, WeightRows};
use crate::steps::{Stretch, invert_places};
use predict_core::band::Band;
use predict_core::lane_weights::put_band;

/// Inverts the prediction of eight bands from step 8 to step `to`, and returns whether 16 bits hold their weights. If not, what the room
/// holds has no meaning.
///
/// Where `origin` is 0, lane b is at column 1 at step 8 + b, and so it begins there.
pub(crate) fn invert_steps<const Q: usize>(
    bands: &[Band],
    first: usize,
    origin: usize,
    to: usize,
    form: Form,
    room: &mut WaveRoom,
) -> bool
    requires few { Q ≤ 9 }
    requires deep { 7 < form.previous → 5 < Q }
    requires some { first < length bands.now }
    requires to { (8 ≤ to) × (to ≤ 63) }
    requires begun { (origin ≡ 0 → 15 ≤ to) × (0 < origin → 7 ≤ origin) }
    requires omega { (b : ℕ) → b < 8 → first + b < length bands.now → form.step.omega ≡ (band_at bands.now (first + b)).predictor.omega }
    requires above_in { AreOffsetRows form.greatest room.old.above }
    requires numbers_in { AreOffsetRows form.greatest room.old.numbers }
    requires lower_in { AreLowerBelow form.previous (2 ^ (form.step.bits + 2)) (lower_of room.old.lower) }
    requires own_in { AreRowsBelow (2 ^ (form.step.bits + 2)) room.old.own }
    requires weights_in { (b : ℕ) → b < 8 → AllWithin (2 ^ (form.step.omega + 2)) (weights_of Q b room.old.weights) }
    ensures above { result ≡ true → room.new.above ≡ room.old.above }
    ensures lower { result ≡ true → room.new.lower ≡ room.old.lower }
    ensures numbers_in { result ≡ true → AreOffsetRows form.greatest room.new.numbers }
    ensures own_in { result ≡ true → AreRowsBelow (2 ^ (form.step.bits + 2)) room.new.own }
    ensures weights_in { result ≡ true → (b : ℕ) → b < 8 → AllWithin (2 ^ (form.step.omega + 2)) (weights_of Q b room.new.weights) }
    ensures inverted { result ≡ true → (p : Parameters) (s : ℕ → Constants) (d : Image) (y last : ℕ)
        → AreLanes Q (narrow_form form) p s d first y origin last room.old.above (lower_of room.old.lower) → to ≤ last
        → (origin ≡ 0 → AreToBegin Q p s d first y bands.now room.old.numbers)
        → AreInStep Q p s d first y origin last (min 8 (origin + 1)) 8 room.old.numbers room.old.own room.old.weights
        → AreInStep Q p s d first y origin last 8 to room.new.numbers room.new.own room.new.weights }
{
    if origin > 0 {
        invert_by::<Q>(form, Stretch { from: 8, to }, room);
        return true;
    }
    if !begin_lanes::<Q>(bands, first, form, room) {
        return false;
    }
    let from = 7 + lane_count(bands, first);
    invert_by::<Q>(form, Stretch { from, to }, room);
    true
}

/// Inverts the prediction of the lanes that have begun, from step 8 on, as one after another begins at column 1, until all that have a band
/// have begun.
///
/// A lane that is still to begin has steps without meaning: right before its first one it gets its weights, and the offset at column 0.
fn begin_lanes<const Q: usize>(
    bands: &[Band],
    first: usize,
    form: Form,
    room: &mut WaveRoom,
) -> bool
    requires few { Q ≤ 9 }
    requires deep { 7 < form.previous → 5 < Q }
    requires some { first < length bands.now }
    requires omega { (b : ℕ) → b < 8 → first + b < length bands.now → form.step.omega ≡ (band_at bands.now (first + b)).predictor.omega }
    requires above_in { AreOffsetRows form.greatest room.old.above }
    requires numbers_in { AreOffsetRows form.greatest room.old.numbers }
    requires lower_in { AreLowerBelow form.previous (2 ^ (form.step.bits + 2)) (lower_of room.old.lower) }
    requires own_in { AreRowsBelow (2 ^ (form.step.bits + 2)) room.old.own }
    requires weights_in { (b : ℕ) → b < 8 → AllWithin (2 ^ (form.step.omega + 2)) (weights_of Q b room.old.weights) }
    ensures above { result ≡ true → room.new.above ≡ room.old.above }
    ensures lower { result ≡ true → room.new.lower ≡ room.old.lower }
    ensures numbers_in { result ≡ true → AreOffsetRows form.greatest room.new.numbers }
    ensures own_in { result ≡ true → AreRowsBelow (2 ^ (form.step.bits + 2)) room.new.own }
    ensures weights_in { result ≡ true → (b : ℕ) → b < 8 → AllWithin (2 ^ (form.step.omega + 2)) (weights_of Q b room.new.weights) }
    ensures inverted { result ≡ true → (p : Parameters) (s : ℕ → Constants) (d : Image) (y last : ℕ)
        → AreLanes Q (narrow_form form) p s d first y 0 last room.old.above (lower_of room.old.lower) → 15 ≤ last → AreToBegin Q p s d first y bands.now room.old.numbers
        → AreInStep Q p s d first y 0 last 1 8 room.old.numbers room.old.own room.old.weights
        → AreInStep Q p s d first y 0 last (lane_count bands.now first) (7 + lane_count bands.now first) room.new.numbers room.new.own room.new.weights }
{
    let start = room.numbers;
    let many = lane_count(bands, first);
    for b in 1..many {
        let step = Stretch {
            from: 7 + b,
            to: 8 + b,
        };
        invert_by::<Q>(form, step, room);
        let z = first + b;
        if !put_band::<Q>(&bands[z], b, &mut room.weights) {
            return false;
        }
        put_back(&start, 7 + b, b, &mut room.numbers);
    }
    true
}

/// Inverts the prediction of eight lanes from step `from` to step `last`. Before step `from + b` lane b comes to the end of the row.
///
/// There its weights are kept, since its further steps have no meaning.
pub(crate) fn end_lanes<const Q: usize>(form: Form, from: usize, last: usize, room: &mut WaveRoom)
    requires few { Q ≤ 9 }
    requires deep { 7 < form.previous → 5 < Q }
    requires steps { (8 ≤ from) × (from ≤ last) × (last ≤ 63) × (last ≤ from + 8) }
    requires above_in { AreOffsetRows form.greatest room.old.above }
    requires numbers_in { AreOffsetRows form.greatest room.old.numbers }
    requires lower_in { AreLowerBelow form.previous (2 ^ (form.step.bits + 2)) (lower_of room.old.lower) }
    requires own_in { AreRowsBelow (2 ^ (form.step.bits + 2)) room.old.own }
    requires weights_in { (b : ℕ) → b < 8 → AllWithin (2 ^ (form.step.omega + 2)) (weights_of Q b room.old.weights) }
    ensures numbers_in { AreOffsetRows form.greatest room.new.numbers }
    ensures weights_in { (b : ℕ) → b < 8 → AllWithin (2 ^ (form.step.omega + 2)) (weights_of Q b room.new.weights) }
    ensures ends_in { (b : ℕ) → b < last - from → AllWithin (2 ^ (form.step.omega + 2)) (weights_of Q b (kept_rows room.new.ends b)) }
    ensures inverted { (p : Parameters) (s : ℕ → Constants) (d : Image) (first y origin : ℕ)
        → AreLanes Q (narrow_form form) p s d first y origin last room.old.above (lower_of room.old.lower) → 15 ≤ origin + from
        → AreInStep Q p s d first y origin last 8 from room.old.numbers room.old.own room.old.weights
        → AreInStep Q p s d first y origin last 8 last room.new.numbers room.new.own room.new.weights }
    ensures kept { (p : Parameters) (s : ℕ → Constants) (d : Image) (first y origin : ℕ)
        → AreLanes Q (narrow_form form) p s d first y origin last room.old.above (lower_of room.old.lower) → 15 ≤ origin + from
        → AreInStep Q p s d first y origin last 8 from room.old.numbers room.old.own room.old.weights
        → (b : ℕ) → b < last - from → first + b < d.shape.bands → column_at origin (from + b) b ≤ d.shape.columns
        → AreWeightsAt p (s b).predictor d (first + b) (y * d.shape.columns + column_at origin (from + b) b) (take (s b).count (weights_of Q b (kept_rows room.new.ends b))) }
{
    for b in 0..last - from {
        room.ends[b] = WeightRows { rows: room.weights };
        let step = Stretch {
            from: from + b,
            to: from + b + 1,
        };
        invert_by::<Q>(form, step, room);
    }
}

/// Writes number `b` of row `i` as it was.
fn put_back(start: &[[i16; 8]; 64], i: usize, b: usize, numbers: &mut [[i16; 8]; 64])
    requires row { i < 64 }
    requires lane { b < 8 }
    ensures here { place numbers.new i b ≡ place start.now i b }
    ensures rows { (k c : ℕ) → k ≢ i → place numbers.new k c ≡ place numbers.old k c }
    ensures lanes { (k c : ℕ) → c ≢ b → place numbers.new k c ≡ place numbers.old k c }
{
    set_number(start[i][b], b, &mut numbers[i]);
}

/// Writes number `b` of a row.
#[inline(always)]
fn set_number(number: i16, b: usize, row: &mut [i16; 8])
    requires { b < 8 }
    ensures here { lane row.new b ≡ number }
    ensures others { (c : ℕ) → c ≢ b → lane row.new c ≡ lane row.old c }
{
    row[b] = number;
}

/// `invert_places` by the form that a step asks for.
fn invert_by<const Q: usize>(form: Form, stretch: Stretch, room: &mut WaveRoom)
    requires few { Q ≤ 9 }
    requires deep { 7 < form.previous → 5 < Q }
    requires above_in { AreOffsetRows form.greatest room.old.above }
    requires numbers_in { AreOffsetRows form.greatest room.old.numbers }
    requires lower_in { AreLowerBelow form.previous (2 ^ (form.step.bits + 2)) (lower_of room.old.lower) }
    requires own_in { AreRowsBelow (2 ^ (form.step.bits + 2)) room.old.own }
    requires weights_in { (b : ℕ) → b < 8 → AllWithin (2 ^ (form.step.omega + 2)) (weights_of Q b room.old.weights) }
    ensures above { room.new.above ≡ room.old.above }
    ensures lower { room.new.lower ≡ room.old.lower }
    ensures ends { room.new.ends ≡ room.old.ends }
    ensures numbers_in { AreOffsetRows form.greatest room.new.numbers }
    ensures own_in { AreRowsBelow (2 ^ (form.step.bits + 2)) room.new.own }
    ensures weights_in { (b : ℕ) → b < 8 → AllWithin (2 ^ (form.step.omega + 2)) (weights_of Q b room.new.weights) }
    ensures inverted { (p : Parameters) (s : ℕ → Constants) (d : Image) (first y origin last n : ℕ)
        → AreLanes Q (narrow_form form) p s d first y origin last room.old.above (lower_of room.old.lower)
        → stretch.to ≤ last → (n ≤ 8) × (n + 7 ≤ origin + stretch.from)
        → AreInStep Q p s d first y origin last n stretch.from room.old.numbers room.old.own room.old.weights
        → AreInStep Q p s d first y origin last n stretch.to room.new.numbers room.new.own room.new.weights }
{
    let (above, lower) = (&room.above, &room.lower);
    let (numbers, own) = (&mut room.numbers, &mut room.own);
    let (pairs, weights) = (&mut room.pairs, &mut room.weights);
    if form.step.exponent < 0 {
        if form.step.omega < 13 {
            invert_places::<Q, true, true>(
                form, stretch, above, lower, numbers, own, pairs, weights,
            );
        } else {
            invert_places::<Q, true, false>(
                form, stretch, above, lower, numbers, own, pairs, weights,
            );
        }
    } else if form.step.omega < 13 {
        invert_places::<Q, false, true>(form, stretch, above, lower, numbers, own, pairs, weights);
    } else {
        invert_places::<Q, false, false>(form, stretch, above, lower, numbers, own, pairs, weights);
    }
}
