//! Advancing a band's predictor by a run whose mapped residuals are known, and whose samples aren't yet.

ghost use Rattle.std.specs.Prelude.{◌≡◌, ◌+◌, ◌*◌, ◌^◌, ◌<◌, ◌≤◌, false, ℕ, take, length, slice_index};
ghost use Rattle.cube_core.specs.Image.{IsPlace, put};
ghost use Rattle.header_bits.specs.declared.params.Params.{Params as Parameters};
ghost use Rattle.sample_prediction.specs.Bounds.{AllWithin};
ghost use Rattle.sample_prediction.specs.Chain.{AreWeightsAt};
ghost use Rattle.sample_prediction.specs.Prediction.{weight_vector};
ghost use Rattle.sample_prediction.specs.Residual.{mapped_residual, run_residuals};
ghost use Rattle.predict_core.specs.RunPlaces.{AreAlikeBeside};
ghost use Rattle.predict_core.specs.Following.{Follows, MovesOn, MovesBy};

use crate::band::Band;
use crate::inverse::chain::{ResidualRun, invert_places};
use crate::run::PIECE;
use crate::settings::Settings;
use core::mem::replace_with;
use cube_core::cube::Cube;
use sample_prediction::predictor::MOST_COMPONENTS;

impl Band {
    /// Writes the samples of a run whose mapped residuals are `deltas` into the cube, and advances by as many
    /// places.
    ///
    /// A run has at most 64 places. Its first place is the next one, row `y`, column `x`, and all of them are
    /// in that row. The cube has the shape and kind of the parameters, and each residual is at most 2^D - 1.
    /// The cube's samples at these places and later ones are not read, and no other sample is written
    /// (CCSDS 123.0-B-1, "Predictor"). The band holds its last piece as before.
    pub fn inverse_run(&mut self, cube: &mut Cube, y: u32, x: u32, deltas: &[u16])
        requires shape { cube.old.shape ≡ self.old.shape }
        requires kind { cube.old.kind ≡ self.old.kind }
        requires place { IsPlace cube.old.shape self.old.band y x }
        requires few { length deltas.now ≤ 64 }
        requires inside { x + length deltas.now ≤ cube.old.shape.columns }
        requires next { self.old.t ≡ y * cube.old.shape.columns + x }
        requires residuals_in { (i : ℕ) → i < length deltas.now → slice_index deltas.now i < 2 ^ cube.old.kind.bits }
        ensures moved { MovesBy (length deltas.now) self.old self.new }
        ensures held { self.new.piece ≡ self.old.piece }
        ensures beside { AreAlikeBeside cube.old cube.new self.old.band y x (length deltas.now) }
        ensures residuals { (p : Parameters) → Follows p self.old cube.old → run_residuals p cube.new self.old.band self.old.t (length deltas.now)
            ≡ deltas.now }
        ensures follows { (p : Parameters) → Follows p self.old cube.old → Follows p self.new cube.new }
    {
        cube.prove_is_cube();
        if self.next == 0 {
            self.inverse_each(cube, y, x, deltas);
            return;
        }
        self.next += deltas.len() as u64;
        let wraps = self.settings.predictor.register < 46;
        if wraps {
            invert_run::<true>(&self.settings, cube, y, x, &mut self.weights, deltas);
        } else {
            invert_run::<false>(&self.settings, cube, y, x, &mut self.weights, deltas);
        }
    }

    /// `inverse_run`, one place after another.
    // Kept out of `inverse_run`, it leaves the registers to `invert_run`.
    #[inline(never)]
    fn inverse_each(&mut self, cube: &mut Cube, y: u32, x: u32, deltas: &[u16])
        requires shape { cube.old.shape ≡ self.old.shape }
        requires kind { cube.old.kind ≡ self.old.kind }
        requires place { IsPlace cube.old.shape self.old.band y x }
        requires few { length deltas.now ≤ PIECE }
        requires inside { x + length deltas.now ≤ cube.old.shape.columns }
        requires next { self.old.t ≡ y * cube.old.shape.columns + x }
        requires residuals_in { (i : ℕ) → i < length deltas.now → slice_index deltas.now i < 2 ^ cube.old.kind.bits }
        ensures moved { MovesBy (length deltas.now) self.old self.new }
        ensures held { self.new.piece ≡ self.old.piece }
        ensures beside { AreAlikeBeside cube.old cube.new self.old.band y x (length deltas.now) }
        ensures residuals { (p : Parameters) → Follows p self.old cube.old → run_residuals p cube.new self.old.band self.old.t (length deltas.now)
            ≡ deltas.now }
        ensures follows { (p : Parameters) → Follows p self.old cube.old → Follows p self.new cube.new }
    {
        cube.prove_is_cube();
        // Only the proof needs this: the columns are the cube's.
        let _columns = self.settings.columns;
        for i in 0..deltas.len() {
            let column = x + i as u32;
            self.inverse_into(cube, y, column, deltas[i]);
        }
    }

    /// Writes the sample at the next place whose mapped residual is `delta` into the cube, as `inverse` finds it, and
    /// returns it.
    pub fn inverse_into(&mut self, cube: &mut Cube, y: u32, x: u32, delta: u16) -> i32
        requires shape { cube.old.shape ≡ self.old.shape }
        requires kind { cube.old.kind ≡ self.old.kind }
        requires place { IsPlace cube.old.shape self.old.band y x }
        requires next { self.old.t ≡ y * cube.old.shape.columns + x }
        requires residual { delta < 2 ^ cube.old.kind.bits }
        ensures moved { MovesOn self.old self.new }
        ensures held { self.new.piece ≡ self.old.piece }
        ensures written { cube.new ≡ put cube.old self.old.band y x result }
        ensures residual { (p : Parameters) → Follows p self.old cube.old → mapped_residual p cube.new self.old.band self.old.t ≡ delta }
        ensures follows { (p : Parameters) → Follows p self.old cube.old → Follows p self.new cube.new }
    {
        let band = self.settings.band;
        let sample = self.inverse(cube, y, x, delta);
        cube.set(band, y, x, sample);
        sample
    }
}

/// Writes the samples of a run that doesn't begin its band, and updates the weights. `WRAPS` may be false only if the register has
/// 46 bits or more and so never wraps.
///
/// The number of weights is found once, so that the compiler knows it in the loop over places.
fn invert_run<const WRAPS: bool>(
    settings: &Settings,
    cube: &mut Cube,
    y: u32,
    x: u32,
    weights: &mut [i32; MOST_COMPONENTS],
    deltas: &[u16],
)
    requires register { WRAPS ≡ false → 46 ≤ settings.now.predictor.register }
    requires later { 0 < y + x }
    requires place { IsPlace cube.old.shape settings.now.band y x }
    requires columns { cube.old.shape.columns ≡ settings.now.columns }
    requires kind { cube.old.kind ≡ settings.now.range.kind }
    requires inside { x + length deltas.now ≤ cube.old.shape.columns }
    requires residuals_in { (i : ℕ) → i < length deltas.now → slice_index deltas.now i < 2 ^ cube.old.kind.bits }
    requires weights_in { AllWithin (2 ^ (settings.now.predictor.omega + 2)) weights.old }
    ensures beside { AreAlikeBeside cube.old cube.new settings.now.band y x (length deltas.now) }
    ensures residuals { (p : Parameters) → AreWeightsAt p settings.now.predictor cube.old settings.now.band (y * cube.old.shape.columns + x)
        (take settings.now.count weights.old) → run_residuals p cube.new settings.now.band (y * cube.old.shape.columns + x) (length deltas.now) ≡ deltas.now }
    ensures weights { (p : Parameters) → AreWeightsAt p settings.now.predictor cube.old settings.now.band (y * cube.old.shape.columns + x)
        (take settings.now.count weights.old) → take settings.now.count weights.new ≡ weight_vector p cube.new settings.now.band (y * cube.old.shape.columns
        + x + length deltas.now) }
    ensures within { AllWithin (2 ^ (settings.now.predictor.omega + 2)) weights.new }
{
    let count = settings.count;
    if count == 0 {
        invert_by::<0, WRAPS>(settings, cube, y, x, weights, deltas);
    } else if count <= 4 {
        invert_by::<4, WRAPS>(settings, cube, y, x, weights, deltas);
    } else if count <= 8 {
        invert_by::<8, WRAPS>(settings, cube, y, x, weights, deltas);
    } else if count <= 12 {
        invert_by::<12, WRAPS>(settings, cube, y, x, weights, deltas);
    } else if count <= 16 {
        invert_by::<16, WRAPS>(settings, cube, y, x, weights, deltas);
    } else {
        invert_by::<MOST_COMPONENTS, WRAPS>(settings, cube, y, x, weights, deltas);
    }
}

/// `invert_run` with `N` weights.
// One for each number of weights, so that each keeps its registers.
#[inline(never)]
fn invert_by<const N: usize, const WRAPS: bool>(
    settings: &Settings,
    cube: &mut Cube,
    y: u32,
    x: u32,
    weights: &mut [i32; MOST_COMPONENTS],
    deltas: &[u16],
)
    requires few_weights { N ≤ 18 }
    requires enough { settings.now.count ≤ N }
    requires register { WRAPS ≡ false → 46 ≤ settings.now.predictor.register }
    requires later { 0 < y + x }
    requires place { IsPlace cube.old.shape settings.now.band y x }
    requires columns { cube.old.shape.columns ≡ settings.now.columns }
    requires kind { cube.old.kind ≡ settings.now.range.kind }
    requires inside { x + length deltas.now ≤ cube.old.shape.columns }
    requires residuals_in { (i : ℕ) → i < length deltas.now → slice_index deltas.now i < 2 ^ cube.old.kind.bits }
    requires weights_in { AllWithin (2 ^ (settings.now.predictor.omega + 2)) weights.old }
    ensures beside { AreAlikeBeside cube.old cube.new settings.now.band y x (length deltas.now) }
    ensures residuals { (p : Parameters) → AreWeightsAt p settings.now.predictor cube.old settings.now.band (y * cube.old.shape.columns + x)
        (take settings.now.count weights.old) → run_residuals p cube.new settings.now.band (y * cube.old.shape.columns + x) (length deltas.now) ≡ deltas.now }
    ensures weights { (p : Parameters) → AreWeightsAt p settings.now.predictor cube.old settings.now.band (y * cube.old.shape.columns + x)
        (take settings.now.count weights.old) → take settings.now.count weights.new ≡ weight_vector p cube.new settings.now.band (y * cube.old.shape.columns
        + x + length deltas.now) }
    ensures within { AllWithin (2 ^ (settings.now.predictor.omega + 2)) weights.new }
{
    cube.prove_is_cube();
    let run = ResidualRun {
        settings,
        y,
        x,
        weights: *weights,
        deltas,
    };
    *weights = replace_with(cube, run, invert_places::<N, WRAPS>);
}
