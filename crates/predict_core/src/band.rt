//! The predictor of one band.

ghost use Rattle.std.specs.Prelude.{◌≡◌, ◌+◌, ◌*◌, ◌^◌, ◌<◌, ◌≤◌, IsOk, IfOk, if◌then◌else◌, take};
ghost use Rattle.cube_core.specs.Image.{Image, IsPlace, sample_at, put};
ghost use Rattle.cube_core.specs.Kind.{IsSample};
ghost use Rattle.header_bits.specs.Lawful.{IsLawful};
ghost use Rattle.header_bits.specs.declared.params.Params.{Params as Parameters};
ghost use Rattle.sample_prediction.specs.Predictor.{component_count};
ghost use Rattle.sample_prediction.specs.Prediction.{scaled_there, next_weights, first_scaled as first_prediction};
ghost use Rattle.sample_prediction.specs.Residual.{mapped, mapped_residual};
ghost use Rattle.sample_prediction.specs.Bounds.{AllWithin};
ghost use Rattle.predict_core.specs.Following.{Follows, IsMadeFor, MovesOn};

use crate::prediction::{first_scaled, learn, predict};
use crate::run::PIECE;
use crate::settings::Settings;
use cube_core::cube::Cube;
use cube_core::fault::Fault;
use cube_core::shape::Shape;
use header_bits::params::Params;
use sample_prediction::predictor::{MOST_COMPONENTS, Predictor};
use sample_prediction::rows::Rows;
use sample_prediction::sample_limits::SampleLimits;
use sample_prediction::start::start_of;
use std::alloc::Global;
use std::marker::Model;

/// The predictor of one band: its weights after the samples so far, and its next place.
///
/// It allocates nothing, and reads of a cube only its own band and the previous bands that its parameters use.
/// Calls for different bands are independent. The fields are public for the crates above that go over many bands at once.
#[derive(Drop)]
pub struct Band {
    pub settings: Settings,
    shape: Shape,
    pub next: u64,
    pub weights: [i32; MOST_COMPONENTS],
    pub piece: [u16; PIECE],
}

impl Model for Band {
    ghost use Rattle.std.specs.Prelude.{take};
    ghost use Rattle.predict_core.specs.Following.{PredictorState};
    ghost use Rattle.predict_core.specs.PredictorStates.{IsPredictorState};

    ghost Value = { PredictorState };

    ghost view = { λ b. record {
      predictor = b.settings.predictor;
      shape = b.shape;
      kind = b.settings.range.kind;
      band = b.settings.band;
      t = b.next;
      weights = take b.settings.count b.weights;
      piece = b.piece;
    } };

    ghost invariant = { λ b. IsPredictorState b.settings b.shape b.weights };
}

impl Band {
    /// Returns the predictor of band `z`, at its first place.
    ///
    /// The parameters are lawful, and `z` is below the number of bands. The weights are stored in the band itself, so that nothing is
    /// allocated and nothing refused.
    pub fn new(_alloc: Global, params: &Params, z: u32) -> Result<Band, Fault>
        requires lawful { IsLawful params.now }
        requires band { z < params.now.shape.bands }
        ensures made { IfOk result (λ b. IsMadeFor params.now b × (b.band ≡ z) × (b.t ≡ 0)) }
        ensures follows { IfOk result (λ b. (c : Image) → Follows params.now b c) }
        ensures had { IsOk result }
    {
        let predictor = Predictor::of(params);
        let first = first_spectral(params.reduced);
        let previous = z.min(params.previous) as usize;
        let _rows = params.shape.rows();
        let settings = Settings {
            predictor,
            range: SampleLimits::of(params.kind),
            columns: params.shape.columns(),
            band: z,
            near: previous,
            count: first + previous,
        };
        Ok(Band {
            settings,
            shape: params.shape,
            next: 0,
            weights: start_of(params, z, first, previous),
            piece: [0; PIECE],
        })
    }

    /// Returns t, the raster index of the next sample: samples of the band are counted row after row from 0.
    pub fn next(&self) -> u64
        ensures { result ≡ self.now.t }
    {
        self.next
    }

    /// Returns the mapped residual of the cube's sample at the next place, and advances by one place.
    ///
    /// The cube has the shape and kind of the parameters, and the next place is row `y`, column `x`. The result
    /// is at most 2^D - 1 (CCSDS 123.0-B-1, "Predictor"). The band holds its last piece as before.
    pub fn forward(&mut self, cube: &Cube, y: u32, x: u32) -> u16
        requires shape { cube.now.shape ≡ self.old.shape }
        requires kind { cube.now.kind ≡ self.old.kind }
        requires place { IsPlace cube.now.shape self.old.band y x }
        requires next { self.old.t ≡ y * cube.now.shape.columns + x }
        ensures moved { MovesOn self.old self.new }
        ensures held { self.new.piece ≡ self.old.piece }
        ensures bound { result < 2 ^ cube.now.kind.bits }
        ensures residual { (p : Parameters) → Follows p self.old cube.now → result ≡ mapped_residual p cube.now self.old.band self.old.t }
        ensures follows { (p : Parameters) → Follows p self.old cube.now → Follows p self.new cube.now }
    {
        let rows = Rows::of(cube, y);
        self.forward_in(&rows, y, x)
    }

    /// `forward` for the image of `rows`, which are those of row `y`.
    // Inlined into a loop over places it is slower.
    #[inline(never)]
    pub(crate) fn forward_in(&mut self, rows: &Rows, y: u32, x: u32) -> u16
        requires row { rows.now.y ≡ y }
        requires shape { rows.now.image.shape ≡ self.old.shape }
        requires kind { rows.now.image.kind ≡ self.old.kind }
        requires place { IsPlace rows.now.image.shape self.old.band y x }
        requires next { self.old.t ≡ y * rows.now.image.shape.columns + x }
        ensures moved { MovesOn self.old self.new }
        ensures held { self.new.piece ≡ self.old.piece }
        ensures bound { result < 2 ^ rows.now.image.kind.bits }
        ensures residual { (p : Parameters) → Follows p self.old rows.now.image
            → result ≡ mapped_residual p rows.now.image self.old.band self.old.t }
        ensures follows { (p : Parameters) → Follows p self.old rows.now.image → Follows p self.new rows.now.image }
    {
        let t = self.next;
        self.next = t + 1;
        if t == 0 {
            first_residual(&self.settings, rows, y, x)
        } else {
            next_residual(&self.settings, rows, y, x, t, &mut self.weights)
        }
    }

    /// Returns the sample at the next place whose mapped residual is `delta`, and advances by one place.
    ///
    /// The cube has the shape and kind of the parameters, and the next place is row `y`, column `x`. `delta` is
    /// at most 2^D - 1. The cube's samples at this place and later ones are not read, and the cube isn't
    /// written: the caller writes the sample into it before the next call that reads this band. The band holds its last
    /// piece as before.
    #[inline(never)]
    pub fn inverse(&mut self, cube: &Cube, y: u32, x: u32, delta: u16) -> i32
        requires shape { cube.now.shape ≡ self.old.shape }
        requires kind { cube.now.kind ≡ self.old.kind }
        requires place { IsPlace cube.now.shape self.old.band y x }
        requires next { self.old.t ≡ y * cube.now.shape.columns + x }
        requires residual { delta < 2 ^ cube.now.kind.bits }
        ensures moved { MovesOn self.old self.new }
        ensures held { self.new.piece ≡ self.old.piece }
        ensures range { IsSample cube.now.kind result }
        ensures residual { (p : Parameters) → Follows p self.old cube.now
            → mapped_residual p (put cube.now self.old.band y x result) self.old.band self.old.t ≡ delta }
        ensures follows { (p : Parameters) → Follows p self.old cube.now → Follows p self.new (put cube.now self.old.band y x result) }
    {
        cube.prove_is_cube();
        let rows = Rows::of(cube, y);
        let t = self.next;
        self.next = t + 1;
        if t == 0 {
            first_sample(&self.settings, &rows, y, x, delta)
        } else {
            next_sample(&self.settings, &rows, y, x, t, &mut self.weights, delta)
        }
    }
}

/// Returns the index of the first spectral weight: in full mode the weights of the three directions come before
/// it.
pub fn first_spectral(reduced: bool) -> usize
    ensures value { result ≡ (if reduced then 0 else 3) }
    ensures bound { result ≤ 3 }
{
    if reduced { 0 } else { 3 }
}

/// Returns the mapped residual at the first place of a band.
#[inline(always)]
pub fn first_residual(settings: &Settings, rows: &Rows, y: u32, x: u32) -> u16
    requires row { rows.now.y ≡ y }
    requires first { y ≡ 0 }
    requires kind { rows.now.image.kind ≡ settings.now.range.kind }
    requires place { IsPlace rows.now.image.shape settings.now.band y x }
    ensures value { result ≡ mapped rows.now.image.kind (first_prediction settings.now.predictor rows.now.image settings.now.band) (sample_at rows.now.image settings.now.band
        y x) }
    ensures bound { result < 2 ^ rows.now.image.kind.bits }
{
    let scaled = first_scaled(settings, rows);
    let sample = rows.sample(settings.band, x);
    settings.range.residual_of(scaled, sample)
}

/// Returns the mapped residual at place `t`, not the first of a band, and updates the weights.
#[inline(always)]
fn next_residual(
    settings: &Settings,
    rows: &Rows,
    y: u32,
    x: u32,
    t: u64,
    weights: &mut [i32; MOST_COMPONENTS],
) -> u16
    requires row { rows.now.y ≡ y }
    requires columns { rows.now.image.shape.columns ≡ settings.now.columns }
    requires kind { rows.now.image.kind ≡ settings.now.range.kind }
    requires place { IsPlace rows.now.image.shape settings.now.band y x }
    requires t_is { t ≡ y * rows.now.image.shape.columns + x }
    requires t_in { t < 2 ^ 32 }
    requires later { 0 < t }
    requires weights_in { AllWithin (2 ^ (settings.now.predictor.omega + 2)) weights.old }
    ensures value { result ≡ mapped rows.now.image.kind (scaled_there settings.now.predictor rows.now.image settings.now.band y x
        (take (component_count settings.now.predictor settings.now.band) weights.old)) (sample_at rows.now.image settings.now.band y x) }
    ensures range { result < 2 ^ rows.now.image.kind.bits }
    ensures weights { take (component_count settings.now.predictor settings.now.band) weights.new ≡ next_weights settings.now.predictor rows.now.image
        settings.now.band t (take (component_count settings.now.predictor settings.now.band) weights.old) }
    ensures bound { AllWithin (2 ^ (settings.now.predictor.omega + 2)) weights.new }
{
    let prediction = predict(settings, rows, y, x, weights);
    let sample = rows.sample(settings.band, x);
    learn(settings, t, weights, &prediction, sample);
    settings.range.residual_of(prediction.scaled, sample)
}

/// Returns the sample of a mapped residual at the first place of a band.
#[inline(always)]
fn first_sample(settings: &Settings, rows: &Rows, y: u32, x: u32, delta: u16) -> i32
    requires row { rows.now.y ≡ y }
    requires kind { rows.now.image.kind ≡ settings.now.range.kind }
    requires columns { rows.now.image.shape.columns ≡ settings.now.columns }
    requires place { IsPlace rows.now.image.shape settings.now.band y x }
    requires first { 0 ≡ y * rows.now.image.shape.columns + x }
    requires residual { delta < 2 ^ rows.now.image.kind.bits }
    ensures range { IsSample rows.now.image.kind result }
    ensures inverse { mapped rows.now.image.kind (first_prediction settings.now.predictor (put rows.now.image settings.now.band y x result) settings.now.band) result
        ≡ delta }
{
    rows.prove_is_row();
    let scaled = first_scaled(settings, rows);
    settings.range.sample_of(scaled, delta)
}

/// Returns the sample of a mapped residual at place `t`, not the first of a band, and updates the weights.
#[inline(always)]
fn next_sample(
    settings: &Settings,
    rows: &Rows,
    y: u32,
    x: u32,
    t: u64,
    weights: &mut [i32; MOST_COMPONENTS],
    delta: u16,
) -> i32
    requires row { rows.now.y ≡ y }
    requires columns { rows.now.image.shape.columns ≡ settings.now.columns }
    requires kind { rows.now.image.kind ≡ settings.now.range.kind }
    requires place { IsPlace rows.now.image.shape settings.now.band y x }
    requires t_is { t ≡ y * rows.now.image.shape.columns + x }
    requires t_in { t < 2 ^ 32 }
    requires later { 0 < t }
    requires weights_in { AllWithin (2 ^ (settings.now.predictor.omega + 2)) weights.old }
    requires residual { delta < 2 ^ rows.now.image.kind.bits }
    ensures range { IsSample rows.now.image.kind result }
    ensures inverse { mapped rows.now.image.kind (scaled_there settings.now.predictor (put rows.now.image settings.now.band y x result) settings.now.band y x
        (take (component_count settings.now.predictor settings.now.band) weights.old)) result ≡ delta }
    ensures weights { take (component_count settings.now.predictor settings.now.band) weights.new ≡ next_weights settings.now.predictor
        (put rows.now.image settings.now.band y x result) settings.now.band t (take (component_count settings.now.predictor settings.now.band) weights.old) }
    ensures bound { AllWithin (2 ^ (settings.now.predictor.omega + 2)) weights.new }
{
    rows.prove_is_row();
    let prediction = predict(settings, rows, y, x, weights);
    let found = settings.range.sample_of(prediction.scaled, delta);
    learn(settings, t, weights, &prediction, found);
    found
}
