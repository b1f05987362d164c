//! Runs: places of a row that are predicted together.

ghost use Rattle.std.specs.Prelude.{◌≡◌, ◌-◌, ◌<◌, length};
ghost use Rattle.cube_core.specs.Image.{IsCube};
ghost use Rattle.cube_core.specs.Offsets.{AreRowOffsets};
ghost use Rattle.predict_core.specs.ImageRuns.{IsFirstLater};

use sample_prediction::rows::Rows;
use std::marker::Model;

/// The most places of a run: the length of a piece.
pub const PIECE: usize = 64;

/// Places of a row, one after another: `count` of them, from column `x` on, in the row of `rows`.
///
/// Contracts see the image, the row `y`, the column `x`, the number of places, and which of them is the first that isn't
/// the first of its band.
#[derive(Drop)]
pub struct Run<'a> {
    rows: &'a Rows<'a>,
    y: u32,
    x: u32,
    first: usize,
    count: usize,
}

impl<'a> Model for Run<'a> {
    ghost use Rattle.std.specs.Prelude.{◌≡◌};
    ghost use Rattle.predict_core.specs.ImageRuns.{ImageRun};

    ghost Value = { ImageRun };

    ghost view = { λ r. record { image = r.rows.now.image; y = r.y; x = r.x; first = r.first; count = r.count } };

    ghost invariant = { λ r. r.rows.now.y ≡ r.y };
}

impl<'a> Run<'a> {
    /// Returns the run of `count` places from column `x` on, in the row of `rows`.
    #[inline(always)]
    pub fn new(rows: &'a Rows<'a>, x: u32, count: usize) -> Run<'a>
        ensures image { result.image ≡ rows.now.image }
        ensures y { result.y ≡ rows.now.y }
        ensures x { result.x ≡ x }
        ensures count { result.count ≡ count }
        ensures first { IsFirstLater result.y result.x result.first }
    {
        let y = rows.y();
        let first = if y == 0 && x == 0 { 1 } else { 0 };
        Run {
            rows,
            y,
            x,
            first,
            count,
        }
    }

    /// The row of all bands that the run is in, and the row above it.
    #[inline(always)]
    pub fn rows(&self) -> &Rows<'a>
        ensures image { result.now.image ≡ self.now.image }
        ensures y { result.now.y ≡ self.now.y }
    {
        self.rows
    }

    /// Returns the row of band `z`: each sample as its offset from the least sample of the kind.
    #[inline(always)]
    pub fn row(&self, z: u32) -> &[u16]
        requires { z < self.now.image.shape.bands }
        ensures len { length result.now ≡ self.now.image.shape.columns }
        ensures samples { AreRowOffsets self.now.image z self.now.y result.now }
    {
        self.rows.row(z)
    }

    /// Returns the row above that of band `z`: each sample as its offset from the least sample of the kind. The first row, which
    /// has none above it, is its own.
    #[inline(always)]
    pub fn row_above(&self, z: u32) -> &[u16]
        requires { z < self.now.image.shape.bands }
        ensures len { length result.now ≡ self.now.image.shape.columns }
        ensures samples { AreRowOffsets self.now.image z (self.now.y - 1) result.now }
    {
        self.rows.row_above(z)
    }

    /// The index of the run's row.
    #[inline(always)]
    pub fn y(&self) -> u32
        ensures { result ≡ self.now.y }
    {
        self.y
    }

    /// The column of the first place.
    #[inline(always)]
    pub fn x(&self) -> u32
        ensures { result ≡ self.now.x }
    {
        self.x
    }

    /// The first of the places that isn't the first of its band: 1 if the run begins a band, else 0.
    #[inline(always)]
    pub fn first(&self) -> usize
        ensures { result ≡ self.now.first }
    {
        self.first
    }

    /// The number of places.
    #[inline(always)]
    pub fn count(&self) -> usize
        ensures { result ≡ self.now.count }
    {
        self.count
    }

    /// Lemma: sizes and kind of the image are in range, there is one sample of the kind at each place, and the row is inside the
    /// shape. It does nothing at run time.
    #[inline(always)]
    pub fn prove_is_row(&self)
        ensures cube { IsCube self.now.image }
        ensures row { self.now.y < self.now.image.shape.rows }
    {
        self.rows.prove_is_row();
    }
}
