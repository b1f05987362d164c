//! The rows of an image that the prediction of one row may read.

mod last_rows;
mod whole_rows;

ghost use Rattle.std.specs.Prelude.{◌≡◌, ◌-◌, ◌<◌, ◌≤ℤ◌, pos, negsuc, length};
ghost use Rattle.cube_core.specs.Image.{IsCube, IsPlace, sample_at};
ghost use Rattle.cube_core.specs.Kind.{IsSample};
ghost use Rattle.cube_core.specs.Offsets.{AreRowOffsets};
ghost use Rattle.sample_prediction.specs.HandedRows.{AreLastRows, image_of_rows};

use crate::handed::HandedRows;
use crate::rows::last_rows::LastRows;
use crate::rows::whole_rows::WholeRows;
use cube_core::cube::Cube;
use cube_core::kind::Kind;
use cube_core::shape::Shape;
use std::marker::Model;

/// Row `y` of all bands of an image, and the row above it.
///
/// The prediction of a sample reads no other rows (CCSDS 123.0-B-1, "Local Sums", "Local Differences").
#[derive(Drop)]
pub struct Rows<'a> {
    source: Source<'a>,
}

/// Where the rows are: in a cube, or in slices.
#[derive(Drop)]
enum Source<'a> {
    Whole(WholeRows<'a>),
    Last(LastRows<'a>),
}

impl<'a> Model for Rows<'a> {
    ghost use Rattle.sample_prediction.specs.Rows.{ImageRow};
    ghost use Rattle.sample_prediction.specs.Sources.{row_in};

    ghost Value = { ImageRow };

    ghost view = { λ r. row_in r.source };
}

impl<'a> Rows<'a> {
    /// Returns row `y` of a cube, which is inside its shape, and the row above it.
    #[inline(always)]
    pub fn of(cube: &'a Cube, y: u32) -> Rows<'a>
        requires { y < cube.now.shape.rows }
        ensures { result ≡ record { image = cube.now; y = y } }
    {
        Rows {
            source: Source::Whole(WholeRows::of(cube, y)),
        }
    }

    /// Returns row `y` of an image of this shape and kind, of which this row was handed over last, and the row above it.
    ///
    /// `present` holds the samples of row y, band after band, and `above` those of row y - 1, or those of row 0 if y is 0; each
    /// sample stands as its offset from the least sample of the kind.
    #[inline(always)]
    pub fn of_last(
        shape: Shape,
        kind: Kind,
        y: u32,
        present: &'a [u16],
        above: &'a [u16],
        handed: &'a HandedRows,
    ) -> Rows<'a>
        requires { AreLastRows shape kind handed.now.offsets y present.now above.now }
        ensures { result ≡ record { image = image_of_rows shape kind handed.now.offsets; y = y } }
    {
        Rows {
            source: Source::Last(LastRows::new(shape, kind, y, present, above, handed)),
        }
    }

    /// The index of the row.
    #[inline(always)]
    pub fn y(&self) -> u32
        ensures { result ≡ self.now.y }
    {
        match &self.source {
            Source::Whole(rows) => rows.y(),
            Source::Last(rows) => rows.y(),
        }
    }

    /// The image's shape.
    #[inline(always)]
    pub fn shape(&self) -> Shape
        ensures { result ≡ self.now.image.shape }
    {
        match &self.source {
            Source::Whole(rows) => rows.shape(),
            Source::Last(rows) => rows.shape(),
        }
    }

    /// The kind of the image's samples.
    #[inline(always)]
    pub fn kind(&self) -> Kind
        ensures { result ≡ self.now.image.kind }
    {
        match &self.source {
            Source::Whole(rows) => rows.kind(),
            Source::Last(rows) => rows.kind(),
        }
    }

    /// Returns the row of band `z`: each sample as its offset from the least sample of the kind.
    #[inline(always)]
    pub fn row(&self, z: u32) -> &[u16]
        requires { z < self.now.image.shape.bands }
        ensures len { length result.now ≡ self.now.image.shape.columns }
        ensures samples { AreRowOffsets self.now.image z self.now.y result.now }
    {
        match &self.source {
            Source::Whole(rows) => rows.row(z),
            Source::Last(rows) => rows.row(z),
        }
    }

    /// Returns the row above that of band `z`: each sample as its offset from the least sample of the kind. The first row, which
    /// has none above it, is its own.
    #[inline(always)]
    pub fn row_above(&self, z: u32) -> &[u16]
        requires { z < self.now.image.shape.bands }
        ensures len { length result.now ≡ self.now.image.shape.columns }
        ensures samples { AreRowOffsets self.now.image z (self.now.y - 1) result.now }
    {
        match &self.source {
            Source::Whole(rows) => rows.row_above(z),
            Source::Last(rows) => rows.row_above(z),
        }
    }

    /// Returns the sample of band `z` at column `x` of the row, which are inside the shape.
    #[inline(always)]
    pub fn sample(&self, z: u32, x: u32) -> i32
        requires { IsPlace self.now.image.shape z self.now.y x }
        ensures value { result ≡ sample_at self.now.image z self.now.y x }
        ensures range { IsSample self.now.image.kind result }
        ensures bounds { (negsuc 32767 ≤ℤ result) × (result ≤ℤ pos 65535) }
    {
        let kind = self.kind();
        kind.sample_of(self.row(z)[x as usize])
    }

    /// Lemma: sizes and kind of the image are in range, there is one sample of the kind at each place, and the row is inside the
    /// shape. It does nothing at run time.
    #[inline(always)]
    pub fn prove_is_row(&self)
        ensures cube { IsCube self.now.image }
        ensures row { self.now.y < self.now.image.shape.rows }
    {
        match &self.source {
            Source::Whole(rows) => rows.prove_is_row(),
            Source::Last(rows) => rows.prove_is_row(),
        }
    }
}
