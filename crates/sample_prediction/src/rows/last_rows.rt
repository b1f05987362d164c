//! A row of an image that is handed over row by row.

ghost use Rattle.std.specs.Prelude.{◌≡◌, ◌-◌, ◌<◌, length};
ghost use Rattle.cube_core.specs.Image.{IsCube};
ghost use Rattle.cube_core.specs.Offsets.{AreRowOffsets};
ghost use Rattle.sample_prediction.specs.HandedRows.{AreLastRows, IsRowThere, image_of_rows, row_size};

use crate::handed::HandedRows;
use cube_core::kind::Kind;
use cube_core::shape::Shape;
use std::marker::Model;

/// Row `y` of all bands of an image, which was handed over last, and the row above it, or itself again if it is the first.
#[derive(Drop)]
pub(crate) struct LastRows<'a> {
    shape: Shape,
    kind: Kind,
    y: u32,
    present: &'a [u16],
    above: &'a [u16],
    handed: &'a HandedRows,
}

impl<'a> Model for LastRows<'a> {
    ghost use Rattle.sample_prediction.specs.Rows.{ImageRow};
    ghost use Rattle.sample_prediction.specs.HandedRows.{AreLastRows, image_of_rows};

    ghost Value = { ImageRow };

    ghost view = { λ r. record { image = image_of_rows r.shape r.kind r.handed.now.offsets; y = r.y } };

    ghost invariant = { λ r. AreLastRows r.shape r.kind r.handed.now.offsets r.y r.present.now r.above.now };
}

impl<'a> LastRows<'a> {
    /// Returns row `y` of an image of this shape and kind.
    #[inline(always)]
    pub(crate) fn new(
        shape: Shape,
        kind: Kind,
        y: u32,
        present: &'a [u16],
        above: &'a [u16],
        handed: &'a HandedRows,
    ) -> LastRows<'a>
        requires { AreLastRows shape kind handed.now.offsets y present.now above.now }
        ensures { result ≡ record { image = image_of_rows shape kind handed.now.offsets; y = y } }
    {
        LastRows {
            shape,
            kind,
            y,
            present,
            above,
            handed,
        }
    }

    /// The index of the row.
    #[inline(always)]
    pub(crate) fn y(&self) -> u32
        ensures { result ≡ self.now.y }
    {
        self.y
    }

    /// The image's shape.
    #[inline(always)]
    pub(crate) fn shape(&self) -> Shape
        ensures { result ≡ self.now.image.shape }
    {
        self.shape
    }

    /// The kind of the image's samples.
    #[inline(always)]
    pub(crate) fn kind(&self) -> Kind
        ensures { result ≡ self.now.image.kind }
    {
        self.kind
    }

    /// Returns the row of band `z`: each sample as its offset from the least sample of the kind.
    #[inline(always)]
    pub(crate) fn row(&self, z: u32) -> &[u16]
        requires { z < self.now.image.shape.bands }
        ensures len { length result.now ≡ self.now.image.shape.columns }
        ensures samples { AreRowOffsets self.now.image z self.now.y result.now }
    {
        row_of(self.shape, z, self.present)
    }

    /// Returns the row above that of band `z`: each sample as its offset from the least sample of the kind. The first row, which
    /// has none above it, is its own.
    #[inline(always)]
    pub(crate) fn row_above(&self, z: u32) -> &[u16]
        requires { z < self.now.image.shape.bands }
        ensures len { length result.now ≡ self.now.image.shape.columns }
        ensures samples { AreRowOffsets self.now.image z (self.now.y - 1) result.now }
    {
        row_of(self.shape, z, self.above)
    }

    /// Lemma: sizes and kind of the image are in range, there is one sample of the kind at each place, and the row is inside the
    /// shape. It does nothing at run time.
    #[inline(always)]
    pub(crate) fn prove_is_row(&self)
        ensures cube { IsCube self.now.image }
        ensures row { self.now.y < self.now.image.shape.rows }
    {
        let _columns = self.shape.columns();
        let _rows = self.shape.rows();
        let _bands = self.shape.bands();
        let _bits = self.kind.bits();
    }
}

/// Returns the samples of band `z` among those of a row, band after band.
#[inline(always)]
fn row_of(shape: Shape, z: u32, row: &[u16]) -> &[u16]
    requires band { z < shape.bands }
    requires size { length row.now ≡ row_size shape }
    ensures { IsRowThere shape z row.now result.now }
{
    let columns = shape.columns() as usize;
    let first = z as usize * columns;
    &row[first..first + columns]
}
