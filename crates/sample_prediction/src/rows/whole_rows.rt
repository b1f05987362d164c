//! A row of a cube.

ghost use Rattle.std.specs.Prelude.{◌≡◌, ◌-◌, ◌<◌, length};
ghost use Rattle.cube_core.specs.Image.{IsCube};
ghost use Rattle.cube_core.specs.Offsets.{AreRowOffsets};

use cube_core::cube::Cube;
use cube_core::kind::Kind;
use cube_core::shape::Shape;
use std::marker::Model;

/// Row `y` of all bands of a cube, and the row above it.
#[derive(Drop)]
pub(crate) struct WholeRows<'a> {
    cube: &'a Cube,
    y: u32,
}

impl<'a> Model for WholeRows<'a> {
    ghost use Rattle.std.specs.Prelude.{◌<◌};
    ghost use Rattle.sample_prediction.specs.Rows.{ImageRow};

    ghost Value = { ImageRow };

    ghost view = { λ r. record { image = r.cube.now; y = r.y } };

    ghost invariant = { λ r. r.y < r.cube.now.shape.rows };
}

impl<'a> WholeRows<'a> {
    /// Returns row `y` of a cube, which is inside its shape, and the row above it.
    #[inline(always)]
    pub(crate) fn of(cube: &'a Cube, y: u32) -> WholeRows<'a>
        requires { y < cube.now.shape.rows }
        ensures { result ≡ record { image = cube.now; y = y } }
    {
        WholeRows { cube, y }
    }

    /// The index of the row.
    #[inline(always)]
    pub(crate) fn y(&self) -> u32
        ensures { result ≡ self.now.y }
    {
        self.y
    }

    /// The image's shape.
    #[inline(always)]
    pub(crate) fn shape(&self) -> Shape
        ensures { result ≡ self.now.image.shape }
    {
        let cube = self.cube;
        cube.shape()
    }

    /// The kind of the image's samples.
    #[inline(always)]
    pub(crate) fn kind(&self) -> Kind
        ensures { result ≡ self.now.image.kind }
    {
        let cube = self.cube;
        cube.kind()
    }

    /// Returns the row of band `z`: each sample as its offset from the least sample of the kind.
    #[inline(always)]
    pub(crate) fn row(&self, z: u32) -> &[u16]
        requires { z < self.now.image.shape.bands }
        ensures len { length result.now ≡ self.now.image.shape.columns }
        ensures samples { AreRowOffsets self.now.image z self.now.y result.now }
    {
        let cube = self.cube;
        cube.prove_is_cube();
        cube.row(z, self.y)
    }

    /// Returns the row above that of band `z`: each sample as its offset from the least sample of the kind. The first row, which
    /// has none above it, is its own.
    #[inline(always)]
    pub(crate) fn row_above(&self, z: u32) -> &[u16]
        requires { z < self.now.image.shape.bands }
        ensures len { length result.now ≡ self.now.image.shape.columns }
        ensures samples { AreRowOffsets self.now.image z (self.now.y - 1) result.now }
    {
        let cube = self.cube;
        cube.prove_is_cube();
        cube.row(z, self.y.saturating_sub(1))
    }

    /// Lemma: sizes and kind of the image are in range, there is one sample of the kind at each place, and the row is inside the
    /// shape. It does nothing at run time.
    #[inline(always)]
    pub(crate) fn prove_is_row(&self)
        ensures cube { IsCube self.now.image }
        ensures row { self.now.y < self.now.image.shape.rows }
    {
        let cube = self.cube;
        cube.prove_is_cube();
    }
}
