//! The shape of a cube: how many columns, rows and bands it has.

ghost use Rattle.std.specs.Prelude.{◌≡◌, ◌↔◌, ◌+◌, ◌<◌, ◌≤◌, ◌^◌, IsOk};
ghost use Rattle.cube_core.specs.Shape.{AreSizes, InRange, size_or_fault, sizes_or_fault, sample_count};
ghost use Rattle.cube_core.specs.Image.{IsPlace, index_in};

use crate::fault::{Fault, Field};
use std::marker::Model;

/// The greatest size in each direction.
const MOST: u32 = 65_536;

/// How many columns, rows and bands a cube has, 1 to 65,536 each (CCSDS 123.0-B-1, "Image").
#[derive(Clone, Copy, Debug, PartialEq, Eq)]
pub struct Shape {
    columns: u32,
    rows: u32,
    bands: u32,
}

impl Model for Shape {
    ghost use Rattle.cube_core.specs.Shape.{Sizes, AreSizes};

    ghost Value = { Sizes };

    ghost view = { λ s. record { columns = s.columns; rows = s.rows; bands = s.bands } };

    ghost invariant = { λ s. AreSizes (record { columns = s.columns; rows = s.rows; bands = s.bands }) };

    ghost inverse = { λ v. record { columns = v.columns; rows = v.rows; bands = v.bands } };
}

impl Shape {
    /// Returns the shape with these numbers of columns, rows and bands.
    ///
    /// Returns `FieldRange` for the first of `Columns`, `Rows` and `Bands` that isn't 1 to 65,536.
    pub fn new(columns: u32, rows: u32, bands: u32) -> Result<Shape, Fault>
        ensures value { result ≡ sizes_or_fault (record { columns = columns; rows = rows; bands = bands }) }
        ensures in_range { IsOk result ↔ AreSizes (record { columns = columns; rows = rows; bands = bands }) }
    {
        in_range(Field::Columns, columns)?;
        in_range(Field::Rows, rows)?;
        in_range(Field::Bands, bands)?;
        Ok(Shape {
            columns,
            rows,
            bands,
        })
    }

    /// Returns the number of samples in a row.
    pub fn columns(self) -> u32
        ensures value { result ≡ self.columns }
        ensures range { InRange 1 65536 result }
    {
        self.columns
    }

    /// Returns the number of rows in a band.
    pub fn rows(self) -> u32
        ensures value { result ≡ self.rows }
        ensures range { InRange 1 65536 result }
    {
        self.rows
    }

    /// Returns the number of bands.
    pub fn bands(self) -> u32
        ensures value { result ≡ self.bands }
        ensures range { InRange 1 65536 result }
    {
        self.bands
    }

    /// Returns the number of samples of a cube of this shape: at most 2^48.
    pub fn sample_count(self) -> u64
        ensures value { result ≡ sample_count self }
        ensures range { InRange 1 (2 ^ 48) result }
        ensures sizes { AreSizes self }
    {
        u64::from(self.bands) * u64::from(self.rows) * u64::from(self.columns)
    }
}

/// Refuses a size out of range.
fn in_range(field: Field, size: u32) -> Result<(), Fault>
    ensures { result ≡ size_or_fault field size }
{
    if (1..=MOST).contains(&size) {
        Ok(())
    } else {
        Err(Fault::FieldRange {
            field,
            value: i64::from(size),
        })
    }
}

/// Returns the index of a sample in the list, band after band and row after row.
pub(crate) fn index_at(shape: Shape, z: u32, y: u32, x: u32) -> usize
    requires { IsPlace shape z y x }
    ensures value { result ≡ index_in shape.columns shape.rows z y x }
    ensures below { result < sample_count shape }
    ensures row { index_in shape.columns shape.rows z y 0 + shape.columns ≤ sample_count shape }
{
    let row = z as usize * shape.rows() as usize + y as usize;
    row * shape.columns() as usize + x as usize
}
