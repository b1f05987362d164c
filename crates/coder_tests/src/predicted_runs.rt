//! Tests that a band predicted by runs has the residuals of one that is predicted place by place.

ghost use Rattle.std.specs.Prelude.{◌≡◌, ◌+◌, ◌*◌, ◌<◌, ◌≤◌};
ghost use Rattle.header_bits.specs.Lawful.{IsLawful};

use crate::checks::same;
use cube_core::cube::Cube;
use cube_core::kind::Kind;
use cube_core::layout::{Layout, RawOrder};
use cube_core::shape::Shape;
use header_bits::params::Params;
use predict_core::band::Band;
use predict_core::rows::Rows;
use std::alloc::Global;
use std::process::Abort;

/// A generator of pseudo-random numbers from a seed.
#[derive(Drop)]
pub(crate) struct Draw(pub(crate) u64);

impl Draw {
    /// Returns the next number, which is below 2^31.
    fn next(&mut self) -> u64 {
        self.0 = self
            .0
            .wrapping_mul(6_364_136_223_846_793_005)
            .wrapping_add(1_442_695_040_888_963_407);
        self.0 >> 33
    }
}

/// A cube, and two predictors of the same band of it: one by runs, one by single places.
#[derive(Drop)]
pub(crate) struct Twice {
    pub(crate) cube: Cube,
    pub(crate) runs: Band,
    pub(crate) singles: Band,
    ghost runs_shape: { cube.shape ≡ runs.shape },
    ghost runs_kind: { cube.kind ≡ runs.kind },
    ghost runs_inside: { runs.band < cube.shape.bands },
    ghost singles_shape: { cube.shape ≡ singles.shape },
    ghost singles_kind: { cube.kind ≡ singles.kind },
    ghost singles_inside: { singles.band < cube.shape.bands },
}

/// Returns the raster index of a place, and asserts that `count` places from it on, at most 64, are in its row.
pub(crate) fn raster_index(rt: &impl Abort, shape: Shape, y: u32, x: u32, count: usize) -> u64
    ensures few { count ≤ 64 }
    ensures row { y < shape.rows }
    ensures column { x < shape.columns }
    ensures within { x + count ≤ shape.columns }
    ensures number { result ≡ y * shape.columns + x }
{
    assert!(rt; count <= 64);
    assert!(rt; y < shape.rows());
    assert!(rt; x < shape.columns());
    assert!(rt; u64::from(x) + count as u64 <= u64::from(shape.columns()));
    u64::from(y) * u64::from(shape.columns()) + u64::from(x)
}

impl Twice {
    /// Writes the residuals of a run, as many as there is room for.
    fn run(&mut self, rt: &impl Abort, y: u32, x: u32, residuals: &mut [u16]) {
        let t = raster_index(rt, self.cube.shape(), y, x, residuals.len());
        assert!(rt; self.runs.next() == t);
        let rows = Rows::of(&self.cube, y);
        self.runs.forward_run(&rows, x, residuals);
    }

    /// Returns the residual at one place.
    pub(crate) fn single(&mut self, rt: &impl Abort, y: u32, x: u32) -> u16 {
        let t = raster_index(rt, self.cube.shape(), y, x, 1);
        assert!(rt; self.singles.next() == t);
        self.singles.forward(&self.cube, y, x)
    }

    /// Asserts that `count` places have the same residuals as a run and as single places.
    fn run_is_the_same(&mut self, rt: &impl Abort, y: u32, x: u32, count: u32) {
        assert!(rt; count <= 64);
        let mut room = [0u16; 64];
        let residuals = &mut room[..count as usize];
        self.run(rt, y, x, residuals);
        let mut x = x;
        for residual in residuals {
            same(rt, *residual, self.single(rt, y, x));
            x = x.saturating_add(1);
        }
    }

    /// Asserts that a row has the same residuals by runs of at most `most` places and by single places.
    fn row_is_the_same(&mut self, rt: &impl Abort, y: u32, most: u32) {
        let columns = self.cube.shape().columns();
        let mut x = 0u32;
        for _ in 0..columns {
            let count = most.min(columns.saturating_sub(x));
            if count > 0 {
                self.run_is_the_same(rt, y, x, count);
            }
            x = x.saturating_add(count);
        }
    }
}

/// Returns parameters of five rows, whose weight update scaling exponent grows every 16 samples.
pub(crate) fn params_of(
    rt: &impl Abort,
    columns: u32,
    bands: u32,
    previous: u32,
    reduced: bool,
    column: bool,
    register: u32,
) -> Params
    ensures { IsLawful result }
{
    assert!(rt; previous <= 15);
    let params = Params {
        previous,
        reduced,
        column,
        register,
        interval_log: 4,
        ..Params::plain(
            Shape::new(columns, 5, bands).expect(rt, "a shape"),
            Kind::new(false, 12).expect(rt, "a kind"),
        )
    };
    assert!(rt; params.check().is_ok());
    params
}

/// Returns a cube of a slope with noise, and with the least or greatest sample here and there.
pub(crate) fn cube_of(rt: &impl Abort, alloc: Global, params: &Params, draw: &mut Draw) -> Cube
    ensures shape { result.shape ≡ params.now.shape }
    ensures kind { result.kind ≡ params.now.kind }
{
    let mut bytes = Vec::new(alloc);
    let shape = params.shape;
    for i in 0..shape.sample_count() {
        let drawn = draw.next();
        let offset = match drawn % 16 {
            0 => 0,
            1 => 4095,
            _ => (drawn >> 8) % 512 + i % 97 * 16,
        };
        bytes.push((offset % 256) as u8).expect(rt, "memory");
        bytes.push((offset / 256) as u8).expect(rt, "memory");
    }
    let layout = Layout {
        order: RawOrder::Bsq,
        bytes: 2,
        little: true,
    };
    Cube::from_raw(alloc, shape, params.kind, layout, &bytes).expect(rt, "a cube")
}

/// Asserts that all rows of band `z` have the same residuals by runs of at most `most` places and by single places.
fn are_the_same(rt: &impl Abort, alloc: Global, params: &Params, z: u32, most: u32, draw: &mut Draw)
    requires { IsLawful params.now }
{
    assert!(rt; z < params.shape.bands());
    let mut twice = Twice {
        cube: cube_of(rt, alloc, params, draw),
        runs: Band::new(alloc, params, z).expect(rt, "a band"),
        singles: Band::new(alloc, params, z).expect(rt, "a band"),
    };
    for y in 0..5 {
        twice.row_is_the_same(rt, y, most);
    }
}

/// Asserts that the last band has the same residuals by runs of 64 places and by single places, in each mode, with each
/// kind of local sum and in two registers.
fn bands_are_the_same(
    rt: &impl Abort,
    alloc: Global,
    columns: u32,
    previous: u32,
    draw: &mut Draw,
) {
    assert!(rt; previous <= 15);
    for (reduced, column) in [(false, true), (true, true), (false, false), (true, false)] {
        // An image of one column needs reduced mode and column-oriented sums.
        if columns > 1 || (reduced && column) {
            for register in [32 + previous % 14, 46 + previous * 7 % 19] {
                let bands = previous + 1;
                let params = params_of(rt, columns, bands, previous, reduced, column, register);
                are_the_same(rt, alloc, &params, previous, 64, draw);
            }
        }
    }
}

#[test]
fn runs_have_the_residuals_of_single_places(rt: HostRuntime) {
    let mut draw = Draw(20_261_123);
    for columns in [1, 2, 63, 64, 65, 129] {
        for previous in 0..16 {
            bands_are_the_same(&rt, rt.alloc(), columns, previous, &mut draw);
        }
    }
}

#[test]
fn runs_of_any_length_are_as_single_places(rt: HostRuntime) {
    let mut draw = Draw(1);
    for most in 1..65u32 {
        let previous = most % 16;
        let params = params_of(
            &rt,
            129,
            previous + 1,
            previous,
            most % 4 < 2,
            most % 3 == 0,
            46 + most % 19,
        );
        for z in [0, previous / 2, previous] {
            are_the_same(&rt, rt.alloc(), &params, z, most, &mut draw);
        }
    }
}
