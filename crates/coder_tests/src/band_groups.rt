//! Tests that bands predicted as a group have the residuals that each of them has alone.

ghost use Rattle.std.specs.Prelude.{◌≡◌, ◌+◌, ◌*◌, ◌<◌, ◌≤◌};
ghost use Rattle.header_bits.specs.Lawful.{IsLawful};
ghost use Rattle.file_encoding.specs.Walks.{IsSeen, AreAt};

use crate::checks::same;
use crate::predicted_runs::{Draw, Twice, cube_of, params_of};
use cube_core::cube::Cube;
use cube_core::kind::Kind;
use group_prediction::predict::predict_group;
use group_prediction::room::GroupRoom;
use header_bits::params::Params;
use predict_core::band::Band;
use predict_core::rows::Rows;
use std::alloc::Global;
use std::process::Abort;

/// Returns the bands of an image from band `first` up to band `end`, each at its first place.
fn group_of(
    rt: &impl Abort,
    alloc: Global,
    params: &Params,
    cube: &Cube,
    first: u32,
    end: u32,
) -> Vec<Band>
    requires { IsLawful params.now }
    ensures { AreAt params.now cube.now 0 result.items }
{
    let _image = cube;
    let mut bands = Vec::new(alloc);
    for z in first..end {
        assert!(rt; z < params.shape.bands());
        let band = Band::new(alloc, params, z).expect(rt, "a band");
        bands.push(band).expect(rt, "memory");
    }
    bands
}

/// Returns a band of a cube drawn from a seed, to be predicted place by place.
fn alone(rt: &impl Abort, alloc: Global, params: &Params, z: u32, seed: u64) -> Twice
    requires { IsLawful params.now }
{
    assert!(rt; z < params.shape.bands());
    Twice {
        cube: cube_of(rt, alloc, params, &mut Draw(seed)),
        runs: Band::new(alloc, params, z).expect(rt, "a band"),
        singles: Band::new(alloc, params, z).expect(rt, "a band"),
    }
}

/// Has a group go over `count` places of a row from column `x` on.
fn go(
    rt: &impl Abort,
    params: &Params,
    rows: &Rows,
    x: u32,
    count: u32,
    bands: &mut [Band],
    room: &mut GroupRoom,
)
    requires image { IsSeen params.now rows.now.image }
    requires place { (rows.now.y < rows.now.image.shape.rows) × (x < rows.now.image.shape.columns) }
    requires piece { (count ≤ 64) × (x + count ≤ rows.now.image.shape.columns) }
    requires at { AreAt params.now rows.now.image (rows.now.y * rows.now.image.shape.columns + x) bands.old }
    ensures { AreAt params.now rows.now.image (rows.now.y * rows.now.image.shape.columns + (x + count)) bands.new }
{
    assert!(rt; !bands.is_empty());
    assert!(rt; bands.len() <= 8);
    predict_group(bands, rows, x, count as usize, room);
}

/// Asserts that a band holds the residuals that it has alone.
fn piece_is_the_same(rt: &impl Abort, band: &Band, alone: &mut Twice, y: u32, x: u32, count: u32) {
    for i in 0..count.min(64) {
        let residual = band.piece_residual(i as usize);
        same(rt, residual, alone.single(rt, y, x.saturating_add(i)));
    }
}

/// Asserts that each band of a group does.
fn pieces_are_the_same(
    rt: &impl Abort,
    bands: &[Band],
    alone: &mut [Twice],
    y: u32,
    x: u32,
    count: u32,
) {
    assert!(rt; bands.len() == alone.len());
    for k in 0..bands.len() {
        piece_is_the_same(rt, &bands[k], &mut alone[k], y, x, count);
    }
}

/// Asserts that a row has the same residuals by a group in pieces of 64 places as place by place.
fn row_is_the_same(
    rt: &impl Abort,
    params: &Params,
    rows: &Rows,
    bands: &mut [Band],
    alone: &mut [Twice],
    room: &mut GroupRoom,
)
    requires image { IsSeen params.now rows.now.image }
    requires row { rows.now.y < rows.now.image.shape.rows }
    requires at { AreAt params.now rows.now.image (rows.now.y * rows.now.image.shape.columns) bands.old }
    ensures { AreAt params.now rows.now.image ((rows.now.y + 1) * rows.now.image.shape.columns) bands.new }
{
    let columns = rows.shape().columns();
    let mut x = 0;
    while x < columns {
        let count = 64.min(columns - x);
        go(rt, params, rows, x, count, bands, room);
        pieces_are_the_same(rt, bands, alone, rows.y(), x, count);
        x += count;
    }
}

/// Asserts that all rows of a cube have the same residuals by a group as place by place.
fn rows_are_the_same(
    rt: &impl Abort,
    params: &Params,
    cube: &Cube,
    bands: &mut [Band],
    alone: &mut [Twice],
    room: &mut GroupRoom,
)
    requires image { IsSeen params.now cube.now }
    requires at { AreAt params.now cube.now 0 bands.old }
{
    for y in 0..cube.shape().rows() {
        let rows = Rows::of(cube, y);
        row_is_the_same(rt, params, &rows, bands, alone, room);
    }
}

/// Asserts that the bands from band `first` up to band `end` have the same residuals as a group as alone.
fn group_is_the_same(
    rt: &impl Abort,
    params: &Params,
    first: u32,
    end: u32,
    room: &mut GroupRoom,
    alloc: Global,
)
    requires { IsLawful params.now }
{
    let seed = 20_261_126;
    let cube = cube_of(rt, alloc, params, &mut Draw(seed));
    let mut bands = group_of(rt, alloc, params, &cube, first, end);
    let mut singles = Vec::new(alloc);
    for z in first..end {
        let single = alone(rt, alloc, params, z, seed);
        singles.push(single).expect(rt, "memory");
    }
    rows_are_the_same(rt, params, &cube, &mut bands, &mut singles, room);
}

/// Returns the same parameters for samples of `bits` bits.
fn with_bits(rt: &impl Abort, params: Params, bits: u32) -> Params
    ensures { IsLawful result }
{
    let kind = Kind::new(false, bits).expect(rt, "a kind");
    let params = Params { kind, ..params };
    assert!(rt; params.check().is_ok());
    params
}

/// Asserts that the first bands of an image and the last ones have the same residuals as a group as alone, in each mode and
/// with each kind of local sum.
fn groups_are_the_same(
    rt: &impl Abort,
    columns: u32,
    many: u32,
    previous: u32,
    bits: u32,
    register: u32,
    room: &mut GroupRoom,
    alloc: Global,
) {
    assert!(rt; previous <= 15);
    assert!(rt; many <= 8);
    for (reduced, column) in [(false, true), (true, true), (false, false), (true, false)] {
        let bands = previous + many;
        let params = params_of(rt, columns, bands, previous, reduced, column, register);
        let params = with_bits(rt, params, bits);
        group_is_the_same(rt, &params, 0, many, room, alloc);
        group_is_the_same(rt, &params, previous, bands, room, alloc);
    }
}

/// Checks groups of one to eight bands, of samples for each width of lanes, in registers that may wrap and in one that doesn't.
#[test]
fn a_group_has_the_residuals_of_each_band_alone(rt: HostRuntime) {
    let mut room = GroupRoom::new();
    for many in 1..9 {
        for (columns, previous, bits) in [
            (2, 3, 12),
            (15, 7, 13),
            (16, 1, 16),
            (64, 15, 13),
            (65, 0, 12),
            (81, 3, 13),
        ] {
            for register in [32, 64] {
                groups_are_the_same(
                    &rt,
                    columns,
                    many,
                    previous,
                    bits,
                    register,
                    &mut room,
                    rt.alloc(),
                );
            }
        }
    }
}
