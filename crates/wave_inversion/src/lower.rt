//! The central differences that a wavefront takes of the bands below it.

ghost use Rattle.std.specs.Prelude.{◌≡◌, ◌+◌, ◌-◌, ◌^◌, ◌<◌, ◌≤◌};
ghost use Rattle.wave_inversion.specs.Wave.{AreLowerBelow, AreRowsBelow, lower_of};
ghost use Rattle.wave_inversion.specs.WaveRows.{AreCentralsOf};

use crate::centrals::fill_central_lines;
use crate::form::Form;
use crate::room::LineRoom;
use crate::rows::fill_narrow_lines;
use cube_core::cube::Cube;
use lanes::turn::turn;

/// The central differences of the sixteen bands below those of a wavefront, of which more than seven previous bands ask for all.
#[derive(Clone, Copy)]
pub(crate) struct LowerRows {
    /// Of the eight bands below, in row i at the columns that continue those of the wavefront at step i.
    pub near: [[i16; 8]; 64],
    /// Of the same bands, at the columns of the wavefront itself.
    pub beside: [[i16; 8]; 64],
    /// Of the eight bands below these, at the columns that continue them.
    pub far: [[i16; 8]; 64],
}

impl LowerRows {
    /// Returns an empty room.
    pub(crate) fn new() -> LowerRows {
        LowerRows {
            near: [[0; 8]; 64],
            beside: [[0; 8]; 64],
            far: [[0; 8]; 64],
        }
    }
}

/// Fills the rows that the previous bands ask for, for a piece of row `y` of the bands from `first` on, in which lane b is at column
/// `origin + i - 7 - b` at step i.
pub(crate) fn fill_lower(
    cube: &Cube,
    first: usize,
    y: u32,
    origin: usize,
    form: Form,
    lines: &mut LineRoom,
    lower: &mut LowerRows,
)
    requires bands { first < cube.now.shape.bands }
    requires row { (0 < y) × (y < cube.now.shape.rows) }
    requires some { 0 < cube.now.shape.columns }
    requires origin { origin ≤ 65536 }
    requires bits { (cube.now.kind.bits ≤ 12) × (form.step.bits ≡ cube.now.kind.bits) }
    ensures near { AreCentralsOf form.column cube.now first 8 (8 - form.previous) y (origin + 8) lower.new.near }
    ensures beside { 7 < form.previous → AreCentralsOf form.column cube.now first 8 (8 - form.previous) y origin lower.new.beside }
    ensures far { 7 < form.previous → AreCentralsOf form.column cube.now first 16 (16 - form.previous) y (origin + 8) lower.new.far }
    ensures within { AreLowerBelow form.previous (2 ^ (form.step.bits + 2)) (lower_of lower.new) }
{
    let LowerRows { near, beside, far } = lower;
    fill_below(cube, first, 8, y, origin + 8, form, lines, near);
    if form.previous > 7 {
        fill_below(cube, first, 8, y, origin, form, lines, beside);
        fill_below(cube, first, 16, y, origin + 8, form, lines, far);
    }
}

/// Writes 64 rows of eight lanes: in row i, lane b has the central difference at column `origin + i - 7 - b` of row `y` of the band that is
/// `below` bands below band `first + b`, or 0 if there is no such band. Lanes of bands that are further below than the previous ones are 0, too.
fn fill_below(
    cube: &Cube,
    first: usize,
    below: usize,
    y: u32,
    origin: usize,
    form: Form,
    lines: &mut LineRoom,
    rows: &mut [[i16; 8]; 64],
)
    requires bands { first < cube.now.shape.bands }
    requires below { below ≤ 16 }
    requires row { (0 < y) × (y < cube.now.shape.rows) }
    requires some { 0 < cube.now.shape.columns }
    requires origin { origin ≤ 65544 }
    requires least { below ≤ form.previous + 8 }
    requires bits { (cube.now.kind.bits ≤ 12) × (form.step.bits ≡ cube.now.kind.bits) }
    ensures centrals { AreCentralsOf form.column cube.now first below (below - form.previous) y origin rows.new }
    ensures within { AreRowsBelow (2 ^ (form.step.bits + 2)) rows.new }
{
    let least = below.saturating_sub(form.previous);
    fill_narrow_lines(cube, first, below, least, y, origin, &mut lines.numbers);
    fill_narrow_lines(cube, first, below, least, y - 1, origin, &mut lines.above);
    fill_central_lines(
        form,
        least,
        &lines.numbers,
        &lines.above,
        &mut lines.centrals,
    );
    turn(&lines.centrals, rows);
}
