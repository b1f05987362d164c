//! The rows of a wavefront, from the samples of a cube.

ghost use Rattle.std.specs.Prelude.{◌≡◌, ◌≢◌, ◌+◌, ◌-◌, ◌*◌, ◌^◌, ◌<◌, ◌≤◌, ℕ, ℤ, pos, ◌+ℤ◌, ◌-ℤ◌, ◌*ℤ◌, ◌≤ℤ◌, length, slice_index};
ghost use Rattle.cube_core.specs.Image.{IsPlace};
ghost use Rattle.lanes.specs.Lanes.{lane, place};
ghost use Rattle.predict_core.specs.Offsets.{number_at};
ghost use Rattle.wave_inversion.specs.Wave.{AreOffsetLines, AreOffsetRows};
ghost use Rattle.wave_inversion.specs.WaveLanes.{column_at, column_within};
ghost use Rattle.wave_inversion.specs.WaveRows.{AreLinesOf, AreLinesWithin, AreRowsOf, IsSkewed, without_sign};

use cube_core::cube::Cube;
use lanes::turn::turn;
use predict_core::differences::lines::clear_line;

/// Writes 64 rows of eight lanes: in row i, lane b has the offset at column `origin + i - 7 - b` of row `y` of band `first + b`, and after
/// the last column that of the last one once more. It has 0 where there is no such column.
pub(crate) fn fill_rows(
    cube: &Cube,
    first: usize,
    y: u32,
    origin: usize,
    lines: &mut [[i16; 64]; 8],
    rows: &mut [[i16; 8]; 64],
)
    requires bands { first < cube.now.shape.bands }
    requires row { y < cube.now.shape.rows }
    requires some { 0 < cube.now.shape.columns }
    requires origin { origin ≤ 65544 }
    requires bits { cube.now.kind.bits ≤ 12 }
    ensures numbers { AreRowsOf cube.now first 0 0 y origin rows.new }
    ensures within { AreOffsetRows (pos (2 ^ cube.now.kind.bits) -ℤ pos 1) rows.new }
{
    fill_narrow_lines(cube, first, 0, 0, y, origin, lines);
    turn(lines, rows);
}

/// `fill_lines` of offsets of at most 12 bits, which are the same with a sign as without one.
pub(crate) fn fill_narrow_lines(
    cube: &Cube,
    first: usize,
    below: usize,
    least: usize,
    y: u32,
    origin: usize,
    lines: &mut [[i16; 64]; 8],
)
    requires below { below ≤ 16 }
    requires least { least ≤ 8 }
    requires bands { first < cube.now.shape.bands }
    requires row { y < cube.now.shape.rows }
    requires some { 0 < cube.now.shape.columns }
    requires origin { origin ≤ 65544 }
    requires bits { cube.now.kind.bits ≤ 12 }
    ensures numbers { AreLinesOf cube.now first below least y origin (λ (b i : ℕ). place lines.new b i) }
    ensures within { AreOffsetLines least (pos (2 ^ cube.now.kind.bits) -ℤ pos 1) lines.new }
{
    fill_lines(cube, first, below, least, y, origin, lines);
    for b in least..8 {
        prove_signed(&lines[b]);
    }
}

/// Shows that a line whose numbers have at most 12 bits is the same with a sign as without one.
fn prove_signed(line: &[i16; 64])
    requires { (i : ℕ) → i < 64 → without_sign (lane line.now i) ≤ℤ pos 4095 }
    ensures { (i : ℕ) → i < 64 → without_sign (lane line.now i) ≡ lane line.now i }
{
    // What it says of the line's numbers is all that this is for.
    let _same = copied(line);
}

/// Returns a copy of a line.
#[inline(always)]
fn copied(line: &[i16; 64]) -> [i16; 64]
    ensures { result ≡ line.now }
{
    *line
}

/// Writes lines of 64 numbers, from number `least` to the eighth: line b has the offsets of the band that is `below` bands below band
/// `first + b`, at place i that at column `origin + i - 7 - b` of row `y`, and after the last column that of the last one once more,
/// without a sign. It has 0 where there is no such band or column.
// Inlined it would be there four times for each number of pairs.
#[inline(never)]
pub(crate) fn fill_lines(
    cube: &Cube,
    first: usize,
    below: usize,
    least: usize,
    y: u32,
    origin: usize,
    lines: &mut [[i16; 64]; 8],
)
    requires below { below ≤ 16 }
    requires least { least ≤ 8 }
    requires bands { first < cube.now.shape.bands }
    requires row { y < cube.now.shape.rows }
    requires some { 0 < cube.now.shape.columns }
    requires origin { origin ≤ 65544 }
    ensures numbers { AreLinesOf cube.now first below least y origin (λ (b i : ℕ). without_sign (place lines.new b i)) }
    ensures within { AreLinesWithin least (pos (2 ^ cube.now.kind.bits) -ℤ pos 1) lines.new }
{
    cube.prove_is_cube();
    for b in least..8 {
        fill_line(cube, first + b, below, y, origin, b, lines);
    }
}

/// Writes line `b`: that of the band that is `below` bands below band `z`.
fn fill_line(
    cube: &Cube,
    z: usize,
    below: usize,
    y: u32,
    origin: usize,
    b: usize,
    lines: &mut [[i16; 64]; 8],
)
    requires lane { b < 8 }
    requires below { below ≤ 16 }
    requires band { z < cube.now.shape.bands + 8 }
    requires row { y < cube.now.shape.rows }
    requires some { 0 < cube.now.shape.columns }
    requires origin { origin ≤ 65544 }
    ensures numbers { (i : ℕ) → i < 64 → below ≤ z → z < cube.now.shape.bands + below → 7 + b ≤ origin + i → column_at origin i b ≤ cube.now.shape.columns
        → without_sign (place lines.new b i) ≡ pos (number_at cube.now (z - below) y (column_within cube.now.shape.columns (column_at origin i b))) }
    ensures none { (i : ℕ) → i < 64 → z < below → without_sign (place lines.new b i) ≡ pos 0 }
    ensures within { (i : ℕ) → i < 64 → without_sign (place lines.new b i) ≤ℤ (pos (2 ^ cube.now.kind.bits) -ℤ pos 1) }
    ensures others { (k i : ℕ) → k ≢ b → place lines.new k i ≡ place lines.old k i }
{
    cube.prove_is_cube();
    let bands = cube.shape().bands() as usize;
    if z < below || bands + below <= z {
        clear_line(&mut lines[b]);
    } else {
        let row = cube.row((z - below) as u32, y);
        skew(row, origin, 7 + b, &mut lines[b]);
    }
}

/// Writes a row from column `origin - back` on, and after its last number this once more. It writes zeros where there is no column.
// Among the steps of `fill_lines` the compiler finds the places of all lines anew.
#[inline(never)]
fn skew(row: &[u16], origin: usize, back: usize, line: &mut [i16; 64])
    requires back { back < 15 }
    requires origin { origin ≤ 65544 }
    requires columns { (0 < length row.now) × (length row.now ≤ 65536) }
    ensures { IsSkewed row.now origin back (λ (i : ℕ). without_sign (lane line.new i)) }
{
    let first = back.saturating_sub(origin);
    let from = origin + first - back;
    if first == 0 && row.len() >= from + 64 {
        // Of this fixed length it is a few moves of vectors.
        take_numbers(&row[from..from + 64], line);
        return;
    }
    let count = (64 - first).min(row.len().saturating_sub(from));
    clear_line(line);
    put_numbers(row, from, first, count, line);
    repeat_last(row, first + count, line);
}

/// Writes `count` numbers of a row, from column `from` on, into a line from place `first` on.
fn put_numbers(row: &[u16], from: usize, first: usize, count: usize, line: &mut [i16; 64])
    requires places { first + count ≤ 64 }
    requires columns { 0 < count → from + count ≤ length row.now }
    requires few { length row.now ≤ 65536 }
    ensures numbers { (i : ℕ) → i < count → without_sign (lane line.new (first + i)) ≡ pos (slice_index row.now (from + i)) }
    ensures others { (i : ℕ) → (first ≤ i → first + count ≤ i) → lane line.new i ≡ lane line.old i }
{
    if count < 8 {
        put_few(row, from, first, count, line);
    } else {
        put_eights(row, from, first, count, line);
    }
}

/// `put_numbers` of at least eight numbers, eight at a time: the last eight may overlap those before them.
fn put_eights(row: &[u16], from: usize, first: usize, count: usize, line: &mut [i16; 64])
    requires many { 8 ≤ count }
    requires places { first + count ≤ 64 }
    requires columns { from + count ≤ length row.now }
    requires few { length row.now ≤ 65536 }
    ensures numbers { (i : ℕ) → i < count → without_sign (lane line.new (first + i)) ≡ pos (slice_index row.now (from + i)) }
    ensures others { (i : ℕ) → (first ≤ i → first + count ≤ i) → lane line.new i ≡ lane line.old i }
{
    for k in 0..(count - 1) / 8 {
        put_eight(row, from + 8 * k, first + 8 * k, line);
    }
    put_eight(row, from + count - 8, first + count - 8, line);
}

/// Writes eight numbers of a row, from column `from` on, into a line from place `first` on.
#[inline(always)]
fn put_eight(row: &[u16], from: usize, first: usize, line: &mut [i16; 64])
    requires places { first + 8 ≤ 64 }
    requires columns { from + 8 ≤ length row.now }
    requires few { length row.now ≤ 65536 }
    ensures numbers { (i : ℕ) → i < 8 → without_sign (lane line.new (first + i)) ≡ pos (slice_index row.now (from + i)) }
    ensures others { (i : ℕ) → (first ≤ i → first + 8 ≤ i) → lane line.new i ≡ lane line.old i }
{
    // All are read before any is written, so that the compiler need not ask whether they are the same.
    let numbers = eight_at(row, from);
    for j in 0..8usize {
        line[first + j] = numbers[j];
    }
}

/// Returns eight numbers of a row, from column `from` on.
#[inline(always)]
fn eight_at(row: &[u16], from: usize) -> [i16; 8]
    requires columns { from + 8 ≤ length row.now }
    requires few { length row.now ≤ 65536 }
    ensures { (i : ℕ) → i < 8 → without_sign (lane result i) ≡ pos (slice_index row.now (from + i)) }
{
    let mut numbers = [0i16; 8];
    for j in 0..8usize {
        numbers[j] = row[from + j].cast_signed();
    }
    numbers
}

/// `put_numbers`, a number at a time.
fn put_few(row: &[u16], from: usize, first: usize, count: usize, line: &mut [i16; 64])
    requires places { first + count ≤ 64 }
    requires columns { 0 < count → from + count ≤ length row.now }
    requires few { length row.now ≤ 65536 }
    ensures numbers { (i : ℕ) → i < count → without_sign (lane line.new (first + i)) ≡ pos (slice_index row.now (from + i)) }
    ensures others { (i : ℕ) → (first ≤ i → first + count ≤ i) → lane line.new i ≡ lane line.old i }
{
    for i in 0..count {
        line[first + i] = row[from + i].cast_signed();
    }
}

/// Writes the last number of a row at place `i` of a line, if it has that place.
fn repeat_last(row: &[u16], i: usize, line: &mut [i16; 64])
    requires some { 0 < length row.now }
    ensures here { i < 64 → without_sign (lane line.new i) ≡ pos (slice_index row.now (length row.now - 1)) }
    ensures others { (k : ℕ) → k ≢ i → lane line.new k ≡ lane line.old k }
{
    if i < 64 {
        line[i] = row[row.len() - 1].cast_signed();
    }
}

/// Writes 64 numbers of a row.
fn take_numbers(numbers: &[u16], line: &mut [i16; 64])
    requires long { length numbers.now ≡ 64 }
    ensures { (i : ℕ) → i < 64 → without_sign (lane line.new i) ≡ pos (slice_index numbers.now i) }
{
    for i in 0..64usize {
        line[i] = numbers[i].cast_signed();
    }
}
