//! Files encoded on one thread and by predictors, and decoded again.

ghost use Rattle.std.specs.Prelude.{◌≡◌, ◌^◌, ◌≤◌, IfOk, vec_len};
ghost use Rattle.header_bits.specs.Lawful.{IsLawful};
ghost use Rattle.coder_pipe.specs.Sends.{IsSeen};

use crate::repeats::{Again, numbers};
use coder_pipe::decode::decode;
use coder_pipe::encode::encode_one;
use coder_pipe::encode_predicted::encode_predicted;
use coder_pipe::pipeline::Piped;
use coder_pipe::plan::Plan;
use coder_pipe::{Gate, OpenGate};
use cube_core::cube::Cube;
use cube_core::fault::Fault;
use cube_core::kind::Kind;
use cube_core::layout::{Layout, RawOrder};
use cube_core::order::Order;
use cube_core::shape::Shape;
use header_bits::bit_writer::BitWriter;
use header_bits::params::{Coder, CountStart, Params, WeightStart};
use header_bits::tables::{ConstantTable, WeightTable};
use std::alloc::Global;
use std::sync::Wait;
use std::thread::Threads;

/// How many samples a cube has: 23 x 17 x 5.
const SAMPLES: u32 = 1955;

/// The length in bytes of the longest file that can be decoded.
const MOST_BYTES: usize = 1 << 60;

/// The layout of samples of two bytes, band after band.
const BYTES: Layout = Layout {
    order: RawOrder::Bsq,
    bytes: 2,
    little: false,
};

/// The bits of an entry of the weight table.
const RESOLUTION: u32 = 5;

/// Returns a line for each coder, and one for a file with tables: the file's length and checksum, whether predictors
/// make the same file, and whether it is decoded to the cube.
pub fn lines<R: Threads + Wait + Sync>(
    rt: &R,
    alloc: Global,
    again: &mut Again,
) -> Result<String, Fault> {
    let blocks = Coder::Block {
        size: 16,
        restricted: false,
        reference: 64,
    };
    let first = line(rt, alloc, &interleaved()?, again)?;
    let other = params_of(Order::Bsq, WeightStart::Usual, blocks)?;
    let second = line(rt, alloc, &other, again)?;
    let third = line(rt, alloc, &with_tables(alloc)?, again)?;
    let lines = format!(in alloc; "{first}{second}{third}")?;
    Ok(lines)
}

/// Returns parameters of two bands a group, for the sample-adaptive coder.
pub fn interleaved() -> Result<Params, Fault>
    ensures { IfOk result (λ p. IsLawful p) }
{
    let coder = samples(CountStart::Constant(3));
    params_of(Order::Bi(2), WeightStart::Usual, coder)
}

/// Returns parameters of one band a group, with both tables.
pub fn with_tables(alloc: Global) -> Result<Params, Fault>
    ensures { IfOk result (λ p. IsLawful p) }
{
    params_of(Order::Bi(1), weights(alloc)?, samples(constants(alloc)?))
}

/// Returns the sample-adaptive coder with this accumulator initialization.
fn samples(start: CountStart) -> Coder {
    Coder::Sample {
        umax: 16,
        gamma_star: 6,
        gamma_zero: 1,
        start,
    }
}

/// Returns a table of 24 weights: with three directions and up to three bands below, the bands have 3, 4, 5, 6 and 6.
fn weights(alloc: Global) -> Result<WeightStart, Fault> {
    let mut values = Vec::new(alloc);
    for value in -12..12 {
        values.push(value)?;
    }
    Ok(WeightStart::Table {
        q: RESOLUTION,
        values: WeightTable::new(values),
    })
}

/// Returns an accumulator table with a constant for each band.
fn constants(alloc: Global) -> Result<CountStart, Fault> {
    let table = Vec::from_slice(alloc, &[3, 0, 10, 5, 1])?;
    Ok(CountStart::Each(ConstantTable::new(table)))
}

/// Returns parameters of 12-bit samples.
fn params_of(order: Order, start: WeightStart, coder: Coder) -> Result<Params, Fault>
    ensures { IfOk result (λ p. IsLawful p) }
{
    let params = Params {
        order,
        previous: 3,
        reduced: false,
        column: false,
        start,
        coder,
        ..Params::plain(Shape::new(23, 17, 5)?, Kind::new(false, 12)?)
    };
    params.check()?;
    Ok(params)
}

/// Returns the line of a file with these parameters.
fn line<R: Threads + Wait + Sync>(
    rt: &R,
    alloc: Global,
    params: &Params,
    again: &mut Again,
) -> Result<String, Fault>
    requires { IsLawful params.now }
{
    let cube = scene(alloc, params, again)?;
    let file = encoded(alloc, &cube, params, again)?;
    let plan = plan_of(alloc, params, again)?;
    let piped = piped(rt, alloc, &cube, &plan, &OpenGate, again)?;
    let is_same = piped.file.as_slice() == file.as_slice();
    let is_back = comes_back(alloc, &cube, &file, again)?;
    let length = file.len();
    let sum = sum_of(&file);
    let line = format!(in alloc;
        "file: {length} bytes, {sum:016x}, by predictors {is_same}, back {is_back}\n"
    )?;
    Ok(line)
}

/// Returns a cube of numbers. Repeats the call if it was refused.
pub fn scene(alloc: Global, params: &Params, again: &mut Again) -> Result<Cube, Fault>
    ensures cube { IfOk result (λ c. (c.shape ≡ params.now.shape) × (c.kind ≡ params.now.kind)) }
{
    let mut bytes = Vec::new(alloc);
    for number in numbers(alloc, SAMPLES)? {
        bytes.push((number >> 8) as u8)?;
        bytes.push((number & 0xff) as u8)?;
    }
    match Cube::from_raw(alloc, params.shape, params.kind, BYTES, &bytes) {
        Err(Fault::WantOfMemory) => {
            again.more();
            Cube::from_raw(alloc, params.shape, params.kind, BYTES, &bytes)
        }
        other => other,
    }
}

/// Returns a plan for two predictors with eight slots each. Repeats the call if it was refused.
pub fn plan_of(alloc: Global, params: &Params, again: &mut Again) -> Result<Plan, Fault>
    requires { IsLawful params.now }
    ensures { IfOk result (λ plan. plan.params ≡ params.now) }
{
    let deal = [0, 1, 1, 0, 1];
    match Plan::new(alloc, params, 2, &deal, 8) {
        Err(Fault::WantOfMemory) => {
            again.call("Plan::new");
            Plan::new(alloc, params, 2, &deal, 8)
        }
        other => other,
    }
}

/// Returns the file of a cube. Repeats the call if it was refused.
fn encoded(alloc: Global, cube: &Cube, params: &Params, again: &mut Again) -> Result<Vec<u8>, Fault>
    requires lawful { IsLawful params.now }
    requires shape { cube.now.shape ≡ params.now.shape }
    requires kind { cube.now.kind ≡ params.now.kind }
{
    match encode_one(alloc, cube, params) {
        Err(Fault::WantOfMemory) => {
            again.more();
            encode_one(alloc, cube, params)
        }
        other => other,
    }
}

/// Encodes a cube with predictors that a gate may stop. Repeats the call if memory or a thread was refused, and only then.
pub fn piped<R: Threads + Wait + Sync, G: Gate + Sync>(
    rt: &R,
    alloc: Global,
    cube: &Cube,
    plan: &Plan,
    gate: &G,
    again: &mut Again,
) -> Result<Piped, Fault>
    requires { IsSeen plan.now.params cube.now }
{
    match encode_predicted(rt, alloc, cube, plan, gate) {
        Err(Fault::WantOfMemory | Fault::SpawnRefused) => {
            again.more();
            encode_predicted(rt, alloc, cube, plan, gate)
        }
        other => other,
    }
}

/// Returns whether a file is decoded to this cube. Repeats the call if it was refused.
fn comes_back(alloc: Global, cube: &Cube, file: &[u8], again: &mut Again) -> Result<bool, Fault> {
    if file.len() > MOST_BYTES {
        return Ok(false);
    }
    let (_params, found) = match decode(alloc, file) {
        Err(Fault::WantOfMemory) => {
            again.more();
            decode(alloc, file)?
        }
        other => other?,
    };
    let raw = raw_of(alloc, cube, again)?;
    let raw_found = raw_of(alloc, &found, again)?;
    Ok(raw.as_slice() == raw_found.as_slice())
}

/// Returns the raw bytes of a cube. Repeats the call if it was refused.
fn raw_of(alloc: Global, cube: &Cube, again: &mut Again) -> Result<Vec<u8>, Fault> {
    match cube.to_raw(alloc, BYTES) {
        Err(Fault::WantOfMemory) => {
            again.more();
            cube.to_raw(alloc, BYTES)
        }
        other => other,
    }
}

/// Returns the bytes of a writer, with fill bits up to a whole byte. Repeats the call if it was refused.
pub fn whole_bytes(
    alloc: Global,
    mut writer: BitWriter,
    again: &mut Again,
) -> Result<Vec<u8>, Fault> {
    let over = (writer.bit_count() % 8) as u32;
    let fill = (8 - over) % 8;
    match writer.push(0, fill) {
        Err(Fault::WantOfMemory) => {
            again.more();
            writer.push(0, fill)?;
        }
        other => other?,
    }
    if writer.bit_count() % 8 != 0 {
        return Ok(Vec::new(alloc));
    }
    Ok(writer.into_bytes())
}

/// Returns a line with a name, how many bytes there are, and their checksum.
pub fn line_of(alloc: Global, name: &str, bytes: &[u8]) -> Result<String, Fault> {
    let length = bytes.len();
    let sum = sum_of(bytes);
    let line = format!(in alloc; "{name}: {length} bytes, {sum:016x}\n")?;
    Ok(line)
}

/// Returns a checksum of bytes.
fn sum_of(bytes: &[u8]) -> u64 {
    let mut sum = 0u64;
    for byte in bytes {
        sum = sum.rotate_left(5).wrapping_add(u64::from(*byte));
    }
    sum
}
