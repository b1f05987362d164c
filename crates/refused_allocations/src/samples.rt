//! Bodies of the sample-adaptive coder.

ghost use Rattle.std.specs.Prelude.{◌≡◌, ◌^◌, ◌<◌, ◌≤◌, length, IfOk};
ghost use Rattle.sample_adaptive.specs.Settings.{AreForSamples};

use crate::files::line_of;
use crate::repeats::{Again, numbers};
use cube_core::fault::Fault;
use cube_core::kind::Kind;
use cube_core::shape::Shape;
use header_bits::bit_writer::BitWriter;
use header_bits::params::{Coder, CountStart, Params};
use sample_adaptive::stats::Stats;
use std::alloc::Global;

/// How many numbers are written.
const COUNT: u32 = 6001;

/// Returns a line with the length of a body and its checksum.
pub fn line(alloc: Global, again: &mut Again) -> Result<String, Fault> {
    let params = params(Shape::new(1, COUNT, 1)?, Kind::new(false, 12)?);
    let numbers = numbers(alloc, COUNT)?;
    let body = body(alloc, &params, &numbers, again)?;
    line_of(alloc, "samples", &body)
}

/// Returns parameters of one band.
fn params(shape: Shape, kind: Kind) -> Params
    requires { kind.bits ≡ 12 }
    ensures lawful { AreForSamples result }
    ensures bits { result.kind.bits ≡ 12 }
    ensures bands { 1 ≤ result.shape.bands }
{
    let _bands = shape.bands();
    Params {
        coder: Coder::Sample {
            umax: 18,
            gamma_star: 6,
            gamma_zero: 1,
            start: CountStart::Constant(5),
        },
        ..Params::plain(shape, kind)
    }
}

/// Returns the code words of numbers, in whole bytes.
fn body(
    alloc: Global,
    params: &Params,
    numbers: &[u16],
    again: &mut Again,
) -> Result<Vec<u8>, Fault>
    requires lawful { AreForSamples params.now }
    requires bits { params.now.kind.bits ≡ 12 }
    requires bands { 1 ≤ params.now.shape.bands }
{
    let mut stats = statistics(alloc, params, again)?;
    let mut writer = BitWriter::new(alloc);
    for (t, number) in numbers.iter().enumerate() {
        // No number is greater, as `put` requires.
        if *number > 4095 {
            break;
        }
        put(&mut stats, t as u64, *number, &mut writer, again)?;
    }
    crate::files::whole_bytes(alloc, writer, again)
}

/// Returns the coder of an image. Repeats the call if it was refused.
fn statistics(alloc: Global, params: &Params, again: &mut Again) -> Result<Stats, Fault>
    requires { AreForSamples params.now }
    ensures bands { IfOk result (λ s. length s.bands ≡ params.now.shape.bands) }
    ensures bits { IfOk result (λ s. s.bits ≡ params.now.kind.bits) }
{
    match Stats::new(alloc, params) {
        Err(Fault::WantOfMemory) => {
            again.more();
            Stats::new(alloc, params)
        }
        other => other,
    }
}

/// Puts a number. Repeats the call if it was refused.
fn put(
    stats: &mut Stats,
    t: u64,
    number: u16,
    writer: &mut BitWriter,
    again: &mut Again,
) -> Result<(), Fault>
    requires band { 0 < length stats.old.bands }
    requires number { number < 2 ^ stats.old.bits }
    ensures bands { (length stats.new.bands ≡ length stats.old.bands) × (stats.new.bits ≡ stats.old.bits) }
{
    match stats.put(0, t, number, writer) {
        Err(Fault::WantOfMemory) => {
            again.more();
            stats.put(0, t, number, writer)
        }
        other => other,
    }
}
