//! Bodies of the block-adaptive coder.

ghost use Rattle.std.specs.Prelude.{◌≡◌, ◌+◌, ◌^◌, ◌<◌, ◌≤◌, length, OnOk};
ghost use Rattle.cube_core.specs.Shape.{sample_count};
ghost use Rattle.block_adaptive.specs.Settings.{AreForBlocks};
ghost use Rattle.block_adaptive.specs.Taken.{taken_count};
ghost use Rattle.block_adaptive.specs.DataSets.{capacity};

use crate::files::line_of;
use crate::repeats::{Again, numbers};
use block_adaptive::block_writer::BlockWriter;
use cube_core::fault::Fault;
use cube_core::kind::Kind;
use cube_core::shape::Shape;
use header_bits::bit_writer::BitWriter;
use header_bits::params::{Coder, Params};
use std::alloc::Global;

/// How many numbers are written. They end inside a block.
const COUNT: u32 = 6001;

/// Returns a line with the length of a body and its checksum.
pub fn line(alloc: Global, again: &mut Again) -> Result<String, Fault> {
    let params = params(Shape::new(1, COUNT, 1)?, Kind::new(false, 12)?);
    let numbers = numbers(alloc, COUNT)?;
    let body = body(alloc, &params, &numbers, again)?;
    line_of(alloc, "blocks", &body)
}

/// Returns parameters with blocks of 8.
fn params(shape: Shape, kind: Kind) -> Params
    ensures lawful { AreForBlocks result }
    ensures bits { result.kind.bits ≡ kind.bits }
{
    let _bits = kind.bits();
    Params {
        coder: Coder::Block {
            size: 8,
            restricted: false,
            reference: 64,
        },
        ..Params::plain(shape, kind)
    }
}

/// Returns the body of numbers, in whole bytes.
fn body(
    alloc: Global,
    params: &Params,
    numbers: &[u16],
    again: &mut Again,
) -> Result<Vec<u8>, Fault>
    requires lawful { AreForBlocks params.now }
    requires bits { params.now.kind.bits ≡ 12 }
{
    let mut blocks = BlockWriter::new(params);
    let mut writer = BitWriter::new(alloc);
    let count = params.shape.sample_count();
    for (t, number) in numbers.iter().enumerate() {
        // No number is greater, and there are no more of them, as `put` requires.
        if *number > 4095 || t as u64 >= count {
            break;
        }
        put(&mut blocks, *number, &mut writer, again)?;
    }
    end(&mut blocks, &mut writer, again)?;
    crate::files::whole_bytes(alloc, writer, again)
}

/// Puts a number. Repeats the call if it was refused.
fn put(
    blocks: &mut BlockWriter,
    number: u16,
    writer: &mut BitWriter,
    again: &mut Again,
) -> Result<(), Fault>
    requires number { number < 2 ^ blocks.old.cut.set.bits }
    requires more { taken_count blocks.old < capacity blocks.old.cut }
    ensures counted { OnOk result (taken_count blocks.new ≡ taken_count blocks.old + 1) }
    ensures cut { blocks.new.cut ≡ blocks.old.cut }
{
    match blocks.put(number, writer) {
        Err(Fault::WantOfMemory) => {
            again.more();
            blocks.put(number, writer)
        }
        other => other,
    }
}

/// Ends a body. Repeats the call if it was refused.
fn end(blocks: &mut BlockWriter, writer: &mut BitWriter, again: &mut Again) -> Result<(), Fault> {
    match blocks.end(writer) {
        Err(Fault::WantOfMemory) => {
            again.more();
            blocks.end(writer)
        }
        other => other,
    }
}
