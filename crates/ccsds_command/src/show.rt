//! From a small cube to its file in hexadecimal.

ghost use Rattle.std.specs.Prelude.{◌≡◌, ◌≢◌, ◌⊎◌, ◌≤◌, ◌++◌, length, slice_index, IfOk, IfErr, OnOk};
ghost use Rattle.cube_core.specs.declared.fault.Fault.TheVariants.{WantOfMemory, RawLength};
ghost use Rattle.cube_core.specs.Shape.{sample_count};
ghost use Rattle.ccsds_command.specs.Show.{Shows, IsShown, IsTextOf, IsShowFault, IsShowRefusal, size_of, sizes_of, show_limit};
ghost use Rattle.command_devices.specs.Devices.{GaveWithin};
ghost use Rattle.command_devices.specs.Reading.{ToldAsRead};
ghost use Rattle.command_devices.specs.Writing.{IsWrite};

use byteorder::{BigEndian, ByteOrder};
use coder_pipe::encode::encode_one;
use command_devices::reading::read_up_to;
use command_devices::sink::Sink;
use command_devices::source::Source;
use command_devices::writing::write_all;
use command_reports::hexadecimal::hexadecimal;
use cube_core::cube::Cube;
use cube_core::fault::Fault;
use cube_core::kind::Kind;
use cube_core::layout::{Layout, RawOrder};
use cube_core::shape::Shape;
use header_bits::params::Params;
use std::alloc::Global;

/// The number of bytes of the three sizes.
const SIZES: usize = 6;

/// How the samples lie after the sizes.
const LAYOUT: Layout = Layout {
    order: RawOrder::Bsq,
    bytes: 1,
    little: false,
};

/// Reads a cube of 8-bit samples, codes it with the plainest parameters, and writes the file in hexadecimal
/// with a newline.
///
/// The input is three sizes of two bytes each, the high one first (columns, rows, bands; 0 stands for 65,536),
/// and then samples of one byte, band after band and row after row. It reads at most one byte more than that.
/// Returns `Read` if the source fails; `RawLength` if the sizes or the samples have too few or too many bytes
/// (after the sizes it counts the samples' bytes alone); `WantOfMemory` if an allocation fails; and `Write`,
/// with the number of bytes that went out, if the sink fails or takes nothing. After any other refusal nothing
/// was written.
#[tactic(auto, unfolding(crate::specs::Show::Shows, crate::specs::Show::IsShowFault))]
pub fn run_show<S: Source, K: Sink>(
    alloc: Global,
    source: &mut S,
    sink: &mut K,
) -> Result<(), Fault>
    ensures shown { OnOk result (Shows (S.left source.old) (K.taken sink.old) (K.taken sink.new)) }
    ensures refused { IfErr result (IsShowFault (S.left source.old) (S.failures source.old) (S.failures source.new) (K.taken sink.old) (K.taken sink.new)
        (K.failures sink.old) (K.failures sink.new) (K.stalls sink.old) (K.stalls sink.new)) }
    ensures worked { OnOk result ((S.failures source.new ≡ S.failures source.old) × (K.failures sink.new ≡ K.failures sink.old)
        × (K.stalls sink.new ≡ K.stalls sink.old)) }
    ensures told { IfErr result (ToldAsRead (S.failures source.old) (S.failures source.new)) }
    ensures unwritten { IfErr result (λ e. IsWrite e ⊎ (sink.new ≡ sink.old)) }
    ensures bounded { GaveWithin show_limit (S.left source.old) (S.left source.new) }
{
    let text = shown_text(alloc, source)?;
    write_all(sink, &text)
}

/// Returns the text that is shown for the source's cube.
fn shown_text<S: Source>(alloc: Global, source: &mut S) -> Result<Vec<u8>, Fault>
    ensures shown { IfOk result (λ text. IsShown (S.left source.old) text.items) }
    ensures refused { IfErr result (IsShowRefusal (S.left source.old) (S.failures source.old) (S.failures source.new)) }
    ensures worked { OnOk result (S.failures source.new ≡ S.failures source.old) }
    ensures told { IfErr result (ToldAsRead (S.failures source.old) (S.failures source.new)) }
    ensures bounded { GaveWithin show_limit (S.left source.old) (S.left source.new) }
{
    let sizes = read_up_to(alloc, source, SIZES as u64)?;
    if sizes.len() < SIZES {
        return Err(Fault::RawLength {
            wanted: SIZES as u64,
            had: sizes.len() as u64,
        });
    }
    let shape = shape_of(&sizes);
    let raw = read_up_to(alloc, source, shape.sample_count() + 1)?;
    text_of(alloc, &sizes, shape, &raw)
}

/// Returns the text of a cube of this shape, from the bytes of its sizes and of its samples.
fn text_of(alloc: Global, sizes: &[u8], shape: Shape, raw: &[u8]) -> Result<Vec<u8>, Fault>
    requires six { length sizes.now ≡ 6 }
    requires shape { shape ≡ sizes_of sizes.now }
    ensures text { IfOk result (λ text. IsTextOf (sizes.now ++ raw.now) text.items) }
    ensures whole { OnOk result (length raw.now ≡ sample_count shape) }
    ensures refused { IfErr result (λ e. (e ≡ WantOfMemory) ⊎ ((e ≡ RawLength (sample_count shape) (length raw.now)) × (length raw.now ≢ sample_count shape))) }
{
    let kind = Kind::new(false, 8).unwrap();
    if raw.len() as u64 != shape.sample_count() {
        return Err(Fault::RawLength {
            wanted: shape.sample_count(),
            had: raw.len() as u64,
        });
    }
    let cube = match Cube::from_raw(alloc, shape, kind, LAYOUT, raw) {
        Ok(cube) => cube,
        Err(fault) => return Err(fault),
    };
    let file = encode_one(alloc, &cube, &Params::plain(shape, kind))?;
    hexadecimal(alloc, &file)
}

/// Returns the shape of three sizes.
fn shape_of(sizes: &[u8]) -> Shape
    requires { length sizes.now ≡ 6 }
    ensures { result ≡ sizes_of sizes.now }
{
    let columns = size_at(sizes);
    let rows = size_at(&sizes[2..]);
    let bands = size_at(&sizes[4..]);
    Shape::new(columns, rows, bands).unwrap()
}

/// Returns a size of two bytes, where 0 stands for 65,536.
fn size_at(bytes: &[u8]) -> u32
    requires { 2 ≤ length bytes.now }
    ensures value { result ≡ size_of (slice_index bytes.now 0) (slice_index bytes.now 1) }
    ensures range { (1 ≤ result) × (result ≤ 65536) }
{
    match BigEndian::read_u16(bytes) {
        0 => 65_536,
        size => u32::from(size),
    }
}
