//! Samples written as raw bytes.

ghost use Rattle.std.specs.Prelude.{ℕ, ◌≡◌, ◌↔◌, ◌*◌, ◌<◌, ◌≤◌, ◌^◌, IsTrue, length, slice_index};
ghost use Rattle.cube_core.specs.declared.layout.RawOrder.TheVariants.{Bsq, Bil, Bip};
ghost use Rattle.cube_core.specs.Kind.{sample_of};
ghost use Rattle.cube_core.specs.Shape.{sample_count};
ghost use Rattle.cube_core.specs.Offsets.{AreOffsets};
ghost use Rattle.cube_core.specs.Layout.{IsLayout, HasBytes};
ghost use Rattle.cube_core.specs.Pieces.{CanBeWritten};
ghost use Rattle.cube_core.specs.Parts.{IsPart, AreWrittenTo, first_sample, part_samples};

use crate::kind::Kind;
use crate::layout::{Layout, RawOrder};
use crate::part::{Part, Piece};
use crate::piece::{BLOCK, write_piece};
use crate::scale::Scale;
use crate::shape::Shape;

/// Writes the bytes of all samples of a part and returns true, or returns false if one doesn't fit in its bytes; some are then not written.
pub(crate) fn write_part(
    shape: Shape,
    kind: Kind,
    layout: Layout,
    part: Part,
    offsets: &[u16],
    bytes: &mut [u8],
) -> bool
    requires layout { IsLayout layout }
    requires part { IsPart layout shape part }
    requires offsets { AreOffsets shape kind offsets.now }
    requires whole { length bytes.old ≡ part_samples layout shape part * layout.bytes }
    ensures written { IsTrue result → AreWrittenTo shape kind layout (first_sample layout shape part) (part_samples layout shape part) offsets.now bytes.new }
    ensures good { CanBeWritten shape kind layout offsets.now → IsTrue result }
{
    match layout.order {
        RawOrder::Bsq => write_sequence(shape, kind, layout, part, offsets, bytes),
        RawOrder::Bil => write_lines(shape, kind, layout, part, offsets, bytes),
        RawOrder::Bip => write_pixels(shape, kind, layout, part, offsets, bytes),
    }
}

/// Returns whether the sample of each offset fits in its bytes.
pub(crate) fn can_be_written(kind: Kind, layout: Layout, offsets: &[u16]) -> bool
    requires layout { IsLayout layout }
    requires range { (i : ℕ) → i < length offsets.now → slice_index offsets.now i < 2 ^ kind.bits }
    ensures { IsTrue result ↔ ((i : ℕ) → i < length offsets.now → HasBytes kind layout (sample_of kind (slice_index offsets.now i))) }
{
    // As many bits hold every sample.
    if kind.bits() <= 8 * layout.bytes {
        return true;
    }
    let spelled = kind.in_bytes(layout.bytes);
    for i in 0..offsets.len() {
        if !spelled.has(kind.sample_of(offsets[i])) {
            return false;
        }
    }
    true
}

/// `write_part` in band sequential order, in which the samples of a cube follow one another.
fn write_sequence(
    shape: Shape,
    kind: Kind,
    layout: Layout,
    part: Part,
    offsets: &[u16],
    bytes: &mut [u8],
) -> bool
    requires layout { IsLayout layout }
    requires order { layout.order ≡ Bsq }
    requires part { IsPart layout shape part }
    requires offsets { AreOffsets shape kind offsets.now }
    requires whole { length bytes.old ≡ part_samples layout shape part * layout.bytes }
    ensures written { IsTrue result → AreWrittenTo shape kind layout (first_sample layout shape part) (part_samples layout shape part) offsets.now bytes.new }
    ensures good { CanBeWritten shape kind layout offsets.now → IsTrue result }
{
    let _count = shape.sample_count();
    let piece = Piece::sequential(shape, part);
    write_piece(
        layout,
        &Scale::new(kind, layout.bytes),
        piece,
        offsets,
        bytes,
    )
}

/// `write_part` under interleaving by line, a row of one band at a time.
fn write_lines(
    shape: Shape,
    kind: Kind,
    layout: Layout,
    part: Part,
    offsets: &[u16],
    bytes: &mut [u8],
) -> bool
    requires layout { IsLayout layout }
    requires order { layout.order ≡ Bil }
    requires part { IsPart layout shape part }
    requires offsets { AreOffsets shape kind offsets.now }
    requires whole { length bytes.old ≡ part_samples layout shape part * layout.bytes }
    ensures written { IsTrue result → AreWrittenTo shape kind layout (first_sample layout shape part) (part_samples layout shape part) offsets.now bytes.new }
    ensures good { CanBeWritten shape kind layout offsets.now → IsTrue result }
{
    let _count = shape.sample_count();
    let scale = Scale::new(kind, layout.bytes);
    let bands = shape.bands();
    let (mut y, mut z) = part.line(shape);
    for line in 0..part.count {
        let piece = Piece::line(shape, part, z, y, line);
        if !write_piece(layout, &scale, piece, offsets, bytes) {
            return false;
        }
        z += 1;
        if z == bands {
            z = 0;
            y += 1;
        }
    }
    true
}

/// `write_part` under interleaving by pixel, a block of pixels at a time.
fn write_pixels(
    shape: Shape,
    kind: Kind,
    layout: Layout,
    part: Part,
    offsets: &[u16],
    bytes: &mut [u8],
) -> bool
    requires layout { IsLayout layout }
    requires order { layout.order ≡ Bip }
    requires part { IsPart layout shape part }
    requires offsets { AreOffsets shape kind offsets.now }
    requires whole { length bytes.old ≡ part_samples layout shape part * layout.bytes }
    ensures written { IsTrue result → AreWrittenTo shape kind layout (first_sample layout shape part) (part_samples layout shape part) offsets.now bytes.new }
    ensures good { CanBeWritten shape kind layout offsets.now → IsTrue result }
{
    let _count = shape.sample_count();
    let scale = Scale::new(kind, layout.bytes);
    let mut pixel = 0;
    while pixel < part.count {
        let block = BLOCK.min(part.count - pixel);
        for z in 0..shape.bands() {
            let piece = Piece::pixels(shape, part, z, pixel, block);
            if !write_piece(layout, &scale, piece, offsets, bytes) {
                return false;
            }
        }
        pixel += block;
    }
    true
}
