//! Samples read from raw bytes.

ghost use Rattle.std.specs.Prelude.{◌≡◌, ◌*◌, ◌<◌, ◌≤◌, ◌^◌, IsTrue, length};
ghost use Rattle.cube_core.specs.declared.layout.RawOrder.TheVariants.{Bsq, Bil, Bip};
ghost use Rattle.cube_core.specs.Offsets.{AreOffsets};
ghost use Rattle.cube_core.specs.Layout.{IsLayout, IsFirstBad};
ghost use Rattle.cube_core.specs.Raw.{AreSamples};
ghost use Rattle.cube_core.specs.Parts.{IsPart, AreReadTo, first_sample, part_samples};

use crate::kind::Kind;
use crate::layout::{Layout, RawOrder};
use crate::part::{Part, Piece};
use crate::piece::{BLOCK, read_piece};
use crate::scale::Scale;
use crate::shape::Shape;

/// Writes the offset of each sample of a part and returns true, or returns false if one isn't of the kind; some are then not written.
pub(crate) fn read_part(
    shape: Shape,
    kind: Kind,
    layout: Layout,
    part: Part,
    bytes: &[u8],
    offsets: &mut [u16],
) -> bool
    requires layout { IsLayout layout }
    requires part { IsPart layout shape part }
    requires whole { length bytes.now ≡ part_samples layout shape part * layout.bytes }
    requires offsets { AreOffsets shape kind offsets.old }
    ensures filled { IsTrue result → AreReadTo shape kind layout (first_sample layout shape part) (part_samples layout shape part) bytes.now offsets.old
        offsets.new }
    ensures offsets { IsTrue result → AreOffsets shape kind offsets.new }
    ensures good { AreSamples kind layout bytes.now (part_samples layout shape part) → IsTrue result }
{
    match layout.order {
        RawOrder::Bsq => read_sequence(shape, kind, layout, part, bytes, offsets),
        RawOrder::Bil => read_lines(shape, kind, layout, part, bytes, offsets),
        RawOrder::Bip => read_pixels(shape, kind, layout, part, bytes, offsets),
    }
}

/// `read_part` in band sequential order, in which the samples of a cube follow one another.
fn read_sequence(
    shape: Shape,
    kind: Kind,
    layout: Layout,
    part: Part,
    bytes: &[u8],
    offsets: &mut [u16],
) -> bool
    requires layout { IsLayout layout }
    requires order { layout.order ≡ Bsq }
    requires part { IsPart layout shape part }
    requires whole { length bytes.now ≡ part_samples layout shape part * layout.bytes }
    requires offsets { AreOffsets shape kind offsets.old }
    ensures filled { IsTrue result → AreReadTo shape kind layout (first_sample layout shape part) (part_samples layout shape part) bytes.now offsets.old
        offsets.new }
    ensures offsets { IsTrue result → AreOffsets shape kind offsets.new }
    ensures good { AreSamples kind layout bytes.now (part_samples layout shape part) → IsTrue result }
{
    let _count = shape.sample_count();
    let piece = Piece::sequential(shape, part);
    read_piece(
        layout,
        &Scale::new(kind, layout.bytes),
        piece,
        bytes,
        offsets,
    )
}

/// `read_part` under interleaving by line, a row of one band at a time.
fn read_lines(
    shape: Shape,
    kind: Kind,
    layout: Layout,
    part: Part,
    bytes: &[u8],
    offsets: &mut [u16],
) -> bool
    requires layout { IsLayout layout }
    requires order { layout.order ≡ Bil }
    requires part { IsPart layout shape part }
    requires whole { length bytes.now ≡ part_samples layout shape part * layout.bytes }
    requires offsets { AreOffsets shape kind offsets.old }
    ensures filled { IsTrue result → AreReadTo shape kind layout (first_sample layout shape part) (part_samples layout shape part) bytes.now offsets.old
        offsets.new }
    ensures offsets { IsTrue result → AreOffsets shape kind offsets.new }
    ensures good { AreSamples kind layout bytes.now (part_samples layout shape part) → IsTrue result }
{
    let _count = shape.sample_count();
    let scale = Scale::new(kind, layout.bytes);
    let bands = shape.bands();
    let (mut y, mut z) = part.line(shape);
    for line in 0..part.count {
        let piece = Piece::line(shape, part, z, y, line);
        if !read_piece(layout, &scale, piece, bytes, offsets) {
            return false;
        }
        z += 1;
        if z == bands {
            z = 0;
            y += 1;
        }
    }
    true
}

/// `read_part` under interleaving by pixel, a block of pixels at a time.
fn read_pixels(
    shape: Shape,
    kind: Kind,
    layout: Layout,
    part: Part,
    bytes: &[u8],
    offsets: &mut [u16],
) -> bool
    requires layout { IsLayout layout }
    requires order { layout.order ≡ Bip }
    requires part { IsPart layout shape part }
    requires whole { length bytes.now ≡ part_samples layout shape part * layout.bytes }
    requires offsets { AreOffsets shape kind offsets.old }
    ensures filled { IsTrue result → AreReadTo shape kind layout (first_sample layout shape part) (part_samples layout shape part) bytes.now offsets.old
        offsets.new }
    ensures offsets { IsTrue result → AreOffsets shape kind offsets.new }
    ensures good { AreSamples kind layout bytes.now (part_samples layout shape part) → IsTrue result }
{
    let _count = shape.sample_count();
    let scale = Scale::new(kind, layout.bytes);
    let mut pixel = 0;
    while pixel < part.count {
        let block = BLOCK.min(part.count - pixel);
        for z in 0..shape.bands() {
            let piece = Piece::pixels(shape, part, z, pixel, block);
            if !read_piece(layout, &scale, piece, bytes, offsets) {
                return false;
            }
        }
        pixel += block;
    }
    true
}

/// Returns the index of the first sample, in the layout's order, that isn't of the kind.
pub(crate) fn first_bad(kind: Kind, layout: Layout, bytes: &[u8], count: u64) -> u64
    requires layout { IsLayout layout }
    requires few { count ≤ 2 ^ 48 }
    requires whole { length bytes.now ≡ count * layout.bytes }
    requires some { AreSamples kind layout bytes.now count → ⊥ }
    ensures first { IsFirstBad kind layout bytes.now result }
    ensures within { result < count }
{
    let size = layout.bytes as usize;
    for i in 0..count {
        let from = i as usize * size;
        if !kind.has(layout.value(kind, &bytes[from..from + size])) {
            return i;
        }
    }
    unreachable!()
}
