//! A cube of samples, kept in two bytes each.

ghost use Rattle.std.specs.Prelude.{◌≡◌, ◌≢◌, ◌↔◌, ◌+◌, ◌*◌, ◌^◌, ◌<◌, ◌≤◌, ◌≤ℤ◌, ◌++◌, ℕ, None, length, take, drop, slice_index, replicate, pos, negsuc, IfOk, IfErr, IfSome};
ghost use Rattle.cube_core.specs.Shape.{sample_count};
ghost use Rattle.cube_core.specs.Image.{IsCube, IsPlace, sample_at, put};
ghost use Rattle.cube_core.specs.Layout.{IsLayout, raw_bytes, HaveBytes, IsFirstBad, IsFirstUnfit};
ghost use Rattle.cube_core.specs.Raw.{AreSamples, IsRawFault, IsUnfit};
ghost use Rattle.cube_core.specs.declared.fault.Fault.TheVariants.{RawLength, SampleRange, WantOfMemory};
ghost use Rattle.cube_core.specs.Kind.{IsSample};
ghost use Rattle.cube_core.specs.Offsets.{AreRowOffsets};
ghost use Rattle.cube_core.specs.Parts.{IsPart, first_sample, part_samples};
ghost use Rattle.cube_core.specs.Runs.{IsRunSet};

use crate::cursor::Places;
use crate::fault::Fault;
use crate::kind::Kind;
use crate::layout::Layout;
use crate::part::Part;
use crate::raw_read::{first_bad, read_part};
use crate::raw_write::{can_be_written, write_part};
use crate::shape::{Shape, index_at};
use std::alloc::Global;
use std::marker::Model;

/// A shape, a kind, and one sample of that kind at each place.
///
/// A sample is stored as its offset from the least sample of the kind, which fits in 16 bits.
#[derive(Drop)]
pub struct Cube {
    shape: Shape,
    kind: Kind,
    offsets: Vec<u16>,
}

impl Model for Cube {
    ghost use Rattle.cube_core.specs.Image.{Image};
    ghost use Rattle.cube_core.specs.Offsets.{samples_of, AreOffsets};

    ghost Value = { Image };

    ghost view = { λ c. record { shape = c.shape; kind = c.kind; samples = samples_of c.kind c.offsets.items } };

    ghost invariant = { λ c. AreOffsets c.shape c.kind c.offsets.items };
}

impl Cube {
    /// Returns a cube of this shape and kind whose samples are all 0.
    ///
    /// Returns `WantOfMemory` if the samples can't be allocated.
    pub fn new(alloc: Global, shape: Shape, kind: Kind) -> Result<Cube, Fault>
        ensures zeros { IfOk result (λ c. c ≡ record { shape = shape; kind = kind; samples = replicate (sample_count shape) (pos 0) }) }
        ensures memory { IfErr result (λ fault. fault ≡ WantOfMemory) }
    {
        let offsets = vec![in alloc; kind.offset_of(0); shape.sample_count() as usize]?;
        Ok(Cube {
            shape,
            kind,
            offsets,
        })
    }

    /// Returns the cube whose samples the raw bytes hold in this layout.
    ///
    /// Returns `RawLength` if the number of bytes isn't that of the samples; else `WantOfMemory` if the samples
    /// can't be allocated; else `SampleRange` with the index, in the layout's order, of the first sample out of
    /// the kind's range.
    pub fn from_raw(
        alloc: Global,
        shape: Shape,
        kind: Kind,
        layout: Layout,
        bytes: &[u8],
    ) -> Result<Cube, Fault>
        requires { IsLayout layout }
        ensures whole { IfOk result IsCube }
        ensures cube { IfOk result (λ c. (c.shape ≡ shape) × (c.kind ≡ kind) × (raw_bytes c layout ≡ bytes.now)) }
        ensures fits { IfOk result (λ c. HaveBytes c layout (sample_count shape)) }
        ensures length { (result ≡ Err (RawLength (sample_count shape * layout.bytes) (length bytes.now)))
            ↔ (length bytes.now ≢ sample_count shape * layout.bytes) }
        ensures refused { IfErr result (IsRawFault shape kind layout bytes.now) }
    {
        let wanted = layout.length(shape);
        let had = bytes.len() as u64;
        if had != wanted {
            return Err(Fault::RawLength { wanted, had });
        }
        let cube = Cube::new(alloc, shape, kind)?;
        cube.read_part(layout, layout.all(shape), bytes)
    }

    /// Returns the cube whose samples of a part are those that raw bytes hold in this layout. The samples before it are the same.
    ///
    /// Returns `SampleRange` with the index, in the layout's order, of the first sample of the part out of the kind's range.
    pub fn read_part(self, layout: Layout, part: Part, bytes: &[u8]) -> Result<Cube, Fault>
        requires layout { IsLayout layout }
        requires part { IsPart layout self.shape part }
        requires whole { length bytes.now ≡ part_samples layout self.shape part * layout.bytes }
        ensures whole { IfOk result IsCube }
        ensures same { IfOk result (λ c. (c.shape ≡ self.shape) × (c.kind ≡ self.kind)) }
        ensures read { IfOk result (λ c. take ((first_sample layout self.shape part + part_samples layout self.shape part) * layout.bytes) (raw_bytes c layout)
            ≡ take (first_sample layout self.shape part * layout.bytes) (raw_bytes self layout) ++ bytes.now) }
        ensures fits { IfOk result (λ c. HaveBytes self layout (first_sample layout self.shape part)
            → HaveBytes c layout (first_sample layout self.shape part + part_samples layout self.shape part)) }
        ensures samples { IfOk result (λ _. AreSamples self.kind layout bytes.now (part_samples layout self.shape part)) }
        ensures refused { IfErr result (λ e. (i : ℕ) × (e ≡ SampleRange (first_sample layout self.shape part + i)) × IsFirstBad self.kind layout bytes.now i) }
    {
        let Cube {
            shape,
            kind,
            mut offsets,
        } = self;
        // Sizes and the kind's range are a part of what a cube is.
        let _count = shape.sample_count();
        let _bits = kind.bits();
        if read_part(shape, kind, layout, part, bytes, &mut offsets) {
            Ok(Cube {
                shape,
                kind,
                offsets,
            })
        } else {
            let unit = layout.unit(shape);
            Err(Fault::SampleRange {
                index: part.first * unit + first_bad(kind, layout, bytes, part.count * unit),
            })
        }
    }

    /// Returns the samples as raw bytes in this layout.
    ///
    /// Returns `WantOfMemory` if the bytes can't be allocated; else `SampleRange` with the index, in the
    /// layout's order, of the first sample that doesn't fit in its bytes. The latter happens only with one byte
    /// a sample and more than eight bits.
    pub fn to_raw(&self, alloc: Global, layout: Layout) -> Result<Vec<u8>, Fault>
        requires { IsLayout layout }
        ensures bytes { IfOk result (λ bytes. bytes.items ≡ raw_bytes self.now layout) }
        ensures fits { IfOk result (λ _. HaveBytes self.now layout (sample_count self.now.shape)) }
        ensures refused { IfErr result (IsUnfit self.now layout) }
    {
        let shape = self.shape();
        // At most 2^48 samples, so no length overflows.
        let _count = shape.sample_count();
        let mut bytes = vec![in alloc; 0u8; layout.length(shape) as usize]?;
        let all = layout.all(shape);
        if write_part(shape, self.kind, layout, all, &self.offsets, &mut bytes) {
            Ok(bytes)
        } else {
            Err(Fault::SampleRange {
                index: self.first_unfit(layout),
            })
        }
    }

    /// Writes the samples as raw bytes in this layout over as many bytes. Each sample has to fit in its own: `unfit` tells.
    pub fn write_raw(&self, layout: Layout, bytes: &mut [u8])
        requires layout { IsLayout layout }
        requires fits { HaveBytes self.now layout (sample_count self.now.shape) }
        requires room { length bytes.old ≡ sample_count self.now.shape * layout.bytes }
        ensures { bytes.new ≡ raw_bytes self.now layout }
    {
        self.write_part(layout, layout.all(self.shape), bytes);
    }

    /// Writes the samples of a part as raw bytes in this layout over as many bytes. Each sample of the cube has to fit in its own.
    pub fn write_part(&self, layout: Layout, part: Part, bytes: &mut [u8])
        requires layout { IsLayout layout }
        requires fits { HaveBytes self.now layout (sample_count self.now.shape) }
        requires part { IsPart layout self.now.shape part }
        requires room { length bytes.old ≡ part_samples layout self.now.shape part * layout.bytes }
        ensures { bytes.new ≡ take (part_samples layout self.now.shape part * layout.bytes)
            (drop (first_sample layout self.now.shape part * layout.bytes) (raw_bytes self.now layout)) }
    {
        let shape = self.shape();
        let _count = shape.sample_count();
        // Each sample fits, so this is true.
        let _all = write_part(shape, self.kind, layout, part, &self.offsets, bytes);
    }

    /// Returns the index, in the layout's order, of the first sample that doesn't fit in its bytes, or `None` if each does.
    /// There is such a sample only with one byte a sample and more than eight bits.
    pub fn unfit(&self, layout: Layout) -> Option<u64>
        requires { IsLayout layout }
        ensures fits { result ≡ None → HaveBytes self.now layout (sample_count self.now.shape) }
        ensures first { IfSome result (IsFirstUnfit self.now layout) }
    {
        let _count = self.shape.sample_count();
        if can_be_written(self.kind, layout, &self.offsets) {
            None
        } else {
            Some(self.first_unfit(layout))
        }
    }

    /// Returns the index, in the layout's order, of the first sample that doesn't fit in its bytes.
    fn first_unfit(&self, layout: Layout) -> u64
        requires layout { IsLayout layout }
        requires some { HaveBytes self.now layout (sample_count self.now.shape) → ⊥ }
        ensures { IsFirstUnfit self.now layout result }
    {
        let shape = self.shape();
        let kind = self.kind();
        // At most 2^48 samples, so no index overflows.
        let _count = shape.sample_count();
        let spelled = kind.in_bytes(layout.bytes);
        let mut places = Places::new(shape, layout.order.order(shape));
        let mut i = 0;
        while let Some(place) = places.next() {
            let sample = self.sample(place.z, place.y, place.x);
            if !spelled.has(sample) {
                return i;
            }
            i += 1;
        }
        unreachable!()
    }

    /// The cube's shape.
    pub fn shape(&self) -> Shape
        ensures { result ≡ self.now.shape }
    {
        self.shape
    }

    /// The kind of the cube's samples.
    pub fn kind(&self) -> Kind
        ensures { result ≡ self.now.kind }
    {
        self.kind
    }

    /// Returns the sample of band `z` at row `y`, column `x`, which are inside the shape.
    pub fn sample(&self, z: u32, y: u32, x: u32) -> i32
        requires { IsPlace self.now.shape z y x }
        ensures value { result ≡ sample_at self.now z y x }
        ensures range { IsSample self.now.kind result }
        ensures bounds { (negsuc 32767 ≤ℤ result) × (result ≤ℤ pos 65535) }
    {
        let at = index_at(self.shape, z, y, x);
        self.kind.sample_of(self.offsets[at])
    }

    /// Sets the sample of band `z` at row `y`, column `x`, which are inside the shape, to a sample of the kind.
    /// No other sample changes.
    pub fn set(&mut self, z: u32, y: u32, x: u32, sample: i32)
        requires place { IsPlace self.old.shape z y x }
        requires range { IsSample self.old.kind sample }
        ensures { self.new ≡ put self.old z y x sample }
    {
        let at = index_at(self.shape, z, y, x);
        self.offsets[at] = self.kind.offset_of(sample);
    }

    /// Sets samples of row `y` of band `z`, from column `x` on, which are inside the shape, to those with these offsets from the
    /// least sample of the kind, each at most 2^D - 1. No other sample changes.
    pub fn set_run(&mut self, z: u32, y: u32, x: u32, offsets: &[u16])
        requires place { IsPlace self.old.shape z y x }
        requires inside { x + length offsets.now ≤ self.old.shape.columns }
        requires range { (i : ℕ) → i < length offsets.now → slice_index offsets.now i < 2 ^ self.old.kind.bits }
        ensures { IsRunSet self.old self.new z y x offsets.now }
    {
        put_run(&mut self.offsets, index_at(self.shape, z, y, x), offsets);
    }

    /// Lemma: sizes and kind are in range, and there is one sample of the kind at each place. It does nothing at run time.
    pub fn prove_is_cube(&self)
        ensures { IsCube self.now }
    {
        let _columns = self.shape.columns();
        let _rows = self.shape.rows();
        let _bands = self.shape.bands();
        let _bits = self.kind.bits();
    }

    /// Returns row `y` of band `z`, which are inside the shape: each sample as its offset from the least sample of the kind.
    pub fn row(&self, z: u32, y: u32) -> &[u16]
        requires { IsPlace self.now.shape z y 0 }
        ensures len { length result.now ≡ self.now.shape.columns }
        ensures samples { AreRowOffsets self.now z y result.now }
    {
        let from = index_at(self.shape, z, y, 0);
        &self.offsets[from..from + self.shape.columns() as usize]
    }
}

/// Replaces offsets, from index `at` on, by others.
fn put_run(all: &mut [u16], at: usize, offsets: &[u16])
    requires { at + length offsets.now ≤ length all.old }
    ensures long { length all.new ≡ length all.old }
    ensures put { (i : ℕ) → i < length offsets.now → slice_index all.new (at + i) ≡ slice_index offsets.now i }
    ensures others { (j : ℕ) → (at ≤ j → at + length offsets.now ≤ j) → slice_index all.new j ≡ slice_index all.old j }
{
    all[at..at + offsets.len()].copy_from_slice(offsets);
}
