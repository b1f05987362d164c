//! A scene that is encoded while its raw bytes come, row after row.

ghost use Rattle.std.specs.Prelude.{◌≡◌, ◌+◌, ◌*◌, ◌^◌, ◌<◌, ◌++◌, ℕ, List, [], length, IfOk, IfErr, OnOk};
ghost use Rattle.std.specs.List.{AllByRecursion};
ghost use Rattle.cube_core.specs.declared.fault.Fault.TheVariants.{WantOfMemory};
ghost use Rattle.cube_core.specs.Layout.{IsLayout};
ghost use Rattle.header_bits.specs.declared.params.Params.{Params as Parameters};
ghost use Rattle.header_bits.specs.Lawful.{IsLawful};
ghost use Rattle.ccsds123.specs.Coding.{IsFileOfRaw};
ghost use Rattle.sample_prediction.specs.HandedRows.{row_size};
ghost use Rattle.file_encoding.specs.ByRows.{rows_of_order};
ghost use Rattle.raw_rows.specs.OneRow.{one_row as row_of, rows_of_raw};
ghost use Rattle.raw_rows.specs.Together.{GoTogether};
ghost use Rattle.ccsds123.specs.Rows.{AreMoreRows, IsEndRefusal, IsRowRefusal, IsRowsRefusal, IsWrongCount, with_more};
ghost use Rattle.ccsds123.specs.Scenes.{IsAllThere, IsAtStage, IsOpen, IsWritten, IsWrittenAs, all_rows, row_bytes, samples_in_row, scene_of};

use cube_core::cube::Cube;
use cube_core::fault::Fault;
use cube_core::layout::Layout;
use file_encoding::row_encoder::RowEncoder;
use header_bits::params::Params;
use raw_rows::one_row::{one_row, row_count, row_samples, take_row};
use sample_prediction::handed::HandedRows;
use std::alloc::Global;
use std::mem::replace;

/// An encoder, with what it was begun with.
#[derive(Drop)]
pub struct SceneEncoder {
    params: Params,
    layout: Layout,
    stage: Stage,
    rows: u64,
    handed: HandedRows,
}

/// The rows that are being encoded; or the file of all of them.
#[derive(Drop)]
enum Stage {
    Rows(RowEncoder),
    File(Vec<u8>),
}

impl SceneEncoder {
    /// Returns the encoder of a scene of which no row has come, with lawful parameters. Both order and layout interleave the bands, or
    /// neither does.
    ///
    /// Returns `WantOfMemory` if the encoder's state can't be allocated.
    pub fn new(alloc: Global, params: Params, layout: Layout) -> Result<SceneEncoder, Fault>
        requires lawful { IsLawful params }
        requires layout { IsLayout layout }
        requires together { GoTogether layout.order params.order }
        ensures open { IfOk result IsOpen }
        ensures none { IfOk result (λ s. scene_of s ≡ record { params = params; layout = layout; raw = [] }) }
        ensures refused { IfErr result (λ e. e ≡ WantOfMemory) }
    {
        let encoder = RowEncoder::new(alloc, &params)?;
        Ok(SceneEncoder {
            params,
            layout,
            stage: Stage::Rows(encoder),
            rows: 0,
            handed: HandedRows::none(),
        })
    }

    /// Takes raw bytes of the next rows, as many as there are.
    ///
    /// Returns `RawLength` if they aren't whole rows, or more than the scene still wants. Else it returns `WantOfMemory` if an
    /// allocation fails, or `SampleRange` with the index, in the scene's raw bytes, of the first sample that isn't of the kind.
    /// After a refusal the encoder may not be used any more.
    pub fn take_rows(&mut self, alloc: Global, raw: &[u8]) -> Result<(), Fault>
        requires { IsOpen self.old }
        ensures open { OnOk result (IsOpen self.new) }
        ensures taken { OnOk result (AreMoreRows (scene_of self.old) raw.now × (scene_of self.new ≡ with_more (scene_of self.old) raw.now)) }
        ensures refused { IfErr result (IsRowsRefusal (scene_of self.old) raw.now) }
    {
        self.test_rows(raw)?;
        let shape = self.params.shape;
        let row = Cube::new(alloc, one_row(self.layout, shape), self.params.kind)?;
        let mut samples = vec![in alloc; 0u16; row_samples(self.layout, shape) as usize]?;
        self.take_each(row, raw, &mut samples)
    }

    /// Refuses raw bytes that aren't whole rows, or are more than the scene still wants.
    fn test_rows(&self, raw: &[u8]) -> Result<(), Fault>
        requires { IsOpen self.now }
        ensures passed { OnOk result (AreMoreRows (scene_of self.now) raw.now) }
        ensures refused { IfErr result (IsWrongCount (scene_of self.now) raw.now) }
    {
        let shape = self.params.shape;
        let row = row_samples(self.layout, shape) * u64::from(self.layout.bytes);
        let wanted = self.layout.length(shape);
        let had = self.rows * row + raw.len() as u64;
        if raw.len() as u64 % row == 0 && had <= wanted {
            Ok(())
        } else {
            Err(Fault::RawLength { wanted, had })
        }
    }

    /// Takes rows, each by a cube of one row and its samples.
    fn take_each(&mut self, row: Cube, raw: &[u8], samples: &mut [u16]) -> Result<(), Fault>
        requires open { IsOpen self.old }
        requires more { AreMoreRows (scene_of self.old) raw.now }
        requires row { (row.shape ≡ row_of (rows_of_raw self.old.layout.order self.old.params.shape)) × (row.kind ≡ self.old.params.kind) }
        requires samples { length samples.old ≡ samples_in_row self.old.params self.old.layout }
        ensures open { OnOk result (IsOpen self.new) }
        ensures taken { OnOk result (scene_of self.new ≡ with_more (scene_of self.old) raw.now) }
        ensures refused { IfErr result (IsRowRefusal (scene_of self.old) raw.now) }
    {
        let size = samples.len() * self.layout.bytes as usize;
        let count = raw.len() / size;
        let mut row = row;
        for i in 0..count {
            row = self.take_row(row, &raw[i * size..(i + 1) * size], samples)?;
        }
        Ok(())
    }

    /// Takes the next row.
    fn take_row(&mut self, row: Cube, bytes: &[u8], samples: &mut [u16]) -> Result<Cube, Fault>
        requires open { IsOpen self.old }
        requires more { self.old.rows < all_rows self.old.params self.old.layout }
        requires row { (row.shape ≡ row_of (rows_of_raw self.old.layout.order self.old.params.shape)) × (row.kind ≡ self.old.params.kind) }
        requires bytes { length bytes.now ≡ row_bytes self.old.params self.old.layout }
        requires samples { length samples.old ≡ samples_in_row self.old.params self.old.layout }
        ensures open { OnOk result (IsOpen self.new) }
        ensures taken { OnOk result ((scene_of self.new ≡ with_more (scene_of self.old) bytes.now) × (self.new.rows ≡ self.old.rows + 1)) }
        ensures row { IfOk result (λ c. (c.shape ≡ row_of (rows_of_raw self.old.layout.order self.old.params.shape)) × (c.kind ≡ self.old.params.kind)) }
        ensures long { length samples.new ≡ length samples.old }
        ensures refused { IfErr result (IsRowRefusal (scene_of self.old) bytes.now) }
    {
        match take_row(row, self.layout, bytes, samples) {
            Ok(row) => {
                self.put_row(samples)?;
                Ok(row)
            }
            Err(index) => Err(Fault::SampleRange {
                index: self.rows * row_samples(self.layout, self.params.shape) + index,
            }),
        }
    }

    /// Encodes the next row: each sample as its offset from the least sample of the kind.
    ///
    /// Returns `WantOfMemory` if an allocation fails.
    fn put_row(&mut self, samples: &[u16]) -> Result<(), Fault>
        requires open { IsOpen self.old }
        requires more { self.old.rows < all_rows self.old.params self.old.layout }
        requires size { length samples.now ≡ samples_in_row self.old.params self.old.layout }
        requires range { AllByRecursion (λ v. v < 2 ^ self.old.params.kind.bits) samples.now }
        ensures same { OnOk result ((self.new.params ≡ self.old.params) × (self.new.layout ≡ self.old.layout)) }
        ensures put { OnOk result ((self.new.rows ≡ self.old.rows + 1) × (self.new.handed.offsets ≡ self.old.handed.offsets ++ samples.now)) }
        ensures stage { OnOk result (IsAtStage self.new.params self.new.handed.offsets self.new.rows self.new.stage) }
        ensures refused { IfErr result (λ e. e ≡ WantOfMemory) }
    {
        self.stage.put(&self.params, samples)?;
        self.handed = self.handed.and(samples);
        self.rows += 1;
        Ok(())
    }

    /// Makes the file, once all rows have come.
    ///
    /// Returns `RawLength` if rows are missing, and `WantOfMemory` if the file can't be allocated. After a refusal the encoder may not
    /// be used any more.
    pub fn end(&mut self, alloc: Global) -> Result<(), Fault>
        requires { IsOpen self.old }
        ensures open { OnOk result (IsOpen self.new) }
        ensures same { OnOk result (scene_of self.new ≡ scene_of self.old) }
        ensures written { OnOk result (IsWritten self.new) }
        ensures refused { IfErr result (IsEndRefusal (scene_of self.old)) }
    {
        let shape = self.params.shape;
        if self.rows != row_count(self.layout, shape) {
            let row = row_samples(self.layout, shape) * u64::from(self.layout.bytes);
            return Err(Fault::RawLength {
                wanted: self.layout.length(shape),
                had: self.rows * row,
            });
        }
        let stage = replace(&mut self.stage, Stage::File(Vec::new(alloc)));
        self.stage = stage.written()?;
        Ok(())
    }

    /// Returns the file that was made.
    pub fn file(&self) -> &[u8]
        requires { IsWritten self.now }
        ensures { IsFileOfRaw self.now.params self.now.layout (scene_of self.now).raw result.now }
    {
        match &self.stage {
            Stage::File(file) => file.as_slice(),
            Stage::Rows(_) => unreachable!(),
        }
    }
}

impl Stage {
    /// Encodes the next row.
    ///
    /// Returns `WantOfMemory` if an allocation fails.
    fn put(&mut self, params: &Params, samples: &[u16]) -> Result<(), Fault>
        requires more { (offsets : List ℕ) × (y : ℕ) × IsAtStage params.now offsets y self.old × (y < (rows_of_order params.now.order params.now.shape).rows) }
        requires size { length samples.now ≡ row_size (rows_of_order params.now.order params.now.shape) }
        requires range { AllByRecursion (λ v. v < 2 ^ params.now.kind.bits) samples.now }
        ensures put { OnOk result ((offsets : List ℕ) (y : ℕ) → IsAtStage params.now offsets y self.old → y < (rows_of_order params.now.order params.now.shape).rows
            → IsAtStage params.now (offsets ++ samples.now) (y + 1) self.new) }
        ensures refused { IfErr result (λ e. e ≡ WantOfMemory) }
    {
        match self {
            Stage::Rows(encoder) => encoder.row(params, samples),
            Stage::File(_) => unreachable!(),
        }
    }

    /// Returns the file of all rows.
    ///
    /// Returns `WantOfMemory` if it can't be allocated.
    fn written(self) -> Result<Stage, Fault>
        requires { IsAllThere self }
        ensures written { IfOk result (λ s. (p : Parameters) (offsets : List ℕ) → IsAtStage p offsets (rows_of_order p.order p.shape).rows self → IsWrittenAs p offsets s) }
        ensures refused { IfErr result (λ e. e ≡ WantOfMemory) }
    {
        match self {
            Stage::Rows(encoder) => Ok(Stage::File(encoder.finish()?)),
            Stage::File(file) => Ok(Stage::File(file)),
        }
    }
}
