//! The file encoder of an image: from residuals in encoding order to the bytes of its file.

ghost use Rattle.std.specs.Prelude.{◌≡◌, ◌+◌, ◌<◌, ◌≤◌, ℕ, List, [], ◌∷◌, ◌++◌, length, take, drop, Some, slice_get, IsTrue, IfOk, IfErr, OnOk, OnErr};
ghost use Rattle.cube_core.specs.declared.fault.Fault.TheVariants.{WantOfMemory};
ghost use Rattle.cube_core.specs.Shape.{InRange};
ghost use Rattle.cube_core.specs.declared.order.Place.{Place as APlace};
ghost use Rattle.header_bits.specs.declared.params.Params.{Params as Parameters};
ghost use Rattle.header_bits.specs.Bits.{bits_of_bytes};
ghost use Rattle.header_bits.specs.Lawful.{IsLawful};
ghost use Rattle.cube_core.specs.declared.order.Order.TheVariants.{Bsq, Bi};
ghost use Rattle.file_encoding.specs.Coding.{IsBySamples, IsByBlocks};
ghost use Rattle.file_encoding.specs.Ends.{HasCoded, MayCode, MayCodeAll, MayCodeRun, MayCodeColumn, CodesAll};
ghost use Rattle.cube_core.specs.Along.{AreByRows};
ghost use Rattle.file_format.specs.File.{filled, packed, file_of_residuals};

use crate::encoder::EntropyEncoder;
use cube_core::cursor::Places;
use cube_core::fault::Fault;
use cube_core::order::{Order, Place};
use header_bits::bit_writer::BitWriter;
use header_bits::header::put_header;
use header_bits::params::Params;
use std::alloc::Global;
use std::marker::Model;

/// What was written of an image's file, and the places whose residuals are still to come.
#[derive(Drop)]
pub struct FileEncoder {
    writer: BitWriter,
    encoder: EntropyEncoder,
    places: Places,
    columns: u64,
    /// Whether each place is followed by the next one of its row, as far as the row goes.
    by_rows: bool,
    word: u32,
}

impl Model for FileEncoder {
    ghost use Rattle.cube_core.specs.Shape.{InRange};
    ghost use Rattle.std.specs.Prelude.{IsTrue};
    ghost use Rattle.file_encoding.specs.Ends.{FileEncoderState};
    ghost use Rattle.cube_core.specs.Along.{AreByRows};

    ghost Value = { FileEncoderState };

    ghost view = { λ e. record { columns = e.columns; word = e.word; left = e.places; coder = e.encoder; bits = e.writer.bits } };

    ghost invariant = { λ e. (InRange 1 8 e.word) × (IsTrue e.by_rows → AreByRows e.columns e.places) };
}

impl FileEncoder {
    /// Returns the file encoder of an image. It has written the header and taken no residual.
    ///
    /// Returns `WantOfMemory` if the header or the statistics of all bands can't be allocated.
    pub fn new(alloc: Global, params: &Params) -> Result<FileEncoder, Fault>
        requires { IsLawful params.now }
        ensures coded { IfOk result (λ end. HasCoded params.now end []) }
        ensures refused { IfErr result (λ e. e ≡ WantOfMemory) }
    {
        let mut writer = BitWriter::new(alloc);
        put_header(params, &mut writer)?;
        Ok(FileEncoder {
            writer,
            encoder: EntropyEncoder::new(alloc, params)?,
            places: Places::new(params.shape, params.order),
            columns: u64::from(params.shape.columns()),
            by_rows: params.order.goes_along_rows(),
            word: params.word,
        })
    }

    /// Returns the place of the next residual, or `None` after the last.
    pub fn place(&self) -> Option<Place>
        ensures { result ≡ slice_get self.now.left 0 }
    {
        self.places.peek()
    }

    /// Returns how many of the next places share a row and column, band after band: at least one where there is a next place.
    pub fn column(&self) -> u64
        ensures along { (i : ℕ) (p : APlace) → i < result → slice_get self.now.left 0 ≡ Some p → slice_get self.now.left i ≡ Some (record p { z = p.z + i }) }
        ensures some { (p : APlace) → slice_get self.now.left 0 ≡ Some p → 1 ≤ result }
    {
        self.places.column()
    }

    /// Takes the residual of the next place, which is at most 2^D - 1.
    ///
    /// Returns `WantOfMemory` if an allocation fails; then nothing was changed.
    #[inline(always)]
    pub fn put(&mut self, place: Place, delta: u16) -> Result<(), Fault>
        requires next { slice_get self.old.left 0 ≡ Some place }
        requires may { MayCode self.old delta }
        ensures coded { OnOk result ((p : Parameters) (numbers : List ℕ) → HasCoded p self.old numbers → HasCoded p self.new (numbers ++ delta ∷ [])) }
        ensures moved { OnOk result (self.old.left ≡ place ∷ self.new.left) }
        ensures same { OnErr result (self.new ≡ self.old) }
        ensures refused { IfErr result (λ e. e ≡ WantOfMemory) }
    {
        let t = u64::from(place.y) * self.columns + u64::from(place.x);
        self.encoder.put(place.z, t, delta, &mut self.writer)?;
        self.places.next();
        Ok(())
    }

    /// Takes the residuals of the next places, each of which is at most 2^D - 1. At least as many are still to come.
    ///
    /// Returns `WantOfMemory` if an allocation fails; then some of the first were taken, or none.
    pub fn put_all(&mut self, residuals: &[u16]) -> Result<(), Fault>
        requires { MayCodeAll self.old residuals.now }
        ensures coded { OnOk result (CodesAll self.old self.new residuals.now) }
        ensures some { OnErr result ((n : ℕ) × (n < length residuals.now) × CodesAll self.old self.new (take n residuals.now)) }
        ensures refused { IfErr result (λ e. e ≡ WantOfMemory) }
    {
        if !self.encoder.is_by_samples() {
            self.put_blocks(residuals)
        } else if self.by_rows {
            self.put_rows(residuals)
        } else {
            self.put_columns(residuals)
        }
    }

    /// Takes residuals by the block-adaptive coder, which needs no places: all of them are skipped at once.
    fn put_blocks(&mut self, residuals: &[u16]) -> Result<(), Fault>
        requires may { MayCodeAll self.old residuals.now }
        requires blocks { IsByBlocks self.old.coder }
        ensures coded { OnOk result (CodesAll self.old self.new residuals.now) }
        ensures some { OnErr result ((n : ℕ) × (n < length residuals.now) × CodesAll self.old self.new (take n residuals.now)) }
        ensures refused { IfErr result (λ e. e ≡ WantOfMemory) }
    {
        let taken = self.encoder.put_blocks(residuals, &mut self.writer);
        self.places.go_by(taken as u64);
        if taken < residuals.len() {
            return Err(Fault::WantOfMemory);
        }
        Ok(())
    }

    /// Takes residuals by the sample-adaptive coder where places go by columns of bands.
    fn put_columns(&mut self, residuals: &[u16]) -> Result<(), Fault>
        requires may { MayCodeAll self.old residuals.now }
        requires samples { IsBySamples self.old.coder }
        ensures coded { OnOk result (CodesAll self.old self.new residuals.now) }
        ensures some { OnErr result ((n : ℕ) × (n < length residuals.now) × CodesAll self.old self.new (take n residuals.now)) }
        ensures refused { IfErr result (λ e. e ≡ WantOfMemory) }
    {
        let mut first = 0;
        while first < residuals.len() {
            let Some(place) = self.place() else {
                unreachable!()
            };
            let column = self.places.column().min(1 << 16) as usize;
            let count = column.min(residuals.len() - first);
            self.put_column(place, &residuals[first..first + count])?;
            first += count;
        }
        Ok(())
    }

    /// Takes residuals of one row and column, band after band, from the next place on, by the sample-adaptive coder.
    ///
    /// Returns `WantOfMemory` if an allocation fails; then nothing was changed.
    #[inline(always)]
    fn put_column(&mut self, place: Place, column: &[u16]) -> Result<(), Fault>
        requires { MayCodeColumn self.old place column.now }
        ensures coded { OnOk result (CodesAll self.old self.new column.now) }
        ensures same { OnErr result (self.new ≡ self.old) }
        ensures refused { IfErr result (λ e. e ≡ WantOfMemory) }
    {
        let t = u64::from(place.y) * self.columns + u64::from(place.x);
        self.encoder
            .put_column(place.z, t, column, &mut self.writer)?;
        self.places.go_by(column.len() as u64);
        Ok(())
    }

    /// Takes residuals by the sample-adaptive coder where places go along rows.
    // What there is of a row is one call, which reserves room once and keeps the band's statistics at hand.
    fn put_rows(&mut self, residuals: &[u16]) -> Result<(), Fault>
        requires may { MayCodeAll self.old residuals.now }
        requires rows { AreByRows self.old.columns self.old.left }
        requires samples { IsBySamples self.old.coder }
        ensures coded { OnOk result (CodesAll self.old self.new residuals.now) }
        ensures some { OnErr result ((n : ℕ) × (n < length residuals.now) × CodesAll self.old self.new (take n residuals.now)) }
        ensures refused { IfErr result (λ e. e ≡ WantOfMemory) }
    {
        let mut first = 0;
        while first < residuals.len() {
            let Some(place) = self.place() else {
                unreachable!()
            };
            let row = (self.columns - u64::from(place.x)) as usize;
            let count = row.min(residuals.len() - first);
            self.put_run(place, &residuals[first..first + count])?;
            first += count;
        }
        Ok(())
    }

    /// Takes residuals of one row, from the next place on, by the sample-adaptive coder.
    ///
    /// Returns `WantOfMemory` if an allocation fails; then nothing was changed.
    #[inline(always)]
    fn put_run(&mut self, place: Place, run: &[u16]) -> Result<(), Fault>
        requires { MayCodeRun self.old place run.now }
        ensures coded { OnOk result (CodesAll self.old self.new run.now) }
        ensures rows { AreByRows self.new.columns self.new.left }
        ensures same { OnErr result (self.new ≡ self.old) }
        ensures refused { IfErr result (λ e. e ≡ WantOfMemory) }
    {
        let t = u64::from(place.y) * self.columns + u64::from(place.x);
        self.encoder.put_run(place.z, t, run, &mut self.writer)?;
        self.places.go_by(run.len() as u64);
        Ok(())
    }

    /// Returns the bytes of the file, once a residual was taken for each place.
    ///
    /// Returns `WantOfMemory` if they can't be allocated.
    pub fn finish(self) -> Result<Vec<u8>, Fault>
        requires { self.left ≡ [] }
        ensures file { IfOk result (λ bytes. (p : Parameters) (numbers : List ℕ) → HasCoded p self numbers → bytes.items ≡ file_of_residuals numbers p) }
        ensures refused { IfErr result (λ e. e ≡ WantOfMemory) }
    {
        let FileEncoder {
            mut writer,
            mut encoder,
            places: _,
            columns: _,
            by_rows: _,
            word,
        } = self;
        encoder.end(&mut writer)?;
        put_fill(word, &mut writer)?;
        let bytes = writer.into_bytes();
        prove_packed(&bytes);
        Ok(bytes)
    }
}

/// Appends zeros up to a whole number of output words of `word` bytes.
fn put_fill(word: u32, writer: &mut BitWriter) -> Result<(), Fault>
    requires { InRange 1 8 word }
    ensures filled { OnOk result (writer.new.bits ≡ filled word writer.old.bits) }
    ensures refused { IfErr result (λ e. e ≡ WantOfMemory) }
{
    let unit = 8 * word;
    let over = (writer.bit_count() % u64::from(unit)) as u32;
    writer.push(0, (unit - over) % unit)
}

/// Lemma: bytes are their own bits, packed. The call does nothing.
#[tactic(auto, using(file_format::proofs::Packed::packed_is))]
fn prove_packed(bytes: &[u8])
    ensures { bytes.now ≡ packed (bits_of_bytes bytes.now) }
{}
