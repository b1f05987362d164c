//! Encoding row by row, for images that are larger than memory.

ghost use Rattle.std.specs.Prelude.{◌≡◌, ◌+◌, ◌*◌, ◌<◌, ◌≤◌, ◌^◌, ◌++◌, [], length, IsTrue, IfOk, IfErr, OnOk};
ghost use Rattle.std.specs.List.{AllByRecursion};
ghost use Rattle.cube_core.specs.declared.fault.Fault.TheVariants.{WantOfMemory};
ghost use Rattle.header_bits.specs.Lawful.{IsLawful};
ghost use Rattle.header_bits.specs.declared.params.Params.{Params as Parameters};
ghost use Rattle.sample_prediction.specs.HandedRows.{row_size};
ghost use Rattle.file_encoding.specs.ByLines.{AreAllLines, IsFileOfLines, IsInterleaved, AreLinesUnderWay};

use crate::all_bands::{LineRooms, send_all_bands};
use crate::file_encoder::FileEncoder;
use cube_core::fault::Fault;
use cube_core::order::Order;
use header_bits::params::Params;
use predict_core::band::Band;
use predict_core::bands::all_bands;
use predict_core::handed::HandedRows;
use predict_core::rows::Rows;
use std::alloc::Global;
use std::marker::Model;

/// An encoder that is handed an image row by row, in an interleaved order.
///
/// It keeps the row above, the state of each band's predictor and coder, and the bytes of the file so far: no other sample.
#[derive(Drop)]
pub struct LineEncoder {
    y: u32,
    above: Vec<u16>,
    bands: Vec<Band>,
    rooms: Box<LineRooms>,
    end: FileEncoder,
    handed: HandedRows,
}

impl Model for LineEncoder {
    ghost use Rattle.file_encoding.specs.ByLines.{LineEncoderState};

    ghost Value = { LineEncoderState };

    ghost view = { λ e. record { y = e.y; offsets = e.handed.offsets; above = e.above.items; bands = e.bands.items; end = e.end } };
}

impl LineEncoder {
    /// Returns the encoder of an image with lawful parameters, in an interleaved order. It has been handed no row.
    ///
    /// Returns `WantOfMemory` if the header, the row above, the rooms, or the state of the predictors or of the coder can't be
    /// allocated.
    pub fn new(alloc: Global, params: &Params) -> Result<LineEncoder, Fault>
        requires lawful { IsLawful params.now }
        requires order { IsInterleaved params.now.order }
        ensures under_way { IfOk result (λ e. AreLinesUnderWay params.now e) }
        ensures none { IfOk result (λ e. (e.y ≡ 0) × (e.offsets ≡ [])) }
        ensures refused { IfErr result (λ e. e ≡ WantOfMemory) }
    {
        let shape = params.shape;
        let bands = all_bands(alloc, params)?;
        let end = FileEncoder::new(alloc, params)?;
        let size = shape.bands() as usize * shape.columns() as usize;
        let above = vec![in alloc; 0u16; size]?;
        Ok(LineEncoder {
            y: 0,
            above,
            bands,
            rooms: Box::new(alloc, LineRooms::new())?,
            end,
            handed: HandedRows::none(),
        })
    }

    /// Takes the next row of all bands: band after band, each sample as its offset from the least sample of the kind, at most
    /// 2^D - 1 (CCSDS 123.0-B-1, "Image"). The parameters are those that the encoder was made for.
    ///
    /// Returns `WantOfMemory` if an allocation fails; then the encoder may not be used any more.
    pub fn row(&mut self, params: &Params, samples: &[u16]) -> Result<(), Fault>
        requires under_way { AreLinesUnderWay params.now self.old }
        requires more { self.old.y < params.now.shape.rows }
        requires size { length samples.now ≡ row_size params.now.shape }
        requires range { AllByRecursion (λ v. v < 2 ^ params.now.kind.bits) samples.now }
        ensures under_way { OnOk result (AreLinesUnderWay params.now self.new) }
        ensures handed { OnOk result ((self.new.offsets ≡ self.old.offsets ++ samples.now) × (self.new.y ≡ self.old.y + 1)) }
        ensures refused { IfErr result (λ e. e ≡ WantOfMemory) }
    {
        let Order::Bi(depth) = params.order else {
            unreachable!()
        };
        self.handed = self.handed.and(samples);
        // The first row, which has none above it, is its own.
        if self.y == 0 {
            self.above.copy_from_slice(samples);
        }
        let rows = Rows::of_last(
            params.shape,
            params.kind,
            self.y,
            &samples[..],
            &self.above[..],
            &self.handed,
        );
        if !send_all_bands(
            &rows,
            params,
            depth,
            &mut self.bands,
            &mut self.rooms,
            &mut self.end,
        ) {
            return Err(Fault::WantOfMemory);
        }
        self.above.copy_from_slice(samples);
        self.y += 1;
        Ok(())
    }

    /// Returns the bytes of the file, once each row was handed over: those of every cube that has these rows.
    ///
    /// Returns `WantOfMemory` if they can't be allocated.
    pub fn finish(self) -> Result<Vec<u8>, Fault>
        requires whole { AreAllLines self }
        ensures file { IfOk result (λ bytes. (p : Parameters) → AreLinesUnderWay p self → self.y ≡ p.shape.rows → IsFileOfLines p self.offsets bytes.items) }
        ensures refused { IfErr result (λ e. e ≡ WantOfMemory) }
    {
        let LineEncoder {
            y: _,
            above: _,
            bands: _,
            rooms: _,
            end,
            handed: _,
        } = self;
        end.finish()
    }
}
