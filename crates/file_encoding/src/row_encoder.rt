//! Encoding row by row, for images that are larger than memory.

ghost use Rattle.std.specs.Prelude.{◌≡◌, ◌+◌, ◌<◌, ◌^◌, ◌++◌, [], length, IfOk, IfErr, OnOk};
ghost use Rattle.std.specs.List.{AllByRecursion};
ghost use Rattle.cube_core.specs.declared.fault.Fault.TheVariants.{WantOfMemory};
ghost use Rattle.header_bits.specs.Lawful.{IsLawful};
ghost use Rattle.header_bits.specs.declared.params.Params.{Params as Parameters};
ghost use Rattle.sample_prediction.specs.HandedRows.{row_size};
ghost use Rattle.file_encoding.specs.ByRows.{AreAllRows, IsFileOfRows, IsUnderWay, rows_of_order};

use crate::line_encoder::LineEncoder;
use crate::plane_encoder::PlaneEncoder;
use cube_core::fault::Fault;
use cube_core::order::Order;
use header_bits::params::Params;
use std::alloc::Global;
use std::marker::Model;

/// An encoder that is handed the rows of an image, one after another: of all bands at once in an interleaved order, and of one band
/// after another in band-sequential order.
///
/// It keeps the rows, or the planes, that the prediction of the next ones reads, and the bytes of the file so far.
#[derive(Drop)]
pub struct RowEncoder {
    walk: Walk,
}

/// How the rows come.
#[derive(Drop)]
enum Walk {
    Lines(LineEncoder),
    Planes(PlaneEncoder),
}

impl Model for RowEncoder {
    ghost use Rattle.file_encoding.specs.ByRows.{RowEncoderState, rows_handed, rows_walked};

    ghost Value = { RowEncoderState };

    ghost view = { λ e. record { y = rows_walked e.walk; offsets = rows_handed e.walk; walk = e.walk } };
}

impl RowEncoder {
    /// Returns the encoder of an image with lawful parameters. It has been handed no row.
    ///
    /// Returns `WantOfMemory` if the header, what is kept, or the state of the predictors or of the coder can't be allocated.
    pub fn new(alloc: Global, params: &Params) -> Result<RowEncoder, Fault>
        requires { IsLawful params.now }
        ensures under_way { IfOk result (λ e. IsUnderWay params.now e) }
        ensures none { IfOk result (λ e. (e.y ≡ 0) × (e.offsets ≡ [])) }
        ensures refused { IfErr result (λ e. e ≡ WantOfMemory) }
    {
        match params.order {
            Order::Bsq => Ok(RowEncoder {
                walk: Walk::Planes(PlaneEncoder::new(alloc, params)?),
            }),
            Order::Bi(_) => Ok(RowEncoder {
                walk: Walk::Lines(LineEncoder::new(alloc, params)?),
            }),
        }
    }

    /// Takes the next row: of all bands, band after band, in an interleaved order; of one band, in band-sequential order, where that
    /// band's rows come before those of the next. Each sample is its offset from the least sample of the kind, at most 2^D - 1
    /// (CCSDS 123.0-B-1, "Image"). The parameters are those that the encoder was made for.
    ///
    /// Returns `WantOfMemory` if an allocation fails; then the encoder may not be used any more.
    pub fn row(&mut self, params: &Params, samples: &[u16]) -> Result<(), Fault>
        requires under_way { IsUnderWay params.now self.old }
        requires more { self.old.y < (rows_of_order params.now.order params.now.shape).rows }
        requires size { length samples.now ≡ row_size (rows_of_order params.now.order params.now.shape) }
        requires range { AllByRecursion (λ v. v < 2 ^ params.now.kind.bits) samples.now }
        ensures under_way { OnOk result (IsUnderWay params.now self.new) }
        ensures handed { OnOk result ((self.new.offsets ≡ self.old.offsets ++ samples.now) × (self.new.y ≡ self.old.y + 1)) }
        ensures refused { IfErr result (λ e. e ≡ WantOfMemory) }
    {
        match &mut self.walk {
            Walk::Lines(encoder) => encoder.row(params, samples),
            Walk::Planes(encoder) => encoder.row(params, samples),
        }
    }

    /// Returns the bytes of the file, once each row was handed over: those of every cube that has these rows.
    ///
    /// Returns `WantOfMemory` if they can't be allocated.
    pub fn finish(self) -> Result<Vec<u8>, Fault>
        requires whole { AreAllRows self }
        ensures file { IfOk result (λ bytes. (p : Parameters) → IsUnderWay p self → self.y ≡ (rows_of_order p.order p.shape).rows → IsFileOfRows p self.offsets bytes.items) }
        ensures refused { IfErr result (λ e. e ≡ WantOfMemory) }
    {
        let RowEncoder { walk } = self;
        match walk {
            Walk::Lines(encoder) => encoder.finish(),
            Walk::Planes(encoder) => encoder.finish(),
        }
    }
}
