//! Encoding band after band, for images that are larger than memory.

ghost use Rattle.std.specs.Prelude.{◌≡◌, ◌+◌, ◌*◌, ◌<◌, ◌≤◌, ◌^◌, ◌++◌, ◌↔◌, [], length, IsTrue, IfOk, IfErr, OnOk};
ghost use Rattle.std.specs.List.{AllByRecursion};
ghost use Rattle.cube_core.specs.declared.fault.Fault.TheVariants.{WantOfMemory};
ghost use Rattle.cube_core.specs.declared.order.Order.TheVariants.{Bsq};
ghost use Rattle.header_bits.specs.Lawful.{IsLawful};
ghost use Rattle.header_bits.specs.declared.params.Params.{Params as Parameters};
ghost use Rattle.file_encoding.specs.ByPlanes.{AreAllPlanes, AreHanded, ArePlanesUnderWay, IsFileOfPlanes, IsGroupWhole, end_of_group};

use crate::file_encoder::FileEncoder;
use crate::kept_planes::turn_planes;
use crate::pieces::GROUP;
use cube_core::fault::Fault;
use group_prediction::room::GroupRoom;
use header_bits::params::Params;
use predict_core::band::Band;
use predict_core::bands::all_bands;
use predict_core::handed::HandedRows;
use std::alloc::Global;
use std::marker::Model;

/// An encoder that is handed an image band after band, row by row, in band-sequential order.
///
/// It keeps the planes of the group of bands in hand, at most eight, and of the previous bands from which they are predicted, two rows
/// of all bands, the state of each band's predictor and coder, and the bytes of the file so far: no other sample. A whole group's
/// residuals take the place of its samples.
#[derive(Drop)]
pub struct PlaneEncoder {
    y: u64,
    first: u32,
    previous: Vec<u16>,
    planes: Vec<u16>,
    present: Vec<u16>,
    above: Vec<u16>,
    bands: Vec<Band>,
    /// It is on the heap, so that an encoder is moved without it.
    group: Box<GroupRoom>,
    end: FileEncoder,
    /// The rows so far, one after another, each of one band.
    handed: HandedRows,
}

impl Model for PlaneEncoder {
    ghost use Rattle.file_encoding.specs.ByPlanes.{PlaneEncoderState};

    ghost Value = { PlaneEncoderState };

    ghost view = { λ e. record { y = e.y; offsets = e.handed.offsets; first = e.first; previous = e.previous.items; planes = e.planes.items; present = e.present.items; above = e.above.items; bands = e.bands.items; end = e.end } };
}

impl PlaneEncoder {
    /// Returns the encoder of an image with lawful parameters, in band-sequential order. It has been handed no row.
    ///
    /// Returns `WantOfMemory` if the header, the planes that it keeps, the room of a group, or the state of the predictors or of the
    /// coder can't be allocated.
    pub fn new(alloc: Global, params: &Params) -> Result<PlaneEncoder, Fault>
        requires lawful { IsLawful params.now }
        requires order { params.now.order ≡ Bsq }
        ensures under_way { IfOk result (λ e. ArePlanesUnderWay params.now e) }
        ensures none { IfOk result (λ e. (e.y ≡ 0) × (e.offsets ≡ [])) }
        ensures refused { IfErr result (λ e. e ≡ WantOfMemory) }
    {
        let shape = params.shape;
        let all = shape.bands() as usize;
        let row = all * shape.columns() as usize;
        let plane = shape.rows() as usize * shape.columns() as usize;
        let bands = all_bands(alloc, params)?;
        let end = FileEncoder::new(alloc, params)?;
        let before = (params.previous as usize).min(all);
        let previous = vec![in alloc; 0u16; before * plane]?;
        let planes = vec![in alloc; 0u16; GROUP.min(all) * plane]?;
        let present = vec![in alloc; 0u16; row]?;
        let above = vec![in alloc; 0u16; row]?;
        Ok(PlaneEncoder {
            y: 0,
            first: 0,
            previous,
            planes,
            present,
            above,
            bands,
            group: Box::new(alloc, GroupRoom::new())?,
            end,
            handed: HandedRows::none(),
        })
    }

    /// Takes the next row: that of the first band if none was handed over, and after the last row of a band the first one of
    /// the next band; each sample as its offset from the least sample of the kind, at most 2^D - 1 (CCSDS 123.0-B-1,
    /// "Image"). The parameters are those that the encoder was made for.
    ///
    /// Returns `WantOfMemory` if an allocation fails; then the encoder may not be used any more.
    pub fn row(&mut self, params: &Params, samples: &[u16]) -> Result<(), Fault>
        requires under_way { ArePlanesUnderWay params.now self.old }
        requires more { self.old.y < params.now.shape.bands * params.now.shape.rows }
        requires size { length samples.now ≡ params.now.shape.columns }
        requires range { AllByRecursion (λ v. v < 2 ^ params.now.kind.bits) samples.now }
        ensures under_way { OnOk result (ArePlanesUnderWay params.now self.new) }
        ensures handed { OnOk result ((self.new.offsets ≡ self.old.offsets ++ samples.now) × (self.new.y ≡ self.old.y + 1)) }
        ensures refused { IfErr result (λ e. e ≡ WantOfMemory) }
    {
        self.keep(params, samples);
        if self.has_whole_group(params) {
            self.send_group(params)
        } else {
            Ok(())
        }
    }

    /// Returns the bytes of the file, once each row was handed over: those of every cube that has these planes.
    ///
    /// Returns `WantOfMemory` if they can't be allocated.
    pub fn finish(self) -> Result<Vec<u8>, Fault>
        requires whole { AreAllPlanes self }
        ensures file { IfOk result (λ bytes. (p : Parameters) → ArePlanesUnderWay p self → self.y ≡ p.shape.bands * p.shape.rows → IsFileOfPlanes p self.offsets bytes.items) }
        ensures refused { IfErr result (λ e. e ≡ WantOfMemory) }
    {
        let PlaneEncoder {
            y: _,
            first: _,
            previous: _,
            planes: _,
            present: _,
            above: _,
            bands: _,
            group: _,
            end,
            handed: _,
        } = self;
        end.finish()
    }

    /// Keeps the next row, after those of its group.
    fn keep(&mut self, params: &Params, samples: &[u16])
        requires under_way { ArePlanesUnderWay params.now self.old }
        requires more { self.old.y < params.now.shape.bands * params.now.shape.rows }
        requires size { length samples.now ≡ params.now.shape.columns }
        requires range { AllByRecursion (λ v. v < 2 ^ params.now.kind.bits) samples.now }
        ensures kept { AreHanded params.now self.new }
        ensures more { self.new.first < params.now.shape.bands }
        ensures within { self.new.y ≤ end_of_group params.now self.new.first * params.now.shape.rows }
        ensures handed { (self.new.offsets ≡ self.old.offsets ++ samples.now) × (self.new.y ≡ self.old.y + 1) }
    {
        let columns = params.shape.columns() as usize;
        let before = self.y - u64::from(self.first) * u64::from(params.shape.rows());
        let start = before as usize * columns;
        self.planes[start..start + columns].copy_from_slice(samples);
        self.handed = self.handed.and(samples);
        self.y += 1;
    }

    /// Whether all rows of the group in hand were handed over.
    fn has_whole_group(&self, params: &Params) -> bool
        requires handed { AreHanded params.now self.now }
        ensures { IsTrue result ↔ (self.now.y ≡ end_of_group params.now self.now.first * params.now.shape.rows) }
    {
        self.y == u64::from(group_end(params, self.first)) * u64::from(params.shape.rows())
    }

    /// Sends the residuals of the group in hand, and keeps the planes from which the next group is predicted.
    fn send_group(&mut self, params: &Params) -> Result<(), Fault>
        requires whole { IsGroupWhole params.now self.old }
        ensures under_way { OnOk result (ArePlanesUnderWay params.now self.new) }
        ensures handed { OnOk result ((self.new.offsets ≡ self.old.offsets) × (self.new.y ≡ self.old.y)) }
        ensures refused { IfErr result (λ e. e ≡ WantOfMemory) }
    {
        let plane = params.shape.rows() as usize * params.shape.columns() as usize;
        let next = group_end(params, self.first);
        turn_planes(
            params,
            self.first as usize,
            &mut self.bands[self.first as usize..next as usize],
            &mut self.planes,
            &mut self.previous,
            &mut self.present,
            &mut self.above,
            &mut self.group,
        );
        let sent = (next - self.first) as usize * plane;
        self.end.put_all(&self.planes[..sent])?;
        self.first = next;
        Ok(())
    }
}

/// The end of the group that begins at band `first`.
fn group_end(params: &Params, first: u32) -> u32
    requires { first ≤ params.now.shape.bands }
    ensures { result ≡ end_of_group params.now first }
{
    let bands = params.shape.bands();
    bands.min(first + GROUP as u32)
}
