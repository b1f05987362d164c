//! Cube A, 3 x 2 x 2, in full mode with one previous band, and the ways to encode it.

ghost use Rattle.std.specs.Prelude.{◌≡◌, [], ◌∷◌, IfOk};
ghost use Rattle.cube_core.specs.declared.order.Order.TheVariants.{Bi};
ghost use Rattle.coder_pipe.specs.Sends.{IsSeen};

use ccsds_command::piped::run_piped;
use ccsds_command::{CompressSettings, CutSink, CutSource};
use coder_pipe::Gate;
use coder_pipe::encode::encode_one;
use coder_pipe::encode_predicted::encode_predicted;
use coder_pipe::pipeline::Piped;
use coder_pipe::plan::Plan;
use cube_core::cube::Cube;
use cube_core::fault::Fault;
use cube_core::kind::Kind;
use cube_core::layout::{Layout, RawOrder};
use cube_core::order::Order;
use cube_core::shape::Shape;
use header_bits::params::{Coder, Params};
use std::alloc::Global;
use std::process::Abort;
use std::sync::Wait;
use std::thread::Threads;

/// The samples of cube A, band after band.
pub(crate) const SAMPLES: [u8; 12] = [100, 102, 105, 101, 104, 103, 110, 111, 115, 112, 113, 114];

/// The file of cube A by the sample-adaptive coder, interleaved by pixel.
pub(crate) const BY_PIXEL: [u8; 26] = [
    0x00, 0x00, 0x03, 0x00, 0x02, 0x00, 0x02, 0x10, 0x00, 0x02, 0x08, 0x00, 0x04, 0x20, 0x92, 0x59,
    0x00, 0x82, 0x26, // the header
    0x37, 0x14, 0xB9, 0xDA, 0x8C, 0x97, 0x60,
];

/// The room of a sink, and the size of the pieces in which a command reads and writes.
pub(crate) const ROOM: usize = 1000;

/// The layout of samples of one byte, band after band.
pub(crate) const BYTES: Layout = Layout {
    order: RawOrder::Bsq,
    bytes: 1,
    little: false,
};

/// Returns the parameters of cube A, in an order and by a coder.
pub(crate) fn params_of(rt: &impl Abort, order: Order, coder: Coder) -> Params
    ensures shape { result.shape ≡ record { columns = 3; rows = 2; bands = 2 } }
    ensures kind { result.kind.bits ≡ 8 }
    ensures order { result.order ≡ order }
{
    Params {
        order,
        previous: 1,
        reduced: false,
        column: false,
        coder,
        ..Params::plain(
            Shape::new(3, 2, 2).expect(rt, "a shape"),
            Kind::new(false, 8).expect(rt, "a kind"),
        )
    }
}

/// Returns the parameters of cube A interleaved by pixel, by the sample-adaptive coder.
pub(crate) fn by_pixel(rt: &impl Abort) -> Params
    ensures shape { result.shape ≡ record { columns = 3; rows = 2; bands = 2 } }
    ensures kind { result.kind.bits ≡ 8 }
    ensures order { result.order ≡ Bi 2 }
{
    params_of(rt, Order::Bi(2), Coder::plain())
}

/// Returns the block-adaptive coder with blocks of 8 and a reference interval of 1.
pub(crate) fn by_blocks() -> Coder {
    Coder::Block {
        size: 8,
        restricted: false,
        reference: 1,
    }
}

/// Returns cube A, for parameters of its shape and kind.
pub(crate) fn cube_of(alloc: Global, params: &Params) -> Result<Cube, Fault>
    ensures { IfOk result (λ cube. IsSeen params.now cube) }
{
    Cube::from_raw(alloc, params.shape, params.kind, BYTES, &SAMPLES)
}

/// Returns a plan for cube A.
pub(crate) fn plan_of(
    rt: &impl Abort,
    alloc: Global,
    params: &Params,
    predictors: u32,
    deal: &[u8],
    slots: u32,
) -> Result<Plan, Fault>
    ensures { IfOk result (λ plan. (plan.params ≡ params.now) × (plan.predictors ≡ predictors) × (plan.deal ≡ deal.now)) }
{
    assert!(rt; params.check().is_ok());
    Plan::new(alloc, params, predictors, deal, slots)
}

/// Returns a plan for cube A interleaved by pixel: two predictors with a band each, and lanes of so many slots.
pub(crate) fn plan_by_pixel(rt: &impl Abort, alloc: Global, slots: u32) -> Result<Plan, Fault>
    ensures plan { IfOk result (λ plan. (plan.predictors ≡ 2) × (plan.deal ≡ 0 ∷ 1 ∷ [])) }
    ensures shape { IfOk result (λ plan. plan.params.shape ≡ record { columns = 3; rows = 2; bands = 2 }) }
    ensures kind { IfOk result (λ plan. plan.params.kind.bits ≡ 8) }
    ensures order { IfOk result (λ plan. plan.params.order ≡ Bi 2) }
{
    plan_of(rt, alloc, &by_pixel(rt), 2, &[0, 1], slots)
}

/// Encodes cube A with the predictors of a plan, past a gate.
pub(crate) fn piped<R: Threads + Wait + Sync + Abort, G: Gate + Sync>(
    rt: &R,
    alloc: Global,
    params: &Params,
    predictors: u32,
    deal: &[u8],
    slots: u32,
    gate: &G,
) -> Result<Piped, Fault> {
    let cube = cube_of(alloc, params)?;
    let plan = plan_of(rt, alloc, params, predictors, deal, slots)?;
    encode_predicted(rt, alloc, &cube, &plan, gate)
}

/// Encodes cube A interleaved by pixel with the predictors of a plan, past a gate.
pub(crate) fn piped_by_pixel<R: Threads + Wait + Sync + Abort, G: Gate + Sync>(
    rt: &R,
    alloc: Global,
    predictors: u32,
    deal: &[u8],
    slots: u32,
    gate: &G,
) -> Result<Piped, Fault> {
    piped(rt, alloc, &by_pixel(rt), predictors, deal, slots, gate)
}

/// Returns the file to which the command compresses cube A interleaved by pixel, past a gate.
pub(crate) fn compressed<R: Threads + Wait + Sync + Abort, G: Gate + Sync>(
    rt: &R,
    alloc: Global,
    predictors: u32,
    slots: u32,
    gate: &G,
) -> Result<Vec<u8>, Fault> {
    let mut source = CutSource::new(&SAMPLES, ROOM, None);
    compressed_from(rt, alloc, predictors, slots, gate, &mut source)
}

/// Returns the file to which the command compresses the cube of a source by the same parameters, past a gate.
pub(crate) fn compressed_from<R: Threads + Wait + Sync + Abort, G: Gate + Sync>(
    rt: &R,
    alloc: Global,
    predictors: u32,
    slots: u32,
    gate: &G,
    source: &mut CutSource,
) -> Result<Vec<u8>, Fault> {
    let settings = settings_by_pixel(rt, predictors, slots);
    let mut sink = CutSink::new(alloc, ROOM, ROOM, None)?;
    run_piped(rt, alloc, source, &mut sink, &settings, gate)?;
    Ok(Vec::from_slice(alloc, sink.taken())?)
}

/// Returns the settings of a command that compresses cube A interleaved by pixel.
fn settings_by_pixel(rt: &impl Abort, predictors: u32, slots: u32) -> CompressSettings
    ensures { result.layout.bytes ≡ 1 }
{
    CompressSettings {
        params: by_pixel(rt),
        layout: BYTES,
        predictors,
        slots,
    }
}

/// Returns the file to which one thread encodes cube A.
pub(crate) fn by_one(rt: &impl Abort, alloc: Global, params: &Params) -> Result<Vec<u8>, Fault> {
    assert!(rt; params.check().is_ok());
    encode_one(alloc, &cube_of(alloc, params)?, params)
}
