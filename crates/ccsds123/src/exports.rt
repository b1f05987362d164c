//! The exports that look at parameters alone.

ghost use Rattle.std.specs.Prelude.{◌≡◌};
ghost use Rattle.ccsds123.specs.Told.{Answers};
ghost use Rattle.ccsds123.specs.Params.{usual_record, ChecksParams, TellsBound, TellsRawLength};

use crate::asked::{layout_of, params_of, raw_shape_of, shape_of};
use crate::bound::most_bytes;
use crate::records::{FaultRecord, LayoutRecord, ParamsRecord};
use crate::refusal::{Refusal, answer};
use crate::told::zeros;
use std::alloc::Global;

/// The version of the library: 10000 times the major number, 100 times the minor one, and the patch.
pub const VERSION: u32 = 900;

/// Returns the version.
#[unsafe(no_mangle)]
pub extern "C" fn ccsds123_version() -> u32
    ensures { result ≡ VERSION }
{
    VERSION
}

/// Sets every member to what `compress` does without options; sizes and bits are 0, and samples unsigned.
#[unsafe(no_mangle)]
pub extern "C" fn ccsds123_params_init(params: &mut ParamsRecord)
    ensures { params.new ≡ usual_record }
{
    *params = ParamsRecord {
        depth: 1,
        word: 1,
        previous: 3,
        register_bits: 64,
        omega: 13,
        interval_log: 6,
        vmin: -1,
        vmax: 3,
        umax: 16,
        gamma_star: 6,
        gamma_zero: 1,
        k: 3,
        block: 8,
        reference: 64,
        ..zeros()
    };
}

/// Checks parameters with their tables.
#[unsafe(no_mangle)]
pub extern "C" fn ccsds123_params_check(
    alloc: Global,
    params: &ParamsRecord,
    weights: &[i32],
    accumulators: &[u8],
    fault: &mut FaultRecord,
) -> i32
    ensures { Answers result fault.new (ChecksParams params.now weights.now accumulators.now) }
{
    let outcome = check(alloc, params, weights, accumulators);
    answer(outcome, fault)
}

#[tactic(auto, unfolding(crate::specs::Params::ChecksParams, crate::specs::Asked::AsksParams))]
fn check(
    alloc: Global,
    params: &ParamsRecord,
    weights: &[i32],
    accumulators: &[u8],
) -> Result<(), Refusal>
    ensures { ChecksParams params.now weights.now accumulators.now result }
{
    let _asked = params_of(alloc, params, weights, accumulators)?;
    Ok(())
}

/// Stores a number of bytes that no file of these parameters exceeds, or 0 where there are none.
#[unsafe(no_mangle)]
pub extern "C" fn ccsds123_bound(
    params: &ParamsRecord,
    bytes: &mut u64,
    fault: &mut FaultRecord,
) -> i32
    ensures { Answers result fault.new (TellsBound params.now bytes.new) }
{
    let outcome = bound(params, bytes);
    answer(outcome, fault)
}

#[tactic(auto, unfolding(crate::specs::Params::TellsBound))]
fn bound(params: &ParamsRecord, bytes: &mut u64) -> Result<(), Refusal>
    ensures { TellsBound params.now bytes.new result }
{
    *bytes = 0;
    let (shape, kind) = shape_of(params)?;
    let _bits = kind.bits();
    *bytes = most_bytes(params, shape);
    Ok(())
}

/// Stores the number of raw bytes of a scene, or 0 where there are none.
#[unsafe(no_mangle)]
pub extern "C" fn ccsds123_raw_length(
    params: &ParamsRecord,
    layout: &LayoutRecord,
    bytes: &mut u64,
    fault: &mut FaultRecord,
) -> i32
    ensures { Answers result fault.new (TellsRawLength params.now layout.now bytes.new) }
{
    let outcome = raw_length(params, layout, bytes);
    answer(outcome, fault)
}

#[tactic(auto, unfolding(crate::specs::Params::TellsRawLength))]
fn raw_length(params: &ParamsRecord, layout: &LayoutRecord, bytes: &mut u64) -> Result<(), Refusal>
    ensures { TellsRawLength params.now layout.now bytes.new result }
{
    *bytes = 0;
    let shape = raw_shape_of(params)?;
    let laid = layout_of(layout)?;
    *bytes = laid.length(shape);
    Ok(())
}
