//! Reading a header into the caller's rooms.

ghost use Rattle.std.specs.Prelude.{◌≡◌, ◌≤◌, ◌^◌, length, OnOk};
ghost use Rattle.ccsds123.specs.Told.{Answers};
ghost use Rattle.ccsds123.specs.Header.{fronted, length_test, room_test, tables_test, HeaderRooms, ReadsInto};

use crate::asked::test_size;
use crate::records::{FaultRecord, ParamsRecord};
use crate::refusal::{Refusal, Room, answer};
use crate::told::{accumulators_of, record_of, weights_of};
use cube_core::fault::Fault;
use header_bits::header::read_header;
use header_bits::params::Params;
use std::alloc::Global;

/// The most bytes of a file: 2^60.
const MOST: usize = 0x1000_0000_0000_0000;

/// Reads the header that bytes begin with: its parameters and tables into rooms, and its length.
///
/// The refusals, in this order: `StructSize`; `Read` for more than 2^60 bytes; those of `read_header`; `Room` of the weights, then of the accumulators. Nothing is
/// then written but zeros for the counts and the length.
#[unsafe(no_mangle)]
pub extern "C" fn ccsds123_read_header(
    alloc: Global,
    file: &[u8],
    params: &mut ParamsRecord,
    weights: &mut [i32],
    weight_count: &mut u64,
    accumulators: &mut [u8],
    accumulator_count: &mut u64,
    header_length: &mut u64,
    fault: &mut FaultRecord,
) -> i32
    ensures { Answers result fault.new (ReadsInto file.now
        (record {
          params = params.old;
          weights = weights.old;
          weight_count = weight_count.old;
          accumulators = accumulators.old;
          accumulator_count = accumulator_count.old;
          length = header_length.old;
        })
        (record {
          params = params.new;
          weights = weights.new;
          weight_count = weight_count.new;
          accumulators = accumulators.new;
          accumulator_count = accumulator_count.new;
          length = header_length.new;
        })) }
{
    let outcome = read_into(
        alloc,
        file,
        params,
        weights,
        weight_count,
        accumulators,
        accumulator_count,
        header_length,
    );
    answer(outcome, fault)
}

/// Reads a header into rooms.
#[tactic(auto, unfolding(crate::specs::Header::ReadsInto, crate::specs::Header::tables_test))]
fn read_into(
    alloc: Global,
    file: &[u8],
    params: &mut ParamsRecord,
    weights: &mut [i32],
    weight_count: &mut u64,
    accumulators: &mut [u8],
    accumulator_count: &mut u64,
    header_length: &mut u64,
) -> Result<(), Refusal>
    ensures { ReadsInto file.now
        (record {
          params = params.old;
          weights = weights.old;
          weight_count = weight_count.old;
          accumulators = accumulators.old;
          accumulator_count = accumulator_count.old;
          length = header_length.old;
        })
        (record {
          params = params.new;
          weights = weights.new;
          weight_count = weight_count.new;
          accumulators = accumulators.new;
          accumulator_count = accumulator_count.new;
          length = header_length.new;
        }) result }
{
    *weight_count = 0;
    *accumulator_count = 0;
    *header_length = 0;
    test_size(params)?;
    test_length(file)?;
    let (found, size) = read_header(alloc, file).map_err(Refusal::Coder)?;
    test_tables(&found, weights.len(), accumulators.len())?;
    *weight_count = put_weights(weights_of(&found), weights);
    *accumulator_count = put_accumulators(accumulators_of(&found), accumulators);
    *header_length = size as u64;
    *params = record_of(&found);
    Ok(())
}

/// Refuses more bytes than a file may have.
pub(crate) fn test_length(file: &[u8]) -> Result<(), Refusal>
    ensures refused { result ≡ length_test file.now }
    ensures few { OnOk result (length file.now ≤ 2 ^ 60) }
{
    if file.len() <= MOST {
        return Ok(());
    }
    Err(Refusal::Coder(Fault::Read))
}

/// Refuses rooms that are too small for the tables of parameters.
#[tactic(auto, unfolding(crate::specs::Header::tables_test))]
fn test_tables(params: &Params, weights: usize, accumulators: usize) -> Result<(), Refusal>
    ensures { result ≡ tables_test params.now weights accumulators }
{
    test_room(Room::Weights, weights_of(params).len(), weights)?;
    test_room(
        Room::Accumulators,
        accumulators_of(params).len(),
        accumulators,
    )
}

/// Refuses a room for `had` bytes or entries in place of `wanted`.
fn test_room(room: Room, wanted: usize, had: usize) -> Result<(), Refusal>
    ensures { result ≡ room_test room wanted had }
{
    if wanted <= had {
        return Ok(());
    }
    let wanted = wanted as u64;
    let had = had as u64;
    Err(Refusal::Room { room, wanted, had })
}

/// Writes weights to the front of a room, and returns how many there are.
fn put_weights(weights: &[i32], room: &mut [i32]) -> u64
    requires { length weights.now ≤ length room.old }
    ensures front { room.new ≡ fronted weights.now room.old }
    ensures count { result ≡ length weights.now }
{
    room[..weights.len()].copy_from_slice(weights);
    weights.len() as u64
}

/// Writes constants to the front of a room, and returns how many there are.
fn put_accumulators(accumulators: &[u8], room: &mut [u8]) -> u64
    requires { length accumulators.now ≤ length room.old }
    ensures front { room.new ≡ fronted accumulators.now room.old }
    ensures count { result ≡ length accumulators.now }
{
    room[..accumulators.len()].copy_from_slice(accumulators);
    accumulators.len() as u64
}
