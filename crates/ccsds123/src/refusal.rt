//! Why a call of the library is refused, and the record that tells C of it.

ghost use Rattle.std.specs.Prelude.{◌≡◌, ◌≤◌};
ghost use Rattle.ccsds123.specs.Told.{coder_record, field_number, fault_record, IsAnswer, rule_number, room_number, member_number, record_of, capped as capped_to};

use crate::records::FaultRecord;
use cube_core::fault::{Fault, Field, Rule};
use thiserror::Error;

/// A room that the caller gives.
#[derive(Clone, Copy, Debug, PartialEq, Eq)]
pub enum Room {
    File,
    Raw,
    Weights,
    Accumulators,
}

/// A member that is one of a few constants.
#[derive(Clone, Copy, Debug, PartialEq, Eq)]
pub enum Member {
    Order,
    Coder,
    Interleave,
    Bytes,
}

/// Why a call is refused: a fault of the coder, or of what C gives.
#[derive(Clone, Copy, Debug, PartialEq, Eq, Error)]
pub enum Refusal {
    #[error("{0}")]
    Coder(Fault),
    /// There is room for `had` bytes or entries in place of `wanted`.
    #[error("21 Room {room:?} {wanted} {had}")]
    Room { room: Room, wanted: u64, had: u64 },
    /// The parameters are `had` bytes long in place of `wanted`.
    #[error("22 StructSize {wanted} {had}")]
    StructSize { wanted: u32, had: u32 },
    /// A member is none of its constants.
    #[error("23 Choice {member:?} {value}")]
    Choice { member: Member, value: u32 },
}

/// Stores what C is told of an outcome, and returns the fault's number, or 0 where there is none.
#[tactic(auto, unfolding(crate::specs::Told::IsAnswer))]
pub fn answer(outcome: Result<(), Refusal>, fault: &mut FaultRecord) -> i32
    ensures { IsAnswer outcome result fault.new }
{
    match outcome {
        Ok(()) => {
            *fault = fault_record(0, 0, 0, 0);
            0
        }
        Err(refusal) => {
            let told = record_of(refusal);
            *fault = told;
            told.number as i32
        }
    }
}

fn fault_record(number: u32, name: u32, first: i64, second: i64) -> FaultRecord
    ensures { result ≡ fault_record number name first second }
{
    FaultRecord {
        number,
        name,
        first,
        second,
    }
}

/// Returns the record of a refusal.
fn record_of(refusal: Refusal) -> FaultRecord
    ensures value { result ≡ record_of refusal }
    ensures few { result.number ≤ 23 }
{
    match refusal {
        Refusal::Coder(fault) => coder_record(fault),
        Refusal::Room { room, wanted, had } => {
            fault_record(21, room_number(room), capped(wanted), capped(had))
        }
        Refusal::StructSize { wanted, had } => {
            fault_record(22, 0, i64::from(wanted), i64::from(had))
        }
        Refusal::Choice { member, value } => {
            fault_record(23, member_number(member), i64::from(value), 0)
        }
    }
}

/// Returns the record of a fault of the coder.
fn coder_record(fault: Fault) -> FaultRecord
    ensures value { result ≡ coder_record fault }
    ensures few { result.number ≤ 20 }
{
    match fault {
        Fault::ShortHeader => fault_record(1, 0, 0, 0),
        Fault::Reserved { bit } => fault_record(2, 0, capped(bit), 0),
        Fault::FieldRange { field, value } => fault_record(3, field_number(field), value, 0),
        Fault::Disagree { rule } => fault_record(4, rule_number(rule), 0, 0),
        Fault::TableElsewhere => fault_record(5, 0, 0, 0),
        Fault::Truncated { bit } => fault_record(6, 0, capped(bit), 0),
        Fault::BadCode { place } => fault_record(7, 0, capped(place), 0),
        Fault::BadOption { block } => fault_record(8, 0, capped(block), 0),
        Fault::RunPastSegment { block } => fault_record(9, 0, capped(block), 0),
        Fault::BadFill => fault_record(10, 0, 0, 0),
        Fault::TooLong { bits } => fault_record(11, 0, capped(bits), 0),
        Fault::WantOfMemory => fault_record(12, 0, 0, 0),
        Fault::SampleRange { index } => fault_record(13, 0, capped(index), 0),
        Fault::RawLength { wanted, had } => fault_record(14, 0, capped(wanted), capped(had)),
        Fault::BadDeal { band } => fault_record(15, 0, i64::from(band), 0),
        Fault::SpawnRefused => fault_record(16, 0, 0, 0),
        Fault::Stopped { predictor, sent } => {
            fault_record(17, 0, i64::from(predictor), capped(sent))
        }
        Fault::Read => fault_record(18, 0, 0, 0),
        Fault::Write { written } => fault_record(19, 0, capped(written), 0),
        Fault::Usage => fault_record(20, 0, 0, 0),
    }
}

/// Returns a number as a signed one, and the greatest of these where it is above.
fn capped(number: u64) -> i64
    ensures { result ≡ capped_to number }
{
    number.min(0x7fff_ffff_ffff_ffff) as i64
}

fn room_number(room: Room) -> u32
    ensures { result ≡ room_number room }
{
    match room {
        Room::File => 1,
        Room::Raw => 2,
        Room::Weights => 3,
        Room::Accumulators => 4,
    }
}

fn member_number(member: Member) -> u32
    ensures { result ≡ member_number member }
{
    match member {
        Member::Order => 1,
        Member::Coder => 2,
        Member::Interleave => 3,
        Member::Bytes => 4,
    }
}

/// Returns the place of a field among all fields, counted from 1.
fn field_number(field: Field) -> u32
    ensures { result ≡ field_number field }
{
    match field {
        Field::Columns => 1,
        Field::Rows => 2,
        Field::Bands => 3,
        Field::DynamicRange => 4,
        Field::User => 5,
        Field::Depth => 6,
        Field::WordSize => 7,
        Field::Previous => 8,
        Field::Register => 9,
        Field::Omega => 10,
        Field::Interval => 11,
        Field::VMin => 12,
        Field::VMax => 13,
        Field::WeightStart => 14,
        Field::Resolution => 15,
        Field::WeightEntry => 16,
        Field::Umax => 17,
        Field::GammaStar => 18,
        Field::GammaZero => 19,
        Field::AccumulatorTable => 20,
        Field::BlockSize => 21,
        Field::Restricted => 22,
        Field::Reference => 23,
        Field::Predictors => 24,
        Field::Slots => 25,
    }
}

/// Returns the place of a rule among all rules, counted from 1.
fn rule_number(rule: Rule) -> u32
    ensures { result ≡ rule_number rule }
{
    match rule {
        Rule::DepthOverBands => 1,
        Rule::FullOneColumn => 2,
        Rule::NeighbourOneColumn => 3,
        Rule::RegisterTooSmall => 4,
        Rule::ExponentOrder => 5,
        Rule::DefaultWithTable => 6,
        Rule::DefaultWithResolution => 7,
        Rule::ResolutionOverOmega => 8,
        Rule::WeightTableLength => 9,
        Rule::CounterOrder => 10,
        Rule::StartConstant => 11,
        Rule::ConstantWithTable => 12,
        Rule::AccumulatorTableLength => 13,
        Rule::AccumulatorEntry => 14,
        Rule::RestrictedOverFour => 15,
    }
}
