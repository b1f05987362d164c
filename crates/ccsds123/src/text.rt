//! The text of a fault.

ghost use Rattle.std.specs.Prelude.{◌≡◌, ◌≤◌, ◌<◌, ◌-◌, ◌+◌, length, min};

use crate::names::{field_of, member_of, room_of, rule_of};
use crate::records::FaultRecord;
use crate::refusal::Refusal;
use cube_core::fault::Fault;
use std::alloc::{AllocError, Global};

/// Writes the text of a fault to the front of a room, as much of it as fits before a zero, and returns the length of the whole text.
///
/// The text of a number that is no fault is that number. Where no memory can be had for a text, it is that of `WantOfMemory`.
#[unsafe(no_mangle)]
pub extern "C" fn ccsds123_fault_text(
    alloc: Global,
    fault: &FaultRecord,
    text: &mut [u8],
) -> usize {
    match text_of(alloc, fault) {
        Ok(told) => put_text(told.as_bytes(), text),
        Err(_) => put_text(b"12 WantOfMemory", text),
    }
}

/// Writes a text and a zero to the front of a room, cut where the room is too small, and returns the length of the whole text.
fn put_text(told: &[u8], text: &mut [u8]) -> usize
    ensures { result ≡ length told.now }
{
    if text.is_empty() {
        return told.len();
    }
    let count = told.len().min(text.len() - 1);
    text[..count].copy_from_slice(&told[..count]);
    text[count] = 0;
    told.len()
}

/// Returns the text of a fault.
fn text_of(alloc: Global, fault: &FaultRecord) -> Result<String, AllocError> {
    match refusal_of(fault) {
        Some(refusal) => format!(in alloc; "{refusal}"),
        None => format!(in alloc; "{}", fault.number),
    }
}

/// Returns the refusal that a record tells of, or none where its number or name is none.
fn refusal_of(fault: &FaultRecord) -> Option<Refusal> {
    let first = value_of(fault.first);
    let second = value_of(fault.second);
    match fault.number {
        3 => Some(Refusal::Coder(Fault::FieldRange {
            field: field_of(fault.name)?,
            value: fault.first,
        })),
        4 => Some(Refusal::Coder(Fault::Disagree {
            rule: rule_of(fault.name)?,
        })),
        21 => Some(Refusal::Room {
            room: room_of(fault.name)?,
            wanted: first,
            had: second,
        }),
        22 => Some(Refusal::StructSize {
            wanted: small(first),
            had: small(second),
        }),
        23 => Some(Refusal::Choice {
            member: member_of(fault.name)?,
            value: small(first),
        }),
        number => Some(Refusal::Coder(fault_of(number, first, second)?)),
    }
}

/// Returns the fault of the coder with a number and values, but for `FieldRange` and `Disagree`.
fn fault_of(number: u32, first: u64, second: u64) -> Option<Fault> {
    match number {
        1 => Some(Fault::ShortHeader),
        2 => Some(Fault::Reserved { bit: first }),
        5 => Some(Fault::TableElsewhere),
        6 => Some(Fault::Truncated { bit: first }),
        7 => Some(Fault::BadCode { place: first }),
        8 => Some(Fault::BadOption { block: first }),
        9 => Some(Fault::RunPastSegment { block: first }),
        10 => Some(Fault::BadFill),
        11 => Some(Fault::TooLong { bits: first }),
        12 => Some(Fault::WantOfMemory),
        13 => Some(Fault::SampleRange { index: first }),
        14 => Some(Fault::RawLength {
            wanted: first,
            had: second,
        }),
        _ => program_fault_of(number, first, second),
    }
}

/// Returns a fault of the program's threads, devices and words, none of which a call of the library returns but `Read` and `Usage`.
fn program_fault_of(number: u32, first: u64, second: u64) -> Option<Fault> {
    match number {
        15 => Some(Fault::BadDeal { band: small(first) }),
        16 => Some(Fault::SpawnRefused),
        17 => Some(Fault::Stopped {
            predictor: small(first),
            sent: second,
        }),
        18 => Some(Fault::Read),
        19 => Some(Fault::Write { written: first }),
        20 => Some(Fault::Usage),
        _ => None,
    }
}

/// Returns a value as an unsigned one, and 0 for a negative one.
fn value_of(value: i64) -> u64 {
    u64::try_from(value).unwrap_or(0)
}

/// Returns a value of at most 32 bits, and the greatest of these for a greater one.
fn small(value: u64) -> u32 {
    value.min(0xffff_ffff) as u32
}
