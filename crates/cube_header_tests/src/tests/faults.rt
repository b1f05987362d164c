//! The line that each fault prints: its number, its name and its values.

use crate::tests::checks::same;
use cube_core::fault::{Fault, Field, Rule};
use std::alloc::Global;
use std::process::Abort;

/// Asserts that a fault prints this line.
fn prints(rt: &impl Abort, alloc: Global, fault: Fault, line: &str) {
    let printed = format!(in alloc; "{fault}").expect(rt, "memory");
    same(rt, printed.as_str(), line);
}

/// Asserts that the fault of a field out of its range prints this line.
fn field_prints(rt: &impl Abort, alloc: Global, field: Field, value: i64, line: &str) {
    prints(rt, alloc, Fault::FieldRange { field, value }, line);
}

#[test]
fn each_fault_of_a_header_prints_number_name_and_values(rt: HostRuntime) {
    let alloc = rt.alloc();
    prints(&rt, alloc, Fault::ShortHeader, "1 ShortHeader");
    prints(&rt, alloc, Fault::Reserved { bit: 95 }, "2 Reserved 95");
    let bits = Field::DynamicRange;
    field_prints(&rt, alloc, bits, 1, "3 FieldRange DynamicRange 1");
    field_prints(&rt, alloc, Field::VMin, -7, "3 FieldRange VMin -7");
    let rule = Rule::StartConstant;
    prints(
        &rt,
        alloc,
        Fault::Disagree { rule },
        "4 Disagree StartConstant",
    );
    prints(&rt, alloc, Fault::TableElsewhere, "5 TableElsewhere");
}

#[test]
fn each_fault_of_a_body_prints_number_name_and_values(rt: HostRuntime) {
    let alloc = rt.alloc();
    prints(&rt, alloc, Fault::Truncated { bit: 160 }, "6 Truncated 160");
    prints(&rt, alloc, Fault::BadCode { place: 1 }, "7 BadCode 1");
    prints(&rt, alloc, Fault::BadOption { block: 2 }, "8 BadOption 2");
    let run = Fault::RunPastSegment { block: 3 };
    prints(&rt, alloc, run, "9 RunPastSegment 3");
    prints(&rt, alloc, Fault::BadFill, "10 BadFill");
    prints(&rt, alloc, Fault::TooLong { bits: 12 }, "11 TooLong 12");
}

#[test]
fn each_fault_of_a_cube_or_a_lane_prints_number_name_and_values(rt: HostRuntime) {
    let alloc = rt.alloc();
    prints(&rt, alloc, Fault::WantOfMemory, "12 WantOfMemory");
    let range = Fault::SampleRange { index: 0 };
    prints(&rt, alloc, range, "13 SampleRange 0");
    let length = Fault::RawLength { wanted: 2, had: 1 };
    prints(&rt, alloc, length, "14 RawLength 2 1");
    prints(&rt, alloc, Fault::BadDeal { band: 1 }, "15 BadDeal 1");
    prints(&rt, alloc, Fault::SpawnRefused, "16 SpawnRefused");
    let stopped = Fault::Stopped {
        predictor: 0,
        sent: 2,
    };
    prints(&rt, alloc, stopped, "17 Stopped 0 2");
}

#[test]
fn each_fault_of_a_command_prints_number_name_and_values(rt: HostRuntime) {
    let alloc = rt.alloc();
    prints(&rt, alloc, Fault::Read, "18 Read");
    prints(&rt, alloc, Fault::Write { written: 0 }, "19 Write 0");
    prints(&rt, alloc, Fault::Usage, "20 Usage");
}
