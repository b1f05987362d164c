//! Tests of files that are refused, and of the faults that are returned.

use crate::checks::same_fault;
use crate::files::decoded;
use crate::row_words::{fault_of, file_of, header_of, number_of, parts_of};
use cube_core::fault::{Fault, Field, Rule};
use std::alloc::Global;
use std::process::Abort;

/// Asserts that a file is refused for this fault.
fn refused(rt: &impl Abort, alloc: Global, file: &[u8], fault: Fault, name: &str) {
    same_fault(rt, decoded(rt, alloc, file).err(), fault, name);
}

/// Asserts that a header is refused for this fault with and without a body: its faults come before those of the body.
fn header_refused(rt: &impl Abort, alloc: Global, header: &str, fault: Fault) {
    refused(rt, alloc, &file_of(rt, alloc, header, "90"), fault, header);
    refused(rt, alloc, &header_of(rt, alloc, header), fault, header);
}

/// Asserts that a header is refused for a field out of its range.
fn field_refused(rt: &impl Abort, alloc: Global, header: &str, field: Field, value: i64) {
    header_refused(rt, alloc, header, Fault::FieldRange { field, value });
}

/// Asserts that a header is refused for fields that disagree.
fn rule_refused(rt: &impl Abort, alloc: Global, header: &str, rule: Rule) {
    header_refused(rt, alloc, header, Fault::Disagree { rule });
}

/// Asserts that a header is refused for a reserved bit that is 1.
fn bit_refused(rt: &impl Abort, alloc: Global, header: &str, bit: u64) {
    header_refused(rt, alloc, header, Fault::Reserved { bit });
}

#[test]
fn faulty_headers_are_refused(rt: HostRuntime) {
    let alloc = rt.alloc();
    field_refused(&rt, alloc, "7:03", Field::DynamicRange, 1);
    field_refused(&rt, alloc, "17:3a", Field::Umax, 7);
    field_refused(&rt, alloc, "17:86", Field::GammaStar, 10);
    rule_refused(&rt, alloc, "18:2e", Rule::StartConstant);
    rule_refused(&rt, alloc, "13:20", Rule::NeighbourOneColumn);
    bit_refused(&rt, alloc, "11:01", 95);
    bit_refused(&rt, alloc, "16:80", 128);
    rule_refused(&rt, alloc, "16:20", Rule::DefaultWithTable);
    rule_refused(&rt, alloc, "16:01", Rule::DefaultWithResolution);
    rule_refused(&rt, alloc, "12:00", Rule::FullOneColumn);
}

#[test]
fn faulty_weight_tables_are_refused(rt: HostRuntime) {
    let alloc = rt.alloc();
    header_refused(&rt, alloc, "16:40", Fault::TableElsewhere);
    field_refused(&rt, alloc, "16:62", Field::Resolution, 2);
    rule_refused(&rt, alloc, "16:71", Rule::ResolutionOverOmega);
    bit_refused(&rt, alloc, "4:02 6:02 12:06 16:63 17+e1", 143);
    bit_refused(&rt, alloc, "4:02 6:02 12:06 16:63 17+f0", 139);
}

#[test]
fn faulty_coder_parts_are_refused(rt: HostRuntime) {
    let alloc = rt.alloc();
    rule_refused(&rt, alloc, "4:02 18:3f 19+70", Rule::AccumulatorEntry);
    bit_refused(&rt, alloc, "4:02 18:3f 19+31", 159);
    rule_refused(&rt, alloc, "4:02 18:37 19+30", Rule::ConstantWithTable);
    rule_refused(&rt, alloc, "4:02 18:3e", Rule::StartConstant);
    rule_refused(&rt, alloc, "10:0c 17:10 18:01", Rule::RestrictedOverFour);
}

/// In each row: header, body, and the header's length. The files hold two equal samples, the same with an accumulator
/// table of one constant, and four samples with a weight table.
const CUT_FILES: &str = "\
4:02 | 90 80 | 19
4:02 18:3f 19+30 | 90 80 | 20
4:02 6:02 12:06 16:63 17+e0 | 37 2d 8c 70 | 20";

/// Asserts that a file with a header of `length` bytes is refused wherever it is cut.
fn cuts_refused(rt: &impl Abort, alloc: Global, file: &[u8], length: usize, name: &str) {
    assert!(rt; file.len() <= 1000);
    for n in 0..file.len() {
        let fault = if n < length {
            Fault::ShortHeader
        } else {
            Fault::Truncated { bit: 8 * n as u64 }
        };
        refused(rt, alloc, &file[..n], fault, name);
    }
}

/// Asserts that a row's file is refused wherever it is cut.
fn row_cuts_refused(rt: &impl Abort, alloc: Global, row: &str) {
    let [header, body, length, _, _] = parts_of(rt, row);
    let file = file_of(rt, alloc, header, body);
    cuts_refused(rt, alloc, &file, number_of(rt, length) as usize, row);
}

#[test]
fn files_cut_short(rt: HostRuntime) {
    for row in CUT_FILES.split('\n') {
        row_cuts_refused(&rt, rt.alloc(), row);
    }
}

/// In each row: header, body, and the fault.
const BODIES: &str = "\
4:02 | 90 81 | BadFill
4:02 | 90 | Truncated 160
4:02 | ff | Truncated 160
4:02 | 90 80 00 | TooLong 12
4:02 | 90 80 01 | TooLong 12
7:81 | ff ff 00 | TooLong 8
4:02 17:42 18:20 | 90 00 03 | BadCode 1
4:02 6:02 17:42 18:20 | 90 c8 00 01 80 | BadCode 3
4:02 6:02 7:10 9:01 17:42 18:20 | 90 90 00 03 | BadCode 2
4:30 10:0c 17:00 18:04 | 00 42 10 | RunPastSegment 0
3:04 4:10 10:0c 17:00 18:00 | 00 00 00 00 00 00 00 00 04 02 01 | RunPastSegment 0
10:0c 17:00 18:01 | 00 00 | RunPastSegment 0
4:30 10:0c 17:00 18:08 | 00 00 | RunPastSegment 0
7:05 10:0c 17:00 18:01 | 10 03 c0 | BadOption 0
7:05 10:0c 17:00 18:01 | 10 00 00 00 | BadOption 0
10:0c 17:00 18:01 | a0 0f f0 00 00 00 | Truncated 200
10:0c 17:00 18:01 | | Truncated 152";

/// Asserts that a row's file is refused for its fault.
fn row_refused(rt: &impl Abort, alloc: Global, row: &str) {
    let [header, body, fault, _, _] = parts_of(rt, row);
    let file = file_of(rt, alloc, header, body);
    refused(rt, alloc, &file, fault_of(rt, fault), row);
}

#[test]
fn faulty_bodies_are_refused(rt: HostRuntime) {
    for row in BODIES.split('\n') {
        row_refused(&rt, rt.alloc(), row);
    }
}
