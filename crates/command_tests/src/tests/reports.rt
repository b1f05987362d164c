//! Tests of the line and the status of each fault, of hexadecimal digits, and of the lines of a header.

use super::support::{TWO_EQUAL_FILE, inspected};
use crate::tests::checks::same;
use command_reports::hexadecimal::hexadecimal;
use command_reports::lines::header_lines;
use command_reports::report::{fault_line, status_of};
use cube_core::fault::{Fault, Field, Rule};
use header_bits::header::read_header;
use std::alloc::Global;
use std::process::Abort;
use std::test::Fail;

/// Faults of every kind, and the status that the program ends with.
static STATUSES: [(Fault, u8); 22] = [
    (Fault::ShortHeader, 2),
    (Fault::Reserved { bit: 95 }, 2),
    (
        Fault::FieldRange {
            field: Field::Umax,
            value: 7,
        },
        2,
    ),
    (
        Fault::Disagree {
            rule: Rule::StartConstant,
        },
        2,
    ),
    (Fault::TableElsewhere, 2),
    (Fault::Truncated { bit: 160 }, 2),
    (Fault::BadCode { place: 1 }, 2),
    (Fault::BadOption { block: 0 }, 2),
    (Fault::RunPastSegment { block: 0 }, 2),
    (Fault::BadFill, 2),
    (Fault::TooLong { bits: 12 }, 2),
    (Fault::WantOfMemory, 3),
    (Fault::SampleRange { index: 0 }, 2),
    (Fault::RawLength { wanted: 6, had: 0 }, 2),
    (
        Fault::RawLength {
            wanted: 1 << 49,
            had: (1 << 49) + 1,
        },
        2,
    ),
    (Fault::BadDeal { band: 1 }, 2),
    (Fault::SpawnRefused, 3),
    (
        Fault::Stopped {
            predictor: 0,
            sent: 2,
        },
        2,
    ),
    (Fault::Read, 4),
    (Fault::Write { written: 5 }, 4),
    (Fault::Write { written: u64::MAX }, 4),
    (Fault::Usage, 1),
];

/// The fields and their names.
static FIELDS: [(Field, &str); 25] = [
    (Field::Columns, "Columns"),
    (Field::Rows, "Rows"),
    (Field::Bands, "Bands"),
    (Field::DynamicRange, "DynamicRange"),
    (Field::User, "User"),
    (Field::Depth, "Depth"),
    (Field::WordSize, "WordSize"),
    (Field::Previous, "Previous"),
    (Field::Register, "Register"),
    (Field::Omega, "Omega"),
    (Field::Interval, "Interval"),
    (Field::VMin, "VMin"),
    (Field::VMax, "VMax"),
    (Field::WeightStart, "WeightStart"),
    (Field::Resolution, "Resolution"),
    (Field::WeightEntry, "WeightEntry"),
    (Field::Umax, "Umax"),
    (Field::GammaStar, "GammaStar"),
    (Field::GammaZero, "GammaZero"),
    (Field::AccumulatorTable, "AccumulatorTable"),
    (Field::BlockSize, "BlockSize"),
    (Field::Restricted, "Restricted"),
    (Field::Reference, "Reference"),
    (Field::Predictors, "Predictors"),
    (Field::Slots, "Slots"),
];

/// The rules and their names.
static RULES: [(Rule, &str); 15] = [
    (Rule::DepthOverBands, "DepthOverBands"),
    (Rule::FullOneColumn, "FullOneColumn"),
    (Rule::NeighbourOneColumn, "NeighbourOneColumn"),
    (Rule::RegisterTooSmall, "RegisterTooSmall"),
    (Rule::ExponentOrder, "ExponentOrder"),
    (Rule::DefaultWithTable, "DefaultWithTable"),
    (Rule::DefaultWithResolution, "DefaultWithResolution"),
    (Rule::ResolutionOverOmega, "ResolutionOverOmega"),
    (Rule::WeightTableLength, "WeightTableLength"),
    (Rule::CounterOrder, "CounterOrder"),
    (Rule::StartConstant, "StartConstant"),
    (Rule::ConstantWithTable, "ConstantWithTable"),
    (Rule::AccumulatorTableLength, "AccumulatorTableLength"),
    (Rule::AccumulatorEntry, "AccumulatorEntry"),
    (Rule::RestrictedOverFour, "RestrictedOverFour"),
];

/// Faults with the greatest number, and the words before it.
static GREAT: [(Fault, &str); 9] = [
    (Fault::Reserved { bit: u64::MAX }, "2 Reserved"),
    (Fault::Truncated { bit: u64::MAX }, "6 Truncated"),
    (Fault::BadCode { place: u64::MAX }, "7 BadCode"),
    (Fault::BadOption { block: u64::MAX }, "8 BadOption"),
    (
        Fault::RunPastSegment { block: u64::MAX },
        "9 RunPastSegment",
    ),
    (Fault::TooLong { bits: u64::MAX }, "11 TooLong"),
    (Fault::SampleRange { index: u64::MAX }, "13 SampleRange"),
    (
        Fault::RawLength {
            wanted: 0,
            had: u64::MAX,
        },
        "14 RawLength 0",
    ),
    (
        Fault::Stopped {
            predictor: 63,
            sent: u64::MAX,
        },
        "17 Stopped 63",
    ),
];

/// Asserts that the program prints this line for a fault.
fn has_line(rt: &impl Abort, alloc: Global, fault: &Fault, line: &str) {
    let found = fault_line(alloc, fault).expect(rt, "a line");
    same(rt, (fault, found.as_slice()), (fault, line.as_bytes()));
}

#[test]
fn faults_have_their_status_and_their_line(rt: HostRuntime) {
    for (fault, status) in &STATUSES {
        same(&rt, (fault, status_of(fault)), (fault, *status));
        let line = format!(in rt.alloc(); "ccsds: {fault}\n").expect(&rt, "memory");
        has_line(&rt, rt.alloc(), fault, &line);
    }
}

/// Asserts that each field is reported by its name.
fn fields_are_named(rt: &impl Abort, alloc: Global) {
    for &(field, name) in &FIELDS {
        let line = format!(in alloc; "ccsds: 3 FieldRange {name} -7\n").expect(rt, "memory");
        let fault = Fault::FieldRange { field, value: -7 };
        has_line(rt, alloc, &fault, &line);
    }
}

/// Asserts that each rule is reported by its name.
fn rules_are_named(rt: &impl Abort, alloc: Global) {
    for &(rule, name) in &RULES {
        let line = format!(in alloc; "ccsds: 4 Disagree {name}\n").expect(rt, "memory");
        has_line(rt, alloc, &Fault::Disagree { rule }, &line);
    }
}

#[test]
fn fields_and_rules_are_named(rt: HostRuntime) {
    fields_are_named(&rt, rt.alloc());
    rules_are_named(&rt, rt.alloc());
}

#[test]
fn great_numbers_are_printed(rt: HostRuntime) {
    for (fault, name) in &GREAT {
        let line = format!(in rt.alloc(); "ccsds: {name} {}\n", u64::MAX).expect(&rt, "memory");
        has_line(&rt, rt.alloc(), fault, &line);
    }
}

#[test]
fn a_fault_prints_one_line(rt: HostRuntime) -> Result<(), Fail> {
    let fault = Fault::RawLength { wanted: 6, had: 0 };
    let line = fault_line(rt.alloc(), &fault)?;
    same(
        &rt,
        line.as_slice(),
        b"ccsds: 14 RawLength 6 0\n".as_slice(),
    );
    Ok(())
}

#[test]
fn bytes_are_printed_in_hexadecimal(rt: HostRuntime) -> Result<(), Fail> {
    let text = hexadecimal(rt.alloc(), &[0x00, 0xFF, 0x1A])?;
    same(&rt, text.as_slice(), b"00ff1a\n".as_slice());
    Ok(())
}

/// Returns the lines of the header of two equal samples.
fn lines_of_two_equal(alloc: Global) -> Result<Vec<u8>, Fault> {
    let (params, size) = read_header(alloc, &TWO_EQUAL_FILE)?;
    header_lines(alloc, &params, size)
}

#[test]
fn lines_of_a_header_are_those_of_its_file(rt: HostRuntime) {
    let lines = lines_of_two_equal(rt.alloc()).expect(&rt, "lines");
    let told = inspected(rt.alloc(), &TWO_EQUAL_FILE).expect(&rt, "lines");
    same(&rt, lines.as_slice(), told.as_slice());
}
