//! Tests of which plans are refused.

use super::cube_a::{ROOM, SAMPLES, by_pixel, compressed, compressed_from, plan_of};
use crate::tests::checks::same;
use ccsds_command::CutSource;
use coder_pipe::OpenGate;
use cube_core::fault::{Fault, Field};
use std::alloc::Global;
use std::process::Abort;
use std::sync::Wait;
use std::thread::Threads;

/// Returns the fault that a plan for cube A is refused for, if it is.
fn refusal(
    rt: &impl Abort,
    alloc: Global,
    predictors: u32,
    deal: &[u8],
    slots: u32,
) -> Option<Fault> {
    plan_of(rt, alloc, &by_pixel(rt), predictors, deal, slots).err()
}

/// Checks that predictors are tested before slots, and slots before the deal.
#[test]
fn numbers_are_checked_in_order(rt: HostRuntime) {
    let none = range(Field::Predictors, 0);
    same(&rt, refusal(&rt, rt.alloc(), 0, &[0, 2], 0), none);
    let many = range(Field::Predictors, 65);
    same(&rt, refusal(&rt, rt.alloc(), 65, &[0, 1], 1), many);
    let none = range(Field::Slots, 0);
    same(&rt, refusal(&rt, rt.alloc(), 2, &[0, 2], 0), none);
    let many = range(Field::Slots, 65_537);
    same(&rt, refusal(&rt, rt.alloc(), 2, &[0, 1], 65_537), many);
    same(&rt, refusal(&rt, rt.alloc(), 2, &[0, 1], 65_536), None);
    same(&rt, refusal(&rt, rt.alloc(), 64, &[63, 0], 1), None);
}

/// Checks that the first wrong entry of a deal is refused before the deal's length.
#[test]
fn entries_are_checked_before_the_length(rt: HostRuntime) {
    same(&rt, refusal(&rt, rt.alloc(), 2, &[0, 2], 1), band(1));
    same(&rt, refusal(&rt, rt.alloc(), 2, &[0], 1), band(1));
    same(&rt, refusal(&rt, rt.alloc(), 2, &[], 1), band(0));
    same(&rt, refusal(&rt, rt.alloc(), 2, &[0, 0, 0], 1), band(2));
    same(&rt, refusal(&rt, rt.alloc(), 2, &[0, 0, 0, 2], 1), band(3));
    same(&rt, refusal(&rt, rt.alloc(), 1, &[1, 0, 0], 1), band(0));
}

/// Numbers of predictors and slots that no plan has, and what is refused of them.
const UNPLANNED: [(u32, u32, Field, i64); 4] = [
    (0, 0, Field::Predictors, 0),
    (65, 1, Field::Predictors, 65),
    (2, 0, Field::Slots, 0),
    (64, 65_537, Field::Slots, 65_537),
];

/// Checks that a command reports why its plan is refused.
#[test]
fn a_command_without_a_plan_is_refused(rt: HostRuntime) {
    for (predictors, slots, field, value) in UNPLANNED {
        let answer = compressed(&rt, rt.alloc(), predictors, slots, &OpenGate);
        same(&rt, answer.err(), range(field, value));
    }
}

/// Returns the fault of a command whose source fails at its first call.
fn refusal_without_source<R: Threads + Wait + Sync + Abort>(
    rt: &R,
    alloc: Global,
    predictors: u32,
    slots: u32,
) -> Option<Fault> {
    let mut source = CutSource::new(&SAMPLES, ROOM, Some(0));
    compressed_from(rt, alloc, predictors, slots, &OpenGate, &mut source).err()
}

/// Checks that a command refuses its plan before it reads from its source.
#[test]
fn a_plan_is_refused_before_anything_is_read(rt: HostRuntime) {
    for (predictors, slots, field, value) in UNPLANNED {
        let refusal = refusal_without_source(&rt, rt.alloc(), predictors, slots);
        same(&rt, refusal, range(field, value));
    }
    let refusal = refusal_without_source(&rt, rt.alloc(), 2, 1);
    same(&rt, refusal, Some(Fault::Read));
}

/// Returns the fault of a field out of its range.
fn range(field: Field, value: i64) -> Option<Fault> {
    Some(Fault::FieldRange { field, value })
}

/// Returns the fault of a deal that is wrong at a band.
fn band(band: u32) -> Option<Fault> {
    Some(Fault::BadDeal { band })
}
