//! Tests that predictors run in parallel: at some gates, one predictor waits for what another does.

use super::cube_a::{BY_PIXEL, compressed};
use super::gates::{FirstWaits, Meeting};
use super::predicted_files::two_make_it;
use super::weaver::feeds_make_it;
use crate::tests::checks::same;
use coder_pipe::Gate;
use cube_core::fault::Fault;
use std::alloc::Global;
use std::process::Abort;
use std::sync::Wait;
use std::test::Fail;
use std::thread::Threads;

/// Asserts that the command with two predictors makes the file of cube A by pixel, past a gate.
fn command_makes_it<R: Threads + Wait + Sync + Abort, G: Gate + Sync>(
    rt: &R,
    alloc: Global,
    slots: u32,
    gate: &G,
) -> Result<(), Fault> {
    let file = compressed(rt, alloc, 2, slots, gate)?;
    same(rt, file.as_slice(), BY_PIXEL.as_slice());
    Ok(())
}

/// Lets predictor 0 send its first residual only once predictor 1 has failed to send the first one that its lane has no
/// room for.
#[test]
fn gate_first_waits_for_second(rt: HostRuntime) -> Result<(), Fail> {
    for slots in 1..6 {
        let nth = u64::from(slots);
        two_make_it(&rt, rt.alloc(), slots, &FirstWaits::new(nth))?;
        command_makes_it(&rt, rt.alloc(), slots, &FirstWaits::new(nth))?;
        feeds_make_it(&rt, rt.alloc(), slots, &FirstWaits::new(nth))?;
    }
    Ok(())
}

/// Lets each of two predictors send its second residual only once the other has reached its own.
#[test]
fn gates_meet(rt: HostRuntime) -> Result<(), Fail> {
    let meeting = Meeting::new();
    two_make_it(&rt, rt.alloc(), 1, &meeting)?;
    assert!(rt; meeting.took_place());
    let meeting = Meeting::new();
    command_makes_it(&rt, rt.alloc(), 1, &meeting)?;
    assert!(rt; meeting.took_place());
    let meeting = Meeting::new();
    feeds_make_it(&rt, rt.alloc(), 1, &meeting)?;
    assert!(rt; meeting.took_place());
    Ok(())
}
