//! Tests of pipelines that a gate stops.

use super::cube_a::{compressed, params_of, piped, piped_by_pixel};
use super::gates::{StopAt, StopTwo};
use crate::tests::checks::same;
use cube_core::fault::Fault;
use cube_core::order::Order;
use header_bits::params::Coder;
use std::alloc::Global;
use std::process::Abort;
use std::sync::Wait;
use std::thread::Threads;

/// The number of a residual that no predictor has: each has those numbered 0 to 5.
const NEVER: u64 = 6;

/// Returns the fault of a predictor that was stopped after it had sent so many residuals.
fn stopped(predictor: u32, sent: u64) -> Option<Fault> {
    Some(Fault::Stopped { predictor, sent })
}

/// Asserts that a gate stops one of two predictors at a residual, in an order and with lanes of so many slots.
fn is_stopped<R: Threads + Wait + Sync + Abort>(
    rt: &R,
    alloc: Global,
    order: Order,
    slots: u32,
    predictor: u32,
    sent: u64,
) {
    let params = params_of(rt, order, Coder::plain());
    let gate = StopAt::new(predictor, sent);
    let answer = piped(rt, alloc, &params, 2, &[0, 1], slots, &gate);
    same(rt, answer.err(), stopped(predictor, sent));
}

/// Asserts that a gate stops a predictor at each of its residuals, in an order, with lanes of one slot and of eight.
fn is_stopped_at_each<R: Threads + Wait + Sync + Abort>(
    rt: &R,
    alloc: Global,
    order: Order,
    predictor: u32,
) {
    for sent in 0..NEVER {
        for slots in [1, 8] {
            is_stopped(rt, alloc, order, slots, predictor, sent);
        }
    }
}

/// Stops the first predictor at each of its residuals.
#[test]
fn the_first_is_stopped(rt: HostRuntime) {
    for order in [Order::Bsq, Order::Bi(2)] {
        is_stopped_at_each(&rt, rt.alloc(), order, 0);
    }
}

/// Stops the second predictor at each of its residuals.
#[test]
fn the_second_is_stopped(rt: HostRuntime) {
    for order in [Order::Bsq, Order::Bi(2)] {
        is_stopped_at_each(&rt, rt.alloc(), order, 1);
    }
}

/// Checks that a predictor is stopped at the same residual whatever the room of its lane.
#[test]
fn a_stop_is_the_same_in_lanes_of_any_room(rt: HostRuntime) {
    for slots in [1, 2, 1024] {
        is_stopped(&rt, rt.alloc(), Order::Bi(2), slots, 0, 2);
    }
}

/// Checks that a gate for a residual after the last stops nobody.
#[test]
fn none_is_stopped_after_the_last(rt: HostRuntime) {
    let gate = StopAt::new(0, NEVER);
    let answer = piped_by_pixel(&rt, rt.alloc(), 2, &[0, 1], 1, &gate);
    same(&rt, answer.err(), None);
}

/// Asserts that of two predictors, each stopped by a gate, the first is named, and how many residuals it had sent.
fn first_is_named<R: Threads + Wait + Sync + Abort>(
    rt: &R,
    alloc: Global,
    predictors: u32,
    deal: &[u8],
    one: StopAt,
    other: StopAt,
) {
    let gate = StopTwo { one, other };
    let answer = piped_by_pixel(rt, alloc, predictors, deal, 1, &gate);
    same(rt, answer.err(), stopped(one.predictor, one.nth));
}

/// Checks that of two stopped predictors the first is named, although the weaver meets the other one earlier, or the
/// other one has sent more.
#[test]
fn the_first_of_two_is_named(rt: HostRuntime) {
    let first = StopAt::new(0, 2);
    for sent in [0, 3] {
        first_is_named(&rt, rt.alloc(), 2, &[0, 1], first, StopAt::new(1, sent));
    }
}

/// Checks that the first of two is named where neither has sent a residual, and the weaver meets the other one earlier.
#[test]
fn the_first_is_named_where_none_has_sent(rt: HostRuntime) {
    first_is_named(
        &rt,
        rt.alloc(),
        2,
        &[1, 0],
        StopAt::new(0, 0),
        StopAt::new(1, 0),
    );
}

/// Checks that of three predictors the second is named if it and the third are stopped.
#[test]
fn the_second_of_three_is_named(rt: HostRuntime) {
    for (sent, other) in [(1, 4), (4, 1), (0, 0)] {
        let second = StopAt::new(1, sent);
        first_is_named(&rt, rt.alloc(), 3, &[1, 2], second, StopAt::new(2, other));
        first_is_named(&rt, rt.alloc(), 3, &[2, 1], second, StopAt::new(2, other));
    }
}

/// Checks that a command reports the same fault.
#[test]
fn a_command_is_stopped(rt: HostRuntime) {
    for sent in 0..NEVER {
        let answer = compressed(&rt, rt.alloc(), 2, 1, &StopAt::new(0, sent));
        same(&rt, answer.err(), stopped(0, sent));
    }
}
