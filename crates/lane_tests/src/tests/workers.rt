//! Tests of workers in threads of their own, and of the numbers that are passed on.

ghost use Rattle.std.specs.Prelude.{◌≡◌, ◌<◌, length};
ghost use Rattle.cube_core.specs.Shape.{InRange};

use super::gates::StopAt;
use crate::tests::checks::same;
use cube_core::fault::Fault;
use lane_workers::gate::{Gate, OpenGate};
use lane_workers::list_feed::ListFeed;
use lane_workers::ready::Ready;
use lane_workers::stage::Stage;
use std::alloc::Global;
use std::process::Abort;
use std::sync::Wait;
use std::sync::atomic::{AtomicBool, Ordering};
use std::test::Fail;
use std::thread;
use std::thread::{Scope, Threads};

/// How a worker ended.
#[derive(Clone, Copy, Debug, PartialEq, Eq)]
enum Outcome {
    /// All of its numbers were passed on. The counts are those of its lane.
    Whole {
        sent: u64,
        received: u64,
    },
    /// It was stopped, and `handed` numbers were passed on. `sent` and `joined` are how many it sent, by `stopped_at` and by
    /// `stop`.
    Stopped {
        handed: usize,
        sent: u64,
        joined: Option<u64>,
    },
}

/// How many numbers are taken at once at most.
const LONGEST: usize = 5;

/// Starts a worker, takes its numbers into a room as long as its list, run after run, and returns how it ended.
fn run<'s, E, R: Threads + Wait + Sync + 's, G: Gate + Sync + 's>(
    scope: &Scope<'s, E>,
    rt: &'s R,
    ready: Ready<ListFeed<'s>>,
    gate: &'s G,
    over: &'s AtomicBool,
    room: &mut [u16],
) -> Result<Outcome, Fault>
    requires { length room.old ≡ length ready.feed.numbers.now }
{
    let mut stage = Stage::start(scope, rt, ready, gate, over)?;
    let mut handed = 0;
    while handed < room.len() {
        let end = room.len().min(handed + LONGEST);
        let count = stage.next_run(rt, over, &mut room[handed..end]);
        if count == 0 {
            let sent = stage.stopped_at();
            return Ok(Outcome::Stopped {
                handed,
                sent,
                joined: stage.stop(rt),
            });
        }
        handed += count;
    }
    let lane = stage.finish(rt);
    Ok(Outcome::Whole {
        sent: lane.sent_count(),
        received: lane.received_count(),
    })
}

/// How often a worker is checked for its end before the test gives up.
const MOST_LOOKS: u32 = 10_000_000;

/// Starts a worker, drops its numbers until it sends no more, and joins it.
///
/// Returns whether it ended, and how many numbers it had sent if it was stopped.
fn skipped<'s, E, R: Threads + Wait + Sync + 's, G: Gate + Sync + 's>(
    scope: &Scope<'s, E>,
    rt: &'s R,
    ready: Ready<ListFeed<'s>>,
    gate: &'s G,
    over: &'s AtomicBool,
) -> Result<(bool, Option<u64>), Fault> {
    let mut stage = Stage::start(scope, rt, ready, gate, over)?;
    let mut ended = false;
    for _ in 0..MOST_LOOKS {
        ended = over.load(Ordering::SeqCst);
        stage.skip();
        if ended {
            break;
        }
        thread::yield_now();
    }
    Ok((ended, stage.stop(rt)))
}

/// Returns a list of `COUNT` numbers.
fn numbers<const COUNT: usize>() -> [u16; COUNT] {
    let mut numbers = [0; COUNT];
    for i in 0..COUNT {
        numbers[i] = (i % 4096) as u16;
    }
    numbers
}

/// Runs predictor 3 in a thread of its own, where it sends a list past a gate, and returns how it ended.
fn outcome_of<R: Threads + Wait + Sync, G: Gate + Sync>(
    rt: &R,
    alloc: Global,
    slots: u32,
    list: &[u16],
    gate: &G,
    room: &mut [u16],
) -> Result<Outcome, Fault>
    requires slots { InRange 1 65536 slots }
    requires room { length room.old ≡ length list.now }
{
    let over = AtomicBool::new(false);
    let feed = ListFeed {
        predictor: 3,
        numbers: list,
    };
    let ready = Ready::new(alloc, slots, feed)?;
    thread::scope(
        thread::scope_env(),
        rt,
        |scope| -> Result<Outcome, Fault>
            requires { length room.now ≡ length ready.feed.numbers.now }
        { run(scope, rt, ready, gate, &over, room) },
    )
}

/// Asserts that all 200 numbers of a list are passed on past an open gate.
fn goes_through<R: Threads + Wait + Sync + Abort>(
    rt: &R,
    alloc: Global,
    slots: u32,
) -> Result<(), Fault>
    requires { InRange 1 65536 slots }
{
    let list = numbers::<200>();
    let mut room = [0; 200];
    let whole = Outcome::Whole {
        sent: 200,
        received: 200,
    };
    same(
        rt,
        outcome_of(rt, alloc, slots, &list, &OpenGate, &mut room)?,
        whole,
    );
    same(rt, room, list);
    Ok(())
}

#[test]
fn a_list_is_passed_on(rt: HostRuntime) -> Result<(), Fail> {
    for slots in [1, 2, 5, 8, 1024] {
        goes_through(&rt, rt.alloc(), slots)?;
    }
    Ok(())
}

/// Asserts that a gate stops a worker at number `nth` of 200, and that the numbers before it are passed on.
fn is_told<R: Threads + Wait + Sync + Abort>(
    rt: &R,
    alloc: Global,
    slots: u32,
    nth: u64,
) -> Result<(), Fault>
    requires slots { InRange 1 65536 slots }
    requires nth { nth < 200 }
{
    let list = numbers::<200>();
    let mut room = [0; 200];
    let stopped = Outcome::Stopped {
        handed: nth as usize,
        sent: nth,
        joined: Some(nth),
    };
    let gate = stop_at(nth);
    same(
        rt,
        outcome_of(rt, alloc, slots, &list, &gate, &mut room)?,
        stopped,
    );
    same(rt, &room[..nth as usize], &list[..nth as usize]);
    Ok(())
}

/// Returns a gate that stops predictor 3 at a number.
fn stop_at(nth: u64) -> StopAt {
    StopAt {
        predictor: 3,
        nth,
        turn: 0,
    }
}

#[test]
fn a_stopped_worker_is_reported(rt: HostRuntime) -> Result<(), Fail> {
    for slots in [1, 2, 5, 8, 1024] {
        for nth in [0, 1, 7, 8, 9, 63, 64, 65, 199] {
            is_told(&rt, rt.alloc(), slots, nth)?;
        }
    }
    Ok(())
}

#[test]
fn a_gate_after_the_list_stops_nobody(rt: HostRuntime) -> Result<(), Fail> {
    let list = numbers::<6>();
    let mut room = [0; 6];
    let outcome = outcome_of(&rt, rt.alloc(), 1, &list, &stop_at(6), &mut room)?;
    let whole = Outcome::Whole {
        sent: 6,
        received: 6,
    };
    same(&rt, outcome, whole);
    same(&rt, room, list);
    Ok(())
}

/// Drops the 200 numbers of a worker. Returns whether it ended, and how many it had sent if a gate stopped it.
fn dropped<R: Threads + Wait + Sync>(
    rt: &R,
    alloc: Global,
    gate: &StopAt,
) -> Result<(bool, Option<u64>), Fault> {
    let list = numbers::<200>();
    let over = AtomicBool::new(false);
    let feed = ListFeed {
        predictor: 3,
        numbers: &list,
    };
    let ready = Ready::new(alloc, 2, feed)?;
    thread::scope(thread::scope_env(), rt, |scope| {
        skipped(scope, rt, ready, gate, &over)
    })
}

#[test]
fn a_worker_ends_if_its_numbers_are_dropped(rt: HostRuntime) -> Result<(), Fail> {
    for (nth, stopped) in [(130, Some(130)), (200, None)] {
        let ended = dropped(&rt, rt.alloc(), &stop_at(nth))?;
        same(&rt, ended, (true, stopped));
    }
    Ok(())
}
