//! The speed of lanes between two threads.

ghost use Rattle.std.specs.Prelude.{◌≡◌, ◌≤◌, [], length, take, fold, IfOk, IfSome};
ghost use Rattle.speed.specs.Numbers.{mixed, checksum};

use crate::report::Report;
use crate::synthetic::{mixed, residuals};
use anyhow::Result;
use band_rings::closed::ClosedLane;
use band_rings::lane::lane;
use band_rings::receiver::LaneReceiver;
use band_rings::sender::LaneSender;
use band_rings::settled::settle;
use cube_core::fault::Fault;
use std::alloc::Global;
use std::thread;
use std::thread::Threads;

/// How many slots a lane has.
const SLOTS: u32 = 1024;

/// The greatest number of numbers in a run.
const LONGEST: usize = 64;

/// How often each end may find no free slot, or no number, before it gives up.
const MOST_REFUSED: u32 = 10_000_000;

/// Measures how numbers are sent singly, and in runs. The checksum is 0 if an end gave up.
pub fn measure<R: Threads>(rt: &R, report: &Report) -> Result<()> {
    let count = report.lane_numbers();
    let numbers = residuals(report.alloc(), count)?;
    for (name, run) in [("lane_singly", 1), ("lane_runs_8", 8), ("lane_runs_64", 64)] {
        let start = report.start()?;
        let sum = through(rt, report.alloc(), &numbers, run)?;
        let time = report.since(start)?;
        report.line(name, count, time, sum.unwrap_or(0))?;
    }
    Ok(())
}

/// Returns the checksum of numbers that went through a lane, in runs of `run`; `None` if an end gave up.
fn through<R: Threads>(
    rt: &R,
    alloc: Global,
    numbers: &[u16],
    run: usize,
) -> Result<Option<u64>, Fault>
    requires { (1 ≤ run) × (run ≤ 64) }
    ensures { IfOk result (λ sum. IfSome sum (λ s. s ≡ checksum numbers.now)) }
{
    let (sender, receiver) = lane(alloc, SLOTS)?;
    let (closed, (receiver, sum)) = thread::join(
        rt,
        move || -> ClosedLane
            requires { (sender.sent ≡ []) × (1 ≤ run) }
            ensures lane { result.lane ≡ sender.lane }
            ensures sent { result.sent ≡ take (length result.sent) numbers.entry.now }
        { send(sender, numbers, run) },
        move || -> (LaneReceiver, u64)
            requires { (receiver.received ≡ []) × (run ≤ 64) }
            ensures lane { result.0.lane ≡ receiver.lane }
            ensures sum { result.1 ≡ checksum result.0.received }
        { receive(receiver, numbers.len(), run) },
    );
    let settled = settle(receiver, closed);
    if settled.received_count() == numbers.len() as u64 {
        Ok(Some(sum))
    } else {
        Ok(None)
    }
}

/// Sends numbers in runs of `run`, a run of one singly, and closes the lane.
fn send(sender: LaneSender, numbers: &[u16], run: usize) -> ClosedLane
    requires fresh { sender.sent ≡ [] }
    requires run { 1 ≤ run }
    ensures lane { result.lane ≡ sender.lane }
    ensures sent { result.sent ≡ take (length result.sent) numbers.now }
{
    if run == 1 {
        send_singly(sender, numbers)
    } else {
        send_in_runs(sender, numbers, run)
    }
}

fn send_singly(sender: LaneSender, numbers: &[u16]) -> ClosedLane
    requires fresh { sender.sent ≡ [] }
    ensures lane { result.lane ≡ sender.lane }
    ensures sent { result.sent ≡ take (length result.sent) numbers.now }
{
    let mut sender = sender;
    let mut sent = 0;
    let mut refused = 0;
    while sent < numbers.len() && refused < MOST_REFUSED {
        if sender.try_send(numbers[sent]).is_ok() {
            sent += 1;
        } else {
            refused += 1;
            thread::yield_now();
        }
    }
    sender.close()
}

fn send_in_runs(sender: LaneSender, numbers: &[u16], run: usize) -> ClosedLane
    requires fresh { sender.sent ≡ [] }
    requires run { 1 ≤ run }
    ensures lane { result.lane ≡ sender.lane }
    ensures sent { result.sent ≡ take (length result.sent) numbers.now }
{
    let mut sender = sender;
    let mut sent = 0;
    let mut refused = 0;
    while sent < numbers.len() && refused < MOST_REFUSED {
        let count = run.min(numbers.len() - sent);
        if sender.send_run(&numbers[sent..sent + count]) {
            sent += count;
        } else {
            refused += 1;
            thread::yield_now();
        }
    }
    sender.close()
}

/// Receives `count` numbers in runs of `run`, a run of one singly, and returns their checksum.
fn receive(receiver: LaneReceiver, count: usize, run: usize) -> (LaneReceiver, u64)
    requires fresh { receiver.received ≡ [] }
    requires run { run ≤ 64 }
    ensures lane { result.0.lane ≡ receiver.lane }
    ensures sum { result.1 ≡ checksum result.0.received }
{
    if run == 1 {
        receive_singly(receiver, count)
    } else {
        receive_in_runs(receiver, count, run)
    }
}

fn receive_singly(receiver: LaneReceiver, count: usize) -> (LaneReceiver, u64)
    requires fresh { receiver.received ≡ [] }
    ensures lane { result.0.lane ≡ receiver.lane }
    ensures sum { result.1 ≡ checksum result.0.received }
{
    let mut receiver = receiver;
    let mut sum = 0;
    let mut received = 0;
    let mut refused = 0;
    while received < count && refused < MOST_REFUSED {
        if let Some(number) = receiver.try_recv() {
            sum = mixed(sum, u64::from(number));
            received += 1;
        } else {
            refused += 1;
            thread::yield_now();
        }
    }
    (receiver, sum)
}

fn receive_in_runs(receiver: LaneReceiver, count: usize, run: usize) -> (LaneReceiver, u64)
    requires fresh { receiver.received ≡ [] }
    requires run { run ≤ 64 }
    ensures lane { result.0.lane ≡ receiver.lane }
    ensures sum { result.1 ≡ checksum result.0.received }
{
    let mut receiver = receiver;
    let mut room = [0; LONGEST];
    let mut sum = 0;
    let mut left = count;
    let mut refused = 0;
    while left > 0 && refused < MOST_REFUSED {
        let taken = receiver.recv_run(&mut room[..run]);
        sum = sum_after(sum, &room[..taken]);
        left = left.saturating_sub(taken);
        if taken == 0 {
            refused += 1;
            thread::yield_now();
        }
    }
    (receiver, sum)
}

/// Returns a checksum continued with more numbers.
fn sum_after(sum: u64, numbers: &[u16]) -> u64
    ensures { result ≡ fold mixed sum numbers.now }
{
    let mut all = sum;
    for number in numbers {
        all = mixed(all, u64::from(*number));
    }
    all
}
