//! Tests of lanes between two threads.

ghost use Rattle.std.specs.Prelude.{◌≡◌};

use crate::tests::checks::same;
use band_rings::closed::ClosedLane;
use band_rings::lane::lane;
use band_rings::receiver::LaneReceiver;
use band_rings::sender::LaneSender;
use band_rings::settled::{SettledLane, settle};
use std::process::Abort;
use std::test::Fail;
use std::thread;

/// How often each end may find no free slot, or no number, before it gives up.
const MOST_REFUSED: u32 = 10_000_000;

/// How many numbers are sent along a lane.
const NUMBERS: usize = 64;

/// How many numbers are sent at once.
const RUN: usize = 3;

/// Sends numbers one by one, and closes the lane.
fn send_singly(sender: LaneSender, numbers: &[u16]) -> ClosedLane
    ensures { result.lane ≡ sender.lane }
{
    let mut sender = sender;
    let mut sent = 0;
    let mut refused = 0;
    while sent < numbers.len() && refused < MOST_REFUSED {
        if sender.try_send(numbers[sent]).is_ok() {
            sent += 1;
        } else {
            refused += 1;
            thread::yield_now();
        }
    }
    sender.close()
}

/// Sends numbers in runs, and closes the lane.
fn send_in_runs(sender: LaneSender, numbers: &[u16]) -> ClosedLane
    ensures { result.lane ≡ sender.lane }
{
    let mut sender = sender;
    let mut sent = 0;
    let mut refused = 0;
    while sent < numbers.len() && refused < MOST_REFUSED {
        let count = RUN.min(numbers.len() - sent);
        if sender.send_run(&numbers[sent..sent + count]) {
            sent += count;
        } else {
            refused += 1;
            thread::yield_now();
        }
    }
    sender.close()
}

/// Receives numbers one by one, until the room is full.
fn receive_singly(receiver: LaneReceiver, room: &mut [u16]) -> LaneReceiver
    ensures { result.lane ≡ receiver.lane }
{
    let mut receiver = receiver;
    let mut received = 0;
    let mut refused = 0;
    while received < room.len() && refused < MOST_REFUSED {
        if let Some(number) = receiver.try_recv() {
            room[received] = number;
            received += 1;
        } else {
            refused += 1;
            thread::yield_now();
        }
    }
    receiver
}

/// Receives numbers in runs, until the room is full.
fn receive_in_runs(receiver: LaneReceiver, room: &mut [u16]) -> LaneReceiver
    ensures { result.lane ≡ receiver.lane }
{
    let mut receiver = receiver;
    let mut received = 0;
    let mut refused = 0;
    while received < room.len() && refused < MOST_REFUSED {
        let count = receiver.recv_run(&mut room[received..]);
        if count == 0 {
            refused += 1;
            thread::yield_now();
        }
        received += count;
    }
    receiver
}

/// Returns the numbers 1, 4, 7, ...
fn numbers() -> [u16; NUMBERS] {
    let mut numbers = [0; NUMBERS];
    for i in 0..NUMBERS {
        numbers[i] = 3 * i as u16 + 1;
    }
    numbers
}

/// Asserts that all numbers of a lane were sent and received.
fn all_went(rt: &impl Abort, settled: SettledLane) {
    let mut settled = settled;
    same(rt, settled.sent_count(), 64);
    same(rt, settled.received_count(), 64);
    same(rt, settled.take_left(), None);
}

#[test]
fn one_slot_sixty_four(rt: HostRuntime) -> Result<(), Fail> {
    let sent = numbers();
    let mut received = [0; NUMBERS];
    let (sender, receiver) = lane(rt.alloc(), 1)?;
    let (closed, receiver) = thread::join(
        &rt,
        || -> ClosedLane
            ensures { result.lane ≡ sender.lane }
        { send_singly(sender, &sent) },
        || -> LaneReceiver
            ensures { result.lane ≡ receiver.lane }
        { receive_singly(receiver, &mut received) },
    );
    all_went(&rt, settle(receiver, closed));
    same(&rt, received, sent);
    Ok(())
}

#[test]
fn runs_go_through_five_slots(rt: HostRuntime) -> Result<(), Fail> {
    let sent = numbers();
    let mut received = [0; NUMBERS];
    let (sender, receiver) = lane(rt.alloc(), 5)?;
    let (closed, receiver) = thread::join(
        &rt,
        || -> ClosedLane
            ensures { result.lane ≡ sender.lane }
        { send_in_runs(sender, &sent) },
        || -> LaneReceiver
            ensures { result.lane ≡ receiver.lane }
        { receive_in_runs(receiver, &mut received) },
    );
    all_went(&rt, settle(receiver, closed));
    same(&rt, received, sent);
    Ok(())
}
