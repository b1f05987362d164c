//! Tests of which numbers a feed sends past a gate, in which runs, and of what it asks the gate.

ghost use Rattle.std.specs.Prelude.{◌≡◌, []};

use super::gates::{Noted, StopAt, TakesOne};
use crate::tests::checks::same;
use band_rings::lane::lane;
use band_rings::receiver::LaneReceiver;
use band_rings::sender::LaneSender;
use lane_workers::feed::{Feed, LaneEnd};
use lane_workers::gate::{Gate, OpenGate};
use lane_workers::list_feed::ListFeed;
use std::process::Abort;
use std::sync::{Mutex, Wait};
use std::test::Fail;

/// The numbers of a list.
const NUMBERS: [u16; 6] = [55, 3, 5, 0, 4, 2];

/// The numbers of a longer list.
const MORE: [u16; 17] = [1, 2, 3, 4, 5, 6, 7, 8, 9, 10, 11, 12, 13, 14, 15, 16, 17];

/// Sends the numbers of predictor 0 past a gate, and returns how it ended.
fn run<R: Wait, G: Gate>(rt: &R, numbers: &[u16], sender: LaneSender, gate: &G) -> LaneEnd
    requires { sender.sent ≡ [] }
{
    let feed = ListFeed {
        predictor: 0,
        numbers,
    };
    feed.run(rt, sender, gate)
}

/// Returns a gate that stops a predictor at number `nth`, once `turn` tries to send it have failed.
fn stop_at(predictor: u32, nth: u64, turn: u64) -> StopAt {
    StopAt {
        predictor,
        nth,
        turn,
    }
}

/// Asserts whether a predictor sent its whole list, and how many numbers it sent.
fn same_end(rt: &impl Abort, end: LaneEnd, whole: bool, sent: u64) {
    same(rt, end.whole, whole);
    same(rt, end.closed.sent_count(), sent);
}

/// Sends numbers past a gate, and asserts how that ends and which questions the gate is asked.
fn ends<R: Wait + Abort>(
    rt: &R,
    numbers: &[u16],
    sender: LaneSender,
    gate: StopAt,
    whole: bool,
    sent: u64,
    questions: &[(u64, u64, u64)],
)
    requires { sender.sent ≡ [] }
{
    let gate = Noted::new(gate);
    same_end(rt, run(rt, numbers, sender, &gate), whole, sent);
    assert!(rt; gate.was_asked(questions));
}

/// Receives a run into a room, and asserts how many numbers it has and what the room then holds.
fn same_room<const ROOM: usize>(
    rt: &impl Abort,
    receiver: LaneReceiver,
    count: usize,
    wanted: [u16; ROOM],
) {
    let mut receiver = receiver;
    let mut room = [0; ROOM];
    same(rt, receiver.recv_run(&mut room), count);
    same(rt, room, wanted);
}

#[test]
fn open_gate_stops_nobody(rt: HostRuntime) -> Result<(), Fail> {
    for slots in [6, 7, 8, 1024] {
        let (sender, receiver) = lane(rt.alloc(), slots)?;
        same_end(&rt, run(&rt, &NUMBERS, sender, &OpenGate), true, 6);
        same_room(&rt, receiver, 6, [55, 3, 5, 0, 4, 2, 0]);
    }
    Ok(())
}

#[test]
fn an_empty_list_is_sent_whole(rt: HostRuntime) -> Result<(), Fail> {
    let (sender, _receiver) = lane(rt.alloc(), 1)?;
    ends(&rt, &[], sender, stop_at(0, 0, 0), true, 0, &[]);
    Ok(())
}

#[test]
fn stops_after_a_run_of_two(rt: HostRuntime) -> Result<(), Fail> {
    let (sender, mut receiver) = lane(rt.alloc(), 2)?;
    ends(
        &rt,
        &NUMBERS,
        sender,
        stop_at(0, 2, 0),
        false,
        2,
        &[(0, 3, 0)],
    );
    same(&rt, receiver.try_recv(), Some(55));
    same(&rt, receiver.try_recv(), Some(3));
    same(&rt, receiver.try_recv(), None);
    Ok(())
}

#[test]
fn numbers_before_the_stop_go_singly(rt: HostRuntime) -> Result<(), Fail> {
    let (sender, receiver) = lane(rt.alloc(), 8)?;
    // The gate is asked again for each number that is sent, but not for the one at which it stops.
    let questions = [(0, 3, 0), (0, 2, 0)];
    ends(
        &rt,
        &NUMBERS,
        sender,
        stop_at(0, 2, 0),
        false,
        2,
        &questions,
    );
    same_room(&rt, receiver, 2, [55, 3, 0]);
    Ok(())
}

#[test]
fn other_predictors_are_not_stopped(rt: HostRuntime) -> Result<(), Fail> {
    let (sender, _receiver) = lane(rt.alloc(), 8)?;
    ends(
        &rt,
        &NUMBERS,
        sender,
        stop_at(1, 2, 0),
        true,
        6,
        &[(0, 6, 0)],
    );
    Ok(())
}

#[test]
fn a_number_is_retried_until_the_gate_stops_it(rt: HostRuntime) -> Result<(), Fail> {
    // There is no receiver.
    let (sender, receiver) = lane(rt.alloc(), 1)?;
    drop(receiver);
    let questions = [
        (0, 2, 0),
        (1, 2, 1),
        (1, 2, 2),
        (1, 2, 3),
        (1, 2, 4),
        (1, 2, 5),
    ];
    ends(
        &rt,
        &NUMBERS,
        sender,
        stop_at(0, 1, 5),
        false,
        1,
        &questions,
    );
    Ok(())
}

/// Sends numbers past a gate that receives one whenever it is asked for a number of which at least `from` tries have failed, and
/// asserts that all are sent and which questions the gate is asked.
fn asks<R: Wait + Abort>(
    rt: &R,
    numbers: &[u16],
    sender: LaneSender,
    receiver: LaneReceiver,
    from: u64,
    questions: &[(u64, u64, u64)],
)
    requires { sender.sent ≡ [] }
{
    let gate = Noted::new(TakesOne {
        receiver: Mutex::new(receiver),
        from,
    });
    let sent = numbers.len() as u64;
    same_end(rt, run(rt, numbers, sender, &gate), true, sent);
    assert!(rt; gate.was_asked(questions));
}

#[test]
fn first_of_a_refused_run_goes_alone(rt: HostRuntime) -> Result<(), Fail> {
    let (sender, receiver) = lane(rt.alloc(), 8)?;
    let questions = [
        // The first run is sent, and the second is refused,
        (0, 8, 0),
        (8, 16, 0),
        // so its first number is sent alone, once the gate has received one;
        (8, 9, 1),
        // the others form a run with the last number, which is refused too, since only seven slots are free,
        (9, 16, 1),
        (16, 17, 0),
        // so the next number is sent alone,
        (9, 10, 2),
        // and then there are enough free slots for the seven numbers that are left.
        (10, 16, 2),
        (16, 17, 1),
    ];
    asks(&rt, &MORE, sender, receiver, 1, &questions);
    Ok(())
}

#[test]
fn turns_begin_anew_after_a_refused_run(rt: HostRuntime) -> Result<(), Fail> {
    let (sender, receiver) = lane(rt.alloc(), 8)?;
    let questions = [
        (0, 16, 0),
        (8, 16, 1),
        (16, 17, 0),
        // This run is refused, and is sent whole once its first number has gone alone.
        (9, 16, 2),
        (16, 17, 1),
        // The numbers of the next run haven't been tried yet.
        (17, 25, 0),
        (18, 25, 1),
    ];
    asks(&rt, &[7; 25], sender, receiver, 1, &questions);
    Ok(())
}

#[test]
fn a_number_that_comes_later_was_not_tried(rt: HostRuntime) -> Result<(), Fail> {
    // A run has three numbers.
    let (sender, receiver) = lane(rt.alloc(), 3)?;
    let questions = [
        (0, 6, 0),
        (3, 6, 1),
        // Number 6 fills up a run whose other numbers were tried before,
        (6, 7, 0),
        (4, 6, 2),
        (6, 7, 1),
        // and so does number 7.
        (7, 9, 0),
        (8, 9, 1),
    ];
    asks(&rt, &[7; 9], sender, receiver, 1, &questions);
    Ok(())
}

#[test]
fn a_try_of_the_first_counts_for_it_alone(rt: HostRuntime) -> Result<(), Fail> {
    let (sender, receiver) = lane(rt.alloc(), 4)?;
    let questions = [
        (0, 8, 0),
        // The first number of a refused run is tried alone, and refused; then the gate receives one.
        (4, 5, 1),
        (4, 5, 2),
        // Of the others one try has failed.
        (5, 8, 1),
        (8, 9, 0),
        (5, 8, 2),
        (8, 9, 1),
        (6, 8, 3),
        (8, 9, 2),
    ];
    asks(&rt, &[7; 9], sender, receiver, 2, &questions);
    Ok(())
}
