//! Tests of lanes within one thread.

ghost use Rattle.std.specs.Prelude.{◌≡◌};
ghost use Rattle.cube_core.specs.Shape.{InRange};

use crate::tests::checks::same;
use band_rings::lane::lane;
use band_rings::receiver::LaneReceiver;
use band_rings::sender::LaneSender;
use band_rings::settled::{SettledLane, settle};
use cube_core::fault::{Fault, Field};
use std::process::Abort;
use std::test::Fail;

#[test]
fn slots_out_of_range_are_refused(rt: HostRuntime) {
    for slots in [0, 65_537, u32::MAX] {
        let refused = Fault::FieldRange {
            field: Field::Slots,
            value: i64::from(slots),
        };
        assert!(rt; lane(rt.alloc(), slots).is_err_and(|fault| fault == refused));
    }
}

#[test]
fn every_slot_takes_a_number(rt: HostRuntime) -> Result<(), Fail> {
    for slots in [1, 2, 1024, 65_536] {
        let (sender, receiver) = lane(rt.alloc(), slots)?;
        takes_so_many(&rt, slots, sender, receiver);
    }
    Ok(())
}

/// Asserts that a lane takes a number for each of its slots, and another once one is received.
fn takes_so_many(rt: &impl Abort, slots: u32, sender: LaneSender, receiver: LaneReceiver)
    requires { InRange 1 65536 slots }
{
    let (mut sender, mut receiver) = (sender, receiver);
    for number in 0..slots {
        assert!(rt; sender.try_send(number as u16).is_ok());
    }
    same(rt, sender.try_send(7), Err(7));
    same(rt, receiver.try_recv(), Some(0));
    same(rt, sender.try_send(7), Ok(()));
    same(rt, sender.sent_count(), u64::from(slots) + 1);
}

#[test]
fn a_full_lane_returns_the_number(rt: HostRuntime) -> Result<(), Fail> {
    let (mut sender, mut receiver) = lane(rt.alloc(), 2)?;
    same(&rt, receiver.try_recv(), None);
    same(&rt, sender.try_send(5), Ok(()));
    same(&rt, sender.try_send(6), Ok(()));
    same(&rt, sender.try_send(7), Err(7));
    same(&rt, receiver.try_recv(), Some(5));
    let closed = sender.close();
    same(&rt, closed.sent_count(), 2);
    one_is_left(&rt, settle(receiver, closed), 2, 1, 6);
    Ok(())
}

/// Asserts how many numbers of a lane were sent and received, and that this one alone is left.
fn one_is_left(rt: &impl Abort, settled: SettledLane, sent: u64, received: u64, left: u16) {
    let mut settled = settled;
    same(rt, settled.sent_count(), sent);
    same(rt, settled.received_count(), received);
    same(rt, settled.take_left(), Some(left));
    same(rt, settled.take_left(), None);
    same(rt, settled.received_count(), sent);
}

#[test]
fn runs_on_two_slots(rt: HostRuntime) -> Result<(), Fail> {
    let (mut sender, _receiver) = lane(rt.alloc(), 2)?;
    assert!(rt; !sender.send_run(&[5, 6, 7]));
    same(&rt, sender.sent_count(), 0);
    assert!(rt; sender.send_run(&[5, 6]));
    assert!(rt; sender.send_run(&[]));
    assert!(rt; !sender.send_run(&[7]));
    same(&rt, sender.close().sent_count(), 2);
    Ok(())
}

/// Receives a run into a room, and asserts how many numbers it has and what the room then holds.
fn room_takes(
    rt: &impl Abort,
    receiver: &mut LaneReceiver,
    room: &mut [u16; 3],
    count: usize,
    wanted: [u16; 3],
)
    ensures { receiver.new.lane ≡ receiver.old.lane }
{
    same(rt, receiver.recv_run(room), count);
    same(rt, *room, wanted);
}

#[test]
fn a_run_takes_what_is_there(rt: HostRuntime) -> Result<(), Fail> {
    let (mut sender, mut receiver) = lane(rt.alloc(), 4)?;
    let mut room = [0; 3];
    same(&rt, receiver.recv_run(&mut room), 0);
    assert!(rt; sender.send_run(&[5, 6]));
    room_takes(&rt, &mut receiver, &mut room, 2, [5, 6, 0]);
    // These wrap around the end of the ring.
    assert!(rt; sender.send_run(&[7, 8, 9, 10]));
    room_takes(&rt, &mut receiver, &mut room, 3, [7, 8, 9]);
    same(&rt, receiver.recv_run(&mut []), 0);
    one_is_left(&rt, settle(receiver, sender.close()), 6, 5, 10);
    Ok(())
}
