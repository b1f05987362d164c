//! Tests of a single predictor that a gate stops, whatever the other end of its lane does.

ghost use Rattle.std.specs.Prelude.{◌≡◌, [], ◌∷◌, IfOk};
ghost use Rattle.cube_core.specs.Image.{Image};
ghost use Rattle.coder_pipe.specs.Sends.{AreFresh};

use super::cube_a::{cube_of, plan_by_pixel};
use super::gates::StopAt;
use crate::tests::checks::same;
use band_rings::lane::lane;
use band_rings::receiver::LaneReceiver;
use band_rings::sender::LaneSender;
use band_rings::settled::{SettledLane, settle};
use coder_pipe::LaneEnd;
use coder_pipe::plan::Plan;
use coder_pipe::predict_lane::predict_lane;
use cube_core::fault::Fault;
use predict_core::band::Band;
use std::alloc::Global;
use std::process::Abort;
use std::sync::Wait;
use std::test::Fail;
use std::thread;
use std::thread::Threads;

/// How often a receiver may find no number before it gives up.
const MOST_REFUSED: u32 = 10_000_000;

/// A gate that stops predictor 0 before its third residual.
const THIRD: StopAt = StopAt {
    predictor: 0,
    nth: 2,
    turn: 0,
};

/// A gate that stops predictor 0 before its second residual, once 100 tries to send it have failed.
const SECOND_AT_LAST: StopAt = StopAt {
    predictor: 0,
    nth: 1,
    turn: 100,
};

/// Returns the first band, at its first place.
fn first_band(alloc: Global, plan: &Plan) -> Result<Vec<Band>, Fault>
    requires { (plan.now.deal ≡ 0 ∷ 1 ∷ []) × (plan.now.params.shape.bands ≡ 2) }
    ensures { IfOk result (λ bands. (c : Image) → AreFresh plan.now.params 0 plan.now.deal c bands.items) }
{
    plan.prove_is_plan();
    let mut bands = Vec::new(alloc);
    bands.push(Band::new(alloc, plan.params(), 0)?)?;
    Ok(bands)
}

/// Receives numbers into a room until it is full.
fn receive(receiver: LaneReceiver, room: &mut [u16]) -> LaneReceiver
    ensures { result.lane ≡ receiver.lane }
{
    let mut receiver = receiver;
    let mut received = 0;
    let mut refused = 0;
    while received < room.len() && refused < MOST_REFUSED {
        if let Some(number) = receiver.try_recv() {
            room[received] = number;
            received += 1;
        } else {
            refused += 1;
            thread::yield_now();
        }
    }
    receiver
}

/// Runs predictor 0, which has the first band, with a lane and a gate, and returns how it ended.
fn run_first<R: Wait + Abort>(
    rt: &R,
    alloc: Global,
    sender: LaneSender,
    gate: &StopAt,
) -> Result<LaneEnd, Fault>
    requires { sender.sent ≡ [] }
    ensures { IfOk result (λ end. end.closed.lane ≡ sender.lane) }
{
    run_plan(rt, alloc, &plan_by_pixel(rt, alloc, 1)?, sender, gate)
}

/// Runs predictor 0 by a plan that deals it the first of two bands, and returns how it ended.
fn run_plan<R: Wait>(
    rt: &R,
    alloc: Global,
    plan: &Plan,
    sender: LaneSender,
    gate: &StopAt,
) -> Result<LaneEnd, Fault>
    requires plan { (plan.now.deal ≡ 0 ∷ 1 ∷ []) × (plan.now.params.shape.bands ≡ 2) }
    requires sent { sender.sent ≡ [] }
    ensures { IfOk result (λ end. end.closed.lane ≡ sender.lane) }
{
    let cube = cube_of(alloc, plan.params())?;
    let bands = first_band(alloc, plan)?;
    Ok(predict_lane(rt, &cube, plan, 0, bands, sender, gate))
}

/// Asserts that predictor 0 is stopped with these numbers sent along a lane, of which none is received by then.
fn leaves<R: Wait + Abort>(
    rt: &R,
    alloc: Global,
    slots: u32,
    gate: &StopAt,
    sent: &[u16],
) -> Result<(), Fault> {
    let (sender, receiver) = lane(alloc, slots)?;
    let end = run_first(rt, alloc, sender, gate)?;
    assert!(rt; !end.whole);
    same(rt, end.closed.sent_count(), sent.len() as u64);
    same_left(rt, settle(receiver, end.closed), sent);
    Ok(())
}

/// Asserts that these numbers are left in a lane, and that none was received.
fn same_left(rt: &impl Abort, settled: SettledLane, left: &[u16]) {
    let mut settled = settled;
    same(rt, settled.received_count(), 0);
    for number in left {
        same(rt, settled.take_left(), Some(*number));
    }
    same(rt, settled.take_left(), None);
    same(rt, settled.received_count(), left.len() as u64);
}

#[test]
fn stopped_where_nothing_is_received(rt: HostRuntime) -> Result<(), Fail> {
    leaves(&rt, rt.alloc(), 2, &THIRD, &[55, 3])?;
    leaves(&rt, rt.alloc(), 1, &SECOND_AT_LAST, &[55])?;
    Ok(())
}

/// Asserts that predictor 0 is stopped with `sent` numbers sent along a lane whose receiver was dropped.
fn sends_to_nobody<R: Wait + Abort>(
    rt: &R,
    alloc: Global,
    slots: u32,
    gate: &StopAt,
    sent: u64,
) -> Result<(), Fault> {
    let (sender, receiver) = lane(alloc, slots)?;
    drop(receiver);
    let end = run_first(rt, alloc, sender, gate)?;
    assert!(rt; !end.whole);
    same(rt, end.closed.sent_count(), sent);
    Ok(())
}

#[test]
fn stopped_where_nobody_receives(rt: HostRuntime) -> Result<(), Fail> {
    sends_to_nobody(&rt, rt.alloc(), 2, &THIRD, 2)?;
    sends_to_nobody(&rt, rt.alloc(), 1, &SECOND_AT_LAST, 1)?;
    Ok(())
}

/// Runs predictor 0 up to its third residual while another thread receives into a room, and returns both ends.
fn run_beside<R: Threads + Wait + Sync + Abort>(
    rt: &R,
    alloc: Global,
    room: &mut [u16],
) -> Result<(LaneEnd, LaneReceiver), Fault>
    ensures { IfOk result (λ ends. ends.0.closed.lane ≡ ends.1.lane) }
{
    let (sender, receiver) = lane(alloc, 1)?;
    let (end, receiver) = thread::join(
        rt,
        || -> Result<LaneEnd, Fault>
            requires { sender.sent ≡ [] }
            ensures { IfOk result (λ end. end.closed.lane ≡ sender.lane) }
        { run_first(rt, alloc, sender, &THIRD) },
        || -> LaneReceiver
            ensures { result.lane ≡ receiver.lane }
        { receive(receiver, room) },
    );
    Ok((end?, receiver))
}

#[test]
fn stopped_while_another_thread_receives(rt: HostRuntime) -> Result<(), Fail> {
    let mut room = [0; 2];
    let (end, receiver) = run_beside(&rt, rt.alloc(), &mut room)?;
    assert!(rt; !end.whole);
    let mut settled = settle(receiver, end.closed);
    same(&rt, settled.sent_count(), 2);
    same(&rt, settled.received_count(), 2);
    same(&rt, settled.take_left(), None);
    same(&rt, room, [55, 3]);
    Ok(())
}
