//! Tests that a lane has as many slots as its plan says.

use super::gates::FirstWaits;
use crate::tests::checks::same_lane;
use coder_pipe::encode_predicted::encode_predicted;
use coder_pipe::plan::Plan;
use cube_core::cube::Cube;
use cube_core::fault::Fault;
use cube_core::kind::Kind;
use cube_core::order::Order;
use cube_core::shape::Shape;
use header_bits::params::Params;
use std::alloc::Global;
use std::process::Abort;
use std::sync::Wait;
use std::test::Fail;
use std::thread::Threads;

/// The columns of an image of two bands, each of which has more residuals than a lane has slots.
const COLUMNS: u32 = 1100;

/// Returns the parameters of this image, interleaved by pixel.
fn params(rt: &impl Abort) -> Params {
    Params {
        order: Order::Bi(2),
        ..Params::plain(
            Shape::new(COLUMNS, 1, 2).expect(rt, "a shape"),
            Kind::new(false, 8).expect(rt, "a kind"),
        )
    }
}

/// Asserts that the lane of predictor 1 is full of exactly `slots` residuals while predictor 0 sends none.
fn is_filled<R: Threads + Wait + Sync + Abort>(
    rt: &R,
    alloc: Global,
    params: &Params,
    slots: u32,
) -> Result<(), Fault> {
    assert!(rt; params.check().is_ok());
    let cube = Cube::new(alloc, params.shape, params.kind)?;
    let plan = Plan::new(alloc, params, 2, &[0, 1], slots)?;
    let gate = FirstWaits::new(u64::from(slots));
    let made = encode_predicted(rt, alloc, &cube, &plan, &gate)?;
    for lane in &made.lanes {
        same_lane(rt, lane, u64::from(COLUMNS));
    }
    Ok(())
}

#[test]
fn lanes_have_the_slots_of_their_plan(rt: HostRuntime) -> Result<(), Fail> {
    let params = params(&rt);
    for slots in [1, 15, 16, 17, 100, 1024] {
        is_filled(&rt, rt.alloc(), &params, slots)?;
    }
    Ok(())
}
