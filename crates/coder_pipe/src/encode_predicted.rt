//! Encoding a cube with predictors in threads of their own.

ghost use Rattle.std.specs.Prelude.{◌≡◌, IfOk, IfErr};
ghost use Rattle.file_encoding.specs.Walks.{IsSeen};
ghost use Rattle.coder_pipe.specs.Piping.{EndsEarly, IsFileOf, MayStopPart};

use crate::cube_feed::cube_feeds;
use crate::pipeline::{Piped, encode_piped};
use crate::plan::Plan;
use cube_core::cube::Cube;
use cube_core::fault::Fault;
use lane_workers::gate::Gate;
use std::alloc::Global;
use std::sync::Wait;
use std::thread::Threads;

/// Returns the file of a cube of the plan's shape and kind, whose residuals the predictors of the plan have
/// sent.
///
/// Each predictor's residuals were received once each, in the order sent, and none is left; they are those of
/// its bands. The bytes are those that `encode_one` returns, and `decode` returns the cube and its parameters
/// from them, unless an allocation fails. The refusals are `WantOfMemory`; `SpawnRefused` if a thread wasn't
/// started; and `Stopped`, only where the gate may stop a predictor at a residual of its part. All workers that were
/// started have then been joined.
pub fn encode_predicted<R: Threads + Wait + Sync, G: Gate + Sync>(
    rt: &R,
    alloc: Global,
    cube: &Cube,
    plan: &Plan,
    gate: &G,
) -> Result<Piped, Fault>
    requires { IsSeen plan.now.params cube.now }
    ensures file { IfOk result (λ p. IsFileOf plan.now cube.now p.file.items p.lanes.items) }
    ensures early { IfErr result (λ e. EndsEarly e (λ q n. MayStopPart G.may_stop gate.now plan.now cube.now q n)) }
{
    plan.prove_is_plan();
    cube.prove_is_cube();
    let feeds = cube_feeds(alloc, cube, plan)?;
    encode_piped(rt, alloc, plan.params(), plan, feeds, gate)
}
