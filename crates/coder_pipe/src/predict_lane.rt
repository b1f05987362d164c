//! One predictor at work: it sends the residuals of its own bands along its lane.

ghost use Rattle.std.specs.Prelude.{◌≡◌, []};
ghost use Rattle.sample_prediction.specs.Residual.{residuals};
ghost use Rattle.lane_workers.specs.Feeds.{Keeps};
ghost use Rattle.file_encoding.specs.Walks.{AreFresh, IsSeen};
ghost use Rattle.file_encoding.specs.Own.{owners, part};

use crate::lane_taker::LaneTaker;
use crate::plan::Plan;
use band_rings::sender::LaneSender;
use cube_core::cube::Cube;
use file_encoding::walk::send_own;
use lane_workers::feed::LaneEnd;
use lane_workers::gate::Gate;
use predict_core::band::Band;
use std::sync::Wait;

/// Sends a predictor's part of the residuals of a cube along a lane, in encoding order, and closes the lane.
///
/// The cube has the plan's shape and kind, the bands are those that the plan deals to the predictor, in order
/// and each at its first place, and nothing was sent into the lane. What is sent is a prefix of the part,
/// whatever the receiver does: all of it where the result is whole; otherwise the gate may stop the predictor
/// there, and the part is longer. It allocates nothing.
pub fn predict_lane<R: Wait, G: Gate>(
    rt: &R,
    cube: &Cube,
    plan: &Plan,
    predictor: u32,
    bands: Vec<Band>,
    sender: LaneSender,
    gate: &G,
) -> LaneEnd
    requires image { IsSeen plan.now.params cube.now }
    requires bands { AreFresh plan.now.params predictor plan.now.deal cube.now bands.items }
    requires sent { sender.sent ≡ [] }
    ensures { Keeps (G.may_stop gate.now) predictor (part predictor (owners plan.now.deal plan.now.params) (residuals plan.now.params cube.now)) sender.lane
        result }
{
    predict_with_room(rt, cube, plan, predictor, bands, &mut [], sender, gate)
}

/// `predict_lane` with room for planes, of any length: where band comes after band, as many bands at a time are predicted as it has
/// room for.
pub(crate) fn predict_with_room<R: Wait, G: Gate>(
    rt: &R,
    cube: &Cube,
    plan: &Plan,
    predictor: u32,
    bands: Vec<Band>,
    room: &mut [u16],
    sender: LaneSender,
    gate: &G,
) -> LaneEnd
    requires image { IsSeen plan.now.params cube.now }
    requires bands { AreFresh plan.now.params predictor plan.now.deal cube.now bands.items }
    requires sent { sender.sent ≡ [] }
    ensures { Keeps (G.may_stop gate.now) predictor (part predictor (owners plan.now.deal plan.now.params) (residuals plan.now.params cube.now)) sender.lane
        result }
{
    plan.prove_is_plan();
    let _count = cube.shape().sample_count();
    let mut bands = bands;
    let mut taker = LaneTaker::new(rt, predictor, sender, gate);
    let (params, deal) = (plan.params(), plan.deal());
    let _all = send_own(cube, params, predictor, deal, &mut bands, room, &mut taker);
    taker.end()
}
