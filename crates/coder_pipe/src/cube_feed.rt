//! Feeds of a cube: one for each predictor of a plan.

ghost use Rattle.std.specs.Prelude.{◌≡◌, ℕ, ◌<◌, map, vec_len, vec_capacity, IfOk, IfErr};
ghost use Rattle.cube_core.specs.declared.fault.Fault.TheVariants.{WantOfMemory};
ghost use Rattle.cube_core.specs.Image.{Image};
ghost use Rattle.cube_core.specs.Order.{upto};
ghost use Rattle.lane_workers.specs.Feeds.{Keeps};
ghost use Rattle.file_encoding.specs.Walks.{AreFresh, IsSeen};
ghost use Rattle.coder_pipe.specs.Sends.{part_of};

use crate::plan::Plan;
use crate::predict_lane::predict_with_room;
use band_rings::sender::LaneSender;
use cube_core::cube::Cube;
use cube_core::fault::Fault;
use file_encoding::walk::shared_planes_room;
use lane_workers::feed::{Feed, LaneEnd};
use lane_workers::gate::Gate;
use predict_core::band::Band;
use std::alloc::Global;
use std::marker::Model;
use std::sync::Wait;

/// A predictor of a plan, with its bands and with room for planes, before it reads a cube.
#[derive(Drop)]
pub struct CubeFeed<'a> {
    cube: &'a Cube,
    plan: &'a Plan,
    predictor: u32,
    bands: Vec<Band>,
    planes: Vec<u16>,
}

impl<'a> Model for CubeFeed<'a> {
    ghost use Rattle.file_encoding.specs.Walks.{AreFresh, IsSeen};
    ghost use Rattle.coder_pipe.specs.Sends.{CubeFeedState};

    ghost Value = { CubeFeedState };

    ghost view = { λ f. record { cube = f.cube.now; plan = f.plan.now; predictor = f.predictor } };

    ghost invariant = { λ f. IsSeen f.plan.now.params f.cube.now × AreFresh f.plan.now.params f.predictor f.plan.now.deal f.cube.now f.bands.items };
}

impl<'a> Feed for CubeFeed<'a> {
    ghost predictor = { λ f. f.predictor };

    ghost items = { part_of };

    fn run<R: Wait, G: Gate>(self, rt: &R, sender: LaneSender, gate: &G) -> LaneEnd {
        let CubeFeed {
            cube,
            plan,
            predictor,
            bands,
            mut planes,
        } = self;
        let room = &mut planes;
        predict_with_room(rt, cube, plan, predictor, bands, room, sender, gate)
    }
}

/// Returns a feed for each predictor of a plan, in order. Each sends its predictor's part of the residuals of a
/// cube.
///
/// The cube has the plan's shape and kind. Returns `WantOfMemory` if the predictors' state can't be allocated. Room for planes is done
/// without where it can't be.
pub fn cube_feeds<'a>(
    alloc: Global,
    cube: &'a Cube,
    plan: &'a Plan,
) -> Result<Vec<CubeFeed<'a>>, Fault>
    requires { IsSeen plan.now.params cube.now }
    ensures feeds { IfOk result (λ feeds. feeds.items ≡ map (λ q. record { cube = cube.now; plan = plan.now; predictor = q }) (upto plan.now.predictors)) }
    ensures refused { IfErr result (λ e. e ≡ WantOfMemory) }
{
    let mut feeds = Vec::new(alloc);
    for predictor in 0..plan.predictors() {
        feeds.push(CubeFeed {
            cube,
            plan,
            predictor,
            bands: own_bands(alloc, plan, predictor)?,
            planes: shared_planes_room(alloc, plan.params(), plan.predictors()),
        })?;
    }
    Ok(feeds)
}

/// Returns the predictors of the bands that a plan deals to a predictor, each at its first place.
fn own_bands(alloc: Global, plan: &Plan, predictor: u32) -> Result<Vec<Band>, Fault>
    ensures fresh { IfOk result (λ bands. (c : Image) → AreFresh plan.now.params predictor plan.now.deal c bands.items) }
    ensures refused { IfErr result (λ e. e ≡ WantOfMemory) }
{
    plan.prove_is_plan();
    let mut bands = Vec::new(alloc);
    for z in 0..plan.params().shape.bands() {
        if u32::from(plan.deal()[z as usize]) == predictor {
            bands.push(Band::new(alloc, plan.params(), z)?)?;
        }
    }
    Ok(bands)
}
