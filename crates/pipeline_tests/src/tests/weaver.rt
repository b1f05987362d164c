//! Tests of the weaver, with residuals that come from no cube.

ghost use Rattle.std.specs.Prelude.{◌≡◌, [], ◌∷◌, IfOk};
ghost use Rattle.cube_core.specs.declared.order.Order.TheVariants.{Bi};
ghost use Rattle.coder_pipe.specs.Piping.{AreFeeds};

use super::cube_a::plan_by_pixel;
use super::whole_weave::{Woven, weave_all};
use crate::tests::checks::{same, same_piped};
use coder_pipe::pipeline::{Piped, encode_piped};
use coder_pipe::plan::Plan;
use coder_pipe::{Gate, OpenGate};
use cube_core::fault::Fault;
use lane_workers::list_feed::ListFeed;
use std::alloc::Global;
use std::process::Abort;
use std::sync::Wait;
use std::test::Fail;
use std::thread::Threads;

/// The file of twelve residuals of zero, interleaved by pixel.
const ZEROS: [u8; 26] = [
    0x00, 0x00, 0x03, 0x00, 0x02, 0x00, 0x02, 0x10, 0x00, 0x02, 0x08, 0x00, 0x04, 0x20, 0x92, 0x59,
    0x00, 0x82, 0x26, // the header
    0x00, 0x00, 0x88, 0x88, 0x92, 0x49, 0x00,
];

/// Returns a list of six zeros for each of two predictors.
fn lists(alloc: Global) -> Result<Vec<Vec<u16>>, Fault> {
    let mut lists = Vec::new(alloc);
    for _ in 0..2 {
        lists.push(Vec::from_slice(alloc, &[0; 6])?)?;
    }
    Ok(lists)
}

/// Weaves these lists by the plan of `plan_by_pixel`.
fn lists_woven(rt: &impl Abort, alloc: Global) -> Result<Woven, Fault> {
    let lists = lists(alloc)?;
    weave_all(rt, alloc, &plan_by_pixel(rt, alloc, 1)?, &lists)
}

/// Checks that the two predictors are wanted in turn, and none after the last place.
#[test]
fn predictors_are_wanted_by_turns(rt: HostRuntime) -> Result<(), Fail> {
    let woven = lists_woven(&rt, rt.alloc())?;
    same(
        &rt,
        woven.wanted.as_slice(),
        [0, 1, 0, 1, 0, 1, 0, 1, 0, 1, 0, 1].as_slice(),
    );
    same(&rt, woven.file.as_slice(), ZEROS.as_slice());
    Ok(())
}

/// Returns a feed of six zeros for each of two predictors.
fn feeds<'a>(alloc: Global, plan: &Plan, zeros: &'a [u16]) -> Result<Vec<ListFeed<'a>>, Fault>
    requires plan { (plan.now.predictors ≡ 2) × (plan.now.deal ≡ 0 ∷ 1 ∷ []) }
    requires image { (plan.now.params.shape ≡ record { columns = 3; rows = 2; bands = 2 }) × (plan.now.params.kind.bits ≡ 8) × (plan.now.params.order ≡ Bi 2) }
    requires zeros { zeros.now ≡ 0 ∷ 0 ∷ 0 ∷ 0 ∷ 0 ∷ 0 ∷ [] }
    ensures { IfOk result (λ feeds. AreFeeds (λ f. f.predictor) (λ f. f.numbers.now) plan.now feeds.items) }
{
    let mut feeds = Vec::new(alloc);
    feeds.push(ListFeed {
        predictor: 0,
        numbers: zeros,
    })?;
    feeds.push(ListFeed {
        predictor: 1,
        numbers: zeros,
    })?;
    Ok(feeds)
}

/// Encodes the residuals of these feeds by a plan, past a gate.
fn feeds_woven<R: Threads + Wait + Sync + Abort, G: Gate + Sync>(
    rt: &R,
    alloc: Global,
    plan: &Plan,
    gate: &G,
) -> Result<Piped, Fault>
    requires plan { (plan.now.predictors ≡ 2) × (plan.now.deal ≡ 0 ∷ 1 ∷ []) }
    requires image { (plan.now.params.shape ≡ record { columns = 3; rows = 2; bands = 2 }) × (plan.now.params.kind.bits ≡ 8) × (plan.now.params.order ≡ Bi 2) }
{
    let zeros = [0; 6];
    let feeds = feeds(alloc, plan, &zeros)?;
    encode_piped(rt, alloc, plan.params(), plan, feeds, gate)
}

/// Asserts that the pipeline itself weaves these feeds to the file of zeros, with lanes of so many slots and past a gate.
pub(crate) fn feeds_make_it<R: Threads + Wait + Sync + Abort, G: Gate + Sync>(
    rt: &R,
    alloc: Global,
    slots: u32,
    gate: &G,
) -> Result<(), Fault> {
    let made = feeds_woven(rt, alloc, &plan_by_pixel(rt, alloc, slots)?, gate)?;
    same_piped(rt, &made, &ZEROS, &[6, 6]);
    Ok(())
}

/// Checks that the pipeline weaves these feeds to the same file.
#[test]
fn feeds_of_zeros_are_woven(rt: HostRuntime) -> Result<(), Fail> {
    feeds_make_it(&rt, rt.alloc(), 1, &OpenGate)?;
    Ok(())
}
