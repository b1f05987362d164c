//! Tests of the pipeline against a plain form of it: each predictor fills a whole list, and the lists are woven once
//! all are complete.

ghost use Rattle.std.specs.Prelude.{◌≡◌, ◌<◌};
ghost use Rattle.coder_pipe.specs.Sends.{IsSeen};

use super::cube_a::{by_blocks, cube_of, params_of, plan_of};
use super::whole_weave::weave_all;
use crate::tests::checks::{same, same_lane};
use band_rings::settled::SettledLane;
use coder_pipe::OpenGate;
use coder_pipe::encode_predicted::encode_predicted;
use coder_pipe::plan::Plan;
use cube_core::cube::Cube;
use cube_core::cursor::Places;
use cube_core::fault::Fault;
use cube_core::order::{Order, Place};
use header_bits::params::{Coder, Params};
use predict_core::band::Band;
use std::alloc::Global;
use std::process::Abort;
use std::sync::Wait;
use std::test::Fail;
use std::thread;
use std::thread::Threads;

/// A predictor of an image of two bands, and the list that it fills.
#[derive(Drop)]
struct Job<'a> {
    cube: &'a Cube,
    plan: &'a Plan,
    predictor: u32,
    first: Band,
    second: Band,
    list: Vec<u16>,
    ghost two_bands: { cube.now.shape.bands ≡ 2 },
    ghost first_is: { (first.shape ≡ cube.now.shape) × (first.kind ≡ cube.now.kind) × (first.band ≡ 0) },
    ghost second_is: { (second.shape ≡ cube.now.shape) × (second.kind ≡ cube.now.kind) × (second.band ≡ 1) },
}

/// Returns a job for each predictor, with a list that has room for all residuals.
fn jobs<'a>(alloc: Global, cube: &'a Cube, plan: &'a Plan) -> Result<Vec<Job<'a>>, Fault>
    requires seen { IsSeen plan.now.params cube.now }
    requires bands { plan.now.params.shape.bands ≡ 2 }
{
    let mut jobs = Vec::new(alloc);
    for predictor in 0..plan.predictors() {
        jobs.push(job_of(alloc, cube, plan, predictor)?)?;
    }
    Ok(jobs)
}

/// Returns the job of a predictor.
fn job_of<'a>(
    alloc: Global,
    cube: &'a Cube,
    plan: &'a Plan,
    predictor: u32,
) -> Result<Job<'a>, Fault>
    requires seen { IsSeen plan.now.params cube.now }
    requires bands { plan.now.params.shape.bands ≡ 2 }
{
    plan.prove_is_plan();
    let params = plan.params();
    Ok(Job {
        cube,
        plan,
        predictor,
        first: Band::new(alloc, params, 0)?,
        second: Band::new(alloc, params, 1)?,
        list: Vec::with_capacity(alloc, ALL)?,
    })
}

/// The number of residuals of cube A.
const ALL: usize = 12;

/// Fills the list of a job, and returns it.
fn filled<R: Abort>(rt: &R, job: Job<'_>) -> Vec<u16> {
    let Job {
        cube,
        plan,
        predictor,
        mut first,
        mut second,
        mut list,
    } = job;
    plan.prove_is_plan();
    for place in Places::new(plan.params().shape, plan.params().order) {
        let residual = if place.z == 0 {
            residual_at(rt, cube, &mut first, place)
        } else {
            residual_at(rt, cube, &mut second, place)
        };
        let owner = *plan
            .deal()
            .get(place.z as usize)
            .expect(rt, "a band that is dealt");
        if u32::from(owner) == predictor {
            list.push(residual).expect(rt, "room for all residuals");
        }
    }
    list
}

/// Returns the residual of a band at its next place.
fn residual_at(rt: &impl Abort, cube: &Cube, band: &mut Band, place: Place) -> u16
    requires seen { (cube.now.shape ≡ band.old.shape) × (cube.now.kind ≡ band.old.kind) }
    requires band { band.old.band < cube.now.shape.bands }
    ensures { (band.new.shape ≡ band.old.shape) × (band.new.kind ≡ band.old.kind) × (band.new.band ≡ band.old.band) }
{
    let shape = cube.shape();
    assert!(rt; place.y < shape.rows() && place.x < shape.columns());
    let next = u64::from(place.y) * u64::from(shape.columns()) + u64::from(place.x);
    assert!(rt; band.next() == next);
    band.forward(cube, place.y, place.x)
}

/// Returns the filled lists of all predictors.
fn whole_lists<R: Threads + Sync + Abort>(
    rt: &R,
    alloc: Global,
    cube: &Cube,
    plan: &Plan,
) -> Result<Vec<Vec<u16>>, Fault>
    requires seen { IsSeen plan.now.params cube.now }
    requires bands { plan.now.params.shape.bands ≡ 2 }
{
    let jobs = jobs(alloc, cube, plan)?;
    Ok(thread::map_vec(rt, jobs, &|job| filled(rt, job))?)
}

/// Asserts that each lane carried as many residuals as its predictor's list has.
fn same_lengths(rt: &impl Abort, lanes: &[SettledLane], lists: &[Vec<u16>]) {
    same(rt, lanes.len(), lists.len());
    for (lane, list) in lanes.iter().zip(lists) {
        same_lane(rt, lane, list.len() as u64);
    }
}

/// Asserts that the pipeline and the lists make the same file, with as many residuals of each predictor.
fn lists_give_the_same<R: Threads + Wait + Sync + Abort>(
    rt: &R,
    alloc: Global,
    cube: &Cube,
    plan: &Plan,
) -> Result<(), Fault>
    requires seen { IsSeen plan.now.params cube.now }
    requires image { (plan.now.params.shape.bands ≡ 2) × (plan.now.params.kind.bits ≡ 8) }
{
    let made = encode_predicted(rt, alloc, cube, plan, &OpenGate)?;
    let lists = whole_lists(rt, alloc, cube, plan)?;
    same_lengths(rt, &made.lanes, &lists);
    let woven = weave_all(rt, alloc, plan, &lists)?;
    same(rt, made.file, woven.file);
    Ok(())
}

/// Asserts that the pipeline and the lists agree by a plan for cube A.
fn plan_gives_the_same<R: Threads + Wait + Sync + Abort>(
    rt: &R,
    alloc: Global,
    params: &Params,
    predictors: u32,
    deal: &[u8],
) -> Result<(), Fault>
    requires { (params.now.shape.bands ≡ 2) × (params.now.kind.bits ≡ 8) }
{
    let cube = cube_of(alloc, params)?;
    let plan = plan_of(rt, alloc, params, predictors, deal, 1)?;
    lists_give_the_same(rt, alloc, &cube, &plan)
}

/// Asserts that the pipeline and the lists agree by each of four plans, in an order and by a coder.
fn plans_give_the_same<R: Threads + Wait + Sync + Abort>(
    rt: &R,
    alloc: Global,
    order: Order,
    coder: Coder,
) -> Result<(), Fault> {
    four_give_the_same(rt, alloc, &params_of(rt, order, coder))
}

/// Asserts that the pipeline and the lists agree by each of four plans for these parameters.
fn four_give_the_same<R: Threads + Wait + Sync + Abort>(
    rt: &R,
    alloc: Global,
    params: &Params,
) -> Result<(), Fault>
    requires { (params.now.shape.bands ≡ 2) × (params.now.kind.bits ≡ 8) }
{
    for (predictors, deal) in [(2, [0, 1]), (2, [0, 0]), (64, [63, 63]), (64, [40, 7])] {
        plan_gives_the_same(rt, alloc, params, predictors, &deal)?;
    }
    Ok(())
}

/// Checks each encoding order with each coder.
#[test]
fn pipelines_make_the_file_of_whole_lists(rt: HostRuntime) -> Result<(), Fail> {
    for order in [Order::Bsq, Order::Bi(1), Order::Bi(2)] {
        plans_give_the_same(&rt, rt.alloc(), order, Coder::plain())?;
        plans_give_the_same(&rt, rt.alloc(), order, by_blocks())?;
    }
    Ok(())
}
