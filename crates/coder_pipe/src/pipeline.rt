//! The pipeline: predictors in threads of their own, and the weaver in the thread that calls.

ghost use Rattle.std.specs.Prelude.{◌≡◌, ◌≤◌, [], length, map, All, IfOk, IfErr, IfSome, vec_len, vec_capacity};
ghost use Rattle.cube_core.specs.Shape.{InRange, sample_count};
ghost use Rattle.cube_core.specs.declared.fault.Fault.TheVariants.{WantOfMemory};
ghost use Rattle.coder_pipe.specs.Piping.{AreFeeds, IsPiped, MayStop, EndsEarly};
ghost use Rattle.coder_pipe.specs.Standings.{feeds_of, gates_of, handed_of, IsWoven};
ghost use Rattle.coder_pipe.specs.Stops.{MayStopAt};
ghost use Rattle.coder_pipe.specs.Woven.{HasWoven};

use crate::plan::Plan;
use crate::run::{Outcome, drain, finish_all, join_all, start_all, stop_all, weave};
use crate::weaver::Weaver;
use band_rings::settled::SettledLane;
use cube_core::fault::Fault;
use header_bits::params::Params;
use lane_workers::feed::Feed;
use lane_workers::gate::Gate;
use lane_workers::ready::Ready;
use lane_workers::stage::Stage;
use std::alloc::Global;
use std::sync::Wait;
use std::sync::atomic::AtomicBool;
use std::thread;
use std::thread::{Scope, Threads};

/// A file, and the lanes that carried its residuals, one for each predictor, by its number.
#[derive(Drop)]
pub struct Piped {
    pub file: Vec<u8>,
    pub lanes: Vec<SettledLane>,
}

/// Returns the file of the residuals that the predictors of a plan send, interleaved along the encoding order, and
/// their lanes.
///
/// The plan is for these parameters, and there is one feed for each predictor, in order. Each feed states a
/// list as long as its predictor's part of an image's residuals, each at most 2^D - 1, runs in a thread of its
/// own, and is consumed whatever the result; the calling thread codes while they send. It sees no cube. The
/// refusals are `WantOfMemory`; `SpawnRefused` if a thread wasn't started; and `Stopped`, with the least number of
/// a predictor that the gate stopped and how many residuals it had sent. All workers that were started have then
/// been joined.
pub fn encode_piped<R: Threads + Wait + Sync, F: Feed + Send, G: Gate + Sync>(
    rt: &R,
    alloc: Global,
    params: &Params,
    plan: &Plan,
    feeds: Vec<F>,
    gate: &G,
) -> Result<Piped, Fault>
    requires plan { plan.now.params ≡ params.now }
    requires feeds { AreFeeds F.predictor F.items plan.now feeds.items }
    ensures piped { IfOk result (λ p. IsPiped F.items plan.now feeds.items p.file.items p.lanes.items) }
    ensures early { IfErr result (λ e. EndsEarly e (λ q n. MayStop G.may_stop gate.now F.items feeds.items q n)) }
{
    plan.prove_is_plan();
    let count = feeds.len();
    let done_flags = flags(alloc, count)?;
    let room = room_for(alloc, params, plan, count)?;
    let prepared = prepare(alloc, plan.slots(), feeds)?;
    in_threads(rt, plan, prepared, room, gate, &done_flags)
}

/// Runs the workers in threads of their own, which end before it returns.
fn in_threads<R: Threads + Wait + Sync, F: Feed + Send, G: Gate + Sync>(
    rt: &R,
    plan: &Plan,
    prepared: Vec<Ready<F>>,
    room: Room<F, G>,
    gate: &G,
    done_flags: &[AtomicBool],
) -> Result<Piped, Fault>
    requires many { vec_len prepared ≡ plan.now.predictors }
    requires done_flags { length done_flags.now ≡ vec_len prepared }
    requires room { (vec_len prepared ≤ vec_capacity room.stages) × (vec_len prepared ≤ vec_capacity room.lanes) }
    requires empty { (room.stages.items ≡ []) × (room.lanes.items ≡ []) × HasWoven plan.now.params plan.now.deal room.weaver [] }
    requires lists { AreFeeds F.predictor F.items plan.now (map (λ r. r.feed) prepared.items) }
    ensures piped { IfOk result (λ p. IsPiped F.items plan.now (map (λ r. r.feed) prepared.items) p.file.items p.lanes.items) }
    ensures early { IfErr result (λ e. EndsEarly e (λ q n. MayStop G.may_stop gate.now F.items (map (λ r. r.feed) prepared.items) q n)) }
{
    thread::scope(
        thread::scope_env(),
        rt,
        move |scope| -> Result<Piped, Fault>
            requires many { vec_len prepared ≡ plan.now.predictors }
            requires done_flags { length done_flags.now ≡ vec_len prepared }
            requires room { (vec_len prepared ≤ vec_capacity room.stages) × (vec_len prepared ≤ vec_capacity room.lanes) }
            requires empty { (room.stages.items ≡ []) × (room.lanes.items ≡ []) × HasWoven plan.now.params plan.now.deal room.weaver [] }
            requires lists { AreFeeds F.predictor F.items plan.now (map (λ r. r.feed) prepared.items) }
            ensures piped { IfOk result (λ p. IsPiped F.items plan.entry.now (map (λ r. r.feed) prepared.items) p.file.items p.lanes.items) }
            ensures early { IfErr result (λ e. EndsEarly e (λ q n. MayStop G.may_stop gate.entry.now F.items (map (λ r. r.feed) prepared.items) q n)) }
        { run_in(scope, rt, plan, prepared, room, gate, done_flags) },
    )
}

/// What the calling thread allocates before it starts the workers.
#[derive(Drop)]
struct Room<F: Feed, G: Gate> {
    stages: Vec<Stage<F, G>>,
    lanes: Vec<SettledLane>,
    weaver: Weaver,
}

/// Allocates room for `count` workers and their lanes, and a weaver that has taken nothing.
fn room_for<F: Feed, G: Gate>(
    alloc: Global,
    params: &Params,
    plan: &Plan,
    count: usize,
) -> Result<Room<F, G>, Fault>
    requires { plan.now.params ≡ params.now }
    ensures room { IfOk result (λ r. (count ≤ vec_capacity r.stages) × (count ≤ vec_capacity r.lanes)) }
    ensures empty { IfOk result (λ r. (r.stages.items ≡ []) × (r.lanes.items ≡ []) × HasWoven plan.now.params plan.now.deal r.weaver []) }
    ensures refused { IfErr result (λ e. e ≡ WantOfMemory) }
{
    Ok(Room {
        stages: Vec::with_capacity(alloc, count)?,
        lanes: Vec::with_capacity(alloc, count)?,
        weaver: Weaver::new(alloc, params, plan)?,
    })
}

/// Returns a flag for each worker, none of which is set.
fn flags(alloc: Global, count: usize) -> Result<Vec<AtomicBool>, Fault>
    ensures many { IfOk result (λ v. vec_len v ≡ count) }
    ensures refused { IfErr result (λ e. e ≡ WantOfMemory) }
{
    let mut all = Vec::with_capacity(alloc, count)?;
    for _ in 0..count {
        all.push_reserved(AtomicBool::new(false));
    }
    Ok(all)
}

/// Gives each feed a lane of `slots` slots.
fn prepare<F: Drop>(alloc: Global, slots: u32, feeds: Vec<F>) -> Result<Vec<Ready<F>>, Fault>
    requires { InRange 1 65536 slots }
    ensures feeds { IfOk result (λ v. map (λ r. r.feed) v.items ≡ feeds.items) }
    ensures refused { IfErr result (λ e. e ≡ WantOfMemory) }
{
    let mut prepared = Vec::with_capacity(alloc, feeds.len())?;
    for feed in feeds {
        prepared.push_reserved(Ready::new(alloc, slots, feed)?);
    }
    Ok(prepared)
}

/// Starts all workers, interleaves what they send, and joins them.
fn run_in<'s, E, R: Threads + Wait + Sync + 's, F: Feed + Send + 's, G: Gate + Sync + 's>(
    scope: &Scope<'s, E>,
    rt: &'s R,
    plan: &Plan,
    prepared: Vec<Ready<F>>,
    room: Room<F, G>,
    gate: &'s G,
    done_flags: &'s [AtomicBool],
) -> Result<Piped, Fault>
    requires many { vec_len prepared ≡ plan.now.predictors }
    requires done_flags { length done_flags.now ≡ vec_len prepared }
    requires room { (vec_len prepared ≤ vec_capacity room.stages) × (vec_len prepared ≤ vec_capacity room.lanes) }
    requires empty { (room.stages.items ≡ []) × (room.lanes.items ≡ []) × HasWoven plan.now.params plan.now.deal room.weaver [] }
    requires lists { AreFeeds F.predictor F.items plan.now (map (λ r. r.feed) prepared.items) }
    ensures piped { IfOk result (λ p. IsPiped F.items plan.now (map (λ r. r.feed) prepared.items) p.file.items p.lanes.items) }
    ensures early { IfErr result (λ e. EndsEarly e (λ q n. MayStop G.may_stop gate.now F.items (map (λ r. r.feed) prepared.items) q n)) }
{
    let Room {
        stages,
        lanes,
        weaver,
    } = room;
    let (mut stages, all) = start_all(scope, rt, prepared, stages, gate, done_flags);
    if !all {
        drain(rt, &mut stages, done_flags);
        join_all(rt, stages);
        return Err(Fault::SpawnRefused);
    }
    weave_all(rt, plan, stages, lanes, weaver, done_flags)
}

/// Weaves what all workers send, and joins them.
fn weave_all<R: Threads + Wait, F: Feed, G: Gate>(
    rt: &R,
    plan: &Plan,
    stages: Vec<Stage<F, G>>,
    lanes: Vec<SettledLane>,
    weaver: Weaver,
    done_flags: &[AtomicBool],
) -> Result<Piped, Fault>
    requires many { vec_len stages ≡ plan.now.predictors }
    requires done_flags { vec_len stages ≤ length done_flags.now }
    requires room { vec_len stages ≤ vec_capacity lanes }
    requires empty { (lanes.items ≡ []) × HasWoven plan.now.params plan.now.deal weaver [] }
    requires fresh { All (λ r. r ≡ []) (handed_of stages.items) }
    requires lists { AreFeeds F.predictor F.items plan.now (feeds_of stages.items) }
    ensures piped { IfOk result (λ p. IsPiped F.items plan.now (feeds_of stages.items) p.file.items p.lanes.items) }
    ensures early { IfErr result (λ e. EndsEarly e (λ q n. MayStopAt G.may_stop F.items (feeds_of stages.items) (gates_of stages.items) q n)) }
{
    plan.prove_is_plan();
    let mut stages = stages;
    let mut weaver = weaver;
    match weave(rt, plan, &mut stages, done_flags, &mut weaver) {
        Outcome::Whole => finish_woven(rt, plan, stages, lanes, weaver),
        Outcome::Stopped(q, n) => {
            drain(rt, &mut stages, done_flags);
            match stop_all(rt, stages) {
                Some((predictor, sent)) => Err(Fault::Stopped { predictor, sent }),
                None => Err(Fault::Stopped {
                    predictor: q,
                    sent: n,
                }),
            }
        }
        Outcome::Memory => {
            drain(rt, &mut stages, done_flags);
            join_all(rt, stages);
            Err(Fault::WantOfMemory)
        }
    }
}

/// Joins all workers, once a residual was taken for each place, and returns the file and their lanes.
fn finish_woven<R: Threads, F: Feed, G: Gate>(
    rt: &R,
    plan: &Plan,
    stages: Vec<Stage<F, G>>,
    lanes: Vec<SettledLane>,
    weaver: Weaver,
) -> Result<Piped, Fault>
    requires room { vec_len stages ≤ vec_capacity lanes }
    requires empty { lanes.items ≡ [] }
    requires lists { AreFeeds F.predictor F.items plan.now (feeds_of stages.items) }
    requires woven { IsWoven plan.now.params plan.now.deal weaver (handed_of stages.items) (sample_count plan.now.params.shape) }
    ensures piped { IfOk result (λ p. IsPiped F.items plan.now (feeds_of stages.items) p.file.items p.lanes.items) }
    ensures refused { IfErr result (λ e. e ≡ WantOfMemory) }
{
    plan.prove_is_plan();
    let lanes = finish_all(rt, stages, lanes);
    let file = weaver.finish()?;
    Ok(Piped { file, lanes })
}
