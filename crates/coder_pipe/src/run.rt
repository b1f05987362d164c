//! All workers of a pipeline: started, interleaved and joined.

ghost use Rattle.std.specs.Prelude.{◌≡◌, ℕ, ◌-◌, ◌<◌, ◌≤◌, ◌⊎◌, [], length, map, All, Some, None, IfSome, IfNone, IsTrue, vec_len, vec_capacity, slice_index_or};
ghost use Rattle.cube_core.specs.Shape.{sample_count};
ghost use Rattle.coder_pipe.specs.Piping.{AreFeeds, MayStop, carried};
ghost use Rattle.coder_pipe.specs.Standings.{feeds_of, gates_of, handed_of, IsWoven};
ghost use Rattle.coder_pipe.specs.Stops.{MayStopAt, IfWhole, IfStopped};
ghost use Rattle.coder_pipe.specs.Woven.{HasWoven};

use crate::gather::{next_of_column, next_of_row};
use crate::plan::Plan;
use crate::weaver::Weaver;
use band_rings::settled::SettledLane;
use lane_workers::feed::Feed;
use lane_workers::gate::Gate;
use lane_workers::patience::Patience;
use lane_workers::ready::Ready;
use lane_workers::stage::Stage;
use std::sync::Wait;
use std::sync::atomic::{AtomicBool, Ordering};
use std::thread::{Scope, Threads};

/// How interleaving ended.
pub(crate) enum Outcome {
    /// A residual was taken for each place.
    Whole,
    /// A predictor was stopped after it had sent this many residuals.
    Stopped(u32, u64),
    /// An allocation failed.
    Memory,
}

/// The greatest number of residuals that are taken at once.
const MOST_RUN: usize = 64;

/// Takes a residual for each place, from the lane of its predictor, run after run.
pub(crate) fn weave<R: Threads + Wait, F: Feed, G: Gate>(
    rt: &R,
    plan: &Plan,
    stages: &mut Vec<Stage<F, G>>,
    done_flags: &[AtomicBool],
    weaver: &mut Weaver,
) -> Outcome
    requires many { vec_len stages.old ≡ plan.now.predictors }
    requires done_flags { vec_len stages.old ≤ length done_flags.now }
    requires fresh { All (λ r. r ≡ []) (handed_of stages.old.items) }
    requires woven { HasWoven plan.now.params plan.now.deal weaver.old [] }
    requires lists { AreFeeds F.predictor F.items plan.now (feeds_of stages.old.items) }
    ensures feeds { feeds_of stages.new.items ≡ feeds_of stages.old.items }
    ensures gates { gates_of stages.new.items ≡ gates_of stages.old.items }
    ensures whole { IfWhole result (IsWoven plan.now.params plan.now.deal weaver.new (handed_of stages.new.items) (sample_count plan.now.params.shape)) }
    ensures stopped { IfStopped result (λ q n. MayStopAt G.may_stop F.items (feeds_of stages.old.items) (gates_of stages.old.items) q n) }
{
    plan.prove_is_plan();
    let total = plan.params().shape.sample_count();
    let along_rows = plan.params().order.goes_along_rows();
    let mut run = [0; MOST_RUN];
    let mut taken = 0;
    while taken < total {
        let gathered = if along_rows {
            next_of_row(rt, plan, stages, done_flags, weaver, taken, &mut run)
        } else {
            next_of_column(rt, plan, stages, done_flags, weaver, taken, &mut run)
        };
        match gathered {
            Ok(count) => {
                let Ok(()) = weaver.take_all(&run[..count]) else {
                    return Outcome::Memory;
                };
                taken += count as u64;
            }
            Err((owner, sent)) => return Outcome::Stopped(owner, sent),
        }
    }
    Outcome::Whole
}

/// Drops the numbers of a worker that wait, and receives those that it sees in their place. Returns whether it saw any.
fn skip_one<F: Feed, G: Gate>(stages: &mut Vec<Stage<F, G>>, q: usize) -> bool
    requires { q < vec_len stages.old }
    ensures feeds { feeds_of stages.new.items ≡ feeds_of stages.old.items }
    ensures gates { gates_of stages.new.items ≡ gates_of stages.old.items }
    ensures len { vec_len stages.new ≡ vec_len stages.old }
{
    let stage = &mut stages[q];
    stage.skip()
}

/// Drops all that is sent until each worker sends no more.
pub(crate) fn drain<R: Wait, F: Feed, G: Gate>(
    rt: &R,
    stages: &mut Vec<Stage<F, G>>,
    done_flags: &[AtomicBool],
)
    requires { vec_len stages.old ≤ length done_flags.now }
    ensures feeds { feeds_of stages.new.items ≡ feeds_of stages.old.items }
    ensures gates { gates_of stages.new.items ≡ gates_of stages.old.items }
    ensures len { vec_len stages.new ≡ vec_len stages.old }
{
    let mut patience = Patience::new();
    'rounds: for _ in rt.forever() {
        let mut is_over = true;
        let mut is_idle = true;
        for q in 0..stages.len() {
            is_over = done_flags[q].load(Ordering::SeqCst) && is_over;
            is_idle = !skip_one(stages, q) && is_idle;
        }
        if is_over {
            return;
        }
        if is_idle {
            patience.wait(rt);
        } else {
            patience.end();
        }
    }
    unreachable!()
}

/// Starts the workers, until a start is refused.
pub(crate) fn start_all<'s, E, R: Wait + Sync + 's, F: Feed + Send + 's, G: Gate + Sync + 's>(
    scope: &Scope<'s, E>,
    rt: &'s R,
    prepared: Vec<Ready<F>>,
    stages: Vec<Stage<F, G>>,
    gate: &'s G,
    done_flags: &'s [AtomicBool],
) -> (Vec<Stage<F, G>>, bool)
    requires done_flags { length done_flags.now ≡ vec_len prepared }
    requires room { vec_len prepared ≤ vec_capacity stages }
    requires empty { stages.items ≡ [] }
    ensures feeds { IsTrue result.1 → feeds_of result.0.items ≡ map (λ r. r.feed) prepared.items }
    ensures gates { All (λ w. w ≡ gate.now) (gates_of result.0.items) }
    ensures handed { All (λ r. r ≡ []) (handed_of result.0.items) }
    ensures all { IsTrue result.1 → vec_len result.0 ≡ vec_len prepared }
    ensures some { vec_len result.0 ≤ length done_flags.now }
{
    let mut stages = stages;
    for ready in prepared {
        let Ok(stage) = Stage::start(scope, rt, ready, gate, &done_flags[stages.len()]) else {
            return (stages, false);
        };
        stages.push_reserved(stage);
    }
    (stages, true)
}

/// Returns the settled lanes of all workers, joined, once each has passed on as many numbers as its feed has.
pub(crate) fn finish_all<R: Threads, F: Feed, G: Gate>(
    rt: &R,
    stages: Vec<Stage<F, G>>,
    lanes: Vec<SettledLane>,
) -> Vec<SettledLane>
    requires room { vec_len stages ≤ vec_capacity lanes }
    requires empty { lanes.items ≡ [] }
    requires whole { All (λ s. length s.handed ≡ length (F.items s.feed)) stages.items }
    ensures handed { handed_of stages.items ≡ map F.items (feeds_of stages.items) }
    ensures lanes { result.items ≡ map (λ f. carried (F.items f)) (feeds_of stages.items) }
{
    let mut lanes = lanes;
    for stage in stages {
        lanes.push_reserved(stage.finish(rt));
    }
    lanes
}

/// Joins all workers, and returns the stopped one with the least number.
pub(crate) fn stop_all<R: Threads, F: Feed, G: Gate>(
    rt: &R,
    stages: Vec<Stage<F, G>>,
) -> Option<(u32, u64)>
    requires few { vec_len stages ≤ 64 }
    requires named { (k : ℕ) (f : _) → k < vec_len stages → F.predictor (slice_index_or (feeds_of stages.items) k f) ≡ k }
    ensures { IfSome result (λ r. MayStopAt G.may_stop F.items (feeds_of stages.items) (gates_of stages.items) r.0 r.1) }
{
    let mut first = None;
    let mut q = 0;
    for stage in stages {
        first = first_of(first, q, stage.stop(rt));
        q += 1;
    }
    first
}

/// Returns the stopped predictor with the least number, once predictor `q` has ended.
fn first_of(first: Option<(u32, u64)>, q: u32, sent: Option<u64>) -> Option<(u32, u64)>
    ensures from { IfSome result (λ r. (first ≡ Some r) ⊎ ((r.0 ≡ q) × (sent ≡ Some r.1))) }
    ensures first { IfSome first (λ r. result ≡ Some r) }
    ensures next { IfNone first (IfSome sent (λ n. result ≡ Some (q, n))) }
{
    match (first, sent) {
        (None, Some(sent)) => Some((q, sent)),
        _ => first,
    }
}

/// Joins all workers.
pub(crate) fn join_all<R: Threads, F: Feed, G: Gate>(rt: &R, stages: Vec<Stage<F, G>>) {
    for stage in stages {
        let _sent = stage.stop(rt);
    }
}
