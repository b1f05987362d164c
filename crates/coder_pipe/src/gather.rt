//! What workers pass on for the next places.
//!
//! Residuals are waited for in the order in which they are coded; only the coding of up to 64 of them comes later. Where places
//! go along rows, the next ones belong to one predictor, so they are taken from its lane in one call.

ghost use Rattle.std.specs.Prelude.{◌≡◌, ℕ, ◌+◌, ◌<◌, ◌≤◌, ◌^◌, [], ◌∷◌, ◌++◌, length, All, IfOk, IfErr, IsTrue, take, vec_len, slice_index_or, slice_set};
ghost use Rattle.cube_core.specs.Kind.{IsKind};
ghost use Rattle.cube_core.specs.Shape.{sample_count};
ghost use Rattle.file_encoding.specs.Ends.{MayCodeAll};
ghost use Rattle.coder_pipe.specs.Piping.{AreFeeds};
ghost use Rattle.coder_pipe.specs.Standings.{feeds_of, gates_of, handed_of, IsAhead, IsWoven};
ghost use Rattle.coder_pipe.specs.Stops.{MayStopAt};

use crate::plan::Plan;
use crate::weaver::Weaver;
use cube_core::kind::Kind;
use lane_workers::feed::Feed;
use lane_workers::gate::Gate;
use lane_workers::stage::Stage;
use std::sync::Wait;
use std::sync::atomic::AtomicBool;
use std::thread::Threads;

/// Waits for the next residuals of a predictor, each of which is at most `most`, and writes them to the front
/// of a run, at least one; or returns after how many the predictor was stopped.
fn next_of<R: Threads + Wait, F: Feed, G: Gate>(
    rt: &R,
    stages: &mut Vec<Stage<F, G>>,
    q: usize,
    over: &AtomicBool,
    most: u16,
    run: &mut [u16],
) -> Result<usize, u64>
    requires place { q < vec_len stages.old }
    requires room { 0 < length run.old }
    requires short { (f : _) → length (slice_index_or (handed_of stages.old.items) q []) < length (F.items (slice_index_or (feeds_of stages.old.items) q f)) }
    requires range { (f : _) → All (λ n. n ≤ most) (F.items (slice_index_or (feeds_of stages.old.items) q f)) }
    ensures feeds { feeds_of stages.new.items ≡ feeds_of stages.old.items }
    ensures gates { gates_of stages.new.items ≡ gates_of stages.old.items }
    ensures len { vec_len stages.new ≡ vec_len stages.old }
    ensures within { IfOk result (λ count. (0 < count) × (count ≤ length run.old)) }
    ensures ok { IfOk result (λ count. handed_of stages.new.items ≡ slice_set (handed_of stages.old.items) q (slice_index_or (handed_of stages.old.items) q
        [] ++ take count run.new)) }
    ensures most { IfOk result (λ count. All (λ n. n ≤ most) (take count run.new)) }
    ensures err { IfErr result (λ n. (f : _) (g : _)
        → IsTrue (G.may_stop (slice_index_or (gates_of stages.old.items) q g) (F.predictor (slice_index_or (feeds_of stages.old.items) q f)) n)
        × (n < length (F.items (slice_index_or (feeds_of stages.old.items) q f)))) }
{
    let stage = &mut stages[q];
    let count = stage.next_run(rt, over, run);
    if count == 0 {
        return Err(stage.stopped_at());
    }
    if greatest_of(&run[..count]) > most {
        no_such_number(rt, stages, q, most);
        unreachable!()
    }
    Ok(count)
}

/// Returns the greatest of some numbers; 0 if there are none.
fn greatest_of(numbers: &[u16]) -> u16
    ensures bound { All (λ n. n ≤ result) numbers.now }
    ensures least { (most : ℕ) → All (λ n. n ≤ most) numbers.now → result ≤ most }
{
    let mut greatest = 0;
    for i in 0..numbers.len() {
        greatest = greatest.max(numbers[i]);
    }
    greatest
}

/// Lemma, by joining the worker: a number greater than any of a feed is never passed on.
// It is a function of its own, so that the usual path sets up no stack for a worker.
#[inline(never)]
fn no_such_number<R: Threads, F: Feed, G: Gate>(
    rt: &R,
    stages: &mut Vec<Stage<F, G>>,
    q: usize,
    most: u16,
)
    requires place { q < vec_len stages.old }
    requires list { (s : _) → All (λ n. n ≤ most) (F.items (slice_index_or stages.old.items q s).feed) }
    requires above { (s : _) → All (λ n. n ≤ most) (slice_index_or stages.old.items q s).handed → ⊥ }
    ensures { ⊥ }
{
    stages.swap_remove(q).never(rt, most);
}

/// Waits for the next residual of a predictor, which is at most `most`, and returns it; or returns after how
/// many the predictor was stopped.
#[inline(always)]
fn next_one_of<R: Threads + Wait, F: Feed, G: Gate>(
    rt: &R,
    stages: &mut Vec<Stage<F, G>>,
    q: usize,
    over: &AtomicBool,
    most: u16,
) -> Result<u16, u64>
    requires place { q < vec_len stages.old }
    requires short { (f : _) → length (slice_index_or (handed_of stages.old.items) q []) < length (F.items (slice_index_or (feeds_of stages.old.items) q f)) }
    requires range { (f : _) → All (λ n. n ≤ most) (F.items (slice_index_or (feeds_of stages.old.items) q f)) }
    ensures feeds { feeds_of stages.new.items ≡ feeds_of stages.old.items }
    ensures gates { gates_of stages.new.items ≡ gates_of stages.old.items }
    ensures len { vec_len stages.new ≡ vec_len stages.old }
    ensures ok { IfOk result (λ number. handed_of stages.new.items ≡ slice_set (handed_of stages.old.items) q (slice_index_or (handed_of stages.old.items) q
        [] ++ number ∷ [])) }
    ensures most { IfOk result (λ number. number ≤ most) }
    ensures err { IfErr result (λ n. (f : _) (g : _)
        → IsTrue (G.may_stop (slice_index_or (gates_of stages.old.items) q g) (F.predictor (slice_index_or (feeds_of stages.old.items) q f)) n)
        × (n < length (F.items (slice_index_or (feeds_of stages.old.items) q f)))) }
{
    let stage = &mut stages[q];
    let Some(number) = stage.next_one(rt, over) else {
        return Err(stage.stopped_at());
    };
    if number > most {
        no_such_number(rt, stages, q, most);
        unreachable!()
    }
    Ok(number)
}

/// Waits for residuals of the next places, which belong to one predictor, and writes them to the front of a
/// run: as many as it sees. Returns how many, at least one; or who was stopped, and after how many.
///
/// `taken` residuals were taken so far in all, and there are more.
pub(crate) fn next_of_row<R: Threads + Wait, F: Feed, G: Gate>(
    rt: &R,
    plan: &Plan,
    stages: &mut Vec<Stage<F, G>>,
    done_flags: &[AtomicBool],
    weaver: &Weaver,
    taken: u64,
    run: &mut [u16],
) -> Result<usize, (u32, u64)>
    requires many { vec_len stages.old ≡ plan.now.predictors }
    requires done_flags { vec_len stages.old ≤ length done_flags.now }
    requires room { 0 < length run.old }
    requires woven { IsWoven plan.now.params plan.now.deal weaver.now (handed_of stages.old.items) taken }
    requires more { taken < sample_count plan.now.params.shape }
    requires lists { AreFeeds F.predictor F.items plan.now (feeds_of stages.old.items) }
    ensures feeds { feeds_of stages.new.items ≡ feeds_of stages.old.items }
    ensures gates { gates_of stages.new.items ≡ gates_of stages.old.items }
    ensures len { vec_len stages.new ≡ vec_len stages.old }
    ensures within { IfOk result (λ count. (0 < count) × (count ≤ length run.old)) }
    ensures ahead { IfOk result (λ count. IsAhead plan.now.params plan.now.deal weaver.now (handed_of stages.new.items) taken (take count run.new)) }
    ensures may { IfOk result (λ count. MayCodeAll weaver.now.end (take count run.new)) }
    ensures stopped { IfErr result (λ at. MayStopAt G.may_stop F.items (feeds_of stages.old.items) (gates_of stages.old.items) at.0 at.1) }
{
    plan.prove_is_plan();
    let most = greatest(plan.params().kind);
    let Some(owner) = weaver.wants() else {
        unreachable!()
    };
    let q = owner as usize;
    let wanted = weaver.wanted_run(run.len());
    match next_of(rt, stages, q, &done_flags[q], most, &mut run[..wanted]) {
        Ok(count) => Ok(count),
        Err(sent) => Err((owner, sent)),
    }
}

/// Waits for a residual of each of the next places in a column of bands, and writes them to the front of a run,
/// each from its own predictor's lane. Returns how many, at least one; or who was stopped, and after how many.
///
/// `taken` residuals were taken so far in all, and there are more.
pub(crate) fn next_of_column<R: Threads + Wait, F: Feed, G: Gate>(
    rt: &R,
    plan: &Plan,
    stages: &mut Vec<Stage<F, G>>,
    done_flags: &[AtomicBool],
    weaver: &Weaver,
    taken: u64,
    run: &mut [u16],
) -> Result<usize, (u32, u64)>
    requires many { vec_len stages.old ≡ plan.now.predictors }
    requires done_flags { vec_len stages.old ≤ length done_flags.now }
    requires room { 0 < length run.old }
    requires woven { IsWoven plan.now.params plan.now.deal weaver.now (handed_of stages.old.items) taken }
    requires more { taken < sample_count plan.now.params.shape }
    requires lists { AreFeeds F.predictor F.items plan.now (feeds_of stages.old.items) }
    ensures feeds { feeds_of stages.new.items ≡ feeds_of stages.old.items }
    ensures gates { gates_of stages.new.items ≡ gates_of stages.old.items }
    ensures len { vec_len stages.new ≡ vec_len stages.old }
    ensures within { IfOk result (λ count. (0 < count) × (count ≤ length run.old)) }
    ensures ahead { IfOk result (λ count. IsAhead plan.now.params plan.now.deal weaver.now (handed_of stages.new.items) taken (take count run.new)) }
    ensures may { IfOk result (λ count. MayCodeAll weaver.now.end (take count run.new)) }
    ensures stopped { IfErr result (λ at. MayStopAt G.may_stop F.items (feeds_of stages.old.items) (gates_of stages.old.items) at.0 at.1) }
{
    plan.prove_is_plan();
    let most = greatest(plan.params().kind);
    let owners = weaver.wanted_column(run.len());
    for i in 0..owners.len() {
        let owner = u32::from(owners[i]);
        let q = owner as usize;
        match next_one_of(rt, stages, q, &done_flags[q], most) {
            Ok(number) => run[i] = number,
            Err(sent) => return Err((owner, sent)),
        }
    }
    Ok(owners.len())
}

/// Returns the greatest residual of a kind.
fn greatest(kind: Kind) -> u16
    requires { IsKind kind }
    ensures { result + 1 ≡ 2 ^ kind.bits }
{
    ((1u32 << kind.bits()) - 1) as u16
}
