//! A worker that runs, or one that was joined.

ghost use Rattle.std.specs.Prelude.{◌≡◌, ◌<◌, ◌≤◌, [], ◌∷◌, ◌++◌, length, take, Some, IfSome, IfNone, IsSome, IsTrue};
ghost use Rattle.lane_workers.specs.States.{standing_of};

use crate::feed::Feed;
use crate::gate::Gate;
use crate::patience::Patience;
use crate::worker::{Ended, Worker, finish};
use core::mem::replace_with;
use std::sync::Wait;
use std::sync::atomic::{AtomicBool, Ordering};
use std::thread::Threads;

/// The state of a worker.
#[derive(Drop)]
pub(crate) enum State<F: Feed, G: Gate> {
    Running(Worker<F, G>),
    Joined(Ended<F, G>),
}

impl<F: Feed, G: Gate> State<F, G> {
    /// Writes the numbers that it sees to the front of a run, and returns how many.
    fn seen_run(&mut self, run: &mut [u16]) -> usize
        requires { 0 < length run.old }
        ensures same { ((standing_of self.new).feed ≡ (standing_of self.old).feed) × ((standing_of self.new).gate ≡ (standing_of self.old).gate) }
        ensures within { result ≤ length run.old }
        ensures handed { (standing_of self.new).handed ≡ (standing_of self.old).handed ++ take result run.new }
        ensures none { result ≡ 0 → IfSome (standing_of self.old).left (λ left. (standing_of self.new).left ≡ Some []) }
    {
        match self {
            State::Running(worker) => worker.receiver.next_run(run),
            State::Joined(ended) => ended.lane.take_run(run),
        }
    }

    /// Waits for the next numbers, and writes them to the front of a run that isn't empty, in order: at least one, and at most
    /// as many as the run holds. Returns how many: 0 once the worker has ended, all that it sent was passed on, and it was
    /// joined.
    pub(crate) fn next_run<R: Threads + Wait>(
        &mut self,
        rt: &R,
        over: &AtomicBool,
        patience: &mut Patience,
        run: &mut [u16],
    ) -> usize
        requires { 0 < length run.old }
        ensures same { ((standing_of self.new).feed ≡ (standing_of self.old).feed) × ((standing_of self.new).gate ≡ (standing_of self.old).gate) }
        ensures within { result ≤ length run.old }
        ensures handed { (standing_of self.new).handed ≡ (standing_of self.old).handed ++ take result run.new }
        ensures none { result ≡ 0 → (standing_of self.new).left ≡ Some [] }
    {
        for _ in rt.forever() {
            let is_over = over.load(Ordering::SeqCst);
            let count = self.seen_run(run);
            if count > 0 {
                patience.end();
                return count;
            }
            if is_over {
                replace_with(self, rt, join);
                return self.seen_run(run);
            }
            self.wait(rt, patience);
        }
        unreachable!()
    }

    /// Pauses until a running worker may have sent more.
    fn wait<R: Wait>(&self, rt: &R, patience: &mut Patience) {
        if let State::Running(worker) = self {
            patience.wait_for(rt, worker.receiver.bell());
        }
    }

    /// Passes on the next number that waits in the room of a running worker, or returns `None` if none waits or the worker was
    /// joined.
    #[inline(always)]
    fn next_received(&mut self) -> Option<u16>
        ensures same { ((standing_of self.new).feed ≡ (standing_of self.old).feed) × ((standing_of self.new).gate ≡ (standing_of self.old).gate) }
        ensures handed { IfSome result (λ number. (standing_of self.new).handed ≡ (standing_of self.old).handed ++ number ∷ []) }
        ensures none { IfNone result ((standing_of self.new).handed ≡ (standing_of self.old).handed) }
    {
        match self {
            State::Running(worker) => worker.receiver.next_received(),
            State::Joined(_) => None,
        }
    }

    /// Waits for the next number, and returns it; `None` once the worker has ended, all that it sent was passed
    /// on, and it was joined.
    #[inline(always)]
    pub(crate) fn next_one<R: Threads + Wait>(
        &mut self,
        rt: &R,
        over: &AtomicBool,
        patience: &mut Patience,
    ) -> Option<u16>
        ensures same { ((standing_of self.new).feed ≡ (standing_of self.old).feed) × ((standing_of self.new).gate ≡ (standing_of self.old).gate) }
        ensures handed { IfSome result (λ number. (standing_of self.new).handed ≡ (standing_of self.old).handed ++ number ∷ []) }
        ensures none { IfNone result (((standing_of self.new).left ≡ Some []) × ((standing_of self.new).handed ≡ (standing_of self.old).handed)) }
    {
        if let Some(number) = self.next_received() {
            return Some(number);
        }
        let mut run = [0];
        if self.next_run(rt, over, patience, &mut run) == 0 {
            return None;
        }
        Some(run[0])
    }

    /// Drops the numbers that wait to be passed on by a running worker, and receives up to 1,024 that it sees in their place.
    /// Returns whether it saw any.
    pub(crate) fn skip(&mut self) -> bool
        ensures { ((standing_of self.new).feed ≡ (standing_of self.old).feed) × ((standing_of self.new).gate ≡ (standing_of self.old).gate) }
    {
        match self {
            State::Running(worker) => worker.receiver.skip(),
            State::Joined(_) => false,
        }
    }

    /// Returns how many numbers a stopped worker sent, once all of them were passed on.
    pub(crate) fn stopped_at(&self) -> u64
        requires spent { (standing_of self.now).left ≡ Some [] }
        requires short { length (standing_of self.now).handed < length (F.items (standing_of self.now).feed) }
        ensures count { result ≡ length (standing_of self.now).handed }
        ensures stopped { IsTrue (G.may_stop (standing_of self.now).gate (F.predictor (standing_of self.now).feed) result) }
    {
        match self {
            State::Running(_) => unreachable!(),
            State::Joined(ended) => {
                if ended.whole {
                    unreachable!()
                }
                ended.lane.sent_count()
            }
        }
    }
}

/// Joins a worker that still runs.
pub(crate) fn joined<R: Threads, F: Feed, G: Gate>(rt: &R, state: State<F, G>) -> Ended<F, G>
    ensures feed { (result.feed.value ≡ (standing_of state).feed) × (result.gate.value ≡ (standing_of state).gate) }
    ensures received { result.lane.received ≡ (standing_of state).handed }
{
    match state {
        State::Running(worker) => finish(rt, worker),
        State::Joined(ended) => ended,
    }
}

/// Joins a worker that still runs, in its place.
fn join<R: Threads, F: Feed, G: Gate>(state: State<F, G>, rt: &R) -> (State<F, G>, ())
    ensures same { ((standing_of result.0).feed ≡ (standing_of state).feed) × ((standing_of result.0).gate ≡ (standing_of state).gate) }
    ensures handed { (standing_of result.0).handed ≡ (standing_of state).handed }
    ensures joined { IsSome (standing_of result.0).left }
{
    (State::Joined(joined(rt, state)), ())
}
