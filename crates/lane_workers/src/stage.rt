//! Workers as seen by the thread that takes their numbers.

ghost use Rattle.std.specs.Prelude.{◌≡◌, ◌<◌, ◌≤◌, [], ◌∷◌, ◌++◌, length, take, All, Some, None, IfOk, IfErr, IfSome, IfNone, IsTrue};
ghost use Rattle.cube_core.specs.declared.fault.Fault.TheVariants.{SpawnRefused};

use crate::feed::Feed;
use crate::gate::Gate;
use crate::patience::Patience;
use crate::ready::Ready;
use crate::state::{State, joined};
use crate::worker::{Ended, start};
use band_rings::settled::SettledLane;
use cube_core::fault::Fault;
use std::marker::Model;
use std::sync::Wait;
use std::sync::atomic::AtomicBool;
use std::thread::{Scope, Threads};

/// A worker, in a thread of its own until it is joined.
///
/// Contracts see its feed and its gate, which numbers were passed on, and, once it was joined and its lane
/// settled, which are left.
#[derive(Drop)]
pub struct Stage<F: Feed, G: Gate> {
    state: State<F, G>,
    patience: Patience,
}

impl<F: Feed, G: Gate> Model for Stage<F, G> {
    ghost use Rattle.lane_workers.specs.Stages.{StageState};

    ghost Value = { StageState F G };

    ghost use Rattle.lane_workers.specs.States.{standing_of};

    ghost view = { λ s. standing_of s.state };
}

impl<F: Feed, G: Gate> Stage<F, G> {
    /// Starts a worker in a scope. `over` is this worker's own flag, not yet set; it is set once the worker sends no more, and
    /// `next_run` and `next_one` take it again. Only waiting depends on it.
    ///
    /// Returns `SpawnRefused` if the thread wasn't started.
    pub fn start<'s, E, R: Wait + Sync + 's>(
        scope: &Scope<'s, E>,
        rt: &'s R,
        ready: Ready<F>,
        gate: &'s G,
        over: &'s AtomicBool,
    ) -> Result<Stage<F, G>, Fault>
    where
        F: Send + 's,
        G: Sync + 's,
        ensures stage { IfOk result (λ s. s ≡ record { feed = ready.feed; gate = gate.now; handed = []; left = None }) }
        ensures refused { IfErr result (λ e. e ≡ SpawnRefused) }
    {
        let worker = start(scope, rt, ready, gate, over)?;
        Ok(Stage {
            state: State::Running(worker),
            patience: Patience::new(),
        })
    }

    /// Waits for the next numbers, and writes them to the front of a run that isn't empty, in order: at least one, and at most
    /// as many as the run holds. Returns how many: 0 once the worker has ended, all that it sent was passed on, and it was
    /// joined.
    pub fn next_run<R: Threads + Wait>(
        &mut self,
        rt: &R,
        over: &AtomicBool,
        run: &mut [u16],
    ) -> usize
        requires { 0 < length run.old }
        ensures same { (self.new.feed ≡ self.old.feed) × (self.new.gate ≡ self.old.gate) }
        ensures within { result ≤ length run.old }
        ensures handed { self.new.handed ≡ self.old.handed ++ take result run.new }
        ensures none { result ≡ 0 → self.new.left ≡ Some [] }
    {
        self.state.next_run(rt, over, &mut self.patience, run)
    }

    /// Waits for the next number, and returns it; `None` once the worker has ended, all that it sent was passed
    /// on, and it was joined.
    #[inline(always)]
    pub fn next_one<R: Threads + Wait>(&mut self, rt: &R, over: &AtomicBool) -> Option<u16>
        ensures same { (self.new.feed ≡ self.old.feed) × (self.new.gate ≡ self.old.gate) }
        ensures handed { IfSome result (λ number. self.new.handed ≡ self.old.handed ++ number ∷ []) }
        ensures none { IfNone result ((self.new.left ≡ Some []) × (self.new.handed ≡ self.old.handed)) }
    {
        self.state.next_one(rt, over, &mut self.patience)
    }

    /// Drops the numbers that wait to be passed on, and receives up to 1,024 that it sees in their place, so that the worker finds
    /// free slots. Returns whether it saw any. It does nothing once the worker is joined. What then counts as passed on isn't
    /// stated.
    pub fn skip(&mut self) -> bool
        ensures { (self.new.feed ≡ self.old.feed) × (self.new.gate ≡ self.old.gate) }
    {
        self.state.skip()
    }

    /// Returns how many numbers a stopped worker sent, once all of them were passed on.
    pub fn stopped_at(&self) -> u64
        requires spent { self.now.left ≡ Some [] }
        requires short { length self.now.handed < length (F.items self.now.feed) }
        ensures count { result ≡ length self.now.handed }
        ensures stopped { IsTrue (G.may_stop self.now.gate (F.predictor self.now.feed) result) }
    {
        self.state.stopped_at()
    }

    /// Joins the worker, and returns how many numbers it sent if it was stopped, else `None`. It frees no slots: a worker that may
    /// lack one needs `skip` until its flag is set.
    pub fn stop<R: Threads>(self, rt: &R) -> Option<u64>
        ensures { IfSome result (λ sent. IsTrue (G.may_stop self.gate (F.predictor self.feed) sent) × (sent < length (F.items self.feed))) }
    {
        let Stage { state, patience: _ } = self;
        let ended = joined(rt, state);
        if ended.whole {
            None
        } else {
            Some(ended.lane.sent_count())
        }
    }

    /// Returns the settled lane of a worker, joined, once as many numbers were passed on as its feed has: these
    /// are the feed's, and nothing is left.
    pub fn finish<R: Threads>(self, rt: &R) -> SettledLane
        requires { length self.handed ≡ length (F.items self.feed) }
        ensures handed { self.handed ≡ F.items self.feed }
        ensures lane { result ≡ record { sent = F.items self.feed; received = F.items self.feed; rest = [] } }
    {
        let Stage { state, patience: _ } = self;
        let Ended {
            lane,
            whole: _,
            feed: _,
            gate: _,
        } = joined(rt, state);
        lane.into_lane()
    }

    /// Lemma, by joining the worker: a number greater than any of the feed is never passed on.
    pub fn never<R: Threads>(self, rt: &R, most: u16)
        requires list { All (λ n. n ≤ most) (F.items self.feed) }
        requires above { All (λ n. n ≤ most) self.handed → ⊥ }
        ensures { ⊥ }
    {
        let Stage { state, patience: _ } = self;
        let Ended {
            lane: _lane,
            whole: _,
            feed: _,
            gate: _,
        } = joined(rt, state);
        unreachable!()
    }
}
