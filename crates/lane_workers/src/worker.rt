//! One worker: its thread, its feed, and the receiving end of its lane.

ghost use Rattle.std.specs.Prelude.{◌≡◌, ◌<◌, [], ◌∷◌, ◌++◌, length, take, IfOk, IfErr, IsTrue, IsFalse};
ghost use Rattle.band_rings.specs.Lane.{IsLane};
ghost use Rattle.cube_core.specs.Shape.{InRange};
ghost use Rattle.cube_core.specs.declared.fault.Fault.TheVariants.{SpawnRefused, WantOfMemory};
ghost use Rattle.lane_workers.specs.Feeds.{Keeps};

use crate::feed::{Feed, LaneEnd};
use crate::gate::Gate;
use crate::ready::Ready;
use crate::run_receiver::{RunReceiver, SettledRuns};
use band_rings::sender::LaneSender;
use cube_core::fault::Fault;
use std::snapshot::Snapshot;
use std::sync::Wait;
use std::sync::atomic::{AtomicBool, Ordering};
use std::thread::{Promise, PromisedHandle, Scope, Threads};

/// The promise of a worker's thread about the end that it returns.
pub(crate) struct EndOf<F, G> {
    pub(crate) feed: Snapshot<F>,
    pub(crate) gate: Snapshot<G>,
    pub(crate) sender: Snapshot<LaneSender>,
}

impl<F, G> Drop for EndOf<F, G> {
    fn drop(self) {
        let EndOf {
            feed: _,
            gate: _,
            sender: _,
        } = self;
    }
}

impl<F: Feed, G: Gate> Promise<LaneEnd> for EndOf<F, G> {
    ghost kept_by = { λ p r. Keeps (G.may_stop p.gate.value) (F.predictor p.feed.value) (F.items p.feed.value) p.sender.value.lane r };
}

/// A thread that runs a feed, and the receiving end of its lane. What the thread sends is a prefix of that feed's list.
#[derive(Drop)]
pub(crate) struct Worker<F: Feed, G: Gate> {
    pub(crate) receiver: RunReceiver,
    pub(crate) handle: PromisedHandle<LaneEnd, EndOf<F, G>>,
    pub(crate) feed: Snapshot<F>,
    pub(crate) gate: Snapshot<G>,
    ghost paired: { receiver.lane ≡ handle.promise.sender.value.lane },
    ghost same_feed: { handle.promise.feed.value ≡ feed.value },
    ghost same_gate: { handle.promise.gate.value ≡ gate.value },
}

/// A worker that has ended: its lane, and whether its whole feed was sent.
#[derive(Drop)]
pub(crate) struct Ended<F: Feed, G: Gate> {
    pub(crate) lane: SettledRuns,
    pub(crate) whole: bool,
    pub(crate) feed: Snapshot<F>,
    pub(crate) gate: Snapshot<G>,
    ghost parted: { IsLane lane },
    ghost prefix: { lane.sent ≡ take (length lane.sent) (F.items feed.value) },
    ghost all: { IsTrue whole → lane.sent ≡ F.items feed.value },
    ghost stopped: { IsFalse whole → IsTrue (G.may_stop gate.value (F.predictor feed.value) (length lane.sent))
        × (length lane.sent < length (F.items feed.value)) },
}

/// Starts a worker's thread in a scope. `over` is set once it sends no more; no clause depends on it.
pub(crate) fn start<'s, E, R: Wait + Sync + 's, F: Feed + Send + 's, G: Gate + Sync + 's>(
    scope: &Scope<'s, E>,
    rt: &'s R,
    ready: Ready<F>,
    gate: &'s G,
    over: &'s AtomicBool,
) -> Result<Worker<F, G>, Fault>
    ensures worker { IfOk result (λ w. (w.feed.value ≡ ready.feed) × (w.gate.value ≡ gate.now) × (w.receiver.received ≡ [])) }
    ensures refused { IfErr result (λ e. e ≡ SpawnRefused) }
{
    let Ready {
        feed,
        sender,
        receiver,
    } = ready;
    let same_feed = Snapshot::of(&feed);
    let promise = EndOf {
        feed: Snapshot::of(&feed),
        gate: Snapshot::of(gate),
        sender: Snapshot::of(&sender),
    };
    let Ok(handle) = scope.spawn_with(promise, move || work(rt, feed, sender, gate, over)) else {
        return Err(Fault::SpawnRefused);
    };
    Ok(Worker {
        receiver: RunReceiver::new(receiver),
        handle,
        feed: same_feed,
        gate: Snapshot::of(gate),
    })
}

/// What a worker's thread does.
fn work<R: Wait, F: Feed, G: Gate>(
    rt: &R,
    feed: F,
    sender: LaneSender,
    gate: &G,
    over: &AtomicBool,
) -> LaneEnd
    requires { sender.sent ≡ [] }
    ensures { Keeps (G.may_stop gate.now) (F.predictor feed) (F.items feed) sender.lane result }
{
    let end = feed.run(rt, sender, gate);
    over.store(true, Ordering::SeqCst);
    end
}

/// Joins a worker's thread, and settles its lane.
pub(crate) fn finish<R: Threads, F: Feed, G: Gate>(rt: &R, worker: Worker<F, G>) -> Ended<F, G>
    ensures feed { (result.feed ≡ worker.feed) × (result.gate ≡ worker.gate) }
    ensures received { result.lane.received ≡ worker.receiver.received }
{
    let Worker {
        receiver,
        handle,
        feed,
        gate,
    } = worker;
    let LaneEnd { closed, whole } = handle.join(rt);
    Ended {
        lane: receiver.settle(closed),
        whole,
        feed,
        gate,
    }
}
