//! Senders that take numbers, and send them in runs past a gate.

ghost use Rattle.std.specs.Prelude.{◌≡◌, ◌+◌, ◌-◌, ◌^◌, ◌<◌, ◌≤◌, [], ◌∷◌, ◌++◌, true, false, length, take, drop, slice_index, IsTrue, IsFalse};
ghost use Rattle.lane_workers.specs.Feeds.{Keeps};

use crate::feed::LaneEnd;
use crate::gate::Gate;
use crate::patience::Patience;
use crate::waiting::{MOST, Waiting};
use band_rings::sender::LaneSender;
use std::marker::Model;
use std::sync::Wait;

/// After how many numbers the receiver is woken.
const STRETCH: u64 = 512;

/// A sender of runs: of eight numbers, or of as many as the lane has slots if these are fewer.
///
/// Each step of a ring is sequentially consistent, and a run shares the cost of one among its numbers.
///
/// The gate is asked about each number of a run before the run is sent. If the lane is too full for the run, that counts as one
/// failed try of each number, and the first is tried again alone. If the gate refuses a number, those before it are sent singly,
/// the gate being asked again before each try, and the sender stops there.
///
/// Contracts see its lane, its predictor, its gate, all numbers that it took, whether it takes more, and
/// whether the gate has stopped it.
#[derive(Drop)]
pub struct RunSender<'g, G: Gate> {
    sender: LaneSender,
    predictor: u32,
    gate: &'g G,
    waiting: Waiting,
    /// How many numbers a run has.
    run: usize,
    stopped: bool,
    patience: Patience,
}

impl<'g, G: Gate> Model for RunSender<'g, G> {
    ghost use Rattle.std.specs.Prelude.{◌+◌, ◌^◌, ◌<◌, ◌≤◌, ◌++◌, ◌&&◌, not, nat_lt, length, IsTrue};
    ghost use Rattle.lane_workers.specs.Runs.{RunSending};

    ghost Value = { RunSending G };

    ghost view = { λ s. record {
      lane = s.sender.lane;
      predictor = s.predictor;
      gate = s.gate.now;
      taken = s.sender.sent ++ s.waiting;
      ready = not s.stopped && nat_lt (length s.waiting) s.run;
      stopped = s.stopped;
    } };

    ghost invariant = { λ s. (1 ≤ s.run) × (s.run ≤ 8) × (length s.sender.sent + length s.waiting < 2 ^ 64) × (IsTrue s.stopped
        → (0 < length s.waiting) × IsTrue (G.may_stop s.gate.now s.predictor (length s.sender.sent))) };
}

impl<'g, G: Gate> RunSender<'g, G> {
    /// Returns a sender that sends a predictor's numbers past a gate.
    pub fn new(predictor: u32, sender: LaneSender, gate: &'g G) -> RunSender<'g, G>
        ensures { result ≡ record { lane = sender.lane; predictor = predictor; gate = gate.now; taken = sender.sent; ready = true; stopped = false } }
    {
        let run = MOST.min(sender.slots() as usize);
        RunSender {
            sender,
            predictor,
            gate,
            waiting: Waiting::new(),
            run,
            stopped: false,
            patience: Patience::new(),
        }
    }

    /// Takes the first of some numbers, as many as a run lacks, and sends the run once it is whole; it waits while the lane is
    /// full. Returns how many it took, at least one. The gate may have stopped the sender then, but not before. There is at
    /// least one number.
    #[inline(always)]
    pub fn send_some<R: Wait>(&mut self, rt: &R, numbers: &[u16]) -> usize
        requires ready { IsTrue self.old.ready }
        requires some { 0 < length numbers.now }
        requires few { length self.old.taken + length numbers.now < 2 ^ 64 }
        ensures same { (self.new.lane ≡ self.old.lane) × (self.new.predictor ≡ self.old.predictor) × (self.new.gate ≡ self.old.gate) }
        ensures within { (0 < result) × (result ≤ length numbers.now) }
        ensures taken { self.new.taken ≡ self.old.taken ++ take result numbers.now }
        ensures ready { IsFalse self.new.stopped → IsTrue self.new.ready }
    {
        let count = numbers.len().min(self.run - self.waiting.count());
        self.waiting.push_all(&numbers[..count]);
        if self.waiting.count() == self.run {
            self.stopped = !send_run(
                rt,
                self.predictor,
                &mut self.sender,
                &mut self.waiting,
                self.gate,
                &mut self.patience,
            );
        }
        count
    }

    /// Returns whether the sender takes more: false if the gate has stopped it.
    pub fn goes_on(&self) -> bool
        ensures open { IsTrue result → IsFalse self.now.stopped }
        ensures stopped { IsFalse result → IsTrue self.now.stopped }
    {
        !self.stopped
    }

    /// Sends what still waits, unless the gate stops it, and closes the lane. What is sent is a prefix of the
    /// numbers taken.
    pub fn end<R: Wait>(self, rt: &R) -> LaneEnd
        ensures keeps { Keeps (G.may_stop self.entry.gate) self.entry.predictor self.entry.taken self.entry.lane result }
        ensures stopped { IsTrue self.entry.stopped → IsFalse result.whole }
    {
        let RunSender {
            mut sender,
            predictor,
            gate,
            mut waiting,
            run: _,
            stopped,
            mut patience,
        } = self;
        let whole = !stopped
            && send_all(
                rt,
                predictor,
                &mut sender,
                &mut waiting,
                gate,
                &mut patience,
            );
        sender.wake_receiver();
        LaneEnd {
            closed: sender.close(),
            whole,
        }
    }
}

/// Sends all numbers that wait. Returns false if the gate has stopped the first that still waits.
fn send_all<R: Wait, G: Gate>(
    rt: &R,
    predictor: u32,
    sender: &mut LaneSender,
    waiting: &mut Waiting,
    gate: &G,
    patience: &mut Patience,
) -> bool
    requires few { length sender.old.sent + length waiting.old < 2 ^ 64 }
    ensures lane { sender.new.lane ≡ sender.old.lane }
    ensures taken { sender.new.sent ++ waiting.new ≡ sender.old.sent ++ waiting.old }
    ensures whole { IsTrue result → waiting.new ≡ [] }
    ensures stopped { IsFalse result → (0 < length waiting.new) × IsTrue (G.may_stop gate.now predictor (length sender.new.sent)) }
{
    while waiting.count() > 0 {
        if !send_run(rt, predictor, sender, waiting, gate, patience) {
            return false;
        }
    }
    true
}

/// Sends the waiting numbers as one run, or the first of them alone if the lane has no room for the run. If the gate refuses one
/// of them, it sends those before it singly. Returns false if the gate has stopped the first that still waits.
fn send_run<R: Wait, G: Gate>(
    rt: &R,
    predictor: u32,
    sender: &mut LaneSender,
    waiting: &mut Waiting,
    gate: &G,
    patience: &mut Patience,
) -> bool
    requires some { 0 < length waiting.old }
    requires few { length sender.old.sent + length waiting.old < 2 ^ 64 }
    ensures lane { sender.new.lane ≡ sender.old.lane }
    ensures taken { sender.new.sent ++ waiting.new ≡ sender.old.sent ++ waiting.old }
    ensures fewer { IsTrue result → length waiting.new < length waiting.old }
    ensures stopped { IsFalse result → (0 < length waiting.new) × IsTrue (G.may_stop gate.now predictor (length sender.new.sent)) }
{
    let passed = passed(predictor, sender, waiting, gate);
    if passed < waiting.count() {
        for _ in 0..passed {
            if !send_first(rt, predictor, sender, waiting, gate, patience) {
                return false;
            }
        }
        return false;
    }
    if sender.send_run(waiting.numbers()) {
        waiting.clear();
        wake_now_and_then(sender);
        return true;
    }
    waiting.come_back();
    send_first(rt, predictor, sender, waiting, gate, patience)
}

/// Wakes the receiver, if it listens, after each stretch of numbers. Sooner it would find little to do.
#[inline(always)]
fn wake_now_and_then(sender: &LaneSender) {
    if sender.sent_count() % STRETCH < MOST as u64 {
        sender.wake_receiver();
    }
}

/// Returns how many of the waiting numbers the gate passes, asking it for each until it refuses one.
fn passed<G: Gate>(predictor: u32, sender: &LaneSender, waiting: &Waiting, gate: &G) -> usize
    requires few { length sender.now.sent + length waiting.now < 2 ^ 64 }
    ensures most { result ≤ length waiting.now }
    ensures stopped { result < length waiting.now → IsTrue (G.may_stop gate.now predictor (length sender.now.sent + result)) }
{
    let sent = sender.sent_count();
    for i in 0..waiting.count() {
        if !gate.pass(predictor, sent + i as u64, waiting.turn(i)) {
            return i;
        }
    }
    waiting.count()
}

/// Sends the first of the waiting numbers alone. Returns false if the gate stops it.
fn send_first<R: Wait, G: Gate>(
    rt: &R,
    predictor: u32,
    sender: &mut LaneSender,
    waiting: &mut Waiting,
    gate: &G,
    patience: &mut Patience,
) -> bool
    requires some { 0 < length waiting.old }
    ensures lane { sender.new.lane ≡ sender.old.lane }
    ensures taken { sender.new.sent ++ waiting.new ≡ sender.old.sent ++ waiting.old }
    ensures sent { IsTrue result → (length waiting.new + 1 ≡ length waiting.old) × (length sender.new.sent ≡ length sender.old.sent + 1) }
    ensures stopped { IsFalse result → (waiting.new ≡ waiting.old) × (sender.new.sent ≡ sender.old.sent)
        × IsTrue (G.may_stop gate.now predictor (length sender.new.sent)) }
{
    let number = waiting.numbers()[0];
    for _ in rt.forever() {
        if !gate.pass(predictor, sender.sent_count(), waiting.turn(0)) {
            return false;
        }
        if sender.try_send(number).is_ok() {
            waiting.drop_first();
            patience.end();
            return true;
        }
        waiting.first_comes_back();
        sender.wake_receiver();
        patience.wait_for(rt, sender.bell());
    }
    unreachable!()
}
