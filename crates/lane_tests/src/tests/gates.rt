//! Gates for the tests: one stops a predictor, one receives from the lane, and one records what it is asked.

ghost use Rattle.std.specs.Prelude.{false, ◌==◌, ◌&&◌};

use band_rings::receiver::LaneReceiver;
use lane_workers::gate::Gate;
use std::sync::Mutex;
use std::sync::atomic::{AtomicU64, Ordering};

/// A gate that stops a predictor at number `nth`, once `turn` tries to send it have failed.
#[derive(Clone, Copy, Drop)]
pub(crate) struct StopAt {
    pub(crate) predictor: u32,
    pub(crate) nth: u64,
    pub(crate) turn: u64,
}

impl Gate for StopAt {
    ghost may_stop = { λ s q n. (q == s.predictor) && (n == s.nth) };

    fn pass(&self, predictor: u32, nth: u64, turn: u64) -> bool {
        predictor != self.predictor || nth != self.nth || turn < self.turn
    }
}

/// A gate that stops nobody. Whenever it is asked for a number of which at least `from` tries have failed, it receives a number from
/// the lane.
#[derive(Drop)]
pub(crate) struct TakesOne {
    pub(crate) receiver: Mutex<LaneReceiver>,
    pub(crate) from: u64,
}

impl Gate for TakesOne {
    ghost may_stop = { λ _ _ _. false };

    fn pass(&self, _predictor: u32, _nth: u64, turn: u64) -> bool {
        if turn >= self.from {
            take_one(&self.receiver);
        }
        true
    }
}

/// Receives a number from a lane, if there is one.
fn take_one(receiver: &Mutex<LaneReceiver>) {
    if let Some(mut receiver) = receiver.try_lock() {
        let _number = receiver.try_recv();
    }
}

/// A gate that keeps a digest of the questions it is asked, in order.
#[derive(Drop)]
pub(crate) struct Noted<G> {
    gate: G,
    digest: AtomicU64,
}

impl<G: Gate> Noted<G> {
    pub(crate) fn new(gate: G) -> Noted<G> {
        Noted {
            gate,
            digest: AtomicU64::new(0),
        }
    }

    /// Returns whether these were the questions, in order: each entry stands for the numbers from `from` up to, but not
    /// including, `to`, after `turn` failed tries.
    pub(crate) fn was_asked(&self, questions: &[(u64, u64, u64)]) -> bool {
        let mut digest = 0;
        for (from, to, turn) in questions {
            for nth in *from..*to {
                digest = with_question(digest, nth, *turn);
            }
        }
        digest == self.digest.load(Ordering::SeqCst)
    }
}

impl<G: Gate> Gate for Noted<G> {
    ghost may_stop = { λ s. G.may_stop s.gate };

    fn pass(&self, predictor: u32, nth: u64, turn: u64) -> bool {
        let digest = self.digest.load(Ordering::SeqCst);
        self.digest
            .store(with_question(digest, nth, turn), Ordering::SeqCst);
        self.gate.pass(predictor, nth, turn)
    }
}

/// Returns a digest with one more question.
fn with_question(digest: u64, nth: u64, turn: u64) -> u64 {
    digest
        .wrapping_mul(1_000_003)
        .wrapping_add(nth.wrapping_mul(1000))
        .wrapping_add(turn)
        .wrapping_add(1)
}
