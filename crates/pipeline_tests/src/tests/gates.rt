//! Gates that stop predictors, and gates at which they wait for one another.

ghost use Rattle.std.specs.Prelude.{◌==◌, ◌&&◌, ◌||◌};

use coder_pipe::Gate;
use std::sync::atomic::{AtomicBool, Ordering};
use std::thread;

/// How often a gate checks for another predictor before it gives up.
const MOST_LOOKS: u32 = 10_000_000;

/// How many tries to send a residual have failed where its lane is full. Eight residuals are tried together at most, so that
/// a try of others has counted for it at most seven times.
const FULL: u64 = 32;

/// A gate that stops a predictor at residual `nth`, once `turn` tries to send it have failed.
#[derive(Clone, Copy, Drop)]
pub(crate) struct StopAt {
    pub(crate) predictor: u32,
    pub(crate) nth: u64,
    pub(crate) turn: u64,
}

impl StopAt {
    /// Returns a gate that stops a predictor before the first try to send residual `nth`.
    pub(crate) fn new(predictor: u32, nth: u64) -> StopAt {
        StopAt {
            predictor,
            nth,
            turn: 0,
        }
    }
}

impl Gate for StopAt {
    ghost may_stop = { λ s q n. (q == s.predictor) && (n == s.nth) };

    fn pass(&self, predictor: u32, nth: u64, turn: u64) -> bool {
        predictor != self.predictor || nth != self.nth || turn < self.turn
    }
}

/// A gate that stops a predictor at one residual, and a predictor at another.
#[derive(Clone, Copy, Drop)]
pub(crate) struct StopTwo {
    pub(crate) one: StopAt,
    pub(crate) other: StopAt,
}

impl Gate for StopTwo {
    ghost may_stop = { λ s q n. ((q == s.one.predictor) && (n == s.one.nth)) || ((q == s.other.predictor) && (n == s.other.nth)) };

    fn pass(&self, predictor: u32, nth: u64, turn: u64) -> bool {
        self.one.pass(predictor, nth, turn) && self.other.pass(predictor, nth, turn)
    }
}

/// A gate that holds the first residual of predictor 0 until predictor 1 has failed again and again to send its residual
/// `nth` alone, which it does where its lane is full of those before it. It stops predictor 0 if that takes too long.
#[derive(Drop)]
pub(crate) struct FirstWaits {
    nth: u64,
    back: AtomicBool,
}

impl FirstWaits {
    /// Returns a gate that waits for residual `nth` of predictor 1, counted from 0.
    pub(crate) fn new(nth: u64) -> FirstWaits {
        FirstWaits {
            nth,
            back: AtomicBool::new(false),
        }
    }
}

impl Gate for FirstWaits {
    ghost may_stop = { λ _ q n. (q == 0) && (n == 0) };

    fn pass(&self, predictor: u32, nth: u64, turn: u64) -> bool {
        if predictor == 1 && nth == self.nth && turn >= FULL {
            self.back.store(true, Ordering::SeqCst);
        }
        predictor != 0 || nth != 0 || is_set_in_time(&self.back)
    }
}

/// A gate that holds the second residual of each of two predictors until the other has reached its own. It stops a
/// predictor if that takes too long.
#[derive(Drop)]
pub(crate) struct Meeting {
    first: AtomicBool,
    second: AtomicBool,
}

impl Meeting {
    pub(crate) fn new() -> Meeting {
        Meeting {
            first: AtomicBool::new(false),
            second: AtomicBool::new(false),
        }
    }

    /// Returns whether both predictors have reached their second residual.
    pub(crate) fn took_place(&self) -> bool {
        self.first.load(Ordering::SeqCst) && self.second.load(Ordering::SeqCst)
    }
}

impl Gate for Meeting {
    ghost may_stop = { λ _ _ n. n == 1 };

    fn pass(&self, predictor: u32, nth: u64, _turn: u64) -> bool {
        if nth != 1 {
            return true;
        }
        let (own, other) = if predictor == 0 {
            (&self.first, &self.second)
        } else {
            (&self.second, &self.first)
        };
        own.store(true, Ordering::SeqCst);
        is_set_in_time(other)
    }
}

/// Waits for a limited time until a flag is set, and returns whether it was.
fn is_set_in_time(flag: &AtomicBool) -> bool {
    for _ in 0..MOST_LOOKS {
        if flag.load(Ordering::SeqCst) {
            return true;
        }
        thread::yield_now();
    }
    false
}
