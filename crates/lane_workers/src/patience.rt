//! Waiting between tries that are refused.

ghost use Rattle.std.specs.Prelude.{◌≤◌};

use band_rings::bell::Bell;
use std::hint;
use std::sync::Wait;
use std::time::Duration;

/// How many looks come before the first sleep: the most, and the fewest.
const MOST_LOOKS: u32 = 1024;

const FEWEST_LOOKS: u32 = 16;

/// The first sleep of a wait, in microseconds, and how many times the next ones double. The other end mostly ends a
/// sleep sooner.
const SHORTEST: u64 = 200;

const DOUBLINGS: u32 = 3;

/// Waits for what a thread at the other end of a lane does.
///
/// While that thread runs, it is soon done, so a wait first looks again and again. If it has no processor, that would only keep
/// one from it, so a wait then sleeps until the other end wakes it, at first for a short time at most and then for up to eight times as
/// long. It doesn't yield the processor: where others want it, a yield costs as much as a sleep of milliseconds.
///
/// A wait that had to sleep halves how often the next one looks, and one that didn't doubles it again.
#[derive(Drop)]
pub struct Patience {
    /// How many looks come before the first sleep.
    looks: u32,
    /// How many tries were refused since the last one that succeeded; it stays at the longest sleep.
    refused: u32,
    ghost bounds: { (16 ≤ looks) × (looks ≤ 1024) },
}

impl Patience {
    /// Returns the patience before a first wait.
    pub fn new() -> Patience {
        Patience {
            looks: MOST_LOOKS,
            refused: 0,
        }
    }

    /// Pauses after a try that was refused, where no bell tells when to try again.
    pub fn wait<R: Wait>(&mut self, rt: &R) {
        self.wait_for(rt, &Bell::new());
    }

    /// Pauses after a try that was refused. It ends a sleep where the other end wakes who listens to the bell.
    #[inline(never)]
    pub fn wait_for<R: Wait>(&mut self, rt: &R, bell: &Bell) {
        match self.refused.checked_sub(self.looks) {
            None => hint::spin_loop(),
            // A try comes between this and the sleep, so that no call of `wake` is missed.
            Some(0) => bell.listen(),
            Some(sleeps) => bell.sleep(rt, longest(sleeps - 1)),
        }
        self.refused = self.refused.saturating_add(1);
    }

    /// Ends the wait after a try that succeeded.
    pub fn end(&mut self) {
        if self.refused > self.looks {
            self.looks = (self.looks / 2).max(FEWEST_LOOKS);
        } else if self.refused > 0 {
            self.looks = self.looks.saturating_mul(2).min(MOST_LOOKS);
        }
        self.refused = 0;
    }
}

/// Returns how long to sleep at most, after so many sleeps.
fn longest(sleeps: u32) -> Duration {
    Duration::from_micros(SHORTEST << sleeps.min(DOUBLINGS))
}
