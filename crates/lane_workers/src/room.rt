//! Numbers that were received and not yet passed on.

ghost use Rattle.std.specs.Prelude.{◌≡◌, ◌<◌, ◌≤◌, [], ◌∷◌, ◌++◌, length, take, IfSome, IfNone, IsTrue};
ghost use mathlib.Core.List.{IsPrefix};

use band_rings::receiver::LaneReceiver;
use std::marker::Model;

/// How many numbers a room holds: what fits in a lane of the usual size. So the lane is empty once they are in the room, and its
/// sender seldom has to wait.
const PLACES: usize = 1024;

/// A small buffer beside a receiver. Contracts see the numbers that wait in it, in order.
#[derive(Drop)]
pub(crate) struct Room {
    numbers: [u16; PLACES],
    /// The numbers from `first` up to `end` wait.
    first: usize,
    end: usize,
}

impl Model for Room {
    ghost use Rattle.std.specs.Prelude.{ℕ, List, ◌-◌, ◌≤◌, take, drop};

    ghost Value = { List ℕ };

    ghost view = { λ r. take (r.end - r.first) (drop r.first r.numbers) };

    ghost invariant = { λ r. (r.first ≤ r.end) × (r.end ≤ 1024) };
}

impl Room {
    /// Returns a room in which nothing waits.
    pub(crate) fn new() -> Room
        ensures { result ≡ [] }
    {
        Room {
            numbers: [0; PLACES],
            first: 0,
            end: 0,
        }
    }

    /// Moves the first numbers to the front of a run, in order, and returns how many: all that wait, or as many
    /// as the run holds.
    pub(crate) fn next_run(&mut self, run: &mut [u16]) -> usize
        ensures within { result ≤ length run.old }
        ensures handed { self.old ≡ take result run.new ++ self.new }
        ensures none { result ≡ 0 → 0 < length run.old → self.old ≡ [] }
    {
        let count = run.len().min(self.end - self.first);
        run[..count].copy_from_slice(&self.numbers[self.first..self.first + count]);
        self.first += count;
        count
    }

    /// Removes and returns the first number, or returns `None` if nothing waits.
    #[inline(always)]
    pub(crate) fn next(&mut self) -> Option<u16>
        ensures handed { IfSome result (λ number. self.old ≡ number ∷ self.new) }
        ensures none { IfNone result ((self.new ≡ self.old) × (self.old ≡ [])) }
    {
        if self.first == self.end {
            return None;
        }
        let number = self.numbers[self.first];
        self.first += 1;
        Some(number)
    }

    /// Returns whether no number waits.
    pub(crate) fn is_empty(&self) -> bool
        ensures { IsTrue result → self.now ≡ [] }
    {
        self.first == self.end
    }

    /// Fills the room again with what it sees in a lane. Numbers that waited are dropped.
    pub(crate) fn fill(&mut self, receiver: &mut LaneReceiver)
        ensures few { length self.old ≤ 1024 }
        ensures lane { receiver.new.lane ≡ receiver.old.lane }
        ensures received { receiver.new.received ≡ receiver.old.received ++ self.new }
        ensures seen { IsPrefix receiver.old.known (self.new ++ receiver.new.known) }
        ensures none { self.new ≡ [] → receiver.new.known ≡ [] }
    {
        self.first = 0;
        self.end = receiver.recv_run(&mut self.numbers);
    }
}
