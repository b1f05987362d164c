//! Receivers that take numbers from their lane in runs, and pass them on in runs.

ghost use Rattle.std.specs.Prelude.{◌≡◌, ◌<◌, ◌≤◌, ℕ, List, [], ◌∷◌, ◌++◌, length, take, IfSome, IfNone, IsFalse};
ghost use mathlib.Core.List.{IsPrefix};
ghost use Rattle.band_rings.specs.Lane.{IsLane};

use crate::room::Room;
use band_rings::bell::Bell;
use band_rings::closed::ClosedLane;
use band_rings::receiver::LaneReceiver;
use band_rings::settled::{SettledLane, settle};
use std::marker::Model;

/// A receiver with a small buffer, its room.
///
/// Contracts see it as a receiver, for which a number is received when it is passed on; those in the room count as
/// seen in the lane.
#[derive(Drop)]
pub struct RunReceiver {
    receiver: LaneReceiver,
    room: Room,
}

impl Model for RunReceiver {
    ghost use Rattle.std.specs.Prelude.{◌≡◌, ◌++◌};
    ghost use Rattle.band_rings.specs.Lane.{Receiving};
    ghost use Rattle.lane_workers.specs.Runs.{before};

    ghost Value = { Receiving };

    ghost view = { λ r. record { lane = r.receiver.lane; received = before r.receiver.received r.room; known = r.room ++ r.receiver.known } };

    ghost invariant = { λ r. r.receiver.received ≡ before r.receiver.received r.room ++ r.room };
}

/// A lane whose two ends are in one thread again, and the numbers that its receiver still has in its room.
///
/// Contracts see it as a settled lane, for which a number is received when it is passed on.
#[derive(Drop)]
pub struct SettledRuns {
    lane: SettledLane,
    room: Room,
}

impl Model for SettledRuns {
    ghost use Rattle.std.specs.Prelude.{◌≡◌, ◌++◌};
    ghost use Rattle.band_rings.specs.Lane.{Lane, IsLane};
    ghost use Rattle.lane_workers.specs.Runs.{before};

    ghost Value = { Lane };

    ghost view = { λ s. record { sent = s.lane.sent; received = before s.lane.received s.room; rest = s.room ++ s.lane.rest } };

    ghost invariant = { λ s. IsLane s.lane × (s.lane.received ≡ before s.lane.received s.room ++ s.room) };
}

impl RunReceiver {
    /// Returns a receiver of runs in whose room nothing waits.
    pub fn new(receiver: LaneReceiver) -> RunReceiver
        ensures { result ≡ receiver }
    {
        RunReceiver {
            receiver,
            room: Room::new(),
        }
    }

    /// Writes the next numbers to the front of a run that isn't empty, in order, and returns how many: 0 if it sees none.
    // They are copied: a reference into the room would borrow the receiver while its worker may have to be joined.
    pub fn next_run(&mut self, run: &mut [u16]) -> usize
        requires { 0 < length run.old }
        ensures lane { self.new.lane ≡ self.old.lane }
        ensures within { result ≤ length run.old }
        ensures received { self.new.received ≡ self.old.received ++ take result run.new }
        ensures seen { IsPrefix self.old.known (take result run.new ++ self.new.known) }
        ensures none { result ≡ 0 → self.new.known ≡ [] }
    {
        let count = self.room.next_run(run);
        if count > 0 {
            return count;
        }
        self.room.fill(&mut self.receiver);
        self.receiver.wake_sender();
        self.room.next_run(run)
    }

    /// Passes on the next number that waits in the room, or returns `None` if none waits. It doesn't look at the lane.
    #[inline(always)]
    pub fn next_received(&mut self) -> Option<u16>
        ensures lane { self.new.lane ≡ self.old.lane }
        ensures received { IfSome result (λ number. (self.new.received ≡ self.old.received ++ number ∷ []) × (self.old.known ≡ number ∷ self.new.known)) }
        ensures none { IfNone result (self.new ≡ self.old) }
    {
        self.room.next()
    }

    /// Skips what waits in the room, at most 1,024 numbers, and fills the room with what it sees in the lane. Returns whether it saw
    /// any.
    pub fn skip(&mut self) -> bool
        ensures lane { self.new.lane ≡ self.old.lane }
        ensures skipped { (skipped : List ℕ) × (length skipped ≤ 1024) × (self.new.received ≡ self.old.received ++ skipped)
            × IsPrefix self.old.known (skipped ++ self.new.known) }
        ensures none { IsFalse result → self.new.known ≡ [] }
    {
        self.room.fill(&mut self.receiver);
        self.receiver.wake_sender();
        !self.room.is_empty()
    }

    /// Returns the bell by which it sleeps, until the sender wakes it.
    pub fn bell(&self) -> &Bell {
        self.receiver.bell()
    }

    /// Brings the two ends of one lane together. What is in the room counts as part of the rest.
    pub fn settle(self, closed: ClosedLane) -> SettledRuns
        requires { self.lane ≡ closed.lane }
        ensures kept { (result.sent ≡ closed.sent) × (result.received ≡ self.received) }
        ensures lane { IsLane result }
    {
        let RunReceiver { receiver, room } = self;
        SettledRuns {
            lane: settle(receiver, closed),
            room,
        }
    }
}

impl SettledRuns {
    /// Writes the first numbers of the rest to the front of a run that isn't empty, in order, and returns how many: 0 exactly
    /// if the rest is empty.
    pub fn take_run(&mut self, run: &mut [u16]) -> usize
        requires { 0 < length run.old }
        ensures kept { self.new.sent ≡ self.old.sent }
        ensures lane { IsLane self.new }
        ensures within { result ≤ length run.old }
        ensures received { self.new.received ≡ self.old.received ++ take result run.new }
        ensures parted { self.old.rest ≡ take result run.new ++ self.new.rest }
        ensures none { result ≡ 0 → self.new.rest ≡ [] }
    {
        let count = self.room.next_run(run);
        if count > 0 {
            return count;
        }
        take_all_left(&mut self.lane, run)
    }

    /// Returns how many numbers were sent.
    pub fn sent_count(&self) -> u64
        ensures { result ≡ length self.now.sent }
    {
        self.lane.sent_count()
    }

    /// Returns the settled lane, once all numbers were passed on.
    pub fn into_lane(self) -> SettledLane
        requires { self.rest ≡ [] }
        ensures { result ≡ self }
    {
        let SettledRuns { lane, room: _ } = self;
        lane
    }
}

/// Receives the first numbers of a settled lane's rest, as many as there are, or as a run holds.
fn take_all_left(lane: &mut SettledLane, run: &mut [u16]) -> usize
    requires { IsLane lane.old }
    ensures kept { lane.new.sent ≡ lane.old.sent }
    ensures lane { IsLane lane.new }
    ensures within { result ≤ length run.old }
    ensures received { lane.new.received ≡ lane.old.received ++ take result run.new }
    ensures parted { lane.old.rest ≡ take result run.new ++ lane.new.rest }
    ensures none { result ≡ 0 → 0 < length run.old → lane.new.rest ≡ [] }
{
    for i in 0..run.len() {
        let Some(number) = lane.take_left() else {
            return i;
        };
        run[i] = number;
    }
    run.len()
}
