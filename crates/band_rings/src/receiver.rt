//! The receiving end of a lane.

ghost use Rattle.std.specs.Prelude.{◌≡◌, ◌<◌, ◌≤◌, [], ◌∷◌, ◌++◌, length, take, drop, min, IfSome, IfNone, IsSome};
ghost use mathlib.Core.List.{IsPrefix};
ghost use Rattle.rtrb.specs.Ring.{received, known_items};
ghost use Rattle.band_rings.specs.Ends.{name_of_consumer};

use crate::bell::{Bell, Bells};
use rtrb::Consumer;
use std::marker::Model;
use std::sync::Arc;

/// The end that receives.
///
/// Contracts see its lane, all that it received, and what it has seen in the lane and not yet received.
#[derive(Drop)]
pub struct LaneReceiver {
    pub(crate) consumer: Consumer<u16>,
    pub(crate) bells: Arc<Bells>,
}

impl Model for LaneReceiver {
    ghost use Rattle.rtrb.specs.Ring.{received, known_items};
    ghost use Rattle.band_rings.specs.Lane.{Receiving};
    ghost use Rattle.band_rings.specs.Ends.{name_of_consumer};

    ghost Value = { Receiving };

    ghost view = { λ r. record { lane = name_of_consumer r.consumer; received = received r.consumer; known = known_items r.consumer } };
}

impl LaneReceiver {
    /// The receiving end of a ring.
    pub(crate) fn new(consumer: Consumer<u16>, bells: Arc<Bells>) -> LaneReceiver
        ensures { (result.lane ≡ name_of_consumer consumer) × (result.received ≡ received consumer) × (result.known ≡ known_items consumer) }
    {
        LaneReceiver { consumer, bells }
    }

    /// Returns the bell by which this end sleeps, until the sending end wakes it.
    pub fn bell(&self) -> &Bell {
        &self.bells.receiver
    }

    /// Wakes the sending end if it listens.
    #[inline(always)]
    pub fn wake_sender(&self) {
        self.bells.sender.wake();
    }

    /// Receives and returns the next number, or returns `None` if it sees none. A number that is known to be
    /// there is received.
    pub fn try_recv(&mut self) -> Option<u16>
        ensures lane { self.new.lane ≡ self.old.lane }
        ensures received { IfSome result (λ number. (self.new.received ≡ self.old.received ++ number ∷ [])
            × IsPrefix self.old.known (number ∷ self.new.known)) }
        ensures none { IfNone result ((self.new.received ≡ self.old.received) × (self.new.known ≡ [])) }
        ensures known { 0 < length self.old.known → IsSome result }
    {
        self.consumer.pop().ok()
    }

    /// Receives numbers into the front of `room`, in order, and returns how many: all that it sees, or as many
    /// as `room` holds. The rest of `room` is unchanged.
    pub fn recv_run(&mut self, room: &mut [u16]) -> usize
        ensures lane { self.new.lane ≡ self.old.lane }
        ensures within { result ≤ length room.old }
        ensures received { self.new.received ≡ self.old.received ++ take result room.new }
        ensures rest { drop result room.new ≡ drop result room.old }
        ensures seen { IsPrefix self.old.known (take result room.new ++ self.new.known) }
        ensures most { result < length room.old → self.new.known ≡ [] }
        ensures known { min (length self.old.known) (length room.old) ≤ result }
    {
        self.consumer.pop_partial_slice(room)
    }
}
