//! Both ends of a lane, in one thread again.

ghost use Rattle.std.specs.Prelude.{◌≡◌, ◌-◌, [], ◌∷◌, ◌++◌, length, IfSome, IfNone};
ghost use Rattle.rtrb.specs.Ring.{received, known_items};
ghost use Rattle.band_rings.specs.Lane.{IsLane};

use crate::closed::ClosedLane;
use crate::receiver::LaneReceiver;
use rtrb::Consumer;
use std::marker::Model;

/// A lane whose two ends are in one thread again. What was sent is what was received, followed by a rest.
///
/// Contracts see these three lists.
#[derive(Drop)]
pub struct SettledLane {
    closed: ClosedLane,
    consumer: Consumer<u16>,
    /// How many numbers the rest has.
    left: usize,
}

impl Model for SettledLane {
    ghost use Rattle.std.specs.Prelude.{◌≡◌, ◌++◌, length};
    ghost use Rattle.rtrb.specs.Ring.{received, known_items};
    ghost use Rattle.band_rings.specs.Lane.{Lane};

    ghost Value = { Lane };

    ghost view = { λ s. record { sent = s.closed.sent; received = received s.consumer; rest = known_items s.consumer } };

    ghost invariant = { λ s. (s.closed.sent ≡ received s.consumer ++ known_items s.consumer) × (s.left ≡ length (known_items s.consumer)) };
}

/// Brings the two ends of one lane together. Each keeps its list, and what was sent and not received is the
/// rest, whatever the two threads did.
pub fn settle(receiver: LaneReceiver, closed: ClosedLane) -> SettledLane
    requires { receiver.lane ≡ closed.lane }
    ensures kept { (result.sent ≡ closed.sent) × (result.received ≡ receiver.received) }
    ensures lane { IsLane result }
{
    let LaneReceiver {
        mut consumer,
        bells: _,
    } = receiver;
    let ClosedLane {
        mut producer,
        count,
    } = closed;
    let left = consumer.slots_beside(&mut producer);
    SettledLane {
        closed: ClosedLane { producer, count },
        consumer,
        left,
    }
}

impl SettledLane {
    /// Receives and returns the first number of the rest, or `None` exactly if the rest is empty.
    pub fn take_left(&mut self) -> Option<u16>
        ensures kept { self.new.sent ≡ self.old.sent }
        ensures lane { IsLane self.new }
        ensures received { IfSome result (λ number. (self.old.rest ≡ number ∷ self.new.rest) × (self.new.received ≡ self.old.received ++ number ∷ [])) }
        ensures none { IfNone result ((self.old.rest ≡ []) × (self.new ≡ self.old)) }
    {
        if self.left == 0 {
            return None;
        }
        let number = self.consumer.pop_known();
        self.left -= 1;
        Some(number)
    }

    /// Returns how many numbers were sent.
    pub fn sent_count(&self) -> u64
        ensures { result ≡ length self.now.sent }
    {
        self.closed.sent_count()
    }

    /// Returns how many numbers were received.
    pub fn received_count(&self) -> u64
        ensures { result ≡ length self.now.received }
    {
        self.closed.sent_count() - self.left as u64
    }
}
