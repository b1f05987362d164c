//! The sending end of a lane, once it is closed.

ghost use Rattle.std.specs.Prelude.{◌≡◌, length};
ghost use Rattle.rtrb.specs.Ring.{sent};
ghost use Rattle.band_rings.specs.Ends.{name_of_producer};

use rtrb::Producer;
use std::marker::Model;

/// A sending end that sends no more. It keeps the ring until the lane is settled.
///
/// Contracts see its lane and all that it sent.
#[derive(Drop)]
pub struct ClosedLane {
    pub(crate) producer: Producer<u16>,
    pub(crate) count: u64,
}

impl Model for ClosedLane {
    ghost use Rattle.std.specs.Prelude.{◌≡◌, length};
    ghost use Rattle.rtrb.specs.Ring.{sent};
    ghost use Rattle.band_rings.specs.Lane.{Closing};
    ghost use Rattle.band_rings.specs.Ends.{name_of_producer};

    ghost Value = { Closing };

    ghost view = { λ c. record { lane = name_of_producer c.producer; sent = sent c.producer } };

    ghost invariant = { λ c. c.count ≡ length (sent c.producer) };
}

impl ClosedLane {
    /// Returns the closed end of a ring into which `count` numbers were sent.
    pub(crate) fn new(producer: Producer<u16>, count: u64) -> ClosedLane
        requires { count ≡ length (sent producer) }
        ensures { (result.lane ≡ name_of_producer producer) × (result.sent ≡ sent producer) }
    {
        ClosedLane { producer, count }
    }

    /// Returns how many numbers were sent.
    pub fn sent_count(&self) -> u64
        ensures { result ≡ length self.now.sent }
    {
        self.count
    }
}
