//! The sending end of a lane.

ghost use Rattle.std.specs.Prelude.{◌≡◌, ◌+◌, ◌-◌, ◌^◌, ◌<◌, ◌≤◌, [], ◌∷◌, ◌++◌, length, IfErr, IsOk, IsErr, OnOk, IsTrue, IsFalse};
ghost use Rattle.cube_core.specs.Shape.{InRange};
ghost use Rattle.rtrb.specs.Ring.{sent, known_free, producer_capacity};
ghost use Rattle.band_rings.specs.Ends.{name_of_producer};

use crate::bell::{Bell, Bells};
use crate::closed::ClosedLane;
use rtrb::{Producer, PushError};
use std::marker::Model;
use std::sync::Arc;

/// The end that sends.
///
/// Contracts see its lane, all that it sent, how many slots it knows to be free, and how many there are.
#[derive(Drop)]
pub struct LaneSender {
    producer: Producer<u16>,
    count: u64,
    bells: Arc<Bells>,
}

impl Model for LaneSender {
    ghost use Rattle.std.specs.Prelude.{◌≡◌, length};
    ghost use Rattle.rtrb.specs.Ring.{sent, known_free, producer_capacity};
    ghost use Rattle.cube_core.specs.Shape.{InRange};
    ghost use Rattle.band_rings.specs.Lane.{Sending};
    ghost use Rattle.band_rings.specs.Ends.{name_of_producer};

    ghost Value = { Sending };

    ghost view = { λ s. record {
      lane = name_of_producer s.producer;
      sent = sent s.producer;
      free = known_free s.producer;
      slots = producer_capacity s.producer;
    } };

    ghost invariant = { λ s. (s.count ≡ length (sent s.producer)) × InRange 1 65536 (producer_capacity s.producer) };
}

impl LaneSender {
    /// The sending end of a new ring.
    pub(crate) fn new(producer: Producer<u16>, bells: Arc<Bells>) -> LaneSender
        requires fresh { sent producer ≡ [] }
        requires range { InRange 1 65536 (producer_capacity producer) }
        ensures { (result.lane ≡ name_of_producer producer) × (result.sent ≡ []) × (result.free ≡ known_free producer)
            × (result.slots ≡ producer_capacity producer) }
    {
        LaneSender {
            producer,
            count: 0,
            bells,
        }
    }

    /// Returns the bell by which this end sleeps, until the receiving end wakes it.
    pub fn bell(&self) -> &Bell {
        &self.bells.sender
    }

    /// Wakes the receiving end if it listens.
    #[inline(always)]
    pub fn wake_receiver(&self) {
        self.bells.receiver.wake();
    }

    /// Returns the number of slots of the lane.
    pub fn slots(&self) -> u32
        ensures value { result ≡ self.now.slots }
        ensures range { InRange 1 65536 result }
    {
        self.producer.capacity() as u32
    }

    /// Returns how many numbers were sent.
    pub fn sent_count(&self) -> u64
        ensures { result ≡ length self.now.sent }
    {
        self.count
    }

    /// Sends a number, or returns it as an error and changes nothing.
    ///
    /// It succeeds where fewer numbers than slots were sent so far, or where a slot is known to be free. Once
    /// `u64::MAX` numbers were sent, it always fails.
    pub fn try_send(&mut self, number: u16) -> Result<(), u16>
        ensures lane { (self.new.lane ≡ self.old.lane) × (self.new.slots ≡ self.old.slots) }
        ensures sent { OnOk result ((self.new.sent ≡ self.old.sent ++ number ∷ []) × (self.old.free ≤ self.new.free + 1)) }
        ensures refused { IfErr result (λ back. (back ≡ number) × (self.new ≡ self.old)) }
        ensures below { length self.old.sent < 2 ^ 64 - 1 → length self.old.sent < self.old.slots → IsOk result }
        ensures free { length self.old.sent < 2 ^ 64 - 1 → 0 < self.old.free → IsOk result }
        ensures most { 2 ^ 64 - 1 ≤ length self.old.sent → IsErr result }
    {
        if self.count == u64::MAX {
            return Err(number);
        }
        match self.producer.push(number) {
            Ok(()) => {
                self.count += 1;
                Ok(())
            }
            Err(PushError::Full(back)) => Err(back),
        }
    }

    /// Sends all numbers in order and returns true, or sends none and returns false.
    ///
    /// It succeeds where the numbers sent so far and these together are at most the number of slots, or where
    /// enough slots for these are known to be free. It returns false if more than `u64::MAX` numbers would have
    /// been sent.
    pub fn send_run(&mut self, numbers: &[u16]) -> bool
        ensures lane { (self.new.lane ≡ self.old.lane) × (self.new.slots ≡ self.old.slots) }
        ensures sent { IsTrue result → (self.new.sent ≡ self.old.sent ++ numbers.now) × (self.old.free ≤ self.new.free + length numbers.now) }
        ensures refused { IsFalse result → (self.new.sent ≡ self.old.sent) × (self.old.free ≤ self.new.free) }
        ensures below { length self.old.sent + length numbers.now < 2 ^ 64 → length self.old.sent + length numbers.now ≤ self.old.slots → IsTrue result }
        ensures free { length self.old.sent + length numbers.now < 2 ^ 64 → length numbers.now ≤ self.old.free → IsTrue result }
        ensures most { 2 ^ 64 ≤ length self.old.sent + length numbers.now → IsFalse result }
    {
        let Some(count) = self.count.checked_add(numbers.len() as u64) else {
            return false;
        };
        if self.producer.push_entire_slice(numbers).is_err() {
            return false;
        }
        self.count = count;
        true
    }

    /// Closes the sending end. No call of the closed end sends.
    pub fn close(self) -> ClosedLane
        ensures { (result.lane ≡ self.lane) × (result.sent ≡ self.sent) }
    {
        let LaneSender {
            producer,
            count,
            bells: _,
        } = self;
        ClosedLane::new(producer, count)
    }
}
