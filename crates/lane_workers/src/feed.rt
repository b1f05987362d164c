//! Feeds: lists that workers send along their lanes.

ghost use Rattle.std.specs.Prelude.{◌≡◌, ℕ, List, []};
ghost use Rattle.lane_workers.specs.Feeds.{Keeps};

use crate::gate::Gate;
use band_rings::closed::ClosedLane;
use band_rings::sender::LaneSender;
use std::sync::Wait;

/// What a worker returns: its end of the lane, and whether it has sent its whole list.
#[derive(Drop)]
pub struct LaneEnd {
    pub closed: ClosedLane,
    pub whole: bool,
}

/// A list of numbers that one predictor sends.
pub trait Feed: Drop {
    /// The predictor's number.
    ghost predictor: { Self → ℕ };

    /// The numbers, in order.
    ghost items: { Self → List ℕ };

    /// Sends the list along a lane into which nothing was sent, and closes the lane. What is sent is a prefix
    /// of the list: all of it where the end is whole; otherwise the gate may stop the predictor there, and the
    /// list is longer.
    fn run<R: Wait, G: Gate>(self, rt: &R, sender: LaneSender, gate: &G) -> LaneEnd
        requires { sender.sent ≡ [] }
        ensures { Keeps (G.may_stop gate.now) (predictor self) (items self) sender.lane result };
}
