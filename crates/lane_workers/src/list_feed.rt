//! Feeds over slices.

ghost use Rattle.std.specs.Prelude.{◌≡◌, []};
ghost use Rattle.lane_workers.specs.Feeds.{Keeps};

use crate::feed::{Feed, LaneEnd};
use crate::gate::Gate;
use crate::run_sender::RunSender;
use band_rings::sender::LaneSender;
use std::sync::Wait;

/// Sends the numbers of a slice.
#[derive(Drop)]
pub struct ListFeed<'a> {
    pub predictor: u32,
    pub numbers: &'a [u16],
}

impl<'a> Feed for ListFeed<'a> {
    ghost predictor = { λ f. f.predictor };

    ghost items = { λ f. f.numbers.now };

    fn run<R: Wait, G: Gate>(self, rt: &R, sender: LaneSender, gate: &G) -> LaneEnd {
        let ListFeed { predictor, numbers } = self;
        send_list(rt, predictor, numbers, sender, gate)
    }
}

/// Sends numbers along a lane, and closes the lane.
fn send_list<R: Wait, G: Gate>(
    rt: &R,
    predictor: u32,
    numbers: &[u16],
    sender: LaneSender,
    gate: &G,
) -> LaneEnd
    requires { sender.sent ≡ [] }
    ensures { Keeps (G.may_stop gate.now) predictor numbers.now sender.lane result }
{
    let mut sender = RunSender::new(predictor, sender, gate);
    let mut first = 0;
    while first < numbers.len() {
        first += sender.send_some(rt, &numbers[first..]);
        if !sender.goes_on() {
            return sender.end(rt);
        }
    }
    sender.end(rt)
}
