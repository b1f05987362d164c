//! A feed and its lane, before its worker is started.

ghost use Rattle.std.specs.Prelude.{◌≡◌, [], IfOk, IfErr};
ghost use Rattle.cube_core.specs.Shape.{InRange};
ghost use Rattle.cube_core.specs.declared.fault.Fault.TheVariants.{WantOfMemory};

use band_rings::lane::lane;
use band_rings::receiver::LaneReceiver;
use band_rings::sender::LaneSender;
use cube_core::fault::Fault;
use std::alloc::Global;

/// A feed, and both ends of its own lane, into which nothing was sent.
#[derive(Drop)]
pub struct Ready<F> {
    pub feed: F,
    pub(crate) sender: LaneSender,
    pub(crate) receiver: LaneReceiver,
    ghost pair: { receiver.lane ≡ sender.lane },
    ghost fresh: { sender.sent ≡ [] },
    ghost empty: { receiver.received ≡ [] },
}

impl<F: Drop> Ready<F> {
    /// Gives a feed a lane of `slots` slots, 1 to 65,536. Returns `WantOfMemory` if the lane can't be allocated; the feed is then
    /// dropped.
    pub fn new(alloc: Global, slots: u32, feed: F) -> Result<Ready<F>, Fault>
        requires { InRange 1 65536 slots }
        ensures feed { IfOk result (λ r. r.feed ≡ feed) }
        ensures slots { IfOk result (λ r. r.sender.slots ≡ slots) }
        ensures refused { IfErr result (λ e. e ≡ WantOfMemory) }
    {
        let (sender, receiver) = lane(alloc, slots)?;
        Ok(Ready {
            feed,
            sender,
            receiver,
        })
    }
}
