//! A predictor's lane, as what its walk passes residuals to.

ghost use Rattle.std.specs.Prelude.{◌≡◌, true, false, IsTrue, IsFalse};
ghost use Rattle.lane_workers.specs.Feeds.{Keeps};
ghost use Rattle.coder_pipe.specs.Sends.{MaySend, Sends};
ghost use Rattle.coder_pipe.specs.LaneLaws.{sendings_are};

use band_rings::sender::LaneSender;
use file_encoding::taker::Taker;
use lane_workers::feed::LaneEnd;
use lane_workers::gate::Gate;
use lane_workers::run_sender::RunSender;
use std::marker::Model;
use std::sync::Wait;

/// The sender of a predictor, which stops where its gate stops it; and what it waits by where its lane is full.
///
/// Contracts see the sender.
pub(crate) struct LaneTaker<'r, 'g, R, G: Gate> {
    rt: &'r R,
    sender: RunSender<'g, G>,
}

impl<'r, 'g, R, G: Gate> Model for LaneTaker<'r, 'g, R, G> {
    ghost use Rattle.lane_workers.specs.Runs.{RunSending};

    ghost Value = { RunSending G };

    ghost view = { λ t. t.sender };
}

impl<'r, 'g, R: Wait, G: Gate> LaneTaker<'r, 'g, R, G> {
    /// Returns the taker that sends a predictor's residuals past a gate.
    pub(crate) fn new(
        rt: &'r R,
        predictor: u32,
        sender: LaneSender,
        gate: &'g G,
    ) -> LaneTaker<'r, 'g, R, G>
        ensures { result ≡ record { lane = sender.lane; predictor = predictor; gate = gate.now; taken = sender.sent; ready = true; stopped = false } }
    {
        LaneTaker {
            rt,
            sender: RunSender::new(predictor, sender, gate),
        }
    }
    /// Sends what still waits, unless the gate stops it, and closes the lane. What is sent is a prefix of the
    /// residuals taken.
    pub(crate) fn end(self) -> LaneEnd
        ensures keeps { Keeps (G.may_stop self.entry.gate) self.entry.predictor self.entry.taken self.entry.lane result }
        ensures stopped { IsTrue self.entry.stopped → IsFalse result.whole }
    {
        let LaneTaker { rt, sender } = self;
        sender.end(rt)
    }
}

impl<'r, 'g, R: Wait, G: Gate> Taker for LaneTaker<'r, 'g, R, G> {
    ghost may = { λ s list. MaySend s list };

    ghost takes = { λ old new all list. Sends old new all list };

    ghost laws = { sendings_are };

    fn take(&mut self, residuals: &[u16]) -> bool {
        let mut first = 0;
        while first < residuals.len() {
            first += self.sender.send_some(self.rt, &residuals[first..]);
            if !self.sender.goes_on() {
                return false;
            }
        }
        true
    }
}
