//! The output of a command.

ghost use Rattle.std.specs.Prelude.{◌≡◌, ◌<◌, ◌≤◌, ℕ, List, [], Option, Ok, length, take, IfOk, OnErr};
ghost use Rattle.command_devices.specs.Devices.{Took, Rises, CountsStall};

use crate::source::Failed;

/// What bytes are written to.
///
/// Contracts see how often a call failed and how often a call took nothing of a piece that isn't empty (counts
/// that stay at 2^64 - 1 once they reach it), and the bytes taken where the type exposes them.
pub trait Sink {
    ghost taken: { Self → Option (List ℕ) };

    ghost failures: { Self → ℕ };

    ghost stalls: { Self → ℕ };

    /// Takes bytes from the front of the piece, and returns how many. A call that fails takes none.
    fn write(&mut self, piece: &[u8]) -> Result<usize, Failed>
        ensures within { IfOk result (λ n. n ≤ length piece.now) }
        ensures took { IfOk result (λ n. Took (taken self.old) (taken self.new) (take n piece.now)) }
        ensures worked { IfOk result (λ _. failures self.new ≡ failures self.old) }
        ensures stalled { IfOk result (λ n. CountsStall n (length piece.now) (stalls self.old) (stalls self.new)) }
        ensures failed { OnErr result (Rises (failures self.old) (failures self.new) × (stalls self.new ≡ stalls self.old)) }
        ensures same { OnErr result (Took (taken self.old) (taken self.new) []) };
}
