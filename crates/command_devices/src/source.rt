//! The input of a command.

ghost use Rattle.std.specs.Prelude.{◌≡◌, ◌<◌, ◌≤◌, ℕ, List, [], Option, Ok, length, take, IfOk, OnErr};
ghost use Rattle.command_devices.specs.Devices.{Gave, IsEnd, Rises};

/// The failure of a device. It carries no other information.
#[derive(Clone, Copy, Debug, PartialEq, Eq)]
pub struct Failed;

/// What bytes are read from.
///
/// A result of 0 for a buffer that isn't empty is the end. Contracts see how often a call failed (a count that
/// stays at 2^64 - 1 once it reaches it), and the bytes that are left where the type exposes them.
pub trait Source {
    ghost left: { Self → Option (List ℕ) };

    ghost failures: { Self → ℕ };

    /// Writes the next bytes to the front of the buffer, and returns how many. A call that fails gives none.
    fn read(&mut self, buffer: &mut [u8]) -> Result<usize, Failed>
        ensures within { IfOk result (λ n. n ≤ length buffer.old) }
        ensures given { IfOk result (λ n. Gave (left self.old) (left self.new) (take n buffer.new)) }
        ensures end { result ≡ Ok 0 → 0 < length buffer.old → IsEnd (left self.new) }
        ensures worked { IfOk result (λ _. failures self.new ≡ failures self.old) }
        ensures failed { OnErr result (Rises (failures self.old) (failures self.new)) }
        ensures same { OnErr result (Gave (left self.old) (left self.new) []) };
}
