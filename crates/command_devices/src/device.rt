//! Readers and writers whose results contracts know call by call.

ghost use Rattle.std.specs.Prelude.{◌≡◌, ◌⊎◌, ℕ, List, Option, None, Some, ⊤, length, take, IfOk, OnErr};
ghost use Rattle.std.specs.Io.{ReadsAtMost, WritesAtMost};
ghost use Rattle.std.specs.Io.KnownBytes.{ReadConsumes, WriteAppends};

use std::io::{self, Read, Write};

/// What is read like a file or a stream of the system.
///
/// Contracts see the bytes that are left where the type exposes them, and which results of a call are the
/// device's own: how many bytes were requested, those that it gave, or none where it failed, and its state
/// afterwards.
pub trait InputDevice {
    ghost remaining: { Self → Option (List ℕ) } = { λ _. None };

    ghost answers: { Self → ℕ → Option (List ℕ) → Self → Type 0 } = { λ _ _ _ _. ⊤ };

    /// Writes the next bytes to the front of the buffer, and returns how many: 0 for a buffer that isn't empty only at the end. A
    /// call that fails gives none.
    fn read(&mut self, buffer: &mut [u8]) -> io::Result<usize>
        ensures within { ReadsAtMost result buffer.new }
        ensures bytes { ReadConsumes (remaining self.old) (remaining self.new) result buffer.new }
        ensures gave { IfOk result (λ n. answers self.old (length buffer.old) (Some (take n buffer.new)) self.new) }
        ensures failed { OnErr result (answers self.old (length buffer.old) None self.new) };
}

/// What is written to like a file or a stream of the system.
///
/// Contracts see the bytes that it holds where the type exposes them, and which results of a call are the
/// device's own: the piece that it was offered, how many bytes it took, or none where it failed, and its state
/// afterwards.
pub trait OutputDevice {
    ghost contents: { Self → Option (List ℕ) } = { λ _. None };

    ghost answers: { Self → List ℕ → Option ℕ → Self → Type 0 } = { λ _ _ _ _. ⊤ };

    /// Takes bytes from the front of the piece, and returns how many. A call that fails takes none.
    fn write(&mut self, piece: &[u8]) -> io::Result<usize>
        ensures within { WritesAtMost result piece.now }
        ensures bytes { WriteAppends (contents self.old) (contents self.new) result piece.now }
        ensures took { IfOk result (λ n. answers self.old piece.now (Some n) self.new) }
        ensures failed { OnErr result (answers self.old piece.now None self.new) };
}

impl InputDevice for &[u8] {
    ghost remaining = { λ s. Some s.now };

    // It gives as many bytes as it is asked for, while it has them, and never fails.
    ghost answers = { λ old size given _. given ≡ Some (take size old.now) };

    fn read(&mut self, buffer: &mut [u8]) -> io::Result<usize> {
        Read::read(self, buffer)
    }
}

impl OutputDevice for Vec<u8> {
    ghost contents = { λ v. Some v.items };

    // It takes a piece whole, unless memory is refused.
    ghost answers = { λ _ piece taken _. (taken ≡ Some (length piece)) ⊎ (taken ≡ None) };

    fn write(&mut self, piece: &[u8]) -> io::Result<usize> {
        Write::write(self, piece)
    }
}
