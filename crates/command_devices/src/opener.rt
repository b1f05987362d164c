//! What opens the ends of a command.

ghost use Rattle.std.specs.Prelude.{◌≡◌, List, Option, Some, None, ℕ, IfOk, IfErr};
ghost use Rattle.cube_core.specs.declared.fault.Fault.TheVariants.{Read, Write};

use crate::sink::Sink;
use crate::source::Source;
use cube_core::fault::Fault;

/// Opens the ends of a command: the input and the output, each a standard stream or a file by its name.
///
/// Contracts see which source a name may stand for (no name stands for the standard stream), and which sink it may
/// stand for once an input was opened; and which names stand for none. An output is created with its command's own
/// input in hand, so the input is opened first.
pub trait Opener {
    type Input: Source + Drop;

    type Output: Sink + Drop;

    ghost opens: { Self → Option (List ℕ) → Self.Input → Type 0 };

    ghost makes: { Self → Self.Input → Option (List ℕ) → Self.Output → Type 0 };

    ghost has_none: { Self → List ℕ → Type 0 };

    ghost makes_none: { Self → Self.Input → List ℕ → Type 0 };

    /// Returns the standard input.
    fn standard_input(&self) -> Self::Input
        ensures { opens self.now None result };

    /// Returns the standard output.
    fn standard_output(&self) -> Self::Output
        ensures { (input : Self.Input) → makes self.now input None result };

    /// Opens the file of this name. Returns `Read` if it can't be opened.
    fn open(&self, name: &str) -> Result<Self::Input, Fault>
        ensures opened { IfOk result (opens self.now (Some name.now)) }
        ensures refused { IfErr result (λ e. (e ≡ Read) × has_none self.now name.now) };

    /// Creates a file of this name, or empties the one that exists. Returns `Write` with 0 bytes if it can't be
    /// created, or if it is the input.
    fn create(&self, input: &Self::Input, name: &str) -> Result<Self::Output, Fault>
        ensures made { IfOk result (makes self.now input.now (Some name.now)) }
        ensures refused { IfErr result (λ e. (e ≡ Write 0) × makes_none self.now input.now name.now) };
}
