//! What the program reports of a refusal: a line, and its exit status.

ghost use Rattle.std.specs.Prelude.{◌≡◌, ℕ, List, [], ◌∷◌, ◌++◌, codes, IfOk, IfErr, OnOk};
ghost use Rattle.std.specs.Process.{exit_status};
ghost use Rattle.cube_core.specs.declared.fault.Fault.TheVariants.{WantOfMemory};
ghost use Rattle.command_reports.specs.Status.{status};

use cube_core::fault::Fault;
use std::alloc::Global;
use std::process::ExitCode;

/// Returns the program's exit status after a refusal: 1 for the words, 2 for the input, 3 for memory or a
/// thread, 4 for a device.
pub fn status_of(fault: &Fault) -> u8
    ensures { result ≡ status fault.now }
{
    match fault {
        Fault::Usage => 1,
        Fault::WantOfMemory | Fault::SpawnRefused => 3,
        Fault::Read | Fault::Write { .. } => 4,
        _ => 2,
    }
}

/// Returns the line that the program prints on standard error: its name, the fault, and a newline.
///
/// Returns `WantOfMemory` if the line can't be allocated.
pub fn fault_line(alloc: Global, fault: &Fault) -> Result<Vec<u8>, Fault>
    ensures line { IfOk result (λ line. (told : List ℕ) × (line.items ≡ codes "ccsds: " ++ told ++ 10 ∷ [])) }
    ensures refused { IfErr result (λ e. e ≡ WantOfMemory) }
{
    // Contracts don't say what a fault's text is, only what comes before and after it.
    let told = format!(in alloc; "{fault}")?;
    let line = format!(in alloc; "ccsds: {told}\n")?;
    Ok(line.into_bytes())
}

/// Returns the exit status after a refusal: its own if it has its line, and otherwise that of the reason why
/// there is none.
pub fn exit_code(fault: &Fault, line: &Result<Vec<u8>, Fault>) -> ExitCode
    ensures told { OnOk line.now (exit_status result ≡ status fault.now) }
    ensures untold { IfErr line.now (λ e. exit_status result ≡ status e) }
{
    match line {
        Ok(_) => ExitCode::from(status_of(fault)),
        Err(refusal) => ExitCode::from(status_of(refusal)),
    }
}
