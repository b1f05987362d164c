//! The program `ccsds`: the commands over files and the standard streams.
#![tactic(auto)]

ghost use Rattle.std.specs.Prelude.{◌≡◌, ◌⊎◌};
ghost use Rattle.std.specs.Process.{exit_status};
ghost use Rattle.cube_core.specs.declared.fault.Fault.TheVariants.{WantOfMemory};
ghost use Rattle.command_reports.specs.Status.{status};

use ccsds_command::command::{Ended, run_words};
use command_reports::report::{exit_code, fault_line};
use command_system::system::System;
use cube_core::fault::Fault;
use std::env;
use std::io::{ErrorKind, Write};
use std::process::ExitCode;

fn main(rt: HostRuntime) -> ExitCode {
    let ran = match words(&rt) {
        Ok(words) => run_words(&rt, rt.alloc(), &System { rt: &rt }, &words),
        Err(fault) => Err(fault),
    };
    match ran {
        Ok(Ended { answer: Ok(()), .. }) => ExitCode::SUCCESS,
        Ok(
            Ended {
                answer: Err(fault),
                ..
            },
        )
        | Err(fault) => report(&rt, &fault),
    }
}

/// Returns the words after the program's name. Words that aren't text are `Usage`.
fn words(rt: &HostRuntime) -> Result<Vec<String>, Fault> {
    match env::args(rt) {
        Ok(words) => Ok(words.skip(1).collect(rt.alloc())?),
        Err(error) if error.kind() == ErrorKind::OutOfMemory => Err(Fault::WantOfMemory),
        Err(_) => Err(Fault::Usage),
    }
}

/// Prints the fault's line on standard error, and returns its exit status. If the line can't be allocated, nothing is printed, and
/// the status is that of `WantOfMemory`.
fn report(rt: &HostRuntime, fault: &Fault) -> ExitCode
    ensures { (exit_status result ≡ status fault.now) ⊎ (exit_status result ≡ status WantOfMemory) }
{
    let line = fault_line(rt.alloc(), fault);
    if let Ok(text) = &line {
        // Nobody is left to tell that standard error failed.
        let _ = rt.stderr().write_all(text);
    }
    exit_code(fault, &line)
}
