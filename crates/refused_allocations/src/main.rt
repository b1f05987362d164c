//! Library calls whose allocations fail, and which are then repeated.
//!
//! Every call below that may return `WantOfMemory` is repeated if it does. The bodies and files are then those of an
//! undisturbed run, whichever allocation the system refuses. `refused_allocations all` prints their lengths and checksums.
//! With the word `open` there is one pipeline alone, and with `stopped` the same one, whose gate stops a predictor at its
//! last residual; what became of it is printed. With the word `calls`, calls that are met inside others otherwise are made
//! by themselves. The last line, which is printed without a word too, says how many calls were repeated; where the last of them has
//! a name, that follows.
#![tactic(auto)]

mod blocks;
mod calls;
mod files;
mod repeats;
mod samples;
mod stops;

use crate::repeats::Again;
use crate::stops::StopSecond;
use anyhow::Result;
use coder_pipe::OpenGate;
use cube_core::fault::Fault;
use std::alloc::Global;
use std::env;
use std::sync::Wait;
use std::thread::Threads;

fn main(rt: HostRuntime) -> Result<()> {
    let mut words = env::args(&rt)?;
    let _program = words.next();
    let word = words.next();
    let asked = match &word {
        None => "all",
        Some(word) => word.as_str(),
    };
    let mut again = Again::new();
    // Everything is repeated if another allocation fails, such as that of a line.
    let lines = match lines_of(&rt, rt.alloc(), asked, &mut again) {
        Ok(lines) => lines,
        Err(Fault::WantOfMemory) => {
            again.call("everything");
            lines_of(&rt, rt.alloc(), asked, &mut again)?
        }
        Err(other) => return Err(other.into()),
    };
    if word.is_some() {
        print!(&rt; "{lines}")?;
    }
    println!(&rt; "made again: {}", again.count())?;
    if !again.name().is_empty() {
        println!(&rt; "{}", again.name())?;
    }
    Ok(())
}

/// Returns the line of calls by themselves, the line of one pipeline, or those of each body and each file.
fn lines_of<R: Threads + Wait + Sync>(
    rt: &R,
    alloc: Global,
    asked: &str,
    again: &mut Again,
) -> Result<String, Fault> {
    match asked {
        "calls" => calls::line(alloc, again),
        "open" => stops::line(rt, alloc, &OpenGate, again),
        "stopped" => stops::line(rt, alloc, &StopSecond::at_the_last(), again),
        _ => all_lines(rt, alloc, again),
    }
}

/// Returns a line for each body and each file.
fn all_lines<R: Threads + Wait + Sync>(
    rt: &R,
    alloc: Global,
    again: &mut Again,
) -> Result<String, Fault> {
    let blocks = blocks::line(alloc, again)?;
    let samples = samples::line(alloc, again)?;
    let files = files::lines(rt, alloc, again)?;
    let lines = format!(in alloc; "{blocks}{samples}{files}")?;
    Ok(lines)
}
