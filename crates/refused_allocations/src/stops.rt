//! One pipeline alone, whose gate may stop a predictor.

ghost use Rattle.std.specs.Prelude.{◌==◌, ◌&&◌};

use crate::files::{interleaved, piped, plan_of, scene};
use crate::repeats::Again;
use coder_pipe::Gate;
use cube_core::fault::Fault;
use std::alloc::Global;
use std::sync::Wait;
use std::thread::Threads;

/// A gate that stops predictor 1 at its residual `nth`, counted from 0.
#[derive(Clone, Copy, Drop)]
pub struct StopSecond {
    nth: u64,
}

impl StopSecond {
    /// Returns a gate that stops predictor 1 at its last residual: it has three bands of 23 x 17 samples.
    pub fn at_the_last() -> StopSecond {
        StopSecond { nth: 1172 }
    }
}

impl Gate for StopSecond {
    ghost may_stop = { λ s q n. (q == 1) && (n == s.nth) };

    fn pass(&self, predictor: u32, nth: u64, _turn: u64) -> bool {
        predictor != 1 || nth != self.nth
    }
}

/// Returns a line with the length of the pipeline's file, or with the predictor that was stopped and how many residuals
/// it had sent.
pub fn line<R: Threads + Wait + Sync, G: Gate + Sync>(
    rt: &R,
    alloc: Global,
    gate: &G,
    again: &mut Again,
) -> Result<String, Fault> {
    let params = interleaved()?;
    let cube = scene(alloc, &params, again)?;
    let plan = plan_of(alloc, &params, again)?;
    match piped(rt, alloc, &cube, &plan, gate, again) {
        Ok(piped) => {
            let length = piped.file.len();
            Ok(format!(in alloc; "open: {length} bytes\n")?)
        }
        Err(Fault::Stopped { predictor, sent }) => {
            Ok(format!(in alloc; "stopped: predictor {predictor} after {sent}\n")?)
        }
        Err(other) => Err(other),
    }
}
