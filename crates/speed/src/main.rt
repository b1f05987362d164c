//! The benchmark program: how fast each part of the coder processes samples.
//!
//! `speed SUBJECT` prints a line for each measured loop in each of five rounds: its name, how many
//! samples it processed in how many nanoseconds, and a checksum of its results. Without a subject
//! all loops process little data, and it prints only names and checksums. The project in `bench/`
//! prints the same for plain Rust, but for the pipeline, and `bench/compare.py` compares the two.
#![tactic(auto)]

mod block_coder;
mod collected;
mod cube;
mod files;
mod pipeline;
mod predictor;
mod report;
mod ring_lanes;
mod sample_coder;
mod synthetic;

use crate::report::Report;
use anyhow::Result;
use std::env;
use std::sync::Wait;
use std::thread::Threads;

/// How often each subject's loops are measured.
const ROUNDS: u32 = 5;

fn main(rt: HostRuntime) -> Result<()> {
    let mut words = env::args(&rt)?;
    let _program = words.next();
    match words.next() {
        None => measure_all(&rt, &Report::of_checksums(&rt)),
        Some(subject) => {
            let report = Report::of_times(&rt);
            for _ in 0..ROUNDS {
                measure(&rt, &report, subject.as_str())?;
            }
            Ok(())
        }
    }
}

/// Measures the loops of all subjects.
fn measure_all<R: Threads + Wait + Sync>(rt: &R, report: &Report) -> Result<()> {
    cube::measure(report)?;
    predictor::measure(report)?;
    sample_coder::measure(report)?;
    block_coder::measure(report)?;
    files::measure(report)?;
    ring_lanes::measure(rt, report)?;
    pipeline::measure(rt, report)
}

/// Measures the loops of a subject.
fn measure<R: Threads + Wait + Sync>(rt: &R, report: &Report, subject: &str) -> Result<()> {
    match subject {
        "cube" => cube::measure(report),
        "predictor" => predictor::measure(report),
        "sample_coder" => sample_coder::measure(report),
        "block_coder" => block_coder::measure(report),
        "files" => files::measure(report),
        "lanes" => ring_lanes::measure(rt, report),
        "pipeline" => pipeline::measure(rt, report),
        _ => Ok(()),
    }
}
