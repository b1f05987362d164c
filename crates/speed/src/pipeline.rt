//! The speed of the pipeline: predictors in threads of their own beside the coder.

ghost use Rattle.std.specs.Prelude.{◌≡◌, ◌≤◌};
ghost use Rattle.header_bits.specs.Lawful.{IsLawful};

use crate::predictor::{orders, params_of, synthetic_cube};
use crate::report::Report;
use crate::synthetic::sum_of_bytes;
use anyhow::Result;
use coder_pipe::OpenGate;
use coder_pipe::encode::encode_one;
use coder_pipe::encode_predicted::encode_predicted;
use coder_pipe::plan::Plan;
use cube_core::cube::Cube;
use header_bits::params::{Coder, Params};
use std::alloc::Global;
use std::sync::Wait;
use std::thread::Threads;

/// The most predictors that are measured.
const MOST: u32 = 3;

/// Measures the sample-adaptive coder in each order, in full mode with three previous bands: by one thread, and by predictors beside it.
pub fn measure<R: Threads + Wait + Sync>(rt: &R, report: &Report) -> Result<()> {
    let shape = report.shape()?;
    for (name, order) in orders(shape.bands()) {
        let params = params_of(shape, false, 3, order, Coder::plain())?;
        measure_order(rt, report, name, &params)?;
    }
    Ok(())
}

/// Measures one thread, and each number of predictors by few slots and by many.
fn measure_order<R: Threads + Wait + Sync>(
    rt: &R,
    report: &Report,
    order: &str,
    params: &Params,
) -> Result<()>
    requires { IsLawful params.now }
{
    let cube = synthetic_cube(report.alloc(), params.shape, params.kind)?;
    by_one_thread(report, order, params, &cube)?;
    for predictors in 1..MOST + 1 {
        for slots in [1024, 65_536] {
            by_predictors(rt, report, order, params, &cube, predictors, slots)?;
        }
    }
    Ok(())
}

/// Measures one thread.
fn by_one_thread(report: &Report, order: &str, params: &Params, cube: &Cube) -> Result<()>
    requires lawful { IsLawful params.now }
    requires shape { cube.now.shape ≡ params.now.shape }
    requires kind { cube.now.kind ≡ params.now.kind }
{
    let start = report.start()?;
    let file = encode_one(report.alloc(), cube, params)?;
    let time = report.since(start)?;
    let name = format!(in report.alloc(); "pipeline_{order}_one_thread")?;
    let count = params.shape.sample_count();
    report.line(name.as_str(), count, time, sum_of_bytes(&file))
}

/// Measures so many predictors, each with so many slots.
fn by_predictors<R: Threads + Wait + Sync>(
    rt: &R,
    report: &Report,
    order: &str,
    params: &Params,
    cube: &Cube,
    predictors: u32,
    slots: u32,
) -> Result<()>
    requires lawful { IsLawful params.now }
    requires shape { cube.now.shape ≡ params.now.shape }
    requires kind { cube.now.kind ≡ params.now.kind }
    requires few { (1 ≤ predictors) × (predictors ≤ 64) }
{
    let alloc = report.alloc();
    let deal = dealt(alloc, params.shape.bands(), predictors)?;
    let plan = Plan::new(alloc, params, predictors, &deal, slots)?;
    let name = format!(in alloc; "pipeline_{order}_{predictors}_by_{slots}")?;
    by_plan(rt, report, name.as_str(), cube, &plan)
}

/// Measures a plan.
fn by_plan<R: Threads + Wait + Sync>(
    rt: &R,
    report: &Report,
    name: &str,
    cube: &Cube,
    plan: &Plan,
) -> Result<()>
    requires shape { cube.now.shape ≡ plan.now.params.shape }
    requires kind { cube.now.kind ≡ plan.now.params.kind }
{
    let start = report.start()?;
    let piped = encode_predicted(rt, report.alloc(), cube, plan, &OpenGate)?;
    let time = report.since(start)?;
    let count = cube.shape().sample_count();
    report.line(name, count, time, sum_of_bytes(&piped.file))
}

/// A deal of bands to predictors by turns.
fn dealt(alloc: Global, bands: u32, predictors: u32) -> Result<Vec<u8>>
    requires { (1 ≤ predictors) × (predictors ≤ 64) }
{
    let mut deal = Vec::new(alloc);
    for z in 0..bands {
        deal.push((z % predictors) as u8)?;
    }
    Ok(deal)
}
