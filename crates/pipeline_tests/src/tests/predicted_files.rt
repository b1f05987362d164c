//! Tests of the files that predictors in threads make of cube A.

use super::cube_a::{BY_PIXEL, by_blocks, by_one, params_of, piped, piped_by_pixel};
use crate::tests::checks::{same, same_piped};
use coder_pipe::{Gate, OpenGate};
use cube_core::fault::Fault;
use cube_core::order::Order;
use header_bits::params::{Coder, Params};
use std::alloc::Global;
use std::process::Abort;
use std::sync::Wait;
use std::test::Fail;
use std::thread::Threads;

/// Asserts that predictors by a deal make the file of cube A by pixel, and how many residuals each lane carries.
fn make_it<R: Threads + Wait + Sync + Abort, G: Gate + Sync>(
    rt: &R,
    alloc: Global,
    predictors: u32,
    deal: &[u8],
    slots: u32,
    gate: &G,
    carried: &[u64],
) -> Result<(), Fault> {
    let made = piped_by_pixel(rt, alloc, predictors, deal, slots, gate)?;
    same_piped(rt, &made, &BY_PIXEL, carried);
    Ok(())
}

/// Asserts that two predictors with a band each make the file of cube A by pixel, past a gate.
pub(crate) fn two_make_it<R: Threads + Wait + Sync + Abort, G: Gate + Sync>(
    rt: &R,
    alloc: Global,
    slots: u32,
    gate: &G,
) -> Result<(), Fault> {
    make_it(rt, alloc, 2, &[0, 1], slots, gate, &[6, 6])
}

/// Deals each band to a predictor of its own, with lanes of one slot and of more.
#[test]
fn each_predictor_has_a_band(rt: HostRuntime) -> Result<(), Fail> {
    for slots in [1, 2, 8, 1024] {
        two_make_it(&rt, rt.alloc(), slots, &OpenGate)?;
    }
    Ok(())
}

/// Deals all bands to the first of two predictors, with lanes of one slot and of more.
#[test]
fn all_bands_to_one(rt: HostRuntime) -> Result<(), Fail> {
    for slots in [1, 2, 1024] {
        make_it(&rt, rt.alloc(), 2, &[0, 0], slots, &OpenGate, &[12, 0])?;
    }
    Ok(())
}

/// Deals all bands to the last of 64 predictors, with lanes of one slot.
#[test]
fn all_bands_to_the_last_of_64(rt: HostRuntime) -> Result<(), Fail> {
    let mut carried = [0; 64];
    carried[63] = 12;
    make_it(&rt, rt.alloc(), 64, &[63, 63], 1, &OpenGate, &carried)?;
    Ok(())
}

/// Asserts that three predictors, in an order and by a coder, make the same file as one thread.
fn three_make_it<R: Threads + Wait + Sync + Abort>(
    rt: &R,
    alloc: Global,
    order: Order,
    coder: Coder,
) -> Result<(), Fault> {
    deals_make_it(rt, alloc, &params_of(rt, order, coder))
}

/// Asserts that three predictors make the same file as one thread by each of three deals.
fn deals_make_it<R: Threads + Wait + Sync + Abort>(
    rt: &R,
    alloc: Global,
    params: &Params,
) -> Result<(), Fault> {
    let wanted = by_one(rt, alloc, params)?;
    for deal in [[0, 1], [1, 0], [1, 1]] {
        deal_makes(rt, alloc, params, &deal, &wanted)?;
    }
    Ok(())
}

/// Asserts that three predictors make this file by a deal.
fn deal_makes<R: Threads + Wait + Sync + Abort>(
    rt: &R,
    alloc: Global,
    params: &Params,
    deal: &[u8],
    file: &[u8],
) -> Result<(), Fault> {
    let made = piped(rt, alloc, params, 3, deal, 2, &OpenGate)?;
    same(rt, made.file.as_slice(), file);
    Ok(())
}

/// Checks each encoding order with each coder.
#[test]
fn predictors_make_the_file_of_one_thread(rt: HostRuntime) -> Result<(), Fail> {
    for order in [Order::Bsq, Order::Bi(1), Order::Bi(2)] {
        three_make_it(&rt, rt.alloc(), order, Coder::plain())?;
        three_make_it(&rt, rt.alloc(), order, by_blocks())?;
    }
    Ok(())
}
