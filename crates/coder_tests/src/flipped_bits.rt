//! Tests that decode each worked file with each single bit flipped.
//!
//! The contract of `decode` states that any result but `WantOfMemory` is that of the definition: its fault or its cube.
//! These tests check that no result is `WantOfMemory`, and that decoding the same bytes again returns the same.

use crate::files::{BYTES, decoded};
use crate::row_words::{file_of, parts_of};
use crate::rows::{
    BLOCK_ROWS, CUBE_A_ROWS, REGISTER_ROWS, RESTRICTED_ROWS, RUN_ROWS, SEGMENT_ROWS, SMALL_ROWS,
    TABLE_ROWS, WEIGHT_ROWS,
};
use cube_core::fault::Fault;
use cube_core::layout::Layout;
use std::alloc::Global;
use std::process::Abort;

/// Decodes a file, and returns its samples or the fault that it is refused for.
fn answer(rt: &impl Abort, alloc: Global, file: &[u8], name: &str) -> Result<Vec<u8>, Fault> {
    let (_, cube) = decoded(rt, alloc, file)?;
    let bytes = if cube.kind().bits() > 8 { 2 } else { 1 };
    let layout = Layout { bytes, ..BYTES };
    Ok(cube.to_raw(alloc, layout).expect(rt, name))
}

/// Decodes the same bytes twice, and checks that both results are equal and neither is `WantOfMemory`.
fn answers_alike(rt: &impl Abort, alloc: Global, file: &[u8], name: &str) {
    let one = answer(rt, alloc, file, name);
    let other = answer(rt, alloc, file, name);
    assert!(rt; one != Err(Fault::WantOfMemory), "{name}");
    assert!(rt; one == other, "{name}");
}

/// Flips each bit of a file in turn, and checks the results of decoding it.
fn turned_answers_alike(rt: &impl Abort, alloc: Global, file: &mut [u8], name: &str) {
    for at in 0..file.len() {
        for bit in 0u32..8 {
            file[at] ^= 0x80 >> bit;
            answers_alike(rt, alloc, file, name);
            file[at] ^= 0x80 >> bit;
        }
    }
}

/// Flips each bit of a row's file in turn, and checks the results of decoding it.
fn row_answers_alike(rt: &impl Abort, alloc: Global, row: &str) {
    let [name, _settings, _samples, header, body] = parts_of(rt, row);
    let mut file = file_of(rt, alloc, header, body);
    turned_answers_alike(rt, alloc, &mut file, name);
}

/// Flips each bit of the file of each row in turn, and checks the results of decoding it.
fn rows_answer_alike(rt: &impl Abort, alloc: Global, rows: &str) {
    for row in rows.split('\n') {
        row_answers_alike(rt, alloc, row);
    }
}

#[test]
fn a_bit_of_a_small_file_is_turned(rt: HostRuntime) {
    rows_answer_alike(&rt, rt.alloc(), SMALL_ROWS);
}

#[test]
fn a_bit_of_a_file_of_registers_is_turned(rt: HostRuntime) {
    rows_answer_alike(&rt, rt.alloc(), REGISTER_ROWS);
}

#[test]
fn a_bit_of_a_file_of_weights_is_turned(rt: HostRuntime) {
    rows_answer_alike(&rt, rt.alloc(), WEIGHT_ROWS);
}

#[test]
fn a_bit_of_cube_a_is_turned(rt: HostRuntime) {
    rows_answer_alike(&rt, rt.alloc(), CUBE_A_ROWS);
}

#[test]
fn a_bit_of_a_file_of_blocks_is_turned(rt: HostRuntime) {
    rows_answer_alike(&rt, rt.alloc(), BLOCK_ROWS);
}

#[test]
fn a_bit_of_a_file_of_runs_is_turned(rt: HostRuntime) {
    rows_answer_alike(&rt, rt.alloc(), RUN_ROWS);
}

#[test]
fn a_bit_of_a_file_of_whole_segments_is_turned(rt: HostRuntime) {
    rows_answer_alike(&rt, rt.alloc(), SEGMENT_ROWS);
}

#[test]
fn a_bit_of_a_file_with_a_table_is_turned(rt: HostRuntime) {
    rows_answer_alike(&rt, rt.alloc(), TABLE_ROWS);
}

#[test]
fn a_bit_of_a_restricted_file_is_turned(rt: HostRuntime) {
    rows_answer_alike(&rt, rt.alloc(), RESTRICTED_ROWS);
}
