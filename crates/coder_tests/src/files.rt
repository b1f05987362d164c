//! Tests that each worked file is encoded from its cube, and decoded to it.

ghost use Rattle.std.specs.Prelude.{◌≡◌};
ghost use Rattle.cube_core.specs.Layout.{IsLayout};

use crate::checks::same_bytes;
use crate::row_parameters::{layout_of, params_of};
use crate::row_words::{file_of, header_of, parts_of, samples_of};
use crate::rows::{
    BLOCK_ROWS, CUBE_A_ROWS, REGISTER_ROWS, RESTRICTED_ROWS, RUN_ROWS, SEGMENT_ROWS, SMALL_ROWS,
    TABLE_ROWS, WEIGHT_ROWS,
};
use coder_pipe::decode::decode;
use coder_pipe::encode::encode_one;
use cube_core::cube::Cube;
use cube_core::fault::Fault;
use cube_core::layout::{Layout, RawOrder};
use file_encoding::encode::encode_owned;
use header_bits::header::write_header;
use header_bits::params::Params;
use std::alloc::Global;
use std::process::Abort;

/// The layout of samples of one byte, band after band.
pub(super) const BYTES: Layout = Layout {
    order: RawOrder::Bsq,
    bytes: 1,
    little: false,
};

/// Decodes bytes to parameters and a cube.
pub(super) fn decoded(
    rt: &impl Abort,
    alloc: Global,
    bytes: &[u8],
) -> Result<(Params, Cube), Fault> {
    assert!(rt; bytes.len() <= 1000);
    decode(alloc, bytes)
}

/// Returns the file to which raw bytes are encoded by these settings.
pub(super) fn encoded(
    rt: &impl Abort,
    alloc: Global,
    name: &str,
    settings: &str,
    layout: Layout,
    raw: &[u8],
) -> Vec<u8>
    requires { IsLayout layout }
{
    let params = params_of(rt, alloc, settings);
    assert!(rt; params.check().is_ok(), "{name}");
    let cube = Cube::from_raw(alloc, params.shape, params.kind, layout, raw).expect(rt, name);
    let file = encode_one(alloc, &cube, &params).expect(rt, name);
    let owned = encode_owned(alloc, cube, &params).expect(rt, name);
    same_bytes(rt, &owned, &file, name);
    file
}

/// Returns the header of parameters.
pub(super) fn header_by(rt: &impl Abort, alloc: Global, params: &Params, name: &str) -> Vec<u8> {
    assert!(rt; params.check().is_ok(), "{name}");
    write_header(alloc, params).expect(rt, name)
}

/// Asserts that a file is decoded to parameters with this header and a cube with these raw bytes.
pub(super) fn decodes_to(
    rt: &impl Abort,
    alloc: Global,
    name: &str,
    file: &[u8],
    header: &[u8],
    layout: Layout,
    raw: &[u8],
)
    requires { IsLayout layout }
{
    let (params, cube) = decoded(rt, alloc, file).expect(rt, name);
    same_bytes(rt, &header_by(rt, alloc, &params, name), header, name);
    let back = cube.to_raw(alloc, layout).expect(rt, name);
    same_bytes(rt, &back, raw, name);
}

/// Asserts that a row's file is encoded from its cube, and decoded to it.
fn row_holds(rt: &impl Abort, alloc: Global, row: &str) {
    let [name, settings, samples, header, body] = parts_of(rt, row);
    let layout = layout_of(rt, settings);
    let samples = samples_of(rt, alloc, samples, layout.bytes);
    let file = file_of(rt, alloc, header, body);
    let written = encoded(rt, alloc, name, settings, layout, &samples);
    same_bytes(rt, &written, &file, name);
    let header = header_of(rt, alloc, header);
    decodes_to(rt, alloc, name, &file, &header, layout, &samples);
}

/// Asserts that the file of each row is encoded from its cube, and decoded to it.
fn rows_hold(rt: &impl Abort, alloc: Global, rows: &str) {
    for row in rows.split('\n') {
        row_holds(rt, alloc, row);
    }
}

#[test]
fn worked_files_are_written_and_read(rt: HostRuntime) {
    rows_hold(&rt, rt.alloc(), SMALL_ROWS);
    rows_hold(&rt, rt.alloc(), REGISTER_ROWS);
    rows_hold(&rt, rt.alloc(), WEIGHT_ROWS);
    rows_hold(&rt, rt.alloc(), CUBE_A_ROWS);
    rows_hold(&rt, rt.alloc(), BLOCK_ROWS);
    rows_hold(&rt, rt.alloc(), RUN_ROWS);
    rows_hold(&rt, rt.alloc(), SEGMENT_ROWS);
    rows_hold(&rt, rt.alloc(), TABLE_ROWS);
    rows_hold(&rt, rt.alloc(), RESTRICTED_ROWS);
}

/// Files that a decoder accepts and an encoder doesn't write. In each row: name, header, the header that an encoder
/// writes, body and samples.
const OTHER_SPELLINGS: &str = "\
any bits where the depth isn't there | 8:12 9:34 | | 90 | 200
a file filled to whole bytes alone | 4:02 10:20 | 4:02 10:20 | 90 80 | 200 200
a body filled to whole output words by itself | 4:02 10:20 | 4:02 10:20 | 90 80 00 00 | 200 200
a plain code for the rest of a segment | 4:28 10:0c 17:00 18:08 | 4:28 10:0c 17:00 18:08 | 00 40 | 40*128
the last pair | 4:08 7:05 10:0c 17:00 18:01 | 4:08 7:05 10:0c 17:00 18:01 | 10 00 00 0f | 0 7*3
any filled values | 10:0c 17:00 18:01 | 10:0c 17:00 18:01 | f2 1f ff ff ff ff ff ff e0 | 200";

/// Asserts that a row's file is decoded, and that its parameters have the header that an encoder writes.
fn row_is_read(rt: &impl Abort, alloc: Global, row: &str) {
    let [name, header, chosen, body, samples] = parts_of(rt, row);
    let file = file_of(rt, alloc, header, body);
    let chosen = header_of(rt, alloc, chosen);
    let samples = samples_of(rt, alloc, samples, BYTES.bytes);
    decodes_to(rt, alloc, name, &file, &chosen, BYTES, &samples);
}

#[test]
fn other_spellings_are_read(rt: HostRuntime) {
    for row in OTHER_SPELLINGS.split('\n') {
        row_is_read(&rt, rt.alloc(), row);
    }
}
