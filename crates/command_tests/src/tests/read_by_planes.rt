//! Tests of band sequential scenes that are coded while they are read, a row of one band at a time.

ghost use Rattle.std.specs.Prelude.{◌<◌, ◌≤◌};
ghost use Rattle.cube_core.specs.Layout.{IsLayout};

use super::support::{ONE_BYTE, file_of};
use crate::tests::checks::same;
use command_words::settings::CompressSettings;
use cube_core::fault::Fault;
use cube_core::kind::Kind;
use cube_core::layout::{Layout, RawOrder};
use cube_core::shape::Shape;
use header_bits::params::Params;
use std::alloc::Global;
use std::process::Abort;

/// The number of the scene's samples. It has two columns, eight rows, and 43 bands: five groups of eight that are predicted together, and one of three.
const COUNT: usize = 688;

/// Numbers of previous bands with which the scene is coded while it is read: at most 6 + 8 planes are kept, and these are no more than a third of 43.
const PREVIOUS: [u32; 4] = [0, 1, 3, 6];

/// The number of samples of a wide scene of twelve bands. It has 256 columns and eight rows, so that all planes but one may be kept.
const WIDE_COUNT: usize = 24576;

/// Returns the sample of band `z` at row `y`, column `x`: seven bits, which grow along each axis.
fn sample(z: usize, y: usize, x: usize) -> u8 {
    let (z, y, x) = (z % 43, y % 8, x % 2);
    (2 * z + 4 * y + 3 * x + y * y % 5) as u8
}

/// Returns the scene's raw bytes, one a sample: line after line, or else band after band.
fn raw(order: RawOrder) -> [u8; COUNT] {
    let mut bytes = [0; COUNT];
    for at in 0..COUNT {
        let (line, x) = (at / 2, at % 2);
        bytes[at] = match order {
            RawOrder::Bil => sample(line % 43, line / 43, x),
            _ => sample(line / 8, line % 8, x),
        };
    }
    bytes
}

/// Returns raw bytes, one a sample, that begin with those of a wide scene of so many bands: line after line, or else band after band. The
/// samples of each half of a row are equal.
fn wide(order: RawOrder, bands: usize) -> [u8; WIDE_COUNT]
    requires { 0 < bands }
{
    let mut bytes = [0; WIDE_COUNT];
    for at in 0..WIDE_COUNT {
        let (line, x) = (at / 256, at / 128);
        bytes[at] = match order {
            RawOrder::Bil => sample(line % bands, line / bands, x),
            _ => sample(line / 8, line % 8, x),
        };
    }
    bytes
}

/// Returns the scene's settings. The order is band sequential.
fn settings_of(rt: &impl Abort, order: RawOrder, previous: u32) -> CompressSettings
    ensures { IsLayout result.layout }
{
    settings_with(rt, order, 2, 43, previous)
}

/// Returns the settings of a scene of eight rows. The order is band sequential.
fn settings_with(
    rt: &impl Abort,
    order: RawOrder,
    columns: u32,
    bands: u32,
    previous: u32,
) -> CompressSettings
    ensures { IsLayout result.layout }
{
    let shape = Shape::new(columns, 8, bands).expect(rt, "a shape");
    let kind = Kind::new(false, 7).expect(rt, "a kind");
    CompressSettings {
        params: Params {
            previous,
            ..Params::plain(shape, kind)
        },
        layout: Layout { order, ..ONE_BYTE },
        predictors: 0,
        slots: 1024,
    }
}

/// Asserts how the raw bytes are refused.
fn is_refused(rt: &impl Abort, alloc: Global, bytes: &[u8], fault: Fault) {
    let settings = settings_of(rt, RawOrder::Bsq, 3);
    let answer = file_of(rt, alloc, &settings, bytes, 5, None);
    same(rt, answer.err(), Some(fault));
}

#[test]
fn planes_have_the_file_of_the_cube(rt: HostRuntime) {
    let alloc = rt.alloc();
    for previous in PREVIOUS {
        // Raw bytes by line don't come as they are coded here, so all of them are read first.
        let lines = settings_of(&rt, RawOrder::Bil, previous);
        let file = file_of(&rt, alloc, &lines, &raw(RawOrder::Bil), 100, None).expect(
            &rt,
            "no refusal",
        );
        let settings = settings_of(&rt, RawOrder::Bsq, previous);
        for piece in [1, 5, 1000] {
            let found = file_of(&rt, alloc, &settings, &raw(RawOrder::Bsq), piece, None).expect(
                &rt,
                "no refusal",
            );
            same(&rt, found.as_slice(), file.as_slice());
        }
    }
}

/// Asserts that a wide scene has one file, whichever way its raw bytes come.
fn has_one_file(rt: &impl Abort, alloc: Global, bands: usize, previous: u32)
    requires { (0 < bands) × (bands ≤ 12) }
{
    let lines = settings_with(rt, RawOrder::Bil, 256, bands as u32, previous);
    let file = file_of(
        rt,
        alloc,
        &lines,
        &wide(RawOrder::Bil, bands)[..2048 * bands],
        1000,
        None,
    )
    .expect(rt, "no refusal");
    let planes = settings_with(rt, RawOrder::Bsq, 256, bands as u32, previous);
    let found = file_of(
        rt,
        alloc,
        &planes,
        &wide(RawOrder::Bsq, bands)[..2048 * bands],
        1000,
        None,
    )
    .expect(rt, "no refusal");
    same(rt, found.as_slice(), file.as_slice());
}

#[test]
fn planes_of_all_bands_but_one_have_the_file_of_the_cube(rt: HostRuntime) {
    for previous in 0..4u32 {
        has_one_file(&rt, rt.alloc(), previous as usize + 9, previous);
    }
}

#[test]
fn each_failing_call_is_a_read_refusal(rt: HostRuntime) {
    let settings = settings_of(&rt, RawOrder::Bsq, 3);
    for call in 0..COUNT as u64 + 1 {
        let answer = file_of(
            &rt,
            rt.alloc(),
            &settings,
            &raw(RawOrder::Bsq),
            1,
            Some(call),
        );
        same(&rt, answer.err(), Some(Fault::Read));
    }
}

/// Returns the scene with a sample of eight bits at each of two indices.
fn with_bad_samples(first: usize, second: usize) -> [u8; COUNT] {
    let mut bytes = raw(RawOrder::Bsq);
    if first < COUNT && second < COUNT {
        bytes[first] = 200;
        bytes[second] = 130;
    }
    bytes
}

#[test]
fn the_first_bad_sample_is_told(rt: HostRuntime) {
    for index in 0..COUNT {
        let bad = with_bad_samples(index, COUNT - 1);
        let fault = Fault::SampleRange {
            index: index as u64,
        };
        is_refused(&rt, rt.alloc(), &bad, fault);
    }
}

#[test]
fn a_wrong_length_is_told_before_a_bad_sample(rt: HostRuntime) {
    let bad = with_bad_samples(0, 13);
    for had in 0..COUNT {
        let fault = Fault::RawLength {
            wanted: COUNT as u64,
            had: had as u64,
        };
        is_refused(&rt, rt.alloc(), &bad[..had], fault);
    }
    let long = [&bad[..], &bad[..]]
        .concat(rt.alloc())
        .expect(&rt, "memory");
    let fault = Fault::RawLength {
        wanted: COUNT as u64,
        had: COUNT as u64 + 1,
    };
    is_refused(&rt, rt.alloc(), &long, fault);
}
