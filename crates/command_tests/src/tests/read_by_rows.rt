//! Tests of scenes that are coded while they are read, a row of all bands at a time.

ghost use Rattle.cube_core.specs.Layout.{IsLayout};

use super::support::{ONE_BYTE, file_of};
use crate::tests::checks::same;
use command_words::settings::CompressSettings;
use cube_core::fault::Fault;
use cube_core::kind::Kind;
use cube_core::layout::{Layout, RawOrder};
use cube_core::order::Order;
use cube_core::shape::Shape;
use header_bits::params::Params;
use std::alloc::Global;
use std::process::Abort;

/// The columns, rows and bands of the scene.
const SIZES: (usize, usize, usize) = (2, 9, 3);

/// The number of its samples.
const COUNT: usize = 54;

/// The layouts in which the bands are interleaved.
const INTERLEAVED: [RawOrder; 2] = [RawOrder::Bil, RawOrder::Bip];

/// Returns the sample of band `z` at row `y`, column `x`: seven bits, which grow along each axis.
fn sample(z: usize, y: usize, x: usize) -> u8 {
    let (z, y, x) = (z % 3, y % 9, x % 2);
    (40 * z + 4 * y + 3 * x + y * y % 5) as u8
}

/// Returns the scene's raw bytes, one a sample.
fn raw(order: RawOrder) -> [u8; COUNT] {
    let (columns, rows, bands) = SIZES;
    let mut bytes = [0; COUNT];
    for z in 0..bands {
        for y in 0..rows {
            for x in 0..columns {
                let at = match order {
                    RawOrder::Bsq => (z * rows + y) * columns + x,
                    RawOrder::Bil => (y * bands + z) * columns + x,
                    RawOrder::Bip => (y * columns + x) * bands + z,
                };
                if at < COUNT {
                    bytes[at] = sample(z, y, x);
                }
            }
        }
    }
    bytes
}

/// Returns the scene's settings.
fn settings_of(rt: &impl Abort, order: RawOrder, depth: u32) -> CompressSettings
    ensures { IsLayout result.layout }
{
    let shape = Shape::new(2, 9, 3).expect(rt, "a shape");
    let kind = Kind::new(false, 7).expect(rt, "a kind");
    CompressSettings {
        params: Params {
            order: Order::Bi(depth),
            previous: 2,
            ..Params::plain(shape, kind)
        },
        layout: Layout { order, ..ONE_BYTE },
        predictors: 0,
        slots: 1024,
    }
}

/// Asserts how the raw bytes are refused, in either layout.
fn is_refused(rt: &impl Abort, alloc: Global, order: RawOrder, bytes: &[u8], fault: Fault) {
    let answer = file_of(rt, alloc, &settings_of(rt, order, 1), bytes, 5, None);
    same(rt, answer.err(), Some(fault));
}

#[test]
fn rows_have_the_file_of_the_cube(rt: HostRuntime) {
    let alloc = rt.alloc();
    for depth in 1..4 {
        let bands = settings_of(&rt, RawOrder::Bsq, depth);
        let file = file_of(&rt, alloc, &bands, &raw(RawOrder::Bsq), 100, None).expect(
            &rt,
            "no refusal",
        );
        for order in INTERLEAVED {
            let settings = settings_of(&rt, order, depth);
            for piece in [1, 5, 100] {
                let found = file_of(&rt, alloc, &settings, &raw(order), piece, None).expect(
                    &rt,
                    "no refusal",
                );
                same(&rt, found.as_slice(), file.as_slice());
            }
        }
    }
}

#[test]
fn each_failing_call_is_a_read_refusal(rt: HostRuntime) {
    for order in INTERLEAVED {
        let settings = settings_of(&rt, order, 1);
        for call in 0..COUNT as u64 + 1 {
            let answer = file_of(&rt, rt.alloc(), &settings, &raw(order), 1, Some(call));
            same(&rt, answer.err(), Some(Fault::Read));
        }
    }
}

/// Returns the scene with a sample of eight bits at each of two indices.
fn with_bad_samples(order: RawOrder, first: usize, second: usize) -> [u8; COUNT] {
    let mut bytes = raw(order);
    if first < COUNT && second < COUNT {
        bytes[first] = 200;
        bytes[second] = 130;
    }
    bytes
}

#[test]
fn the_first_bad_sample_is_told(rt: HostRuntime) {
    for order in INTERLEAVED {
        for index in 0..COUNT {
            let bad = with_bad_samples(order, index, COUNT - 1);
            let fault = Fault::SampleRange {
                index: index as u64,
            };
            is_refused(&rt, rt.alloc(), order, &bad, fault);
        }
    }
}

#[test]
fn a_wrong_length_is_told_before_a_bad_sample(rt: HostRuntime) {
    for order in INTERLEAVED {
        let bad = with_bad_samples(order, 0, 13);
        for had in 0..COUNT {
            let fault = Fault::RawLength {
                wanted: COUNT as u64,
                had: had as u64,
            };
            is_refused(&rt, rt.alloc(), order, &bad[..had], fault);
        }
        let long = [&bad[..], &bad[..]]
            .concat(rt.alloc())
            .expect(&rt, "memory");
        let fault = Fault::RawLength {
            wanted: COUNT as u64,
            had: COUNT as u64 + 1,
        };
        is_refused(&rt, rt.alloc(), order, &long, fault);
    }
}
