//! Tests that one call takes as many residuals as the longest row has, with no room reserved before.

ghost use Rattle.std.specs.Prelude.{◌≡◌, ◌<◌, ◌^◌, length};
ghost use Rattle.std.specs.List.{AllByRecursion};
ghost use Rattle.cube_core.specs.Shape.{sample_count};
ghost use Rattle.header_bits.specs.Lawful.{IsLawful};

use crate::checks::same;
use crate::sample_coder::{Settings, stats_of};
use cube_core::kind::Kind;
use cube_core::order::Order;
use cube_core::shape::Shape;
use file_encoding::file_encoder::FileEncoder;
use header_bits::bit_writer::BitWriter;
use header_bits::params::{Coder, CountStart, Params};
use std::alloc::Global;
use std::process::Abort;

/// The number of columns of the longest row.
const LONGEST: usize = 65_536;

/// Returns `count` zeros.
fn zeros(rt: &impl Abort, alloc: Global, count: usize) -> Vec<u16>
    ensures many { length result.items ≡ count }
    ensures range { AllByRecursion (λ n. n < 2 ^ 8) result.items }
{
    vec![in alloc; 0u16; count].expect(rt, "memory")
}

/// Returns parameters of one row, with 65,536 samples of 8 bits in all its bands.
fn params_of(rt: &impl Abort, columns: u32, bands: u32, order: Order, coder: Coder) -> Params
    ensures lawful { IsLawful result }
    ensures bits { result.kind.bits ≡ 8 }
    ensures count { sample_count result.shape ≡ 65536 }
{
    let shape = Shape::new(columns, 1, bands).expect(rt, "a shape");
    let kind = Kind::new(false, 8).expect(rt, "a kind");
    assert!(rt; shape.sample_count() == LONGEST as u64);
    let params = Params {
        order,
        coder,
        ..Params::plain(shape, kind)
    };
    assert!(rt; params.check().is_ok());
    params
}

/// Returns the sample-adaptive coder.
fn by_samples() -> Coder {
    Coder::Sample {
        umax: 16,
        gamma_star: 6,
        gamma_zero: 1,
        start: CountStart::Constant(0),
    }
}

/// Returns the block-adaptive coder with blocks of 64.
fn by_blocks() -> Coder {
    Coder::Block {
        size: 64,
        restricted: false,
        reference: 4096,
    }
}

/// Asserts that a file encoder takes a zero for each sample in one call, and then has no next place.
fn takes_all(rt: &impl Abort, alloc: Global, params: &Params)
    requires lawful { IsLawful params.now }
    requires bits { params.now.kind.bits ≡ 8 }
    requires count { sample_count params.now.shape ≡ 65536 }
{
    let zeros = zeros(rt, alloc, LONGEST);
    let mut end = FileEncoder::new(alloc, params).expect(rt, "memory");
    end.put_all(&zeros).expect(rt, "memory");
    assert!(rt; end.place().is_none());
}

/// Asserts that a file encoder takes the zeros of one row of these columns and bands in one call.
fn all_are_taken(
    rt: &impl Abort,
    alloc: Global,
    columns: u32,
    bands: u32,
    order: Order,
    coder: Coder,
) {
    let params = params_of(rt, columns, bands, order, coder);
    takes_all(rt, alloc, &params);
}

/// Checks that a file encoder takes a whole row, the columns of two bands, and blocks.
#[test]
fn long_runs_are_taken(rt: HostRuntime) {
    let alloc = rt.alloc();
    all_are_taken(&rt, alloc, 65_536, 1, Order::Bsq, by_samples());
    all_are_taken(&rt, alloc, 32_768, 2, Order::Bi(2), by_samples());
    all_are_taken(&rt, alloc, 65_536, 1, Order::Bsq, by_blocks());
}

/// Checks that the sample-adaptive coder takes a whole row.
#[test]
fn a_long_run_is_put(rt: HostRuntime) {
    let settings = Settings {
        bits: 8,
        umax: 16,
        gamma_star: 6,
        gamma_zero: 1,
        constant: 0,
    };
    let zeros = zeros(&rt, rt.alloc(), LONGEST);
    let mut stats = stats_of(&rt, rt.alloc(), 1, settings);
    let mut writer = BitWriter::new(rt.alloc());
    stats
        .put_run(0, 0, &zeros, &mut writer)
        .expect(&rt, "memory");
    // The first number is written in 8 bits, and each other in one.
    same(&rt, writer.bit_count(), 8 + 65_535);
}
