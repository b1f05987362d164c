//! Kinds of samples: their ranges, and the offsets of samples from the least one.

use crate::tests::checks::same;
use cube_core::kind::Kind;
use std::process::Abort;

/// Asserts that a kind has these limits and this middle, and that it has no sample beyond its limits.
fn has_range(rt: &impl Abort, kind: Kind, least: i32, middle: i32, greatest: i32) {
    same(rt, kind.smin(), least);
    same(rt, kind.smid(), middle);
    same(rt, kind.smax(), greatest);
    assert!(rt; !kind.has(kind.smin().saturating_sub(1)));
    assert!(rt; kind.has(least));
    assert!(rt; kind.has(greatest));
    assert!(rt; !kind.has(kind.smax().saturating_add(1)));
}

#[test]
fn ranges_of_kinds(rt: HostRuntime) {
    for (signed, bits, least, middle, greatest) in [
        (false, 2, 0, 2, 3),
        (false, 16, 0, 32_768, 65_535),
        (true, 2, -2, 0, 1),
        (true, 16, -32_768, 0, 32_767),
    ] {
        let kind = Kind::new(signed, bits).expect(&rt, "a kind");
        has_range(&rt, kind, least, middle, greatest);
    }
}

/// Asserts that a signed 16-bit sample has this offset, and the offset this sample.
fn is_offset(rt: &impl Abort, sample: i32, offset: u16) {
    let kind = Kind::new(true, 16).expect(rt, "a kind");
    assert!(rt; kind.has(sample));
    same(rt, kind.offset_of(sample), offset);
    assert!(rt; kind.bits() == 16);
    same(rt, kind.sample_of(offset), sample);
}

#[test]
fn offsets_of_samples(rt: HostRuntime) {
    is_offset(&rt, -32_768, 0);
    is_offset(&rt, -1, 32_767);
    is_offset(&rt, 0, 32_768);
    is_offset(&rt, 32_767, 65_535);
}
