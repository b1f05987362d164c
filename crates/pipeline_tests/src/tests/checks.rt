//! Assertions that the tests share.

use band_rings::settled::SettledLane;
use coder_pipe::pipeline::Piped;
use std::fmt::Debug;
use std::process::Abort;

/// Asserts that two values are equal, and prints both if they aren't.
///
/// Tests call this instead of the macro, so that the macro's expansion is proved only once.
pub(crate) fn same<T: PartialEq + Debug + Drop>(rt: &impl Abort, found: T, wanted: T) {
    assert_eq!(rt; found, wanted);
}

/// Asserts that a pipeline made this file, and how many residuals each of its lanes carried.
pub(crate) fn same_piped(rt: &impl Abort, made: &Piped, file: &[u8], carried: &[u64]) {
    same(rt, made.file.as_slice(), file);
    same(rt, made.lanes.len(), carried.len());
    for (lane, residuals) in made.lanes.iter().zip(carried) {
        same_lane(rt, lane, *residuals);
    }
}

/// Asserts how many residuals were sent along a lane, and that all of them were received.
pub(crate) fn same_lane(rt: &impl Abort, lane: &SettledLane, residuals: u64) {
    same(rt, lane.sent_count(), residuals);
    same(rt, lane.received_count(), residuals);
}
