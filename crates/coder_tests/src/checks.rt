//! Assertions that the tests share.

use cube_core::fault::Fault;
use std::fmt::Debug;
use std::process::Abort;

/// Asserts that two values are equal, and prints both if they aren't.
///
/// Tests call this instead of the macro, so that the macro's expansion is proved only once.
pub(crate) fn same<T: PartialEq + Debug + Drop>(rt: &impl Abort, found: T, wanted: T) {
    assert_eq!(rt; found, wanted);
}

/// Asserts that bytes are the expected ones, and prints a name if they aren't.
pub(crate) fn same_bytes(rt: &impl Abort, found: &[u8], expected: &[u8], name: &str) {
    assert_eq!(rt; found, expected, "{name}");
}

/// Asserts that a fault is the expected one, and prints a name if it isn't.
pub(crate) fn same_fault(rt: &impl Abort, found: Option<Fault>, expected: Fault, name: &str) {
    assert_eq!(rt; found, Some(expected), "{name}");
}
