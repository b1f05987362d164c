//! Assertions that the tests share.

use std::fmt::Debug;
use std::process::Abort;

/// Asserts that two values are equal, and prints both if they aren't.
///
/// Tests call this instead of the macro, so that the macro's expansion is proved only once.
pub(crate) fn same<T: PartialEq + Debug + Drop>(rt: &impl Abort, found: T, wanted: T) {
    assert_eq!(rt; found, wanted);
}
