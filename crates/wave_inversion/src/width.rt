//! The form of a wavefront, in lanes of either width.

use crate::form::Form;
use crate::long::form::LongForm;

/// The form of a wavefront: in lanes of 16 bits where these are exact, and else in lanes of 32.
#[derive(Clone, Copy)]
pub(crate) enum Width {
    Narrow(Form),
    Long(LongForm),
}
