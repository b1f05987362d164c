//! The kinds of coded data sets.

use crate::options::Choice;

/// The kind of a coded data set that was read.
#[derive(Clone, Copy, Debug, PartialEq, Eq, Drop)]
pub(crate) enum DataSetKind {
    /// A block under an option; its values are written elsewhere.
    Block(Choice),
    /// This many zero blocks.
    Run(u32),
    /// Zero blocks up to the segment's end.
    RestOfSegment,
}
