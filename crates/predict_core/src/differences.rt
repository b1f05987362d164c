//! Local sums and central differences, and the rooms that hold them for a run.

pub(crate) mod below;
pub mod fills;
pub mod lines;
pub(crate) mod room;
