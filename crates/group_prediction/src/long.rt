//! Bands side by side in lanes of 32 bits, four in the lanes of a vector, where those of 16 bits aren't exact.

pub(crate) mod chain;
pub(crate) mod directions;
pub(crate) mod fill;
pub(crate) mod finish;
pub(crate) mod lines;
pub(crate) mod room;
pub(crate) mod rows;
pub(crate) mod side_by_side;
pub(crate) mod steps;
pub(crate) mod weights;
