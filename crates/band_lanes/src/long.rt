//! The predictors of eight bands in step, in lanes of 32 bits, with two numbers of each band side by side.

pub mod predict;
pub mod update;
pub mod vectors;
