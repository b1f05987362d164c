//! The predictors of four bands in step, in lanes of 32 bits: for samples and weights that lanes of 16 bits don't hold.

pub mod follow;
mod predicted;
pub mod rows;
pub mod step;
pub(crate) mod update;
