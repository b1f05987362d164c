//! From samples to mapped residuals: a band over a run, or over a piece whose residuals it holds.

pub(crate) mod chain;
pub mod known_run;
pub(crate) mod piece;
pub(crate) mod pieces;
pub(crate) mod run;
