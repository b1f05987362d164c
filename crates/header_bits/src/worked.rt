//! Worked examples as laws of the definitions.

pub mod headers;
pub mod parameters;
pub mod refusals;
pub mod tables;
