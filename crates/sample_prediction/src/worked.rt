//! Worked examples, each a law over the definitions: a function with an empty body, whose contract holds.

pub mod differences;
pub mod mapping;
pub mod residuals;
pub mod weights;
