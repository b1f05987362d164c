//! Raw bytes, read from a source into a cube, and written from a cube to a sink, a piece at a time.
#![tactic(auto)]

pub mod joined;
mod part;
pub mod read;
pub mod rows;
pub mod write;
