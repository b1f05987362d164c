//! The reading end of an image: from the bytes of a file to its parameters and its cube.
#![tactic(auto)]

pub mod decode;
pub mod decoder;
mod eight_bands;
pub mod minimum_length;
mod tile;
