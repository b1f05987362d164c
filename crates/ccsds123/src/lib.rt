//! The library for C, `ccsds123.h`: the coder over the bytes of the caller, with nothing kept between calls.
#![tactic(auto)]

pub mod asked;
pub mod bound;
pub mod decode;
pub mod encode;
pub mod encoder;
pub mod exports;
pub mod handle;
pub mod header;
pub mod held;
pub mod laws;
pub mod loose;
mod names;
pub mod records;
pub mod refusal;
pub mod rooms;
pub mod scene;
pub mod text;
pub mod told;
