//! Image cubes: their shapes, the orders of their samples, their raw layouts, and the one fault type.
#![tactic(auto)]

pub mod cube;
pub mod cursor;
pub mod fault;
pub mod kind;
pub mod laws;
pub mod layout;
pub mod order;
pub mod part;
mod piece;
mod raw_read;
mod raw_write;
pub mod reading;
mod scale;
pub mod shape;
pub mod worked;
