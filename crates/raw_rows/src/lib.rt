//! A row in raw bytes, of all bands or of one: its samples, and the image that has one row more.
#![tactic(auto)]

pub mod one_row;
