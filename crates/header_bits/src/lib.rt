//! Bits in and out, the parameters of a coded image, and the header that holds them.
#![tactic(auto)]

pub mod bit_reader;
pub mod bit_writer;
mod check;
mod coder_part;
mod constant_part;
pub mod field;
pub mod fields;
pub mod header;
mod image_part;
pub mod laws;
mod layout;
pub mod params;
mod predictor_part;
mod refusal;
mod table_layout;
pub mod tables;
mod weight_part;
pub mod worked;
mod written_bytes;
