//! The block-adaptive entropy coder, both ways (CCSDS 121.0-B, as an entropy coder of CCSDS 123.0-B-1).
#![tactic(auto)]

mod ahead;
pub mod block_reader;
mod block_values;
pub mod block_writer;
pub mod choice;
mod data_set_kind;
mod data_sets;
mod gathering;
pub mod laws;
mod lows;
pub mod options;
mod pairs;
mod quotient_sums;
pub mod segments;
pub mod worked;
pub mod worked_codes;
pub mod worked_refusals;
mod writing;
mod written_split;
