//! The sample-adaptive entropy coder, both ways (CCSDS 123.0-B-1, "Sample-adaptive entropy coder").
#![tactic(auto)]

mod alike_run;
mod band_state;
mod band_states;
mod code_settings;
pub mod code_word;
pub mod column;
mod column_lanes;
mod eight_column;
mod eight_run;
mod kept_code;
mod kept_codes;
mod lane_words;
pub mod laws;
mod piece;
pub mod read_run;
mod short_column;
mod short_run;
mod short_word;
pub mod single_word;
pub mod statistics;
pub mod stats;
mod thresholds;
mod word_parts;
pub mod worked;
pub mod worked_refusals;
pub mod written_column;
pub mod written_run;
mod written_singly;
