//! Whole files with predictors in threads of their own; and the public paths of the coder.
#![tactic(auto)]

mod copied;
pub mod cube_feed;
pub mod encode_predicted;
mod gather;
mod lane_taker;
pub mod laws;
pub mod pipeline;
pub mod plan;
pub mod predict_lane;
mod run;
pub mod weaver;

pub use file_decoding::{decode, decoder, minimum_length};
pub use file_encoding::{encode, encoder};
pub use lane_workers::feed::{Feed, LaneEnd};
pub use lane_workers::gate::{Gate, OpenGate};
