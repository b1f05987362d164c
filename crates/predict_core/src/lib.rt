//! The predictor of CCSDS 123.0-B-1: from samples to mapped residuals, and back.
#![tactic(auto)]

pub mod band;
pub mod bands;
pub mod differences;
pub mod exact_lanes;
pub mod forward;
mod inverse;
pub mod lane_weights;
pub mod laws;
pub mod mapping;
pub mod narrow_offsets;
mod prediction;
pub mod run;
pub mod settings;

pub use sample_prediction::{handed, predictor, residual, rows, worked};
