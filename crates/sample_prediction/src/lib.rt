//! The prediction of one sample: local sums, differences, weights, scaled predictions and mapped residuals.
//!
//! Each function is a rule of the predictor at one place of one band (CCSDS 123.0-B-1, "Predictor"), on machine words
//! and slices. `predict_core` goes over bands and runs of places with them; its callers need not name this crate.
#![tactic(auto)]

pub mod differences;
pub mod exponent;
pub mod handed;
pub mod neighbourhood;
pub mod prediction;
pub mod predictor;
pub mod register;
pub mod residual;
pub mod rows;
pub mod sample_limits;
pub mod start;
pub mod weights;
pub mod worked;
