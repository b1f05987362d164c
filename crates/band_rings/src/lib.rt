//! Lanes that carry residuals from a predictor's thread to the coding thread.
#![tactic(auto)]

pub mod bell;
pub mod closed;
pub mod lane;
pub mod laws;
pub mod receiver;
pub mod sender;
pub mod settled;
pub mod worked;
