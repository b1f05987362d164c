//! Predicting up to eight bands side by side: each has a lane of the vectors, and none waits for another.
#![tactic(auto)]

mod band_lines;
mod chain;
mod directions;
mod fill;
mod finish;
mod lines;
mod long;
mod mapping;
mod pairs;
pub mod predict;
pub mod room;
mod side_by_side;
mod steps;
