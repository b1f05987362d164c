//! The predictors of eight bands in step, a lane of the vectors for each band: their predicted central differences and
//! their weights, place after place.
#![tactic(auto)]

pub mod follow;
pub mod four;
pub mod long;
pub mod pairs;
mod predicted;
pub mod step;
mod update;
