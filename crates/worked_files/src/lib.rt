//! Worked files and parts of residuals, computed from the definitions; and worked examples of refused files.
#![tactic(auto)]

pub mod files;
pub mod parts;
pub mod refusals;
pub mod restricted;
pub mod tables;
pub mod too_short;
