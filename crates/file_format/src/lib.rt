//! What a file is: its definitions, and their laws.
#![tactic(auto)]

pub mod laws;
