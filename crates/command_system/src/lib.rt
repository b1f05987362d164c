//! The system's standard streams and files, as the ends of a command.
#![tactic(auto)]

pub mod system;
