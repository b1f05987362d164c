//! The sources and sinks of commands, what opens them, and bytes read and written whole.
#![tactic(auto)]

pub mod cut;
pub mod device;
pub mod opener;
pub mod reading;
pub mod sink;
pub mod source;
pub mod stream;
pub mod writing;
