//! From the words of a command line to the settings of its command.
#![tactic(auto)]

pub mod command_line;
mod option_values;
mod options;
pub mod settings;
pub mod words;
pub mod worked;
