//! The commands: engines over sources and sinks, the settings that words ask for, and what a refusal prints.
#![tactic(auto)]

mod by_rows;
pub mod command;
pub mod compress;
pub mod expand;
pub mod inspect;
pub mod piped;
mod row_taker;
pub mod show;

pub use command_devices::cut::{CutSink, CutSource};
pub use command_devices::opener::Opener;
pub use command_devices::sink::Sink;
pub use command_devices::source::{Failed, Source};
pub use command_reports::report::{fault_line, status_of};
pub use command_words::settings::{CompressSettings, Settings};
pub use command_words::words::settings;
