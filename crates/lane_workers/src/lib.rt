//! Workers that send numbers along lanes, each in a thread of its own, and what the thread that takes their numbers knows of them.
#![tactic(auto)]

pub mod feed;
pub mod gate;
pub mod list_feed;
pub mod patience;
pub mod ready;
mod room;
pub mod run_receiver;
pub mod run_sender;
pub mod stage;
mod state;
mod waiting;
mod worker;
