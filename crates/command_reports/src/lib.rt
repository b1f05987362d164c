//! What the commands print: a header's lines, a refusal's line and status, and bytes in hexadecimal.
#![tactic(auto)]

pub mod hexadecimal;
pub mod lines;
pub mod report;
pub mod worked;
