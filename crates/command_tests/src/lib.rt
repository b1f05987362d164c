//! Tests of the commands, of their lines, their sources and sinks, and their reports, over memory.
#![tactic(auto)]

#[cfg(test)]
mod tests;
