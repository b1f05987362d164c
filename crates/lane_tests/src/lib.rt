//! Tests of lanes, and of the workers that send along them, through their public calls.
#![tactic(auto)]

#[cfg(test)]
mod tests;
