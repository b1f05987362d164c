//! Tests of `cube_core` and `header_bits` through their public calls.
#![tactic(auto)]

#[cfg(test)]
mod tests;
