//! Tests of the pipeline through its public calls: plans, the weaver, stops, and the files that predictors make.
#![tactic(auto)]

#[cfg(test)]
mod tests;
