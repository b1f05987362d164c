//! Words side by side in lanes, such as the code words of several residuals, merged and appended to bits.
#![tactic(auto)]

pub mod eight_words;
