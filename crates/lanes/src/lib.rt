//! Steps of vectors: eight or sixteen numbers at once, each lane as if it stood alone.
//!
//! A contract speaks of one lane at a time: which number the step puts there, and, where that holds of some numbers only, of which.
//! Each step has the form in which clang finds the one or two instructions that do it, such as `pmaddwd` in `wide::pair_sums`,
//! `packssdw` in `wide::held` and `psubsw` in `narrow::held_difference`.
#![tactic(auto)]

pub mod eight;
pub mod four;
pub mod lines;
pub mod masks;
pub mod narrow;
pub mod square;
pub mod turn;
pub mod turn_four;
pub mod unsigned;
pub mod wide;
mod widths;
