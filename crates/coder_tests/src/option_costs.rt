//! A test of how many bits a block costs under each option.

use crate::checks::same;
use block_adaptive::choice::option_cost;
use block_adaptive::options::{Choice, CodeSet};

/// The whole set of options, for values of eight bits.
const SET: CodeSet = CodeSet {
    bits: 8,
    restricted: false,
};

/// A block of one value and seven zeros.
const BLOCK: [u16; 8] = [144, 0, 0, 0, 0, 0, 0, 0];

#[test]
fn a_block_costs_its_bits_under_each_option(rt: HostRuntime) {
    same(&rt, option_cost(&SET, &BLOCK, Choice::Uncoded), 67);
    same(&rt, option_cost(&SET, &BLOCK, Choice::Second), 10_448);
    same(&rt, option_cost(&SET, &BLOCK, Choice::Split(0)), 155);
    same(&rt, option_cost(&SET, &BLOCK, Choice::Split(3)), 53);
    same(&rt, option_cost(&SET, &BLOCK, Choice::Split(4)), 52);
    same(&rt, option_cost(&SET, &BLOCK, Choice::Split(5)), 55);
}
