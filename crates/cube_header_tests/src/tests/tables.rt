//! Tests that weight tables and accumulator tables return the numbers that they were made from.

use crate::tests::checks::same;
use header_bits::tables::{ConstantTable, WeightTable};

#[test]
fn weights_are_returned(rt: HostRuntime) {
    let weights = Vec::from_array(rt.alloc(), [-4, 3]).expect(&rt, "memory");
    let table = WeightTable::new(weights);
    same(&rt, table.as_slice(), [-4, 3].as_slice());
    same(&rt, table.into_vec().as_slice(), [-4, 3].as_slice());
}

#[test]
fn constants_are_returned(rt: HostRuntime) {
    let constants = Vec::from_array(rt.alloc(), [0, 14]).expect(&rt, "memory");
    let table = ConstantTable::new(constants);
    same(&rt, table.as_slice(), [0, 14].as_slice());
    same(&rt, table.into_vec().as_slice(), [0, 14].as_slice());
}
