//! The tables that parameters may hold: initial weights, and an accumulator constant for each band.

use std::marker::Model;

/// The numbers Λ of a weight table, band after band, each band's in the order of its components.
#[derive(Drop)]
pub struct WeightTable {
    values: Vec<i32>,
}

impl Model for WeightTable {
    ghost use Rattle.std.specs.Prelude.{List, ℤ};

    ghost Value = { List ℤ };

    ghost view = { λ t. t.values.items };
}

impl WeightTable {
    ghost use Rattle.std.specs.Prelude.{◌≡◌};

    /// Returns the table of these numbers, in its order.
    pub fn new(values: Vec<i32>) -> WeightTable
        ensures { result ≡ values.items }
    {
        WeightTable { values }
    }

    /// Returns the numbers, in the table's order.
    pub fn as_slice(&self) -> &[i32]
        ensures { result.now ≡ self.now }
    {
        &self.values
    }

    /// Returns the numbers, in the table's order, as a `Vec`.
    pub fn into_vec(self) -> Vec<i32>
        ensures { result.items ≡ self }
    {
        self.values
    }
}

/// The accumulator constants of an accumulator table, one for each band.
#[derive(Drop)]
pub struct ConstantTable {
    constants: Vec<u8>,
}

impl Model for ConstantTable {
    ghost use Rattle.std.specs.Prelude.{List, ℕ};

    ghost Value = { List ℕ };

    ghost view = { λ t. t.constants.items };
}

impl ConstantTable {
    ghost use Rattle.std.specs.Prelude.{◌≡◌};

    /// Returns the table of these constants, in band order.
    pub fn new(constants: Vec<u8>) -> ConstantTable
        ensures { result ≡ constants.items }
    {
        ConstantTable { constants }
    }

    /// Returns the constants, in band order.
    pub fn as_slice(&self) -> &[u8]
        ensures { result.now ≡ self.now }
    {
        &self.constants
    }

    /// Returns the constants, in band order, as a `Vec`.
    pub fn into_vec(self) -> Vec<u8>
        ensures { result.items ≡ self }
    {
        self.constants
    }
}
