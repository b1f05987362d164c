//! Rows that have a component of each of four bands.

/// A component of four bands at each place of a piece.
#[derive(Clone, Copy)]
pub struct Rows {
    pub places: [[i32; 4]; 64],
}
