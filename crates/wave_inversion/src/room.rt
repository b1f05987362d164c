//! Room for a wavefront.

use crate::found::Found;
use crate::lower::LowerRows;
use band_lanes::pairs::{MOST_PAIRS, Pairs};

/// The weights of eight bands, in rows of pairs.
#[derive(Clone, Copy)]
pub(crate) struct WeightRows {
    pub rows: [[i16; 16]; MOST_PAIRS],
}

/// Room for lines of eight bands, which are turned into rows: their offsets, those in the row above, and their central differences.
#[derive(Clone, Copy)]
pub(crate) struct LineRoom {
    pub numbers: [[i16; 64]; 8],
    pub above: [[i16; 64]; 8],
    pub centrals: [[i16; 64]; 8],
}

impl LineRoom {
    /// Returns an empty room.
    pub(crate) fn new() -> LineRoom {
        LineRoom {
            numbers: [[0; 64]; 8],
            above: [[0; 64]; 8],
            centrals: [[0; 64]; 8],
        }
    }
}

/// Room for a piece of a row of eight bands, and for what is known of the bands below them.
///
/// It takes some 29 KB, so it is made once and used for one piece after another. What it holds between them has no meaning.
#[derive(Clone, Copy)]
pub(crate) struct WaveRoom {
    pub lines: LineRoom,
    pub numbers: [[i16; 8]; 64],
    pub above: [[i16; 8]; 64],
    pub lower: LowerRows,
    pub own: [[i16; 8]; 64],
    pub pairs: [Pairs; MOST_PAIRS],
    pub weights: [[i16; 16]; MOST_PAIRS],
    pub ends: [WeightRows; 8],
    pub found: Found,
}

impl WaveRoom {
    /// Returns an empty room.
    pub(crate) fn new() -> WaveRoom {
        WaveRoom {
            lines: LineRoom::new(),
            numbers: [[0; 8]; 64],
            above: [[0; 8]; 64],
            lower: LowerRows::new(),
            own: [[0; 8]; 64],
            pairs: [Pairs {
                places: [[0; 16]; 64],
            }; MOST_PAIRS],
            weights: [[0; 16]; MOST_PAIRS],
            ends: [WeightRows {
                rows: [[0; 16]; MOST_PAIRS],
            }; 8],
            found: Found::new(),
        }
    }
}
