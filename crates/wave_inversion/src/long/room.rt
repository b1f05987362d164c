//! Room for a wavefront in lanes of 32 bits.

use crate::found::Found;
use crate::long::lower::LongLowerRows;
use band_lanes::pairs::MOST_PAIRS;

/// The weights of eight bands, in rows of pairs.
#[derive(Clone, Copy)]
pub(crate) struct LongWeightRows {
    pub rows: [[i32; 16]; MOST_PAIRS],
}

/// Room for lines of eight bands, which are turned into rows: their offsets, and those in the row above, in 16 bits without a sign.
#[derive(Clone, Copy)]
pub(crate) struct LongLineRoom {
    pub numbers: [[i16; 64]; 8],
    pub above: [[i16; 64]; 8],
}

impl LongLineRoom {
    /// Returns an empty room.
    pub(crate) fn new() -> LongLineRoom {
        LongLineRoom {
            numbers: [[0; 64]; 8],
            above: [[0; 64]; 8],
        }
    }
}

/// Room for a piece of a row of eight bands, and for what is known of the bands below them.
///
/// It takes some 23 KB, so it is made once and used for one piece after another. What it holds between them has no meaning.
#[derive(Clone, Copy)]
pub(crate) struct LongWaveRoom {
    pub lines: LongLineRoom,
    pub turned: [[i16; 8]; 64],
    pub numbers: [[i32; 8]; 64],
    pub above: [[i32; 8]; 64],
    pub lower: LongLowerRows,
    pub own: [[i32; 8]; 64],
    pub components: [[i32; 16]; MOST_PAIRS],
    pub weights: [[i32; 16]; MOST_PAIRS],
    pub ends: [LongWeightRows; 8],
    pub found: Found,
}

impl LongWaveRoom {
    /// Returns an empty room.
    pub(crate) fn new() -> LongWaveRoom {
        LongWaveRoom {
            lines: LongLineRoom::new(),
            turned: [[0; 8]; 64],
            numbers: [[0; 8]; 64],
            above: [[0; 8]; 64],
            lower: LongLowerRows::new(),
            own: [[0; 8]; 64],
            components: [[0; 16]; MOST_PAIRS],
            weights: [[0; 16]; MOST_PAIRS],
            ends: [LongWeightRows {
                rows: [[0; 16]; MOST_PAIRS],
            }; 8],
            found: Found::new(),
        }
    }
}
