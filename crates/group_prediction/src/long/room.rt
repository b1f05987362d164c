//! Room for what a piece of bands needs that go in lanes of 32 bits.

use crate::long::lines::LongLines;
use band_lanes::four::rows::Rows;
use predict_core::run::PIECE;
use sample_prediction::predictor::MOST_COMPONENTS;

/// Room for what is computed of a piece of four bands.
#[derive(Clone, Copy)]
pub(crate) struct FourRoom {
    pub components: [Rows; MOST_COMPONENTS],
    pub own: [[i32; 4]; PIECE],
    pub weights: [[i32; 4]; MOST_COMPONENTS],
    pub turned: [[i32; 4]; PIECE],
    pub parts: [[i32; PIECE]; 4],
}

/// Room for the lines of eight bands, and for what is computed of four of them at a time.
#[derive(Clone, Copy)]
pub(crate) struct LongRoom {
    pub lines: [LongLines; 8],
    pub four: FourRoom,
}

impl LongRoom {
    /// Returns an empty room.
    pub(crate) fn new() -> LongRoom {
        let lines = LongLines {
            band: 0,
            sums: [0; PIECE],
            own: [0; PIECE],
            components: [[0; PIECE]; MOST_COMPONENTS],
        };
        let four = FourRoom {
            components: [Rows {
                places: [[0; 4]; PIECE],
            }; MOST_COMPONENTS],
            own: [[0; 4]; PIECE],
            weights: [[0; 4]; MOST_COMPONENTS],
            turned: [[0; 4]; PIECE],
            parts: [[0; PIECE]; 4],
        };
        LongRoom {
            lines: [lines; 8],
            four,
        }
    }
}
