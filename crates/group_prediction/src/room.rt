//! Room for what a piece of eight bands needs.

use crate::band_lines::BandLines;
use crate::long::room::LongRoom;
use crate::pairs::Scratch;
use band_lanes::pairs::{MOST_PAIRS, Pairs, Turned};
use predict_core::run::PIECE;
use sample_prediction::predictor::MOST_COMPONENTS;

/// Room for what is computed of a piece of eight bands.
///
/// It takes some 110 KB, so it is made once and used for one piece after another. What it holds between them has no meaning.
#[derive(Clone, Copy)]
pub struct GroupRoom {
    pub(crate) bands: [BandLines; 8],
    pub(crate) scratch: Scratch,
    pub(crate) pairs: [Pairs; MOST_PAIRS],
    pub(crate) own: [[i16; 8]; PIECE],
    pub(crate) weights: [[i16; 16]; MOST_PAIRS],
    pub(crate) rows: [[i16; 8]; PIECE],
    pub(crate) parts: [[i16; PIECE]; 8],
    pub(crate) long: LongRoom,
}

impl GroupRoom {
    /// Returns an empty room.
    pub fn new() -> GroupRoom {
        let lines = BandLines {
            band: 0,
            sums: [0; PIECE],
            own: [0; PIECE],
            components: [[0; PIECE]; MOST_COMPONENTS],
        };
        let scratch = Scratch {
            first: [[0; PIECE]; 8],
            second: [[0; PIECE]; 8],
            turned: Turned {
                even: [[0; 8]; PIECE],
                odd: [[0; 8]; PIECE],
            },
        };
        GroupRoom {
            bands: [lines; 8],
            scratch,
            pairs: [Pairs {
                places: [[0; 16]; PIECE],
            }; MOST_PAIRS],
            own: [[0; 8]; PIECE],
            weights: [[0; 16]; MOST_PAIRS],
            rows: [[0; 8]; PIECE],
            parts: [[0; PIECE]; 8],
            long: LongRoom::new(),
        }
    }
}
