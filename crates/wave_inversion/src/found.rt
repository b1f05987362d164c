//! What a wavefront has found in a piece of a row.

use sample_prediction::predictor::MOST_COMPONENTS;

/// The offsets that eight lanes have found, step after step, and the weights of their bands where they end.
#[derive(Clone, Copy)]
pub(crate) struct Found {
    pub offsets: [[u16; 64]; 8],
    pub weights: [[i32; MOST_COMPONENTS]; 8],
}

impl Found {
    /// Returns room for what is found.
    pub(crate) fn new() -> Found {
        Found {
            offsets: [[0; 64]; 8],
            weights: [[0; MOST_COMPONENTS]; 8],
        }
    }
}
