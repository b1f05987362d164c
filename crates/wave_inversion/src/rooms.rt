//! Room for wavefronts in lanes of either width.

use crate::long::room::LongWaveRoom;
use crate::room::WaveRoom;

/// Room for a piece of a row of eight bands. It takes some 44 KB.
#[derive(Clone, Copy)]
pub(crate) struct WaveRooms {
    pub narrow: WaveRoom,
    pub long: LongWaveRoom,
}

impl WaveRooms {
    /// Returns an empty room.
    pub(crate) fn new() -> WaveRooms {
        WaveRooms {
            narrow: WaveRoom::new(),
            long: LongWaveRoom::new(),
        }
    }
}
