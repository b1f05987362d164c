//! Laws of lanes.

ghost use Rattle.band_rings.specs.Lane.{ReceivedIsPrefix, EachLaneIsReached};

/// What was received is a prefix of what was sent, whatever the two ends did and in whatever order.
pub fn received_is_prefix()
    ensures { ReceivedIsPrefix }
{}

/// Conversely, whatever was sent, and however much of it was received, steps of the two ends lead there.
pub fn each_lane_is_reached()
    ensures { EachLaneIsReached }
{}
