//! Laws of the encoding order, and of raw bytes.

ghost use Rattle.cube_core.specs.Laws.{OrderIsByKey, ItemOfIndex, IndexOfItem, WideEnough};

/// The encoding order has each place once, by strictly increasing keys.
pub fn order_is_by_key()
    ensures { OrderIsByKey }
{}

/// The item at a place's index is the place.
pub fn item_of_index()
    ensures { ItemOfIndex }
{}

/// The index of the i-th item is i.
pub fn index_of_item()
    ensures { IndexOfItem }
{}

/// Two bytes hold any sample, and one byte holds any of at most eight bits.
pub fn wide_enough()
    ensures { WideEnough }
{}
