//! The residuals that the walk over a cube passes on, collected.

ghost use Rattle.speed.specs.Collecting.{Collects, collectings_are};

use file_encoding::taker::Taker;

/// The residuals that a walk has passed on so far, in order.
#[derive(Drop)]
pub struct Collected {
    pub residuals: Vec<u16>,
}

impl Taker for Collected {
    ghost may = { λ c list. Unit {0} };

    ghost takes = { λ old new all list. Collects old new all list };

    ghost laws = { collectings_are };

    /// Appends the residuals. Returns false if there is no memory for them.
    fn take(&mut self, residuals: &[u16]) -> bool {
        self.residuals.extend_from_slice(residuals).is_ok()
    }
}
