//! The rows of an image that were handed over so far, as clauses know them.

ghost use Rattle.std.specs.Prelude.{◌≡◌, ℕ, List, [], ◌++◌};
ghost use base.Fml.{ftrue};

use std::marker::Model;

/// The samples that were handed over, row after row and in each row band after band, each as its offset from the least sample of
/// the kind.
///
/// Only clauses read them: a value takes no memory, and its functions do nothing at run time.
#[derive(Drop)]
pub struct HandedRows {
    pub ghost offsets: { List ℕ },
}

/// The samples of a row, band after band.
#[derive(Clone, Copy, Drop)]
struct HandedRow<'a> {
    offsets: &'a [u16],
}

impl Model for HandedRows {
    ghost also_owns = { λ _. ftrue };
}

impl HandedRows {
    /// Returns no rows.
    #[inline(always)]
    pub fn none() -> HandedRows
        ensures { result.offsets ≡ [] }
    {
        HandedRows {}
    }

    /// Returns these rows and one more.
    #[inline(always)]
    pub fn and(&self, row: &[u16]) -> HandedRows
        ensures { result.offsets ≡ self.now.offsets ++ row.now }
    {
        self.and_one(&HandedRow { offsets: row })
    }

    // The proof by hand is of this function alone.
    #[inline(always)]
    fn and_one(&self, _row: &HandedRow<'_>) -> HandedRows
        ensures { result.offsets ≡ self.now.offsets ++ _row.now.offsets.now }
    {
        HandedRows {}
    }
}
