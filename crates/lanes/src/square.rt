//! Squares of eight rows of eight numbers without a sign, whose rows and columns are turned into one another.

ghost use Rattle.std.specs.Prelude.{◌≡◌, ◌<◌, ℕ};
ghost use Rattle.lanes.specs.Squares.{at, rows_of, first_numbers, last_numbers, mixed};

use std::simd::prelude::*;

/// Eight rows of eight numbers.
#[derive(Clone, Copy)]
pub struct Square {
    pub a: u16x8,
    pub b: u16x8,
    pub c: u16x8,
    pub d: u16x8,
    pub e: u16x8,
    pub f: u16x8,
    pub g: u16x8,
    pub h: u16x8,
}

impl Square {
    /// Returns the square whose rows are the columns of this one.
    ///
    /// The numbers of a row and a column have three bits each. Mixing rotates all six by one, so three times exchanges the two.
    #[inline(always)]
    pub fn turned(self) -> Square
        ensures { (i b : ℕ) → i < 8 → b < 8 → at (rows_of result) i b ≡ at (rows_of self) b i }
    {
        self.mixed().mixed().mixed()
    }

    /// Mixes the first four rows with the last four.
    #[inline(always)]
    fn mixed(self) -> Square
        ensures { rows_of result ≡ mixed (rows_of self) }
    {
        Square {
            a: first_numbers(self.a, self.e),
            b: last_numbers(self.a, self.e),
            c: first_numbers(self.b, self.f),
            d: last_numbers(self.b, self.f),
            e: first_numbers(self.c, self.g),
            f: last_numbers(self.c, self.g),
            g: first_numbers(self.d, self.h),
            h: last_numbers(self.d, self.h),
        }
    }
}

/// Puts the first four numbers of two rows side by side.
#[inline(always)]
fn first_numbers(a: u16x8, b: u16x8) -> u16x8
    ensures { result ≡ first_numbers a b }
{
    a.shuffle(b, [0, 8, 1, 9, 2, 10, 3, 11])
}

/// Puts the last four numbers of two rows side by side.
#[inline(always)]
fn last_numbers(a: u16x8, b: u16x8) -> u16x8
    ensures { result ≡ last_numbers a b }
{
    a.shuffle(b, [4, 12, 5, 13, 6, 14, 7, 15])
}
