//! Numbers that wait to be sent together.

ghost use Rattle.std.specs.Prelude.{◌≡◌, ◌+◌, ◌-◌, ◌^◌, ◌<◌, ◌≤◌, [], ◌∷◌, ◌++◌, length, drop, min, slice_index};

use std::marker::Model;

/// The greatest count of numbers that wait.
pub(crate) const MOST: usize = 8;

/// Numbers that wait, and how often a try to send each has failed. Contracts see the numbers, in order.
#[derive(Drop)]
pub(crate) struct Waiting {
    numbers: [u16; MOST],
    /// 0 where no number waits.
    turns: [u64; MOST],
    count: usize,
}

impl Model for Waiting {
    ghost use Rattle.std.specs.Prelude.{ℕ, List, ◌≤◌, take};

    ghost Value = { List ℕ };

    ghost view = { λ w. take w.count w.numbers };

    ghost invariant = { λ w. w.count ≤ 8 };
}

impl Waiting {
    /// Returns a list in which nothing waits.
    pub(crate) fn new() -> Waiting
        ensures { result ≡ [] }
    {
        Waiting {
            numbers: [0; MOST],
            turns: [0; MOST],
            count: 0,
        }
    }

    /// Returns how many numbers wait.
    #[inline(always)]
    pub(crate) fn count(&self) -> usize
        ensures value { result ≡ length self.now }
        ensures most { result ≤ 8 }
    {
        self.count
    }

    /// Returns the numbers.
    pub(crate) fn numbers(&self) -> &[u16]
        ensures { result.now ≡ self.now }
    {
        &self.numbers[..self.count]
    }

    /// Returns how often a try to send the number at an index has failed; `u64::MAX` stands for more, too.
    pub(crate) fn turn(&self, index: usize) -> u64
        requires { index < 8 }
    {
        self.turns[index]
    }

    /// Adds numbers after the others, which haven't been tried yet.
    #[inline(always)]
    pub(crate) fn push_all(&mut self, numbers: &[u16])
        requires { length self.old + length numbers.now ≤ 8 }
        ensures { self.new ≡ self.old ++ numbers.now }
    {
        let end = self.count + numbers.len();
        self.numbers[self.count..end].copy_from_slice(numbers);
        self.count = end;
    }

    /// Counts one more failed try for each number.
    pub(crate) fn come_back(&mut self)
        ensures { self.new ≡ self.old }
    {
        for turn in &mut self.turns[..self.count] {
            *turn = one_more(*turn);
        }
    }

    /// Counts one more failed try for the first number.
    pub(crate) fn first_comes_back(&mut self)
        ensures { self.new ≡ self.old }
    {
        self.turns[0] = one_more(self.turns[0]);
    }

    /// Removes the first number.
    pub(crate) fn drop_first(&mut self)
        requires { 0 < length self.old }
        ensures { self.new ≡ drop 1 self.old }
    {
        self.numbers.rotate_left(1);
        self.turns.rotate_left(1);
        self.turns[MOST - 1] = 0;
        self.count -= 1;
    }

    /// Removes all numbers.
    #[inline(always)]
    pub(crate) fn clear(&mut self)
        ensures { self.new ≡ [] }
    {
        self.turns = [0; MOST];
        self.count = 0;
    }
}

/// Returns a count that is one more, or stays at its greatest.
fn one_more(count: u64) -> u64
    ensures { result ≡ min (count + 1) (2 ^ 64 - 1) }
{
    count.saturating_add(1)
}
