//! The description of a field of a header.

use crate::layout::Slot;

/// The numbers from a least to a greatest one.
#[derive(Clone, Copy)]
pub struct ValueRange {
    pub least: u32,
    pub most: u32,
}

/// A number.
#[derive(Clone, Copy)]
pub struct NumberField {
    /// Its name as an option of `compress`, or in `inspect`.
    pub name: &'static str,
    pub range: ValueRange,
    pub(crate) slot: Slot,
    /// How many fields of its part come before it.
    pub(crate) index: usize,
}

/// One bit.
#[derive(Clone, Copy)]
pub struct FlagField {
    /// Its name as an option of `compress`, or in `inspect`.
    pub name: &'static str,
    /// The name of 0.
    pub zero: &'static str,
    /// The name of 1.
    pub one: &'static str,
    pub(crate) slot: Slot,
    pub(crate) index: usize,
}

/// Bits that are zero.
#[derive(Clone, Copy)]
pub(crate) struct ReservedField {
    pub slot: Slot,
    pub index: usize,
}

/// The index of a field after another, or of the first.
macro_rules! index {
    (first) => {
        0
    };
    ($before:ident) => {
        $before.index + 1
    };
}

pub(crate) use index;

/// A number after another field: its name, its slot, and its least and greatest value.
macro_rules! number {
    ($before:ident, $name:literal, $slot:expr, $least:expr, $most:expr) => {
        NumberField {
            name: $name,
            range: ValueRange {
                least: $least,
                most: $most,
            },
            slot: $slot,
            index: index!($before),
        }
    };
}

pub(crate) use number;

/// A number that is written as it is, or as a code that its comment names, in so many bits: its name, and its least and greatest value.
macro_rules! plain {
    ($before:ident, $bits:literal, $name:literal, $least:expr, $most:expr) => {
        number!($before, $name, Slot::Plain($bits, 0), $least, $most)
    };
}

pub(crate) use plain;

/// A number that is written less its least value, in so many bits: its name, and its least and greatest value.
macro_rules! counted {
    ($before:ident, $bits:literal, $name:literal, $least:literal, $most:expr) => {
        number!($before, $name, Slot::Plain($bits, $least), $least, $most)
    };
}

pub(crate) use counted;

/// A number of so many bits, which are all zero where it is the power of two that doesn't fit in them: its
/// name, and its least value. That power is its greatest.
macro_rules! modulo {
    ($before:ident, $bits:literal, $name:literal, $least:literal) => {
        number!($before, $name, Slot::Modulo($bits), $least, 1 << $bits)
    };
}

pub(crate) use modulo;

/// One bit: its name, and the names of 0 and 1.
macro_rules! flag {
    ($before:ident, $name:literal, $zero:literal, $one:literal) => {
        FlagField {
            name: $name,
            zero: $zero,
            one: $one,
            slot: Slot::Plain(1, 0),
            index: index!($before),
        }
    };
}

pub(crate) use flag;

/// So many reserved bits.
macro_rules! reserved {
    ($before:ident, $bits:literal) => {
        ReservedField {
            slot: Slot::Reserved($bits),
            index: index!($before),
        }
    };
}

pub(crate) use reserved;

/// The slots of fields.
macro_rules! row {
    ($($field:ident),+) => {
        [$($crate::fields::$field.slot),+]
    };
}

pub(crate) use row;
