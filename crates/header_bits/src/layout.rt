//! A part of a header as a list of numbers, each in a slot of bits.

ghost use Rattle.std.specs.Prelude.{◌≡◌, ◌+◌, ◌^◌, ◌<◌, ◌≤◌, ◌++◌, length, drop, IsOk, IfErr, OnOk};
ghost use Rattle.cube_core.specs.declared.fault.Fault.TheVariants.{WantOfMemory};
ghost use Rattle.header_bits.specs.Layout.{width, value_of, code_of, IsValue, IsNarrow, AreNarrow, AreValues, spelled, values, total};

use crate::bit_reader::BitReader;
use crate::bit_writer::BitWriter;
use cube_core::fault::Fault;

/// The slot of a number: how many bits it has, and how they stand for the number.
#[derive(Clone, Copy)]
pub(crate) enum Slot {
    /// This many reserved bits, all zero.
    Reserved(u32),
    /// This many bits: the number less the second number, which is the least.
    Plain(u32, u32),
    /// This many bits; zero stands for the power of two that doesn't fit in them.
    Modulo(u32),
}

impl Slot {
    /// Returns the number of bits of the slot.
    pub(crate) fn width(self) -> u32
        ensures { result ≡ width self }
    {
        match self {
            Slot::Reserved(bits) => bits,
            Slot::Plain(bits, _) => bits,
            Slot::Modulo(bits) => bits,
        }
    }

    /// Returns the number that a code stands for.
    pub(crate) fn value(self, code: u64) -> u32
        requires narrow { IsNarrow self }
        requires below { code < 2 ^ width self }
        requires fits { value_of self code < 2 ^ 32 }
        ensures { result ≡ value_of self code }
    {
        match self {
            Slot::Reserved(_) => code as u32,
            Slot::Plain(_, least) => least + code as u32,
            Slot::Modulo(bits) => { if code == 0 { 1 << bits } else { code as u32 } }
        }
    }

    /// Returns the code that stands for a number.
    pub(crate) fn code(self, value: u32) -> u64
        requires narrow { IsNarrow self }
        requires value { IsValue self value }
        ensures code { result ≡ code_of self value }
        ensures below { result < 2 ^ width self }
    {
        match self {
            Slot::Reserved(_) => u64::from(value),
            Slot::Plain(_, least) => u64::from(value - least),
            Slot::Modulo(bits) => u64::from(value % (1 << bits)),
        }
    }
}

/// Returns the number of bits of all slots.
pub(crate) fn total_bits(slots: &[Slot]) -> u64
    requires narrow { AreNarrow slots.now }
    requires few { length slots.now ≤ 64 }
    ensures total { result ≡ total slots.now }
    ensures most { result ≤ 1024 }
{
    let mut bits = 0;
    for slot in slots {
        bits += u64::from(slot.width());
    }
    bits
}

/// Reads the numbers of a part, all of whose bits are there.
pub(crate) fn read_values(slots: &[Slot], reader: &mut BitReader, out: &mut [u32])
    requires narrow { AreNarrow slots.now }
    requires same { length out.old ≡ length slots.now }
    requires whole { total slots.now ≤ length reader.old.left }
    ensures values { out.new ≡ values slots.now reader.old.left }
    ensures left { reader.new.left ≡ drop (total slots.now) reader.old.left }
    ensures count { reader.new.count ≡ reader.old.count }
{
    for i in 0..slots.len() {
        let slot = slots[i];
        let code = reader.take(slot.width()).unwrap();
        out[i] = slot.value(code);
    }
}

/// Writes the numbers of a part. It succeeds within the writer's room.
pub(crate) fn write_values(
    slots: &[Slot],
    values: &[u32],
    writer: &mut BitWriter,
) -> Result<(), Fault>
    requires narrow { AreNarrow slots.now }
    requires same { length values.now ≡ length slots.now }
    requires values { AreValues slots.now values.now }
    ensures bits { OnOk result (writer.new.bits ≡ writer.old.bits ++ spelled slots.now values.now) }
    ensures within { total slots.now ≤ writer.old.room → IsOk result }
    ensures room { OnOk result (writer.old.room ≤ writer.new.room + total slots.now) }
    ensures still { OnOk result (total slots.now ≤ writer.old.room → writer.new.room ≤ writer.old.room) }
    ensures refused { IfErr result (λ e. e ≡ WantOfMemory) }
{
    for i in 0..slots.len() {
        let slot = slots[i];
        writer.push(slot.code(values[i]), slot.width())?;
    }
    Ok(())
}
