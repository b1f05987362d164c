//! How a table lies in a header: numbers of the same number of bits each, then zeros up to a whole byte.

ghost use Rattle.std.specs.Prelude.{◌≡◌, ◌+◌, ◌*◌, ◌^◌, ◌<◌, ◌≤◌, ◌++◌, length, take, drop};
ghost use Rattle.header_bits.specs.Bits.{bits_of, number_of};
ghost use Rattle.header_bits.specs.Layout.{total};
ghost use Rattle.header_bits.specs.Parts.{reserved_test};
ghost use Rattle.header_bits.specs.TableParts.{fill_of, table_fields};

use crate::bit_reader::BitReader;
use crate::bit_writer::BitWriter;
use crate::refusal::check_reserved;
use cube_core::fault::Fault;

/// Returns the number of bits of a table's numbers, without the zeros after them.
pub(crate) fn number_bits(count: usize, bits: u32) -> u64
    requires count { count ≤ 2 ^ 21 }
    requires bits { bits ≤ 22 }
    ensures value { result ≡ count * bits }
    ensures most { result ≤ 2 ^ 26 }
{
    count as u64 * u64::from(bits)
}

/// Returns the number of bits of a table in all.
pub(crate) fn table_bits(count: usize, bits: u32) -> u64
    requires count { count ≤ 2 ^ 21 }
    requires bits { bits ≤ 22 }
    ensures total { result ≡ total (table_fields count bits) }
    ensures most { result < 2 ^ 27 }
{
    let numbers = number_bits(count, bits);
    numbers + u64::from(fill_of(numbers))
}

/// Returns how many zeros fill this many bits up to a whole byte.
pub(crate) fn fill_of(bits: u64) -> u32
    ensures value { result ≡ fill_of bits }
    ensures few { result < 8 }
{
    ((8 - bits % 8) % 8) as u32
}

/// Takes the fill bits after the numbers of a table, and refuses the first of them that is one; `at` is the position of the
/// first fill bit.
pub(crate) fn pass_fill(at: u64, fill: u32, reader: &mut BitReader) -> Result<(), Fault>
    requires early { at < 2 ^ 32 }
    requires few { fill < 8 }
    requires whole { fill ≤ length reader.old.left }
    ensures test { result ≡ reserved_test at fill (number_of (take fill reader.old.left)) }
    ensures left { reader.new.left ≡ drop fill reader.old.left }
{
    let zeros = reader.take(fill).unwrap();
    check_reserved(at, fill, zeros as u32)
}

/// Appends the zeros that fill `bits` bits up to a whole byte. There is room for them.
pub(crate) fn put_fill(bits: u64, writer: &mut BitWriter)
    requires room { fill_of bits ≤ writer.old.room }
    ensures bits { writer.new.bits ≡ writer.old.bits ++ bits_of (fill_of bits) 0 }
    ensures room { writer.old.room ≤ writer.new.room + fill_of bits }
    ensures still { writer.new.room ≤ writer.old.room }
{
    writer.push(0, fill_of(bits)).unwrap();
}
