//! Pieces of a row of samples, which lie evenly spaced in raw bytes, read and written.

ghost use Rattle.std.specs.Prelude.{ℕ, ℤ, ◌≡◌, ◌≢◌, ◌⊎◌, ◌↔◌, ◌*◌, ◌+◌, ◌<◌, ◌≤◌, ◌^◌, IsTrue, length, slice_index};
ghost use Rattle.cube_core.specs.Kind.{sample_of};
ghost use Rattle.cube_core.specs.Layout.{IsLayout, HasBytes, raw_number, raw_code, bytes_at, sample_bytes};
ghost use Rattle.cube_core.specs.Scale.{StandsFor, SpellOffset};

use crate::layout::Layout;
use crate::part::Piece;
use crate::scale::Scale;
use byteorder::{BigEndian, ByteOrder, LittleEndian};

/// How many pixels are processed at once under interleaving by pixel, so that their bytes stay in the cache.
pub(crate) const BLOCK: u64 = 32;

/// Reads the samples of a piece, writes their offsets, and returns whether all of them are of the kind.
pub(crate) fn read_piece(
    layout: Layout,
    scale: &Scale,
    piece: Piece,
    bytes: &[u8],
    offsets: &mut [u16],
) -> bool
    requires layout { IsLayout layout }
    requires scale { scale.now.bytes ≡ layout.bytes }
    requires small { length bytes.now ≤ 2 ^ 49 }
    requires there { (x : ℕ) → x < piece.count → (piece.first + x * piece.step + 1) * layout.bytes ≤ length bytes.now }
    requires room { piece.at + piece.count ≤ length offsets.old }
    ensures taken { (x : ℕ) → x < piece.count
        → StandsFor scale.now.kind layout bytes.now (piece.first + x * piece.step) (slice_index offsets.new (piece.at + x)) }
    ensures others { (j : ℕ) → (j < piece.at) ⊎ (piece.at + piece.count ≤ j) → slice_index offsets.new j ≡ slice_index offsets.old j }
    ensures good { IsTrue result ↔ ((x : ℕ) → x < piece.count → slice_index offsets.new (piece.at + x) < 2 ^ scale.now.kind.bits) }
{
    if layout.bytes == 1 {
        read_numbers::<1, false>(layout, scale, piece, bytes, offsets)
    } else if layout.little {
        read_numbers::<2, true>(layout, scale, piece, bytes, offsets)
    } else {
        read_numbers::<2, false>(layout, scale, piece, bytes, offsets)
    }
}

/// `read_piece` with the number of bytes, and which of them is first, known at compile time.
fn read_numbers<const BYTES: u32, const LITTLE: bool>(
    layout: Layout,
    scale: &Scale,
    piece: Piece,
    bytes: &[u8],
    offsets: &mut [u16],
) -> bool
    requires width { (BYTES ≡ 1) ⊎ (BYTES ≡ 2) }
    requires form { layout.bytes ≡ BYTES }
    requires end { BYTES ≡ 2 → layout.little ≡ LITTLE }
    requires scale { scale.now.bytes ≡ BYTES }
    requires small { length bytes.now ≤ 2 ^ 49 }
    requires there { (x : ℕ) → x < piece.count → (piece.first + x * piece.step + 1) * BYTES ≤ length bytes.now }
    requires room { piece.at + piece.count ≤ length offsets.old }
    ensures taken { (x : ℕ) → x < piece.count
        → StandsFor scale.now.kind layout bytes.now (piece.first + x * piece.step) (slice_index offsets.new (piece.at + x)) }
    ensures others { (j : ℕ) → (j < piece.at) ⊎ (piece.at + piece.count ≤ j) → slice_index offsets.new j ≡ slice_index offsets.old j }
    ensures good { IsTrue result ↔ ((x : ℕ) → x < piece.count → slice_index offsets.new (piece.at + x) < 2 ^ scale.now.kind.bits) }
{
    let mut greatest = 0;
    for x in 0..piece.count {
        let number = number_at::<BYTES, LITTLE>(layout, bytes, piece.first + x * piece.step);
        let offset = scale.offset::<BYTES>(number);
        offsets[piece.at + x] = offset;
        greatest = offset.max(greatest);
    }
    scale.has(greatest)
}

/// Returns the i-th number of raw bytes.
fn number_at<const BYTES: u32, const LITTLE: bool>(layout: Layout, bytes: &[u8], i: usize) -> u16
    requires width { (BYTES ≡ 1) ⊎ (BYTES ≡ 2) }
    requires form { layout.bytes ≡ BYTES }
    requires end { BYTES ≡ 2 → layout.little ≡ LITTLE }
    requires small { length bytes.now ≤ 2 ^ 49 }
    requires there { (i + 1) * BYTES ≤ length bytes.now }
    ensures value { result ≡ raw_number layout (bytes_at layout bytes.now i) }
    ensures below { result < 2 ^ (8 * BYTES) }
{
    if BYTES == 1 {
        u16::from(bytes[i])
    } else if LITTLE {
        LittleEndian::read_u16(&bytes[2 * i..])
    } else {
        BigEndian::read_u16(&bytes[2 * i..])
    }
}

/// Writes the raw numbers of a piece's samples, and returns whether all of them fit in their bytes.
pub(crate) fn write_piece(
    layout: Layout,
    scale: &Scale,
    piece: Piece,
    offsets: &[u16],
    bytes: &mut [u8],
) -> bool
    requires layout { IsLayout layout }
    requires scale { scale.now.bytes ≡ layout.bytes }
    requires apart { 1 ≤ piece.step }
    requires small { length bytes.old ≤ 2 ^ 49 }
    requires there { (x : ℕ) → x < piece.count → (piece.first + x * piece.step + 1) * layout.bytes ≤ length bytes.old }
    requires room { piece.at + piece.count ≤ length offsets.now }
    requires range { (x : ℕ) → x < piece.count → slice_index offsets.now (piece.at + x) < 2 ^ scale.now.kind.bits }
    ensures given { (x : ℕ) → x < piece.count
        → SpellOffset scale.now.kind layout (slice_index offsets.now (piece.at + x)) (bytes_at layout bytes.new (piece.first + x * piece.step)) }
    ensures others { (i : ℕ) → ((x : ℕ) → x < piece.count → i ≢ piece.first + x * piece.step) → bytes_at layout bytes.new i ≡ bytes_at layout bytes.old i }
    ensures good { IsTrue result ↔ ((x : ℕ) → x < piece.count
        → HasBytes scale.now.kind layout (sample_of scale.now.kind (slice_index offsets.now (piece.at + x)))) }
{
    if layout.bytes == 1 {
        write_numbers::<1, false>(layout, scale, piece, offsets, bytes)
    } else if layout.little {
        write_numbers::<2, true>(layout, scale, piece, offsets, bytes)
    } else {
        write_numbers::<2, false>(layout, scale, piece, offsets, bytes)
    }
}

/// `write_piece` with the number of bytes, and which of them is first, known at compile time.
fn write_numbers<const BYTES: u32, const LITTLE: bool>(
    layout: Layout,
    scale: &Scale,
    piece: Piece,
    offsets: &[u16],
    bytes: &mut [u8],
) -> bool
    requires width { (BYTES ≡ 1) ⊎ (BYTES ≡ 2) }
    requires form { layout.bytes ≡ BYTES }
    requires end { BYTES ≡ 2 → layout.little ≡ LITTLE }
    requires scale { scale.now.bytes ≡ BYTES }
    requires apart { 1 ≤ piece.step }
    requires small { length bytes.old ≤ 2 ^ 49 }
    requires there { (x : ℕ) → x < piece.count → (piece.first + x * piece.step + 1) * BYTES ≤ length bytes.old }
    requires room { piece.at + piece.count ≤ length offsets.now }
    requires range { (x : ℕ) → x < piece.count → slice_index offsets.now (piece.at + x) < 2 ^ scale.now.kind.bits }
    ensures given { (x : ℕ) → x < piece.count
        → SpellOffset scale.now.kind layout (slice_index offsets.now (piece.at + x)) (bytes_at layout bytes.new (piece.first + x * piece.step)) }
    ensures others { (i : ℕ) → ((x : ℕ) → x < piece.count → i ≢ piece.first + x * piece.step) → bytes_at layout bytes.new i ≡ bytes_at layout bytes.old i }
    ensures good { IsTrue result ↔ ((x : ℕ) → x < piece.count
        → HasBytes scale.now.kind layout (sample_of scale.now.kind (slice_index offsets.now (piece.at + x)))) }
{
    let mut greatest = 0;
    for x in 0..piece.count {
        let rebased = scale.rebased(offsets[piece.at + x]);
        greatest = rebased.max(greatest);
        let number = scale.number::<BYTES>(rebased);
        put_number::<BYTES, LITTLE>(layout, bytes, piece.first + x * piece.step, number);
    }
    scale.spells::<BYTES>(greatest)
}

/// Writes the i-th number of raw bytes.
fn put_number<const BYTES: u32, const LITTLE: bool>(
    layout: Layout,
    bytes: &mut [u8],
    i: usize,
    number: u16,
)
    requires width { (BYTES ≡ 1) ⊎ (BYTES ≡ 2) }
    requires form { layout.bytes ≡ BYTES }
    requires end { BYTES ≡ 2 → layout.little ≡ LITTLE }
    requires small { length bytes.old ≤ 2 ^ 49 }
    requires there { (i + 1) * BYTES ≤ length bytes.old }
    requires number { number < 2 ^ (8 * BYTES) }
    ensures there { (v : ℤ) → raw_code layout.bytes v ≡ number → bytes_at layout bytes.new i ≡ sample_bytes layout v }
    ensures others { (j : ℕ) → j ≢ i → bytes_at layout bytes.new j ≡ bytes_at layout bytes.old j }
{
    if BYTES == 1 {
        bytes[i] = number as u8;
    } else if LITTLE {
        LittleEndian::write_u16(&mut bytes[2 * i..2 * i + 2], number);
    } else {
        BigEndian::write_u16(&mut bytes[2 * i..2 * i + 2], number);
    }
}
