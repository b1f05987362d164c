//! The bytes of a bit writer: how their memory grows, and how words are appended to them.

ghost use Rattle.std.specs.Prelude.{◌≡◌, ◌+◌, ◌*◌, ◌%◌, ◌^◌, ◌<◌, ◌≤◌, ◌++◌, max, vec_len, vec_capacity, IsOk, OnOk, OnErr};
ghost use Rattle.header_bits.specs.Bits.{bits_of, bits_of_bytes};

use core::mem::replace_with;
use std::alloc::AllocError;

/// Below this number of bytes, their memory doubles as it grows.
const DOUBLED: usize = 1 << 24;

/// A number of bytes that leaves two words below `MOST_BITS`.
const ROOMY: usize = 1 << 59;

/// Reserves room for `more` more bytes. Where there is less, it reserves for at least a step's, so that bytes that grow
/// bit by bit are seldom moved.
pub(crate) fn grow(bytes: &mut Vec<u8>, more: usize) -> Result<(), AllocError>
    ensures items { bytes.new.items ≡ bytes.old.items }
    ensures len { vec_len bytes.new ≡ vec_len bytes.old }
    ensures kept { vec_capacity bytes.old ≤ vec_capacity bytes.new }
    ensures room { OnOk result (vec_len bytes.new + more ≤ vec_capacity bytes.new) }
    ensures bounded { vec_capacity bytes.new ≤ max (vec_capacity bytes.old) (vec_len bytes.old + max more (vec_len bytes.old)) }
    ensures still { vec_len bytes.old + more ≤ vec_capacity bytes.old → vec_capacity bytes.new ≡ vec_capacity bytes.old }
    ensures failed { OnErr result (vec_capacity bytes.new ≡ vec_capacity bytes.old) }
    ensures within { vec_len bytes.old + more ≤ vec_capacity bytes.old → IsOk result }
{
    let len = bytes.len();
    if more <= bytes.capacity() - len {
        return Ok(());
    }
    bytes.reserve_exact(more.max(step_after(len)))
}

/// Returns by how many bytes the memory for `len` bytes grows: as many again, or an eighth of them where they are a large part
/// of a scene.
fn step_after(len: usize) -> usize
    ensures { result ≤ len }
{
    if len < DOUBLED { len } else { len / 8 }
}

/// Returns 64 where there is memory for two words after these bytes, and 0 where there may be less.
pub(crate) fn ready_after(bytes: &Vec<u8>) -> u32
    ensures most { result ≤ 64 }
    ensures room { 8 * vec_len bytes.now + 2 * result ≤ 8 * vec_capacity bytes.now }
    ensures within { 0 < result → 8 * vec_len bytes.now + 2 * result ≤ 2 ^ 63 }
{
    let len = bytes.len();
    if len < ROOMY && bytes.capacity() - len >= 16 {
        64
    } else {
        0
    }
}

/// Appends a word, for which there is room.
#[inline(always)]
pub(crate) fn append_word(bytes: &mut Vec<u8>, word: u64)
    requires room { vec_len bytes.old + 8 ≤ vec_capacity bytes.old }
    ensures bits { bits_of_bytes bytes.new.items ≡ bits_of_bytes bytes.old.items ++ bits_of 64 word }
    ensures len { vec_len bytes.new ≡ vec_len bytes.old + 8 }
    ensures capacity { vec_capacity bytes.new ≡ vec_capacity bytes.old }
{
    replace_with(bytes, word, with_word);
}

/// Returns bytes with a word after them, for which there is room.
///
/// They are passed by value, so that their address and length stay in registers and all eight bytes are stored at once. A call that may
/// grow them would keep a writer out of registers.
#[inline(always)]
fn with_word(bytes: Vec<u8>, word: u64) -> (Vec<u8>, ())
    requires room { vec_len bytes + 8 ≤ vec_capacity bytes }
    ensures bits { bits_of_bytes result.0.items ≡ bits_of_bytes bytes.items ++ bits_of 64 word }
    ensures len { vec_len result.0 ≡ vec_len bytes + 8 }
    ensures capacity { vec_capacity result.0 ≡ vec_capacity bytes }
{
    let mut bytes = bytes;
    let eight = word.to_be_bytes();
    for i in 0..eight.len() {
        bytes.push_reserved(eight[i]);
    }
    (bytes, ())
}

/// Appends the `held` lowest bits of a part, which are whole bytes and for which there is room.
pub(crate) fn append_part(bytes: &mut Vec<u8>, part: u64, held: u32)
    requires held { held < 64 }
    requires whole { held % 8 ≡ 0 }
    requires room { 8 * vec_len bytes.old + held ≤ 8 * vec_capacity bytes.old }
    ensures bits { bits_of_bytes bytes.new.items ≡ bits_of_bytes bytes.old.items ++ bits_of held part }
    ensures capacity { vec_capacity bytes.new ≡ vec_capacity bytes.old }
{
    if held > 0 {
        let word = (part << (64 - held)).to_be_bytes();
        for i in 0..(held / 8) as usize {
            bytes.push_reserved(word[i]);
        }
    }
}
