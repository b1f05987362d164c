//! Writing bits to the end of growing bytes.

ghost use Rattle.std.specs.Prelude.{◌≡◌, ◌+◌, ◌-◌, ◌*◌, ◌%◌, ◌^◌, ◌<◌, ◌≤◌, ◌++◌, [], length, max, min, vec_len, vec_capacity, IsOk, IsTrue, IfErr, OnOk};
ghost use Rattle.std.specs.Prelude.{OnErr};
ghost use Rattle.cube_core.specs.declared.fault.Fault.TheVariants.{WantOfMemory};
ghost use Rattle.header_bits.specs.Bits.{bits_of, bits_of_bytes};

use crate::written_bytes::{append_part, append_word, grow, ready_after};
use cube_core::fault::Fault;
use std::alloc::Global;
use std::marker::Model;

/// The greatest number of bits that a writer holds.
const MOST_BITS: u64 = 1 << 63;

/// A writer that appends bits one number after another, the most significant bit of each first.
///
/// Contracts see its bits, and its room: how many more bits fit in the memory that it has.
#[derive(Drop)]
pub struct BitWriter {
    /// The full words.
    bytes: Vec<u8>,
    /// Its `held` lowest bits follow the full words; the bits above those are unspecified.
    part: u64,
    held: u32,
    /// 64 where there is known to be memory for two words after the full ones, else 0.
    ready: u32,
}

impl Model for BitWriter {
    ghost use Rattle.std.specs.Prelude.{◌+◌, ◌-◌, ◌*◌, ◌^◌, ◌<◌, ◌≤◌, ◌++◌, min, vec_len, vec_capacity};
    ghost use Rattle.header_bits.specs.Bits.{bits_of, bits_of_bytes, Written};

    ghost Value = { Written };

    ghost view = { λ a. record {
      bits = bits_of_bytes a.bytes.items ++ bits_of a.held a.part;
      room = min (8 * vec_capacity a.bytes) (2 ^ 63) - (8 * vec_len a.bytes + a.held);
    } };

    ghost invariant = { λ a. (a.held < 64) × (8 * vec_len a.bytes + a.held ≤ 8 * vec_capacity a.bytes) × (8 * vec_len a.bytes + a.held ≤ 2 ^ 63)
        × (a.ready ≤ 64) × (8 * vec_len a.bytes + 2 * a.ready ≤ 8 * vec_capacity a.bytes) × (8 * vec_len a.bytes + 2 * a.ready ≤ 2 ^ 63) };
}

impl BitWriter {
    /// Returns a writer without bits, and without memory for any.
    pub fn new(alloc: Global) -> BitWriter
        ensures bits { result.bits ≡ [] }
        ensures room { result.room ≡ 0 }
    {
        BitWriter {
            bytes: Vec::new(alloc),
            part: 0,
            held: 0,
            ready: 0,
        }
    }

    /// Returns how many bits were pushed: at most 2^63.
    pub fn bit_count(&self) -> u64
        ensures count { result ≡ length self.now.bits }
        ensures most { result ≤ 2 ^ 63 }
    {
        self.bytes.len() as u64 * 8 + u64::from(self.held)
    }

    /// Reserves room for `bits` more bits, so that pushes of them succeed. The bits written so far stay,
    /// whatever is returned.
    ///
    /// Where there is less room, it grows to these bits, filled up to whole bytes, or to as many bits as are written
    /// if these are more, and no further; else it stays as it is. Returns `WantOfMemory` if the allocation fails, or if there would be more than 2^63 bits.
    #[inline]
    pub fn reserve(&mut self, bits: u64) -> Result<(), Fault>
        ensures same { self.new.bits ≡ self.old.bits }
        ensures kept { self.old.room ≤ self.new.room }
        ensures room { OnOk result (bits ≤ self.new.room) }
        ensures bounded { self.new.room ≤ max self.old.room (max (bits + 7) (length self.old.bits)) }
        ensures still { bits ≤ self.old.room → self.new.room ≡ self.old.room }
        ensures failed { OnErr result (self.new.room ≡ self.old.room) }
        ensures within { bits ≤ self.old.room → IsOk result }
        ensures refused { IfErr result (λ e. e ≡ WantOfMemory) }
    {
        if self.has_room(bits) {
            return Ok(());
        }
        self.grow_by(bits)
    }

    /// Returns whether there is room for `bits` more bits.
    #[inline(always)]
    fn has_room(&self, bits: u64) -> bool
        ensures { IsTrue result → bits ≤ self.now.room }
    {
        let free = self.bytes.capacity() - self.bytes.len();
        bits <= MOST_BITS - self.bit_count() && (u64::from(self.held) + bits + 7) / 8 <= free as u64
    }

    /// `reserve`, apart from the loops that reserve room block by block or run by run.
    #[inline(never)]
    fn grow_by(&mut self, bits: u64) -> Result<(), Fault>
        ensures same { self.new.bits ≡ self.old.bits }
        ensures kept { self.old.room ≤ self.new.room }
        ensures room { OnOk result (bits ≤ self.new.room) }
        ensures bounded { self.new.room ≤ max self.old.room (max (bits + 7) (length self.old.bits)) }
        ensures still { bits ≤ self.old.room → self.new.room ≡ self.old.room }
        ensures failed { OnErr result (self.new.room ≡ self.old.room) }
        ensures within { bits ≤ self.old.room → IsOk result }
        ensures refused { IfErr result (λ e. e ≡ WantOfMemory) }
    {
        if bits > MOST_BITS - self.bit_count() {
            return Err(Fault::WantOfMemory);
        }
        let more = (u64::from(self.held) + bits + 7) / 8;
        grow(&mut self.bytes, more as usize)?;
        self.ready = ready_after(&self.bytes);
        Ok(())
    }

    /// Appends a number as `n` bits, the most significant first.
    ///
    /// `n` is at most 64, and the number below 2^n. A push within the room succeeds and allocates nothing; another allocates
    /// no more than `reserve` would. Returns `WantOfMemory` if an allocation fails, or if there would be more than 2^63 bits; the
    /// bits are then as before, and the room is no smaller.
    #[inline(always)]
    pub fn push(&mut self, bits: u64, n: u32) -> Result<(), Fault>
        requires few { n ≤ 64 }
        requires below { bits < 2 ^ n }
        ensures appended { OnOk result (self.new.bits ≡ self.old.bits ++ bits_of n bits) }
        ensures same { OnErr result (self.new.bits ≡ self.old.bits) }
        ensures kept { OnErr result (self.old.room ≤ self.new.room) }
        ensures within { n ≤ self.old.room → IsOk result }
        ensures room { OnOk result (self.old.room ≤ self.new.room + n) }
        ensures bounded { self.new.room ≤ max self.old.room (max (n + 7) (length self.old.bits)) }
        ensures still { n ≤ self.old.room → self.new.room + n ≡ self.old.room }
        ensures refused { IfErr result (λ e. e ≡ WantOfMemory) }
    {
        if self.held + n < self.ready {
            // Most pushes come this way, so it is short.
            self.part = (self.part << n) | bits;
            self.held += n;
            return Ok(());
        }
        if self.ready < 64 && !self.has_reserved(n) {
            return Err(Fault::WantOfMemory);
        }
        self.push_reserved(bits, n);
        Ok(())
    }

    /// Reserves room for `bits` bits as `reserve` does, and returns whether it is there. Unlike a `Result`, the
    /// answer needs no memory in the loops that push.
    #[inline(never)]
    fn has_reserved(&mut self, bits: u32) -> bool
        ensures same { self.new.bits ≡ self.old.bits }
        ensures kept { self.old.room ≤ self.new.room }
        ensures room { IsTrue result → bits ≤ self.new.room }
        ensures bounded { self.new.room ≤ max self.old.room (max (bits + 7) (length self.old.bits)) }
        ensures still { bits ≤ self.old.room → self.new.room ≡ self.old.room }
        ensures within { bits ≤ self.old.room → IsTrue result }
    {
        self.reserve(u64::from(bits)).is_ok()
    }

    /// Appends a number as `n` bits, for which there is room: a push that can't fail.
    ///
    /// `n` is at most 64, and the number below 2^n.
    #[inline(always)]
    pub fn push_reserved(&mut self, bits: u64, n: u32)
        requires few { n ≤ 64 }
        requires below { bits < 2 ^ n }
        requires room { n ≤ self.old.room }
        ensures appended { self.new.bits ≡ self.old.bits ++ bits_of n bits }
        ensures room { self.old.room ≡ self.new.room + n }
    {
        let free = 64 - self.held;
        if n < free {
            self.part = (self.part << n) | bits;
            self.held += n;
        } else {
            let rest = n - free;
            let word = filled_word(self.part, self.held, bits >> rest);
            append_word(&mut self.bytes, word);
            self.part = bits;
            self.held = rest;
            self.ready = ready_after(&self.bytes);
        }
    }

    /// Returns the bytes, in the memory that the writer has. The number of bits is a multiple of 8. It allocates nothing.
    pub fn into_bytes(self) -> Vec<u8>
        requires { length self.bits % 8 ≡ 0 }
        ensures bytes { bits_of_bytes result.items ≡ self.bits }
        ensures memory { min (8 * vec_capacity result) (2 ^ 63) ≡ length self.bits + self.room }
    {
        let BitWriter {
            mut bytes,
            part,
            held,
            ..
        } = self;
        append_part(&mut bytes, part, held);
        bytes
    }
}

/// Returns the word of 64 bits that consists of the `held` lowest bits of `part` and the bits that fill it.
///
/// `held` is below 64, and `bits` below 2^(64 - `held`). The other bits of `part` don't matter.
#[inline(always)]
pub fn filled_word(part: u64, held: u32, bits: u64) -> u64
    requires held { held < 64 }
    requires below { bits < 2 ^ (64 - held) }
    ensures { bits_of 64 result ≡ bits_of held part ++ bits_of (64 - held) bits }
{
    if held == 0 {
        bits
    } else {
        (part << (64 - held)) | bits
    }
}
