//! The next bits of a reader, looked at once for several codes.

ghost use Rattle.std.specs.Prelude.{◌≡◌, ◌≤◌, ◌<◌, ◌^◌, ℕ, List, Bool, drop, IfSome};
ghost use Rattle.header_bits.specs.Bits.{fundamental};
ghost use Rattle.block_adaptive.specs.Ahead.{IsAhead, IsWord, Uses, used};

use header_bits::bit_reader::BitReader;

/// Bits that were looked at, and some of which aren't used yet.
#[derive(Clone, Copy, Drop)]
pub(crate) struct Ahead {
    /// How many bits were looked at.
    peeked: u32,
    /// How many of them, the last, aren't used yet.
    known: u32,
    /// A number whose lowest bits are those.
    word: u64,
}

/// Returns the next 57 bits, or none if fewer are left.
#[inline(always)]
#[tactic(auto, using(crate::proofs::Looking::looked_word, crate::proofs::Looking::looked_nowhere))]
pub(crate) fn look_ahead(reader: &BitReader) -> Ahead
    ensures ahead { IsAhead result reader.now.left }
    ensures word { IsWord result }
    ensures unused { used result ≡ 0 }
{
    match reader.peek() {
        Some(word) => Ahead {
            peeked: 57,
            known: 57,
            word: word >> 7,
        },
        None => Ahead {
            peeked: 0,
            known: 0,
            word: 0,
        },
    }
}

/// Takes the used bits from the reader.
#[inline(always)]
pub(crate) fn take_used(reader: &mut BitReader, ahead: Ahead)
    requires { IsAhead ahead reader.old.left }
    ensures left { reader.new.left ≡ drop (used ahead) reader.old.left }
    ensures count { reader.new.count ≡ reader.old.count }
{
    reader.skip(u64::from(ahead.peeked - ahead.known));
}

/// Returns the number of zeros of the fundamental sequence that comes next, and the bits after it, if it ends within the bits
/// ahead.
#[inline(always)]
pub(crate) fn code_ahead(ahead: Ahead) -> Option<(u16, Ahead)>
    requires { IsWord ahead }
    ensures { IfSome result (λ p. (p.0 ≤ 56) × IsWord p.1 × ((left : List Bool) → IsAhead ahead left → Uses ahead p.1 (fundamental p.0) left)) }
{
    if ahead.word == 0 {
        return None;
    }
    let known = 63 - ahead.word.leading_zeros();
    Some((
        (ahead.known - known - 1) as u16,
        Ahead {
            peeked: ahead.peeked,
            known,
            word: ahead.word ^ (1 << known),
        },
    ))
}
