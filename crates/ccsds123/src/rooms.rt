//! Bytes written to a room of the caller's.

ghost use Rattle.std.specs.Prelude.{◌≡◌, ◌<◌, length, IfErr, OnOk};
ghost use Rattle.ccsds123.specs.declared.refusal.Refusal.TheVariants.{Room as IsTooSmall};
ghost use Rattle.ccsds123.specs.Header.{fronted};

use crate::refusal::{Refusal, Room};

/// Writes bytes to the front of a room and stores their number, or refuses a room that is too small.
pub fn put_bytes(
    room: Room,
    bytes: &[u8],
    target: &mut [u8],
    count: &mut u64,
) -> Result<(), Refusal>
    ensures put { OnOk result ((target.new ≡ fronted bytes.now target.old) × (count.new ≡ length bytes.now)) }
    ensures refused { IfErr result (λ e. (e ≡ IsTooSmall room (length bytes.now) (length target.old)) × (length target.old < length bytes.now)
        × (target.new ≡ target.old) × (count.new ≡ count.old)) }
{
    if target.len() < bytes.len() {
        let wanted = bytes.len() as u64;
        let had = target.len() as u64;
        return Err(Refusal::Room { room, wanted, had });
    }
    target[..bytes.len()].copy_from_slice(bytes);
    *count = bytes.len() as u64;
    Ok(())
}
