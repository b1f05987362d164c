//! Writing all bytes to a sink.

ghost use Rattle.std.specs.Prelude.{◌≡◌, ◌+◌, ◌<◌, ◌≤◌, ◌^◌, length, OnOk, IfErr};
ghost use Rattle.command_devices.specs.Devices.{Took};
ghost use Rattle.command_devices.specs.Writing.{IsCutAfter, IsCutShort};

use crate::sink::Sink;
use cube_core::fault::Fault;

/// Writes all bytes to the sink, whose failures and stalls are then as many as before.
///
/// Returns `Write` with the number of bytes that went out, if the sink fails or takes nothing of a piece.
pub fn write_all<K: Sink>(sink: &mut K, bytes: &[u8]) -> Result<(), Fault>
    ensures whole { OnOk result (Took (K.taken sink.old) (K.taken sink.new) bytes.now) }
    ensures worked { OnOk result ((K.failures sink.new ≡ K.failures sink.old) × (K.stalls sink.new ≡ K.stalls sink.old)) }
    ensures cut { IfErr result (IsCutShort (K.taken sink.old) (K.taken sink.new) (K.failures sink.old) (K.failures sink.new) (K.stalls sink.old)
        (K.stalls sink.new) bytes.now) }
{
    write_more(sink, bytes, 0)
}

/// Writes all bytes to the sink, after `sent` others.
///
/// Returns `Write` with the number of bytes that went out, those others among them, if the sink fails or takes nothing of a piece.
pub fn write_more<K: Sink>(sink: &mut K, bytes: &[u8], sent: u64) -> Result<(), Fault>
    requires { sent + length bytes.now < 2 ^ 64 }
    ensures whole { OnOk result (Took (K.taken sink.old) (K.taken sink.new) bytes.now) }
    ensures worked { OnOk result ((K.failures sink.new ≡ K.failures sink.old) × (K.stalls sink.new ≡ K.stalls sink.old)) }
    ensures cut { IfErr result (IsCutAfter sent (K.taken sink.old) (K.taken sink.new) (K.failures sink.old) (K.failures sink.new) (K.stalls sink.old)
        (K.stalls sink.new) bytes.now) }
{
    let mut written = 0;
    while written < bytes.len() {
        match sink.write(&bytes[written..]) {
            Ok(n) if n > 0 => written += n,
            _ => {
                return Err(Fault::Write {
                    written: sent + written as u64,
                });
            }
        }
    }
    Ok(())
}
