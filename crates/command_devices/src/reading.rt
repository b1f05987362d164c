//! Reading all bytes of a source.

ghost use Rattle.std.specs.Prelude.{◌≡◌, ◌⊎◌, ◌+◌, ◌<◌, ◌≤◌, ◌^◌, max, Ok, [], length, take, drop, IfOk, IfErr, OnOk, OnErr};
ghost use Rattle.cube_core.specs.declared.fault.Fault.TheVariants.{Read, WantOfMemory};
ghost use Rattle.command_devices.specs.Devices.{Gave, GaveBelow, GaveWithin, IsFront, IsAll, IsEnd, Rises, Rose};
ghost use Rattle.command_devices.specs.Reading.{IsReadRefusal, ToldAsRead, file_limit};

use crate::source::{Failed, Source};
use cube_core::fault::Fault;
use std::alloc::Global;

/// The least number of bytes by which the buffer grows, where the limit allows it.
const PIECE: usize = 1 << 16;

/// The greatest number of bytes that a file may have.
const FILE_LIMIT: u64 = 1 << 40;

/// Reads a file to the source's end: at most 2^40 bytes. It takes no more than one byte beyond them from the source.
///
/// Returns `Read` if the source fails, or has more bytes; `WantOfMemory` if an allocation fails. The bytes read
/// by then are dropped.
pub fn read_file<S: Source>(alloc: Global, source: &mut S) -> Result<Vec<u8>, Fault>
    ensures all { IfOk result (λ bytes. IsAll (S.left source.old) bytes.items) }
    ensures limited { IfOk result (λ bytes. length bytes.items ≤ 2 ^ 40) }
    ensures worked { OnOk result (S.failures source.new ≡ S.failures source.old) }
    ensures refused { IfErr result (IsReadRefusal (S.left source.old) (S.failures source.old) (S.failures source.new)) }
    ensures told { IfErr result (ToldAsRead (S.failures source.old) (S.failures source.new)) }
    ensures bounded { GaveWithin (λ _. file_limit) (S.left source.old) (S.left source.new) }
    ensures short { OnOk result (GaveBelow file_limit (S.left source.old) (S.left source.new)) }
    ensures unfilled { IfErr result (λ e. e ≡ WantOfMemory → GaveBelow file_limit (S.left source.old) (S.left source.new)) }
{
    let bytes = read_up_to(alloc, source, FILE_LIMIT + 1)?;
    if bytes.len() as u64 > FILE_LIMIT {
        return Err(Fault::Read);
    }
    Ok(bytes)
}

/// Reads to the source's end, and no more than `limit` bytes.
///
/// The buffer grows by as many bytes as came, or by 65,536 where these are more, and never past the limit.
/// Returns `Read` if the source fails; `WantOfMemory` if an allocation fails. The bytes read by then are
/// dropped.
pub fn read_up_to<S: Source>(alloc: Global, source: &mut S, limit: u64) -> Result<Vec<u8>, Fault>
    ensures given { IfOk result (λ bytes. Gave (S.left source.old) (S.left source.new) bytes.items) }
    ensures front { IfOk result (λ bytes. IsFront limit (S.left source.old) bytes.items) }
    ensures limited { IfOk result (λ bytes. length bytes.items ≤ limit) }
    ensures bounded { GaveWithin (λ _. limit) (S.left source.old) (S.left source.new) }
    ensures whole { IfOk result (λ bytes. (length bytes.items ≡ limit) ⊎ IsEnd (S.left source.new)) }
    ensures worked { IfOk result (λ _. S.failures source.new ≡ S.failures source.old) }
    ensures unfilled { IfErr result (λ e. e ≡ WantOfMemory → GaveBelow limit (S.left source.old) (S.left source.new)) }
    ensures refused { IfErr result (λ e. ((e ≡ WantOfMemory) × (S.failures source.new ≡ S.failures source.old))
        ⊎ ((e ≡ Read) × Rose (S.failures source.old) (S.failures source.new))) }
    ensures told { IfErr result (ToldAsRead (S.failures source.old) (S.failures source.new)) }
{
    let mut bytes = Vec::new(alloc);
    // The bytes after the first `had` are zeros, into which the next piece is read.
    let mut had = 0;
    while (had as u64) < limit {
        if had == bytes.len() {
            grow(&mut bytes, limit)?;
        }
        let Ok(n) = read_after(source, &mut bytes, had) else {
            return Err(Fault::Read);
        };
        if n == 0 {
            bytes.truncate(had);
            return Ok(bytes);
        }
        had += n;
    }
    Ok(bytes)
}

/// Appends zeros to bytes that are fewer than the limit: as many as there are bytes, and at least a piece's, as
/// far as the limit allows.
fn grow(bytes: &mut Vec<u8>, limit: u64) -> Result<(), Fault>
    requires { length bytes.old.items < limit }
    ensures kept { OnOk result (take (length bytes.old.items) bytes.new.items ≡ bytes.old.items) }
    ensures grown { OnOk result (length bytes.old.items < length bytes.new.items) }
    ensures limited { OnOk result (length bytes.new.items ≤ limit) }
    ensures doubled { OnOk result (length bytes.new.items ≤ length bytes.old.items + max (length bytes.old.items) (2 ^ 16)) }
    ensures refused { IfErr result (λ e. e ≡ WantOfMemory) }
{
    let had = bytes.len();
    let piece = (limit - had as u64).min(had.max(PIECE) as u64) as usize;
    bytes.resize(had + piece, 0)?;
    Ok(())
}

/// Reads into the bytes after the first `had`.
fn read_after<S: Source>(source: &mut S, bytes: &mut [u8], had: usize) -> Result<usize, Failed>
    requires { had ≤ length bytes.old }
    ensures within { IfOk result (λ n. had + n ≤ length bytes.old) }
    ensures given { IfOk result (λ n. Gave (S.left source.old) (S.left source.new) (drop had (take (had + n) bytes.new))) }
    ensures kept { take had bytes.new ≡ take had bytes.old }
    ensures end { result ≡ Ok 0 → had < length bytes.old → IsEnd (S.left source.new) }
    ensures worked { IfOk result (λ _. S.failures source.new ≡ S.failures source.old) }
    ensures failed { OnErr result (Rises (S.failures source.old) (S.failures source.new)) }
    ensures same { OnErr result (Gave (S.left source.old) (S.left source.new) []) }
{
    source.read(&mut bytes[had..])
}

/// Reads until the buffer is full or the source ends, and returns how many bytes came to the buffer's front.
///
/// Returns `Read` if the source fails.
pub fn fill<S: Source>(source: &mut S, buffer: &mut [u8]) -> Result<usize, Fault>
    ensures within { IfOk result (λ n. n ≤ length buffer.old) }
    ensures given { IfOk result (λ n. Gave (S.left source.old) (S.left source.new) (take n buffer.new)) }
    ensures whole { IfOk result (λ n. (n ≡ length buffer.old) ⊎ IsEnd (S.left source.new)) }
    ensures bounded { GaveWithin (λ _. length buffer.old) (S.left source.old) (S.left source.new) }
    ensures worked { OnOk result (S.failures source.new ≡ S.failures source.old) }
    ensures refused { IfErr result (λ e. (e ≡ Read) × Rose (S.failures source.old) (S.failures source.new)) }
{
    let mut had = 0;
    while had < buffer.len() {
        let Ok(n) = read_after(source, buffer, had) else {
            return Err(Fault::Read);
        };
        if n == 0 {
            return Ok(had);
        }
        had += n;
    }
    Ok(had)
}
