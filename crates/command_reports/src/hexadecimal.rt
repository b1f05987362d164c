//! Bytes as text.

ghost use Rattle.std.specs.Prelude.{◌≡◌, ◌++◌, ◌∷◌, [], IfOk, IfErr};
ghost use Rattle.cube_core.specs.declared.fault.Fault.TheVariants.{WantOfMemory};
ghost use Rattle.hex.specs.Hex.{encode_lower};

use cube_core::fault::Fault;
use std::alloc::Global;

/// Returns bytes in lower-case hexadecimal, two digits each, and a newline. Returns `WantOfMemory` if the text
/// can't be allocated.
pub fn hexadecimal(alloc: Global, bytes: &[u8]) -> Result<Vec<u8>, Fault>
    ensures text { IfOk result (λ text. text.items ≡ encode_lower bytes.now ++ 10 ∷ []) }
    ensures refused { IfErr result (λ e. e ≡ WantOfMemory) }
{
    let mut text = hex::encode(alloc, bytes)?;
    text.push('\n')?;
    Ok(text.into_bytes())
}
