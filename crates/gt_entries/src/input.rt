//! The bytes of a dump, or hexadecimal text for them.
ghost use Rattle.std.specs.Prelude.{◌≡◌, ◌≤◌, length, IfOk, IfErr};
ghost use Rattle.gt_entries.specs.Dumps.{IsNoDump, GivesDump, digits_of};

use crate::fault::DumpFault;
use gt_types::LONGEST_TEXT;
use hex::FromHexError;
use std::alloc::{AllocError, Global};

// Removes the blanks and line ends of hexadecimal text.
fn digits_of(alloc: Global, input: &[u8]) -> Result<Vec<u8>, AllocError>
    ensures { IfOk result (λ digits. digits.items ≡ digits_of input.now) }
{
    input
        .iter()
        .filter(|byte| !byte.is_ascii_whitespace())
        .copied()
        .collect(alloc)
}

/// Returns the bytes of a dump: the input itself, or if `hex` is true, the bytes that it encodes, two digits for each.
/// # Errors
/// `Syntax` for text that is not hexadecimal, `Limit` for more than 1,048,576 bytes of input, or `Memory`.
pub fn bytes_of(alloc: Global, hex: bool, input: Vec<u8>) -> Result<Vec<u8>, DumpFault>
    ensures gives { IfOk result (λ bytes. GivesDump hex input.items bytes.items) }
    ensures few { IfOk result (λ _. length input.items ≤ LONGEST_TEXT) }
    ensures fault { IfErr result (λ fault. IsNoDump hex input.items fault) }
{
    if input.len() > LONGEST_TEXT {
        return Err(DumpFault::Limit);
    }
    if !hex {
        return Ok(input);
    }
    let digits = digits_of(alloc, input.as_slice())?;
    match hex::decode(alloc, digits) {
        Ok(bytes) => Ok(bytes),
        Err(FromHexError::OutOfMemory) => Err(DumpFault::Memory),
        Err(_) => Err(DumpFault::Syntax),
    }
}
