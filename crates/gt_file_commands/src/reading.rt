//! Texts that are read whole.
ghost use Rattle.std.specs.Prelude.{◌≡◌, ◌≤◌, length, IfOk, IfSome};

use gt_command_reasons::{CopyingReader, Reasons};
use gt_text::{ReadFault, read_text};
use gt_types::LONGEST_TEXT;
use std::alloc::Global;
use std::io::Read;

// Returns the bytes, unless they are more than a text may have.
fn whole(bytes: Vec<u8>) -> Result<Vec<u8>, ReadFault>
    ensures { IfOk result (λ all. (all ≡ bytes) × (length all.items ≤ LONGEST_TEXT)) }
{
    if bytes.len() > LONGEST_TEXT {
        return Err(ReadFault::Read);
    }
    Ok(bytes)
}

// Reads a whole text.
fn read_up_to_limit<R: Read>(alloc: Global, reader: &mut R) -> Result<Vec<u8>, ReadFault>
    ensures { IfOk result (λ bytes. IfSome (R.remaining reader.old) (λ all. bytes.items ≡ all)) }
{
    match read_text(alloc, reader) {
        Ok(bytes) => whole(bytes),
        Err(fault) => Err(fault),
    }
}

/// Reads a whole text, of at most 1,048,576 bytes, and adds the reason of a fault. A longer text has the fault `Read`.
pub fn read_whole<R: Read>(
    alloc: Global,
    reader: &mut R,
    reasons: &mut Reasons,
) -> Result<Vec<u8>, ReadFault>
    ensures { IfOk result (λ bytes. IfSome (R.remaining reader.old) (λ all. bytes.items ≡ all)) }
{
    let mut input = CopyingReader::new(alloc, reader);
    let ending = read_up_to_limit(alloc, &mut input);
    if let Err(fault) = &ending {
        reasons.add_given(&input.kept, *fault);
    }
    ending
}
