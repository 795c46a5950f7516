//! The texts of decoded entries.
ghost use Rattle.std.specs.Prelude.{◌≡◌, ◌++◌, OnOk, codes};
ghost use Rattle.gt_entries.specs.Showing.{decoded_text};

use gt_entry::Entry;
use gt_text::{push_entry, push_text};
use gt_types::Field;
use std::alloc::AllocError;

/// Appends what the decoders return for the bytes of an entry. After an Err, part of it may have been appended.
pub fn push_answer(out: &mut Vec<u8>, answer: Result<Entry, Field>) -> Result<(), AllocError>
    ensures { OnOk result (out.new.items ≡ out.old.items ++ decoded_text answer) }
{
    match answer {
        Ok(entry) => push_entry(out, entry),
        Err(field) => {
            push_text(out, "refused ")?;
            push_text(out, field.name())
        }
    }
}
