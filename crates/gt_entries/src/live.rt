//! The bits that a live host sets in an entry.
ghost use Rattle.std.specs.Prelude.{◌≡◌, ◌++◌, IfOk, OnOk};
ghost use Rattle.gt_entries.specs.Live.{cleared_byte, cleared, live_text};

use gt_text::push_text;
use std::alloc::{AllocError, Global};

// Clears bits 3 and 4.
fn cleared_byte(byte: u8) -> u8
    ensures { result ≡ cleared_byte byte }
{
    byte - byte / 8 % 4 * 8
}

/// Returns the bytes of an entry with `GTF_reading` and `GTF_writing` cleared (`grant_table.h`).
pub fn cleared(alloc: Global, bytes: &[u8]) -> Result<Vec<u8>, AllocError>
    ensures { IfOk result (λ plain. plain.items ≡ cleared bytes.now) }
{
    let mut plain = Vec::new(alloc);
    if let Some((first, rest)) = bytes.split_first() {
        plain.push(cleared_byte(*first))?;
        plain.extend_from_slice(rest)?;
    }
    Ok(plain)
}

/// Appends which of the two bits the entry has.
pub fn push_live(out: &mut Vec<u8>, bytes: &[u8]) -> Result<(), AllocError>
    ensures { OnOk result (out.new.items ≡ out.old.items ++ live_text bytes.now) }
{
    let Some(first) = bytes.first() else {
        return Ok(());
    };
    match (*first / 8 % 2 == 1, *first / 16 % 2 == 1) {
        (true, true) => push_text(out, " live=reading,writing"),
        (true, false) => push_text(out, " live=reading"),
        (false, true) => push_text(out, " live=writing"),
        (false, false) => Ok(()),
    }
}
