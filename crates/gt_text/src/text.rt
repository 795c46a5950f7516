//! Bytes as text, and text as bytes.
ghost use Rattle.std.specs.Prelude.{◌≡◌, ◌++◌, ◌==◌, count_by, IfOk, IfErr, OnOk, OnErr};
ghost use Rattle.std.specs.Str.{IsUtf8};
ghost use Rattle.gt_text.specs.Texts.{IsBadAt, StaysText};

use std::alloc::AllocError;

// Counts the line feeds in `bytes`.
fn newlines(bytes: &[u8]) -> usize
    ensures { result ≡ count_by (λ b. b == 10) bytes.now }
{
    bytes.iter().filter(|b| **b == b'\n').count()
}

/// Returns the bytes as text, or the line of the first byte that is not UTF-8, counted from 1.
pub fn text_of<'a>(bytes: &'a [u8]) -> Result<&'a str, usize>
    ensures text { IfOk result (λ text. (text.now ≡ bytes.entry.now) × IsUtf8 bytes.entry.now) }
    ensures line { IfErr result (λ line. IsBadAt bytes.entry.now line) }
{
    match str::from_utf8(bytes) {
        Ok(text) => Ok(text),
        Err(e) => Err(newlines(&bytes[..e.valid_up_to()]) + 1),
    }
}

/// Appends a text. After an Err, `out` is unchanged.
pub fn push_text(out: &mut Vec<u8>, text: &str) -> Result<(), AllocError>
    ensures ok { OnOk result (out.new.items ≡ out.old.items ++ text.now) }
    ensures stays { OnOk result (StaysText out.old.items out.new.items) }
    ensures err { OnErr result (out.new.items ≡ out.old.items) }
{
    out.extend_from_slice(text.as_bytes())?;
    Ok(())
}
