//! Parts of reasons.
ghost use Rattle.std.specs.Prelude.{◌≡◌, ◌≤◌, ◌++◌, length, OnOk};
ghost use Rattle.std.specs.List.{flat_map};
ghost use Rattle.gt_findings.specs.Report.{AddsText};
ghost use Rattle.gt_fault_reasons.specs.Reasons.{begins_character, more_text, quoted_part, reason_heading, shown_byte};
ghost use Rattle.gt_fault_reasons.specs.Reasons.{IsQuoted, IsShownPart};

use gt_text::{push_number, push_text};
use std::alloc::AllocError;

/// Appends `FILE:LINE:COLUMN: `. After an Err, part of it may have been appended.
pub fn push_heading(
    out: &mut Vec<u8>,
    file: &str,
    line: usize,
    column: usize,
) -> Result<(), AllocError>
    ensures { OnOk result (out.new.items ≡ out.old.items ++ reason_heading file.now line column) }
{
    push_text(out, file)?;
    push_text(out, ":")?;
    push_number(out, line)?;
    push_text(out, ":")?;
    push_number(out, column)?;
    push_text(out, ": ")
}

/// Returns whether these bytes are in a list.
pub fn is_listed(list: &[&[u8]], bytes: &[u8]) -> bool {
    for one in list {
        if *one == bytes {
            return true;
        }
    }
    false
}

// The bytes of U+FFFD, which replaces a control character.
const NOT_SHOWN: [u8; 3] = [0xEF, 0xBF, 0xBD];

// Appends a byte. A control character could move the cursor of the terminal, so U+FFFD replaces it.
fn push_shown(out: &mut Vec<u8>, byte: u8) -> Result<(), AllocError>
    ensures { OnOk result (out.new.items ≡ out.old.items ++ shown_byte byte) }
{
    if byte.is_ascii_control() {
        return out.extend_from_slice(&NOT_SHOWN);
    }
    out.extend_from_slice(&[byte])
}

// The most characters of a word that are shown.
const LONGEST_WORD: usize = 160;

// Returns whether a byte begins a character of a text in UTF-8.
fn begins_character(byte: u8) -> bool
    ensures { result ≡ begins_character byte }
{
    byte < 0x80 || byte >= 0xC0
}

// Returns how many bytes of a word are shown: all, or those of its first 160 characters.
fn shown_part(word: &[u8]) -> usize
    ensures { IsShownPart word.now result }
{
    let mut count: usize = 0;
    'bytes: for (i, byte) in word.iter().enumerate() {
        if begins_character(*byte) {
            if count == LONGEST_WORD {
                return i;
            }
            count += 1;
        }
    }
    word.len()
}

// Appends bytes as they are shown.
fn push_all_shown(out: &mut Vec<u8>, bytes: &[u8]) -> Result<(), AllocError>
    ensures { OnOk result (out.new.items ≡ out.old.items ++ flat_map shown_byte bytes.now) }
{
    'bytes: for byte in bytes {
        push_shown(out, *byte)?;
    }
    Ok(())
}

// Appends the mark of a word that goes on.
fn push_more(out: &mut Vec<u8>, goes_on: bool) -> Result<(), AllocError>
    ensures { OnOk result (out.new.items ≡ out.old.items ++ more_text goes_on) }
{
    push_text(out, if goes_on { "..." } else { "" })
}

// Appends the first bytes of a word in quotes, with the mark of a word that goes on if they are not all.
fn push_part(out: &mut Vec<u8>, word: &[u8], end: usize) -> Result<(), AllocError>
    requires { end ≤ length word.now }
    ensures { OnOk result (out.new.items ≡ out.old.items ++ quoted_part word.now end) }
{
    push_text(out, "\"")?;
    push_all_shown(out, &word[..end])?;
    push_more(out, end < word.len())?;
    push_text(out, "\"")
}

/// Appends a word in quotes, with U+FFFD for each control character of ASCII; of a long word the first 160 characters,
/// and `...`. After an Err, part of it may have been appended.
pub fn push_word(out: &mut Vec<u8>, word: &[u8]) -> Result<(), AllocError>
    ensures { OnOk result (AddsText (IsQuoted word.now) out.old.items out.new.items) }
{
    let end = shown_part(word);
    push_part(out, word, end)
}
