//! What a dump looks like.
ghost use Rattle.std.specs.Prelude.{◌≡◌, ◌↔◌, ◌&&◌, not, true, IfOk};
ghost use Rattle.std.specs.Char.{is_ascii_hexdigit};
ghost use Rattle.std.specs.List.{list_all, list_any};
ghost use Rattle.gt_entries.specs.Look.{is_digit_or_blank, looks_hexadecimal};

use crate::asked::DumpOptions;
use crate::input::bytes_of;
use crate::live::cleared;
use gt_entry::decode;
use std::alloc::{AllocError, Global};

/// The look of a dump, by which a command hints at a missing or wrong option.
#[derive(Clone, Copy)]
pub enum DumpLook {
    /// A table, as far as can be seen.
    Table,
    /// Hexadecimal text, though the dump was read as bytes.
    Hexadecimal,
    /// Not a table of this version: some entries are not zero, and each of them is refused.
    NoTable,
}

fn is_digit_or_blank(byte: u8) -> bool
    ensures { result ≡ is_digit_or_blank byte }
{
    byte.is_ascii_hexdigit() || byte.is_ascii_whitespace()
}

fn has_only_digits(input: &[u8]) -> bool
    ensures { result ≡ list_all is_digit_or_blank input.now }
{
    'bytes: for byte in input {
        if !is_digit_or_blank(*byte) {
            return false;
        }
    }
    true
}

fn has_digit(input: &[u8]) -> bool
    ensures { result ≡ list_any is_ascii_hexdigit input.now }
{
    'bytes: for byte in input {
        if byte.is_ascii_hexdigit() {
            return true;
        }
    }
    false
}

// Returns whether the bytes are digits of hexadecimal text, with blanks and line ends among them.
fn looks_hexadecimal(input: &[u8]) -> bool
    ensures { result ≡ looks_hexadecimal input.now }
{
    has_only_digits(input) && has_digit(input)
}

// Returns whether some entry of a dump is not zero, and each such entry is refused.
fn has_no_entry(alloc: Global, version: u8, dump: &[u8]) -> Result<bool, AllocError> {
    let mut is_any = false;
    for entry in dump.chunks(if version == 2 { 16 } else { 8 }) {
        if entry.iter().all(|byte| *byte == 0) {
            continue;
        }
        let plain = cleared(alloc, entry)?;
        if decode(version, plain.as_slice()).is_ok() {
            return Ok(false);
        }
        is_any = true;
    }
    Ok(is_any)
}

// Returns whether the dump of an input has no entry that can be read.
fn is_no_table(alloc: Global, asked: DumpOptions, input: &[u8]) -> Result<bool, AllocError> {
    let input = Vec::from_slice(alloc, input)?;
    match bytes_of(alloc, asked.hex, input) {
        Ok(dump) => has_no_entry(alloc, asked.version, dump.as_slice()),
        Err(_) => Ok(false),
    }
}

/// Returns what the bytes of a dump look like. The only Err is a failed allocation.
pub fn look_of(alloc: Global, asked: DumpOptions, input: &[u8]) -> Result<DumpLook, AllocError>
    ensures { IfOk result (λ look. (look ≡ DumpLook.Hexadecimal)
        ↔ ((not asked.hex && looks_hexadecimal input.now) ≡ true)) }
{
    if !asked.hex && looks_hexadecimal(input) {
        return Ok(DumpLook::Hexadecimal);
    }
    if is_no_table(alloc, asked, input)? {
        return Ok(DumpLook::NoTable);
    }
    Ok(DumpLook::Table)
}
