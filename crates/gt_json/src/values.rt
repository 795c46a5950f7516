//! JSON strings and values.
ghost use Rattle.std.specs.Prelude.{◌≡◌, ◌++◌, ◌<◌, OnOk};
ghost use Rattle.gt_json.specs.Strings.{hex_digit, escaped, quoted, value_text};

use crate::words::{is_number, is_word};
use gt_text::push_text;
use std::alloc::AllocError;

// Returns the hexadecimal digit of a number below 16.
fn hex_digit(number: u8) -> u8
    requires { number < 16 }
    ensures { result ≡ hex_digit number }
{
    if number < 10 {
        b'0' + number
    } else {
        b'a' + (number - 10)
    }
}

// Appends a byte of a string, escaped if needed.
fn push_escaped(out: &mut Vec<u8>, byte: u8) -> Result<(), AllocError>
    ensures { OnOk result (out.new.items ≡ out.old.items ++ escaped byte) }
{
    if byte == b'"' || byte == b'\\' {
        out.extend_from_slice(&[b'\\', byte])
    } else if byte < 32 {
        let (high, low) = (hex_digit(byte / 16), hex_digit(byte % 16));
        out.extend_from_slice(&[b'\\', b'u', b'0', b'0', high, low])
    } else {
        out.extend_from_slice(&[byte])
    }
}

/// Appends a text as a JSON string. After an Err, part of it may have been appended.
#[tactic(auto, unfolding(crate::specs::Strings::quoted))]
pub fn push_quoted(out: &mut Vec<u8>, text: &[u8]) -> Result<(), AllocError>
    ensures { OnOk result (out.new.items ≡ out.old.items ++ quoted text.now) }
{
    push_text(out, "\"")?;
    'bytes: for byte in text {
        push_escaped(out, *byte)?;
    }
    push_text(out, "\"")
}

/// Appends a word as a JSON value: a number if it is one and is not hexadecimal, null for `-`, and else a string. After
/// an Err, part of it may have been appended.
pub fn push_value(out: &mut Vec<u8>, is_hex: bool, word: &[u8]) -> Result<(), AllocError>
    ensures { OnOk result (out.new.items ≡ out.old.items ++ value_text is_hex word.now) }
{
    if !is_hex && is_number(word) {
        out.extend_from_slice(word)
    } else if is_word(word, "-") {
        push_text(out, "null")
    } else {
        push_quoted(out, word)
    }
}
