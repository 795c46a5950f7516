//! Bytes as hexadecimal text.
ghost use Rattle.std.specs.Prelude.{◌≡◌, IfOk};
ghost use Rattle.std.specs.Char.{is_ascii_hexdigit};
ghost use Rattle.std.specs.List.{list_all};
ghost use Rattle.gt_script_lines.specs.Fields.{text_where};
ghost use Rattle.gt_script_lines.specs.Hexadecimal.{hex_word, hex_bytes as bytes_in};

use crate::fields::is_word;
use crate::texts::Text;
use hex::FromHexError;
use std::alloc::{AllocError, Global};

/// The maximum number of digits of a text: those of the bytes of one frame.
const MOST_DIGITS: usize = 8_192;

fn are_digits(word: &[u8]) -> bool
    ensures { result ≡ list_all is_ascii_hexdigit word.now }
{
    word.iter().all(|b| b.is_ascii_hexdigit())
}

#[tactic(auto, unfolding(crate::specs::Hexadecimal::hex_word))]
fn is_hex(word: &[u8]) -> bool
    ensures { result ≡ hex_word word.now }
{
    is_word(word, "-") || word.len() % 2 == 0 && word.len() <= MOST_DIGITS && are_digits(word)
}

/// Reads hexadecimal text: an even number of digits of either case, at most 8,192, or `-`.
pub(crate) fn hex_text<'a>(word: &'a [u8]) -> Option<Text<'a>>
    ensures { result ≡ text_where hex_word word.entry.now }
{
    if is_hex(word) {
        Some(Text::new(word))
    } else {
        None
    }
}

/// Decodes hexadecimal text, two digits for each byte. The result is empty for `-`, and for a text that is not
/// hexadecimal.
#[tactic(auto, unfolding(crate::specs::Hexadecimal::hex_bytes))]
pub fn hex_bytes(alloc: Global, text: &Text) -> Result<Vec<u8>, AllocError>
    ensures { IfOk result (λ bytes. bytes.items ≡ bytes_in text.now) }
{
    let digits = text.as_bytes();
    if is_word(digits, "-") {
        return Ok(Vec::new(alloc));
    }
    match hex::decode(alloc, digits) {
        Ok(bytes) => Ok(bytes),
        Err(FromHexError::OutOfMemory) => Err(AllocError),
        Err(_) => Ok(Vec::new(alloc)),
    }
}
