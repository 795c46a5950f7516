//! Pieces of a script.
ghost use Rattle.std.specs.Prelude.{◌≡◌};

use std::convert::AsSlice;
use std::marker::Model;

/// A name, a label or hexadecimal text in ASCII, borrowed from the script. A contract sees the bytes.
#[derive(Debug, Drop)]
pub struct Text<'a> {
    bytes: &'a [u8],
}

impl<'a> Model for Text<'a> {
    ghost use Rattle.std.specs.Prelude.{ℕ, List};

    ghost Value = { List ℕ };

    ghost view = { λ text. text.bytes.now };
}

impl<'a> Text<'a> {
    /// Makes a piece of these bytes.
    pub fn new(bytes: &'a [u8]) -> Text<'a>
        ensures { result ≡ bytes.entry.now }
    {
        Text { bytes }
    }

    /// Returns the bytes of the piece.
    pub fn as_bytes(&self) -> &'a [u8]
        ensures { result.now ≡ self.now }
    {
        self.bytes
    }
}

impl<'a> AsSlice<u8> for Text<'a> {
    ghost items = { λ text. text };

    fn as_slice(&self) -> &[u8] {
        self.as_bytes()
    }
}
