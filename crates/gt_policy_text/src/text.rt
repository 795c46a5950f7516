//! Pieces of a policy text.
use std::alloc::{AllocError, Global};
use std::marker::Model;

/// A piece of a policy text, borrowed from it. A contract sees the bytes.
#[derive(Drop)]
pub struct TextPiece<'a> {
    text: &'a str,
}

impl<'a> Model for TextPiece<'a> {
    ghost use Rattle.std.specs.Prelude.{ℕ, List};

    ghost Value = { List ℕ };

    ghost view = { λ piece. piece.text.now };
}

impl<'a> TextPiece<'a> {
    ghost use Rattle.std.specs.Prelude.{◌≡◌, IfOk, string_bytes};
    ghost use Rattle.std.specs.Str.{IsUtf8};

    /// Makes a piece of bytes that are UTF-8.
    pub fn new(bytes: &'a [u8]) -> TextPiece<'a>
        requires { IsUtf8 bytes.now }
        ensures { result ≡ bytes.entry.now }
    {
        match str::from_utf8(bytes) {
            Ok(text) => TextPiece { text },
            Err(_) => unreachable!(),
        }
    }

    /// Returns a second reference to the same piece.
    pub fn again(&self) -> TextPiece<'a>
        ensures { result ≡ self.now }
    {
        TextPiece { text: self.text }
    }

    /// Copies the piece to a `String`.
    pub fn to_string(&self, alloc: Global) -> Result<String, AllocError>
        ensures { IfOk result (λ s. string_bytes s ≡ self.now) }
    {
        String::from_str(alloc, self.text)
    }

    /// Returns the bytes of the piece.
    pub fn as_bytes(&self) -> &'a [u8]
        ensures { result.now ≡ self.now }
    {
        self.text.as_bytes()
    }

    /// Returns the piece as text.
    pub fn as_str(&self) -> &'a str
        ensures { result.now ≡ self.now }
    {
        self.text
    }
}
