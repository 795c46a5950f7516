//! The tokens of a policy text, as the SELinux policy language defines them.
//!
//! A [`Lexer`] gives the tokens of a text one after the other, each with its line, and then the end of the text, as
//! often as it is asked. It is total: a character that begins no token is a token too, so that the parser finds the
//! faults of a text in order. A contract sees the tokens that are left (`lexemes`). A name is a [`TextPiece`], which
//! borrows the bytes of the text, and what is parsed is kept in [`Items`].
//!
//! It is proved that the tokens and lines are those of `lexemes_of`, for every text of fewer than 2^32 - 2 bytes. The
//! crate uses only the standard library.
#![tactic(auto)]

mod items;
mod lexer;
mod text;

pub use items::Items;
pub use lexer::{Lexeme, Lexer, Token, is_text};
pub use text::TextPiece;
