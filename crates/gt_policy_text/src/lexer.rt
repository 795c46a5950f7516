//! The tokens of a policy text.
ghost use Rattle.std.specs.Prelude.{◌≡◌, ℕ, ◌+◌, ◌<◌, ◌≤◌, ◌^◌, ◌-◌, ◌==◌, not, length, List, count_by};
ghost use Rattle.std.specs.List.{prefix_len};
ghost use Rattle.std.specs.Str.{bytes_eq, IsUtf8};
ghost use Rattle.gt_policy_text.specs.Lexing.{is_letter as letter, is_name_byte as name_byte, is_blank as blank};
ghost use Rattle.gt_policy_text.specs.Lexing.{mark_of as mark_at, token_of_word as word_at, lexemes};
ghost use Rattle.gt_policy_text.specs.Lexing.{Place, Between, Naming, Commenting, StartsToken};
ghost use Rattle.gt_policy_text.specs.Lexing.{behind, end_line, has_open_line};
ghost use Rattle.gt_policy_text.specs.declared.lexer.Token.{Token};

use crate::text::TextPiece;
use std::marker::Model;

/// A token. `Bad` is a character that begins no token, and `End` the end of the text.
#[derive(Drop)]
pub enum Token<'a> {
    Name(TextPiece<'a>),
    TypeWord,
    AttributeWord,
    TypeattributeWord,
    AllowWord,
    SelfWord,
    Open,
    Close,
    Colon,
    Semicolon,
    Comma,
    Minus,
    Tilde,
    Star,
    Bad,
    End,
}

/// A token and its line, counted from 1.
pub type Lexeme<'a> = (Token<'a>, u32);

fn is_name_byte(byte: u8) -> bool
    ensures { result ≡ name_byte byte }
{
    byte.is_ascii_alphabetic()
        || byte.is_ascii_digit()
        || byte == b'_'
        || byte == b'-'
        || byte == b'.'
}

fn is_blank(byte: u8) -> bool
    ensures { result ≡ blank byte }
{
    byte == b' ' || byte == b'\t' || byte == b'\r'
}

// Returns the length of the name at the front of `text`; 0 if there is none.
fn name_len(text: &[u8]) -> usize
    ensures value { result ≡ prefix_len name_byte text.now }
    ensures within { result ≤ length text.now }
{
    for (i, byte) in text.iter().enumerate() {
        if !is_name_byte(*byte) {
            return i;
        }
    }
    text.len()
}

// Returns the number of bytes before the first line feed.
fn line_len(text: &[u8]) -> usize
    ensures value { result ≡ prefix_len (λ b. not (b == 10)) text.now }
    ensures within { result ≤ length text.now }
{
    for (i, byte) in text.iter().enumerate() {
        if *byte == b'\n' {
            return i;
        }
    }
    text.len()
}

#[tactic(auto, unfolding(crate::specs::Lexing::mark_of))]
fn mark_of<'a>(byte: u8) -> Token<'a>
    ensures value { result ≡ mark_at byte }
    ensures inner { (rest : List (Token × ℕ)) → behind result rest ≡ rest }
{
    match byte {
        b'{' => Token::Open,
        b'}' => Token::Close,
        b':' => Token::Colon,
        b';' => Token::Semicolon,
        b',' => Token::Comma,
        b'-' => Token::Minus,
        b'~' => Token::Tilde,
        b'*' => Token::Star,
        _ => Token::Bad,
    }
}

/// Returns whether two byte strings are equal.
pub fn is_text(bytes: &[u8], wanted: &[u8]) -> bool
    ensures { result ≡ bytes_eq bytes.now wanted.now }
{
    bytes == wanted
}

#[tactic(auto, unfolding(crate::specs::Lexing::token_of_word))]
fn word_of<'a>(word: &'a [u8]) -> Token<'a>
    requires { IsUtf8 word.now }
    ensures value { result ≡ word_at word.entry.now }
    ensures inner { (rest : List (Token × ℕ)) → behind result rest ≡ rest }
{
    if is_text(word, b"type") {
        Token::TypeWord
    } else if is_text(word, b"attribute") {
        Token::AttributeWord
    } else if is_text(word, b"typeattribute") {
        Token::TypeattributeWord
    } else if is_text(word, b"allow") {
        Token::AllowWord
    } else if is_text(word, b"self") {
        Token::SelfWord
    } else {
        Token::Name(TextPiece::new(word))
    }
}

// Counts the line feeds in `text`.
fn line_ends(text: &[u8]) -> usize
    ensures value { result ≡ count_by (λ b. b == 10) text.now }
    ensures within { result ≤ length text.now }
{
    let mut ends = 0;
    for byte in text {
        if *byte == b'\n' {
            ends += 1;
        }
    }
    ends
}

// Returns whether bytes follow the last line feed.
fn has_open_line(text: &[u8]) -> bool
    ensures { result ≡ has_open_line text.now }
{
    match text.last() {
        Some(byte) => *byte != b'\n',
        None => false,
    }
}

// Returns the line after the last line of a text.
#[tactic(auto, unfolding(crate::specs::Lexing::end_line))]
fn end_line(text: &[u8]) -> u32
    requires { length text.now < 2 ^ 32 - 2 }
    ensures { result ≡ end_line text.now }
{
    let ends = line_ends(text) as u32;
    if has_open_line(text) {
        ends + 2
    } else {
        ends + 1
    }
}

/// The rest of a text. A contract sees its tokens.
#[derive(Drop)]
pub struct Lexer<'a> {
    rest: &'a [u8],
    line: u32,
    end: u32,
}

impl<'a> Model for Lexer<'a> {
    ghost use Rattle.std.specs.Prelude.{ℕ, ◌+◌, ◌<◌, ◌^◌, length, List};
    ghost use Rattle.gt_policy_text.specs.Lexing.{lexemes, Between};
    ghost use Rattle.gt_policy_text.specs.declared.lexer.Token.{Token};

    ghost Value = { List (Token × ℕ) };

    ghost view = { λ l. lexemes Between l.end l.line l.rest.now };

    ghost invariant = { λ l. l.line + length l.rest.now < 2 ^ 32 };
}

// Skips a comment. The line feed at its end is left.
fn after_comment<'a>(text: &'a [u8]) -> &'a [u8]
    ensures same { (end line : ℕ) →
        lexemes Commenting end line text.entry.now ≡ lexemes Between end line result.now }
    ensures shorter { length result.now ≤ length text.entry.now }
{
    let (_, after) = text.split_at(line_len(text));
    after
}

// Skips blanks, line feeds and comments. Returns the rest of the text, and the line on which it begins.
fn skip<'a>(text: &'a [u8], first: u32) -> (&'a [u8], u32)
    requires { first + length text.now < 2 ^ 32 }
    ensures same { (end : ℕ) →
        lexemes Between end first text.entry.now ≡ lexemes Between end result.1 result.0.now }
    ensures room { result.1 + length result.0.now < 2 ^ 32 }
    ensures start { StartsToken result.0.now }
{
    let mut rest = text;
    let mut line = first;
    while let Some((byte, after)) = rest.split_first() {
        match byte {
            b'\n' => {
                line += 1;
                rest = after;
            }
            b' ' | b'\t' | b'\r' => rest = after,
            b'#' => rest = after_comment(after),
            _ => return (rest, line),
        }
    }
    (rest, line)
}

impl<'a> Lexer<'a> {
    ghost use Rattle.std.specs.Prelude.{◌≡◌, ◌∷◌, ◌≤◌, ◌<◌, ◌^◌, ◌-◌, length};
    ghost use Rattle.gt_policy_text.specs.Lexing.{behind, lexemes_of};

    /// Makes the lexer of a whole text, of fewer than 4,294,967,294 bytes.
    pub fn new(text: &'a [u8]) -> Lexer<'a>
        requires { length text.now < 2 ^ 32 - 2 }
        ensures { result ≡ lexemes_of text.entry.now }
    {
        Lexer {
            rest: text,
            line: 1,
            end: end_line(text),
        }
    }

    /// Returns the line of the next token, without taking it. At the end of the text the line is unspecified.
    pub fn line(&mut self) -> u32
        ensures same { self.new ≡ self.old }
        ensures line { (token : Token) (n : ℕ) (rest : List (Token × ℕ)) →
            self.old ≡ (token, n) ∷ rest → (token ≡ Token.End → ⊥) → result ≡ n }
    {
        let (rest, line) = skip(self.rest, self.line);
        self.rest = rest;
        self.line = line;
        line
    }

    /// Takes the next token. At the end of the text every call returns `End`.
    pub fn next(&mut self) -> Lexeme<'a>
        ensures front { self.old ≡ result ∷ behind result.0 self.new }
        ensures shorter { length self.new ≤ length self.old }
    {
        let (rest, line) = skip(self.rest, self.line);
        self.line = line;
        match rest.split_first() {
            None => {
                self.rest = rest;
                (Token::End, self.end)
            }
            Some((byte, _)) if byte.is_ascii_alphabetic() => {
                let (name, after) = rest.split_at(name_len(rest));
                self.rest = after;
                (word_of(name), line)
            }
            Some((byte, after)) => {
                self.rest = after;
                (mark_of(*byte), line)
            }
        }
    }
}
