//! The words of a line, by which the column of each is known without a walk along the line.
ghost use Rattle.std.specs.Prelude.{◌≡◌, IfOk};
ghost use Rattle.gt_findings.specs.Columns.{AreStarts, AreTokens};
ghost use Rattle.gt_findings.specs.LineWords.{ArePlaces, IsLineWords};

use crate::places::{LineStarts, Span, bytes_of, column_of, first_column, tokens_of};
use std::alloc::{AllocError, Global};
use std::collections::HashMap;

/// The words of a line of a text, with the place in the line where each first occurs. Lines are counted from 1. It has
/// the column of the line's first token, too.
#[derive(Drop)]
pub struct LineWords<'t> {
    pub bytes: &'t [u8],
    pub number: u32,
    pub span: Span,
    pub first: u32,
    pub places: HashMap<&'t [u8], usize>,
}

// Returns the place of each word among the tokens of a line: that of its first occurrence.
fn places_of<'t>(
    alloc: Global,
    row: &'t [u8],
    tokens: &[Span],
) -> Result<HashMap<&'t [u8], usize>, AllocError>
    requires { AreTokens row.now tokens.now }
    ensures { IfOk result (λ places. ArePlaces row.entry.now places) }
{
    let mut places = HashMap::new(alloc);
    'tokens: for token in tokens {
        let word = bytes_of(row, *token);
        if places.get(&word).is_none() {
            places.insert(word, token.start)?;
        }
    }
    Ok(places)
}

/// Returns the words of a line, counted from 1, by where the lines of the text begin. A line beyond the last has none.
pub fn line_words<'t>(
    alloc: Global,
    bytes: &'t [u8],
    lines: &LineStarts,
    line: u32,
) -> Result<LineWords<'t>, AllocError>
    requires { AreStarts bytes.now lines.now.starts.items }
    ensures words { IfOk result (λ words. IsLineWords words) }
    ensures text { IfOk result (λ words. words.bytes.now ≡ bytes.entry.now) }
    ensures number { IfOk result (λ words. words.number ≡ line) }
{
    let tokens = tokens_of(alloc, bytes, lines, line)?;
    let row = bytes_of(bytes, tokens.span);
    let places = places_of(alloc, row, tokens.tokens.as_slice())?;
    Ok(LineWords {
        bytes,
        number: line,
        span: tokens.span,
        first: first_column(row),
        places,
    })
}

impl<'t> LineWords<'t> {
    ghost use Rattle.std.specs.Prelude.{◌≡◌, OnOk};
    ghost use Rattle.gt_findings.specs.Columns.{AreStarts, IsColumnOf};
    ghost use Rattle.gt_findings.specs.LineWords.{IsLineWords};

    /// Returns the column at which a word first occurs on the line, counted from 1; that of the line's first token if
    /// it does not occur.
    pub fn column(&self, word: &str) -> u32
        requires { IsLineWords self.now }
        ensures { IsColumnOf self.now.bytes.now self.now.number word.now result }
    {
        match self.places.get(&word.as_bytes()) {
            Some(place) => column_of(*place),
            None => self.first,
        }
    }

    /// Goes to another line of the text, by where its lines begin. After an Err these are the words of the line before.
    pub fn go_to(&mut self, alloc: Global, lines: &LineStarts, line: u32) -> Result<(), AllocError>
        requires lines { AreStarts self.old.bytes.now lines.now.starts.items }
        requires words { IsLineWords self.old }
        ensures words { IsLineWords self.new }
        ensures text { self.new.bytes.now ≡ self.old.bytes.now }
        ensures number { OnOk result (self.new.number ≡ line) }
    {
        if self.number != line {
            *self = line_words(alloc, self.bytes, lines, line)?;
        }
        Ok(())
    }
}
