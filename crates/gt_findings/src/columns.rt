//! The column of a word on each line of a text.
ghost use Rattle.std.specs.Prelude.{IfOk};
ghost use Rattle.gt_findings.specs.Columns.{AreStarts};
ghost use Rattle.gt_findings.specs.LineWords.{AreWordColumns};

use crate::places::{LineStarts, column_of_word, tokens_of};
use std::alloc::{AllocError, Global};

/// The column at which a word first occurs on each line of a text, counted from 1; that of the line's first token where
/// it does not occur.
#[derive(Drop)]
pub struct WordColumns {
    pub columns: Vec<u32>,
}

/// Returns the columns of a word on the lines of a text, by where these begin.
pub fn word_columns(
    alloc: Global,
    bytes: &[u8],
    lines: &LineStarts,
    word: &str,
) -> Result<WordColumns, AllocError>
    requires { AreStarts bytes.now lines.now.starts.items }
    ensures { IfOk result (λ found. AreWordColumns bytes.now word.now found.columns.items) }
{
    let mut columns = Vec::new(alloc);
    let last = lines.starts.len().min(u32::MAX as usize) as u32;
    'lines: for line in 0..last {
        let tokens = tokens_of(alloc, bytes, lines, line + 1)?;
        columns.push(column_of_word(bytes, &tokens, word.as_bytes(), 0))?;
    }
    Ok(WordColumns { columns })
}

impl WordColumns {
    ghost use Rattle.std.specs.Prelude.{ℕ, List};
    ghost use Rattle.gt_findings.specs.Columns.{IsColumnOf};
    ghost use Rattle.gt_findings.specs.LineWords.{AreWordColumns};

    /// Returns the column on this line, counted from 1; 1 on a line that the text does not have.
    pub fn on_line(&self, line: u32) -> u32
        ensures { (text word : List ℕ) → AreWordColumns text word self.now.columns.items
            → IsColumnOf text line word result }
    {
        if line == 0 {
            return 1;
        }
        match self.columns.get(line as usize - 1) {
            Some(column) => *column,
            None => 1,
        }
    }
}
