//! Findings in a text: where the words of its lines are, and how findings are printed.
//!
//! A [`Finding`] has a kind, a line, a column and a message. [`push_findings`] prints findings as a compiler does, each
//! with its line and a caret, or as JSON. [`line_starts`], [`line_words`] and [`word_columns`] look up where lines and
//! words are, so that a finding costs no walk along the text. [`push_hint`] proposes the name that is meant.
//!
//! It is proved which text is printed, in which form, and that the column of a finding is that of the word which it is
//! about. A finding is printed as JSON by RFC 8259.
//!
//! It uses `gt_text` (text), `gt_json` (strings as JSON), `gt_types` (permissions), `strsim` (nearest names) and
//! `unicode_width` (columns of a terminal). Its definitions also name `gt_policy_text` (the bytes of tokens).
#![tactic(auto)]

mod adding;
mod columns;
mod findings;
mod messages;
mod nearest;
mod places;
mod report;
mod words;

pub use adding::{FindingNote, Place, push_note, push_of_statement, push_of_word};
pub use columns::{WordColumns, word_columns};
pub use findings::{Finding, FindingKind};
pub use messages::{
    is_near_permission, message_of, permission_names, push_hint, push_meant, push_permission_hint,
    push_quoted_word, push_said, said_of,
};
pub use nearest::nearest_name;
pub use places::{
    LineStarts, LineTokens, LinedText, Span, bytes_of, column_at, column_of, column_of_word,
    first_column, front_of, line_starts, line_tokens, tokens_in, tokens_of,
};
pub use report::{ReportForm, push_finding, push_findings, push_json, push_report};
pub use words::{LineWords, line_words};
