//! The history of all steps on the shared words, as each seat sees it, and the rule that ties the words to it.
//!
//! A word is a control word or a body word of an entry, or the header of a domain. A seat's view lists its steps, and
//! the history up to its last one. By the rule `Shows` (`specs/Rule.antt`), words and views show a state of the core,
//! to which the history has led. Before each of its steps they showed one too.
//!
//! This crate has no table and makes no step. It has the layout of the words, the views as plain data, the kinds of
//! step with what each requires and promises (`specs/Moves.antt`), and the proofs that the rule holds at the start, at
//! each step, and when seats are dealt and taken in. Views and steps do not exist at run time.
//!
//! It uses the words of `gt_entry`, `atomic_table` (the states of a table), `gt_frames` for the accesses in a view, and
//! `gt_types`.
#![tactic(auto)]

mod encoding;
mod rule;
mod view;

pub use encoding::{first_header, idle_word};
pub use rule::{DOMAIN_ROWS, DOMAIN_WORDS, ENTRY_WORDS, EntryAt};
pub use view::{
    EntryRecord, EntryStep, FlagStep, FrameStep, HeaderStep, Outlook, Purpose, SeatStep, View,
};
