//! The command `explore` for a script with choices (`maybe` and `leave`).
//!
//! [`texts_of_choices`] searches each choice of a script (`gt_explore_choices`, `gt_explore`) and unites their texts, each
//! once, in the order of their bytes: texts that some choice may give (`MayGiveByChoice` in `specs/`), and all of them,
//! unless the searches met more states together than their limit, or their watch ended one.
//!
//! [`explore_choices`] writes the output for a request about these texts, with the verdicts, numbers and lines that
//! `explore` has for a plain script. A script for `play` that is written was played before, for the choice that follows
//! the order to its text.
//!
//! It also uses `gt_call_names` (the names of calls), `gt_explore_answers`, `gt_explore_faults`, `gt_explore_replay`,
//! `gt_explore_search`, `gt_explore_verdict`, `gt_script`, `gt_script_runs` and `gt_text`. Its definitions also name
//! `gt_policy`.
#![tactic(auto)]

mod answering;
mod exploring;
mod fault;
mod gathering;
mod listing;
mod making;
mod scripts;
mod uniting;

pub use exploring::explore_choices;
pub use fault::UnitedFault;
pub use uniting::{UnitedTexts, texts_of_choices};
