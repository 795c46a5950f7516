//! The commands of gthost on named texts, except `run` and `explore`: the output and the outcome.
//!
//! [`play`], [`list`], [`answer`] and [`show_entries`] work on the text of the named file, or of the standard input.
//! [`check_files`] and [`check_never_files`] check several, and [`answer_lines`] answers the questions of the standard
//! input. [`print_rules`] lists the rules. Each returns an [`Outcome`]: yes, no, or no answer. A failure goes to the
//! standard error in one line ([`finish`]): that of the [`Failure`], or its reason (`gt_command_reasons`).
//!
//! Texts come from a trait, [`TextSource`], and go to any writer, as they are or as JSON Lines. So the contracts
//! specify, for texts and a writer with known bytes, the output and the outcome (specs/Working.antt). `run`, `explore`
//! and the command line are in `gt_program`: their failures and outcomes are of the same types.
//!
//! It uses `gt_command_line` (plans), `gt_host`, `gt_policy_list`, `gt_check_command` and `gt_entries` (the commands),
//! `gt_json` (the JSON of a text), `gt_command_reasons` (the reasons of faults), `gt_explore_choices` and
//! `gt_state_claims` (faults of choices and of claims about states), `gt_fault_reasons` (policy blocks),
//! `gt_policy_reasons` (errors about policies), `gt_policy_statements` and `gt_findings` (questions and findings),
//! `gt_policy_questions` (flows), `gt_script_runs`, `gt_policy` and `gt_explore_faults` (faults), `gt_script_lines`
//! (words), `gt_text` and `gt_types`. Its definitions also name `gt_script`.
#![tactic(auto)]

mod asking;
mod checking;
mod commands;
mod explained;
mod failure;
mod flows;
mod formats;
mod given;
mod json;
mod outcome;
mod questions;
mod reading;
mod reporting;
mod rules;
mod style;
mod texts;

pub use asking::{answer, list, play, show_entries, show_flow};
pub use checking::{check_files, check_never_files};
pub use commands::Context;
pub use failure::Failure;
pub use flows::flow_format;
pub use given::read_given;
pub use outcome::{Outcome, outcome_of};
pub use questions::answer_lines;
pub use reporting::{finish, report};
pub use rules::print_rules;
pub use style::Style;
pub use texts::{TextSource, read_fault};
