//! The program `gthost` over texts: from the words of a command line to the output and the exit status.
//!
//! [`obey`] does what the words ask for (`plan` of `gt_command_line`): it plays, runs or explores a script, lists or checks
//! a policy, explains why a policy allows something, prints the entries of a dump, or lists the rules. It returns an
//! [`Outcome`], which the mains turn into the exit status: 0 for yes and for what was done, 1 for no and for a fault of
//! `play`, `run` and `policy`, and 2 for a fault of another command and for a wrong command line. A fault goes to the
//! standard error in one line that begins with `gthost: `: for `play`, `run` and `policy` the fixed line, followed by
//! its reasons if they are asked for, and for other commands the file, the place and the reason.
//!
//! Texts come from a trait, [`TextSource`], and go to any writer. So the contracts specify, for texts and a writer with
//! known bytes, what is written for which words and with which status. That an error comes only if there is one is
//! tested.
//!
//! It uses `gt_command_line` (plans) and `clap` (their errors), `gt_file_commands`, `gt_run_command`,
//! `gt_explore_claims`, `gt_explore_precedence`, `gt_explore_tracing`, `gt_explore_racing`, `gt_explore_by_choice` and
//! `gt_explore_moments` (the commands), `gt_command_reasons` (the reasons of faults), `gt_script_runs` (faults of plays),
//! `gt_explore_answers`, `gt_explore_choices`, `gt_explore_faults`, `gt_explore_search`, `gt_explore_summary` and
//! `gt_explore_verdict` (requests, choices, faults, progress, summaries and verdicts of `explore`),
//! `gt_policy_statements` (questions), `gt_text` and `gt_types` (limits). Its definitions also name `gt_explore`,
//! `gt_linearization` and `gt_script`.
#![tactic(auto)]

mod choosing;
mod exploring;
mod following;
mod laws;
mod moments;
mod obeying;
mod progress;
mod system;

pub use gt_file_commands::{Context, Outcome, Style, TextSource};
pub use laws::every_run_is_among_the_explored;
pub use obeying::{obey, obey_read};
pub use system::{System, run};
