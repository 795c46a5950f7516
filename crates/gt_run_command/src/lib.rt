//! The command `run` on a named text: the output and the outcome.
//!
//! [`run_asked`] runs the script of the named file, or of the standard input, with its domains in threads. It writes
//! the text as it is or as JSON Lines, and adds the reasons of refusals if they are asked for.
//!
//! It is proved that the output is what `run` of `gt_linearization` writes at a gate that refuses no flag: a text that a
//! run of the script may print, and one that `explore` lists if no line of it has N26 (`RunsDomains` in specs/Runs.antt).
//! As JSON it is that of such a text (`RanAsJson`).
//!
//! It uses `gt_linearization` and `gt_run` (runs), `gt_audit` (their log), `gt_json` (the JSON of a text),
//! `gt_command_line` (plans), `gt_command_reasons` (the reasons of faults), `gt_file_commands` (outcomes and failures),
//! `gt_script_runs` and `gt_text`. Its definitions also name `gt_script`.
#![tactic(auto)]

mod commands;
mod formats;
mod json;
mod reasons;

pub use commands::run_asked;
