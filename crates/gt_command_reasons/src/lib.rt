//! The reasons that commands print of their faults: what is wrong, in which file and where.
//!
//! [`Reasons`] collects the reasons of one command. They are printed after the line of the fault (`play`, `run` and
//! `policy` with `-v`), or as that line (the other commands). To give a reason a command reads through a
//! [`CopyingReader`], which keeps what it read ([`KeptInput`]). [`shown_name`] is the name with which lines begin.
//!
//! A reason that can't be allocated is left out. No contract specifies what a reason is, since none depends on it:
//! tests compare the lines.
//!
//! It uses `gt_fault_reasons` (the words for scripts), `gt_policy_reasons` (the words for policies, and the errors of
//! commands about them), `gt_command_line` (plans), `gt_entries`, `gt_explore_choices`, `gt_explore_faults`,
//! `gt_host`, `gt_policy`, `gt_policy_list`, `gt_policy_questions`, `gt_policy_statements`, `gt_script_runs` and
//! `gt_state_claims` (faults), `gt_findings` (findings) and `gt_text` (texts).
#![tactic(auto)]

mod collecting;
mod copying;
mod dumps;
mod exploring;
mod flows;
mod given;
mod names;
mod scripts;

pub use collecting::Reasons;
pub use copying::{CopyingReader, KeptInput};
pub use names::shown_name;
