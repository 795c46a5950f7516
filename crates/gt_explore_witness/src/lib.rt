//! Scripts for `play` that give a text of a script for `run`.
//!
//! [`witness_of`] makes such a script from the turns that lead to the text: a line for each step of a call, and names
//! for the mappings that a label doesn't tell apart. [`gives_answers`] plays a script, and compares its answers with
//! those of a text, domain by domain. [`may_not_unmap`] returns whether there may be none: `play` has no line by which
//! a domain leaves, and the policy may not let it unmap.
//!
//! It promises what the comparison says (`GivesAnswers`), and nothing of a script that is made. So a caller plays each
//! script before it prints it. The definitions are in `specs/`.
//!
//! It uses `gt_host` (`play`), `gt_explore_replay` (replays), `gt_explore_search` (turns), `gt_explore_faults`,
//! `gt_script` and `gt_script_lines` (scripts), `gt_script_runs` (answers, and what a policy allows), `gt_handles`,
//! `gt_text` and `gt_types`.
#![tactic(auto)]

mod checked;
mod leaving;
mod making;
mod naming;

pub use checked::gives_answers;
pub use leaving::may_not_unmap;
pub use making::{PlayScript, witness_of};
