//! Scripts for `play` that reach a moment of a script's run, and show what entries show at it.
//!
//! [`moment_script`] makes such a script from turns that lead to the moment. It has a `show` line for each entry that a
//! claim names ([`entries_named`]). [`foreign_domain`] finds a domain of a claim that a script does not have. [`played`]
//! plays a script, and [`without_script`] returns the line in place of one.
//!
//! Proved: the script was played, and the lines of its `show` are those of entries of which the claim holds
//! (`ShowsMoment` in specs/Showing.antt). Or a line takes its place, and the policy does not let some domain unmap the
//! entries of another (`IsWithoutScript`).
//!
//! It uses `gt_explore_witness` (scripts for `play`), `gt_explore_replay` and `gt_explore_search` (orders and turns),
//! `gt_host` (`play`), `gt_state_claims` (claims), `gt_explore_faults`, `gt_core`, `gt_model`, `gt_script`,
//! `gt_script_runs`, `gt_text`, `gt_types` and `hex`.
#![tactic(auto)]

mod naming;
mod playing;
mod rows;
mod showing;

pub use naming::{NamedEntry, entries_named, foreign_domain};
pub use playing::{moment_script, played, without_script};
