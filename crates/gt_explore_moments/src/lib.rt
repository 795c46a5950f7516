//! The command `explore --never-state`: a claim that no moment of a script's run has these states of entries.
//!
//! [`explore_moment`] reads a script for `run` and the claim, searches for a moment of some order at which the claim
//! holds (`search_state` of `gt_explore_states`), and writes the answer. If there is such a moment, the answer is a
//! script for `play` that reaches it and shows the entries that the claim names.
//!
//! Proved: `holds` is written only if no order has such a moment, and a script only if one has (`MomentExplored` in
//! specs/Exploring.antt). The script was played before, and the lines of its `show` are those of entries of which the
//! claim holds (`ShowsMoment`). Both speak of orders and of what `play` prints, and not of the search.
//!
//! It uses these, `gt_moment_scripts` (scripts for `play` that show a moment), `gt_explore_search` (the watch over a
//! search), `gt_state_claims` (claims), `gt_explore_faults`, `gt_explore_verdict`, `gt_script`, `gt_script_runs`,
//! `gt_text` and `gt_types`. Its definitions also name `gt_policy`.
#![tactic(auto)]

mod asking;
mod exploring;
mod outputs;

pub use asking::{MomentFault, MomentOptions};
pub use exploring::explore_moment;
