//! Faults of an exploration: why the texts of a script were not found, and why they were not written.
//!
//! [`TextsFault`] is what the search and the answers return, [`ExploreFault`] what the command `explore` ends with, and
//! [`ClaimsFault`] what it ends with if claims are stated by names, or several of them.
//! Each prints as one line; the lines are in `specs/`. Faults of what lies below become a `TextsFault` by `?`.
//!
//! It uses the faults of `gt_explore_search` (the search), `gt_explore_verdict` (expressions), `gt_script_runs` (a
//! play) and `gt_types` (memory). It is a separate crate so that commands that print a fault do not wait for what
//! explores.
#![tactic(auto)]

mod claims;
mod fault;

pub use claims::{ClaimsFault, PrecedenceFault};
pub use fault::{ExploreFault, TextFault, TextsFault};
