//! Texts of a script's run, one of each kind: what a claim about all texts needs of them.
//!
//! Two texts are of one kind if they satisfy the same ones of some expressions. [`kinds_within`] visits the states that
//! `gt_explore_moves` searches. Of an answer it keeps only the numbers of the terms that it meets. So orders whose texts
//! meet the same terms, line by line, count as one.
//!
//! It promises that each text returned is one that the script may give. If the search met all states, each text that the
//! script may give is of the kind of one of these (`HasEachKind` in specs/Kinds.antt). Each order found is made again on
//! the core, so the first promise does not depend on the search.
//!
//! It uses `gt_explore_search` (the search), `gt_explore_moves` (the states of a script), `gt_explore_replay` (orders
//! on the core), `gt_explore_verdict` (expressions), `gt_explore_faults` and `gt_script`. Its definitions and proofs
//! also name `gt_model`, `gt_script_lines`, `gt_script_runs` and `gt_types`.
#![tactic(auto)]

mod kinds;
mod marks;
mod space;

pub use kinds::{KindsFound, kinds_within};
