//! Texts of a script's run, each with the precedences of calls that hold in an order that gives it.
//!
//! [`ordered_within`] visits the states of a script, and tries all moves of each state. Where a call begins, it notes
//! which precedences that call completes: those whose first call has its answer by then. The search keeps these notes
//! among the lines of answers. So orders with the same text but other precedences count as two.
//!
//! It promises that each text returned is that of an order in which exactly the precedences hold that are listed with
//! it. If the search met all states, each order of the script has its text among these, with the precedences that hold
//! in it (`HasEachOrdered` in specs/Ordered.antt). Each order found is made again on the core, and its precedences are
//! read from its moves, so the first promise does not depend on the search.
//!
//! It uses `gt_explore_search` (the search), `gt_explore_moves` (the states of a script), `gt_explore_replay` (orders
//! on the core), `gt_precedence` (what a precedence is), `gt_explore_faults`, `gt_script` and `gt_types`. Its
//! definitions and proofs also name `gt_model`, `gt_script_lines` and `gt_script_runs`.
#![tactic(auto)]

mod following;
mod notes;
mod ordered;
mod places;
mod space;

pub use ordered::{OrderedFound, OrderedText, ordered_within};
