//! The moves that lead to one of the texts of a script for `run`: the command `explore --trace`.
//!
//! [`trace`] finds the texts of a script once (`texts_found` of `gt_explore`), and for one of them an order with the
//! fewest blocks (`gt_explore_changes`). It makes the moves of this order again on the core (`gt_explore_trace`), and
//! writes them: a line each, a JSON object each, or as a sequence diagram.
//!
//! What is written is defined in `specs/`: the moves are those of an order of the script that gives the text of the
//! number, among texts that the script may give. That does not depend on how the order was found. If the output claims
//! the fewest blocks, no order with this text has fewer.
//!
//! It also uses `gt_explore_answers` (the texts, and the lines around the moves), `gt_explore_faults`,
//! `gt_explore_search` (orders, and the watch over a search), `gt_explore_verdict`, `gt_script`, `gt_script_runs`,
//! `gt_text` and `gt_types`. Its definitions also name `gt_policy`.
#![tactic(auto)]

mod answering;
mod asking;
mod exploring;
mod fewest;
mod moves;

pub use asking::{TraceOptions, TraceRequest};
pub use exploring::{trace, trace_bytes};
