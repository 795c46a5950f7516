//! Summaries of the texts that a script for `run` may give: `explore --summary` and `explore --diff`.
//!
//! [`summarize`] finds the texts of a script once (`texts_found` of `gt_explore`), and writes the lines whose
//! answers vary, each answer with the number of texts that have it; or the lines in which two of the texts differ, with
//! both answers. A text has lines `LINE ID ANSWER`. Those of several texts at one index are a column, and are compared. A
//! law says that the counts of a line are those of all texts together, with no answer left out.
//!
//! What is written is defined in `specs/`, for texts that the script may give: all of them, unless the search met more
//! states than its limit, its watch ended it, or memory was wanting. It also uses `gt_explore_answers` (the texts, and
//! the numbers of the search), `gt_explore_faults`, `gt_explore_search` (orders, and the watch over a search),
//! `gt_explore_verdict`, `gt_json`, `gt_script`, `gt_script_runs` and `gt_text`. Its definitions also name `gt_policy`.
#![tactic(auto)]

mod asking;
mod columns;
mod counts;
mod laws;
mod lines;
mod objects;
mod shown;
mod summing;
mod writing;

pub use asking::{SummaryOptions, SummaryRequest};
pub use laws::the_counts_of_a_line_are_of_all_texts;
pub use writing::summarize;
