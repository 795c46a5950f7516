//! Claims about the orders of a script in which one call precedes another: terms such as `12<17`.
//!
//! The term holds of an order in which the call of line 12 is answered before that of line 17 begins. A text does not
//! show that. A side is the number of a line or the name of a call. [`explore_preceding`] has two ways:
//! - Terms joined by `&` in a `find` or `never`: it explores the orders of which they hold. These are those of the same
//!   script with a flag that is raised behind the one call and awaited before the other (`preceding` of `gt_script`).
//! - Any other claim: it judges each order by its text and by the terms that hold of it (`gt_explore_ordered`).
//!
//! Which calls a term names, and what is explored, is defined in `specs/`. It uses `gt_explore` (the answer about a
//! parsed script), `gt_explore_answers` (requests), `gt_explore_faults`, `gt_explore_search` (the watch over a search),
//! `gt_explore_ordered` (texts with precedences), `gt_explore_verdict`, `gt_call_names` (the names of calls),
//! `gt_precedence`, `gt_script`, `gt_script_runs` and `gt_text`.
#![tactic(auto)]

mod exploring;
mod judging;
mod orders;
mod pairs;
mod replacing;
mod showing;
mod terms;

pub use exploring::{PrecedenceOptions, explore_preceding};
pub use terms::has_precedence;
