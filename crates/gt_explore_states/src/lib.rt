//! A search for a moment of a script's run at which a claim holds of what entries show.
//!
//! A moment is what has happened in an order of the script's run until some point. [`search_state`] visits the states
//! that the run can reach. At the first one of which the claim holds, it ends, and makes the turns that led there again
//! on the core, on to the end of a whole order.
//!
//! It promises that the turns returned lead to such a moment (`LeadsToMoment` in specs/Moments.antt), and that no order
//! has one if the answer is `Nowhere` (`HoldsNowhere`). Both speak of orders and histories, and not of the search.
//!
//! It uses `gt_explore_search` (the search), `gt_explore_moves` (the states of a script), `gt_explore_state` (tables),
//! `gt_explore_replay` (orders on the core), `gt_state_claims` (claims), `gt_explore_faults`, `gt_script`, `gt_core`,
//! `gt_calls`, `gt_roster` and `gt_types`. Its definitions also name `gt_model` and `gt_script_runs`.
#![tactic(auto)]

mod ending;
mod entries;
mod following;
mod searching;
mod space;

pub use searching::{StateFinding, StateSearch, search_state};
