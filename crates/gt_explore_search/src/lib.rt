//! A search for the texts of all runs of a transition system.
//!
//! A [`TransitionSystem`] has the states that runs can reach, and the turns that lead from one to another. [`search`]
//! visits each state once, and returns an order with its text for each list of answers that the first state leads to.
//!
//! It promises that each run from its beginning to an end has its text among those found (`AllTextsFound`). This is
//! proved for every space that keeps the promises of `TransitionSystem`. That each text found is a run's is not proved
//! here: replay its turns. [`search_within`] has a limit of states, and a [`SearchWatch`], which shows how far a search
//! is and may end it.
//!
//! It uses `gt_types` (memory) and `indexmap`. It knows no script: `gt_explore_moves` gives it the runs of one.
#![tactic(auto)]

mod exploring;
mod fault;
mod marks;
mod numbers;
mod packed;
mod parts;
mod sharing;
mod spaces;
mod states;
mod suffixes;
mod tails;
mod watching;

pub use exploring::{FoundText, PartialResult, SearchResult, search, search_within};
pub use fault::SearchFault;
pub use spaces::{TransitionSystem, Turn, TurnResult};
pub use watching::{SearchWatch, Unwatched};
