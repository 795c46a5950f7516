//! Two spaces of two counters, and tests that `gt_explore_search` finds all their texts.
//!
//! Both are proved to be a `TransitionSystem`, so a space can keep all its promises. In one the first counter prints at
//! each step the value of the second one, so its text shows in which order they counted. In the other the counters are
//! independent, and one order is enough.
#![tactic(auto)]

mod apart;
mod counters;
#[cfg(test)]
mod texts;

pub use apart::{Apart, Place};
pub use counters::{Counters, Tally};
