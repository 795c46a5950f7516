//! Tests of `gt_start` and `gt_attached`, which the exports of `gt_c` call, over their public items.
//!
//! They test what no contract specifies: that a run of 1 to 64 domains starts if memory is ample, that the domains
//! share pages, and what they leave in use.
#![tactic(auto)]

#[cfg(test)]
mod runs;
