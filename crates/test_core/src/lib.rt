//! Tests of `gt_calls` and of `gt_core` over their public items.
//!
//! They test what no contract specifies: whole calls, step by step, with worked words of `grant_table.h`; worked runs
//! with the answer of each call; and that a call can continue after a failed allocation.
#![tactic(auto)]

#[cfg(test)]
mod calls;
#[cfg(test)]
mod doing;
#[cfg(test)]
mod memory;
#[cfg(test)]
mod pins;
#[cfg(test)]
mod runs;
