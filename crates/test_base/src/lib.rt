//! Tests of the crates at the bottom, over their public items: `gt_types`, `gt_entry`, `gt_frames`, `gt_handles`,
//! `gt_text` and `gt_audit`.
//!
//! They test what no contract specifies: printed texts, worked values of `grant_table.h`, that each call that allocates
//! succeeds if there is enough memory, and what threads find in a log to which they push at the same time.
#![tactic(auto)]

#[cfg(test)]
mod compare;
#[cfg(test)]
mod entry;
#[cfg(test)]
mod frames;
#[cfg(test)]
mod handles;
#[cfg(test)]
mod log;
#[cfg(test)]
mod log_lines;
#[cfg(test)]
mod streams;
#[cfg(test)]
mod types;
