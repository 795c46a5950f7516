//! The words and bytes of a small state, which keeps only what differs from the start, and equality of the calls and
//! steps that such states also have.
//!
//! A domain has rows of the entries that were touched, by their references, and a frame has bytes up to the last one
//! that was written. The functions here read and change them as if all entries had rows, and all frames all their bytes:
//! the contracts of [`SparseState`] state this against a history of the run.
//!
//! [`same_call`], [`same_step`] and [`same_result`] return true only for equal values: that is proved.
//!
//! It uses `gt_calls` (what an owner knows of an entry, calls and steps), `gt_core` (histories), `gt_entry`,
//! `gt_frames` (what a write leaves), `gt_handles`, `gt_roster` and `gt_types`.
#![tactic(auto)]

mod copies;
mod effects;
mod ground;
mod laws;
mod lists;
mod pages;
mod rows;
mod same;
mod sight;
mod table;
mod writing;

pub use ground::SparseState;
pub use laws::{
    every_beginning_changes_nothing, every_like_run_goes_on, every_like_run_starts,
    every_like_step_fits, every_right_step_fits,
};
pub use pages::SparsePage;
pub use rows::TableRow;
pub use same::{same_call, same_result, same_step};
pub use table::SparseTable;
