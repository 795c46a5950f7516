//! An order of a script's run that changes least between domains, among those that give a text.
//!
//! A block is a longest sequence of moves of one domain, so an order changes domain once less often than it has blocks.
//! [`with_fewest_blocks`] searches the states of a script with the domain that moved last and the number of blocks so
//! far, first for an order in one block, then for one in two, and so on (`BlockSpace`). It stops at the first order that
//! gives the text.
//!
//! It promises that the order returned gives the text, and that no order with this text has fewer blocks if
//! `is_fewest` is true (`HasFewestBlocks` in specs/Fewest.antt). It is false if a search met more states than its limit.
//!
//! It uses `gt_explore_search` (the search), `gt_explore_moves` (the states of a script), `gt_explore_replay` (orders),
//! `gt_explore_faults`, `gt_script` and `gt_types`. Its definitions also name `gt_script_runs`.
#![tactic(auto)]

mod blocks;
mod fewest;
mod parts;
mod space;

pub use fewest::{FewestBlocks, with_fewest_blocks};
