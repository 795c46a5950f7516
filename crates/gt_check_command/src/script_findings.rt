//! What is wrong or useless in a script and its policy block.
//!
//! `judge` finds the error of a script, or what is useless in one: what `gt_policy_check` finds in its policy block,
//! the types that no domain has, the statements and triples that allow nothing to its domains, the labels that no
//! earlier map has, and the calls that are refused whatever comes before them.

mod block;
mod calls;
mod configured;
mod faults;
mod judging;
mod labels;
mod triples;
mod warning;
mod worn;

pub use judging::judge;
