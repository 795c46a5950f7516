//! What is wrong or useless in a policy text.
//!
//! [`check`] finds the first fault of a text, or what is useless in a policy, with hints. [`check_worn`] does the same
//! for the policy block of a script, whose domains have some types.
//!
//! It is proved that a text has an error exactly if it is not a policy, at the line of its first fault. The warnings
//! include exactly the statements that allow nothing, and exactly those that repeat an earlier one.
//!
//! It uses `gt_findings` (findings and the columns of words), `gt_policy_statements` (what statements grant),
//! `gt_policy_words` (unknown words), `gt_policy` (the statements of a text), `gt_text` and `gt_types` (permissions).
#![tactic(auto)]

mod allow_columns;
mod checking;
mod declared;
mod domains;
mod earlier;
mod fault;
mod judging;
mod misfits;
mod outside;
mod useless;

pub use checking::{check, check_worn};
