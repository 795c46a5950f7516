//! The classes and permissions in the statements of a policy that Xen's FLASK policy does not have.
//!
//! [`push_unknown_words`] adds a finding for each such word of a statement, with the name that may be meant, and
//! [`warn_words`] adds those of an allow statement, with the permission that no call asks for.
//!
//! It is proved which classes have a finding, that no finding is an error, and that each has the column of its word.
//!
//! It uses `gt_findings` (findings and messages), `gt_policy` and `gt_policy_statements` (statements) and `gt_types`
//! (permissions).
#![tactic(auto)]

mod listed;

pub use listed::{push_unknown_words, warn_words};
