//! Questions about the types of a policy: which pairs are allowed, and from which types bytes may flow to which.
//!
//! A question names types, or attributes that ask for each type that has them. [`pairs`] answers for each pair of a
//! source and a target: a line each, and how many of how many are allowed. [`flow`] answers by a shortest path of
//! accesses, as `search` of `gt_flow` finds it, or that there is none. Its question may name trusted types, whose stores
//! are left out: such a domain passes on only what it chooses. The text of a path has for each access the statements
//! that grant what it asks for, as lines or as JSON.
//!
//! It is proved that a line of [`pairs`] says `allowed` exactly if the policy of the text allows a permission that is
//! asked for, that each pair has one line, and that the two numbers are those of the allowed pairs and of all; and that
//! [`flow`] has a path exactly if there is one, and prints a shortest one.
//!
//! It uses `gt_allow` (one look for each pair), `gt_flow` (the search for paths), `gt_policy` and
//! `gt_policy_statements` (types, their attributes, and what statements grant), `gt_text` and `gt_json` (lines and
//! strings) and `gt_types` (permissions, the trait of policies).
#![tactic(auto)]

mod asking;
mod flows;
mod listing;

pub use asking::{PairsQuestion, PairsReport, pairs, types_asked_of};
pub use flows::asking::{FlowAnswer, FlowQuestion, FlowReport, flow};
pub use flows::format::FlowFormat;
pub use listing::pair_type_name;
