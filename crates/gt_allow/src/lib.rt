//! The compiled allow table of a policy, which answers with one look.
//!
//! [`AllowTable::compile`] asks a [`Policy`](gt_policy::Policy) once for each of its types. It keeps one set of
//! permissions for each pair of types, and no statement.
//!
//! It is proved that an [`AllowTable`] answers as the policy does, for all types and permissions: its contract is one
//! equation between the two, as functions of source, target and permission. Both answer no if a type is not declared,
//! for several permissions, and for none.
//!
//! It uses `gt_policy` (what a policy allows), `gt_types` (types, permissions, rights) and `bitflags` (sets of bits).
#![tactic(auto)]

mod table;

pub use table::AllowTable;
