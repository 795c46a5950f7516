//! The `neverflow` statements of a text, and the paths of bytes that break them; and all that such a text finds.
//!
//! A `neverflow` statement forbids that bytes of its sources reach its targets, by any accesses one after another.
//! [`breaches`] reads a policy and a text of `neverallow` and `neverflow` statements, and returns what breaks them.
//! [`push_never_findings`] prints it, in the layout of compilers or as JSON.
//!
//! It is proved that a flow is a breach exactly if a statement forbids it and the policy has a path for it, with a
//! shortest path; and that breaches of `neverallow` statements, unknown words and faults are those of `gt_neverallow`.
//! Each is printed once, in their order.
//!
//! It uses `gt_neverallow` (the statements, their faults, and the breaches of `neverallow` statements), `gt_flow`
//! (paths), `gt_policy_questions` (names of types), `gt_policy` and `gt_allow` (the policy and its table),
//! `gt_policy_statements` (types), `gt_findings` (findings), `gt_types` and `gt_text` (text).
#![tactic(auto)]

mod finding;
mod flowing;
mod printing;

pub use finding::{NeverFindings, breaches};
pub use flowing::FlowBreach;
pub use printing::{BrokenTexts, push_never_findings};
