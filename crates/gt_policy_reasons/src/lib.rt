//! The errors of commands about a policy, and the reasons why a policy, or the policy block of a script, was refused.
//!
//! [`WhyFault`], [`FlowFault`] and [`BreachFault`] are the errors of `why`, `flow` and `check --never`.
//!
//! [`push_policy_reason`] prints what `gt_policy_check` finds wrong in a text that is not a policy, and
//! [`push_block_reason`] does so for the block of a script, whose lines keep their numbers.
//!
//! It is proved that one line `FILE:LINE:COLUMN: REASON` is appended, at the line of the fault. The texts of the
//! reasons are tested.
//!
//! It uses `gt_fault_reasons` (reasons, and the reasons for scripts), `gt_policy_check` and `gt_findings` (what is wrong
//! in a policy), `gt_policy`, `gt_policy_list`, `gt_script` and `gt_script_lines` (faults and lines), `gt_text` and
//! `gt_types`.
#![tactic(auto)]

mod faults;
mod policy;

pub use faults::{BreachFault, FlowFault, NeverText, WhyFault};
pub use policy::{block_reason, policy_reason, push_block_reason, push_policy_reason};
