//! The commands `check` and `why`: they read a policy or a script and write findings or an answer.
//!
//! [`check`] reads a policy text and writes what is wrong or useless in it, and [`check_script`] does so for a script.
//! [`check_never`] writes the allow statements of a policy that break `neverallow` statements, and the flows that break
//! `neverflow` statements. [`why`] writes the statements by which a policy allows something, or the near misses. They take
//! any reader and writer, so the program and a test drive the same code.
//!
//! It is proved that `check` returns true exactly for a policy, and `check_script` exactly for a script, that
//! `check_never` returns true exactly if no allow statement grants what is forbidden and no forbidden flow has a path, and
//! that `why` answers by the statements of the policy and writes the lines of those that grant what is asked, or of the
//! near misses.
//!
//! It uses `gt_policy_check` (the findings in a policy), `gt_findings` (how they are printed), `gt_policy_statements`
//! (what statements grant), `gt_neverflow` and `gt_neverallow` (breaches),
//! `gt_policy_list` (the faults of a text), `gt_policy`, `gt_script` and `gt_script_lines` (scripts), `gt_fault_reasons`
//! (the reasons for faults), `gt_text` (reads and writes) and `gt_types`. What it finds in a script is in
//! `src/script_findings.rt`.
#![tactic(auto)]

mod breaking;
mod checking;
mod explaining;
mod reporting;
mod script_findings;
mod scripts;

pub use breaking::check_never;
pub use checking::check;
pub use explaining::{WhyRequest, why};
pub use scripts::check_script;
