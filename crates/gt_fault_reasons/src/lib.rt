//! The reasons why a script, or a call of it, was refused: lines to print after the fixed ones.
//!
//! A fault line has a line number and a word. `push_script_reason` prints what is wrong in that line: the word that
//! does not fit and what fits there, the limit that a domain exceeds, the flag that no domain raises in time.
//! `push_refusals` prints the statements or triples that are near misses for a call that the policy refused. The
//! reasons for policies are in `gt_policy_reasons`.
//!
//! It is proved that the words before the printed one fit the example of a form, that the printed one does not fit the
//! same example, and that of no other form more words fit. The texts of the reasons are tested.
//!
//! It uses `gt_script_lines` and `gt_script` (lines and faults), `gt_explore_choices` (lines that are only for
//! `explore`), `gt_policy_statements` and `gt_policy` (policies), `gt_findings` (hints), `gt_types` (limits) and
//! `gt_text` (texts).
#![tactic(auto)]

mod blocks;
mod columns;
mod forms;
mod limits;
mod misfit;
mod names;
mod reason;
mod refusals;
mod script;
mod syntax;
mod texts;
mod waits;

pub use blocks::{block_text, has_policy, policy_block};
pub use columns::column_of;
pub use limits::limit_of;
pub use misfit::fitting;
pub use names::{push_permission_reason, push_type_reason};
pub use reason::{Reason, ReasonNote};
pub use refusals::push_refusals;
pub use script::{
    limit_reason, push_read_reason, push_reason, push_script_reason, push_utf8_reason,
    script_reason, utf8_reason,
};
pub use syntax::first_misfit;
