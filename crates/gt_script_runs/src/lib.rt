//! What the lines of a script ask of a core, and what their answers print.
//!
//! [`core_of`] makes the core of a script, with what its policy or its triples allow ([`ScriptPolicy`]). [`request_of`]
//! makes the request of a call, with the handles that [`Labels`] keeps, and [`push_answer_line`] prints its answer.
//! `play` (`gt_host`), `run` (`gt_run`) and `explore` all use them, so that they mean the same by a line.
//!
//! The definitions of a run of a script and of its text are here (specs/Runs.antt, specs/Playing.antt), since the
//! contracts of these three are about them. [`PlayFault`] is the fault that ends a play.
//!
//! It uses `gt_script` and `gt_script_lines` (scripts), `gt_core` (calls), `gt_allow` and `gt_policy` (what a policy
//! allows), `gt_text` (texts), `gt_types` and `hex`. Its definitions also name `gt_audit`, `gt_calls`, `gt_entry` and
//! `gt_handles`.
#![tactic(auto)]

mod answers;
mod fault;
mod labels;
mod requests;
mod rights;
mod starting;

pub use answers::{push_answer, push_answer_line, push_busy_line, push_idle_line, push_open_line};
pub use fault::PlayFault;
pub use labels::Labels;
pub use requests::{call_bytes, label_given, name_mapping, request_of};
pub use rights::ScriptPolicy;
pub use starting::core_of;
