//! The script language: parses the bytes of a script, or finds their first fault.
//!
//! A script is text of lines and words. Its head is a policy block, or allows triples of types, and configures domains.
//! Its body is a list of lines, each for one domain. `parse` reads a script for `play` and `parse_run` one for `run`.
//! Names and labels are borrowed from the bytes. `gt_script_lines` defines the meaning of a line. Whether it may be
//! where it is depends on the lines before it, and is defined here.
//!
//! It is proved that the result is exactly the script that the bytes mean, or exactly the first fault with its line,
//! unless an allocation fails; and that in a script for `run` no domain waits for ever, if every call is answered.
//!
//! It uses `gt_types` (domains and triples), `gt_policy` (the policy block), `gt_text` (bytes as text),
//! `gt_script_lines` and `indexmap` (the names of flags).
#![tactic(auto)]

mod actions;
mod blocks;
mod command;
mod faults;
mod flags;
mod head;
mod laws;
mod parsing;
mod precedence;
mod run_script;
mod script;
mod stuck;
mod tasks;
mod types;

pub use actions::ScriptAction;
pub use blocks::{block_closing, block_opening};
pub use faults::{BlockFault, ScriptError, ScriptFault, ScriptFaultKind};
pub use gt_script_lines::{ScriptCall, Text, hex_bytes};
pub use head::ScriptHead;
pub use laws::{every_fault_is_reported, every_text_has_one_meaning, every_text_has_one_run};
pub use parsing::parse;
pub use precedence::Precedence;
pub use run_script::{RunScript, parse_run};
pub use script::{Script, ScriptStep};
pub use tasks::{RunAction, RunTask};
