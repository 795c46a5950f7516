//! Names of calls in an expression about a script.
//!
//! A line `do ID CALL as NAME` of a script names its call. [`numbered`] returns an expression with the number of that
//! line in the place of its name, so `back=N19` is `17=N19` if line 17 ends with `as back`. An expression with names
//! outlives an edit of the script that moves its lines.
//!
//! What is replaced, and what is not, is defined in `specs/`. It uses `gt_script_lines` (the names of calls) and
//! `gt_text` (numbers).
#![tactic(auto)]

mod fault;
mod lines;
mod numbering;

pub use fault::NameFault;
pub use numbering::{calls_named, numbered};
