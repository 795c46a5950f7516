//! `play`: runs a script on the core and prints its answers.
//!
//! `play` reads a script, runs its lines one after the other on the core, and writes a line for each answer and for
//! what a line shows. A call runs to its answer, or step by step between those of others. It takes any reader and
//! writer, so the program, a test and a service drive the same code.
//!
//! It is proved that the text that goes out is that of a run of the script, that what the run did is a legal trace of
//! the core, and that the text is whole if `play` returns Ok. For a script with a fault nothing is written, and the
//! error is the first fault of the script. After a failed write or allocation, a prefix of such a text has gone out.
//! The audit, if it is on, appends the records of what the run did, and changes no other line.
//!
//! It uses `gt_script_runs` (what lines ask and print), `gt_script` and `gt_script_lines` (scripts), `gt_core` (calls),
//! `gt_calls` (the bound on the steps of a call), `gt_entry` (entries), `gt_audit` (records and their lines), `gt_text`
//! (texts, reads and writes), `gt_types` and `hex`. Its proofs also name the handles of `gt_handles`.
#![tactic(auto)]

mod audit;
mod fault;
mod kept;
mod laws;
mod open_calls;
mod playing;
mod run;
mod showing;

pub use laws::{every_beginning_is_of_the_text, every_script_prints_one_text};
pub use playing::play;
