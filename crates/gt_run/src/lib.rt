//! Runs the domains of a script at the same time, each in its own thread.
//!
//! Each domain has a list of lines: calls, which it makes on the monitor of `gt_live`, flags that it raises, and flags
//! that it awaits at a [`Gate`]. No list begins before all threads are started. The answers of each domain are written
//! in its own order, those of the first domain first, and the audit lines after all of them.
//!
//! [`run`] promises that each line printed is the answer of its own call, whatever the schedule, and that none is lost,
//! doubled or out of order. It depends on the promises of `gt_live` for the calls, of `gt_script_runs` for what a
//! line asks and prints, and of the standard library for threads. That a thread makes progress is not proved.
//!
//! It uses `gt_live` (the monitor and its domains), `gt_script` and `gt_script_lines` (scripts), `gt_script_runs` (what
//! lines ask and print), `gt_audit` (records), `gt_core` (answers), `gt_entry`, `gt_frames`, `gt_words`, `gt_text`
//! (reads and writes) and `gt_types`. Its definitions also name `gt_calls`, `gt_handles`, `gt_policy`,
//! `gt_shared_table` and `gt_word_history`.
#![tactic(auto)]

mod fault;
mod gate;
mod laws;
mod lists;
mod logging;
mod reading;
mod running;
mod serving;
mod threads;

pub use fault::RunFault;
pub use gate::{FLAGS, FlagGate, Gate};
pub use laws::no_script_names_so_many_flags;
pub use lists::{DomainPart, RunContext};
pub use reading::run;
pub use threads::run_lists;
