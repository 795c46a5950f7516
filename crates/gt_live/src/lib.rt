//! The monitor of a run, and its domains, each for one thread.
//!
//! [`Monitor::new`] makes the monitor, which all threads share, and a [`Domain`] for each domain of the configuration.
//! A `Domain` has to be finished, so it moves into a thread inside a value that finishes it when dropped.
//! Each call makes the steps of its path (`gt_calls`) itself, on the shared words of `gt_words`. Only the calls that
//! access bytes lock a frame for it, and only they may wait.
//!
//! The steps that a call adds to its domain's seat are, action by action, the path of that call, and its result is the
//! one that the path gives (`specs/Walks.antt`). Between calls a domain has exactly the pins of its mappings, and a
//! domain that has left has none (`specs/Domains.antt`). If a call that accesses bytes is Ok, it returns the receipt of
//! exactly what its path accesses (`specs/Accesses.antt`).
//!
//! It uses `gt_calls`, `gt_words`, `gt_frames`, `gt_handles`, `gt_audit`, `gt_entry`, `gt_roster` and `gt_types`. Its
//! contracts also name definitions of `gt_shared_table` and `gt_word_history`, and its proofs the kit's `byteorder`.
#![tactic(auto)]

mod access_paths;
mod accesses;
mod domain;
mod driving;
mod gathering;
mod headers;
mod laws;
mod monitor;
mod owning;
mod start;

pub use access_paths::CopyWords;
pub use domain::{Departed, Domain, Followed, LeftWord, NewMapping, PendingCopy};
pub use laws::{
    every_call_that_gives_up_missed_four_tries, every_change_makes_four_tries,
    every_leg_makes_four_tries, following_makes_calls, marks_change_no_meaning,
    two_halves_make_a_copy,
};
pub use monitor::Monitor;
