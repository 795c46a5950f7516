//! One order of a script's run, move by move, and the texts that a script for `run` may give.
//!
//! A [`Replay`] has the domains of a script at the beginnings of their lists, on a core at rest. Each `advance` makes
//! the next move of one of them: the beginning of a call, a step of it, a flag that is raised or passed, or the
//! beginning of a release by a domain at the end of its list. So a list of turns is one order of the run. [`text_of`]
//! returns its text.
//!
//! Each text that `text_of` returns is one that the script may give. `specs/Orders.antt` defines what that is, by
//! gt_core's `Legal`, the script's lists and its flags, without turns and without a search.
//!
//! It uses `gt_script` and `gt_script_lines` (scripts), `gt_core` (calls), `gt_script_runs` (what lines ask and print),
//! `gt_explore_search` (turns) and `gt_types`. Its definitions also name `gt_calls` and `gt_handles`, and its proofs
//! `gt_entry`, `byteorder` and `hex`.
#![tactic(auto)]

mod laws;
mod replay;
mod walker;

pub use laws::{every_order_has_turns, every_release_is_ok};
pub use replay::{Moved, Replay, text_of};
pub use walker::Walker;
