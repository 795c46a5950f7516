//! The moves of one order of a script's run, and the lines that show them: what `explore --trace` prints.
//!
//! [`traced`] makes the moves of an order again on the core, and keeps them. [`push_trace`] writes a line for each, as
//! text, as JSON, or as a message of a sequence diagram, whose participants [`push_participants`] writes.
//!
//! It promises that the moves are those of an order of the script that gives the text of the order (`GivesText`), and
//! that each line has the words of its move (`trace_output`). So no promise depends on how an order was found. The
//! definitions are in `specs/`.
//!
//! It uses `gt_explore_replay` (replays), `gt_explore_search` (turns), `gt_script` and `gt_script_lines` (lines),
//! `gt_script_runs` (answers), `gt_core`, `gt_entry` and `gt_model` (steps), `gt_json`, `gt_text`, `gt_types`, `hex` and
//! `itoa`.
#![tactic(auto)]

mod answers;
mod diagram;
mod facts;
mod lines;
mod moves;
mod names;
mod places;
mod steps;

pub use diagram::push_participants;
pub use facts::TraceForm;
pub use lines::push_trace;
pub use moves::{TracedMove, TracedOrder, traced};
