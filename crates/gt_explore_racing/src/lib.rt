//! The command `explore --races`: the races of a script.
//!
//! [`explore_races`] reads a script for `run`, searches for its races (`search_races` of `gt_explore_races`), and
//! writes a line for each: the lines of two calls that access a common byte, one directly after the other in some
//! order, where at least one writes it. Or it writes a script for `play` that shows one of them, made from the path to
//! the race (`path_to_race`): its lines are the moves up to the race, and the last two are the two accesses.
//!
//! Proved: each pair of lines that is written races. If the last line does not say that states are missing, each pair
//! that races is written (`RacesExplored` in specs/Exploring.antt). The body of a script has a line for each event of the
//! beginning of an order up to the race that is asked for, then one for each of the two accesses, and no other line. The
//! last calls that the two domains begin are those of the race, and `play` ran the script to its end (`ShowsRace` in
//! specs/Showing.antt). Or a line takes its place, and the policy does not let some domain unmap the entries of another
//! (`IsWithoutScript`).
//!
//! It uses `gt_explore_races` (races, and paths to them), `gt_explore_witness` and `gt_moment_scripts` (scripts for
//! `play`), `gt_explore_search` (the watch over a search), `gt_explore_faults`, `gt_explore_verdict`, `gt_script`,
//! `gt_script_lines`, `gt_script_runs`, `gt_text` and `gt_types`. Its definitions also name `gt_policy`.
#![tactic(auto)]

mod asking;
mod calls;
mod exploring;
mod lines;
mod making;
mod outputs;

pub use asking::{RaceOptions, RaceRequest};
pub use exploring::explore_races;
