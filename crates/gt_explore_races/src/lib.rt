//! The races of a script: pairs of its lines whose calls access a common byte, one directly after the other in an order
//! of the script's run, where at least one of them writes it.
//!
//! [`search_races`] visits the states that the run can reach. At a state where the next steps of two domains conflict,
//! a run may end, with the lines of the two calls as its text. The turns that lead there are made again on the core,
//! and then the run continues to the end of a whole order. [`path_to_race`] returns the events of such a run.
//!
//! It promises that each pair of lines that it returns races. If the search met all states, each pair that races is one
//! of them (`AreRacesOf` in specs/Races.antt). The events are those of an order up to the race, and the two accesses
//! come next (`LeadsToRace` in specs/Paths.antt). These speak of orders and steps, and not of the search.
//!
//! It uses `gt_explore_search` (the search), `gt_explore_moves` (the states of a script), `gt_explore_state` (tables
//! and pages), `gt_explore_replay` (orders on the core), `gt_explore_faults`, `gt_script`, `gt_calls`, `gt_core` and
//! `gt_types`. Its definitions also name `gt_model` and `gt_script_runs`.
#![tactic(auto)]

mod accesses;
mod ending;
mod events;
mod listing;
mod paths;
mod racing;
mod replaying;
mod searching;
mod space;

pub use events::EventKind;
pub use paths::{RacePath, path_to_race};
pub use racing::Race;
pub use searching::{RaceSearch, search_races};
