//! Tests of parts of the program, over the public items of `gt_command_line` (the command line), `gt_script` (the parser
//! of scripts), `gt_host` (`play`, from a reader to a writer), `gt_explore_choices` and `gt_explore_by_choice` (scripts
//! with choices), `gt_explore_states` with `gt_state_claims` (moments of a run), `gt_explore_races` (races), and
//! `gt_explore_kinds` with `gt_explore_verdict` (texts of each kind).
//!
//! They test what no contract specifies: that a command line is answered, and choices are explored and a search for a
//! moment, for races or for texts of each kind is decided if there is memory. They test texts that are too long for a
//! file and are made here by repetition: texts at the limits, and as many pins as there can be. Worked scripts are in
//! `cases_play`: with their parsed form, whole and cut off, and played, also with their audit and over readers, writers
//! and allocators that fail.
#![tactic(auto)]

#[cfg(test)]
mod choices;
#[cfg(test)]
mod kinds;
#[cfg(test)]
mod limits;
#[cfg(test)]
mod moments;
#[cfg(test)]
mod plans;
#[cfg(test)]
mod playing;
#[cfg(test)]
mod races;
#[cfg(test)]
mod words;
