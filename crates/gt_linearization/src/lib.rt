//! Each run of the monitor is one legal interleaving of the core's events.
//!
//! A run is the one order of all steps of all seats (`gt_words`), with the calls, the steps on flags and the looks that
//! each domain made, as their contracts describe them (`gt_live`). For each run whose calls are finished, there is an
//! order of the core's items, which is legal (`gt_core`), with the steps on flags and the looks between them. Its steps
//! are those of the run in their order, accesses to bytes too, and each call has the answer that its domain gave
//! ([`every_run_has_a_legal_order`]). Each law is a function that does nothing, whose contract is the law.
//!
//! [`run`] runs a script. By its contract, what it appended is a text that a run of the script may print. `explore`
//! lists that text, if it has neither N26 nor the line of a gate. A gate that refuses no flag stops no list. Other laws
//! promise the same by the calls of the lists ([`every_run_is_printed`], [`every_run_is_explored`]), of each text
//! without such lines ([`printed_texts_are_given`]), and of each text that `explore` lists
//! ([`given_texts_are_printed`]).
//!
//! It uses `gt_run`, `gt_explore_replay`, `gt_script_runs`, `gt_script`, `gt_script_lines`, `gt_live`, `gt_audit`,
//! `gt_core`, `gt_words`, `gt_shared_table`, `gt_word_history`, `gt_calls`, `gt_frames`, `gt_handles`, `gt_entry`,
//! `gt_text`, `gt_types` and the kit's `atomic_table` and `hex`.
#![tactic(auto)]

mod laws;
mod running;

pub use laws::{
    calls_of_domains_are_made, closing_is_withdrawing, core_sees_the_words,
    every_run_has_a_legal_order, every_run_is_explored, every_run_is_printed,
    every_run_writes_a_legal_order, every_text_is_of_a_legal_order, every_unlogged_run_is_printed,
    following_is_calling, given_texts_are_printed, leaving_is_releasing, printed_texts_are_given,
    steps_keep_agreement,
};
pub use running::run;
