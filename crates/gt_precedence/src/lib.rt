//! Precedence of calls: a script with a flag for it gives exactly the texts of the orders in which it holds.
//!
//! In an order of a script's run the call of one line *precedes* that of another if it has its answer before the other
//! begins. `RunScript::preceding` of `gt_script` adds a flag for that, which is raised right behind the one call and
//! awaited right before the other. The laws of this crate say that this is right: the texts of the script with the
//! flag are those of the orders without it in which the one call precedes the other ([`one_precedence_is_exact`]), and
//! the same holds of several precedences ([`all_precedences_are_exact`]). `specs/Precedence.antt` defines precedence
//! without flags, by the place at which a call begins and that at which it has its answer
//! ([`each_call_has_its_places`]). Each law is a function that does nothing, whose contract is the law.
//!
//! It uses `gt_script` (scripts with precedences), `gt_explore_replay` (orders, and the texts that a script may give),
//! `gt_script_runs`, `gt_script_lines`, `gt_model` and `gt_types`.
#![tactic(auto)]

mod laws;

pub use laws::{
    all_precedences_are_exact, each_call_has_its_places, one_precedence_is_exact,
    parsed_scripts_are_orderly,
};
