//! What `explore` prints of the texts found for a script: the answer to each request, as text and as JSON.
//!
//! [`conditions_asked`] reads the conditions of a request. [`answer_request`] returns the whole output and the verdict:
//! the texts under their numbers, the verdict on a claim, the number of a text, or scripts for `play` that give texts. It
//! is given the texts; `gt_explore` finds them. The moves that lead to a text are those of `gt_explore_tracing`.
//!
//! A script for `play` that is returned gives the answers of its text: it is played before, and the answers are
//! compared (`gt_explore_witness`). So no promise depends on how a script was made. The definitions are in `specs/`.
//!
//! It also uses `gt_explore_verdict` (conditions and verdicts), `gt_explore_replay` and `gt_explore_search` (orders),
//! `gt_explore_faults`, `gt_script` and `gt_script_lines` (scripts), `gt_script_runs`, `gt_json`, `gt_text` and
//! `gt_types`.
#![tactic(auto)]

mod answering;
mod asking;
mod conditions;
mod formats;
mod found;
mod given;
mod json;
mod objects;
mod outputs;

pub use answering::{ExploreOutput, verdict_of_all};
pub use asking::{ExploreFormat, ExploreOptions, ExploreRequest};
pub use conditions::{conditions_asked, satisfied};
pub use formats::answer_request;
pub use found::{FoundTexts, has_its_text, numbered};
pub use given::refused_text;
pub use objects::{push_summary, push_text_object};
pub use outputs::{
    push_counterexample, push_found_texts, push_heading, push_heading_line, push_place,
    push_states_line, push_verdict,
};
