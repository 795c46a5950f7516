//! Claims about a script by the names of its calls, and several claims together.
//!
//! [`explore_named`] answers a request as `explore` of `gt_explore` does. The expression of a claim may name calls
//! (`gt_call_names`). [`explore_claims`] decides several claims, a line each, over the same texts. The verdict is that of
//! all claims together. Claims of which no text shows the verdict are decided by one text of each kind
//! (`gt_explore_kinds`), and all texts are listed only for others.
//!
//! What is written, and what each verdict means, is defined in `specs/`: a claim that holds does so for each text that
//! the script may give.
//!
//! It uses `gt_explore` (searches), `gt_explore_kinds`, `gt_explore_answers` (conditions and texts), `gt_explore_verdict`
//! (verdicts), `gt_explore_faults`, `gt_explore_search` (the watch over a search), `gt_call_names`, `gt_script`,
//! `gt_script_lines`, `gt_script_runs`, `gt_json` and `gt_text`. Its definitions also name `gt_explore_replay` and
//! `gt_policy`.
#![tactic(auto)]

mod answers;
mod deciding;
mod exploring;
mod naming;
mod stated;
mod unlisted;

pub use exploring::{ClaimsOptions, explore_claims};
pub use naming::explore_named;
