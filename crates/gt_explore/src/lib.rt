//! The texts that a script for `run` may give, over all orders of its domains' moves: the command `explore`.
//!
//! [`texts_found`] searches for orders (`gt_explore_moves`) and replays each of them on the core (`gt_explore_replay`).
//! [`explore`] reads a script, finds its texts once, and writes the answer that `gt_explore_answers` makes of them: the
//! texts, each with its number, the verdict on a claim, the lines of a script for `play` that gives one of them, or the
//! moves that lead to one.
//!
//! The texts returned or written are texts that the script may give (`MayGive` of `gt_explore_replay`), each of them
//! once. They are all such texts, unless the search met more states than its limit, its watch ended it, memory was
//! wanting, or those found decide each claim (`FoundTexts::whole`). That a text is possible depends on the core, and
//! that none is missing on the search.
//!
//! Besides these crates it uses `gt_explore_search` (orders), `gt_explore_verdict`, `gt_explore_faults`, `gt_script`,
//! `gt_script_runs` and `gt_text` (reads and writes). Its definitions also name `gt_policy`.
#![tactic(auto)]

mod deciding;
mod exploring;
mod texts;

pub use deciding::{ClaimTest, TextsTest, texts_enough};
pub use exploring::{explore, explore_bytes, explore_script};
pub use gt_explore_answers::{ExploreFormat, ExploreOptions, ExploreRequest, FoundTexts};
pub use gt_explore_faults::{ExploreFault, TextsFault};
pub use texts::{add_order, in_order, texts_found};
